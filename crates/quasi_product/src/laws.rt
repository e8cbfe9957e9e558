//! The laws of every product. The function does nothing: its contract is the theorem.
ghost use Rattle.zeta_model.specs.Product.{IsCommutative, IsAssociative};

use crate::Letters;

/// The product of two words does not depend on their order, nor that of three on how they are grouped, for covered words
/// of at most 24 letters together (Hoffman 2000).
pub fn product_laws<L: Letters>()
    ensures commutes { IsCommutative 24 L.alphabet }
    ensures associates { IsAssociative 24 L.alphabet }
{}

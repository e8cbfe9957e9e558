//! The regularisation of sums of words with respect to the shuffle (Ihara, Kaneko and Zagier 2006).
//!
//! `reg` sends each word that is empty or ends with y to a sum of admissible words and the empty word:
//! `reg(y^j x u) = (-1)^j x sh(y^j, u)`, and `reg(y^j)` is zero for j from 1. Contracts see a sum by its coefficients, those
//! of `reg_of_sum` of `zeta_model`. The crate stands on `quasi_product`, `word_sums`, `word_letters` and `residues`.
#![tactic(auto)]

pub use fault::RegFault;
pub use laws::reg_laws;
pub use regularise::reg;

mod fault;
mod laws;
mod regularise;
mod shuffles;

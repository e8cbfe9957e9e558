//! Products of words by their first letters, of which shuffle and stuffle are two cases (Hoffman 2000).
//!
//! A product is generic over [`Letters`], which says what it takes for letters, and over the ring of its coefficients.
//! Contracts see a product as the list of its words, `prod` of `zeta_model`, and its sum as the number of places of each
//! word in that list, modulo the modulus. It is made by rows: a word times each suffix of the other, from the shortest on,
//! so that no word is held twice. The crate stands on `word_sums`, `word_letters` and `residues`.
#![tactic(auto)]

pub use fault::ProductFault;
pub use laws::product_laws;
pub use letters::{Letters, ShuffleLetters, StuffleLetters};
pub use products::{product, product_within};
pub use sums::{covers_sum, product_sums, product_sums_within};

mod fault;
mod laws;
mod letters;
mod merging;
mod products;
mod rows;
mod sums;

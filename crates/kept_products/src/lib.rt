//! Products of words that are kept, and the values of relations by them.
//!
//! A [`KeptProducts`] makes the product of a pair of words once, while it has room, and answers the kept one from then on.
//! Contracts see its ring, its limit and how many terms it keeps: what it answers is what `quasi_product` does, and what
//! [`value_kept`] answers is what `relation_list` does. The crate stands on these two, and on `word_sums` and `residues`.
#![tactic(auto)]

pub use kept::KeptProducts;
pub use values::value_kept;

mod adding;
mod kept;
mod pairs;
mod regular;
mod store;
mod values;

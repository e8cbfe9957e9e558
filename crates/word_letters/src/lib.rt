//! Words over the letters x and y of at most 24 letters, with their indices and texts.
//!
//! Contracts see a word as the list of its letters. Words, their order, indices and texts are those of `zeta_model`;
//! the index `k1, .., kr` is the word `x^(k1 - 1) y .. x^(kr - 1) y`, as in Ihara, Kaneko and Zagier (2006).
#![tactic(auto)]

pub use admissible::admissible_words;
pub use fault::{IndexFault, TextFault, TooLong};
pub use laws::index_laws;
pub use word::{MAX_WEIGHT, Word};
pub use zeta_model::Letter;

mod admissible;
mod fault;
mod index;
mod laws;
mod order;
mod parse;
mod parts;
mod text;
mod word;

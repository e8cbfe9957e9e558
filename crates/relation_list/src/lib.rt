//! The names of relations between multiple zeta values, their listing, their texts and their values.
//!
//! A direct relation is the finite double shuffle of two admissible words, the regularised double shuffle of a power of y with
//! an admissible word, or duality (Ihara, Kaneko, Zagier 2006); each of these times an admissible word is a relation too.
//! Contracts see words as lists of letters and a value by its coefficients. The listing is the list of all names of its weight
//! that are not too deep, and [`listing_laws`] says which names that are; [`value_laws`] says which words a value has. The crate
//! stands on `regularise_core`, `quasi_product`, `duality_map`, `word_sums`, `word_letters` and `residues`.
#![tactic(auto)]

pub use laws::{listing_laws, value_laws};
pub use listings::listing;
pub use name_text::{push_text, text};
pub use name_value::value;
pub use names::{Direct, RelName, depth, is_name, weight};

mod directs;
mod laws;
mod listings;
mod name_text;
mod name_value;
mod names;

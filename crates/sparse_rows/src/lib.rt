//! Sparse rows over a ring of residues: rows of a table by columns, and combinations of relations by their numbers.
//!
//! Both are pairs of a key and a residue that is not zero, by increasing keys, and so one type over two kinds of keys.
//! Contracts see a row as the list of its pairs, and what a call makes of it through `entry_of`, the residue at each
//! number. Two rows that agree there are one list ([`rows_are_known_by_their_entries`]). The crate stands on
//! `residues`, and on `linear_model` for the lead of a row.
#![tactic(auto)]

mod key;
mod laws;
mod merge;
mod pairs;

pub use key::Key;
pub use laws::rows_are_known_by_their_entries;
pub use pairs::{Combination, Pairs, Row};

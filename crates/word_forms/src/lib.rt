//! Normal forms of the words of a table, and of sums of words by them.
//!
//! A [`WordForms`] holds, made once, the normal form of the row of each word of a table by a list of reduced rows. The normal form of
//! the row of a sum of words is then the sum of these, each times the word's residue: no row is converted and none is eliminated for a
//! sum. Contracts see it as a ring and forms, and speak of them by `table_model`. The crate stands on `lyndon_polys` for rows of words,
//! and on `echelon` for their normal forms.
#![tactic(auto)]

mod forms;
mod gathering;
mod places;
mod placing;
mod word_forms;

pub use word_forms::WordForms;

//! Checks of the rows of a table: that each is the combination of relations that is said of it, and that they are complete.
//!
//! [`check_row`] decides one row by products of words, for any names and without an inverse. [`bad_row`] finds the first row that is
//! not what its combination gives. [`check_rows`] decides all rows
//! over a table, and answers the first test that they fail; the words of columns and the values of relations are made once, and
//! summed by the places of words. Contracts speak of rows, words and verdicts by `table_model`. The crate stands on
//! `quasi_product`, `kept_products`, `lyndon_polys`, `echelon` and `page_rows`.
#![tactic(auto)]

mod column_words;
mod completeness;
mod evaluating;
mod fault;
mod gathering;
mod laws;
mod leaving;
mod placed;
mod row_check;
mod rows_check;

pub use completeness::{bad_row, check_rows};
pub use fault::CompletenessFault;
pub use laws::listed_rows_evaluate;
pub use row_check::check_row;

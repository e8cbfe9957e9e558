//! Rows and combinations out of pages, and into pages.
//!
//! Pages hold residues as numbers, rows hold elements of a ring. The crate stands on `page_codec` and `sparse_rows`.
//! What is written of a row is the list of its keys, each with the residue that its element stands for, and it tells
//! the row ([`rows_are_known_by_what_is_written`]).
#![tactic(auto)]

mod laws;
mod rows;

pub use laws::{rows_are_known_by_what_is_written, rows_of_pages};
pub use rows::{combination_of_data, data_of_combination, data_of_row, row_of_data};

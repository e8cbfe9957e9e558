//! Words to columns and back: each sum of words of a table has one row over its columns, and each row its words.
//!
//! A [`LyndonTable`] holds a ring, columns, and the rows of all words of their weight and depth, which are made once. That a
//! word leads the shuffle of its Lyndon factors makes the conversion a triangular system (Radford 1979). Contracts see a table as
//! its ring and its columns, and speak of rows and words by `table_model`. The crate stands on `column_order`, `sparse_rows`,
//! `quasi_product` and `leading_word`.
#![tactic(auto)]

mod fault;
mod gathering;
mod laws;
mod lyndon_table;
mod rows_by_word;
mod shuffles;
mod table_words;
mod units;
mod word_rows;

pub use fault::{LyndonFault, OutFault};
pub use laws::conversion_is_one_to_one;
pub use lyndon_table::LyndonTable;

//! The reduced rows of all listed relations of a table, made in memory.
//!
//! The value of each name of the listing in turn becomes a row over the table's columns, which is offered to an elimination; its reduced
//! list is the rows. A value that is known to add nothing, by normal forms of its words, is not offered. The forms by the rows are made
//! for that, and are given with them. Contracts say by `table_model` which list that is, and at which relation the work is broken. The
//! crate stands on `relation_list` for names, on `kept_products` for their values, on `lyndon_polys` for rows of sums, on `echelon` for
//! the elimination, and on `known_sums` for what is known to add nothing.
#![tactic(auto)]

mod fault;
mod making;
mod offers;

pub use fault::RowsFault;
pub use known_sums::TableForms;
pub use making::reduced_rows;

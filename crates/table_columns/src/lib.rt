//! The columns of the parameters of a table, and how many relations their listing has.
//!
//! The crate stands on `column_order` for columns, and on `relation_list` for the listing.
#![tactic(auto)]

mod columns;

pub use columns::{columns_of, relation_count};

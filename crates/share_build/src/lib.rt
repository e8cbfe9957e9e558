//! One share of a table, made in memory: the reduced rows of its relations alone, each with its combination of them.
//!
//! The value of each relation of the share in turn becomes a row over the table's columns, which is offered to an elimination that records
//! combinations; its reduced list is the rows. Contracts say by `share_model` what a share is and what a result of it is. The crate stands on
//! `relation_list` for names, on `kept_products` for their values, on `lyndon_polys` for rows of sums, on `echelon` for the elimination, and
//! on `page_rows` for rows as a share has them.
#![tactic(auto)]

mod building;
mod finishing;
mod offering;
mod table;

pub use building::build_share;

//! Checks of shares from anybody: that the rows of a share, with their combinations, are a result of it.
//!
//! [`check_share`] decides the rows over a table, as `cert_checker` does for those of a whole table: each row is what its combination of
//! relations of the share gives, the rows are reduced, and they leave nothing of any relation of the share. What holds of the share after it
//! is kept by the type `CheckedShare`. Contracts speak of shares by `share_model`. The crate stands on `cert_checker`, `echelon`,
//! `word_forms`, `kept_products` and `page_rows`.
#![tactic(auto)]

mod bad_rows;
mod checking;
mod elements;
mod missing;
mod share_numbers;

pub use checking::check_share;

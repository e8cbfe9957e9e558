//! Texts of a table that are made in memory: numbers, parameters, and rows.
//!
//! The texts are those of `whole_runs`. The crate stands on `poly_print` for the text of a row.
#![tactic(auto)]

mod texts;

pub use texts::{
    complete_text, head_text, migrated_text, missing_text, other_text, push_count, push_page,
    push_row_line,
};

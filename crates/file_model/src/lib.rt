//! The file of the parameters of a table: its pages, its bytes, its prefixes, and work that goes on from rows that stand in a file. It has no
//! code: each function does nothing, and its contract is a law.
//!
//! All is stated over work (`specs/Pages.antt`): sums that are offered by number, and what is written beside a row. Building offers the values
//! of the listed relations; going on offers first the rows that stand in the file (`specs/Resuming.antt`). The crate stands on `table_model`
//! for reduced rows and combinations, on `page_codec` for pages, and on `page_file` for their bytes and for what a crash may leave.
#![tactic(auto)]

pub mod endings;
pub mod histories;
pub mod pages;
pub mod prefixes;
pub mod resuming;
pub mod staying;

pub use endings::ending_laws;
pub use histories::history_laws;
pub use pages::page_laws;
pub use prefixes::prefix_laws;
pub use resuming::resuming_laws;
pub use staying::staying_laws;

//! Sums of words that are known to add nothing to the rows of an elimination.
//!
//! A [`KnownSums`] stands beside an elimination whose rows come from sums of words of a table. Once many offers in turn have added
//! nothing, it makes the normal forms of the table's words by the rows kept; a sum whose form is zero then passes, and need be neither
//! converted nor offered. Contracts say of any sum of words of the table and any rows kept, by `table_model`, whether the sum's row lies
//! in their span. The crate stands on `lyndon_polys` for tables, on `echelon` for the elimination, and on `word_forms` for normal forms.
#![tactic(auto)]

mod known_sums;
mod table_forms;

pub use known_sums::KnownSums;
pub use table_forms::TableForms;

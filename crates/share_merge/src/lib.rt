//! Results of all shares of a table, merged: the reduced rows of all listed relations, each with its combination of them.
//!
//! The first share of each index counts. The rows of the counted shares are offered in turn to an elimination that records combinations of
//! turns; in these each turn is replaced by the combination of its row. Contracts say by `share_model` what a checked share is, by
//! `table_model` what complete rows are and where the work is broken. The crate stands on `lyndon_polys` for the table, on `echelon` for the
//! elimination, on `row_sums` for sums of combinations, and on lemmas of `share_build`.
#![tactic(auto)]

mod expanding;
mod fault;
mod finishing;
mod laws;
mod merged;
mod merging;
mod missing;
mod offering;
mod places;

pub use fault::MergeFault;
pub use laws::merge_laws;
pub use merged::Merged;
pub use merging::merge;

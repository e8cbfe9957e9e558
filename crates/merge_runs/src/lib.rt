//! Merging shares of a table that stand in files, over any disks and sink: what `mzv_merge` does with the words of a merge.
//!
//! `specs/MergeWords.antt` says what words ask for, `specs/Taking.antt` which files are taken, and `specs/Runs.antt` what a whole run writes and
//! how it ends. The crate stands on `share_core` for the coordinator to which the shares are delivered, on `merge_program` for all other words,
//! on `share_file` for the bytes of shares, on `table_texts` for the lines of rows, and on `outside_io` for disks and sink.
#![tactic(auto)]

mod ending;
mod file_share;
mod laws;
mod merge_words;
mod merging;
mod run;
mod taking;
mod texts;

pub use laws::merge_run_laws;
pub use merge_program::MergeStatus;
pub use run::run_merge;

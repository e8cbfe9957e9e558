//! What `mzv_merge` does with words that ask for a share, over any sink: the words are read, the share is made, and its bytes are written.
//!
//! `specs/MergeWords.antt` says what words ask for, `specs/ShareRuns.antt` what a whole run writes and how it ends. What reads and refuses the
//! words of a table that is dealt into shares is public, so that other commands over shares read and refuse alike. The crate stands on
//! `share_build` for the share, on `share_file` for its bytes, on `whole_runs` and `written_lines` for numbers and lines, and on `outside_io`
//! for the sink.
#![tactic(auto)]

mod ending;
mod reading;
mod refusals;
mod run;
mod share;
mod status;
mod words;

pub use reading::{read_share_words, read_table_words};
pub use refusals::{refuse_word, refuse_words};
pub use run::run_share;
pub use status::MergeStatus;
pub use words::{MergeWordsFault, ShareWords, TableWords};

//! All that the program does, over any disk, source and sink: it reads the words of its command line, and answers
//! with a status.
//!
//! What words ask for, what a whole run of it writes and how it ends is said by `whole_runs`. The crate stands on
//! `line_loop` for commands that read lines, on `dual_reply`, `table_replies` and `probe_replies` for the replies to
//! them, on `table_rows` for the rows of a table, on `line_samples` for lines that are made from a seed, on
//! `relation_list` for the listing, on `table_build` for the file of a table, on `page_file`, `page_codec`, `page_rows` and `poly_print` for the table in a file,
//! and on `outside_io` for what it is lent.
#![tactic(auto)]

mod build;
mod check;
mod check_refusals;
mod commands;
mod dual;
mod figures;
mod file_refusals;
mod file_replies;
mod lines;
mod list;
mod migrate;
mod no_inverse;
mod probe;
mod rational;
mod ready;
mod reduce;
mod refusals;
mod resume;
mod rewrite;
mod sample;
mod show;
mod table;
mod table_check;
mod table_file;
mod writing;

pub use commands::run;
pub use whole_runs::{Command, Status, WordsFault, read_words};

//! The real forms of what a program meets outside: a file, standard input and standard output.
//!
//! Each object keeps a reference to the runtime and counts the calls that failed. Contracts see it as that count alone:
//! nothing is told of the bytes of a real file or terminal. What stands behind the calls is in `docs/TRUST.md`.
#![tactic(auto)]

mod file_disk;
mod standard;

pub use file_disk::FileDisk;
pub use standard::{StdSink, StdSource};

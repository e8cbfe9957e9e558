//! Tests of shares of a table: made, spelled, checked and merged, of a coordinator, and of whole runs of `mzv_merge`, against another program.
//!
//! They stand above the crates that they try, since a crate with tests of its own is proved twice.
#![tactic(auto)]

#[cfg(test)]
mod merged;
#[cfg(test)]
mod merges;
#[cfg(test)]
mod runs;
#[cfg(test)]
mod shares;

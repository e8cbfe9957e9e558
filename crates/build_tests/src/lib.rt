//! Tests of builds that are stopped, and of going on with them.
//!
//! They stand above `table_build`, since a crate with tests of its own is proved twice.
#![tactic(auto)]

#[cfg(test)]
mod files;
#[cfg(test)]
mod stops;

//! Tests of disks, sources and sinks, of the loop over lines, and of whole commands.
//!
//! They stand above the crates that they try, since a crate with tests of its own is proved twice.
#![tactic(auto)]

#[cfg(test)]
mod built;
#[cfg(test)]
mod checked;
#[cfg(test)]
mod commands;
#[cfg(test)]
mod devices;
#[cfg(test)]
mod files;
#[cfg(test)]
mod loops;
#[cfg(test)]
mod migrated;
#[cfg(test)]
mod replies;
#[cfg(test)]
mod resumed;
#[cfg(test)]
mod sealing;
#[cfg(test)]
mod shown;
#[cfg(test)]
mod tables;

//! All the bytes of a file at once.
//!
//! The crate stands on `outside_io` for the disk.
#![tactic(auto)]

mod reading;

pub use reading::{ReadFault, read_whole};

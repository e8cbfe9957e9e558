//! Building the file of a table on a disk, and going on with a build that was stopped.
#![tactic(auto)]

mod block;
mod building;
mod columns;
mod comparing;
mod fault;
mod finals;
mod groups;
mod offering;
mod opening;
mod rereading;
mod restoring;
mod resuming;
mod sealing;
mod summing;
mod table_file;
mod totals;

pub use fault::{BuildFault, ResumeFault};
pub use opening::relation_count;
pub use resuming::resume;
pub use table_file::{Built, build};

//! What a program meets outside: a source, a sink and a disk, and forms of them in memory.
//!
//! Contracts see each object by ghosts: the bytes or moments that it tells, if it tells any, and its count of faults. A moment of a disk
//! (`specs/Moments.antt`) says what a read gives and which images a crash may leave. The objects in memory are seen as records: `Bytes`
//! and `Taken` of `specs/Mem.antt`, `Kept` of `specs/Kept.antt`.
//! It stands on std alone, and on `thiserror` for the text of its error.
#![tactic(auto)]

mod crashing;
mod disk;
mod held;
mod history;
mod mem_disk;
mod script;
mod sink;
mod source;

pub use crashing::Pick;
pub use disk::Disk;
pub use mem_disk::MemDisk;
pub use sink::{MemSink, Sink, write_all};
pub use source::{MemSource, Source};
use thiserror::Error;

/// A call to the outside failed, and the object's count of faults rose, or stands at its end.
#[derive(Clone, Copy, Debug, PartialEq, Eq, Error)]
#[error("a call to the outside failed")]
pub struct Failed;

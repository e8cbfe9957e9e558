//! Why rows were not made.
use std::alloc::AllocError;
use thiserror::Error;

/// Why the reduced rows of the listed relations were not made.
#[derive(Debug, Drop, Error)]
pub enum RowsFault {
    /// The rest of relation `n` leads with the residue `value`, which has no inverse. It is the first such relation.
    #[error("no inverse: {value} at relation {n}")]
    NoInverse { value: u64, n: u32 },
    /// Memory was wanting.
    #[error("out of memory")]
    Memory(AllocError),
}

//! Why shares were not merged.
use std::alloc::AllocError;
use thiserror::Error;

/// Why shares were not merged. The first cause in the order of the variants is told.
#[derive(Debug, Drop, Error)]
pub enum MergeFault {
    /// The least index that no share has.
    #[error("share {0} missing")]
    MissingShare(u32),
    /// What the earlier rows leave of row `row` of the share with index `share` leads with `value`, which has no inverse. It is the first
    /// such row in turn.
    #[error("residue {value} of row {row} of share {share} has no inverse")]
    NoInverse { value: u64, share: u32, row: u32 },
    /// Memory was wanting.
    #[error("out of memory")]
    Memory(AllocError),
}

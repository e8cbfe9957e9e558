//! Why a list of columns was not made.
use std::alloc::AllocError;
use thiserror::Error;

/// Why a list of columns was not made. The first cause in the order of the variants is told.
#[derive(Debug, Drop, Error)]
pub enum ColumnsFault {
    /// There are more than 2,048 columns. It tells how many.
    #[error("there are {0} columns, over 2048")]
    TooManyColumns(u64),
    #[error("out of memory")]
    Memory(AllocError),
}

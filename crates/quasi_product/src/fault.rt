//! Why a product was not made.
use std::alloc::AllocError;
use thiserror::Error;

/// Why a product was not made. The first cause in the order of the variants is told.
#[derive(Debug, Drop, Error)]
pub enum ProductFault {
    /// The weights of the two words add up to this number of letters, which is over 24.
    #[error("weight {0} is over 24")]
    TooLong(u32),
    /// Memory was wanting.
    #[error("out of memory")]
    Memory(AllocError),
}

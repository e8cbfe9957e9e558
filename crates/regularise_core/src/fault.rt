//! Why a sum was not regularised.
use std::alloc::AllocError;
use thiserror::Error;
use word_letters::Word;

/// Why a sum was not regularised. The first cause in the order of the variants is told.
#[derive(Debug, Drop, Error)]
pub enum RegFault {
    /// The word is not empty and ends with x. It is the least such word of the sum.
    #[error("the word {0} of the sum ends with x")]
    NotInH1(Word),
    /// Memory was wanting.
    #[error("out of memory")]
    Memory(AllocError),
}

//! Why a table was not made, and why a sum has no row.
use std::alloc::AllocError;
use thiserror::Error;
use word_letters::Word;

/// Why a table was not made. The first cause in the order of the variants is told.
#[derive(Debug, Drop, Error)]
pub enum LyndonFault {
    /// The coefficient of the word in the shuffle of its Lyndon factors is the value modulo the modulus, which has no inverse. It is the
    /// least such word.
    #[error("the word {word} has the coefficient {value} in the shuffle of its factors, which has no inverse")]
    NoInverse { value: u64, word: Word },
    /// Memory was wanting.
    #[error("out of memory")]
    Memory(AllocError),
}

/// Why a sum has no row. The first cause in the order of the variants is told.
#[derive(Debug, Drop, Error)]
pub enum OutFault {
    /// The word is not admissible, has another weight, or is deeper than the columns. It is the least such word of the sum.
    #[error("the word {0} of the sum is not of the table")]
    OutOfTable(Word),
    /// Memory was wanting.
    #[error("out of memory")]
    Memory(AllocError),
}

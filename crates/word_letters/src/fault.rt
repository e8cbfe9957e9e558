//! Why a word was not made.
use thiserror::Error;

/// A weight, in letters, that is over 24.
#[derive(Debug, Clone, Copy, PartialEq, Eq, Error)]
#[error("weight {0} is over 24")]
pub struct TooLong(pub u32);

/// Why an index is not that of a word. The first cause in the order of the variants is told.
#[derive(Debug, Clone, Copy, PartialEq, Eq, Error)]
pub enum IndexFault {
    /// The index has no number.
    #[error("the index has no number")]
    EmptyIndex,
    /// A number is 0. It tells the place of the first such number, from 0.
    #[error("number {0} of the index is zero")]
    ZeroIndex(usize),
    /// The weight is over 24. It tells the weight, which is the sum of the numbers.
    #[error("weight {0} is over 24")]
    TooLong(u128),
}

/// Why bytes are not the index text of a word. The first cause in the order of the variants is told.
#[derive(Debug, Clone, Copy, PartialEq, Eq, Error)]
pub enum TextFault {
    /// The bytes are no index text. It tells the length of their longest prefix that begins one.
    #[error("byte {0} is not that of an index text")]
    BadText(usize),
    /// A number is 0. It tells the byte of the first such number, from 0.
    #[error("the number at byte {0} is zero")]
    ZeroIndex(usize),
    /// The weight is over 24. It tells the weight, which is the sum of the numbers.
    #[error("weight {0} is over 24")]
    TooLong(u128),
}

//! Why a line is not accepted.

/// Why a line is not accepted. The first cause in the order of the variants is told.
#[derive(Clone, Copy)]
pub enum Refusal {
    /// It has over 4,096 bytes.
    LineTooLong,
    /// It is no line of the grammar. It tells the length of its longest prefix that begins one, in bytes.
    Syntax(usize),
    /// The first number of an index is 1. It tells the byte of the first such number, from 0.
    NotAdmissible(usize),
    /// The weight of a zeta is over 24. It tells the weight of the first such zeta.
    WeightIs(u128),
}

//! Sums of rows that are being made, with an accumulator for each number, and the residue of a row at a number.
//!
//! A row with many pairs is added in one step for each pair, and nothing is moved. Contracts see a sum through `total_at`, the number that
//! its accumulators stand for at each number; what it is worth is said modulo the ring's modulus.
#![tactic(auto)]

mod finding;
mod sums;

pub use finding::entry_at;
pub use sums::RowSum;

//! What shares give together.
use echelon::ReducedRows;
use residues::Ring;
use sparse_rows::Combination;

/// The reduced rows of all listed relations, and the combination of listed relations whose value each row is.
#[derive(Drop)]
pub struct Merged<R: Ring> {
    pub rows: ReducedRows<R>,
    pub combinations: Vec<Combination<R>>,
}

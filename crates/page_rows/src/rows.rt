//! Rows of elements and lists of residues, each made of the other.
ghost use Rattle.std.specs.Prelude.{◌≡◌, IfOk};
ghost use Rattle.sparse_rows.specs.Entries.{IsRow, AllIn};
ghost use Rattle.page_rows.specs.Written.{written, AreResidues};

use page_codec::{CombData, RowData};
use residues::Ring;
use sparse_rows::{Combination, Key, Pairs, Row};
use std::alloc::{AllocError, Global};

/// The row that a page holds, refused where there is no memory.
pub fn row_of_data<R: Ring>(alloc: Global, ring: &R, pairs: &RowData) -> Result<Row<R>, AllocError>
    requires residues { AreResidues (λ k. k) (R.modulus ring.now) pairs.now }
    ensures written { IfOk result (λ row. written (R.value ring.now) row ≡ pairs.now) }
    ensures row { IfOk result (IsRow (λ k. k) R.zero 0) }
    ensures in_ring { IfOk result (AllIn (R.has ring.now)) }
{
    elements_of(alloc, ring, pairs.as_slice())
}

/// What pages hold of a row, refused where there is no memory.
pub fn data_of_row<R: Ring>(alloc: Global, ring: &R, row: &Row<R>) -> Result<RowData, AllocError>
    requires in_ring { AllIn (R.has ring.now) row.now }
    ensures written { IfOk result (λ pairs. pairs ≡ written (R.value ring.now) row.now) }
    ensures row { IsRow (λ k. k) R.zero 0 row.now }
{
    let pairs = residues_of(alloc, ring, row.entries())?;
    Ok(RowData::from_vec(pairs))
}

/// The combination that a page holds, refused where there is no memory.
pub fn combination_of_data<R: Ring>(
    alloc: Global,
    ring: &R,
    pairs: &CombData,
) -> Result<Combination<R>, AllocError>
    requires residues { AreResidues (λ k. k) (R.modulus ring.now) pairs.now }
    ensures written { IfOk result (λ combination. written (R.value ring.now) combination ≡ pairs.now) }
    ensures row { IfOk result (IsRow (λ k. k) R.zero 0) }
    ensures in_ring { IfOk result (AllIn (R.has ring.now)) }
{
    elements_of(alloc, ring, pairs.as_slice())
}

/// What pages hold of a combination, refused where there is no memory.
pub fn data_of_combination<R: Ring>(
    alloc: Global,
    ring: &R,
    combination: &Combination<R>,
) -> Result<CombData, AllocError>
    requires in_ring { AllIn (R.has ring.now) combination.now }
    ensures written { IfOk result (λ pairs. pairs ≡ written (R.value ring.now) combination.now) }
    ensures row { IsRow (λ k. k) R.zero 0 combination.now }
{
    let pairs = residues_of(alloc, ring, combination.entries())?;
    Ok(CombData::from_vec(pairs))
}

/// The pairs of elements with these residues.
fn elements_of<K: Key, R: Ring>(
    alloc: Global,
    ring: &R,
    pairs: &[(K, u64)],
) -> Result<Pairs<K, R>, AllocError>
    requires residues { AreResidues K.number (R.modulus ring.now) pairs.now }
    ensures written { IfOk result (λ row. written (R.value ring.now) row ≡ pairs.now) }
    ensures row { IfOk result (IsRow K.number R.zero 0) }
    ensures in_ring { IfOk result (AllIn (R.has ring.now)) }
{
    let mut row = Pairs::zero(alloc);
    let mut rest = pairs;
    while let Some((pair, behind)) = rest.split_first() {
        row.push(pair.0, ring.of(u128::from(pair.1)))?;
        rest = behind;
    }
    Ok(row)
}

/// The pairs of residues of these elements.
fn residues_of<K: Key, R: Ring>(
    alloc: Global,
    ring: &R,
    row: &[(K, R::Elem)],
) -> Result<Vec<(K, u64)>, AllocError>
    requires in_ring { AllIn (R.has ring.now) row.now }
    ensures written { IfOk result (λ pairs. pairs.items ≡ written (R.value ring.now) row.now) }
{
    let mut pairs = Vec::with_capacity(alloc, row.len())?;
    let mut rest = row;
    while let Some((entry, behind)) = rest.split_first() {
        pairs.push((entry.0, ring.value(entry.1)))?;
        rest = behind;
    }
    Ok(pairs)
}

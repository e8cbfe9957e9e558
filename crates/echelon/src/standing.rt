//! Rows that stand for columns, by which most rows of the span are known without a sweep.
ghost use Rattle.std.specs.Prelude.{◌≡◌, ℕ, ◌+◌, ◌<◌, ◌≤◌, true, List, [], length, get_or, All, IfOk, IsTrue};
ghost use Rattle.zeta_model.specs.Modular.{Same};
ghost use Rattle.sparse_rows.specs.Entries.{AllIn, IsBelow};
ghost use Rattle.echelon.specs.Lists.{entries_of, lead_at, row_at, AllFit};
ghost use Rattle.echelon.specs.Offers.{InSpanOf};
ghost use Rattle.linear_model.specs.Rows.{combination};
ghost use Rattle.echelon.specs.Inner.{numbers_of, IsRest, AllStand, AreWithin};

use crate::sums::{add_entries, gathered, no_sums};
use residues::Ring;
use sparse_rows::Row;
use std::alloc::{AllocError, Global};

/// Adds each entry times the row that stands for its column.
fn add_standing<R: Ring>(
    ring: &R,
    standing: &[Row<R>],
    entries: &[(u16, R::Elem)],
    sums: &mut [R::Accumulator],
)
    requires columns { length sums.old ≡ length standing.now }
    requires all { All (R.is_sum ring.now) sums.old }
    requires within { AreWithin (R.has ring.now) standing.now }
    requires below { IsBelow (λ k. k) (length standing.now) entries.now }
    requires in_ring { AllIn (R.has ring.now) entries.now }
    ensures all { All (R.is_sum ring.now) sums.new }
    ensures rest { (rows : List (List (ℕ × R.Elem))) → AllStand (R.modulus ring.now) (R.value ring.now) rows standing.now
        → IsRest (R.modulus ring.now) (R.value ring.now) rows (λ q. numbers_of (R.total ring.now) sums.old q + entries_of (R.value ring.now) entries.now q) (numbers_of (R.total ring.now) sums.new) }
{
    let mut rest = entries;
    while let Some((entry, behind)) = rest.split_first() {
        let row = standing[usize::from(entry.0)].entries();
        add_entries(ring, sums, entry.1, row);
        rest = behind;
    }
}

/// What is left of the entries, over accumulators of no products.
fn left_in<R: Ring>(
    alloc: Global,
    ring: &R,
    standing: &[Row<R>],
    entries: &[(u16, R::Elem)],
    sums: &mut [R::Accumulator],
) -> Result<Row<R>, AllocError>
    requires columns { length sums.old ≡ length standing.now }
    requires all { All (R.is_sum ring.now) sums.old }
    requires zero { (q : ℕ) → numbers_of (R.total ring.now) sums.old q ≡ 0 }
    requires within { AreWithin (R.has ring.now) standing.now }
    requires below { IsBelow (λ k. k) (length standing.now) entries.now }
    requires in_ring { AllIn (R.has ring.now) entries.now }
    ensures below { IfOk result (IsBelow (λ k. k) (length standing.now)) }
    ensures in_ring { IfOk result (AllIn (R.has ring.now)) }
    ensures rest { IfOk result (λ left. (rows : List (List (ℕ × R.Elem))) → AllStand (R.modulus ring.now) (R.value ring.now) rows standing.now
        → IsRest (R.modulus ring.now) (R.value ring.now) rows (entries_of (R.value ring.now) entries.now) (entries_of (R.value ring.now) left)) }
{
    add_standing(ring, standing, entries, sums);
    let left = gathered(alloc, ring, sums)?;
    Ok(left)
}

/// What is left of the entries, where the row that stands for a column is put in its place.
pub fn left_of<R: Ring>(
    alloc: Global,
    ring: &R,
    standing: &[Row<R>],
    entries: &[(u16, R::Elem)],
) -> Result<Row<R>, AllocError>
    requires within { AreWithin (R.has ring.now) standing.now }
    requires below { IsBelow (λ k. k) (length standing.now) entries.now }
    requires in_ring { AllIn (R.has ring.now) entries.now }
    ensures below { IfOk result (IsBelow (λ k. k) (length standing.now)) }
    ensures in_ring { IfOk result (AllIn (R.has ring.now)) }
    ensures rest { IfOk result (λ left. (rows : List (List (ℕ × R.Elem))) → AllStand (R.modulus ring.now) (R.value ring.now) rows standing.now
        → IsRest (R.modulus ring.now) (R.value ring.now) rows (entries_of (R.value ring.now) entries.now) (entries_of (R.value ring.now) left)) }
{
    let mut sums = no_sums(alloc, ring, standing.len())?;
    let left = left_in(alloc, ring, standing, entries, &mut sums)?;
    Ok(left)
}

/// Whether nothing is left of a row. No where there is no memory to see it.
pub fn nothing_left<R: Ring>(alloc: Global, ring: &R, standing: &[Row<R>], row: &Row<R>) -> bool
    requires within { AreWithin (R.has ring.now) standing.now }
    requires below { IsBelow (λ k. k) (length standing.now) row.now }
    requires in_ring { AllIn (R.has ring.now) row.now }
    ensures { IsTrue result → (rows : List (List (ℕ × R.Elem))) → AllStand (R.modulus ring.now) (R.value ring.now) rows standing.now
        → InSpanOf (R.modulus ring.now) (R.value ring.now) rows (entries_of (R.value ring.now) row.now) }
{
    match left_of(alloc, ring, standing, row.entries()) {
        Ok(left) => left.entries().is_empty(),
        Err(_) => false,
    }
}

/// The unit row of each column.
fn unit_rows<R: Ring>(alloc: Global, ring: &R, columns: usize) -> Result<Vec<Row<R>>, AllocError>
    requires few { columns ≤ 65536 }
    ensures count { IfOk result (λ units. length units.items ≡ columns) }
    ensures within { IfOk result (λ units. AreWithin (R.has ring.now) units.items) }
    ensures stand { IfOk result (λ units. (rows : List (List (ℕ × R.Elem))) → AllStand (R.modulus ring.now) (R.value ring.now) rows units.items) }
{
    let mut units = Vec::with_capacity(alloc, columns)?;
    for column in 0..columns {
        let mut unit = Row::zero(alloc);
        unit.push(column as u16, ring.one())?;
        units.push(unit)?;
    }
    Ok(units)
}

/// The row that stands for the lead of a row, by the rows that stand for the columns behind it.
fn standing_row<R: Ring>(
    alloc: Global,
    ring: &R,
    standing: &[Row<R>],
    behind: &[(u16, R::Elem)],
) -> Result<Row<R>, AllocError>
    requires within { AreWithin (R.has ring.now) standing.now }
    requires below { IsBelow (λ k. k) (length standing.now) behind.now }
    requires in_ring { AllIn (R.has ring.now) behind.now }
    ensures below { IfOk result (IsBelow (λ k. k) (length standing.now)) }
    ensures in_ring { IfOk result (AllIn (R.has ring.now)) }
    ensures rest { IfOk result (λ left. (rows : List (List (ℕ × R.Elem))) → AllStand (R.modulus ring.now) (R.value ring.now) rows standing.now
        → (c : ℕ → ℕ) × ((q : ℕ) → Same (R.modulus ring.now) 0 (entries_of (R.value ring.now) left q + entries_of (R.value ring.now) behind.now q + combination (length rows) (row_at (R.value ring.now) rows) c q))) }
{
    let mut left = left_of(alloc, ring, standing, behind)?;
    left.scale(ring, ring.neg(ring.one()));
    Ok(left)
}

/// The rows that stand for the columns, made from the last of the forward rows to the first.
pub fn standing_rows<R: Ring>(
    alloc: Global,
    ring: &R,
    columns: usize,
    rows: &[Row<R>],
) -> Result<Vec<Row<R>>, AllocError>
    requires few { columns ≤ 65536 }
    requires fit { AllFit (R.has ring.now) R.zero columns rows.now }
    requires one { (i : ℕ) → i < length rows.now → Same (R.modulus ring.now) (row_at (R.value ring.now) rows.now i (lead_at rows.now i)) 1 }
    ensures count { IfOk result (λ standing. length standing.items ≡ columns) }
    ensures within { IfOk result (λ standing. AreWithin (R.has ring.now) standing.items) }
    ensures stand { IfOk result (λ standing. AllStand (R.modulus ring.now) (R.value ring.now) rows.now standing.items) }
{
    let mut standing = unit_rows(alloc, ring, columns)?;
    for count in 0..rows.len() {
        let row = rows[rows.len() - 1 - count].entries();
        if let Some((first, behind)) = row.split_first() {
            let left = standing_row(alloc, ring, &standing, behind)?;
            standing[usize::from(first.0)] = left;
        }
    }
    Ok(standing)
}

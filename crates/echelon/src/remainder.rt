//! The remainder of a row by a reduced list: each of its entries at a lead is cancelled by the row that leads there.
ghost use Rattle.std.specs.Prelude.{◌≡◌, ◌≢◌, ℕ, ◌<◌, ◌≤◌, true, List, length, All, IfOk, IfSome, IfNone};
ghost use Rattle.linear_model.specs.Rows.{SameRow};
ghost use Rattle.sparse_rows.specs.Entries.{AllIn, IsBelow};
ghost use Rattle.echelon.specs.Lists.{entries_of, lead_of, lead_at, AllFit, AreReduced};
ghost use Rattle.echelon.specs.Offers.{IsRemainder};
ghost use Rattle.echelon.specs.Inner.{numbers_of};

use crate::sums::{add_entries, gathered, no_sums};
use residues::Ring;
use sparse_rows::Row;
use std::alloc::{AllocError, Global};

/// The first column of a row, and 0 for the zero row.
pub fn lead_column<R: Ring>(row: &Row<R>) -> usize
    ensures { result ≡ lead_of row.now }
{
    match row.entries().first() {
        Some(first) => usize::from(first.0),
        None => 0,
    }
}

/// The place of the row that leads at a column, where the leads rise.
pub fn place_at<R: Ring>(rows: &[Row<R>], column: usize) -> Option<usize>
    requires rising { (i k : ℕ) → i < k → k < length rows.now → lead_at rows.now i < lead_at rows.now k }
    ensures found { IfSome result (λ i. (i < length rows.now) × (lead_at rows.now i ≡ column)) }
    ensures none { IfNone result ((i : ℕ) → i < length rows.now → lead_at rows.now i ≢ column) }
{
    let mut low = 0;
    let mut high = rows.len();
    while low < high {
        let middle = low + (high - low) / 2;
        let lead = lead_column(&rows[middle]);
        if lead == column {
            return Some(middle);
        }
        if lead < column {
            low = middle + 1;
        } else {
            high = middle;
        }
    }
    None
}

/// Takes away, for each of the entries at a lead, that multiple of the row that leads there.
fn cancel_at_leads<R: Ring>(
    ring: &R,
    rows: &[Row<R>],
    entries: &[(u16, R::Elem)],
    sums: &mut [R::Accumulator],
)
    requires fit { AllFit (R.has ring.now) R.zero (length sums.old) rows.now }
    requires reduced { AreReduced (R.modulus ring.now) (R.value ring.now) rows.now }
    requires all { All (R.is_sum ring.now) sums.old }
    requires in_ring { AllIn (R.has ring.now) entries.now }
    requires same { SameRow (R.modulus ring.now) (entries_of (R.value ring.now) entries.now) (numbers_of (R.total ring.now) sums.old) }
    ensures all { All (R.is_sum ring.now) sums.new }
    ensures remainder { IsRemainder (R.modulus ring.now) (R.value ring.now) rows.now (entries_of (R.value ring.now) entries.now) (numbers_of (R.total ring.now) sums.new) }
{
    let mut rest = entries;
    while let Some((entry, behind)) = rest.split_first() {
        if let Some(place) = place_at(rows, usize::from(entry.0)) {
            let row = rows[place].entries();
            add_entries(ring, sums, ring.neg(entry.1), row);
        }
        rest = behind;
    }
}

/// The remainder of a row, over accumulators of no products.
fn remainder_in<R: Ring>(
    alloc: Global,
    ring: &R,
    rows: &[Row<R>],
    row: &Row<R>,
    sums: &mut [R::Accumulator],
) -> Result<Row<R>, AllocError>
    requires few { length sums.old ≤ 65536 }
    requires all { All (R.is_sum ring.now) sums.old }
    requires zero { (q : ℕ) → numbers_of (R.total ring.now) sums.old q ≡ 0 }
    requires fit { AllFit (R.has ring.now) R.zero (length sums.old) rows.now }
    requires reduced { AreReduced (R.modulus ring.now) (R.value ring.now) rows.now }
    requires below { IsBelow (λ k. k) (length sums.old) row.now }
    requires in_ring { AllIn (R.has ring.now) row.now }
    ensures remainder { IfOk result (λ left. IsRemainder (R.modulus ring.now) (R.value ring.now) rows.now (entries_of (R.value ring.now) row.now) (entries_of (R.value ring.now) left)) }
    ensures in_ring { IfOk result (AllIn (R.has ring.now)) }
{
    add_entries(ring, sums, ring.one(), row.entries());
    cancel_at_leads(ring, rows, row.entries(), sums);
    let left = gathered(alloc, ring, sums)?;
    Ok(left)
}

/// The remainder of a row by reduced rows.
pub fn remainder_of<R: Ring>(
    alloc: Global,
    ring: &R,
    columns: usize,
    rows: &[Row<R>],
    row: &Row<R>,
) -> Result<Row<R>, AllocError>
    requires few { columns ≤ 65536 }
    requires fit { AllFit (R.has ring.now) R.zero columns rows.now }
    requires reduced { AreReduced (R.modulus ring.now) (R.value ring.now) rows.now }
    requires below { IsBelow (λ k. k) columns row.now }
    requires in_ring { AllIn (R.has ring.now) row.now }
    ensures remainder { IfOk result (λ left. IsRemainder (R.modulus ring.now) (R.value ring.now) rows.now (entries_of (R.value ring.now) row.now) (entries_of (R.value ring.now) left)) }
    ensures in_ring { IfOk result (AllIn (R.has ring.now)) }
{
    let mut sums = no_sums(alloc, ring, columns)?;
    let left = remainder_in(alloc, ring, rows, row, &mut sums)?;
    Ok(left)
}

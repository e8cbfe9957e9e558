//! The reduced rows of a forward list, in the order of their leads.
ghost use Rattle.std.specs.Prelude.{◌≡◌, ◌≢◌, ℕ, ◌+◌, ◌<◌, ◌≤◌, true, List, [], length, get_or, All, IfOk, IfSome, IfNone};
ghost use Rattle.echelon.specs.Lists.{row_at, lead_at, AllFit, AreForward};
ghost use Rattle.echelon.specs.Inner.{IsUsedRow, IsReducing};

use crate::offering::{SweptRow, named, swept_row};
use residues::Ring;
use sparse_rows::{Combination, Row};
use std::alloc::{AllocError, Global};

/// A reduced row, and the forward rows that it is the sum of.
#[derive(Drop)]
pub struct UsedRow<R: Ring> {
    pub row: Row<R>,
    pub uses: Combination<R>,
}

/// The reduced rows, and of each the forward rows that it is the sum of.
#[derive(Drop)]
pub struct Reduction<R: Ring> {
    pub rows: Vec<Row<R>>,
    pub uses: Vec<Combination<R>>,
}

/// The place of the row that leads at a column.
pub fn place_of<R: Ring>(rows: &[Row<R>], column: usize) -> Option<usize>
    requires some { (i : ℕ) → i < length rows.now → 0 < length (get_or rows.now i []) }
    ensures found { IfSome result (λ i. (i < length rows.now) × (lead_at rows.now i ≡ column)) }
    ensures none { IfNone result ((i : ℕ) → i < length rows.now → lead_at rows.now i ≢ column) }
{
    for i in 0..rows.len() {
        let entries = rows[i].entries();
        if usize::from(entries[0].0) == column {
            return Some(i);
        }
    }
    None
}

/// Row `i`, swept by the rows behind it.
fn used_row<R: Ring>(
    alloc: Global,
    ring: &R,
    columns: usize,
    numbers: &[u32],
    rows: &[Row<R>],
    i: usize,
) -> Result<UsedRow<R>, AllocError>
    requires few { columns ≤ 65536 }
    requires fit { AllFit (R.has ring.now) R.zero columns rows.now }
    requires forward { AreForward (R.modulus ring.now) (R.value ring.now) rows.now }
    requires count { length numbers.now ≡ length rows.now }
    requires rising { (i k : ℕ) → i < k → k < length numbers.now → get_or numbers.now i 0 < get_or numbers.now k 0 }
    requires inside { i < length rows.now }
    ensures { IfOk result (λ used. IsUsedRow (R.modulus ring.now) (R.has ring.now) (R.value ring.now) R.zero columns numbers.now rows.now i used.row used.uses) }
{
    let swept = swept_row(alloc, ring, columns, rows, i + 1, &rows[i])?;
    let SweptRow { row, mut factors } = swept;
    factors[i] = ring.one();
    let uses = named(alloc, ring, numbers, &factors)?;
    Ok(UsedRow { row, uses })
}

/// The reduced rows of a forward list, in the order of their leads.
pub fn reduced_rows<R: Ring>(
    alloc: Global,
    ring: &R,
    columns: usize,
    numbers: &[u32],
    rows: &[Row<R>],
) -> Result<Reduction<R>, AllocError>
    requires few { columns ≤ 65536 }
    requires fit { AllFit (R.has ring.now) R.zero columns rows.now }
    requires forward { AreForward (R.modulus ring.now) (R.value ring.now) rows.now }
    requires count { length numbers.now ≡ length rows.now }
    requires rising { (i k : ℕ) → i < k → k < length numbers.now → get_or numbers.now i 0 < get_or numbers.now k 0 }
    ensures { IfOk result (λ made. IsReducing (R.modulus ring.now) (R.has ring.now) (R.value ring.now) R.zero columns numbers.now rows.now columns made.rows.items made.uses.items) }
{
    let mut reduced = Vec::new(alloc);
    let mut all_uses = Vec::new(alloc);
    for column in 0..columns {
        let Some(i) = place_of(rows, column) else {
            continue;
        };
        let UsedRow { row, uses } = used_row(alloc, ring, columns, numbers, rows, i)?;
        reduced.push(row)?;
        all_uses.push(uses)?;
    }
    Ok(Reduction {
        rows: reduced,
        uses: all_uses,
    })
}

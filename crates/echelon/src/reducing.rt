//! The reduced rows of a forward list by the rows that stand for columns, without the forward rows that each is the sum of.
ghost use Rattle.std.specs.Prelude.{◌≡◌, ◌≢◌, ℕ, ◌+◌, ◌*◌, ◌%◌, ◌<◌, ◌≤◌, true, List, [], length, get_or, IfOk, IfSome};
ghost use Rattle.sparse_rows.specs.Entries.{AllIn, IsBelow};
ghost use Rattle.echelon.specs.Lists.{entries_of, row_at, lead_at, AllFit, AreForward};
ghost use Rattle.echelon.specs.States.{IsRowList};
ghost use Rattle.echelon.specs.Offers.{InSpanOf};
ghost use Rattle.echelon.specs.Finishes.{SameSpanOf};
ghost use Rattle.echelon.specs.Inner.{unit_row, IsRest, AllStand, AreWithin, AreFound};

use crate::finishing::place_of;
use crate::quick::is_reduced_list;
use crate::remainder::lead_column;
use crate::standing::standing_rows;
use residues::Ring;
use sparse_rows::Row;
use std::alloc::{AllocError, Global};

/// The unit row of a column less the row that stands for it.
fn less_standing<R: Ring>(
    alloc: Global,
    ring: &R,
    column: usize,
    columns: usize,
    standing: &Row<R>,
) -> Result<Row<R>, AllocError>
    requires few { columns ≤ 65536 }
    requires inside { column < columns }
    requires below { IsBelow (λ k. k) columns standing.now }
    requires in_ring { AllIn (R.has ring.now) standing.now }
    ensures below { IfOk result (IsBelow (λ k. k) columns) }
    ensures in_ring { IfOk result (AllIn (R.has ring.now)) }
    ensures span { IfOk result (λ row. (rows : List (List (ℕ × R.Elem))) → IsRest (R.modulus ring.now) (R.value ring.now) rows (unit_row column) (entries_of (R.value ring.now) standing.now)
        → InSpanOf (R.modulus ring.now) (R.value ring.now) rows (entries_of (R.value ring.now) row)) }
{
    let mut row = Row::zero(alloc);
    row.push(column as u16, ring.one())?;
    row.add_scaled(ring, ring.neg(ring.one()), standing)?;
    Ok(row)
}

/// For each row that leads at a column, what that column's standing row leaves of its unit row, by rising columns. None where one
/// of these leads elsewhere.
fn rows_by_standing<R: Ring>(
    alloc: Global,
    ring: &R,
    columns: usize,
    rows: &[Row<R>],
) -> Result<Option<Vec<Row<R>>>, AllocError>
    requires few { columns ≤ 65536 }
    requires fit { AllFit (R.has ring.now) R.zero columns rows.now }
    requires forward { AreForward (R.modulus ring.now) (R.value ring.now) rows.now }
    ensures found { IfOk result (λ made. IfSome made (λ list. AreFound (R.modulus ring.now) (R.has ring.now) (R.value ring.now) columns rows.now columns list.items)) }
{
    let standing = standing_rows(alloc, ring, columns, rows)?;
    let mut made = Vec::new(alloc);
    for column in 0..columns {
        if let Some(_) = place_of(rows, column) {
            let row = less_standing(alloc, ring, column, columns, &standing[column])?;
            if lead_column(&row) != column {
                return Ok(None);
            }
            made.push(row)?;
        }
    }
    Ok(Some(made))
}

/// The reduced rows of a forward list, where they are seen to be a reduced list.
pub fn reduced_quickly<R: Ring>(
    alloc: Global,
    ring: &R,
    columns: usize,
    rows: &[Row<R>],
) -> Result<Option<Vec<Row<R>>>, AllocError>
    requires few { columns ≤ 65536 }
    requires fit { AllFit (R.has ring.now) R.zero columns rows.now }
    requires forward { AreForward (R.modulus ring.now) (R.value ring.now) rows.now }
    ensures list { IfOk result (λ made. IfSome made (λ list. IsRowList (R.modulus ring.now) (R.has ring.now) (R.value ring.now) R.zero columns list.items)) }
    ensures span { IfOk result (λ made. IfSome made (λ list. SameSpanOf (R.modulus ring.now) (R.value ring.now) rows.now list.items)) }
{
    let Some(made) = rows_by_standing(alloc, ring, columns, rows)? else {
        return Ok(None);
    };
    if !is_reduced_list(ring, &made) {
        return Ok(None);
    }
    Ok(Some(made))
}

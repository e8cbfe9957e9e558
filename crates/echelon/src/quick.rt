//! Whether rows are a reduced list, seen without a comparison of each two of them.
ghost use Rattle.std.specs.Prelude.{◌≡◌, ◌≢◌, ℕ, ◌<◌, ◌≤◌, List, [], length, get_or, IsTrue, IfSome, IfNone};
ghost use Rattle.sparse_rows.specs.Entries.{AllIn};
ghost use Rattle.echelon.specs.Lists.{entries_of, row_at, lead_at};
ghost use Rattle.echelon.specs.Inner.{LeadsAt, IsReducedAt};

use crate::remainder::{lead_column, place_at};
use residues::Ring;
use sparse_rows::Row;

/// Whether a row leads with 1 behind the row before it.
fn leads_at<R: Ring>(ring: &R, rows: &[Row<R>], i: usize) -> bool
    requires in_ring { (i : ℕ) → i < length rows.now → AllIn (R.has ring.now) (get_or rows.now i []) }
    requires inside { i < length rows.now }
    ensures leads { IsTrue result → LeadsAt (R.value ring.now) R.zero rows.now i }
{
    let entries = rows[i].entries();
    if entries.len() == 0 {
        return false;
    }
    let first = entries[0];
    if ring.value(first.1) != 1 {
        return false;
    }
    if i > 0 && usize::from(first.0) <= lead_column(&rows[i - 1]) {
        return false;
    }
    true
}

/// Whether each row leads with 1 behind the row before it.
fn all_lead<R: Ring>(ring: &R, rows: &[Row<R>]) -> bool
    requires { (i : ℕ) → i < length rows.now → AllIn (R.has ring.now) (get_or rows.now i []) }
    ensures leads { IsTrue result → (i : ℕ) → i < length rows.now → LeadsAt (R.value ring.now) R.zero rows.now i }
{
    for i in 0..rows.len() {
        if !leads_at(ring, rows, i) {
            return false;
        }
    }
    true
}

/// Whether none of the rows leads at the column of one of the entries.
fn has_no_lead<R: Ring>(rows: &[Row<R>], entries: &[(u16, R::Elem)]) -> bool
    requires rising { (i k : ℕ) → i < k → k < length rows.now → lead_at rows.now i < lead_at rows.now k }
    ensures none { IsTrue result → (value : R.Elem → ℕ) (k : ℕ) → k < length rows.now → entries_of value entries.now (lead_at rows.now k) ≡ 0 }
{
    let mut rest = entries;
    while let Some((entry, behind)) = rest.split_first() {
        if let Some(_) = place_at(rows, usize::from(entry.0)) {
            return false;
        }
        rest = behind;
    }
    true
}

/// Whether the lead column of each row is zero in every other row.
fn lead_columns_are_clear<R: Ring>(rows: &[Row<R>]) -> bool
    requires rising { (i k : ℕ) → i < k → k < length rows.now → lead_at rows.now i < lead_at rows.now k }
    ensures clear { IsTrue result → (value : R.Elem → ℕ) (j : ℕ) → j < length rows.now → (k : ℕ) → k < length rows.now → k ≢ j → row_at value rows.now j (lead_at rows.now k) ≡ 0 }
{
    for i in 0..rows.len() {
        let entries = rows[i].entries();
        let Some((_, behind)) = entries.split_first() else {
            return false;
        };
        if !has_no_lead(rows, behind) {
            return false;
        }
    }
    true
}

/// Whether the rows are a reduced list. It is said of each reduced list, and no clause says so.
pub fn is_reduced_list<R: Ring>(ring: &R, rows: &[Row<R>]) -> bool
    requires { (i : ℕ) → i < length rows.now → AllIn (R.has ring.now) (get_or rows.now i []) }
    ensures reduced { IsTrue result → (i : ℕ) → i < length rows.now → IsReducedAt (R.value ring.now) R.zero rows.now i }
{
    if !all_lead(ring, rows) {
        return false;
    }
    lead_columns_are_clear(rows)
}

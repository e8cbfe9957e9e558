//! Reduced lists of rows, and normal forms by them.
ghost use Rattle.std.specs.Prelude.{◌≡◌, ℕ, ◌+◌, ◌<◌, ◌≤◌, ◌↔◌, List, [], length, get_or, IfOk, IfErr, OnOk, IsErrOf, IsTrue, IsFalse};
ghost use Rattle.sparse_rows.specs.Entries.{AllIn, IsRow, IsBelow};
ghost use Rattle.echelon.specs.Lists.{entries_of, lead_of, row_at, lead_at, AreReduced};
ghost use Rattle.echelon.specs.States.{IsRowList};
ghost use Rattle.echelon.specs.Offers.{IsRemainder};
ghost use Rattle.echelon.specs.Finishes.{IsNotReducedAt};
ghost use Rattle.echelon.specs.Inner.{IsReducedAt};

use crate::fault::ReducedFault;
use crate::quick::is_reduced_list;
use crate::remainder::{lead_column, remainder_of};
use residues::Ring;
use sparse_rows::Row;
use std::alloc::{AllocError, Global};
use std::marker::Model;

/// A reduced list of rows: each leads with 1, the leads increase, and each lead column is zero in every other row.
#[derive(Drop)]
pub struct ReducedRows<R: Ring> {
    ring: R,
    columns: u32,
    rows: Vec<Row<R>>,
}

impl<R: Ring> Model for ReducedRows<R> {
    ghost use Rattle.echelon.specs.States.{RowList, IsRowList, row_list_code};

    ghost Value = { RowList R R.Elem };

    ghost coded = { row_list_code R.code R.Elem.code };

    ghost view = { λ r. record { ring = r.ring; columns = r.columns; rows = r.rows.items } };

    ghost invariant = { λ r. IsRowList (R.modulus r.ring) (R.has r.ring) (R.value r.ring) R.zero r.columns r.rows.items };
}

impl<R: Ring> ReducedRows<R> {
    /// The rows as a reduced list.
    ///
    /// `NotReduced(i)` exactly where `i` is the least place whose row is zero, has a lead that is not 1, does not lead behind
    /// the row before it, or has its lead column not zero in another row.
    pub fn new(ring: &R, rows: Vec<Row<R>>) -> Result<ReducedRows<R>, ReducedFault>
        requires { (i : ℕ) → i < length rows.items → AllIn (R.has ring.now) (get_or rows.items i []) }
        ensures ring { IfOk result (λ list. list.ring ≡ ring.now) }
        ensures rows { IfOk result (λ list. list.rows ≡ rows.items) }
        ensures ok { IfOk result (λ list. IsRowList (R.modulus ring.now) (R.has ring.now) (R.value ring.now) R.zero list.columns list.rows) }
        ensures inside { (i : ℕ) → IsErrOf result (ReducedFault.NotReduced i) → i < length rows.items }
        ensures not_reduced { (i : ℕ) → IsErrOf result (ReducedFault.NotReduced i)
            → IsNotReducedAt (R.value ring.now) rows.items i × ((k : ℕ) → k < i → ¬ (IsNotReducedAt (R.value ring.now) rows.items k)) }
        ensures fits { OnOk result ((i : ℕ) → i < length rows.items → ¬ (IsNotReducedAt (R.value ring.now) rows.items i)) }
    {
        let columns = match reduced_width(ring, &rows) {
            Ok(columns) => columns,
            Err(i) => return Err(ReducedFault::NotReduced(i)),
        };
        Ok(ReducedRows {
            ring: *ring,
            columns,
            rows,
        })
    }

    /// Rows that are known to be a reduced list.
    pub(crate) fn of(ring: R, columns: u32, rows: Vec<Row<R>>) -> ReducedRows<R>
        requires { IsRowList (R.modulus ring) (R.has ring) (R.value ring) R.zero columns rows.items }
        ensures { result ≡ record { ring = ring; columns = columns; rows = rows.items } }
    {
        ReducedRows {
            ring,
            columns,
            rows,
        }
    }

    /// The normal form of a row by the list.
    pub fn nf(&self, ring: &R, row: &Row<R>) -> Result<Row<R>, AllocError>
        requires ring { R.modulus ring.now ≡ R.modulus self.now.ring }
        requires in_ring { AllIn (R.has ring.now) row.now }
        ensures ok { IfOk result (λ q. IsRemainder (R.modulus ring.now) (R.value ring.now) self.now.rows
            (entries_of (R.value ring.now) row.now) (entries_of (R.value ring.now) q)) }
        ensures in_ring { IfOk result (AllIn (R.has ring.now)) }
        ensures reduced { AreReduced (R.modulus ring.now) (R.value ring.now) self.now.rows }
    {
        let columns = greater(self.columns as usize, width_of(row));
        let left = remainder_of(*self.rows.allocator(), ring, columns, &self.rows, row)?;
        Ok(left)
    }

    /// How many rows the list has.
    pub fn len(&self) -> u32
        ensures { result ≡ length self.now.rows }
    {
        self.rows.len() as u32
    }

    /// Row `i` of the list.
    pub fn row(&self, i: u32) -> &Row<R>
        requires { i < length self.now.rows }
        ensures row { result.now ≡ get_or self.now.rows i [] }
        ensures list { IsRowList (R.modulus self.now.ring) (R.has self.now.ring) (R.value self.now.ring) R.zero self.now.columns self.now.rows }
    {
        &self.rows[i as usize]
    }
}

/// One more than the last column of a row, and 0 for the zero row.
fn width_of<R: Ring>(row: &Row<R>) -> usize
    ensures below { IsBelow (λ k. k) result row.now }
    ensures few { result ≤ 65536 }
{
    let entries = row.entries();
    if entries.len() == 0 {
        return 0;
    }
    usize::from(entries[entries.len() - 1].0) + 1
}

/// The greater of two widths.
fn greater(a: usize, b: usize) -> usize
    requires few_a { a ≤ 65536 }
    requires few_b { b ≤ 65536 }
    ensures a { a ≤ result }
    ensures b { b ≤ result }
    ensures few { result ≤ 65536 }
{
    if a < b { b } else { a }
}

/// The width of rows that are a reduced list, or the least place whose row does not fit.
fn reduced_width<R: Ring>(ring: &R, rows: &[Row<R>]) -> Result<u32, u32>
    requires { (i : ℕ) → i < length rows.now → AllIn (R.has ring.now) (get_or rows.now i []) }
    ensures ok { IfOk result (λ columns. IsRowList (R.modulus ring.now) (R.has ring.now) (R.value ring.now) R.zero columns rows.now) }
    ensures each { IfOk result (λ columns. (i : ℕ) → i < length rows.now → IsReducedAt (R.value ring.now) R.zero rows.now i) }
    ensures inside { IfErr result (λ i. i < length rows.now) }
    ensures err { IfErr result (λ i. IsNotReducedAt (R.value ring.now) rows.now i × ((k : ℕ) → k < i → IsReducedAt (R.value ring.now) R.zero rows.now k)) }
{
    let mut columns = 0;
    let seen = is_reduced_list(ring, rows);
    for i in 0..rows.len() {
        if !fits_at(ring, rows, seen, i) {
            return Err(i as u32);
        }
        columns = greater(columns, width_of(&rows[i]));
    }
    Ok(columns as u32)
}

/// The same as `is_reduced_at`, which is left out where the rows were seen to be a reduced list.
fn fits_at<R: Ring>(ring: &R, rows: &[Row<R>], seen: bool, i: usize) -> bool
    requires in_ring { (i : ℕ) → i < length rows.now → AllIn (R.has ring.now) (get_or rows.now i []) }
    requires inside { i < length rows.now }
    requires seen { IsTrue seen → IsReducedAt (R.value ring.now) R.zero rows.now i }
    ensures reduced { IsTrue result → IsReducedAt (R.value ring.now) R.zero rows.now i }
    ensures not_reduced { IsFalse result → IsNotReducedAt (R.value ring.now) rows.now i }
{
    if seen {
        return true;
    }
    is_reduced_at(ring, rows, i)
}

/// Whether a row leads with 1 behind the row before it, and its lead column is zero in every other row.
fn is_reduced_at<R: Ring>(ring: &R, rows: &[Row<R>], i: usize) -> bool
    requires in_ring { (i : ℕ) → i < length rows.now → AllIn (R.has ring.now) (get_or rows.now i []) }
    requires inside { i < length rows.now }
    ensures reduced { IsTrue result → IsReducedAt (R.value ring.now) R.zero rows.now i }
    ensures not_reduced { IsFalse result → IsNotReducedAt (R.value ring.now) rows.now i }
{
    let entries = rows[i].entries();
    if entries.len() == 0 {
        return false;
    }
    let first = entries[0];
    if ring.value(first.1) != 1 {
        return false;
    }
    if i > 0 && usize::from(first.0) <= lead_column(&rows[i - 1]) {
        return false;
    }
    for k in 0..rows.len() {
        if k != i && !R::is_zero(rows[k].entry(ring, first.0)) {
            return false;
        }
    }
    true
}

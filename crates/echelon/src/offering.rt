//! The forward row of an offered row, and the rows that it was made of.
ghost use Rattle.std.specs.Prelude.{◌≡◌, ℕ, ◌+◌, ◌*◌, ◌%◌, ◌<◌, ◌≤◌, ◌↔◌, true, List, length, get_or, All, IfOk, OnOk, IfSome, IfNone, IsErrOf, IsTrue, IsFalse, []};
ghost use Rattle.linear_model.specs.Forward.{IsSwept};
ghost use Rattle.sparse_rows.specs.Entries.{AllIn, IsRow, IsBelow};
ghost use Rattle.echelon.specs.Lists.{entries_of, row_at, lead_at, AllFit, AreForward};
ghost use Rattle.echelon.specs.Inner.{numbers_of, IsForwardAt, IsSweptRow, IsFoundRow};
ghost use Rattle.echelon.specs.Offers.{IsNotForward, InSpanOf, HasNoInverse, NamedBy, used_at};

use crate::fault::OfferFault;
use crate::sums::{add_entries, gathered, no_sums};
use crate::sweeping::sweep;
use residues::Ring;
use sparse_rows::{Combination, Row};
use std::alloc::{AllocError, Global};

/// What a sweep leaves of a row, and the factor of each row that was added.
#[derive(Drop)]
pub struct SweptRow<R: Ring> {
    pub row: Row<R>,
    pub factors: Vec<R::Elem>,
}

/// A forward row: `scale` times the offered row, plus `scale` times the factors of the rows before it.
#[derive(Drop)]
pub struct FoundRow<R: Ring> {
    pub row: Row<R>,
    pub scale: R::Elem,
    pub factors: Vec<R::Elem>,
}

/// The row, swept by the rows from `first` on.
pub fn swept_row<R: Ring>(
    alloc: Global,
    ring: &R,
    columns: usize,
    rows: &[Row<R>],
    first: usize,
    row: &Row<R>,
) -> Result<SweptRow<R>, AllocError>
    requires few { columns ≤ 65536 }
    requires fit { AllFit (R.has ring.now) R.zero columns rows.now }
    requires forward { AreForward (R.modulus ring.now) (R.value ring.now) rows.now }
    requires first { first ≤ length rows.now }
    requires below { IsBelow (λ k. k) columns row.now }
    requires in_ring { AllIn (R.has ring.now) row.now }
    ensures { IfOk result (λ swept. IsSweptRow (R.modulus ring.now) (R.has ring.now) (R.value ring.now) R.zero columns rows.now first (entries_of (R.value ring.now) row.now) swept.row swept.factors.items) }
{
    let mut sums = no_sums(alloc, ring, columns)?;
    swept_sums(alloc, ring, rows, first, row, &mut sums)
}

/// The row, swept by the rows from `first` on, over accumulators of no products.
fn swept_sums<R: Ring>(
    alloc: Global,
    ring: &R,
    rows: &[Row<R>],
    first: usize,
    row: &Row<R>,
    sums: &mut [R::Accumulator],
) -> Result<SweptRow<R>, AllocError>
    requires few { length sums.old ≤ 65536 }
    requires all { All (R.is_sum ring.now) sums.old }
    requires zero { (q : ℕ) → numbers_of (R.total ring.now) sums.old q ≡ 0 }
    requires fit { AllFit (R.has ring.now) R.zero (length sums.old) rows.now }
    requires forward { AreForward (R.modulus ring.now) (R.value ring.now) rows.now }
    requires first { first ≤ length rows.now }
    requires below { IsBelow (λ k. k) (length sums.old) row.now }
    requires in_ring { AllIn (R.has ring.now) row.now }
    ensures { IfOk result (λ swept. IsSweptRow (R.modulus ring.now) (R.has ring.now) (R.value ring.now) R.zero (length sums.old) rows.now first (entries_of (R.value ring.now) row.now) swept.row swept.factors.items) }
{
    add_entries(ring, sums, ring.one(), row.entries());
    let factors = sweep(alloc, ring, rows, first, sums)?;
    let row = gathered(alloc, ring, sums)?;
    Ok(SweptRow { row, factors })
}

/// The forward row of a row behind a forward list, None where the row is in the span.
pub fn found_row<R: Ring>(
    alloc: Global,
    ring: &R,
    columns: usize,
    rows: &[Row<R>],
    n: u32,
    row: &Row<R>,
) -> Result<Option<FoundRow<R>>, OfferFault>
    requires few { columns ≤ 65536 }
    requires fit { AllFit (R.has ring.now) R.zero columns rows.now }
    requires forward { AreForward (R.modulus ring.now) (R.value ring.now) rows.now }
    requires below { IsBelow (λ k. k) columns row.now }
    requires in_ring { AllIn (R.has ring.now) row.now }
    ensures zero { IfOk result (λ found. IfNone found (InSpanOf (R.modulus ring.now) (R.value ring.now) rows.now (entries_of (R.value ring.now) row.now))) }
    ensures found { IfOk result (λ found. IfSome found (λ f. IsFoundRow (R.modulus ring.now) (R.has ring.now) (R.value ring.now) R.zero columns rows.now (entries_of (R.value ring.now) row.now) f.row f.scale f.factors.items)) }
    ensures no_inverse { (lead k : ℕ) → IsErrOf result (OfferFault.NoInverse lead k)
        → (k ≡ n) × HasNoInverse (R.modulus ring.now) (R.value ring.now) rows.now (entries_of (R.value ring.now) row.now) lead }
{
    let swept = match swept_row(alloc, ring, columns, rows, 0, row) {
        Ok(swept) => swept,
        Err(fault) => return Err(OfferFault::Memory(fault)),
    };
    let SweptRow {
        row: mut rest,
        factors,
    } = swept;
    let Some(lead) = rest.lead() else {
        return Ok(None);
    };
    let Some(scale) = ring.inverse(lead.1) else {
        return Err(OfferFault::NoInverse {
            value: ring.value(lead.1),
            n,
        });
    };
    rest.scale(ring, scale);
    Ok(Some(FoundRow {
        row: rest,
        scale,
        factors,
    }))
}

/// The factors as pairs, by the numbers of their rows.
pub fn named<R: Ring>(
    alloc: Global,
    ring: &R,
    numbers: &[u32],
    factors: &[R::Elem],
) -> Result<Combination<R>, AllocError>
    requires count { length numbers.now ≡ length factors.now }
    requires rising { (i k : ℕ) → i < k → k < length numbers.now → get_or numbers.now i 0 < get_or numbers.now k 0 }
    requires in_ring { All (λ a. R.has ring.now a ≡ true) factors.now }
    ensures at { IfOk result (λ uses. (i : ℕ) → i < length numbers.now → used_at (R.value ring.now) numbers.now uses i ≡ numbers_of (R.value ring.now) factors.now i) }
    ensures named { IfOk result (NamedBy (R.value ring.now) numbers.now) }
    ensures in_ring { IfOk result (AllIn (R.has ring.now)) }
{
    let mut uses = Combination::zero(alloc);
    for i in 0..numbers.len() {
        let factor = factors[i];
        if !R::is_zero(factor) {
            uses.push(numbers[i], factor)?;
        }
    }
    Ok(uses)
}

/// The factors times the scale as pairs, by the numbers of their rows.
pub fn uses_of<R: Ring>(
    alloc: Global,
    ring: &R,
    numbers: &[u32],
    factors: &[R::Elem],
    scale: R::Elem,
) -> Result<Combination<R>, AllocError>
    requires count { length numbers.now ≡ length factors.now }
    requires rising { (i k : ℕ) → i < k → k < length numbers.now → get_or numbers.now i 0 < get_or numbers.now k 0 }
    requires in_ring { All (λ a. R.has ring.now a ≡ true) factors.now }
    requires has_scale { R.has ring.now scale ≡ true }
    ensures at { IfOk result (λ uses. (i : ℕ) → i < length numbers.now → used_at (R.value ring.now) numbers.now uses i ≡ R.value ring.now scale * numbers_of (R.value ring.now) factors.now i % R.modulus ring.now) }
    ensures named { IfOk result (NamedBy (R.value ring.now) numbers.now) }
    ensures in_ring { IfOk result (AllIn (R.has ring.now)) }
{
    let mut uses = named(alloc, ring, numbers, factors)?;
    uses.scale(ring, scale);
    Ok(uses)
}

/// Whether a row leads with 1 and is zero at the leads of the rows.
pub fn is_forward_row<R: Ring>(ring: &R, rows: &[Row<R>], row: &Row<R>) -> bool
    requires some { (i : ℕ) → i < length rows.now → 0 < length (get_or rows.now i []) }
    requires in_ring { AllIn (R.has ring.now) row.now }
    ensures forward { IsTrue result → IsForwardAt (R.value ring.now) R.zero 0 rows.now 0 row.now }
    ensures not_forward { IsFalse result → IsNotForward (R.modulus ring.now) (R.value ring.now) 0 rows.now 0 row.now }
{
    let entries = row.entries();
    if entries.len() == 0 {
        return false;
    }
    let first = entries[0].1;
    if ring.value(first) != 1 {
        return false;
    }
    for i in 0..rows.len() {
        let earlier = rows[i].entries();
        if !R::is_zero(row.entry(ring, earlier[0].0)) {
            return false;
        }
    }
    true
}

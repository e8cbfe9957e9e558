//! One sweep over a forward list, in its order.
ghost use Rattle.std.specs.Prelude.{◌≡◌, ℕ, ◌<◌, ◌≤◌, List, length, true, IfOk, All};
ghost use Rattle.linear_model.specs.Forward.{IsSwept};
ghost use Rattle.echelon.specs.Lists.{AllFit, AreForward, lead_at, row_at};
ghost use Rattle.echelon.specs.Inner.{numbers_of};

use crate::sums::cancel;
use residues::Ring;
use sparse_rows::Row;
use std::alloc::{AllocError, Global};

/// Makes the sums zero at the leads of the rows from `first` on, one row after the other, and answers the factor of each
/// row: zero for those before `first`.
pub fn sweep<R: Ring>(
    alloc: Global,
    ring: &R,
    rows: &[Row<R>],
    first: usize,
    sums: &mut [R::Accumulator],
) -> Result<Vec<R::Elem>, AllocError>
    requires fit { AllFit (R.has ring.now) R.zero (length sums.old) rows.now }
    requires forward { AreForward (R.modulus ring.now) (R.value ring.now) rows.now }
    requires first { first ≤ length rows.now }
    requires all { All (R.is_sum ring.now) sums.old }
    ensures all { All (R.is_sum ring.now) sums.new }
    ensures len { IfOk result (λ factors. length factors.items ≡ length rows.now) }
    ensures in_ring { IfOk result (λ factors. All (λ a. R.has ring.now a ≡ true) factors.items) }
    ensures zero { IfOk result (λ factors. (i : ℕ) → i < first → numbers_of (R.value ring.now) factors.items i ≡ 0) }
    ensures swept { IfOk result (λ factors. IsSwept (R.modulus ring.now) first (length rows.now) (lead_at rows.now) (row_at (R.value ring.now) rows.now)
        (numbers_of (R.value ring.now) factors.items) (numbers_of (R.total ring.now) sums.old) (numbers_of (R.total ring.now) sums.new)) }
{
    let mut factors = Vec::with_capacity(alloc, rows.len())?;
    for _ in 0..first {
        factors.push(ring.zero())?;
    }
    for i in first..rows.len() {
        let factor = cancel(ring, &rows[i], sums);
        factors.push(factor)?;
    }
    Ok(factors)
}

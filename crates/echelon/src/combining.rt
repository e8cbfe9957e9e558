//! Sums of combinations.
ghost use Rattle.std.specs.Prelude.{◌≡◌, ℕ, ◌+◌, ◌*◌, ◌%◌, ◌<◌, true, List, length, All, IfOk};
ghost use Rattle.linear_model.specs.Rows.{combination, SameRow};
ghost use Rattle.sparse_rows.specs.Entries.{AllIn};
ghost use Rattle.echelon.specs.Lists.{entries_of, row_at};
ghost use Rattle.echelon.specs.States.{AllIns};
ghost use Rattle.echelon.specs.Inner.{numbers_of};
ghost use Rattle.echelon.specs.Offers.{IsCombined};

use residues::Ring;
use sparse_rows::Combination;
use std::alloc::{AllocError, Global};

/// The start, plus each combination times its factor.
pub fn added<R: Ring>(
    ring: &R,
    start: Combination<R>,
    combinations: &[Combination<R>],
    factors: &[R::Elem],
) -> Result<Combination<R>, AllocError>
    requires count { length factors.now ≡ length combinations.now }
    requires start_in_ring { AllIn (R.has ring.now) start }
    requires all { AllIns (R.has ring.now) combinations.now }
    requires in_ring { All (λ a. R.has ring.now a ≡ true) factors.now }
    ensures sum { IfOk result (λ sum. SameRow (R.modulus ring.now) (entries_of (R.value ring.now) sum)
        (λ q. entries_of (R.value ring.now) start q + combination (length combinations.now) (row_at (R.value ring.now) combinations.now) (numbers_of (R.value ring.now) factors.now) q)) }
    ensures in_ring { IfOk result (AllIn (R.has ring.now)) }
{
    let mut sum = start;
    for i in 0..combinations.len() {
        let factor = factors[i];
        if !R::is_zero(factor) {
            sum.add_scaled(ring, factor, &combinations[i])?;
        }
    }
    Ok(sum)
}

/// `scale` at `n`, plus each combination times `scale` times its factor.
pub fn combined<R: Ring>(
    alloc: Global,
    ring: &R,
    combinations: &[Combination<R>],
    n: u32,
    scale: R::Elem,
    factors: &[R::Elem],
) -> Result<Combination<R>, AllocError>
    requires count { length factors.now ≡ length combinations.now }
    requires all { AllIns (R.has ring.now) combinations.now }
    requires in_ring { All (λ a. R.has ring.now a ≡ true) factors.now }
    requires has_scale { R.has ring.now scale ≡ true }
    ensures combined { IfOk result (IsCombined (R.modulus ring.now) (R.value ring.now) combinations.now n (R.value ring.now scale)
        (λ i. R.value ring.now scale * numbers_of (R.value ring.now) factors.now i)) }
    ensures in_ring { IfOk result (AllIn (R.has ring.now)) }
{
    let mut start = Combination::zero(alloc);
    start.push(n, ring.one())?;
    let mut sum = added(ring, start, combinations, factors)?;
    sum.scale(ring, scale);
    Ok(sum)
}

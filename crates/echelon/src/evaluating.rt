//! The combinations of sums of forward rows.
ghost use Rattle.std.specs.Prelude.{◌≡◌, ℕ, ◌<◌, true, List, [], length, get_or, All, IfOk};
ghost use Rattle.linear_model.specs.Rows.{combination, SameRow};
ghost use Rattle.sparse_rows.specs.Entries.{AllIn};
ghost use Rattle.echelon.specs.Lists.{entries_of, row_at};
ghost use Rattle.echelon.specs.States.{AllIns};
ghost use Rattle.echelon.specs.Inner.{numbers_of, IsEvaluated};
ghost use Rattle.echelon.specs.Offers.{used_at};

use crate::combining::added;
use residues::Ring;
use sparse_rows::Combination;
use std::alloc::{AllocError, Global};

/// The residue that the pairs have at each of the numbers.
fn factors_of<R: Ring>(
    alloc: Global,
    ring: &R,
    numbers: &[u32],
    uses: &Combination<R>,
) -> Result<Vec<R::Elem>, AllocError>
    requires { AllIn (R.has ring.now) uses.now }
    ensures count { IfOk result (λ factors. length factors.items ≡ length numbers.now) }
    ensures in_ring { IfOk result (λ factors. All (λ a. R.has ring.now a ≡ true) factors.items) }
    ensures at { IfOk result (λ factors. (i : ℕ) → i < length numbers.now → numbers_of (R.value ring.now) factors.items i ≡ used_at (R.value ring.now) numbers.now uses.now i) }
{
    let mut factors = Vec::new(alloc);
    for i in 0..numbers.len() {
        factors.push(uses.entry(ring, numbers[i]))?;
    }
    Ok(factors)
}

/// The sum of the combinations, each with the residue that the pairs have at its number.
pub fn evaluated<R: Ring>(
    alloc: Global,
    ring: &R,
    numbers: &[u32],
    combinations: &[Combination<R>],
    uses: &Combination<R>,
) -> Result<Combination<R>, AllocError>
    requires count { length numbers.now ≡ length combinations.now }
    requires all { AllIns (R.has ring.now) combinations.now }
    requires in_ring { AllIn (R.has ring.now) uses.now }
    ensures evaluated { IfOk result (λ sum. SameRow (R.modulus ring.now) (entries_of (R.value ring.now) sum)
        (combination (length combinations.now) (row_at (R.value ring.now) combinations.now) (used_at (R.value ring.now) numbers.now uses.now))) }
    ensures in_ring { IfOk result (AllIn (R.has ring.now)) }
{
    let factors = factors_of(alloc, ring, numbers, uses)?;
    let sum = added(ring, Combination::zero(alloc), combinations, &factors)?;
    Ok(sum)
}

/// The same for each of many pairs.
pub fn all_evaluated<R: Ring>(
    alloc: Global,
    ring: &R,
    numbers: &[u32],
    combinations: &[Combination<R>],
    uses: &[Combination<R>],
) -> Result<Vec<Combination<R>>, AllocError>
    requires count { length numbers.now ≡ length combinations.now }
    requires all { AllIns (R.has ring.now) combinations.now }
    requires in_ring { AllIns (R.has ring.now) uses.now }
    ensures count { IfOk result (λ sums. length sums.items ≡ length uses.now) }
    ensures sums { IfOk result (λ sums. (j : ℕ) → j < length sums.items → IsEvaluated (R.modulus ring.now) (R.has ring.now) (R.value ring.now) numbers.now combinations.now (get_or uses.now j []) (get_or sums.items j [])) }
{
    let mut sums = Vec::new(alloc);
    for i in 0..uses.len() {
        let sum = evaluated(alloc, ring, numbers, combinations, &uses[i])?;
        sums.push(sum)?;
    }
    Ok(sums)
}

//! Sums of combinations that are read page by page.
ghost use Rattle.std.specs.Prelude.{◌≡◌, ℕ, ◌+◌, ◌^◌, ◌<◌, ◌≤◌, [], length, get_or, IfOk, All};
ghost use Rattle.linear_model.specs.Rows.{combination, SameRow};
ghost use Rattle.sparse_rows.specs.Entries.{AllIn, IsBelow};
ghost use Rattle.row_sums.specs.Totals.{total_at};
ghost use Rattle.echelon.specs.Lists.{row_at};
ghost use Rattle.echelon.specs.Offers.{used_at};
ghost use Rattle.echelon.specs.States.{AllIns};
ghost use Rattle.table_build.specs.Inner.{AreRising, AreSums, AreTotals};

use residues::Ring;
use row_sums::{RowSum, entry_at};
use sparse_rows::Combination;
use std::alloc::{AllocError, Global};

// A number above all of these.
pub(crate) fn bound_of(numbers: &[u32]) -> usize
    requires rising { AreRising numbers.now }
    ensures above { (i : ℕ) → i < length numbers.now → get_or numbers.now i 0 < result }
    ensures few { result ≤ 2 ^ 32 }
{
    match numbers.last() {
        Some(last) => *last as usize + 1,
        None => 0,
    }
}

// So many sums of no combinations, for these numbers.
pub(crate) fn no_totals<R: Ring>(
    alloc: Global,
    ring: &R,
    numbers: &[u32],
    count: usize,
) -> Result<Vec<RowSum<R>>, AllocError>
    requires rising { AreRising numbers.now }
    ensures totals { IfOk result (λ sums. AreTotals (R.is_sum ring.now) numbers.now count sums.items) }
    ensures zero { IfOk result (λ sums. (j : ℕ) → j < length sums.items → (q : ℕ) → total_at (R.total ring.now) (get_or sums.items j []) q ≡ 0) }
{
    let bound = bound_of(numbers);
    let mut sums = Vec::with_capacity(alloc, count)?;
    for _ in 0..count {
        sums.push(RowSum::zero(alloc, ring, bound)?)?;
    }
    Ok(sums)
}

// Adds each combination to a sum, as often as the uses say at its number.
fn add_used<R: Ring>(
    ring: &R,
    sum: &mut RowSum<R>,
    uses: &Combination<R>,
    numbers: &[u32],
    combinations: &[Combination<R>],
)
    requires count { length combinations.now ≤ length numbers.now }
    requires uses_in_ring { AllIn (R.has ring.now) uses.now }
    requires all { AllIns (R.has ring.now) combinations.now }
    requires is_sum { All (R.is_sum ring.now) sum.old }
    requires below { (i : ℕ) → i < length combinations.now → IsBelow (λ k. k) (length sum.old) (get_or combinations.now i []) }
    ensures len { length sum.new ≡ length sum.old }
    ensures is_sum { All (R.is_sum ring.now) sum.new }
    ensures sum { SameRow (R.modulus ring.now) (total_at (R.total ring.now) sum.new) (λ q. total_at (R.total ring.now) sum.old q
        + combination (length combinations.now) (row_at (R.value ring.now) combinations.now) (used_at (R.value ring.now) numbers.now uses.now) q) }
{
    for i in 0..combinations.len() {
        let factor = entry_at(ring, uses, numbers[i]);
        if !R::is_zero(factor) {
            sum.add(ring, factor, combinations[i].entries());
        }
    }
}

// Adds each combination to each sum, as often as its uses say at the combination's number.
pub(crate) fn add_all_used<R: Ring>(
    ring: &R,
    sums: &mut [RowSum<R>],
    uses: &[Combination<R>],
    numbers: &[u32],
    combinations: &[Combination<R>],
)
    requires count { length combinations.now ≤ length numbers.now }
    requires as_many { length sums.old ≡ length uses.now }
    requires uses_in_ring { AllIns (R.has ring.now) uses.now }
    requires all { AllIns (R.has ring.now) combinations.now }
    requires are_sums { (j : ℕ) → j < length sums.old → All (R.is_sum ring.now) (get_or sums.old j []) }
    requires below { (j : ℕ) → j < length sums.old → (i : ℕ) → i < length combinations.now
        → IsBelow (λ k. k) (length (get_or sums.old j [])) (get_or combinations.now i []) }
    ensures as_many { length sums.new ≡ length sums.old }
    ensures sizes { (j : ℕ) → length (get_or sums.new j []) ≡ length (get_or sums.old j []) }
    ensures are_sums { (j : ℕ) → j < length sums.new → All (R.is_sum ring.now) (get_or sums.new j []) }
    ensures added { (j : ℕ) → j < length uses.now → SameRow (R.modulus ring.now) (total_at (R.total ring.now) (get_or sums.new j []))
        (λ q. total_at (R.total ring.now) (get_or sums.old j []) q
        + combination (length combinations.now) (row_at (R.value ring.now) combinations.now) (used_at (R.value ring.now) numbers.now (get_or uses.now j [])) q) }
{
    for j in 0..uses.len() {
        add_used(ring, &mut sums[j], &uses[j], numbers, combinations);
    }
}

// Each start, plus what its sum stands for.
pub(crate) fn all_ended<R: Ring>(
    alloc: Global,
    ring: &R,
    starts: &[Combination<R>],
    sums: &[RowSum<R>],
) -> Result<Vec<Combination<R>>, AllocError>
    requires as_many { length sums.now ≡ length starts.now }
    requires starts_in_ring { AllIns (R.has ring.now) starts.now }
    requires are_sums { (j : ℕ) → j < length sums.now → All (R.is_sum ring.now) (get_or sums.now j []) }
    requires few { (j : ℕ) → j < length sums.now → length (get_or sums.now j []) ≤ 2 ^ 32 }
    ensures count { IfOk result (λ made. length made.items ≡ length starts.now) }
    ensures in_ring { IfOk result (λ made. AllIns (R.has ring.now) made.items) }
    ensures made { IfOk result (λ made. (j : ℕ) → j < length starts.now → SameRow (R.modulus ring.now) (row_at (R.value ring.now) made.items j)
        (λ q. row_at (R.value ring.now) starts.now j q + total_at (R.total ring.now) (get_or sums.now j []) q)) }
{
    let mut ended = Vec::with_capacity(alloc, starts.len())?;
    for j in 0..starts.len() {
        let mut made = sums[j].combination(alloc, ring)?;
        made.add_scaled(ring, ring.one(), &starts[j])?;
        ended.push(made)?;
    }
    Ok(ended)
}

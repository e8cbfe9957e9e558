//! Sums of combinations.
ghost use Rattle.std.specs.Prelude.{◌≡◌, ℕ, ◌+◌, ◌*◌, ◌<◌, ◌≤◌, List, [], length, get_or, IfOk};
ghost use Rattle.linear_model.specs.Rows.{combination, SameRow};
ghost use Rattle.sparse_rows.specs.Entries.{AllIn};
ghost use Rattle.echelon.specs.Lists.{entries_of, row_at};
ghost use Rattle.echelon.specs.Offers.{used_at};
ghost use Rattle.echelon.specs.States.{AllIns};
ghost use Rattle.table_build.specs.Inner.{AreSums};

use residues::Ring;
use sparse_rows::Combination;
use std::alloc::{AllocError, Global};

// The start, plus each combination as often as the uses say at its number.
fn added<R: Ring>(
    ring: &R,
    start: &Combination<R>,
    uses: &Combination<R>,
    numbers: &[u32],
    combinations: &[Combination<R>],
) -> Result<Combination<R>, AllocError>
    requires count { length combinations.now ≤ length numbers.now }
    requires start_in_ring { AllIn (R.has ring.now) start.now }
    requires uses_in_ring { AllIn (R.has ring.now) uses.now }
    requires all { AllIns (R.has ring.now) combinations.now }
    ensures sum { IfOk result (λ sum. SameRow (R.modulus ring.now) (entries_of (R.value ring.now) sum)
        (λ q. entries_of (R.value ring.now) start.now q
        + combination (length combinations.now) (row_at (R.value ring.now) combinations.now) (used_at (R.value ring.now) numbers.now uses.now) q)) }
    ensures in_ring { IfOk result (AllIn (R.has ring.now)) }
{
    let mut sum = start.copy()?;
    for i in 0..combinations.len() {
        let number = numbers[i];
        let factor = uses.entry(ring, number);
        if !R::is_zero(factor) {
            sum.add_scaled(ring, factor, &combinations[i])?;
        }
    }
    Ok(sum)
}

// Each start, plus the sums before it, each as often as the uses say at its number.
pub(crate) fn added_in_turn<R: Ring>(
    alloc: Global,
    ring: &R,
    starts: &[Combination<R>],
    uses: &[Combination<R>],
    numbers: &[u32],
) -> Result<Vec<Combination<R>>, AllocError>
    requires count { length starts.now ≡ length numbers.now }
    requires sums { AreSums (R.has ring.now) (length starts.now) uses.now starts.now }
    ensures count { IfOk result (λ sums. length sums.items ≡ length starts.now) }
    ensures in_ring { IfOk result (λ sums. AllIns (R.has ring.now) sums.items) }
    ensures sums { IfOk result (λ sums. (j : ℕ) → j < length starts.now → SameRow (R.modulus ring.now) (row_at (R.value ring.now) sums.items j)
        (λ q. row_at (R.value ring.now) starts.now j q
        + combination j (row_at (R.value ring.now) sums.items) (used_at (R.value ring.now) numbers.now (get_or uses.now j [])) q)) }
{
    let mut sums = Vec::with_capacity(alloc, starts.len())?;
    for j in 0..starts.len() {
        let sum = added(ring, &starts[j], &uses[j], numbers, &sums)?;
        sums.push(sum)?;
    }
    Ok(sums)
}

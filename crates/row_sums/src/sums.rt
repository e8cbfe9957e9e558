//! Sums of rows, one accumulator for each number.
ghost use Rattle.std.specs.Prelude.{◌≡◌, ℕ, ◌+◌, ◌*◌, ◌%◌, ◌<◌, ◌≤◌, ◌^◌, true, length, IfOk, All};
ghost use Rattle.linear_model.specs.Rows.{SameRow};
ghost use Rattle.sparse_rows.specs.Entries.{entry_of, AllIn, IsRow, IsBelow};
ghost use Rattle.row_sums.specs.Totals.{total_at};

use residues::Ring;
use sparse_rows::{Combination, Key};
use std::alloc::{AllocError, Global};
use std::marker::Model;

/// A sum of rows that is being made: an accumulator for each number from 0 on. Contracts see it as the list of these.
#[derive(Drop)]
pub struct RowSum<R: Ring> {
    accumulators: Vec<R::Accumulator>,
}

impl<R: Ring> Model for RowSum<R> {
    ghost use Rattle.std.specs.Prelude.{List};

    ghost Value = { List R.Accumulator };

    ghost view = { λ s. s.accumulators.items };
}

impl<R: Ring> RowSum<R> {
    /// The sum of no rows, for numbers below `count`; refused where there is no memory.
    pub fn zero(alloc: Global, ring: &R, count: usize) -> Result<RowSum<R>, AllocError>
        ensures all { IfOk result (All (R.is_sum ring.now)) }
        ensures len { IfOk result (λ sum. length sum ≡ count) }
        ensures zero { IfOk result (λ sum. (q : ℕ) → total_at (R.total ring.now) sum q ≡ 0) }
    {
        let mut accumulators = Vec::new(alloc);
        accumulators.resize(count, ring.start_sum())?;
        Ok(RowSum { accumulators })
    }

    /// Adds `c` times a row. It takes no memory.
    pub fn add<K: Key>(&mut self, ring: &R, c: R::Elem, entries: &[(K, R::Elem)])
        requires below { IsBelow K.number (length self.old) entries.now }
        requires all { All (R.is_sum ring.now) self.old }
        requires in_ring { AllIn (R.has ring.now) entries.now }
        requires has_c { R.has ring.now c ≡ true }
        ensures len { length self.new ≡ length self.old }
        ensures all { All (R.is_sum ring.now) self.new }
        ensures sum { SameRow (R.modulus ring.now) (total_at (R.total ring.now) self.new)
            (λ q. total_at (R.total ring.now) self.old q + R.value ring.now c * entry_of K.number (R.value ring.now) entries.now q) }
    {
        add_entries(ring, &mut self.accumulators, c, entries);
    }

    /// The combination that it stands for; refused where there is no memory.
    pub fn combination(&self, alloc: Global, ring: &R) -> Result<Combination<R>, AllocError>
        requires few { length self.now ≤ 2 ^ 32 }
        requires all { All (R.is_sum ring.now) self.now }
        ensures row { IfOk result (IsRow (λ k. k) R.zero 0) }
        ensures in_ring { IfOk result (AllIn (R.has ring.now)) }
        ensures entries { IfOk result (λ row. (q : ℕ) → entry_of (λ k. k) (R.value ring.now) row q ≡ total_at (R.total ring.now) self.now q % R.modulus ring.now) }
    {
        gathered(alloc, ring, &self.accumulators)
    }
}

// Adds `c` times a row, whose numbers have accumulators.
fn add_entries<K: Key, R: Ring>(
    ring: &R,
    sums: &mut [R::Accumulator],
    c: R::Elem,
    entries: &[(K, R::Elem)],
)
    requires below { IsBelow K.number (length sums.old) entries.now }
    requires all { All (R.is_sum ring.now) sums.old }
    requires in_ring { AllIn (R.has ring.now) entries.now }
    requires has_c { R.has ring.now c ≡ true }
    ensures len { length sums.new ≡ length sums.old }
    ensures all { All (R.is_sum ring.now) sums.new }
    ensures sum { SameRow (R.modulus ring.now) (total_at (R.total ring.now) sums.new)
        (λ q. total_at (R.total ring.now) sums.old q + R.value ring.now c * entry_of K.number (R.value ring.now) entries.now q) }
{
    let mut rest = entries;
    while let Some((entry, behind)) = rest.split_first() {
        let place = entry.0.number() as usize;
        sums[place] = ring.add_product(sums[place], c, entry.1);
        rest = behind;
    }
}

// The combination that the accumulators stand for.
fn gathered<R: Ring>(
    alloc: Global,
    ring: &R,
    sums: &[R::Accumulator],
) -> Result<Combination<R>, AllocError>
    requires few { length sums.now ≤ 2 ^ 32 }
    requires all { All (R.is_sum ring.now) sums.now }
    ensures row { IfOk result (IsRow (λ k. k) R.zero 0) }
    ensures in_ring { IfOk result (AllIn (R.has ring.now)) }
    ensures entries { IfOk result (λ row. (q : ℕ) → entry_of (λ k. k) (R.value ring.now) row q ≡ total_at (R.total ring.now) sums.now q % R.modulus ring.now) }
{
    let mut row = Combination::zero(alloc);
    for (number, sum) in sums.iter().enumerate() {
        let residue = ring.close_sum(*sum);
        if !R::is_zero(residue) {
            row.push(number as u32, residue)?;
        }
    }
    Ok(row)
}

//! Running sums: one for each depth of an index, over the numbers so far.
ghost use Rattle.std.specs.Prelude.{◌≡◌, ℕ, ◌+◌, ◌%◌, ◌^◌, true, length, All, IfOk};
ghost use Rattle.truncated_sums.specs.Running.{AreInverses, Gains};
ghost use Rattle.truncated_sums.specs.TruncatedSums.{truncated_sum};

use residues::Ring;
use std::alloc::{AllocError, Global};

/// The truncated sum of an index over as many numbers as there are inverses, those of 1, 2, 3 and so on.
pub fn running_sum<R: Ring>(
    alloc: Global,
    ring: &R,
    inverses: &[R::Elem],
    index: &[u32],
) -> Result<R::Elem, AllocError>
    requires in_ring { All (λ a. R.has ring.now a ≡ true) inverses.now }
    ensures has { IfOk result (λ a. R.has ring.now a ≡ true) }
    ensures value { IfOk result (λ a. (inverse : ℕ → ℕ) → AreInverses (R.modulus ring.now) (R.value ring.now) inverse inverses.now
        → R.value ring.now a ≡ truncated_sum inverse (length inverses.now) index.now % R.modulus ring.now) }
{
    let mut sums = Vec::new(alloc);
    for _k in index {
        sums.push(ring.zero())?;
    }
    sums.push(ring.one())?;
    for inverse in inverses {
        add_number(ring, *inverse, index, &mut sums);
    }
    Ok(sums[0])
}

/// Lets the lists begin with one number more: the sum behind j numbers of the index gains the power of the inverse
/// times the sum behind one more.
fn add_number<R: Ring>(ring: &R, inverse: R::Elem, index: &[u32], sums: &mut [R::Elem])
    requires has { R.has ring.now inverse ≡ true }
    requires lengths { length sums.old ≡ length index.now + 1 }
    requires in_ring { All (λ a. R.has ring.now a ≡ true) sums.old }
    ensures in_ring { All (λ a. R.has ring.now a ≡ true) sums.new }
    ensures gains { Gains (R.modulus ring.now) (R.value ring.now) inverse index.now (length index.now) sums.old sums.new }
{
    // Each sum takes the next one as it was, so they go from the front.
    for j in 0..index.len() {
        let gained = ring.mul(power(ring, inverse, index[j]), sums[j + 1]);
        sums[j] = ring.add(sums[j], gained);
    }
}

/// The power of an element, by squares: one for each digit of `k` in base 2.
fn power<R: Ring>(ring: &R, a: R::Elem, k: u32) -> R::Elem
    requires { R.has ring.now a ≡ true }
    ensures has { R.has ring.now result ≡ true }
    ensures value { R.value ring.now result ≡ R.value ring.now a ^ k % R.modulus ring.now }
{
    if k == 0 {
        return ring.one();
    }
    let half = power(ring, a, k / 2);
    let square = ring.mul(half, half);
    if k % 2 == 0 {
        square
    } else {
        ring.mul(square, a)
    }
}

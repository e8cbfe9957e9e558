//! Sums over the places of words, one accumulator for each place.
ghost use Rattle.std.specs.Prelude.{◌≡◌, ℕ, ◌+◌, ◌*◌, ◌%◌, ◌<◌, ◌≤◌, ◌↔◌, true, List, length, IsTrue, IfOk, All};
ghost use Rattle.zeta_model.specs.Modular.{Same};
ghost use Rattle.linear_model.specs.Rows.{SameRow};
ghost use Rattle.sparse_rows.specs.Entries.{AllIn, IsBelow};
ghost use Rattle.echelon.specs.Lists.{entries_of};
ghost use Rattle.cert_checker.specs.Inner.{numbers_of};

use residues::Ring;
use std::alloc::{AllocError, Global};

/// Accumulators of no products.
pub(crate) fn no_sums<R: Ring>(
    alloc: Global,
    ring: &R,
    places: usize,
) -> Result<Vec<R::Accumulator>, AllocError>
    ensures all { IfOk result (λ sums. All (R.is_sum ring.now) sums.items) }
    ensures len { IfOk result (λ sums. length sums.items ≡ places) }
    ensures zero { IfOk result (λ sums. (q : ℕ) → numbers_of (R.total ring.now) sums.items q ≡ 0) }
{
    let mut sums = Vec::with_capacity(alloc, places)?;
    for _ in 0..places {
        sums.push(ring.start_sum())?;
    }
    Ok(sums)
}

/// Adds `c` times the entries.
pub(crate) fn add_entries<R: Ring>(
    ring: &R,
    sums: &mut [R::Accumulator],
    c: R::Elem,
    entries: &[(u16, R::Elem)],
)
    requires below { IsBelow (λ k. k) (length sums.old) entries.now }
    requires all { All (R.is_sum ring.now) sums.old }
    requires in_ring { AllIn (R.has ring.now) entries.now }
    requires has_c { R.has ring.now c ≡ true }
    ensures len { length sums.new ≡ length sums.old }
    ensures all { All (R.is_sum ring.now) sums.new }
    ensures sum { SameRow (R.modulus ring.now) (numbers_of (R.total ring.now) sums.new)
        (λ q. numbers_of (R.total ring.now) sums.old q + R.value ring.now c * entries_of (R.value ring.now) entries.now q) }
{
    let mut rest = entries;
    while let Some((entry, behind)) = rest.split_first() {
        let place = usize::from(entry.0);
        sums[place] = ring.add_product(sums[place], c, entry.1);
        rest = behind;
    }
}

/// Whether all sums are zero.
pub(crate) fn all_zero<R: Ring>(ring: &R, sums: &[R::Accumulator]) -> bool
    requires { All (R.is_sum ring.now) sums.now }
    ensures { IsTrue result ↔ ((q : ℕ) → q < length sums.now → Same (R.modulus ring.now) (numbers_of (R.total ring.now) sums.now q) 0) }
{
    let mut rest = sums;
    while let Some((sum, behind)) = rest.split_first() {
        if !R::is_zero(ring.close_sum(*sum)) {
            return false;
        }
        rest = behind;
    }
    true
}

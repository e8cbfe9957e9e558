//! Kept products that are added to a sum.
ghost use Rattle.std.specs.Prelude.{◌≡◌, ◌+◌, ◌≤◌, true, length, OnOk};
ghost use Rattle.word_sums.specs.Sums.{IsSum, HasGained};
ghost use Rattle.word_sums.specs.Terms.{coefficient_of, AllIn};
ghost use Rattle.zeta_model.specs.Product.{prod};
ghost use Rattle.zeta_model.specs.Sums.{scaled, sum_of};
ghost use Rattle.kept_products.specs.Inner.{alphabet_of, AreKept};

use crate::pairs::Kind;
use crate::store::{Store, place_within, product_at};
use residues::Ring;
use std::alloc::AllocError;
use word_letters::Word;
use word_sums::WordSum;

/// Adds `c` times the product of two words that have at most 24 letters together. After want of memory only a part of it is
/// added.
pub(crate) fn add_kept<R: Ring>(
    ring: &R,
    limit: usize,
    store: &mut Store<R>,
    kind: Kind,
    c: R::Elem,
    u: Word,
    v: Word,
    sum: &mut WordSum<R>,
) -> Result<(), AllocError>
    requires covers_u { (alphabet_of kind).covered u ≡ true }
    requires covers_v { (alphabet_of kind).covered v ≡ true }
    requires fits { length u + length v ≤ 24 }
    requires has_c { R.has ring.now c ≡ true }
    requires sum { IsSum R.zero (R.has ring.now) sum.old }
    requires kept { AreKept R.zero (R.has ring.now) (R.value ring.now) (R.modulus ring.now) limit store.old.products.entries store.old.terms }
    ensures kept { AreKept R.zero (R.has ring.now) (R.value ring.now) (R.modulus ring.now) limit store.new.products.entries store.new.terms }
    ensures ok { OnOk result (HasGained (R.value ring.now) (R.modulus ring.now) sum.old sum.new (scaled (R.value ring.now c) (sum_of (prod (alphabet_of kind) u v)))) }
    ensures sum { OnOk result (IsSum R.zero (R.has ring.now) sum.new) }
{
    let place = place_within(ring, limit, store, kind, u, v)?;
    add_multiple(ring, c, product_at(store, place), sum)
}

/// Adds `c` times each term of another sum in turn. After want of memory only some of them are added.
fn add_multiple<R: Ring>(
    ring: &R,
    c: R::Elem,
    other: &WordSum<R>,
    sum: &mut WordSum<R>,
) -> Result<(), AllocError>
    requires other_in_ring { AllIn (R.has ring.now) other.now }
    requires has_c { R.has ring.now c ≡ true }
    requires sum { IsSum R.zero (R.has ring.now) sum.old }
    ensures ok { OnOk result (HasGained (R.value ring.now) (R.modulus ring.now) sum.old sum.new (scaled (R.value ring.now c) (coefficient_of (R.value ring.now) other.now))) }
    ensures sum { OnOk result (IsSum R.zero (R.has ring.now) sum.new) }
{
    for (word, residue) in other.iter() {
        sum.add_term(ring, *word, ring.mul(c, *residue))?;
    }
    Ok(())
}

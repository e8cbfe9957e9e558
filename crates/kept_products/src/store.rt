//! The products that are kept, and the one that is not.
ghost use Rattle.std.specs.Prelude.{◌≡◌, ℕ, ◌+◌, ◌<◌, ◌≤◌, ◌↔◌, Bool, true, List, length, All, IfOk, OnOk, IsErrOf};
ghost use Rattle.indexmap.specs.IndexMap.{get};
ghost use Rattle.zeta_model.specs.declared.Letter.{Letter};
ghost use Rattle.kept_products.specs.declared.pairs.Kind.{Kind};
ghost use Rattle.kept_products.specs.Inner.{alphabet_of, IsProduct, AreKept, IsThere};

use crate::pairs::{Kind, Pair};
use indexmap::IndexMap;
use quasi_product::{ProductFault, ShuffleLetters, StuffleLetters, product_within};
use residues::Ring;
use std::alloc::{AllocError, Global};
use word_letters::{MAX_WEIGHT, Word};
use word_sums::WordSum;

/// For how many words a value is given room at first: most of weight 11 have about so many.
pub(crate) const ROOM: usize = 64;

/// Products by their pairs, how many terms these have together, and one product that is not kept.
#[derive(Drop)]
pub(crate) struct Store<R: Ring> {
    pub(crate) alloc: Global,
    pub(crate) products: IndexMap<Pair, WordSum<R>>,
    pub(crate) terms: usize,
    pub(crate) last: WordSum<R>,
}

/// The place of the product of two words, which is made where it is not kept: of a kept one its index, None for the last one.
///
/// `TooLong(n)` exactly where the sum `n` of the two weights is over 24; `Memory` where memory is wanting.
pub(crate) fn place_of<R: Ring>(
    ring: &R,
    limit: usize,
    store: &mut Store<R>,
    kind: Kind,
    u: Word,
    v: Word,
) -> Result<Option<usize>, ProductFault>
    requires covers_u { (alphabet_of kind).covered u ≡ true }
    requires covers_v { (alphabet_of kind).covered v ≡ true }
    requires kept { AreKept R.zero (R.has ring.now) (R.value ring.now) (R.modulus ring.now) limit store.old.products.entries store.old.terms }
    ensures kept { AreKept R.zero (R.has ring.now) (R.value ring.now) (R.modulus ring.now) limit store.new.products.entries store.new.terms }
    ensures there { IfOk result (IsThere R.zero (R.has ring.now) (R.value ring.now) (R.modulus ring.now) kind u v store.new.products.entries store.new.last) }
    ensures fits { OnOk result (length u + length v ≤ 24) }
    ensures too_long { (n : ℕ) →
        IsErrOf result (ProductFault.TooLong n) ↔ ((n ≡ length u + length v) × (24 < n)) }
{
    let weight = u.weight() + v.weight();
    if weight > MAX_WEIGHT {
        return Err(ProductFault::TooLong(weight));
    }
    match place_within(ring, limit, store, kind, u, v) {
        Ok(place) => Ok(place),
        Err(e) => Err(ProductFault::Memory(e)),
    }
}

/// The same for words that have at most 24 letters together.
pub(crate) fn place_within<R: Ring>(
    ring: &R,
    limit: usize,
    store: &mut Store<R>,
    kind: Kind,
    u: Word,
    v: Word,
) -> Result<Option<usize>, AllocError>
    requires covers_u { (alphabet_of kind).covered u ≡ true }
    requires covers_v { (alphabet_of kind).covered v ≡ true }
    requires fits { length u + length v ≤ 24 }
    requires kept { AreKept R.zero (R.has ring.now) (R.value ring.now) (R.modulus ring.now) limit store.old.products.entries store.old.terms }
    ensures kept { AreKept R.zero (R.has ring.now) (R.value ring.now) (R.modulus ring.now) limit store.new.products.entries store.new.terms }
    ensures there { IfOk result (IsThere R.zero (R.has ring.now) (R.value ring.now) (R.modulus ring.now) kind u v store.new.products.entries store.new.last) }
{
    let pair = Pair::new(kind, u, v);
    match store.products.get_index_of(&pair) {
        Some(i) => Ok(Some(i)),
        None => place_of_new(ring, limit, store, pair),
    }
}

/// The place of the product of a pair that is not kept yet.
fn place_of_new<R: Ring>(
    ring: &R,
    limit: usize,
    store: &mut Store<R>,
    pair: Pair,
) -> Result<Option<usize>, AllocError>
    requires covers_u { (alphabet_of pair.kind).covered pair.u ≡ true }
    requires covers_v { (alphabet_of pair.kind).covered pair.v ≡ true }
    requires fits { length pair.u + length pair.v ≤ 24 }
    requires kept { AreKept R.zero (R.has ring.now) (R.value ring.now) (R.modulus ring.now) limit store.old.products.entries store.old.terms }
    requires new { get ⟦<Pair as PartialEq>⟧.eq store.old.products pair ≡ None }
    ensures kept { AreKept R.zero (R.has ring.now) (R.value ring.now) (R.modulus ring.now) limit store.new.products.entries store.new.terms }
    ensures there { IfOk result (IsThere R.zero (R.has ring.now) (R.value ring.now) (R.modulus ring.now) pair.kind pair.u pair.v store.new.products.entries store.new.last) }
{
    let sum = made(store.alloc, ring, &pair)?;
    let more = sum.len();
    if more > limit - store.terms {
        store.last = sum;
        return Ok(None);
    }
    let i = store.products.len();
    match store.products.insert(pair, sum) {
        Ok(_) => {
            store.terms += more;
            Ok(Some(i))
        }
        Err(_) => Err(AllocError),
    }
}

/// The product of a pair.
fn made<R: Ring>(alloc: Global, ring: &R, pair: &Pair) -> Result<WordSum<R>, AllocError>
    requires covers_u { (alphabet_of pair.now.kind).covered pair.now.u ≡ true }
    requires covers_v { (alphabet_of pair.now.kind).covered pair.now.v ≡ true }
    requires fits { length pair.now.u + length pair.now.v ≤ 24 }
    ensures { IfOk result (IsProduct R.zero (R.has ring.now) (R.value ring.now) (R.modulus ring.now) pair.now.kind pair.now.u pair.now.v) }
{
    match pair.kind {
        Kind::Shuffle => product_within::<ShuffleLetters, R>(alloc, ring, pair.u, pair.v),
        Kind::Stuffle => product_within::<StuffleLetters, R>(alloc, ring, pair.u, pair.v),
    }
}

/// The product at a place.
pub(crate) fn product_at<R: Ring>(store: &Store<R>, place: Option<usize>) -> &WordSum<R>
    ensures { (zero : R.Elem) (has : R.Elem → Bool) (value : R.Elem → ℕ) (m : ℕ) (kind : Kind) (u v : List Letter)
        → IsThere zero has value m kind u v store.now.products.entries store.now.last place → IsProduct zero has value m kind u v result.now }
{
    match place {
        Some(i) => match store.products.get_index(i) {
            Some((_, sum)) => sum,
            None => &store.last,
        },
        None => &store.last,
    }
}

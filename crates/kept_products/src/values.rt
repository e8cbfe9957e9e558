//! The values of names of relations, by kept products.
ghost use Rattle.std.specs.Prelude.{◌≡◌, ◌+◌, ◌-◌, ◌≤◌, IsTrue, IfOk, All, true, length};
ghost use Rattle.std.specs.Map.{keys_of};
ghost use Rattle.word_sums.specs.Sums.{IsSumOf};
ghost use Rattle.word_sums.specs.Terms.{AllIn};
ghost use Rattle.zeta_model.specs.Words.{has_index};
ghost use Rattle.zeta_model.specs.Alphabets.{shuffle_of};
ghost use Rattle.zeta_model.specs.Sums.{sum_of, numbered, continued};
ghost use Rattle.relation_list.specs.declared.names.Direct.TheVariants.{Fin, Reg};
ghost use Rattle.relation_list.specs.Names.{direct_weight_of, is_direct, is_name_of};
ghost use Rattle.relation_list.specs.Values.{direct_value_of, value_of, IsWordOf};
ghost use Rattle.kept_products.specs.Inner.{AreKept};

use crate::KeptProducts;
use crate::adding::add_kept;
use crate::pairs::Kind;
use crate::regular::regularised;
use crate::store::{ROOM, Store, place_within, product_at};
use relation_list::{Direct, RelName, value};
use residues::Ring;
use std::alloc::AllocError;
use word_letters::Word;
use word_sums::WordSum;

/// The value of a name, as `value` of `relation_list` gives it, by products that are kept.
pub fn value_kept<R: Ring>(
    kept: &mut KeptProducts<R>,
    name: &RelName,
) -> Result<WordSum<R>, AllocError>
    requires { IsTrue (is_name_of name.now) }
    ensures value { IfOk result (IsSumOf R.zero (R.has kept.old.ring) (R.value kept.old.ring) (R.modulus kept.old.ring) (value_of (R.modulus kept.old.ring) name.now)) }
    ensures words { IfOk result (λ sum. All (IsWordOf name.now) (keys_of sum)) }
    ensures ring { kept.new.ring ≡ kept.old.ring }
    ensures limit { kept.new.limit ≡ kept.old.limit }
{
    summed(&kept.ring, kept.limit, &mut kept.store, name)
}

/// The value of a name by its kind.
fn summed<R: Ring>(
    ring: &R,
    limit: usize,
    store: &mut Store<R>,
    name: &RelName,
) -> Result<WordSum<R>, AllocError>
    requires name { IsTrue (is_name_of name.now) }
    requires kept { AreKept R.zero (R.has ring.now) (R.value ring.now) (R.modulus ring.now) limit store.old.products.entries store.old.terms }
    ensures kept { AreKept R.zero (R.has ring.now) (R.value ring.now) (R.modulus ring.now) limit store.new.products.entries store.new.terms }
    ensures value { IfOk result (IsSumOf R.zero (R.has ring.now) (R.value ring.now) (R.modulus ring.now) (value_of (R.modulus ring.now) name.now)) }
{
    match name {
        RelName::Plain(r) => direct_value(ring, limit, store, r),
        RelName::Prod { r, u } => {
            let factor = direct_value(ring, limit, store, r)?;
            times_word(ring, limit, store, &factor, *u)
        }
    }
}

/// The value of a direct name. That of a duality has no products.
fn direct_value<R: Ring>(
    ring: &R,
    limit: usize,
    store: &mut Store<R>,
    r: &Direct,
) -> Result<WordSum<R>, AllocError>
    requires direct { is_direct r.now ≡ true }
    requires fits { direct_weight_of r.now ≤ 24 }
    requires kept { AreKept R.zero (R.has ring.now) (R.value ring.now) (R.modulus ring.now) limit store.old.products.entries store.old.terms }
    ensures kept { AreKept R.zero (R.has ring.now) (R.value ring.now) (R.modulus ring.now) limit store.new.products.entries store.new.terms }
    ensures value { IfOk result (IsSumOf R.zero (R.has ring.now) (R.value ring.now) (R.modulus ring.now) (direct_value_of (R.modulus ring.now) r.now)) }
{
    match r {
        Direct::Fin { u, v } => fin_value(ring, limit, store, *u, *v),
        Direct::Reg { m, v } => reg_value(ring, limit, store, *m, *v),
        Direct::Dual { u: _ } => value(store.alloc, ring, &RelName::Plain(*r)),
    }
}

/// The shuffle of two words less their stuffle.
fn fin_value<R: Ring>(
    ring: &R,
    limit: usize,
    store: &mut Store<R>,
    u: Word,
    v: Word,
) -> Result<WordSum<R>, AllocError>
    requires covers_u { has_index u ≡ true }
    requires covers_v { has_index v ≡ true }
    requires fits { length u + length v ≤ 24 }
    requires kept { AreKept R.zero (R.has ring.now) (R.value ring.now) (R.modulus ring.now) limit store.old.products.entries store.old.terms }
    ensures kept { AreKept R.zero (R.has ring.now) (R.value ring.now) (R.modulus ring.now) limit store.new.products.entries store.new.terms }
    ensures value { IfOk result (IsSumOf R.zero (R.has ring.now) (R.value ring.now) (R.modulus ring.now) (direct_value_of (R.modulus ring.now) (Fin u v))) }
{
    let mut sum = WordSum::with_capacity(store.alloc, ROOM)?;
    add_kept(
        ring,
        limit,
        store,
        Kind::Shuffle,
        ring.one(),
        u,
        v,
        &mut sum,
    )?;
    add_kept(
        ring,
        limit,
        store,
        Kind::Stuffle,
        minus_one(ring),
        u,
        v,
        &mut sum,
    )?;
    Ok(sum)
}

/// The regularised stuffle of `m` letters y with a word.
fn reg_value<R: Ring>(
    ring: &R,
    limit: usize,
    store: &mut Store<R>,
    m: u32,
    v: Word,
) -> Result<WordSum<R>, AllocError>
    requires covers_v { has_index v ≡ true }
    requires fits { m + length v ≤ 24 }
    requires kept { AreKept R.zero (R.has ring.now) (R.value ring.now) (R.modulus ring.now) limit store.old.products.entries store.old.terms }
    ensures kept { AreKept R.zero (R.has ring.now) (R.value ring.now) (R.modulus ring.now) limit store.new.products.entries store.new.terms }
    ensures value { IfOk result (IsSumOf R.zero (R.has ring.now) (R.value ring.now) (R.modulus ring.now) (direct_value_of (R.modulus ring.now) (Reg m v))) }
{
    let place = place_within(ring, limit, store, Kind::Stuffle, Word::y_power(m), v)?;
    let stuffle = product_at(store, place).scaled(ring, ring.one())?;
    regularised(ring, limit, store, &stuffle)
}

/// The shuffle of a sum with a word, each word of the sum shuffled with it.
fn times_word<R: Ring>(
    ring: &R,
    limit: usize,
    store: &mut Store<R>,
    factor: &WordSum<R>,
    u: Word,
) -> Result<WordSum<R>, AllocError>
    requires in_ring { AllIn (R.has ring.now) factor.now }
    requires fits { All (λ w. length w + length u ≤ 24) (keys_of factor.now) }
    requires kept { AreKept R.zero (R.has ring.now) (R.value ring.now) (R.modulus ring.now) limit store.old.products.entries store.old.terms }
    ensures kept { AreKept R.zero (R.has ring.now) (R.value ring.now) (R.modulus ring.now) limit store.new.products.entries store.new.terms }
    ensures value { IfOk result (IsSumOf R.zero (R.has ring.now) (R.value ring.now) (R.modulus ring.now) (continued (λ w. sum_of (shuffle_of w u)) (numbered (R.value ring.now) factor.now))) }
{
    let mut sum = WordSum::with_capacity(store.alloc, ROOM)?;
    for (w, c) in factor.iter() {
        add_kept(ring, limit, store, Kind::Shuffle, *c, *w, u, &mut sum)?;
    }
    Ok(sum)
}

/// The element of value -1.
fn minus_one<R: Ring>(ring: &R) -> R::Elem
    ensures has { R.has ring.now result ≡ true }
    ensures value { R.value ring.now result ≡ R.modulus ring.now - 1 }
{
    ring.neg(ring.one())
}

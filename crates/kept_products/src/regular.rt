//! The regularisation of a sum, by shuffles that are kept.
ghost use Rattle.std.specs.Prelude.{◌≡◌, ◌*◌, ◌<◌, ◌∷◌, true, length, All, IfOk, OnOk};
ghost use Rattle.std.specs.Map.{keys_of};
ghost use Rattle.word_sums.specs.Sums.{IsSum, IsSumOf, HasGained};
ghost use Rattle.word_sums.specs.Terms.{AllIn};
ghost use Rattle.zeta_model.specs.Modular.{Same};
ghost use Rattle.zeta_model.specs.Regularise.{sign_of, reg_of, reg_of_sum};
ghost use Rattle.zeta_model.specs.Sums.{single, scaled, numbered, continued};
ghost use Rattle.zeta_model.specs.declared.Letter.TheVariants.{X};
ghost use Rattle.kept_products.specs.Inner.{AreKept};

use crate::pairs::Kind;
use crate::store::{ROOM, Store, place_within, product_at};
use residues::Ring;
use std::alloc::AllocError;
use word_letters::{Letter, Word};
use word_sums::WordSum;

/// The regularisation of a sum.
pub(crate) fn regularised<R: Ring>(
    ring: &R,
    limit: usize,
    store: &mut Store<R>,
    s: &WordSum<R>,
) -> Result<WordSum<R>, AllocError>
    requires in_ring { AllIn (R.has ring.now) s.now }
    requires kept { AreKept R.zero (R.has ring.now) (R.value ring.now) (R.modulus ring.now) limit store.old.products.entries store.old.terms }
    ensures kept { AreKept R.zero (R.has ring.now) (R.value ring.now) (R.modulus ring.now) limit store.new.products.entries store.new.terms }
    ensures value { IfOk result (IsSumOf R.zero (R.has ring.now) (R.value ring.now) (R.modulus ring.now)
        (reg_of_sum (R.modulus ring.now) (numbered (R.value ring.now) s.now))) }
{
    let mut sum = WordSum::with_capacity(store.alloc, ROOM)?;
    for (word, residue) in s.iter() {
        add_regularised(ring, limit, store, *word, *residue, &mut sum)?;
    }
    Ok(sum)
}

/// Adds `c` times the regularisation of the word. After want of memory only some of its words are added.
fn add_regularised<R: Ring>(
    ring: &R,
    limit: usize,
    store: &mut Store<R>,
    word: Word,
    c: R::Elem,
    sum: &mut WordSum<R>,
) -> Result<(), AllocError>
    requires sum { IsSum R.zero (R.has ring.now) sum.old }
    requires has_c { R.has ring.now c ≡ true }
    requires kept { AreKept R.zero (R.has ring.now) (R.value ring.now) (R.modulus ring.now) limit store.old.products.entries store.old.terms }
    ensures kept { AreKept R.zero (R.has ring.now) (R.value ring.now) (R.modulus ring.now) limit store.new.products.entries store.new.terms }
    ensures ok { OnOk result (HasGained (R.value ring.now) (R.modulus ring.now) sum.old sum.new
        (scaled (R.value ring.now c) (reg_of (R.modulus ring.now) word))) }
    ensures sum { OnOk result (IsSum R.zero (R.has ring.now) sum.new) }
{
    let (front, rest) = word.split_y();
    if front.weight() == 0 {
        sum.add_term(ring, word, c)?;
        return Ok(());
    }
    if rest.weight() == 0 {
        return Ok(());
    }
    let place = place_within(ring, limit, store, Kind::Shuffle, front, rest.tail())?;
    add_behind_x(
        ring,
        signed(ring, front.weight(), c),
        product_at(store, place),
        sum,
    )?;
    Ok(())
}

/// The element times -1 to the power j.
fn signed<R: Ring>(ring: &R, j: u32, c: R::Elem) -> R::Elem
    requires { R.has ring.now c ≡ true }
    ensures has { R.has ring.now result ≡ true }
    ensures value { Same (R.modulus ring.now) (R.value ring.now result) (R.value ring.now c * sign_of (R.modulus ring.now) j) }
{
    if j % 2 == 0 { c } else { ring.neg(c) }
}

/// Adds `c` times each term, with x before its word. After want of memory only some of them are added.
fn add_behind_x<R: Ring>(
    ring: &R,
    c: R::Elem,
    words: &WordSum<R>,
    sum: &mut WordSum<R>,
) -> Result<(), AllocError>
    requires sum { IsSum R.zero (R.has ring.now) sum.old }
    requires words_in_ring { AllIn (R.has ring.now) words.now }
    requires has_c { R.has ring.now c ≡ true }
    requires fits { All (λ w. length w < 24) (keys_of words.now) }
    ensures ok { OnOk result (HasGained (R.value ring.now) (R.modulus ring.now) sum.old sum.new
        (scaled (R.value ring.now c) (continued (λ w. single (X ∷ w)) (numbered (R.value ring.now) words.now)))) }
    ensures sum { OnOk result (IsSum R.zero (R.has ring.now) sum.new) }
{
    for (word, residue) in words.iter() {
        sum.add_term(ring, word.in_front(Letter::X), ring.mul(c, *residue))?;
    }
    Ok(())
}

//! The value of a name, a sum of words.
ghost use Rattle.std.specs.Prelude.{◌≡◌, ◌+◌, ◌-◌, ◌≤◌, IsTrue, IfOk, All, true, length};
ghost use Rattle.std.specs.Map.{keys_of};
ghost use Rattle.word_sums.specs.Sums.{IsSumOf};
ghost use Rattle.word_sums.specs.Terms.{AllIn};
ghost use Rattle.zeta_model.specs.Words.{has_index};
ghost use Rattle.zeta_model.specs.Alphabets.{shuffle_of};
ghost use Rattle.zeta_model.specs.Sums.{single, sum_of, numbered, continued};
ghost use Rattle.relation_list.specs.declared.names.Direct.TheVariants.{Fin, Reg, Dual};
ghost use Rattle.relation_list.specs.Names.{direct_weight_of, is_direct, is_name_of};
ghost use Rattle.relation_list.specs.Values.{direct_value_of, value_of, IsWordOf};

use crate::names::{Direct, RelName};
use duality_map::dual;
use quasi_product::{ShuffleLetters, StuffleLetters, product_sums_within, product_within};
use regularise_core::{RegFault, reg};
use residues::Ring;
use std::alloc::{AllocError, Global};
use word_letters::Word;
use word_sums::WordSum;

/// The value of a name: the shuffle of two words less their stuffle, the regularised stuffle of a power of y with a word, a word less
/// its dual, or the shuffle of one of these with a word (Ihara, Kaneko and Zagier 2006). It is a sum of admissible words.
pub fn value<R: Ring>(alloc: Global, ring: &R, name: &RelName) -> Result<WordSum<R>, AllocError>
    requires { IsTrue (is_name_of name.now) }
    ensures value { IfOk result (IsSumOf R.zero (R.has ring.now) (R.value ring.now) (R.modulus ring.now) (value_of (R.modulus ring.now) name.now)) }
    ensures words { IfOk result (λ sum. All (IsWordOf name.now) (keys_of sum)) }
{
    summed(alloc, ring, name)
}

/// The value of a name by its kind.
fn summed<R: Ring>(alloc: Global, ring: &R, name: &RelName) -> Result<WordSum<R>, AllocError>
    requires { IsTrue (is_name_of name.now) }
    ensures { IfOk result (IsSumOf R.zero (R.has ring.now) (R.value ring.now) (R.modulus ring.now) (value_of (R.modulus ring.now) name.now)) }
{
    match name {
        RelName::Plain(r) => direct_value(alloc, ring, r),
        RelName::Prod { r, u } => {
            let factor = direct_value(alloc, ring, r)?;
            times_word(alloc, ring, &factor, *u)
        }
    }
}

/// The value of a direct name.
fn direct_value<R: Ring>(alloc: Global, ring: &R, r: &Direct) -> Result<WordSum<R>, AllocError>
    requires direct { is_direct r.now ≡ true }
    requires fits { direct_weight_of r.now ≤ 24 }
    ensures { IfOk result (IsSumOf R.zero (R.has ring.now) (R.value ring.now) (R.modulus ring.now) (direct_value_of (R.modulus ring.now) r.now)) }
{
    match r {
        Direct::Fin { u, v } => fin_value(alloc, ring, *u, *v),
        Direct::Reg { m, v } => reg_value(alloc, ring, *m, *v),
        Direct::Dual { u } => dual_value(alloc, ring, *u),
    }
}

/// The shuffle of two words less their stuffle.
fn fin_value<R: Ring>(alloc: Global, ring: &R, u: Word, v: Word) -> Result<WordSum<R>, AllocError>
    requires covers_u { has_index u ≡ true }
    requires covers_v { has_index v ≡ true }
    requires fits { length u + length v ≤ 24 }
    ensures { IfOk result (IsSumOf R.zero (R.has ring.now) (R.value ring.now) (R.modulus ring.now) (direct_value_of (R.modulus ring.now) (Fin u v))) }
{
    let mut sum = product_within::<ShuffleLetters, R>(alloc, ring, u, v)?;
    let stuffle = product_within::<StuffleLetters, R>(alloc, ring, u, v)?;
    sum.add_scaled(ring, minus_one(ring), &stuffle)?;
    Ok(sum)
}

/// The regularised stuffle of `m` letters y with a word.
fn reg_value<R: Ring>(alloc: Global, ring: &R, m: u32, v: Word) -> Result<WordSum<R>, AllocError>
    requires covers_v { has_index v ≡ true }
    requires fits { m + length v ≤ 24 }
    ensures { IfOk result (IsSumOf R.zero (R.has ring.now) (R.value ring.now) (R.modulus ring.now) (direct_value_of (R.modulus ring.now) (Reg m v))) }
{
    let stuffle = product_within::<StuffleLetters, R>(alloc, ring, Word::y_power(m), v)?;
    match reg(alloc, ring, &stuffle) {
        Ok(sum) => Ok(sum),
        Err(RegFault::Memory(e)) => Err(e),
        Err(RegFault::NotInH1(_)) => unreachable!(),
    }
}

/// A word less its dual.
fn dual_value<R: Ring>(alloc: Global, ring: &R, u: Word) -> Result<WordSum<R>, AllocError>
    ensures { IfOk result (IsSumOf R.zero (R.has ring.now) (R.value ring.now) (R.modulus ring.now) (direct_value_of (R.modulus ring.now) (Dual u))) }
{
    let mut sum = word_sum(alloc, ring, u)?;
    sum.add_term(ring, dual(u), minus_one(ring))?;
    Ok(sum)
}

/// The shuffle of a sum with a word, each word of the sum shuffled with it.
fn times_word<R: Ring>(
    alloc: Global,
    ring: &R,
    sum: &WordSum<R>,
    u: Word,
) -> Result<WordSum<R>, AllocError>
    requires in_ring { AllIn (R.has ring.now) sum.now }
    requires fits { All (λ w. length w + length u ≤ 24) (keys_of sum.now) }
    ensures { IfOk result (IsSumOf R.zero (R.has ring.now) (R.value ring.now) (R.modulus ring.now) (continued (λ w. sum_of (shuffle_of w u)) (numbered (R.value ring.now) sum.now))) }
{
    let other = word_sum(alloc, ring, u)?;
    product_sums_within::<ShuffleLetters, R>(alloc, ring, sum, &other)
}

/// The sum of the one word.
fn word_sum<R: Ring>(alloc: Global, ring: &R, u: Word) -> Result<WordSum<R>, AllocError>
    ensures { IfOk result (IsSumOf R.zero (R.has ring.now) (R.value ring.now) (R.modulus ring.now) (single u)) }
{
    let mut sum = WordSum::new(alloc);
    sum.add_term(ring, u, ring.one())?;
    Ok(sum)
}

/// The element of value -1.
fn minus_one<R: Ring>(ring: &R) -> R::Elem
    ensures has { R.has ring.now result ≡ true }
    ensures value { R.value ring.now result ≡ R.modulus ring.now - 1 }
{
    ring.neg(ring.one())
}

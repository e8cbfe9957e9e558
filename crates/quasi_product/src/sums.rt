//! The product of two sums.
ghost use Rattle.std.specs.Prelude.{◌≡◌, ℕ, ◌+◌, ◌<◌, ◌≤◌, ◌↔◌, true, All, length, OnOk, IfOk, IsErrOf, IsTrue};
ghost use Rattle.std.specs.Map.{keys_of};
ghost use Rattle.quasi_product.specs.SumProducts.{product_with_terms, product_of_terms, HasWeight, AreWithin, IsGreatestWeight};
ghost use Rattle.word_sums.specs.Sums.{IsSum, IsSumOf, HasGained};
ghost use Rattle.word_sums.specs.Terms.{AllIn};
ghost use Rattle.zeta_model.specs.Sums.{numbered, scaled};

use crate::products::add_product;
use crate::{Letters, ProductFault};
use residues::Ring;
use std::alloc::{AllocError, Global};
use word_letters::{MAX_WEIGHT, Word};
use word_sums::WordSum;

/// The product of two sums of covered words: the product of words continued linearly on both sides (Hoffman 2000).
///
/// `TooLong(n)` exactly where the greatest sum `n` of the weights of a word of `a` and a word of `b` is over 24; `Memory`
/// where memory is wanting.
pub fn product_sums<L: Letters, R: Ring>(
    alloc: Global,
    ring: &R,
    a: &WordSum<R>,
    b: &WordSum<R>,
) -> Result<WordSum<R>, ProductFault>
    requires covers_a { All (λ u. L.alphabet.covered u ≡ true) (keys_of a.now) }
    requires covers_b { All (λ v. L.alphabet.covered v ≡ true) (keys_of b.now) }
    requires a_in_ring { AllIn (R.has ring.now) a.now }
    requires b_in_ring { AllIn (R.has ring.now) b.now }
    ensures value { IfOk result (IsSumOf R.zero (R.has ring.now) (R.value ring.now) (R.modulus ring.now)
        (product_of_terms L.alphabet (numbered (R.value ring.now) a.now) (numbered (R.value ring.now) b.now))) }
    ensures covered { IfOk result (λ sum. All (λ w. L.alphabet.covered w ≡ true) (keys_of sum)) }
    ensures fits { OnOk result (AreWithin 24 a.now b.now) }
    ensures too_long { (n : ℕ) →
        IsErrOf result (ProductFault.TooLong n) ↔ (IsGreatestWeight a.now b.now n × (24 < n)) }
{
    let weight = greatest_weight(a) + greatest_weight(b);
    if weight > MAX_WEIGHT {
        return Err(ProductFault::TooLong(weight));
    }
    match product_sums_within::<L, R>(alloc, ring, a, b) {
        Ok(sum) => Ok(sum),
        Err(e) => Err(ProductFault::Memory(e)),
    }
}

/// The product of two sums of covered words, where each word of the one and each word of the other have at most 24 letters
/// together. Memory may be wanting.
pub fn product_sums_within<L: Letters, R: Ring>(
    alloc: Global,
    ring: &R,
    a: &WordSum<R>,
    b: &WordSum<R>,
) -> Result<WordSum<R>, AllocError>
    requires covers_a { All (λ u. L.alphabet.covered u ≡ true) (keys_of a.now) }
    requires covers_b { All (λ v. L.alphabet.covered v ≡ true) (keys_of b.now) }
    requires fits { AreWithin 24 a.now b.now }
    requires a_in_ring { AllIn (R.has ring.now) a.now }
    requires b_in_ring { AllIn (R.has ring.now) b.now }
    ensures value { IfOk result (IsSumOf R.zero (R.has ring.now) (R.value ring.now) (R.modulus ring.now)
        (product_of_terms L.alphabet (numbered (R.value ring.now) a.now) (numbered (R.value ring.now) b.now))) }
    ensures covered { IfOk result (λ sum. All (λ w. L.alphabet.covered w ≡ true) (keys_of sum)) }
{
    let mut sum = WordSum::new(alloc);
    add_sum_product::<L, R>(alloc, ring, a, b, &mut sum)?;
    Ok(sum)
}

/// Whether the product covers each word of the sum.
pub fn covers_sum<L: Letters, R: Ring>(sum: &WordSum<R>) -> bool
    ensures { IsTrue result ↔ All (λ w. L.alphabet.covered w ≡ true) (keys_of sum.now) }
{
    for (word, _) in sum.iter() {
        if !L::covers(*word) {
            return false;
        }
    }
    true
}

/// The greatest weight of a word of the sum, 0 where it has no words.
fn greatest_weight<R: Ring>(sum: &WordSum<R>) -> u32
    ensures within { result ≤ 24 }
    ensures most { All (λ u. length u ≤ result) (keys_of sum.now) }
    ensures reached { 0 < result → HasWeight sum.now result }
{
    let mut greatest = 0;
    for (word, _) in sum.iter() {
        greatest = greatest.max(word.weight());
    }
    greatest
}

/// Adds the product of `a` and `b`. After want of memory only a part of it is added.
fn add_sum_product<L: Letters, R: Ring>(
    alloc: Global,
    ring: &R,
    a: &WordSum<R>,
    b: &WordSum<R>,
    sum: &mut WordSum<R>,
) -> Result<(), AllocError>
    requires covers_a { All (λ u. L.alphabet.covered u ≡ true) (keys_of a.now) }
    requires covers_b { All (λ v. L.alphabet.covered v ≡ true) (keys_of b.now) }
    requires fits { AreWithin 24 a.now b.now }
    requires a_in_ring { AllIn (R.has ring.now) a.now }
    requires b_in_ring { AllIn (R.has ring.now) b.now }
    requires sum { IsSum R.zero (R.has ring.now) sum.old }
    ensures ok { OnOk result (HasGained (R.value ring.now) (R.modulus ring.now) sum.old sum.new
        (product_of_terms L.alphabet (numbered (R.value ring.now) a.now) (numbered (R.value ring.now) b.now))) }
    ensures sum { OnOk result (IsSum R.zero (R.has ring.now) sum.new) }
{
    for (u, c) in a.iter() {
        add_word_product::<L, R>(alloc, ring, *c, *u, b, sum)?;
    }
    Ok(())
}

/// Adds `c` times the product of `u` and `b`. After want of memory only a part of it is added.
fn add_word_product<L: Letters, R: Ring>(
    alloc: Global,
    ring: &R,
    c: R::Elem,
    u: Word,
    b: &WordSum<R>,
    sum: &mut WordSum<R>,
) -> Result<(), AllocError>
    requires covers_u { L.alphabet.covered u ≡ true }
    requires covers_b { All (λ v. L.alphabet.covered v ≡ true) (keys_of b.now) }
    requires fits { All (λ v. length u + length v ≤ 24) (keys_of b.now) }
    requires has_c { R.has ring.now c ≡ true }
    requires b_in_ring { AllIn (R.has ring.now) b.now }
    requires sum { IsSum R.zero (R.has ring.now) sum.old }
    ensures ok { OnOk result (HasGained (R.value ring.now) (R.modulus ring.now) sum.old sum.new
        (scaled (R.value ring.now c) (product_with_terms L.alphabet (numbered (R.value ring.now) b.now) u))) }
    ensures sum { OnOk result (IsSum R.zero (R.has ring.now) sum.new) }
{
    for (v, d) in b.iter() {
        add_product::<L, R>(alloc, ring, ring.mul(c, *d), u, *v, sum)?;
    }
    Ok(())
}

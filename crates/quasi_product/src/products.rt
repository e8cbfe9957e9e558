//! The product of two words.
ghost use Rattle.std.specs.Prelude.{◌≡◌, ℕ, ◌+◌, ◌<◌, ◌≤◌, ◌↔◌, true, length, All, OnOk, IfOk, IfSome, IsErrOf};
ghost use Rattle.std.specs.Map.{keys_of};
ghost use Rattle.word_sums.specs.Sums.{IsSum, IsSumOf, HasGained};
ghost use Rattle.word_sums.specs.Terms.{coefficient_of, AllIn};
ghost use Rattle.zeta_model.specs.Product.{IsLetter, prod, rest};
ghost use Rattle.zeta_model.specs.Sums.{scaled, sum_of};

use crate::rows::product_terms;
use crate::{Letters, ProductFault};
use residues::Ring;
use std::alloc::{AllocError, Global};
use word_letters::{MAX_WEIGHT, Word};
use word_sums::WordSum;

/// The product of two covered words, with coefficients in the ring: each word has the number of its places in the list of
/// the words of the product (Hoffman 2000).
///
/// `TooLong(n)` exactly where the sum `n` of the two weights is over 24; `Memory` where memory is wanting.
pub fn product<L: Letters, R: Ring>(
    alloc: Global,
    ring: &R,
    u: Word,
    v: Word,
) -> Result<WordSum<R>, ProductFault>
    requires covers_u { L.alphabet.covered u ≡ true }
    requires covers_v { L.alphabet.covered v ≡ true }
    ensures value { IfOk result (IsSumOf R.zero (R.has ring.now) (R.value ring.now) (R.modulus ring.now) (sum_of (prod L.alphabet u v))) }
    ensures covered { IfOk result (λ sum. All (λ w. L.alphabet.covered w ≡ true) (keys_of sum)) }
    ensures fits { OnOk result (length u + length v ≤ 24) }
    ensures too_long { (n : ℕ) →
        IsErrOf result (ProductFault.TooLong n) ↔ ((n ≡ length u + length v) × (24 < n)) }
{
    let weight = u.weight() + v.weight();
    if weight > MAX_WEIGHT {
        return Err(ProductFault::TooLong(weight));
    }
    match product_within::<L, R>(alloc, ring, u, v) {
        Ok(sum) => Ok(sum),
        Err(e) => Err(ProductFault::Memory(e)),
    }
}

/// The product of two covered words that have at most 24 letters together. Memory may be wanting.
pub fn product_within<L: Letters, R: Ring>(
    alloc: Global,
    ring: &R,
    u: Word,
    v: Word,
) -> Result<WordSum<R>, AllocError>
    requires covers_u { L.alphabet.covered u ≡ true }
    requires covers_v { L.alphabet.covered v ≡ true }
    requires fits { length u + length v ≤ 24 }
    ensures value { IfOk result (IsSumOf R.zero (R.has ring.now) (R.value ring.now) (R.modulus ring.now) (sum_of (prod L.alphabet u v))) }
    ensures covered { IfOk result (λ sum. All (λ w. L.alphabet.covered w ≡ true) (keys_of sum)) }
{
    let terms = product_terms::<L, R>(alloc, ring, ring.one(), u, v)?;
    let mut sum = WordSum::with_capacity(alloc, terms.len())?;
    add_terms(ring, terms.as_slice(), &mut sum)?;
    Ok(sum)
}

/// Adds `c` times the product of `u` and `v`. After want of memory only a part of it is added.
pub(crate) fn add_product<L: Letters, R: Ring>(
    alloc: Global,
    ring: &R,
    c: R::Elem,
    u: Word,
    v: Word,
    sum: &mut WordSum<R>,
) -> Result<(), AllocError>
    requires covers_u { L.alphabet.covered u ≡ true }
    requires covers_v { L.alphabet.covered v ≡ true }
    requires fits { length u + length v ≤ 24 }
    requires has_c { R.has ring.now c ≡ true }
    requires sum { IsSum R.zero (R.has ring.now) sum.old }
    ensures ok { OnOk result (HasGained (R.value ring.now) (R.modulus ring.now) sum.old sum.new (scaled (R.value ring.now c) (sum_of (prod L.alphabet u v)))) }
    ensures sum { OnOk result (IsSum R.zero (R.has ring.now) sum.new) }
{
    let terms = product_terms::<L, R>(alloc, ring, c, u, v)?;
    add_terms(ring, terms.as_slice(), sum)?;
    Ok(())
}

/// Adds each of the terms in turn. After want of memory only some of them are added.
fn add_terms<R: Ring>(
    ring: &R,
    terms: &[(Word, R::Elem)],
    sum: &mut WordSum<R>,
) -> Result<(), AllocError>
    requires terms_in_ring { AllIn (R.has ring.now) terms.now }
    requires sum { IsSum R.zero (R.has ring.now) sum.old }
    ensures ok { OnOk result (HasGained (R.value ring.now) (R.modulus ring.now) sum.old sum.new (coefficient_of (R.value ring.now) terms.now)) }
    ensures sum { OnOk result (IsSum R.zero (R.has ring.now) sum.new) }
{
    let mut rest = terms;
    while let Some((term, behind)) = rest.split_first() {
        sum.add_term(ring, term.0, term.1)?;
        rest = behind;
    }
    Ok(())
}

/// The first letter of a covered word, and the rest.
pub(crate) fn cut<L: Letters>(w: Word) -> (Word, Word)
    requires some { 0 < length w }
    requires fits { length w ≤ 24 }
    requires covered { L.alphabet.covered w ≡ true }
    ensures letter { IsLetter L.alphabet result.0 }
    ensures first { result.0 ≡ L.alphabet.first w }
    ensures rest { result.1 ≡ rest L.alphabet w }
    ensures covers { L.alphabet.covered result.1 ≡ true }
    ensures some { 0 < length result.0 }
    ensures weights { length result.0 + length result.1 ≡ length w }
{
    let a = L::first(w);
    (a, w.without_front(a.weight()))
}

/// What two letters join to, of their weight together.
pub(crate) fn join_letters<L: Letters>(a: Word, b: Word) -> Option<Word>
    requires letter_a { IsLetter L.alphabet a }
    requires letter_b { IsLetter L.alphabet b }
    requires fits { length a + length b ≤ 24 }
    ensures is { result ≡ L.alphabet.joined a b }
    ensures weight { IfSome result (λ c. length c ≡ length a + length b) }
{
    L::join(a, b)
}

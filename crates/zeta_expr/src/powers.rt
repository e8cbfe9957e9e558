//! The sum of a zeta, and sums times powers of it.
ghost use Rattle.std.specs.Prelude.{◌≡◌, ℕ, ◌*◌, ◌<◌, ◌≤◌, true, List, [], length, sum, All, IfOk};
ghost use Rattle.quasi_product.specs.SumProducts.{product_of_terms, AreWithin};
ghost use Rattle.word_sums.specs.Sums.{IsSumOf};
ghost use Rattle.word_sums.specs.Terms.{coefficient_of, AllIn};
ghost use Rattle.zeta_expr.specs.Inner.{HasRoom};
ghost use Rattle.zeta_expr.specs.Meaning.{zeta_terms, times_power};
ghost use Rattle.zeta_model.specs.Alphabets.{shuffle_alphabet};
ghost use Rattle.zeta_model.specs.Indices.{word_of_index};
ghost use Rattle.zeta_model.specs.Sums.{single, continued, numbered};
ghost use Rattle.zeta_model.specs.declared.Letter.{Letter};

use quasi_product::{ShuffleLetters, product_sums_within};
use regularise_core::{RegFault, reg};
use residues::Ring;
use std::alloc::{AllocError, Global};
use word_letters::Word;
use word_sums::WordSum;

/// The sum of one word.
pub(crate) fn one_word<R: Ring>(
    alloc: Global,
    ring: &R,
    word: Word,
) -> Result<WordSum<R>, AllocError>
    ensures { IfOk result (IsSumOf R.zero (R.has ring.now) (R.value ring.now) (R.modulus ring.now) (single word)) }
{
    let mut sum = WordSum::new(alloc);
    sum.add_term(ring, word, ring.one())?;
    Ok(sum)
}

/// The word of an index.
fn word_of(index: &[u32]) -> Word
    requires some { 0 < length index.now }
    requires positive { All (λ k. 0 < k) index.now }
    requires fits { sum index.now ≤ 24 }
    ensures { result ≡ word_of_index index.now }
{
    match Word::from_index(index) {
        Ok(word) => word,
        Err(_) => unreachable!(),
    }
}

/// The regularisation of the word of an index.
fn zeta_sum<R: Ring>(alloc: Global, ring: &R, index: &[u32]) -> Result<WordSum<R>, AllocError>
    requires some { 0 < length index.now }
    requires positive { All (λ k. 0 < k) index.now }
    requires fits { sum index.now ≤ 24 }
    ensures { IfOk result (IsSumOf R.zero (R.has ring.now) (R.value ring.now) (R.modulus ring.now)
        (continued single (zeta_terms (R.modulus ring.now) index.now))) }
{
    let one = one_word(alloc, ring, word_of(index))?;
    match reg(alloc, ring, &one) {
        Ok(sum) => Ok(sum),
        Err(RegFault::Memory(e)) => Err(e),
        Err(RegFault::NotInH1(_)) => unreachable!(),
    }
}

/// Whether the sum is the word without letters alone, once.
fn is_one<R: Ring>(ring: &R, sum: &WordSum<R>) -> bool
    requires { AllIn (R.has ring.now) sum.now }
    ensures { result ≡ true → (t : List Letter) → coefficient_of (R.value ring.now) sum.now t ≡ single [] t }
{
    sum.len() == 1 && ring.value(sum.coefficient(ring, Word::empty())) == 1
}

/// The shuffle product of two sums. Times one it is a copy, so that the first zeta of a term takes no product.
fn times<R: Ring>(
    alloc: Global,
    ring: &R,
    a: &WordSum<R>,
    b: &WordSum<R>,
) -> Result<WordSum<R>, AllocError>
    requires a_in_ring { AllIn (R.has ring.now) a.now }
    requires b_in_ring { AllIn (R.has ring.now) b.now }
    requires fits { AreWithin 24 a.now b.now }
    ensures { IfOk result (IsSumOf R.zero (R.has ring.now) (R.value ring.now) (R.modulus ring.now)
        (product_of_terms shuffle_alphabet (numbered (R.value ring.now) a.now) (numbered (R.value ring.now) b.now))) }
{
    if is_one(ring, b) {
        return a.scaled(ring, ring.one());
    }
    product_sums_within::<ShuffleLetters, R>(alloc, ring, a, b)
}

/// A sum times so many copies of the zeta of an index. Where there are none, its word is not formed.
pub(crate) fn times_power<R: Ring>(
    alloc: Global,
    ring: &R,
    index: &[u32],
    power: u32,
    before: WordSum<R>,
) -> Result<WordSum<R>, AllocError>
    requires some { 0 < length index.now }
    requires positive { All (λ k. 0 < k) index.now }
    requires room { HasRoom R.zero (R.has ring.now) (R.value ring.now) (R.modulus ring.now) before (power * sum index.now) }
    ensures { IfOk result (λ s. (p : List (ℕ × List Letter))
        → IsSumOf R.zero (R.has ring.now) (R.value ring.now) (R.modulus ring.now) (continued single p) before
        → IsSumOf R.zero (R.has ring.now) (R.value ring.now) (R.modulus ring.now) (continued single (times_power (R.modulus ring.now) index.now power p)) s) }
{
    if power == 0 {
        return Ok(before);
    }
    let zeta = zeta_sum(alloc, ring, index)?;
    let mut product = before;
    for copies in 0..power {
        product = times(alloc, ring, &zeta, &product)?;
    }
    Ok(product)
}

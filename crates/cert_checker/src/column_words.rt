//! The words of a monomial.
ghost use Rattle.std.specs.Prelude.{◌≡◌, ◌+◌, ◌≤◌, length, All, IfOk};
ghost use Rattle.std.specs.Map.{keys_of};
ghost use Rattle.zeta_model.specs.Alphabets.{shuffle_of};
ghost use Rattle.zeta_model.specs.Sums.{single, sum_of, continued, numbered};
ghost use Rattle.word_sums.specs.Terms.{AllIn};
ghost use Rattle.word_sums.specs.Sums.{IsSumOf};
ghost use Rattle.table_model.specs.MonomialWords.{words_of_monomial};

use lyndon_words::Monomial;
use quasi_product::{ShuffleLetters, product_sums_within};
use residues::Ring;
use std::alloc::{AllocError, Global};
use word_letters::Word;
use word_sums::WordSum;

/// The shuffle of the factors.
pub(crate) fn column_words<R: Ring>(
    alloc: Global,
    ring: &R,
    p: &Monomial,
) -> Result<WordSum<R>, AllocError>
    ensures { IfOk result (IsSumOf R.zero (R.has ring.now) (R.value ring.now) (R.modulus ring.now) (words_of_monomial p.now)) }
{
    let mut sum = word_sum(alloc, ring, Word::empty())?;
    for i in 0..p.len() {
        sum = times_word(alloc, ring, &sum, p.factor(i))?;
    }
    Ok(sum)
}

/// The shuffle of a sum with a word.
fn times_word<R: Ring>(
    alloc: Global,
    ring: &R,
    sum: &WordSum<R>,
    u: Word,
) -> Result<WordSum<R>, AllocError>
    requires in_ring { AllIn (R.has ring.now) sum.now }
    requires fits { All (λ w. length w + length u ≤ 24) (keys_of sum.now) }
    ensures { IfOk result (IsSumOf R.zero (R.has ring.now) (R.value ring.now) (R.modulus ring.now)
        (continued (λ w. sum_of (shuffle_of w u)) (numbered (R.value ring.now) sum.now))) }
{
    let other = word_sum(alloc, ring, u)?;
    product_sums_within::<ShuffleLetters, R>(alloc, ring, sum, &other)
}

/// The sum of the one word.
fn word_sum<R: Ring>(alloc: Global, ring: &R, u: Word) -> Result<WordSum<R>, AllocError>
    ensures { IfOk result (IsSumOf R.zero (R.has ring.now) (R.value ring.now) (R.modulus ring.now) (single u)) }
{
    let mut sum = WordSum::new(alloc);
    sum.add_term(ring, u, ring.one())?;
    Ok(sum)
}

//! The sum of words that an expression means.
ghost use Rattle.std.specs.Prelude.{◌≡◌, ◌*◌, ◌^◌, ◌<◌, ◌≤◌, None, true, [], ◌∷◌, sum, All, IfOk, IfErr, OnOk};
ghost use Rattle.std.specs.List.{sum_by, AllByRecursion};
ghost use Rattle.word_sums.specs.Sums.{IsSum, IsSumOf, HasGained};
ghost use Rattle.word_sums.specs.Terms.{coefficient_of, AllIn};
ghost use Rattle.zeta_expr.specs.Meaning.{refusal_of, sum_of_terms, times_zetas, IsMeaningFault, IsFormed};
ghost use Rattle.zeta_expr.specs.Weights.{weight_in, weight_of, depth_of};
ghost use Rattle.zeta_model.specs.Sums.{single, scaled, continued};

use crate::expr::{Expr, Factor, Term};
use crate::fault::LineFault;
use crate::numbers::number_of;
use crate::powers::{one_word, times_power};
use crate::refusals::refusal_of;
use residues::Ring;
use std::alloc::{AllocError, Global};
use word_letters::Word;
use word_sums::WordSum;

/// The shuffle product of the zetas among some factors.
fn zetas_product<R: Ring>(
    alloc: Global,
    ring: &R,
    factors: &[Factor],
) -> Result<WordSum<R>, AllocError>
    requires formed { AllByRecursion IsFormed factors.now }
    requires fits { sum_by weight_in factors.now ≤ 24 }
    ensures { IfOk result (IsSumOf R.zero (R.has ring.now) (R.value ring.now) (R.modulus ring.now)
        (continued single (times_zetas (R.modulus ring.now) factors.now ((1, []) ∷ [])))) }
{
    let mut product = one_word(alloc, ring, Word::empty())?;
    for factor in factors {
        if let Factor::Zeta { word, power } = factor {
            product = times_power(alloc, ring, word.as_slice(), *power, product)?;
        }
    }
    Ok(product)
}

/// Adds `c` times each term of another sum. After want of memory only some of them are added.
fn add_times<R: Ring>(
    ring: &R,
    c: R::Elem,
    other: &WordSum<R>,
    sum: &mut WordSum<R>,
) -> Result<(), AllocError>
    requires sum { IsSum R.zero (R.has ring.now) sum.old }
    requires other_in_ring { AllIn (R.has ring.now) other.now }
    requires has_c { R.has ring.now c ≡ true }
    ensures ok { OnOk result (HasGained (R.value ring.now) (R.modulus ring.now) sum.old sum.new
        (scaled (R.value ring.now c) (coefficient_of (R.value ring.now) other.now))) }
    ensures sum { OnOk result (IsSum R.zero (R.has ring.now) sum.new) }
{
    for (word, residue) in other.iter() {
        sum.add_term(ring, *word, ring.mul(c, *residue))?;
    }
    Ok(())
}

/// The sum of some terms.
fn sum_of_terms<R: Ring>(alloc: Global, ring: &R, terms: &[Term]) -> Result<WordSum<R>, AllocError>
    requires formed { AllByRecursion (λ t. AllByRecursion IsFormed t.factors) terms.now }
    requires fits { All (λ t. weight_of t ≤ 24) terms.now }
    ensures { IfOk result (IsSumOf R.zero (R.has ring.now) (R.value ring.now) (R.modulus ring.now) (sum_of_terms (R.modulus ring.now) terms.now)) }
{
    let mut sum = WordSum::new(alloc);
    for term in terms {
        let product = zetas_product(alloc, ring, term.factors.as_slice())?;
        add_times(ring, number_of(ring, term), &product, &mut sum)?;
    }
    Ok(sum)
}

/// The sum of words that an expression means, where each term is of weight `w` and at most `d` deep.
///
/// A number means its residue, `a/b` that of `a` times the inverse of `b`, and a zeta the regularisation of its word; a power is a
/// shuffle product of so many copies, and a term the product of its numbers times the shuffle product of its zetas.
///
/// `NoInverse(b)` exactly where a number below `/` has no inverse, `b` the first as written; `WeightIs(k)` exactly where none of these
/// stands and a term has another weight than `w`, `k` that of the first; `DepthIs(k)` exactly where neither stands and a term is deeper
/// than `d`, `k` the depth of the first; `Memory` where memory is wanting. A term without a zeta whose number is 0 is not tested.
pub fn meaning<R: Ring>(
    alloc: Global,
    ring: &R,
    e: &Expr,
    w: u32,
    d: u32,
) -> Result<WordSum<R>, LineFault>
    requires formed { AllByRecursion (λ t. AllByRecursion IsFormed t.factors) e.now }
    requires weights { All (λ t. weight_of t < 2 ^ 64) e.now }
    requires depths { All (λ t. depth_of t < 2 ^ 64) e.now }
    requires least { 2 ≤ w }
    requires most { w ≤ 24 }
    ensures value { IfOk result (IsSumOf R.zero (R.has ring.now) (R.value ring.now) (R.modulus ring.now) (sum_of_terms (R.modulus ring.now) e.now)) }
    ensures fits { OnOk result (refusal_of (R.modulus ring.now) w d e.now ≡ None) }
    ensures err { IfErr result (IsMeaningFault (R.modulus ring.now) w d e.now) }
{
    if let Some(fault) = refusal_of(ring, e, w, d) {
        return Err(fault);
    }
    match sum_of_terms(alloc, ring, e.terms.as_slice()) {
        Ok(sum) => Ok(sum),
        Err(fault) => Err(LineFault::Memory(fault)),
    }
}

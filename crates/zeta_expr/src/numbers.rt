//! The numbers of a term, modulo the ring's modulus.
ghost use Rattle.std.specs.Prelude.{◌≡◌, ◌%◌, true, not};
ghost use Rattle.std.specs.List.{find};
ghost use Rattle.zeta_expr.specs.Meaning.{number_in, number_of, product_in, has_inverse, lacking, first_lacking, bottoms};

use crate::expr::{Factor, Term};
use residues::Ring;

/// The number of a factor: 1 of a zeta, 0 where the number below `/` has no inverse.
fn number_in<R: Ring>(ring: &R, factor: &Factor) -> R::Elem
    ensures has { R.has ring.now result ≡ true }
    ensures value { R.value ring.now result ≡ number_in (R.modulus ring.now) factor.now % R.modulus ring.now }
{
    match factor {
        Factor::Number { top, bottom } => match bottom {
            Some(number) => match ring.inverse(ring.of(*number)) {
                Some(inverse) => ring.mul(ring.of(*top), inverse),
                None => ring.zero(),
            },
            None => ring.of(*top),
        },
        Factor::Zeta { .. } => ring.one(),
    }
}

/// The product of the numbers of some factors.
fn product_in<R: Ring>(ring: &R, factors: &[Factor]) -> R::Elem
    ensures has { R.has ring.now result ≡ true }
    ensures value { R.value ring.now result ≡ product_in (R.modulus ring.now) factors.now % R.modulus ring.now }
{
    let mut product = ring.one();
    for factor in factors {
        product = ring.mul(product, number_in(ring, factor));
    }
    product
}

/// The product of the numbers of a term, with its sign.
pub(crate) fn number_of<R: Ring>(ring: &R, term: &Term) -> R::Elem
    ensures has { R.has ring.now result ≡ true }
    ensures value { R.value ring.now result ≡ number_of (R.modulus ring.now) term.now % R.modulus ring.now }
{
    let product = product_in(ring, term.factors.as_slice());
    if term.negative {
        ring.neg(product)
    } else {
        product
    }
}

/// The number below `/` of a factor, where it has no inverse.
fn lacking<R: Ring>(ring: &R, factor: &Factor) -> Option<u128>
    ensures { result ≡ lacking (R.modulus ring.now) factor.now }
{
    match factor {
        Factor::Number { top: _, bottom } => match bottom {
            Some(number) => match ring.inverse(ring.of(*number)) {
                Some(_) => None,
                None => Some(*number),
            },
            None => None,
        },
        Factor::Zeta { .. } => None,
    }
}

/// The first number below `/` among some factors that has no inverse.
fn first_lacking<R: Ring>(ring: &R, factors: &[Factor]) -> Option<u128>
    ensures { result ≡ first_lacking (R.modulus ring.now) factors.now }
{
    for factor in factors {
        if let Some(number) = lacking(ring, factor) {
            return Some(number);
        }
    }
    None
}

/// The first number below `/` in a term that has no inverse.
fn lacking_in<R: Ring>(ring: &R, term: &Term) -> Option<u128>
    ensures { result ≡ first_lacking (R.modulus ring.now) term.now.factors }
{
    first_lacking(ring, term.factors.as_slice())
}

/// The first number below `/` in some terms that has no inverse.
pub(crate) fn first_without_inverse<R: Ring>(ring: &R, terms: &[Term]) -> Option<u128>
    ensures { result ≡ find (λ b. not (has_inverse (R.modulus ring.now) b)) (bottoms terms.now) }
{
    for term in terms {
        if let Some(number) = lacking_in(ring, term) {
            return Some(number);
        }
    }
    None
}

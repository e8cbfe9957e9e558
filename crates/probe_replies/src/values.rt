//! The value of an expression.
ghost use Rattle.std.specs.Prelude.{◌≡◌, ◌%◌, true, IfOk};
ghost use Rattle.probe_replies.specs.Values.{factor_value, factors_value, term_value, terms_value};

use crate::numbers::{number_in, power};
use residues::Ring;
use std::alloc::AllocError;
use truncated_sums::Truncated;
use zeta_expr::{Factor, Term};

/// The value of a factor: a number, or the power of a truncated sum.
fn factor_value<R: Ring>(
    ring: &R,
    sums: &Truncated<R>,
    factor: &Factor,
) -> Result<R::Elem, AllocError>
    requires { R.modulus sums.now.0 ≡ R.modulus ring.now }
    ensures has { IfOk result (λ a. R.has ring.now a ≡ true) }
    ensures value { IfOk result (λ a. R.value ring.now a ≡ factor_value (R.modulus ring.now) sums.now.1 factor.now % R.modulus ring.now) }
{
    match factor {
        Factor::Number { top, bottom } => Ok(number_in(ring, *top, *bottom)),
        Factor::Zeta { word, power: k } => {
            let sum = sums.sum(word.as_slice())?;
            Ok(power(ring, sum, *k))
        }
    }
}

/// The value of the product of some factors.
fn factors_value<R: Ring>(
    ring: &R,
    sums: &Truncated<R>,
    factors: &[Factor],
) -> Result<R::Elem, AllocError>
    requires { R.modulus sums.now.0 ≡ R.modulus ring.now }
    ensures has { IfOk result (λ a. R.has ring.now a ≡ true) }
    ensures value { IfOk result (λ a. R.value ring.now a ≡ factors_value (R.modulus ring.now) sums.now.1 factors.now % R.modulus ring.now) }
{
    let mut product = ring.one();
    for factor in factors {
        let value = factor_value(ring, sums, factor)?;
        product = ring.mul(product, value);
    }
    Ok(product)
}

/// The value of a term: the product of its factors, with its sign.
fn term_value<R: Ring>(ring: &R, sums: &Truncated<R>, term: &Term) -> Result<R::Elem, AllocError>
    requires { R.modulus sums.now.0 ≡ R.modulus ring.now }
    ensures has { IfOk result (λ a. R.has ring.now a ≡ true) }
    ensures value { IfOk result (λ a. R.value ring.now a ≡ term_value (R.modulus ring.now) sums.now.1 term.now % R.modulus ring.now) }
{
    let product = factors_value(ring, sums, term.factors.as_slice())?;
    if term.negative {
        Ok(ring.neg(product))
    } else {
        Ok(product)
    }
}

/// The value of the sum of some terms.
pub(crate) fn terms_value<R: Ring>(
    ring: &R,
    sums: &Truncated<R>,
    terms: &[Term],
) -> Result<R::Elem, AllocError>
    requires { R.modulus sums.now.0 ≡ R.modulus ring.now }
    ensures has { IfOk result (λ a. R.has ring.now a ≡ true) }
    ensures value { IfOk result (λ a. R.value ring.now a ≡ terms_value (R.modulus ring.now) sums.now.1 terms.now % R.modulus ring.now) }
{
    let mut sum = ring.zero();
    for term in terms {
        let value = term_value(ring, sums, term)?;
        sum = ring.add(sum, value);
    }
    Ok(sum)
}

//! Numbers and powers in the ring.
ghost use Rattle.std.specs.Prelude.{◌≡◌, ℕ, ◌%◌, ◌^◌, ◌<◌, true, All};
ghost use Rattle.zeta_expr.specs.declared.expr.Factor.{Factor};
ghost use Rattle.zeta_expr.specs.Meaning.{number_in};
ghost use Rattle.zeta_expr.specs.Weights.{weight_of, depth_of};
ghost use Rattle.probe_replies.specs.Values.{first_without_inverse};

use residues::Ring;
use zeta_expr::{Expr, LineFault, refusal_of};

/// A number, or a number over a number: 0 where the one below `/` has no inverse.
pub(crate) fn number_in<R: Ring>(ring: &R, top: u128, bottom: Option<u128>) -> R::Elem
    ensures has { R.has ring.now result ≡ true }
    ensures value { R.value ring.now result ≡ number_in (R.modulus ring.now) (Factor.Number top bottom) % R.modulus ring.now }
{
    let Some(number) = bottom else {
        return ring.of(top);
    };
    match ring.inverse(ring.of(number)) {
        Some(inverse) => ring.mul(ring.of(top), inverse),
        None => ring.zero(),
    }
}

/// The power of an element, by squares: one for each digit of `k` in base 2.
pub(crate) fn power<R: Ring>(ring: &R, a: R::Elem, k: u32) -> R::Elem
    requires { R.has ring.now a ≡ true }
    ensures has { R.has ring.now result ≡ true }
    ensures value { R.value ring.now result ≡ R.value ring.now a ^ k % R.modulus ring.now }
{
    if k == 0 {
        return ring.one();
    }
    let half = power(ring, a, k / 2);
    let square = ring.mul(half, half);
    if k % 2 == 0 {
        square
    } else {
        ring.mul(square, a)
    }
}

/// The first number below `/` that has no inverse.
pub(crate) fn first_without_inverse<R: Ring>(ring: &R, e: &Expr) -> Option<u128>
    requires weights { All (λ t. weight_of t < 2 ^ 64) e.now }
    requires depths { All (λ t. depth_of t < 2 ^ 64) e.now }
    ensures { result ≡ first_without_inverse (R.modulus ring.now) e.now }
{
    // These come before all refusals by weight and depth, so it does not matter which are asked for.
    match refusal_of(ring, e, 2, 2) {
        Some(LineFault::NoInverse(number)) => Some(number),
        _ => None,
    }
}

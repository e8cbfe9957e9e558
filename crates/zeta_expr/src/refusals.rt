//! Why an expression means no sum of a weight and a depth.
ghost use Rattle.std.specs.Prelude.{◌≡◌, ◌^◌, ◌<◌, filter, map, not, ◌==◌, nat_lt, All};
ghost use Rattle.std.specs.List.{find};
ghost use Rattle.zeta_expr.specs.Meaning.{is_tested, other_weight, greater_depth, first_misfit, refusal_of};
ghost use Rattle.zeta_expr.specs.Weights.{weight_of, depth_of};

use crate::expr::{Expr, Term};
use crate::fault::LineFault;
use crate::numbers::{first_without_inverse, number_of};
use crate::weights::{depth_of, has_zeta, weight_of};
use residues::Ring;

/// Whether the weight and the depth of a term are tested: all but those without a zeta whose number is 0.
fn is_tested<R: Ring>(ring: &R, term: &Term) -> bool
    ensures { result ≡ is_tested (R.modulus ring.now) term.now }
{
    has_zeta(term) || !R::is_zero(number_of(ring, term))
}

/// The weight of a term, where it is tested and has another than `w`.
fn other_weight<R: Ring>(ring: &R, term: &Term, w: u32) -> Option<u64>
    requires { weight_of term.now < 2 ^ 64 }
    ensures { result ≡ other_weight (R.modulus ring.now) w term.now }
{
    if !is_tested(ring, term) {
        return None;
    }
    let weight = weight_of(term);
    if weight == u64::from(w) {
        None
    } else {
        Some(weight)
    }
}

/// The depth of a term, where it is tested and deeper than `d`.
fn greater_depth<R: Ring>(ring: &R, term: &Term, d: u32) -> Option<u64>
    requires { depth_of term.now < 2 ^ 64 }
    ensures { result ≡ greater_depth (R.modulus ring.now) d term.now }
{
    if !is_tested(ring, term) {
        return None;
    }
    let depth = depth_of(term);
    if u64::from(d) < depth {
        Some(depth)
    } else {
        None
    }
}

/// The weight of the first tested term that has another than `w`.
fn first_other_weight<R: Ring>(ring: &R, terms: &[Term], w: u32) -> Option<u64>
    requires { All (λ t. weight_of t < 2 ^ 64) terms.now }
    ensures { result ≡ find (λ k. not (k == w)) (map weight_of (filter (is_tested (R.modulus ring.now)) terms.now)) }
{
    for term in terms {
        if let Some(weight) = other_weight(ring, term, w) {
            return Some(weight);
        }
    }
    None
}

/// The depth of the first tested term that is deeper than `d`.
fn first_greater_depth<R: Ring>(ring: &R, terms: &[Term], d: u32) -> Option<u64>
    requires { All (λ t. depth_of t < 2 ^ 64) terms.now }
    ensures { result ≡ find (λ k. nat_lt d k) (map depth_of (filter (is_tested (R.modulus ring.now)) terms.now)) }
{
    for term in terms {
        if let Some(depth) = greater_depth(ring, term, d) {
            return Some(depth);
        }
    }
    None
}

/// The weight of the first tested term that has another than `w`; where there is none, the depth of the first that is deeper than `d`.
fn first_misfit<R: Ring>(ring: &R, terms: &[Term], w: u32, d: u32) -> Option<LineFault>
    requires weights { All (λ t. weight_of t < 2 ^ 64) terms.now }
    requires depths { All (λ t. depth_of t < 2 ^ 64) terms.now }
    ensures { result ≡ first_misfit (R.modulus ring.now) w d terms.now }
{
    match first_other_weight(ring, terms, w) {
        Some(weight) => Some(LineFault::WeightIs(weight)),
        None => match first_greater_depth(ring, terms, d) {
            Some(depth) => Some(LineFault::DepthIs(depth)),
            None => None,
        },
    }
}

/// The first cause for which an expression means no sum of weight `w` and depth at most `d`: a number below `/` without inverse, then a
/// tested term of another weight, then one that is deeper, each the first as written.
pub fn refusal_of<R: Ring>(ring: &R, e: &Expr, w: u32, d: u32) -> Option<LineFault>
    requires weights { All (λ t. weight_of t < 2 ^ 64) e.now }
    requires depths { All (λ t. depth_of t < 2 ^ 64) e.now }
    ensures { result ≡ refusal_of (R.modulus ring.now) w d e.now }
{
    let terms = e.terms.as_slice();
    if let Some(number) = first_without_inverse(ring, terms) {
        return Some(LineFault::NoInverse(number));
    }
    first_misfit(ring, terms, w, d)
}

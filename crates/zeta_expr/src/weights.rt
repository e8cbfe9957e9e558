//! Weight and depth of a term as it is written.
ghost use Rattle.std.specs.Prelude.{◌≡◌, ◌*◌, ◌^◌, ◌<◌, length, sum};
ghost use Rattle.std.specs.List.{sum_by};
ghost use Rattle.zeta_expr.specs.Weights.{has_zeta, weight_in, depth_in, weight_of, depth_of};

use crate::expr::{Factor, Term};

/// The power times the sum of the index.
fn zeta_weight(word: &[u32], power: u32) -> u64
    requires { power * sum word.now < 2 ^ 64 }
    ensures { result ≡ power * sum word.now }
{
    let mut weight = 0;
    for number in word {
        weight += u64::from(power) * u64::from(*number);
    }
    weight
}

/// The sum of the weights of the zetas among some factors.
fn sum_of_weights(factors: &[Factor]) -> u64
    requires { sum_by weight_in factors.now < 2 ^ 64 }
    ensures { result ≡ sum_by weight_in factors.now }
{
    let mut weight = 0;
    for factor in factors {
        if let Factor::Zeta { word, power } = factor {
            weight += zeta_weight(word.as_slice(), *power);
        }
    }
    weight
}

/// The sum of the depths of the zetas among some factors.
fn sum_of_depths(factors: &[Factor]) -> u64
    requires { sum_by depth_in factors.now < 2 ^ 64 }
    ensures { result ≡ sum_by depth_in factors.now }
{
    let mut depth = 0;
    for factor in factors {
        if let Factor::Zeta { word, power } = factor {
            let length = word.as_slice().len() as u64;
            depth += u64::from(*power) * length;
        }
    }
    depth
}

/// The sum of the weights of the zetas of a term, each times its power.
pub(crate) fn weight_of(term: &Term) -> u64
    requires { weight_of term.now < 2 ^ 64 }
    ensures { result ≡ weight_of term.now }
{
    sum_of_weights(term.factors.as_slice())
}

/// The sum of the depths of the zetas of a term, each times its power.
pub(crate) fn depth_of(term: &Term) -> u64
    requires { depth_of term.now < 2 ^ 64 }
    ensures { result ≡ depth_of term.now }
{
    sum_of_depths(term.factors.as_slice())
}

/// Whether a zeta stands among the factors of a term.
pub(crate) fn has_zeta(term: &Term) -> bool
    ensures { result ≡ has_zeta term.now }
{
    term.factors.iter().any(|factor| factor.is_zeta())
}

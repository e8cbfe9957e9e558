//! The regularisation of the shuffle by its definition.
ghost use Rattle.std.specs.Prelude.{◌≡◌, ◌+◌, ◌*◌, ◌%◌, ◌<◌, ◌≤◌, List, [], ◌∷◌, drop, false, length, map, take, IfOk};
ghost use Rattle.zeta_model.specs.declared.Letter.TheVariants.{X};
ghost use Rattle.zeta_model.specs.Alphabets.{shuffle_of};
ghost use Rattle.zeta_model.specs.Regularise.{begins_with_y, y_word, sign_of, reg_behind, reg_of};

use crate::product::{add_behind, shuffle};
use crate::{Letter, WordList};
use std::alloc::{AllocError, Global};

/// The coefficient of the word t in the regularisation of the word w, from 0 to m - 1: reg(1) = 1, reg(y^j) = 0 and
/// `reg(y^j x u) = (-1)^j x sh(y^j, u)` (Ihara, Kaneko and Zagier 2006). `AllocError` comes for want of memory alone.
pub fn reg_coefficient(alloc: Global, m: u64, w: &[Letter], t: &[Letter]) -> Result<u64, AllocError>
    requires { 0 < m }
    ensures { IfOk result (λ n. n ≡ reg_of m w.now t.now % m) }
{
    let j = leading_y(w);
    if j == w.len() {
        return Ok(only_y(m, j, t));
    }
    let words = behind_x(alloc, &w[..j], &w[j + 1..])?;
    Ok(times(m, sign(m, j), words.count(t) as u64))
}

/// The coefficient of t in the regularisation of y^j.
fn only_y(m: u64, j: usize, t: &[Letter]) -> u64
    requires { 0 < m }
    ensures { result ≡ reg_behind m j [] t.now % m }
{
    if j == 0 && t.is_empty() { 1 % m } else { 0 }
}

/// The words of the shuffle of u and v, each with x before it.
fn behind_x(alloc: Global, u: &[Letter], v: &[Letter]) -> Result<WordList, AllocError>
    ensures { IfOk result (λ words. words ≡ map (λ t. X ∷ t) (shuffle_of u.now v.now)) }
{
    let words = shuffle(alloc, u, v)?;
    let mut longer = WordList::new(alloc);
    add_behind(alloc, &mut longer, &[Letter::X], &words)?;
    Ok(longer)
}

/// How many letters y the word begins with.
fn leading_y(w: &[Letter]) -> usize
    ensures front { take result w.now ≡ y_word result }
    ensures stops { begins_with_y (drop result w.now) ≡ false }
    ensures within { result ≤ length w.now }
{
    match w {
        [Letter::Y, rest @ ..] => 1 + leading_y(rest),
        _ => 0,
    }
}

/// -1 to the power j, modulo m.
fn sign(m: u64, j: usize) -> u64
    requires { 0 < m }
    ensures { result ≡ sign_of m j }
{
    if j % 2 == 0 { 1 } else { m - 1 }
}

/// The product modulo m.
fn times(m: u64, a: u64, b: u64) -> u64
    requires { 0 < m }
    ensures { result ≡ a * b % m }
{
    (a as u128 * b as u128 % m as u128) as u64
}

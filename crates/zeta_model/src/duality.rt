//! Duality by its definition, and the order of words.
ghost use Rattle.std.specs.Prelude.{◌≡◌, IfOk};
ghost use Rattle.zeta_model.specs.Words.{word_cmp};
ghost use Rattle.zeta_model.specs.Duality.{other_letter, dual_of, representative_of};

use crate::Letter;
use std::alloc::{AllocError, Global};
use std::cmp::Ordering;

/// How two words are ordered: x is less than y, and a proper prefix less than the longer word.
pub fn compare(u: &[Letter], v: &[Letter]) -> Ordering
    ensures { result ≡ word_cmp u.now v.now }
{
    u.cmp(v)
}

/// The dual of a word: read backwards, with x and y exchanged (Ihara, Kaneko and Zagier 2006). `AllocError` comes for want
/// of memory alone.
pub fn dual(alloc: Global, w: &[Letter]) -> Result<Vec<Letter>, AllocError>
    ensures { IfOk result (λ d. d.items ≡ dual_of w.now) }
{
    let mut d = Vec::new(alloc);
    for a in w {
        d.push(other(*a))?;
    }
    d.reverse();
    Ok(d)
}

/// The lesser of a word and its dual. `AllocError` comes for want of memory alone.
pub fn representative(alloc: Global, w: &[Letter]) -> Result<Vec<Letter>, AllocError>
    ensures { IfOk result (λ r. r.items ≡ representative_of w.now) }
{
    let d = dual(alloc, w)?;
    match compare(w, &d) {
        Ordering::Greater => Ok(d),
        _ => copied(alloc, w),
    }
}

/// y for x and x for y.
fn other(a: Letter) -> Letter
    ensures { result ≡ other_letter a }
{
    match a {
        Letter::X => Letter::Y,
        Letter::Y => Letter::X,
    }
}

/// The word in memory of its own.
fn copied(alloc: Global, w: &[Letter]) -> Result<Vec<Letter>, AllocError>
    ensures { IfOk result (λ copy. copy.items ≡ w.now) }
{
    let mut copy = Vec::new(alloc);
    copy.extend_from_slice(w)?;
    Ok(copy)
}

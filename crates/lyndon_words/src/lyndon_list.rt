//! Which words are Lyndon words, and the list of those of a weight.
ghost use Rattle.std.specs.Prelude.{◌≡◌, ℕ, ◌+◌, ◌<◌, ◌≤◌, ◌↔◌, List, [], ◌∷◌, ◌++◌, length, IsTrue, IfOk, OnOk};
ghost use Rattle.lyndon_words.specs.Lyndon.{IsLyndon};
ghost use Rattle.lyndon_words.specs.Listing.{IsLyndonList};
ghost use Rattle.lyndon_words.specs.Inner.{lyndon_behind};

use std::alloc::{AllocError, Global};
use word_letters::{Letter, Word};

/// Whether the word is a Lyndon word: it is not empty, and less than each of its proper nonempty suffixes
/// (Chen, Fox and Lyndon 1958).
pub fn is_lyndon(w: Word) -> bool
    ensures { IsTrue result ↔ IsLyndon w }
{
    if w.weight() == 0 {
        return false;
    }
    let mut suffix = w.tail();
    while suffix.weight() > 0 {
        if !(w < suffix) {
            return false;
        }
        suffix = suffix.tail();
    }
    true
}

/// All Lyndon words of `weight` letters, at most `depth` of them y, in increasing order. Words of that weight and depth are tried one by
/// one: there are many where both are great.
pub fn lyndon_of(alloc: Global, weight: u32, depth: u32) -> Result<Vec<Word>, AllocError>
    requires least { 1 ≤ weight }
    requires most { weight ≤ 24 }
    ensures { IfOk result (λ list. IsLyndonList weight depth list.items) }
{
    let mut list = Vec::new(alloc);
    push_behind(&mut list, Word::empty(), weight, depth)?;
    Ok(list)
}

/// Puts the Lyndon words at the end of the list that are `front` with `more` letters behind it, at most `depth` of them y.
fn push_behind(list: &mut Vec<Word>, front: Word, more: u32, depth: u32) -> Result<(), AllocError>
    requires { length front + more ≤ 24 }
    ensures { OnOk result (list.new.items ≡ list.old.items ++ lyndon_behind front more depth) }
{
    if more == 0 {
        if is_lyndon(front) {
            list.push(front)?;
        }
        return Ok(());
    }
    push_behind(list, front.with_last(Letter::X), more - 1, depth)?;
    if depth == 0 {
        return Ok(());
    }
    push_behind(list, front.with_last(Letter::Y), more - 1, depth - 1)?;
    Ok(())
}

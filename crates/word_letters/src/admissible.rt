//! The admissible words of a weight up to a depth.
ghost use Rattle.std.specs.Prelude.{◌≡◌, ◌+◌, ◌<◌, ◌≤◌, ◌++◌, length, IfOk, OnOk};
ghost use Rattle.zeta_model.specs.WordLists.{admissible_within};
ghost use Rattle.word_letters.specs.Inner.{words_behind};

use crate::word::Word;
use std::alloc::{AllocError, Global};
use zeta_model::Letter;

/// The admissible words of `weight` letters, at most `depth` of them y, in increasing order.
pub fn admissible_words(alloc: Global, weight: u32, depth: u32) -> Result<Vec<Word>, AllocError>
    requires { weight ≤ 24 }
    ensures { IfOk result (λ words. words.items ≡ admissible_within weight depth) }
{
    let mut words = Vec::new(alloc);
    if weight < 2 {
        return Ok(words);
    }
    push_behind(&mut words, Word::of(Letter::X), weight - 1, depth)?;
    Ok(words)
}

/// Puts the words at the end of the list that are `front` with `more` letters behind it, the last one y and at most `depth` of these y.
fn push_behind(words: &mut Vec<Word>, front: Word, more: u32, depth: u32) -> Result<(), AllocError>
    requires some { 0 < more }
    requires fits { length front + more ≤ 24 }
    ensures { OnOk result (words.new.items ≡ words.old.items ++ words_behind front more depth) }
{
    if depth == 0 {
        return Ok(());
    }
    let with_y = front.with_last(Letter::Y);
    if more == 1 {
        words.push(with_y)?;
        return Ok(());
    }
    push_behind(words, front.with_last(Letter::X), more - 1, depth)?;
    push_behind(words, with_y, more - 1, depth - 1)?;
    Ok(())
}

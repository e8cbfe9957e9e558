//! The dual of a word, and the lesser of a word and its dual.
ghost use Rattle.std.specs.Prelude.{◌≡◌, ℕ, ◌+◌, ◌≤◌, List, length};
ghost use Rattle.std.specs.Ordering.{is_gt};
ghost use Rattle.zeta_model.specs.Duality.{dual_of, other_letter, representative_of};
ghost use Rattle.zeta_model.specs.Words.{word_cmp};

use word_letters::{Letter, Word};

/// y for x and x for y.
fn other_letter(letter: Letter) -> Letter
    ensures { result ≡ other_letter letter }
{
    match letter {
        Letter::X => Letter::Y,
        Letter::Y => Letter::X,
    }
}

/// The dual of a word: the word read backwards, with x and y exchanged (Ihara, Kaneko and Zagier 2006).
pub fn dual(w: Word) -> Word
    ensures { result ≡ dual_of w }
{
    let mut dual = Word::empty();
    for i in 0..w.weight() {
        dual = dual.in_front(other_letter(w.letter(i)));
    }
    dual
}

/// Whether the dual of a word is less than the word: the first place decides at which their letters differ.
fn has_lesser_dual(w: Word) -> bool
    ensures { result ≡ is_gt (word_cmp w (dual_of w)) }
{
    for place in 0..w.weight() {
        let letter = w.letter(place);
        if letter != other_letter(w.letter(w.weight() - 1 - place)) {
            return letter == Letter::Y;
        }
    }
    false
}

/// The lesser of a word and its dual, in the order of words.
pub fn representative(w: Word) -> Word
    ensures { result ≡ representative_of w }
{
    if has_lesser_dual(w) { dual(w) } else { w }
}

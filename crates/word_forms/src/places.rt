//! Places of the columns of words, by guesses.
ghost use Rattle.std.specs.Prelude.{◌≡◌, ℕ, ◌↔◌, Some, map, slice_get};
ghost use Rattle.lyndon_words.specs.Lyndon.{joined};

use column_order::Columns;
use std::alloc::{AllocError, Global};
use word_letters::Word;

/// How many guesses are kept: four for each word of the longest list of columns.
const GUESSES: usize = 8192;

/// Guesses at the places of the columns of words. What is found by one is looked at, so that a wrong guess costs time alone.
pub(crate) fn guesses_of(alloc: Global, columns: &Columns) -> Result<Vec<u16>, AllocError> {
    let mut guesses = Vec::new(alloc);
    guesses.resize(GUESSES, 0)?;
    for place in 0..columns.len() {
        set_guess(&mut guesses, columns.at(place).word(), place);
    }
    Ok(guesses)
}

/// Guesses that the column of the word stands there.
fn set_guess(guesses: &mut [u16], word: Word, place: u32) {
    if let Ok(place) = u16::try_from(place) {
        if let Some(guess) = guesses.get_mut(guess_of(word)) {
            *guess = place;
        }
    }
}

/// Where the guess at the place of a word stands.
// Words that end with y and whose letters are consecutive numbers lie far apart, as multiples of the golden ratio do.
fn guess_of(word: Word) -> usize {
    ((word.bits() / 2).wrapping_mul(2_654_435_769) >> 19) as usize
}

/// The place of the column of a word: guessed, or looked for where the guess is wrong.
pub(crate) fn place_of(columns: &Columns, guesses: &[u16], word: Word) -> Option<u32>
    ensures word { (i : ℕ) → (result ≡ Some i) ↔ (slice_get (map joined columns.now.list) i ≡ Some word) }
{
    let place = match guesses.get(guess_of(word)) {
        Some(place) => *place as u32,
        None => 0,
    };
    if place < columns.len() && columns.at(place).word() == word {
        return Some(place);
    }
    columns.place_of_word(word)
}

//! Rows that are found by their words.
ghost use Rattle.std.specs.Prelude.{◌≡◌, ◌++◌, ◌∷◌, [], length, Contains, IfOk, OnOk, IfSome, IfNone};
ghost use Rattle.std.specs.List.Sorted.{IsStrictlySortedBy};
ghost use Rattle.std.specs.Map.{keys_of};
ghost use Rattle.zeta_model.specs.Words.{word_cmp};

use residues::Ring;
use sparse_rows::Row;
use std::alloc::{AllocError, Global};
use std::cmp::Ordering;
use std::marker::Model;
use word_letters::Word;

/// How many guesses are kept: four for each word of the longest list of columns.
const GUESSES: usize = 8192;

/// 2^32 over the golden ratio. The multiples of it, modulo 2^32, lie far apart.
const SPREAD: u32 = 2_654_435_769;

/// Words that increase, each with its row.
///
/// Beside them stand guesses at the places of words. What is found by a guess is looked at, so that a wrong one costs time alone.
#[derive(Drop)]
pub(crate) struct WordRows<R: Ring> {
    rows: Vec<(Word, Row<R>)>,
    guesses: Vec<u16>,
}

impl<R: Ring> Model for WordRows<R> {
    ghost use Rattle.std.specs.Prelude.{List, ℕ};
    ghost use Rattle.zeta_model.specs.declared.Letter.{Letter};

    ghost Value = { List (List Letter × List (ℕ × R.Elem)) };

    ghost view = { λ r. r.rows.items };
}

impl<R: Ring> WordRows<R> {
    /// No rows, with room for so many.
    pub(crate) fn with_capacity(alloc: Global, words: usize) -> Result<WordRows<R>, AllocError>
        ensures { IfOk result (λ rows. rows ≡ []) }
    {
        let rows = Vec::with_capacity(alloc, words)?;
        let mut guesses = Vec::new(alloc);
        guesses.resize(GUESSES, 0)?;
        Ok(WordRows { rows, guesses })
    }

    /// Puts a word with its row behind the others.
    pub(crate) fn push(&mut self, word: Word, row: Row<R>) -> Result<(), AllocError>
        ensures { OnOk result (self.new ≡ self.old ++ (word, row) ∷ []) }
    {
        set_guess(&mut self.guesses, word, self.rows.len());
        self.rows.push((word, row))?;
        Ok(())
    }

    /// The row that stands with the word.
    pub(crate) fn find(&self, word: Word) -> Option<&Row<R>>
        requires { IsStrictlySortedBy word_cmp (keys_of self.now) }
        ensures some { IfSome result (λ row. Contains self.now (word, row.now)) }
        ensures none { IfNone result (¬ (Contains (keys_of self.now) word)) }
    {
        let place = match self.guesses.get(guess_of(word)) {
            Some(place) => *place as usize,
            None => 0,
        };
        if place < self.rows.len() {
            let row = &self.rows[place];
            if row.0 == word {
                return Some(&row.1);
            }
        }
        row_at(&self.rows, word)
    }

    /// Where the rows take their memory.
    pub(crate) fn allocator(&self) -> Global {
        *self.rows.allocator()
    }
}

/// Where the guess at the place of a word stands.
// The last letter, a y in each word of a table, is left out. No two words of a table of weight 13 or less then share a guess.
fn guess_of(word: Word) -> usize {
    ((word.bits() / 2).wrapping_mul(SPREAD) >> 19) as usize
}

/// Guesses that the word stands at the place.
fn set_guess(guesses: &mut [u16], word: Word, place: usize) {
    if let Ok(place) = u16::try_from(place) {
        if let Some(guess) = guesses.get_mut(guess_of(word)) {
            *guess = place;
        }
    }
}

/// The row that stands with the word, by halves.
fn row_at<'a, R: Ring>(rows: &'a [(Word, Row<R>)], word: Word) -> Option<&'a Row<R>>
    requires { IsStrictlySortedBy word_cmp (keys_of rows.now) }
    ensures some { IfSome result (λ row. Contains rows.now (word, row.now)) }
    ensures none { IfNone result (¬ (Contains (keys_of rows.now) word)) }
{
    let mut low = 0;
    let mut high = rows.len();
    while low < high {
        let middle = low + (high - low) / 2;
        let row = &rows[middle];
        match row.0.cmp(&word) {
            Ordering::Less => low = middle + 1,
            Ordering::Equal => return Some(&row.1),
            Ordering::Greater => high = middle,
        }
    }
    None
}

//! The words that a table prefers to keep.
ghost use Rattle.std.specs.Prelude.{◌≡◌, ◌<◌, ◌≤◌, ◌↔◌, [], ◌∷◌, ◌++◌, length, Some, true, false, slice_get, IsTrue};
ghost use Rattle.std.specs.List.{Contains};

use std::marker::Model;
use word_letters::Word;

/// The greatest number of preferred words.
pub const MAX_PREFERRED: usize = 16;

/// At most 16 words, in the order in which they were put. Contracts see the list.
///
/// Every place behind them has the empty word, so that the list tells all that is kept.
#[derive(Clone, Copy, PartialEq, Eq)]
pub struct Preferred {
    words: [Word; 16],
    count: usize,
}

impl Model for Preferred {
    ghost use Rattle.std.specs.Prelude.{List, take, length};
    ghost use Rattle.zeta_model.specs.declared.Letter.{Letter};
    ghost use Rattle.column_order.specs.Stored.{IsFilled, filled, filled-inverse};

    ghost Value = { List (List Letter) };

    ghost view = { λ p. take p.count p.words };

    ghost invariant = { λ p. IsFilled p.words p.count };

    ghost inverse = { λ list. record { words = filled list; count = length list } };

    ghost inverse_ok = { λ p filled i. let e = filled-inverse p.words p.count filled in record { words = e.0 i; count = e.1 i } };
}

impl Preferred {
    /// No words.
    pub fn none() -> Preferred
        ensures { result ≡ [] }
    {
        Preferred {
            words: [Word::empty(); 16],
            count: 0,
        }
    }

    /// How many words there are, 0 to 16.
    pub fn len(&self) -> usize
        ensures length { result ≡ length self.now }
        ensures within { result ≤ 16 }
    {
        self.count
    }

    /// The word at place `i`, from 0 for the first.
    pub fn at(&self, i: usize) -> Word
        requires { i < length self.now }
        ensures { slice_get self.now i ≡ Some result }
    {
        let words = &self.words;
        words[i]
    }

    /// Whether the word is one of them.
    pub fn contains(&self, w: Word) -> bool
        ensures { IsTrue result ↔ Contains self.now w }
    {
        let words = &self.words;
        words[..self.count].contains(&w)
    }

    /// Puts a word behind the others: false, and nothing done, exactly where there are 16.
    pub fn push(&mut self, w: Word) -> bool
        ensures room { result ≡ true ↔ (length self.old < 16) }
        ensures pushed { result ≡ true → self.new ≡ self.old ++ w ∷ [] }
        ensures kept { result ≡ false → self.new ≡ self.old }
    {
        if self.count == MAX_PREFERRED {
            return false;
        }
        self.words[self.count] = w;
        self.count += 1;
        true
    }
}

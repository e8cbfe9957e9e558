//! A word, and what is read of it.
ghost use Rattle.std.specs.Prelude.{◌≡◌, ℕ, ◌+◌, ◌<◌, ◌≤◌, ◌↔◌, List, [], ◌∷◌, ◌++◌, length, slice_get, IfOk, IfErr, OnOk, IsErr};
ghost use Rattle.zeta_model.specs.declared.Letter.{Letter};
ghost use Rattle.zeta_model.specs.Words.{depth_of, ends_with_y, has_index, is_admissible};

use crate::fault::TooLong;
use std::marker::Model;
use zeta_model::Letter;

/// The greatest weight of a word, in letters.
pub const MAX_WEIGHT: u32 = 24;

/// A word of at most 24 letters.
///
/// In its number the letters stand in the upper bits, the first one highest, and the weight in the lowest five bits.
#[derive(Clone, Copy)]
pub struct Word {
    pub(crate) packed: u32,
}

impl Model for Word {
    ghost use Rattle.std.specs.Prelude.{◌≡◌, ◌≤◌, List, length};
    ghost use Rattle.zeta_model.specs.declared.Letter.{Letter};
    ghost use Rattle.word_letters.specs.Packing.{packed_of, word_of, IsPacked};

    ghost Value = { List Letter };

    ghost view = { λ a. word_of a.packed };

    ghost invariant = { λ a. IsPacked a.packed };

    ghost inverse = { λ w. record { packed = packed_of w } };

    ghost inverse_ok = { λ a h i. record { packed = h.kept i } };
}

impl Default for Word {
    fn default() -> Word
        ensures { result ≡ [] }
    {
        Word::empty()
    }
}

impl Word {
    /// The word without a letter.
    pub fn empty() -> Word
        ensures { result ≡ [] }
    {
        Word { packed: 0 }
    }

    /// How many letters the word has, 0 to 24.
    pub fn weight(self) -> u32
        ensures length { result ≡ length self }
        ensures within { result ≤ 24 }
    {
        self.packed % 32
    }

    /// How many letters y the word has, 0 to 24.
    pub fn depth(self) -> u32
        ensures count { result ≡ depth_of self }
        ensures within { result ≤ length self }
    {
        (self.packed / 32).count_ones()
    }

    /// The letter at place `i`, from 0 for the first.
    pub fn letter(self, i: u32) -> Letter
        requires { i < length self }
        ensures { slice_get self i ≡ Some result }
    {
        if (self.packed / 32 >> (23 - i)) % 2 == 1 {
            Letter::Y
        } else {
            Letter::X
        }
    }

    /// Whether the last letter is y. An index text is there for these words alone.
    pub fn ends_with_y(self) -> bool
        ensures { result ≡ ends_with_y self }
    {
        let weight = self.weight();
        if weight == 0 {
            return false;
        }
        match self.letter(weight - 1) {
            Letter::X => false,
            Letter::Y => true,
        }
    }

    /// Whether the word has an index: it is empty, or its last letter is y.
    pub fn has_index(self) -> bool
        ensures { result ≡ has_index self }
    {
        self.weight() == 0 || self.ends_with_y()
    }

    /// Whether the first letter is x and the last one y, so that the sum of the word converges
    /// (Ihara, Kaneko and Zagier 2006).
    pub fn is_admissible(self) -> bool
        ensures { result ≡ is_admissible self }
    {
        self.ends_with_y() && self.letter(0) == Letter::X
    }

    /// The word with `a` before its first letter. `TooLong(25)` exactly where the word has 24 letters.
    pub fn push_front(self, a: Letter) -> Result<Word, TooLong>
        ensures pushed { IfOk result (λ w. w ≡ a ∷ self) }
        ensures fits { OnOk result (length self < 24) }
        ensures too_long { IsErr result ↔ (length self ≡ 24) }
        ensures weight { IfErr result (λ fault. fault.0 ≡ 25) }
    {
        let weight = self.weight();
        if weight == MAX_WEIGHT {
            return Err(TooLong(weight + 1));
        }
        Ok(self.in_front(a))
    }

    /// The letters of the word and behind them those of `v`. `TooLong(n)` exactly where the sum `n` of the two weights
    /// is over 24.
    pub fn concat(self, v: Word) -> Result<Word, TooLong>
        ensures joined { IfOk result (λ w. w ≡ self ++ v) }
        ensures fits { OnOk result (length self + length v ≤ 24) }
        ensures too_long { IsErr result ↔ (24 < length self + length v) }
        ensures weight { IfErr result (λ fault. fault.0 ≡ length self + length v) }
    {
        let weight = self.weight() + v.weight();
        if weight > MAX_WEIGHT {
            return Err(TooLong(weight));
        }
        Ok(self.followed_by(v))
    }
}

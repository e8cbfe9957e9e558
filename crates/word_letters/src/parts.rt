//! Words put together where they fit, and cut.
ghost use Rattle.std.specs.Prelude.{◌≡◌, ◌+◌, ◌^◌, ◌<◌, ◌≤◌, false, [], ◌∷◌, ◌++◌, length, drop};
ghost use Rattle.zeta_model.specs.Words.{letter_rank};
ghost use Rattle.word_letters.specs.Packing.{digits_of, letters_of};
ghost use Rattle.zeta_model.specs.Indices.{z_word};
ghost use Rattle.zeta_model.specs.Regularise.{begins_with_y, y_word};

use crate::word::Word;
use zeta_model::Letter;

/// 0 for x and 1 for y.
fn rank(a: Letter) -> u32
    ensures { result ≡ letter_rank a }
{
    match a {
        Letter::X => 0,
        Letter::Y => 1,
    }
}

impl Word {
    /// The word of the one letter.
    pub fn of(a: Letter) -> Word
        ensures { result ≡ a ∷ [] }
    {
        Word::empty().in_front(a)
    }

    /// The word of `j` letters y.
    pub fn y_power(j: u32) -> Word
        requires { j ≤ 24 }
        ensures { result ≡ y_word j }
    {
        let letters = (1 << 24) - (1 << (24 - j));
        Word {
            packed: letters * 32 + j,
        }
    }

    /// The word z_k: x .. x y of `k` letters.
    pub fn z(k: u32) -> Word
        requires some { 0 < k }
        requires fits { k ≤ 24 }
        ensures { result ≡ z_word k }
    {
        Word {
            packed: (1 << (24 - k)) * 32 + k,
        }
    }

    /// The word with `a` before its first letter.
    pub fn in_front(self, a: Letter) -> Word
        requires { length self < 24 }
        ensures { result ≡ a ∷ self }
    {
        let letters = self.packed / 32;
        Word {
            packed: (rank(a) * (1 << 23) + letters / 2) * 32 + (self.weight() + 1),
        }
    }

    /// The word with `a` behind its last letter.
    pub fn with_last(self, a: Letter) -> Word
        requires { length self < 24 }
        ensures { result ≡ self ++ a ∷ [] }
    {
        self.followed_by(Word::of(a))
    }

    /// The letters of the word and behind them those of `v`.
    pub fn followed_by(self, v: Word) -> Word
        requires { length self + length v ≤ 24 }
        ensures { result ≡ self ++ v }
    {
        let front = self.weight();
        let letters = self.packed / 32 + (v.packed / 32 >> front);
        Word {
            packed: letters * 32 + (front + v.weight()),
        }
    }

    /// The word without its first letter.
    pub fn tail(self) -> Word
        requires { 0 < length self }
        ensures { result ≡ drop 1 self }
    {
        let letters = self.packed / 32;
        Word {
            packed: letters % (1 << 23) * 2 * 32 + (self.packed % 32 - 1),
        }
    }

    /// The word without its first `n` letters.
    pub fn without_front(self, n: u32) -> Word
        requires { n ≤ length self }
        ensures { result ≡ drop n self }
    {
        let letters = self.packed / 32 % (1 << (24 - n)) * (1 << n);
        Word {
            packed: letters * 32 + (self.weight() - n),
        }
    }

    /// The letters y that the word begins with, and the rest.
    pub fn split_y(self) -> (Word, Word)
        ensures front { result.0 ≡ y_word (length result.0) }
        ensures whole { self ≡ result.0 ++ result.1 }
        ensures stops { begins_with_y result.1 ≡ false }
        ensures weights { length result.0 + length result.1 ≤ 24 }
    {
        for i in 0..self.weight() {
            match self.letter(i) {
                Letter::X => return (Word::y_power(i), self.without_front(i)),
                Letter::Y => {}
            }
        }
        (self, Word::empty())
    }

    /// The letters as binary digits, 0 for x and 1 for y, the first letter highest.
    pub fn bits(self) -> u32
        ensures digits { result ≡ digits_of (length self) self }
        ensures within { result < 2 ^ length self }
    {
        self.packed / 32 >> (24 - self.weight())
    }

    /// The word of `weight` letters that are these binary digits.
    pub fn from_bits(weight: u32, bits: u32) -> Word
        requires weight { weight ≤ 24 }
        requires fits { bits < 2 ^ weight }
        ensures letters { result ≡ letters_of weight weight bits }
        ensures digits { digits_of weight result ≡ bits }
    {
        Word {
            packed: bits * (1 << (24 - weight)) * 32 + weight,
        }
    }
}

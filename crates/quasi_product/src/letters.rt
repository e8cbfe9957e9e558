//! What a product takes for letters.
ghost use Rattle.std.specs.Prelude.{◌≡◌, ◌+◌, ◌<◌, ◌≤◌, true, length};
ghost use Rattle.zeta_model.specs.Alphabets.{first_z as first_z_of};
ghost use Rattle.zeta_model.specs.Product.{Alphabet, AlphabetLaws, IsLetter};
ghost use Rattle.zeta_model.specs.Words.{ends_with_y};

use word_letters::{Letter, Word};

/// The letters of a product: the words that it covers, the first letter of a word, itself a word, and what two letters
/// join to.
pub trait Letters {
    /// The alphabet whose letters these are.
    ghost alphabet: { Alphabet };

    /// Whether the product covers the word.
    fn covers(w: Word) -> bool
        ensures { result ≡ alphabet.covered w };

    /// The first letter of a covered word.
    fn first(w: Word) -> Word
        requires some { 0 < length w }
        requires covered { alphabet.covered w ≡ true }
        ensures { result ≡ alphabet.first w };

    /// What two letters of at most 24 letters x and y together join to, None where they do not.
    fn join(a: Word, b: Word) -> Option<Word>
        requires letter_a { IsLetter alphabet a }
        requires letter_b { IsLetter alphabet b }
        requires fits { length a + length b ≤ 24 }
        ensures { result ≡ alphabet.joined a b };

    /// The alphabet obeys the laws for words of at most 24 letters.
    ghost laws: { AlphabetLaws 24 alphabet };
}

/// The letters of the shuffle: every word is covered, the letters are x and y, and none join.
pub struct ShuffleLetters;

impl Letters for ShuffleLetters {
    ghost use Rattle.zeta_model.specs.Alphabets.{shuffle_alphabet};
    ghost use Rattle.zeta_model.proofs.ShuffleLetters.{shuffle_laws};

    ghost alphabet = { shuffle_alphabet };

    ghost laws = { shuffle_laws 24 };

    fn covers(_w: Word) -> bool {
        true
    }

    fn first(w: Word) -> Word {
        Word::of(w.letter(0))
    }

    fn join(_a: Word, _b: Word) -> Option<Word> {
        None
    }
}

/// The letters of the stuffle: the words that are empty or end with y are covered, the letters are the z_k, the words
/// x .. x y of k letters, and z_k and z_l join to z_(k+l).
pub struct StuffleLetters;

impl Letters for StuffleLetters {
    ghost use Rattle.zeta_model.specs.Alphabets.{stuffle_alphabet};
    ghost use Rattle.zeta_model.proofs.StuffleLetters.{stuffle_laws};

    ghost alphabet = { stuffle_alphabet };

    ghost laws = { stuffle_laws 24 };

    fn covers(w: Word) -> bool {
        w.has_index()
    }

    fn first(w: Word) -> Word {
        first_z(w)
    }

    fn join(a: Word, b: Word) -> Option<Word> {
        Some(Word::z(a.weight() + b.weight()))
    }
}

/// The front of a word up to its first y.
fn first_z(w: Word) -> Word
    requires { ends_with_y w ≡ true }
    ensures front { result ≡ first_z_of w }
    ensures within { length result ≤ length w }
{
    match w.letter(0) {
        Letter::Y => Word::of(Letter::Y),
        Letter::X => first_z(w.tail()).in_front(Letter::X),
    }
}

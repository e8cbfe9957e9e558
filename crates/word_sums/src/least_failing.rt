//! The least word of a sum that fails a test.
ghost use Rattle.std.specs.Prelude.{◌≡◌, Bool, List, [], MatchOption};
ghost use Rattle.std.specs.Ordering.{ord_min};
ghost use Rattle.word_sums.specs.Failing.{failing, IsLeast};
ghost use Rattle.zeta_model.specs.Words.{word_cmp};
ghost use Rattle.zeta_model.specs.declared.Letter.{Letter};

use crate::WordSum;
use residues::Ring;
use word_letters::Word;

/// A test of words.
pub trait WordTest {
    /// Which words pass.
    ghost passes: { Self → List Letter → Bool };

    /// Whether the word passes.
    fn passes(&self, w: Word) -> bool
        ensures { result ≡ passes self.now w };
}

impl<R: Ring> WordSum<R> {
    /// The least word of the sum that fails the test, None where all of its words pass.
    pub fn least_failing<T: WordTest>(&self, test: &T) -> Option<Word>
        ensures { MatchOption result (failing (T.passes test.now) self.now ≡ []) (IsLeast (failing (T.passes test.now) self.now)) }
    {
        let mut least = None;
        for (word, _) in self.iter() {
            if !test.passes(*word) {
                least = Some(lesser(least, *word));
            }
        }
        least
    }
}

/// The lesser of the first word, if there is one, and the second.
fn lesser(first: Option<Word>, second: Word) -> Word
    ensures { MatchOption first (result ≡ second) (λ word. result ≡ ord_min word_cmp word second) }
{
    match first {
        Some(word) => word.min(second),
        None => second,
    }
}

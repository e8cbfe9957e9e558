//! Words put together where their weights are known to fit.
ghost use Rattle.std.specs.Prelude.{◌≡◌, ℕ, ◌+◌, ◌≤◌, List, [], ◌∷◌, ◌++◌, length};
ghost use Rattle.lyndon_words.specs.Lyndon.{joined};

use word_letters::Word;

/// The words put together, the first one in front.
pub(crate) fn join(words: &[Word]) -> Word
    requires { length (joined words.now) ≤ 24 }
    ensures { result ≡ joined words.now }
{
    let mut whole = Word::empty();
    for word in words {
        whole = whole.followed_by(*word);
    }
    whole
}

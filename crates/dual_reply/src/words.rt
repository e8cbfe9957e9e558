//! Words with signs.
use word_letters::Word;

/// A word with its sign, true for `-`.
#[derive(Clone, Copy, Default)]
pub struct Signed {
    pub negative: bool,
    pub word: Word,
}

//! A list of words, the value of a product.
ghost use Rattle.std.specs.Prelude.{◌≡◌, List, [], ◌∷◌, ◌++◌, length, map, OnOk, OnErr};
ghost use Rattle.zeta_model.specs.Sums.{same_word, sum_of};

use crate::Letter;
use std::alloc::{AllocError, Global};
use std::marker::Model;

/// A list of words, in which a word may stand several times.
#[derive(Drop)]
pub struct WordList {
    words: Vec<Vec<Letter>>,
}

impl Model for WordList {
    ghost use Rattle.std.specs.Prelude.{List, map};
    ghost use Rattle.std.specs.Coded.{coded_list};
    ghost use Rattle.zeta_model.specs.declared.Letter.{Letter};
    ghost use Rattle.zeta_model.specs.Words.{word_code};

    ghost Value = { List (List Letter) };

    ghost coded = { coded_list word_code };

    ghost view = { λ a. map (λ w. w.items) a.words.items };
}

impl WordList {
    /// The list without words.
    pub fn new(alloc: Global) -> WordList
        ensures { result ≡ [] }
    {
        WordList {
            words: Vec::new(alloc),
        }
    }

    /// How many words stand in the list, each as often as it stands there.
    pub fn len(&self) -> usize
        ensures { result ≡ length self.now }
    {
        self.words.len()
    }

    /// Puts a word at the end. For want of memory the list is as before, and the word is let go.
    pub fn push(&mut self, word: Vec<Letter>) -> Result<(), AllocError>
        ensures ok { OnOk result (self.new ≡ self.old ++ word.items ∷ []) }
        ensures err { OnErr result (self.new ≡ self.old) }
    {
        self.words.push(word)?;
        Ok(())
    }

    /// The words in their order.
    pub fn as_slice(&self) -> &[Vec<Letter>]
        ensures { map (λ w. w.items) result.now ≡ self.now }
    {
        &self.words
    }

    /// How often the word stands in the list.
    pub fn count(&self, word: &[Letter]) -> usize
        ensures { result ≡ sum_of self.now word.now }
    {
        let mut places = 0;
        for other in self.as_slice() {
            if is_same(word, other) {
                places += 1;
            }
        }
        places
    }
}

/// Whether the two words are one.
fn is_same(u: &[Letter], v: &[Letter]) -> bool
    ensures { result ≡ same_word u.now v.now }
{
    u == v
}

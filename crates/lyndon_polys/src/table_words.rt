//! The words of a table.
use word_letters::Word;
use word_sums::WordTest;

/// Whether a word is admissible, of this weight, and at most so deep.
#[derive(Drop)]
pub(crate) struct TableWords {
    pub(crate) weight: u32,
    pub(crate) depth: u32,
}

impl WordTest for TableWords {
    ghost use Rattle.lyndon_polys.specs.Tables.{is_table_word};

    ghost passes = { λ test w. is_table_word test.weight test.depth w };

    fn passes(&self, w: Word) -> bool {
        w.is_admissible() && w.weight() == self.weight && w.depth() <= self.depth
    }
}

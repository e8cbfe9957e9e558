//! The order of words: x is below y, and a proper prefix is below the longer word. It is the order of the packed numbers.
use crate::word::Word;
use std::cmp::Ordering;
use std::hash::{Hash, Hasher};

impl PartialEq for Word {
    ghost use Rattle.std.specs.Ordering.{eq_by_cmp};
    ghost use Rattle.zeta_model.specs.Words.{word_cmp};
    ghost use Rattle.word_letters.specs.Order.{word_eq_laws};

    ghost eq = { eq_by_cmp word_cmp };

    ghost laws = { word_eq_laws };

    fn eq(&self, other: &Word) -> bool {
        self.packed == other.packed
    }
}

impl Eq for Word {
    ghost use Rattle.word_letters.specs.Order.{word_eq_equiv};

    ghost laws = { word_eq_equiv };
}

impl PartialOrd for Word {
    ghost use Rattle.std.specs.Ordering.{as_partial_cmp};
    ghost use Rattle.zeta_model.specs.Words.{word_cmp};
    ghost use Rattle.word_letters.specs.Order.{word_partial_laws};

    ghost partial_cmp = { as_partial_cmp word_cmp };

    ghost laws = { word_partial_laws };

    fn partial_cmp(&self, other: &Word) -> Option<Ordering> {
        Some(self.cmp(other))
    }
}

impl Ord for Word {
    ghost use Rattle.zeta_model.specs.Words.{word_cmp};
    ghost use Rattle.std.specs.Prelude.{refl};
    ghost use Rattle.word_letters.specs.Order.{word_cmp_total};

    ghost cmp = { word_cmp };

    ghost total = { word_cmp_total };

    ghost matches_partial_cmp = { λ _ _. refl };

    ghost matches_eq = { λ _ _. refl };

    fn cmp(&self, other: &Word) -> Ordering {
        self.packed.cmp(&other.packed)
    }
}

impl Hash for Word {
    ghost use Rattle.std.specs.Hash as fed;
    ghost use Rattle.word_letters.specs.Packing.{packed_of};
    ghost use Rattle.word_letters.specs.Order.{same_packed};

    ghost hash_input = { λ w. fed.u32 (packed_of w) };

    ghost respects_eq = { same_packed };

    fn hash<H: Hasher>(&self, state: &mut H) {
        self.packed.hash(state);
    }
}

//! A monomial with what the lead order asks of it, so that columns can be sorted.
ghost use Rattle.std.specs.Prelude.{◌≡◌, ℕ, ◌-◌, ◌≤◌, List, [], ◌∷◌, Some, slice_get, IsTrue, IfOk};
ghost use Rattle.zeta_model.specs.declared.Letter.{Letter};
ghost use Rattle.zeta_model.specs.WordLists.{admissible_within};
ghost use Rattle.zeta_model.specs.Words.{is_admissible};
ghost use Rattle.zeta_model.specs.declared.Letter.TheVariants.{X};
ghost use Rattle.column_order.specs.Ranks.{rank_of};
ghost use Rattle.column_order.specs.Rules.{IsRule};
ghost use Rattle.column_order.specs.Inner.{AreColumns, AreOf};

use crate::lead_order::{Standing, lead_order};
use crate::rank_rule::RankRule;
use lyndon_words::{Monomial, factors};
use std::alloc::{AllocError, Global};
use std::cmp::Ordering;
use word_letters::Word;

/// A monomial beside its standing. Columns increase in the lead order of monomials.
#[derive(Drop)]
pub(crate) struct Column {
    pub(crate) monomial: Monomial,
    pub(crate) standing: Standing,
}

impl PartialEq for Column {
    ghost use Rattle.std.specs.Ordering.{eq_by_cmp};
    ghost use Rattle.column_order.specs.Inner.{column_cmp};
    ghost use Rattle.column_order.specs.ColumnLaws.{column_eq_laws};

    ghost eq = { eq_by_cmp column_cmp };

    ghost laws = { column_eq_laws };

    fn eq(&self, other: &Column) -> bool {
        self.cmp(other).is_eq()
    }
}

impl Eq for Column {
    ghost use Rattle.column_order.specs.ColumnLaws.{column_eq_equiv};

    ghost laws = { column_eq_equiv };
}

impl PartialOrd for Column {
    ghost use Rattle.std.specs.Ordering.{as_partial_cmp};
    ghost use Rattle.column_order.specs.Inner.{column_cmp};
    ghost use Rattle.column_order.specs.ColumnLaws.{column_partial_laws};

    ghost partial_cmp = { as_partial_cmp column_cmp };

    ghost laws = { column_partial_laws };

    fn partial_cmp(&self, other: &Column) -> Option<Ordering> {
        Some(self.cmp(other))
    }
}

impl Ord for Column {
    ghost use Rattle.std.specs.Prelude.{refl};
    ghost use Rattle.column_order.specs.Inner.{column_cmp};
    ghost use Rattle.column_order.specs.ColumnLaws.{column_cmp_total};

    ghost cmp = { column_cmp };

    ghost total = { column_cmp_total };

    ghost matches_partial_cmp = { λ _ _. refl };

    ghost matches_eq = { λ _ _. refl };

    fn cmp(&self, other: &Column) -> Ordering {
        lead_order(
            &self.monomial,
            self.standing,
            &other.monomial,
            other.standing,
        )
    }
}

/// The columns of the words of a weight and a depth with their standings, in lead order.
pub(crate) fn sorted_columns<F: Fn(Word) -> u32>(
    alloc: Global,
    w: u32,
    d: u32,
    words: &[Word],
    rule: &RankRule<F>,
) -> Result<Vec<Column>, AllocError>
    requires least { 2 ≤ w }
    requires rule { IsRule F.Fn rule.now }
    requires words { words.now ≡ admissible_within w d }
    ensures { IfOk result (λ columns. AreColumns (rank_of rule.now.preference) w d columns.items) }
{
    let mut columns = columns_of(alloc, words, rule)?;
    columns.sort()?;
    Ok(columns)
}

/// The columns of admissible words with their standings, one behind the other.
fn columns_of<F: Fn(Word) -> u32>(
    alloc: Global,
    words: &[Word],
    rule: &RankRule<F>,
) -> Result<Vec<Column>, AllocError>
    requires rule { IsRule F.Fn rule.now }
    requires admissible { (k : ℕ) (u : List Letter) → slice_get words.now k ≡ Some u → IsTrue (is_admissible u) }
    ensures { IfOk result (λ columns. AreOf (rank_of rule.now.preference) words.now columns.items) }
{
    let mut columns = Vec::with_capacity(alloc, words.len())?;
    for word in words {
        let monomial = factors(alloc, *word);
        let standing = rule.standing(&monomial);
        columns.push(Column { monomial, standing })?;
    }
    Ok(columns)
}

//! Which of two monomials comes first.
ghost use Rattle.std.specs.Prelude.{◌≡◌, ◌↔◌, IsTrue};
ghost use Rattle.std.specs.Cmp.Lexicographic.{slice_cmp};
ghost use Rattle.zeta_model.specs.Words.{word_cmp};
ghost use Rattle.column_order.specs.LeadOrder.{Leads};
ghost use Rattle.column_order.specs.Ranks.{rank_of};
ghost use Rattle.column_order.specs.Rules.{IsRule};
ghost use Rattle.column_order.specs.Inner.{standing_cmp};

use crate::rank_rule::RankRule;
use lyndon_words::Monomial;
use std::cmp::Ordering;
use word_letters::Word;

/// What the lead order asks of a monomial beside its factors: the sum of their ranks, and the depth.
#[derive(Clone, Copy)]
pub(crate) struct Standing {
    pub(crate) ranks: u32,
    pub(crate) depth: u32,
}

/// Whether a comes strictly before b in the lead order: it has fewer factors; of those with as many, the greater sum of ranks; then the
/// greater depth; then the greater list of factors, compared factor by factor. The ranks are those of the rule's preference.
pub fn leads<F: Fn(Word) -> u32>(rule: &RankRule<F>, a: &Monomial, b: &Monomial) -> bool
    requires rule { IsRule F.Fn rule.now }
    ensures { IsTrue result ↔ Leads (rank_of rule.now.preference) a.now b.now }
{
    lead_order(a, rule.standing(a), b, rule.standing(b)) == Ordering::Less
}

/// The lead order of two monomials with their standings.
pub(crate) fn lead_order(
    a: &Monomial,
    a_stands: Standing,
    b: &Monomial,
    b_stands: Standing,
) -> Ordering
    ensures { result ≡ standing_cmp a.now a_stands b.now b_stands }
{
    a.len()
        .cmp(&b.len())
        .then_with(|| b_stands.ranks.cmp(&a_stands.ranks))
        .then_with(|| b_stands.depth.cmp(&a_stands.depth))
        .then_with(|| factor_order(b, a))
}

/// The order of two lists of factors, compared factor by factor.
fn factor_order(a: &Monomial, b: &Monomial) -> Ordering
    ensures { result ≡ slice_cmp word_cmp a.now b.now }
{
    for i in 0..a.len().min(b.len()) {
        let order = a.factor(i).cmp(&b.factor(i));
        if order.is_ne() {
            return order;
        }
    }
    a.len().cmp(&b.len())
}

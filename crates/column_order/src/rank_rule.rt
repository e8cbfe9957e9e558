//! A function that ranks words, beside the preference whose ranks it answers.
ghost use Rattle.std.specs.Prelude.{◌≡◌};
ghost use Rattle.lyndon_words.specs.Monomials.{IsMonomial};
ghost use Rattle.column_order.specs.LeadOrder.{rank_sum};
ghost use Rattle.column_order.specs.Ranks.{AnswersRank, rank_of};
ghost use Rattle.column_order.specs.Rules.{IsRule};
ghost use Rattle.column_order.specs.Inner.{IsStanding};

use crate::lead_order::Standing;
use crate::ranks::Preference;
use lyndon_words::Monomial;
use word_letters::Word;

/// A function that may be called on every admissible Lyndon word of weight 2 to 24 and answers there the rank of the preference. Each call
/// that asks a rule has that fact as its condition, and [`RankRule::new`] hands it on.
#[derive(Drop)]
pub struct RankRule<F: Fn(Word) -> u32> {
    preference: Preference,
    function: F,
}

impl<F: Fn(Word) -> u32> RankRule<F> {
    /// The rule of the function.
    pub fn new(preference: Preference, function: F) -> RankRule<F>
        requires answers { AnswersRank F.Fn function preference }
        ensures preference { result.preference ≡ preference }
        ensures rule { IsRule F.Fn result }
    {
        RankRule {
            preference,
            function,
        }
    }

    /// The preference whose ranks the function answers.
    pub fn preference(&self) -> &Preference
        ensures { result.now ≡ self.now.preference }
    {
        &self.preference
    }

    /// The sum of ranks and the depth of a monomial.
    pub(crate) fn standing(&self, p: &Monomial) -> Standing
        requires rule { IsRule F.Fn self.now }
        ensures standing { IsStanding (rank_of self.now.preference) p.now result }
        ensures monomial { IsMonomial p.now }
    {
        Standing {
            ranks: self.rank_sum(p),
            depth: p.depth(),
        }
    }

    /// The sum of the ranks of the factors.
    fn rank_sum(&self, p: &Monomial) -> u32
        requires rule { IsRule F.Fn self.now }
        ensures sum { result ≡ rank_sum (rank_of self.now.preference) p.now }
        ensures monomial { IsMonomial p.now }
    {
        let mut sum = 0;
        for i in 0..p.len() {
            sum += (self.function)(p.factor(i));
        }
        sum
    }
}

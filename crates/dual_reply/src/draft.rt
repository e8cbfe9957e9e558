//! What has been made of the tokens read so far.
ghost use Rattle.std.specs.Prelude.{◌≡◌, ℕ, OnOk, Option, Result};
ghost use Rattle.std.specs.Result.{MatchResult};
ghost use Rattle.std.specs.List.{list_all};
ghost use Rattle.zeta_model.specs.Words.{is_admissible};
ghost use Rattle.dual_reply.specs.Inner.{with_zeta, on_mark, start, is_plain, judged};

use crate::refusal::Refusal;
use crate::words::Signed;
use line_tokens::Mark;
use smallvec::SmallVec;
use std::alloc::{AllocError, Global};
use std::marker::Model;
use word_letters::{IndexFault, Word};

/// The words of the zetas of a weight of at most 24 with their signs, the weight of the first other zeta, and the sign
/// and the numbers of the last zeta.
#[derive(Drop)]
pub struct Draft {
    terms: SmallVec<Signed, 8>,
    heavy: Option<u128>,
    negative: bool,
    index: SmallVec<u32, 24>,
}

impl Model for Draft {
    ghost use Rattle.dual_reply.specs.Inner.{DraftForm, draft_code};

    ghost Value = { DraftForm };

    ghost coded = { draft_code };

    ghost view = { λ d. record { terms = d.terms.items; heavy = d.heavy; negative = d.negative; index = d.index.items } };
}

/// Whether each word is admissible.
fn are_admissible(terms: &[Signed]) -> bool
    ensures { result ≡ list_all (λ s. is_admissible s.word) terms.now }
{
    terms.iter().all(|term| term.word.is_admissible())
}

impl Draft {
    /// The draft of no tokens.
    pub fn new(alloc: Global) -> Self
        ensures { result ≡ start }
    {
        Draft {
            terms: SmallVec::new(alloc),
            heavy: None,
            negative: false,
            index: SmallVec::new(alloc),
        }
    }

    /// Adds the zeta of the last index.
    fn close(&mut self) -> Result<(), AllocError>
        ensures { OnOk result (self.new ≡ with_zeta self.old) }
    {
        match Word::from_index(&self.index) {
            Ok(word) => {
                let negative = self.negative;
                self.terms.push(Signed { negative, word })?;
            }
            Err(IndexFault::TooLong(weight)) => {
                if self.heavy.is_none() {
                    self.heavy = Some(weight);
                }
            }
            // Neither comes from a line: an index has numbers, and none of them is 0.
            Err(IndexFault::EmptyIndex) => {}
            Err(IndexFault::ZeroIndex(_)) => {}
        }
        Ok(())
    }

    /// Takes a mark, with the value of the last run of digits.
    pub fn take(&mut self, mark: Mark, number: u32) -> Result<(), AllocError>
        ensures { OnOk result (self.new ≡ on_mark mark number self.old) }
    {
        match mark {
            Mark::Plus => self.negative = false,
            Mark::Minus => self.negative = true,
            Mark::Open => self.index.clear(),
            Mark::Comma => self.index.push(number)?,
            Mark::Close => {
                self.index.push(number)?;
                self.close()?;
            }
            Mark::Star | Mark::Slash | Mark::Caret | Mark::Letter => {}
        }
        Ok(())
    }

    /// Whether each zeta is of weight at most 24, and its word is admissible.
    pub fn is_plain(&self) -> bool
        ensures { result ≡ is_plain self.now }
    {
        self.heavy.is_none() && are_admissible(&self.terms)
    }

    /// The words of the zetas with their signs, or the refusal of the line, where the byte of the first index that begins with 1 is
    /// given.
    pub fn judged(self, one: Option<usize>) -> Result<SmallVec<Signed, 8>, Refusal>
        ensures { MatchResult result (λ terms. judged one self.heavy self.terms ≡ Result.Ok terms.items) (λ refusal. judged one self.heavy self.terms ≡ Result.Err refusal) }
    {
        if let Some(at) = one {
            return Err(Refusal::NotAdmissible(at));
        }
        if let Some(weight) = self.heavy {
            return Err(Refusal::WeightIs(weight));
        }
        Ok(self.terms)
    }
}

//! What has been made of the tokens read so far.
ghost use Rattle.std.specs.Prelude.{◌≡◌, ◌<◌, [], ◌∷◌, ◌++◌, OnOk};
ghost use Rattle.zeta_expr.specs.declared.expr.Factor.{Factor};
ghost use Rattle.zeta_expr.specs.Drafts.{with_factor, with_term, signed, maker, start};
ghost use Rattle.zeta_expr.specs.Limits.{limit};

use crate::expr::{Expr, Factor, Term};
use crate::index_list::IndexList;
use crate::place::Place;
use line_tokens::{LineMaker, Mark};
use std::alloc::{AllocError, Global};
use std::marker::Model;
use std::mem;

/// The terms before the last, the last one's sign and factors, the last index, and the last number before `/`.
#[derive(Drop)]
pub(crate) struct Draft {
    pub terms: Vec<Term>,
    negative: bool,
    factors: Vec<Factor>,
    word: IndexList,
    top: u128,
}

impl Model for Draft {
    ghost use Rattle.zeta_expr.specs.Drafts.{DraftForm, draft_code};

    ghost Value = { DraftForm };

    ghost coded = { draft_code };

    ghost view = { λ d. record { terms = d.terms.items; negative = d.negative; factors = d.factors.items; word = d.word; top = d.top } };
}

impl Draft {
    /// The draft of no tokens.
    pub(crate) fn new(alloc: Global) -> Self
        ensures { result ≡ start }
    {
        Draft {
            terms: Vec::new(alloc),
            negative: false,
            factors: Vec::new(alloc),
            word: IndexList::new(alloc),
            top: 0,
        }
    }

    /// The terms.
    pub(crate) fn into_expr(self) -> Expr
        ensures { result ≡ self.terms }
    {
        Expr { terms: self.terms }
    }

    /// Adds the zeta of the last index.
    fn add_zeta(&mut self, alloc: Global, power: u32) -> Result<(), AllocError>
        ensures { OnOk result (self.new ≡ record self.old { factors = self.old.factors ++ Factor.Zeta self.old.word power ∷ []; word = [] }) }
    {
        let word = mem::replace(&mut self.word, IndexList::new(alloc));
        self.factors.push(Factor::Zeta { word, power })?;
        Ok(())
    }

    /// Adds the factor that ends at a place, where one does.
    pub(crate) fn add_factor(
        &mut self,
        alloc: Global,
        place: Place,
        number: u128,
    ) -> Result<(), AllocError>
        requires { number < limit place }
        ensures { OnOk result (self.new ≡ with_factor place number self.old) }
    {
        match place {
            Place::AfterTop => {
                self.factors.push(Factor::Number {
                    top: number,
                    bottom: None,
                })?;
                Ok(())
            }
            Place::AfterBottom => {
                let top = self.top;
                self.factors.push(Factor::Number {
                    top,
                    bottom: Some(number),
                })?;
                Ok(())
            }
            Place::AfterZeta => self.add_zeta(alloc, 1),
            Place::AfterPower => self.add_zeta(alloc, number as u32),
            _ => Ok(()),
        }
    }

    /// Adds the last term.
    pub(crate) fn add_term(&mut self, alloc: Global) -> Result<(), AllocError>
        ensures { OnOk result (self.new ≡ with_term self.old) }
    {
        let factors = mem::replace(&mut self.factors, Vec::new(alloc));
        let negative = self.negative;
        self.terms.push(Term { negative, factors })?;
        Ok(())
    }

    /// Begins a term with its sign, behind the last one where there is one.
    fn sign(
        &mut self,
        alloc: Global,
        negative: bool,
        place: Place,
        number: u128,
    ) -> Result<(), AllocError>
        requires { number < limit place }
        ensures { OnOk result (self.new ≡ signed negative place number self.old) }
    {
        match place {
            Place::Start => {}
            _ => {
                self.add_factor(alloc, place, number)?;
                self.add_term(alloc)?;
            }
        }
        self.negative = negative;
        Ok(())
    }
}

impl LineMaker<Place> for Draft {
    ghost maker = { maker };

    fn take(
        &mut self,
        alloc: Global,
        place: Place,
        mark: Mark,
        number: u128,
    ) -> Result<(), AllocError> {
        match mark {
            Mark::Plus => self.sign(alloc, false, place, number),
            Mark::Minus => self.sign(alloc, true, place, number),
            Mark::Star => self.add_factor(alloc, place, number),
            Mark::Slash => {
                self.top = number;
                Ok(())
            }
            Mark::Letter => {
                self.word = IndexList::new(alloc);
                Ok(())
            }
            Mark::Comma | Mark::Close => self.word.push(number as u32),
            Mark::Open | Mark::Caret => Ok(()),
        }
    }

    fn end(&mut self, alloc: Global, place: Place, number: u128) -> Result<(), AllocError> {
        self.add_factor(alloc, place, number)?;
        self.add_term(alloc)
    }
}

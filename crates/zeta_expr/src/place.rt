//! The places of the whole grammar.
ghost use Rattle.std.specs.Prelude.{◌≡◌};
ghost use Rattle.zeta_expr.specs.Tails.{tails, alternating};
ghost use Rattle.zeta_expr.specs.Limits.{limit, holds_runs, holds_marks, limit_small};
ghost use Rattle.zeta_expr.specs.Places.{places, after_factor};

use line_tokens::{Mark, Places, Run};

/// Where a reader stands: behind the token that it has read last.
#[derive(Clone, Copy)]
pub(crate) enum Place {
    /// Nothing has been read.
    Start,
    /// Behind a sign or `*`.
    BeforeFactor,
    /// Behind a number that begins a factor.
    AfterTop,
    /// Behind `/`.
    BeforeBottom,
    /// Behind the number that stands behind `/`.
    AfterBottom,
    /// Behind the letter `z`.
    AfterLetter,
    /// Behind `(` or `,`.
    BeforeIndex,
    /// Behind a number of an index.
    AfterIndex,
    /// Behind `)`.
    AfterZeta,
    /// Behind `^`.
    BeforePower,
    /// Behind a power.
    AfterPower,
}

/// Where a mark takes the reader that stands behind a factor.
fn after_factor(mark: Mark) -> Option<Place>
    ensures { result ≡ after_factor mark }
{
    match mark {
        Mark::Star | Mark::Plus | Mark::Minus => Some(Place::BeforeFactor),
        _ => None,
    }
}

/// A number of up to `more` digits behind its first.
fn run(lowest: u8, more: u8, next: Place) -> Option<Run<Place>>
    ensures { result ≡ Some (record { lowest = lowest; more = more; next = next }) }
{
    Some(Run { lowest, more, next })
}

impl Places for Place {
    ghost machine = { places };

    ghost limit = { limit };

    fn after_mark(self, mark: Mark) -> Option<Place> {
        match self {
            Place::Start => match mark {
                Mark::Plus | Mark::Minus => Some(Place::BeforeFactor),
                Mark::Letter => Some(Place::AfterLetter),
                _ => None,
            },
            Place::BeforeFactor => match mark {
                Mark::Letter => Some(Place::AfterLetter),
                _ => None,
            },
            Place::AfterTop => match mark {
                Mark::Slash => Some(Place::BeforeBottom),
                _ => after_factor(mark),
            },
            Place::AfterLetter => match mark {
                Mark::Open => Some(Place::BeforeIndex),
                _ => None,
            },
            Place::AfterIndex => match mark {
                Mark::Comma => Some(Place::BeforeIndex),
                Mark::Close => Some(Place::AfterZeta),
                _ => None,
            },
            Place::AfterZeta => match mark {
                Mark::Caret => Some(Place::BeforePower),
                _ => after_factor(mark),
            },
            Place::AfterBottom | Place::AfterPower => after_factor(mark),
            Place::BeforeBottom | Place::BeforeIndex | Place::BeforePower => None,
        }
    }

    fn run_at(self) -> Option<Run<Place>> {
        match self {
            Place::Start | Place::BeforeFactor => run(b'0', 37, Place::AfterTop),
            Place::BeforeBottom => run(b'0', 37, Place::AfterBottom),
            Place::BeforeIndex => run(b'1', 2, Place::AfterIndex),
            Place::BeforePower => run(b'0', 1, Place::AfterPower),
            _ => None,
        }
    }

    fn ends(self) -> bool {
        match self {
            Place::AfterTop | Place::AfterBottom | Place::AfterZeta | Place::AfterPower => true,
            _ => false,
        }
    }

    ghost productive = { tails };

    ghost alternating = { alternating };

    ghost holds_runs = { holds_runs };

    ghost holds_marks = { holds_marks };

    ghost limit_small = { limit_small };
}

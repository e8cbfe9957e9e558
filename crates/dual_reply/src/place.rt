//! The places of the grammar.
ghost use Rattle.dual_reply.specs.Places.{places, limit};
ghost use Rattle.dual_reply.specs.Tails.{tails, alternating, holds_runs, holds_marks, limit_small};

use line_tokens::{Mark, Places, Run};

/// Where a reader stands: behind the token that it has read last.
#[derive(Clone, Copy)]
pub enum Place {
    /// Nothing has been read.
    Start,
    /// Behind a sign.
    BeforeZeta,
    /// Behind the letter `z`.
    AfterLetter,
    /// Behind `(` or `,`.
    BeforeIndex,
    /// Behind a number of an index.
    AfterIndex,
    /// Behind `)`.
    AfterZeta,
}

impl Places for Place {
    ghost machine = { places };

    ghost limit = { limit };

    fn after_mark(self, mark: Mark) -> Option<Place> {
        match self {
            Place::Start => match mark {
                Mark::Plus | Mark::Minus => Some(Place::BeforeZeta),
                Mark::Letter => Some(Place::AfterLetter),
                _ => None,
            },
            Place::BeforeZeta => match mark {
                Mark::Letter => Some(Place::AfterLetter),
                _ => None,
            },
            Place::AfterLetter => match mark {
                Mark::Open => Some(Place::BeforeIndex),
                _ => None,
            },
            Place::BeforeIndex => None,
            Place::AfterIndex => match mark {
                Mark::Comma => Some(Place::BeforeIndex),
                Mark::Close => Some(Place::AfterZeta),
                _ => None,
            },
            Place::AfterZeta => match mark {
                Mark::Plus | Mark::Minus => Some(Place::BeforeZeta),
                _ => None,
            },
        }
    }

    fn run_at(self) -> Option<Run<Place>> {
        match self {
            Place::BeforeIndex => Some(Run {
                lowest: b'1',
                more: 2,
                next: Place::AfterIndex,
            }),
            _ => None,
        }
    }

    fn ends(self) -> bool {
        match self {
            Place::AfterZeta => true,
            _ => false,
        }
    }

    ghost productive = { tails };

    ghost alternating = { alternating };

    ghost holds_runs = { holds_runs };

    ghost holds_marks = { holds_marks };

    ghost limit_small = { limit_small };
}

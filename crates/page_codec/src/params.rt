//! What a table is of.
ghost use Rattle.std.specs.Prelude.{◌≡◌, ◌↔◌, IsTrue};
ghost use Rattle.page_codec.specs.Tests.{mode_of};

use column_order::{Mode, Preference, Preferred};

/// The weight, the greatest depth, the modulus, the order (0 lex, 1 odd) and the preferred words of a table.
#[derive(Clone, Copy, PartialEq, Eq)]
pub struct Params {
    pub weight: u32,
    pub depth: u32,
    pub modulus: u64,
    pub order: u8,
    pub preferred: Preferred,
}

impl Params {
    /// What orders the columns of the table.
    pub fn preference(&self) -> Preference
        ensures mode { result.mode ≡ mode_of self.now.order }
        ensures words { result.words ≡ self.now.preferred }
    {
        let mode = match self.order {
            0 => Mode::Lex,
            _ => Mode::Odd,
        };
        Preference {
            mode,
            words: self.preferred,
        }
    }
}

/// Whether they are the same parameters.
pub(crate) fn are_same(a: &Params, b: &Params) -> bool
    ensures { IsTrue result ↔ (a.now ≡ b.now) }
{
    a.weight == b.weight
        && a.depth == b.depth
        && a.modulus == b.modulus
        && a.order == b.order
        && are_same_words(&a.preferred, &b.preferred)
}

fn are_same_words(a: &Preferred, b: &Preferred) -> bool
    ensures { IsTrue result ↔ (a.now ≡ b.now) }
{
    if a.len() != b.len() {
        return false;
    }
    for i in 0..a.len() {
        if a.at(i) != b.at(i) {
            return false;
        }
    }
    true
}

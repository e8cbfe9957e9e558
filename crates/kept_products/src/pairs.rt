//! Pairs of words, and which product of them is meant.
ghost use Rattle.std.specs.Prelude.{◌≡◌, ◌⊎◌};

use word_letters::Word;

/// Which product.
#[derive(Clone, Copy, PartialEq, Eq, Hash)]
pub(crate) enum Kind {
    Shuffle,
    Stuffle,
}

/// A product of two words. The lesser word stands first, for u v and v u are one product.
#[derive(Clone, Copy, PartialEq, Eq, Hash)]
pub(crate) struct Pair {
    pub(crate) kind: Kind,
    pub(crate) u: Word,
    pub(crate) v: Word,
}

impl Pair {
    /// The pair of the two words, in either order.
    pub(crate) fn new(kind: Kind, u: Word, v: Word) -> Pair
        ensures { (result ≡ record { kind = kind; u = u; v = v }) ⊎ (result ≡ record { kind = kind; u = v; v = u }) }
    {
        if v < u {
            return Pair { kind, u: v, v: u };
        }
        Pair { kind, u, v }
    }
}

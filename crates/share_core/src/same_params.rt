//! Whether parameters are the same.
ghost use Rattle.std.specs.Prelude.{◌≡◌, ◌↔◌, IsTrue};

use column_order::Preferred;
use page_codec::Params;

/// Whether they are the same parameters.
pub(crate) fn are_same(a: &Params, b: &Params) -> bool
    ensures { IsTrue result ↔ (a.now ≡ b.now) }
{
    a.weight == b.weight
        && a.depth == b.depth
        && a.modulus == b.modulus
        && a.order == b.order
        && are_same_words(&a.preferred, &b.preferred)
}

fn are_same_words(a: &Preferred, b: &Preferred) -> bool
    ensures { IsTrue result ↔ (a.now ≡ b.now) }
{
    if a.len() != b.len() {
        return false;
    }
    for i in 0..a.len() {
        if a.at(i) != b.at(i) {
            return false;
        }
    }
    true
}

//! Which shares of a table are at hand.
ghost use Rattle.std.specs.Prelude.{◌↔◌, IfSome, IfNone, IsTrue};
ghost use Rattle.share_merge.specs.Turns.{HasIndex, HasAll, IsLeastMissing};

use residues::Ring;
use share_model::CheckedShare;

/// The least index below `of` that no share of the list has.
pub(crate) fn first_missing<R: Ring>(shares: &[CheckedShare<R>], of: u32) -> Option<u32>
    ensures missing { IfSome result (IsLeastMissing of shares.now) }
    ensures all { IfNone result (HasAll of shares.now) }
{
    for index in 0..of {
        if !has_index(shares, index) {
            return Some(index);
        }
    }
    None
}

/// Whether a share of the list has the index.
pub(crate) fn has_index<R: Ring>(shares: &[CheckedShare<R>], index: u32) -> bool
    ensures { IsTrue result ↔ HasIndex shares.now index }
{
    for share in shares {
        if share.id().index == index {
            return true;
        }
    }
    false
}

//! Numbers of relations, and whether they are in a share.
ghost use Rattle.std.specs.Prelude.{◌≡◌, ℕ, ◌<◌, ◌^◌, ◌↔◌, [], length, get_or, IsTrue, MatchOption};
ghost use Rattle.table_model.specs.Faults.{IsFirstWithout};
ghost use Rattle.share_model.specs.Dealing.{InShare};
ghost use Rattle.share_check.specs.Inner.{AreOfShare};

use residues::Ring;
use share_model::ShareId;
use sparse_rows::Combination;

/// Whether relation `n` is in the share.
pub(crate) fn is_in_share(id: ShareId, n: u32) -> bool
    requires { 0 < id.of }
    ensures { IsTrue result ↔ InShare id.index id.of n }
{
    n % id.of == id.index
}

/// Whether all numbers of a combination are in the share.
fn is_of_share<R: Ring>(id: ShareId, combination: &Combination<R>) -> bool
    requires { 0 < id.of }
    ensures { IsTrue result ↔ AreOfShare id.index id.of combination.now }
{
    let entries = combination.entries();
    for entry in entries {
        if !is_in_share(id, entry.0) {
            return false;
        }
    }
    true
}

/// The place of the first combination that has a number of another share, `None` where none has.
pub(crate) fn first_foreign<R: Ring>(id: ShareId, combinations: &[Combination<R>]) -> Option<u32>
    requires some { 0 < id.of }
    requires few { length combinations.now < 2 ^ 32 }
    ensures { MatchOption result ((k : ℕ) → k < length combinations.now → AreOfShare id.index id.of (get_or combinations.now k []))
        (λ i. IsFirstWithout (λ k. AreOfShare id.index id.of (get_or combinations.now k [])) (length combinations.now) i) }
{
    for i in 0..combinations.len() {
        if !is_of_share(id, &combinations[i]) {
            return Some(i as u32);
        }
    }
    None
}

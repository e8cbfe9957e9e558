//! The two lists that a coordinator keeps.
ghost use Rattle.std.specs.Prelude.{◌≡◌, ◌<◌, ◌↔◌, ℕ, [], IsTrue};
ghost use Rattle.share_merge.specs.Turns.{HasIndex, HasAll};
ghost use Rattle.share_core.specs.Lists.{IsGranted, IsFree, empty, without_index, without_worker};

use residues::Ring;
use share_model::CheckedShare;
use std::alloc::Global;
use std::marker::Model;

/// The counted shares in the order of counting, and the pairs of an index and the worker to whom it is granted, in the order of granting.
#[derive(Drop)]
pub(crate) struct ShareLists<R: Ring> {
    pub(crate) counted: Vec<CheckedShare<R>>,
    pub(crate) granted: Vec<(u32, u32)>,
}

impl<R: Ring> Model for ShareLists<R> {
    ghost use Rattle.share_core.specs.Lists.{Lists, lists_code};

    ghost Value = { Lists R R.Elem };

    ghost coded = { lists_code R.code R.Elem.code };

    ghost view = { λ lists. record { counted = lists.counted.items; granted = lists.granted.items } };
}

impl<R: Ring> ShareLists<R> {
    /// Lists of nothing.
    pub(crate) fn new(alloc: Global) -> ShareLists<R>
        ensures { result ≡ empty }
    {
        ShareLists {
            counted: Vec::new(alloc),
            granted: Vec::new(alloc),
        }
    }

    /// The counted shares.
    pub(crate) fn counted(&self) -> &[CheckedShare<R>]
        ensures { result.now ≡ self.now.counted }
    {
        &self.counted
    }

    /// Whether a share of the index is counted.
    pub(crate) fn is_counted(&self, index: u32) -> bool
        ensures { IsTrue result ↔ HasIndex self.now.counted index }
    {
        has_index(&self.counted, index)
    }

    /// Whether the index is neither counted nor granted.
    pub(crate) fn is_free(&self, index: u32) -> bool
        ensures { IsTrue result ↔ IsFree self.now index }
    {
        !has_index(&self.counted, index) && !is_granted(&self.granted, index)
    }
}

/// Whether one of the shares has the index.
fn has_index<R: Ring>(shares: &[CheckedShare<R>], index: u32) -> bool
    ensures { IsTrue result ↔ HasIndex shares.now index }
{
    for share in shares {
        if share.id().index == index {
            return true;
        }
    }
    false
}

/// Whether the index is granted.
fn is_granted(granted: &[(u32, u32)], index: u32) -> bool
    ensures { IsTrue result ↔ IsGranted granted.now index }
{
    granted.iter().any(|g| g.0 == index)
}

/// Takes the grant of the index away, if there is one.
pub(crate) fn take_index(granted: &mut Vec<(u32, u32)>, index: u32)
    ensures { granted.new.items ≡ without_index index granted.old.items }
{
    granted.retain(|g| g.0 != index);
}

/// Takes the grants of the worker away.
pub(crate) fn take_worker(granted: &mut Vec<(u32, u32)>, worker: u32)
    ensures { granted.new.items ≡ without_worker worker granted.old.items }
{
    granted.retain(|g| g.1 != worker);
}

/// Whether each index is that of one of the shares.
pub(crate) fn has_all<R: Ring>(shares: &[CheckedShare<R>], of: u32) -> bool
    ensures { IsTrue result ↔ HasAll of shares.now }
{
    for index in 0..of {
        if !has_index(shares, index) {
            return false;
        }
    }
    true
}

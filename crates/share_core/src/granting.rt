//! Grants.
ghost use Rattle.std.specs.Prelude.{◌≡◌, IfOk, OnErr, IfSome, IfNone};
ghost use Rattle.share_core.specs.Lists.{IsLeastFree, HasNoFree};
ghost use Rattle.share_core.specs.Steps.{Grants};

use crate::events::Answer;
use crate::lists::ShareLists;
use residues::Ring;
use std::alloc::AllocError;

/// Grants the least index that is neither counted nor granted to the worker.
pub(crate) fn grant<R: Ring>(
    lists: &mut ShareLists<R>,
    of: u32,
    worker: u32,
) -> Result<Answer, AllocError>
    ensures ok { IfOk result (λ answer. Grants of lists.old worker answer lists.new) }
    ensures err { OnErr result (lists.new ≡ lists.old) }
{
    match least_free(lists, of) {
        Some(index) => {
            lists.granted.push((index, worker))?;
            Ok(Answer::Granted(index))
        }
        None => Ok(Answer::NoneOpen),
    }
}

/// The least index below `of` that is neither counted nor granted.
fn least_free<R: Ring>(lists: &ShareLists<R>, of: u32) -> Option<u32>
    ensures some { IfSome result (IsLeastFree of lists.now) }
    ensures none { IfNone result (HasNoFree of lists.now) }
{
    for index in 0..of {
        if lists.is_free(index) {
            return Some(index);
        }
    }
    None
}

//! Deliveries of shares.
ghost use Rattle.std.specs.Prelude.{◌≡◌, IfOk, OnErr};
ghost use Rattle.share_core.specs.Steps.{Delivers};
ghost use Rattle.share_core.specs.Inner.{refused_by};

use crate::events::{Answer, Refusal};
use crate::fitting::fits;
use crate::lists::{ShareLists, take_index};
use crate::setting::TableSetting;
use residues::Ring;
use share_check::check_share;
use share_model::{Share, ShareFault};
use std::alloc::{AllocError, Global};

/// Counts the share, where it fits, its index is not counted, and its rows are a result of it.
pub(crate) fn deliver<R: Ring>(
    alloc: Global,
    setting: &TableSetting<R>,
    lists: &mut ShareLists<R>,
    share: &Share,
) -> Result<Answer, AllocError>
    ensures ok { IfOk result (λ answer. Delivers (R.value setting.now.table.ring) setting.now lists.old share.now answer lists.new) }
    ensures err { OnErr result (lists.new ≡ lists.old) }
{
    if !fits(setting, share) {
        return Ok(Answer::Refused(Refusal::Other));
    }
    let index = share.id.index;
    if lists.is_counted(index) {
        return Ok(Answer::Repeat(index));
    }
    match check_share(alloc, &setting.table, &setting.names, share) {
        Ok(checked) => {
            lists.counted.push(checked)?;
            take_index(&mut lists.granted, index);
            Ok(Answer::Counted(index))
        }
        Err(fault) => refused(fault),
    }
}

/// What is answered to a share with the fault. Want of memory is none of the share's.
fn refused(fault: ShareFault) -> Result<Answer, AllocError>
    ensures { result ≡ refused_by fault }
{
    match fault {
        ShareFault::Memory(fault) => Err(fault),
        fault => Ok(Answer::Refused(Refusal::Share(fault))),
    }
}

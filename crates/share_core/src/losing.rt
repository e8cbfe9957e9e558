//! Losses of workers, and restarts.
ghost use Rattle.std.specs.Prelude.{◌≡◌, ◌≤◌, length};
ghost use Rattle.share_core.specs.Steps.{Loses, Restarts};
ghost use Rattle.share_core.specs.declared.events.Answer.TheVariants.{Freed, Restarted};

use crate::lists::{ShareLists, take_worker};
use residues::Ring;

/// Takes the grants of the worker away, and says how many there were.
pub(crate) fn lose<R: Ring>(lists: &mut ShareLists<R>, worker: u32) -> u32
    requires { length lists.old.granted ≤ 256 }
    ensures { Loses lists.old worker (Freed result) lists.new }
{
    let before = lists.granted.len();
    take_worker(&mut lists.granted, worker);
    (before - lists.granted.len()) as u32
}

/// Takes all grants away.
pub(crate) fn restart<R: Ring>(lists: &mut ShareLists<R>)
    ensures { Restarts lists.old Restarted lists.new }
{
    lists.granted.clear();
}

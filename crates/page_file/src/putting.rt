//! Writes that are then made durable.
ghost use Rattle.std.specs.Prelude.{◌≡◌, ◌≤◌, ◌<◌, ◌+◌, length, take, IfSome, OnOk};
ghost use Rattle.outside_io.specs.Causes.{HasCause};
ghost use Rattle.page_file.specs.Stays.{Passes};
ghost use Rattle.page_file.specs.Puts.{IsPut, put_steps, IsCutBehind, cut_steps};

use outside_io::{Disk, Failed};

/// Writes, and syncs.
pub(crate) fn put<D: Disk>(disk: &mut D, at: u64, bytes: &[u8]) -> Result<(), Failed>
    requires { IfSome (D.trace disk.old) (λ t. at ≤ length t.now.contents) }
    ensures ok { OnOk result (D.trace disk.new ≡ put_steps at bytes.now (D.trace disk.old)) }
    ensures moments { Passes (IsPut at bytes.now) (D.trace disk.old) (D.trace disk.new) }
    ensures cause { HasCause (D.faults disk.old) (D.faults disk.new) result }
{
    disk.write_at(at, bytes)?;
    disk.sync()
}

/// Syncs, cuts, and syncs.
pub(crate) fn cut_behind<D: Disk>(disk: &mut D, end: u64) -> Result<(), Failed>
    requires { IfSome (D.trace disk.old) (λ t. end ≤ length t.now.contents) }
    ensures ok { OnOk result (D.trace disk.new ≡ cut_steps end (D.trace disk.old)) }
    ensures moments { Passes (IsCutBehind end) (D.trace disk.old) (D.trace disk.new) }
    ensures cause { HasCause (D.faults disk.old) (D.faults disk.new) result }
{
    disk.sync()?;
    disk.cut(end)?;
    disk.sync()
}

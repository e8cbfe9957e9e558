//! What is written behind the pages of a file.
ghost use Rattle.std.specs.Prelude.{◌≤◌, ◌<◌, ◌+◌, ◌^◌, length, IfSome};
ghost use Rattle.outside_io.specs.Causes.{HasCause};
ghost use Rattle.page_file.specs.Inner.{Clears, SealsBehind};

use crate::putting::{cut_behind, put};
use outside_io::{Disk, Failed};

/// Puts one closed gate in place of what stands from `end` on.
pub(crate) fn clear_behind<D: Disk>(disk: &mut D, end: u64) -> Result<(), Failed>
    requires { IfSome (D.trace disk.old) (λ t. end ≤ length t.now.contents) }
    ensures cleared { Clears end (D.trace disk.old) (D.trace disk.new) result }
    ensures cause { HasCause (D.faults disk.old) (D.faults disk.new) result }
{
    // The cut has to be on the disk first: behind a gate that is torn open, what was there would count.
    cut_behind(disk, end)?;
    put(disk, end, &[0])
}

/// Seals a page: it is on the disk, with a closed gate behind it, before the gate before it is opened.
pub(crate) fn seal_behind<D: Disk>(disk: &mut D, gate: u64, block: &[u8]) -> Result<(), Failed>
    requires small { gate + 1 < 2 ^ 64 }
    requires place { IfSome (D.trace disk.old) (λ t. gate < length t.now.contents) }
    ensures sealed { SealsBehind gate block.now (D.trace disk.old) (D.trace disk.new) result }
    ensures cause { HasCause (D.faults disk.old) (D.faults disk.new) result }
{
    put(disk, gate + 1, block)?;
    put(disk, gate, &[1])
}

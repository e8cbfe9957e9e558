//! Shares in files.
ghost use Rattle.std.specs.Prelude.{◌≡◌, ◌≤◌, ℕ, List, IfOk, IfSome, IsErrOf};
ghost use Rattle.outside_io.specs.Causes.{Rose};
ghost use Rattle.merge_runs.specs.Files.{ReadAs};
ghost use Rattle.merge_runs.specs.Inner.{HoldsShare};

use outside_io::Disk;
use share_file::decode_share;
use share_model::Share;
use std::alloc::Global;
use whole_files::{ReadFault, read_whole};

/// The most bytes that a share may have.
const SHARE_LIMIT: u32 = 100_663_296;

/// Why a file was not read.
#[derive(Drop)]
pub(crate) enum Unread {
    /// A call of the disk failed.
    DiskFault,
    /// Memory was wanting.
    Memory,
}

/// The share in a file, `None` exactly where there are more bytes than a share may have, or they are those of none.
pub(crate) fn share_of<D: Disk>(alloc: Global, disk: &mut D) -> Result<Option<Share>, Unread>
    ensures read { IfOk result (HoldsShare (D.trace disk.old)) }
    ensures disk_fault { IsErrOf result Unread.DiskFault → Rose (D.faults disk.old) (D.faults disk.new) }
    ensures same { D.trace disk.new ≡ D.trace disk.old }
    ensures faults { D.faults disk.old ≤ D.faults disk.new }
{
    let bytes = match read_whole(alloc, disk, SHARE_LIMIT) {
        Ok(bytes) => bytes,
        Err(ReadFault::TooLong(_)) => return Ok(None),
        Err(ReadFault::DiskFault) => return Err(Unread::DiskFault),
        Err(ReadFault::Memory(_)) => return Err(Unread::Memory),
    };
    match decode_share(alloc, &bytes) {
        Ok(found) => Ok(found),
        Err(_) => Err(Unread::Memory),
    }
}

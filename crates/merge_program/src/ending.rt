//! How a run ends after its last write.
ghost use Rattle.std.specs.Prelude.{◌≡◌};
ghost use Rattle.merge_program.specs.Inner.{end_after};

use crate::status::MergeStatus;
use outside_io::Failed;

// It ends so where all was written.
pub(crate) fn end_after(written: Result<(), Failed>, end: MergeStatus) -> MergeStatus
    ensures { result ≡ end_after written end }
{
    match written {
        Ok(()) => end,
        Err(_) => MergeStatus::WriteFault,
    }
}

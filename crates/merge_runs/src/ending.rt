//! Writing what a merge gives.
ghost use Rattle.std.specs.Prelude.{◌≡◌, ◌≤◌, Ok, map};
ghost use Rattle.outside_io.specs.Causes.{Rose};
ghost use Rattle.merge_program.specs.MergeWords.{IsDealt};
ghost use Rattle.merge_program.specs.ShareRuns.{Ends};
ghost use Rattle.merge_runs.specs.Disks.{AnyRose, NoneFell};
ghost use Rattle.merge_runs.specs.Outcomes.{IsOutcome};

use crate::merging::{BrokenOff, merged};
use merge_program::{MergeStatus, TableWords};
use outside_io::{Disk, Sink, write_all};
use std::alloc::Global;

// Writes all the bytes, and ends so.
fn write_and_end<K: Sink>(sink: &mut K, bytes: &[u8], end: MergeStatus) -> MergeStatus
    ensures { Ends bytes.now end (K.taken sink.old) (K.taken sink.new) (K.faults sink.old) (K.faults sink.new) result }
{
    match write_all(sink, bytes) {
        Ok(()) => end,
        Err(_) => MergeStatus::WriteFault,
    }
}

/// Merges the shares in the files, and writes what they give in one write.
pub(crate) fn merge_files<D: Disk, K: Sink>(
    alloc: Global,
    merge: &TableWords,
    disks: &mut [D],
    sink: &mut K,
) -> MergeStatus
    requires { IsDealt merge.now }
    ensures outcome { IsOutcome (Ok merge.now) (map D.trace disks.old) (K.taken sink.old) (K.taken sink.new) (K.faults sink.old) (K.faults sink.new) result }
    ensures same { map D.trace disks.new ≡ map D.trace disks.old }
    ensures faults { NoneFell (map D.faults disks.old) (map D.faults disks.new) }
    ensures sink_faults { K.faults sink.old ≤ K.faults sink.new }
    ensures disk_fault_only { result ≡ MergeStatus.DiskFault → AnyRose (map D.faults disks.old) (map D.faults disks.new) }
    ensures write_fault_only { result ≡ MergeStatus.WriteFault → Rose (K.faults sink.old) (K.faults sink.new) }
{
    match merged(alloc, merge, disks) {
        Ok(ending) => write_and_end(sink, ending.text.as_bytes(), ending.status),
        Err(BrokenOff::DiskFault) => MergeStatus::DiskFault,
        Err(BrokenOff::Memory) => MergeStatus::Memory,
    }
}

//! Files that a coordinator takes, one after the other.
ghost use Rattle.std.specs.Prelude.{◌≡◌, ◌≤◌, ◌<◌, ℕ, [], None, length, map, get_or, IsErrOf, OnOk};
ghost use Rattle.outside_io.specs.Causes.{Rose};
ghost use Rattle.lyndon_polys.specs.Tables.{RingTable};
ghost use Rattle.merge_program.specs.declared.words.TableWords.{TableWords};
ghost use Rattle.merge_runs.specs.declared.taking.NotAShare.{NotAShare};
ghost use Rattle.merge_runs.specs.Disks.{AnyRose, NoneFell};
ghost use Rattle.merge_runs.specs.Inner.{Stands, TakesFile, RefusesFile, HasTaken, HasRefused};

use crate::file_share::{Unread, share_of};
use outside_io::Disk;
use residues::Ring;
use share_core::{Answer, Coordinator, Event, Refusal};
use std::alloc::Global;

/// Why a file is not a share of the merge.
#[derive(Drop)]
pub(crate) enum NotAShare {
    /// It has more bytes than a share may have, or those of none.
    Unreadable,
    /// Its share is refused.
    Refused(Refusal),
}

/// Why a file was not taken.
#[derive(Drop)]
pub(crate) enum FileFault {
    /// A call of the disk failed.
    DiskFault,
    /// The file is not a share of the merge.
    NotAShare(NotAShare),
    /// Memory was wanting.
    Memory,
}

/// Why not all files were taken.
#[derive(Drop)]
pub(crate) enum TakingFault {
    /// A call of a disk failed.
    DiskFault,
    /// The file is the first that is not a share of the merge.
    NotAShare { file: u64, why: NotAShare },
    /// Memory was wanting.
    Memory,
}

/// Delivers the share in a file.
fn take_file<R: Ring, D: Disk>(
    alloc: Global,
    coordinator: &mut Coordinator<R>,
    disk: &mut D,
) -> Result<(), FileFault>
    ensures ok { OnOk result (TakesFile R.value (D.trace disk.old) coordinator.old coordinator.new) }
    ensures refused { (why : NotAShare) → IsErrOf result (FileFault.NotAShare why)
        → RefusesFile R.value (D.trace disk.old) coordinator.old why }
    ensures disk_fault { IsErrOf result FileFault.DiskFault → Rose (D.faults disk.old) (D.faults disk.new) }
    ensures same { D.trace disk.new ≡ D.trace disk.old }
    ensures faults { D.faults disk.old ≤ D.faults disk.new }
{
    let share = match share_of(alloc, disk) {
        Ok(Some(share)) => share,
        Ok(None) => return Err(FileFault::NotAShare(NotAShare::Unreadable)),
        Err(Unread::DiskFault) => return Err(FileFault::DiskFault),
        Err(Unread::Memory) => return Err(FileFault::Memory),
    };
    match coordinator.step(alloc, &Event::Deliver { share }) {
        Ok(Answer::Counted(_)) => Ok(()),
        Ok(Answer::Repeat(_)) => Ok(()),
        Ok(Answer::Refused(refusal)) => Err(FileFault::NotAShare(NotAShare::Refused(refusal))),
        Ok(_) => unreachable!(),
        Err(_) => Err(FileFault::Memory),
    }
}

/// Delivers the share in file `k`.
fn take_at<R: Ring, D: Disk>(
    alloc: Global,
    coordinator: &mut Coordinator<R>,
    disks: &mut [D],
    k: usize,
) -> Result<(), FileFault>
    requires { k < length disks.old }
    ensures ok { OnOk result (TakesFile R.value (get_or (map D.trace disks.old) k None) coordinator.old coordinator.new) }
    ensures refused { (why : NotAShare) → IsErrOf result (FileFault.NotAShare why)
        → RefusesFile R.value (get_or (map D.trace disks.old) k None) coordinator.old why }
    ensures disk_fault { IsErrOf result FileFault.DiskFault → AnyRose (map D.faults disks.old) (map D.faults disks.new) }
    ensures same { map D.trace disks.new ≡ map D.trace disks.old }
    ensures faults { NoneFell (map D.faults disks.old) (map D.faults disks.new) }
{
    take_file(alloc, coordinator, &mut disks[k])
}

/// Delivers the shares in all the files, in order, up to the first that is not a share of the merge.
pub(crate) fn take_files<R: Ring, D: Disk>(
    alloc: Global,
    coordinator: &mut Coordinator<R>,
    disks: &mut [D],
) -> Result<(), TakingFault>
    ensures ok { OnOk result ((merge : TableWords) (table : RingTable R) → Stands R.value merge table [] coordinator.old
        → HasTaken R.value merge table (map D.trace disks.old) coordinator.new) }
    ensures refused { (file : ℕ) (why : NotAShare) → IsErrOf result (TakingFault.NotAShare file why)
        → (merge : TableWords) (table : RingTable R) → Stands R.value merge table [] coordinator.old
        → HasRefused merge (map D.trace disks.old) file why }
    ensures disk_fault { IsErrOf result TakingFault.DiskFault → AnyRose (map D.faults disks.old) (map D.faults disks.new) }
    ensures same { map D.trace disks.new ≡ map D.trace disks.old }
    ensures faults { NoneFell (map D.faults disks.old) (map D.faults disks.new) }
{
    for k in 0..disks.len() {
        match take_at(alloc, coordinator, disks, k) {
            Ok(()) => {}
            Err(FileFault::DiskFault) => return Err(TakingFault::DiskFault),
            Err(FileFault::NotAShare(why)) => {
                return Err(TakingFault::NotAShare {
                    file: k as u64,
                    why,
                });
            }
            Err(FileFault::Memory) => return Err(TakingFault::Memory),
        }
    }
    Ok(())
}

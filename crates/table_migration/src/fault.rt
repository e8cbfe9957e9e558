//! Why a file was not migrated.
ghost use Rattle.std.specs.Prelude.{◌≡◌};
ghost use Rattle.table_migration.specs.declared.fault.MigrateFault.TheVariants.{ReadFault, Memory};
ghost use Rattle.table_migration.specs.Inner.{file_fault};

use outside_io::Failed;
use page_file::FileFault;
use std::alloc::AllocError;

/// Why a file was not migrated. Of `BadPage`, `Misfit` and `NotDone` the first in the source's bytes is told; `DiskFault`, `ReadFault` and
/// `Memory` come at any step.
#[derive(Drop)]
pub enum MigrateFault {
    /// A call of the disk failed.
    DiskFault,
    /// A call of the source failed.
    ReadFault,
    /// The disk is not empty. It tells how many bytes it has.
    Exists(u64),
    /// The first page that stands behind an open gate and is not spelled there, from 0.
    BadPage(u64),
    /// The first page that does not fit its place.
    Misfit(u64),
    /// So many pages fit, and reading ends behind them before a Done page.
    NotDone(u64),
    /// Memory was wanting.
    Memory(AllocError),
}

impl From<Failed> for MigrateFault {
    ghost from_gives = { λ _ e. e ≡ ReadFault };

    fn from(_fault: Failed) -> MigrateFault {
        MigrateFault::ReadFault
    }
}

impl From<AllocError> for MigrateFault {
    ghost from_gives = { λ fault e. e ≡ Memory fault };

    fn from(fault: AllocError) -> MigrateFault {
        MigrateFault::Memory(fault)
    }
}

impl From<FileFault> for MigrateFault {
    ghost from_gives = { λ fault e. e ≡ file_fault fault };

    // No page is refused as foreign or as no page where it is sealed.
    fn from(fault: FileFault) -> MigrateFault {
        match fault {
            FileFault::DiskFault => MigrateFault::DiskFault,
            FileFault::Foreign(bytes) => MigrateFault::Exists(bytes),
            FileFault::BadPage(page) => MigrateFault::Exists(page),
            FileFault::Memory(fault) => MigrateFault::Memory(fault),
        }
    }
}

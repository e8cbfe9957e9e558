//! Why a file of pages is refused, or a call on it failed.
ghost use Rattle.std.specs.Prelude.{◌≡◌};
ghost use Rattle.page_file.specs.declared.fault.FileFault.TheVariants.{DiskFault, Memory};

use outside_io::Failed;
use std::alloc::AllocError;
use thiserror::Error;

/// Why a file of pages is refused, or a call on it failed.
#[derive(Debug, Drop, Error)]
pub enum FileFault {
    /// A call of the disk failed.
    #[error("a call of the disk failed")]
    DiskFault,
    /// The file has over 107 bytes, and does not begin with an open gate. It tells how many.
    #[error("foreign: {0} bytes")]
    Foreign(u64),
    /// The first page that stands behind an open gate and is not spelled there, from 0.
    #[error("page {0} unreadable")]
    BadPage(u64),
    #[error("out of memory")]
    Memory(AllocError),
}

impl From<Failed> for FileFault {
    ghost from_gives = { λ _ e. e ≡ DiskFault };

    fn from(_fault: Failed) -> FileFault {
        FileFault::DiskFault
    }
}

impl From<AllocError> for FileFault {
    ghost from_gives = { λ fault e. e ≡ Memory fault };

    fn from(fault: AllocError) -> FileFault {
        FileFault::Memory(fault)
    }
}

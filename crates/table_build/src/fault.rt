//! Why a table file was not built.
ghost use Rattle.std.specs.Prelude.{◌≡◌, ℕ};
ghost use Rattle.page_file.specs.declared.fault.FileFault.{FileFault};
ghost use Rattle.table_build.specs.Faults.{work_fault, build_fault, table_fault, resume_fault, look_fault, word_fault};
ghost use Rattle.table_build.specs.declared.fault.WorkFault.TheVariants.{DiskFault, Memory};

use lyndon_polys::LyndonFault;
use outside_io::Failed;
use page_codec::Params;
use page_file::FileFault;
use std::alloc::AllocError;
use thiserror::Error;
use word_letters::Word;

/// Why a table file was not built.
///
/// `DiskFault`, `BadPage`, `Differs` and `Memory` come at the step at which the call of the disk, the page or the memory is wanted; the others
/// in this order.
#[derive(Debug, Drop, Error)]
pub enum BuildFault {
    /// A call of the disk failed.
    #[error("a call of the disk failed")]
    DiskFault,
    /// The disk is not empty. It tells how many bytes it has.
    #[error("exists: {0} bytes")]
    Exists(u64),
    /// What was read again of a page that this call sealed is no page. It tells which, from 0.
    #[error("page {0} unreadable")]
    BadPage(u64),
    /// The coefficient of the word in the shuffle of its Lyndon factors is the value, which has no inverse. It is the least such word.
    #[error("no inverse: {value} at word {word}")]
    NoInverseWord { value: u64, word: Word },
    /// The rest of relation `n` leads with the value, which has no inverse. It is the first such relation.
    #[error("no inverse: {value} at relation {n}")]
    NoInverseRelation { value: u64, n: u32 },
    /// What was read again of a page that this call sealed is not what was sealed, or what is made of such pages is no page. It tells which page, from 0.
    #[error("page {0} differs")]
    Differs(u64),
    #[error("out of memory")]
    Memory(AllocError),
}

/// Why a build did not go on.
///
/// `DiskFault` and `Memory` come at the step at which the call of the disk or the memory is wanted; the others in this order.
#[derive(Drop)]
pub enum ResumeFault {
    /// A call of the disk failed.
    DiskFault,
    /// The file has over 107 bytes, and does not begin with an open gate. It tells how many.
    Foreign(u64),
    /// The first page that stands behind an open gate and is not spelled there, from 0; or what was read again of a page is no page.
    BadPage(u64),
    /// The header has other parameters, these.
    Other(Params),
    /// The first page that does not fit its place, from 0.
    Misfit(u64),
    /// The coefficient of the word in the shuffle of its Lyndon factors is the value, which has no inverse. It is the least such word.
    NoInverseWord { value: u64, word: Word },
    /// The first page with an entry that does not suit those before it, from 0.
    NotForward(u64),
    /// The rest of relation `n` leads with the value, which has no inverse. It is the first such relation.
    NoInverseRelation { value: u64, n: u32 },
    /// The first page that is not the one that the forward rows give, from 0; or what was read again of a page is not what was there.
    Differs(u64),
    Memory(AllocError),
}

// Why the work on the pages stopped.
#[derive(Drop)]
pub(crate) enum WorkFault {
    DiskFault,
    BadPage(u64),
    NoInverse { value: u64, n: u32 },
    Differs(u64),
    Memory(AllocError),
}

impl From<Failed> for WorkFault {
    ghost from_gives = { λ _ e. e ≡ DiskFault };

    fn from(_fault: Failed) -> WorkFault {
        WorkFault::DiskFault
    }
}

impl From<AllocError> for WorkFault {
    ghost from_gives = { λ fault e. e ≡ Memory fault };

    fn from(fault: AllocError) -> WorkFault {
        WorkFault::Memory(fault)
    }
}

// Why the work stopped at a call on the file, which was known not to be foreign.
pub(crate) fn work_fault(fault: FileFault) -> WorkFault
    ensures { result ≡ work_fault fault }
{
    match fault {
        FileFault::DiskFault => WorkFault::DiskFault,
        FileFault::Foreign(_) => WorkFault::Differs(0),
        FileFault::BadPage(i) => WorkFault::BadPage(i),
        FileFault::Memory(fault) => WorkFault::Memory(fault),
    }
}

// Why the file was not built, where the work on its pages stopped.
pub(crate) fn build_fault(fault: WorkFault) -> BuildFault
    ensures { result ≡ build_fault fault }
{
    match fault {
        WorkFault::DiskFault => BuildFault::DiskFault,
        WorkFault::BadPage(i) => BuildFault::BadPage(i),
        WorkFault::NoInverse { value, n } => BuildFault::NoInverseRelation { value, n },
        WorkFault::Differs(i) => BuildFault::Differs(i),
        WorkFault::Memory(fault) => BuildFault::Memory(fault),
    }
}

// Why the table of the parameters was not made.
pub(crate) fn table_fault(fault: LyndonFault) -> BuildFault
    ensures { result ≡ table_fault fault }
{
    match fault {
        LyndonFault::NoInverse { value, word } => BuildFault::NoInverseWord { value, word },
        LyndonFault::Memory(fault) => BuildFault::Memory(fault),
    }
}

// Why a build did not go on, where the work on its pages stopped.
pub(crate) fn resume_fault(fault: WorkFault) -> ResumeFault
    ensures { result ≡ resume_fault fault }
{
    match fault {
        WorkFault::DiskFault => ResumeFault::DiskFault,
        WorkFault::BadPage(i) => ResumeFault::BadPage(i),
        WorkFault::NoInverse { value, n } => ResumeFault::NoInverseRelation { value, n },
        WorkFault::Differs(i) => ResumeFault::Differs(i),
        WorkFault::Memory(fault) => ResumeFault::Memory(fault),
    }
}

// Why a build did not go on, where its file was not looked at or a page not read.
pub(crate) fn look_fault(fault: FileFault) -> ResumeFault
    ensures { result ≡ look_fault fault }
{
    match fault {
        FileFault::DiskFault => ResumeFault::DiskFault,
        FileFault::Foreign(bytes) => ResumeFault::Foreign(bytes),
        FileFault::BadPage(i) => ResumeFault::BadPage(i),
        FileFault::Memory(fault) => ResumeFault::Memory(fault),
    }
}

// Why a build did not go on, where the table of the parameters was not made.
pub(crate) fn word_fault(fault: LyndonFault) -> ResumeFault
    ensures { result ≡ word_fault fault }
{
    match fault {
        LyndonFault::NoInverse { value, word } => ResumeFault::NoInverseWord { value, word },
        LyndonFault::Memory(fault) => ResumeFault::Memory(fault),
    }
}

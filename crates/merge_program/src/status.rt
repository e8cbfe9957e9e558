//! How a run ends.
ghost use Rattle.std.specs.Prelude.{◌≡◌};
ghost use Rattle.merge_program.specs.Statuses.{code_of};

/// How a run ends. The variants stand in the order of their numbers.
#[derive(Clone, Copy, Debug, PartialEq, Eq)]
pub enum MergeStatus {
    /// What was asked for is done.
    Done,
    /// Memory was wanting.
    Memory,
    /// The words ask for nothing.
    Usage,
    /// A parameter test failed.
    Params,
    /// A coefficient or a remainder has no inverse.
    NoInverse,
    /// A call of a disk failed.
    DiskFault,
    /// A call of the sink failed.
    WriteFault,
    /// A file is not a share of the table.
    NotAShare,
    /// A share is missing.
    NotComplete,
}

impl MergeStatus {
    /// The number with which the process ends: 0 to 5, or 7 to 9.
    pub fn code(self) -> u8
        ensures { result ≡ code_of self }
    {
        match self {
            MergeStatus::Done => 0,
            MergeStatus::Memory => 1,
            MergeStatus::Usage => 2,
            MergeStatus::Params => 3,
            MergeStatus::NoInverse => 4,
            MergeStatus::DiskFault => 5,
            MergeStatus::WriteFault => 7,
            MergeStatus::NotAShare => 8,
            MergeStatus::NotComplete => 9,
        }
    }
}

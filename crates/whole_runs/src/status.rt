//! How a run ends.
ghost use Rattle.std.specs.Prelude.{◌≡◌};
ghost use Rattle.whole_runs.specs.Statuses.{code_of};

/// How a run ends. The variants stand in the order of their numbers, of which 10 is not used.
#[derive(Clone, Copy, Debug, PartialEq, Eq)]
pub enum Status {
    /// The command is done.
    Done,
    /// Memory was wanting.
    Memory,
    /// The words fit no command.
    Usage,
    /// A parameter test failed.
    Params,
    /// A coefficient or a remainder has no inverse.
    NoInverse,
    /// A call of the disk failed.
    DiskFault,
    /// A call of the source failed.
    ReadFault,
    /// A call of the sink failed.
    WriteFault,
    /// The file is not a table.
    NotATable,
    /// The table is not complete.
    NotComplete,
    /// The source gives more bytes than may be input.
    TooMuchInput,
}

impl Status {
    /// The number with which the process ends, from 0 to 9, or 11.
    pub fn code(self) -> u8
        ensures { result ≡ code_of self }
    {
        match self {
            Status::Done => 0,
            Status::Memory => 1,
            Status::Usage => 2,
            Status::Params => 3,
            Status::NoInverse => 4,
            Status::DiskFault => 5,
            Status::ReadFault => 6,
            Status::WriteFault => 7,
            Status::NotATable => 8,
            Status::NotComplete => 9,
            Status::TooMuchInput => 11,
        }
    }
}

//! Why the table in a file is refused.
use page_codec::RowData;
use std::alloc::AllocError;
use word_letters::Word;

/// Why the table in a file is refused. The first cause in the order of the variants is told, but for `Memory`, which comes at any step.
#[derive(Drop)]
pub enum CheckFault {
    /// A call of the disk failed.
    DiskFault,
    /// What was read is not the page.
    BadPage(u64),
    /// The page is the first that does not fit its place; page 0 where it is no header.
    Misfit(u64),
    /// All of so many pages fit, and the last of them is not Done.
    NotDone(u64),
    /// The coefficient of the word in the shuffle of its Lyndon factors is the value, which has no inverse. It is the least such word.
    NoInverse { value: u64, word: Word },
    /// The least final row that is not what its combination gives.
    BadRow(u32),
    /// The least final row that does not fit a reduced list.
    NotReduced(u32),
    /// The least relation of which the final rows leave something, and what they leave.
    Missing { n: u32, rest: RowData },
    /// Memory was wanting.
    Memory(AllocError),
}

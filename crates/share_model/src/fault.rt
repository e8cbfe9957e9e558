//! Why a share was not made, or is refused.
use page_codec::RowData;
use std::alloc::AllocError;
use word_letters::Word;

/// Why a share was not made, or why its rows are no result of it.
#[derive(Drop)]
pub enum ShareFault {
    /// The coefficient of `word` in the shuffle of its Lyndon factors is `value`, which has no inverse. It is the first such word.
    NoInverseWord { value: u64, word: Word },
    /// What the earlier relations of the share leave of relation `n` leads with `value`, which has no inverse. It is the first such relation.
    NoInverseRelation { value: u64, n: u32 },
    /// The least row that is not what its combination gives, or whose combination has a number of another share.
    BadRow(u32),
    /// The least row that does not fit a reduced list.
    NotReduced(u32),
    /// The least relation of the share of which the rows leave something, and what they leave.
    Missing { n: u32, rest: RowData },
    /// Memory was wanting.
    Memory(AllocError),
}

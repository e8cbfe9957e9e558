//! Why rows are not complete.
use page_codec::RowData;
use std::alloc::AllocError;

/// Why rows with their combinations are not complete over a table. The first cause in the order of the variants is told.
#[derive(Drop)]
pub enum CompletenessFault {
    /// The least row that is not what its combination gives.
    BadRow(u32),
    /// The least row that does not fit a reduced list.
    NotReduced(u32),
    /// The least relation of which the rows leave something, and what they leave.
    Missing { n: u32, rest: RowData },
    /// Memory was wanting.
    Memory(AllocError),
}

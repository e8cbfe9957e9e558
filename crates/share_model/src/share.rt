//! A share: some of the relations of a listing, and the rows that they give.
use page_codec::{FinalEntries, Params};

/// Which of how many shares: share `index` of `of` has the relations whose numbers leave `index` when they are divided by `of`. `of` is 1 to 256,
/// and `index` is below it.
#[derive(Clone, Copy, Debug, PartialEq, Eq)]
pub struct ShareId {
    pub index: u32,
    pub of: u32,
}

/// The parameters of a table, one share of its listing, and rows with their combinations of relations of the share.
#[derive(Drop)]
pub struct Share {
    pub params: Params,
    pub id: ShareId,
    pub rows: FinalEntries,
}

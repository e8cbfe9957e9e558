//! What words say of a table and its shares.
use page_codec::{ParamFault, Params};
use share_model::ShareId;
use thiserror::Error;

/// The parameters of a table, whose list of preferred words is empty, and into how many shares it is dealt, 1 to 256.
#[derive(Clone, Copy, PartialEq, Eq)]
pub struct TableWords {
    pub params: Params,
    pub shares: u32,
}

/// The parameters of a table, whose list of preferred words is empty, and one of its shares.
#[derive(Clone, Copy, PartialEq, Eq)]
pub struct ShareWords {
    pub params: Params,
    pub id: ShareId,
}

/// Why words say nothing of a table and its shares. The first cause in the order of the variants is told.
#[derive(Clone, Copy, Debug, PartialEq, Eq, Error)]
pub enum MergeWordsFault {
    /// They have another form.
    #[error("the words fit no command")]
    Usage,
    /// A parameter test of the table fails: the first.
    #[error("bad parameter: {0}")]
    Param(ParamFault),
    /// The number of shares is not from 1 to 256.
    #[error("bad parameter: shares {0}")]
    Shares(u64),
    /// The number of the share is not below the number of shares. It comes only for words that name a share.
    #[error("bad parameter: share {0}")]
    Share(u64),
}

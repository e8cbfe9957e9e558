//! What happens to a coordinator, and what it answers.
use share_model::{Share, ShareFault};

/// What happens.
#[derive(Drop)]
pub enum Event {
    /// A worker asks for a share.
    Grant { worker: u32 },
    /// A share comes, from anybody.
    Deliver { share: Share },
    /// A worker is lost.
    Lose { worker: u32 },
    /// The coordinator begins again, with what it has counted.
    Restart,
}

/// What is answered.
#[derive(Drop)]
pub enum Answer {
    /// To a `Grant`: the worker is to make the share of this index.
    Granted(u32),
    /// To a `Grant`: each index is counted or granted.
    NoneOpen,
    /// To a `Deliver`: the share of this index counts from now on.
    Counted(u32),
    /// To a `Deliver`: a share of this index counts already.
    Repeat(u32),
    /// To a `Deliver`: the share does not count.
    Refused(Refusal),
    /// To a `Lose`: so many indices were granted to the worker, and are so no more.
    Freed(u32),
    /// To a `Restart`.
    Restarted,
}

/// Why a share does not count. The first cause in the order of the variants is told.
#[derive(Drop)]
pub enum Refusal {
    /// It is no share of the coordinator's table, or one of another number of shares.
    Other,
    /// Its rows are no result of it.
    Share(ShareFault),
}

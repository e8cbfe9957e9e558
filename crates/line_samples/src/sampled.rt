//! What is counted of the replies to a sample.

/// What is counted of the replies to a sample of lines.
#[derive(Clone, Copy, Debug, PartialEq, Eq)]
pub struct Sampled {
    /// How many replies are `0`.
    pub zero: u64,
    /// How many different replies there are.
    pub distinct: u64,
    /// How many terms the replies have together.
    pub terms: u64,
}

//! What can be asked for.
use page_codec::{ParamFault, Params};
use thiserror::Error;

/// What is to be done.
#[derive(Clone, Copy, PartialEq, Eq)]
pub enum Command {
    /// To reply to lines by duality alone, modulo a number from 3 to 2^63 - 1.
    Dual {
        modulus: u64,
    },
    /// To print the names of the relations of a weight from 2 to 24 and of at most a depth, which is from 1 to the
    /// weight less 1.
    List {
        weight: u32,
        depth: u32,
    },
    /// To make the table of the parameters in memory, and to reply to lines by it.
    Reduce {
        params: Params,
    },
    /// To make the table of the parameters in memory, and to count the replies to lines that are made from a seed, at
    /// most 100,000.
    Sample {
        params: Params,
        seed: u64,
        count: u32,
    },
    /// To reply to lines by truncated sums up to a number from 1 to 10,000, modulo a number from 3 to 2^63 - 1.
    Probe {
        terms: u32,
        modulus: u64,
    },
    /// To print the header of the table in a file, how many pages it has, and its sealed final rows.
    Show,
    /// To check that the table in a file is complete, and to print one line.
    Check,
    /// To check the table in a file, and then to reply to lines by it.
    Rewrite,
    /// To check the table in a file, and then to reply to lines by it with small fractions for residues.
    Rational,
    /// To make the table of the parameters in a file where nothing stands, with a certificate for each row, and to print one line.
    Build {
        params: Params,
    },
    /// To go on with a build of the table of the parameters that was stopped, from what stands in the file, and to print one line.
    Resume {
        params: Params,
    },
    /// To copy a version 1 file from the source into a file where nothing stands, and to print one line.
    Migrate,
}

/// Why the words ask for nothing.
#[derive(Clone, Copy, Debug, PartialEq, Eq, Error)]
pub enum WordsFault {
    /// They fit no command.
    #[error("the words fit no command")]
    Usage,
    /// They fit a command, and a parameter test fails: the first.
    #[error("bad parameter: {0}")]
    Param(ParamFault),
    /// The count of lines is over 100,000, and every other parameter passes.
    #[error("bad parameter: count {0}")]
    Count(u64),
    /// The number of terms is 0 or over 10,000.
    #[error("bad parameter: terms {0}")]
    Terms(u64),
}

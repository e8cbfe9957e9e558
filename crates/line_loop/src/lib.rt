//! The loop over lines: they come from any source, and each gets its reply into any sink.
//!
//! It stands on `outside_io` for the source and the sink, and on `memchr` for the byte 10. What is read and
//! written is pinned by two definitions: `cut` takes an input apart into its lines, and `whole_output` is all
//! that is said to it. A source or a sink that tells nothing of its bytes is served in the same way.
#![tactic(auto)]

mod answering;
mod conversation;
mod replier;

pub use conversation::{Ended, LIMIT, answer_lines};
pub use replier::Replier;

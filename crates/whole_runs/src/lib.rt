//! What the words of a command line ask for, and what a whole run of it writes and how it ends.
//!
//! `read_words` reads them, and `whole_run_laws` are the laws: what words ask for is one thing, and one work is to be done for it.
//! `specs/CommandLine.antt` says what words ask for, `specs/Works.antt` what is to be done for it, as a relation: a
//! refusal, a conversation over lines, or one line; `specs/Outcomes.antt` what any run has of the whole one.
#![tactic(auto)]

mod command;
mod command_line;
mod laws;
mod requests;
mod status;

pub use command::{Command, WordsFault};
pub use command_line::{number_word, read_words};
pub use laws::whole_run_laws;
pub use status::Status;

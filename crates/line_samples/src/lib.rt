//! Lines that are made from a seed, and what is counted of their replies.
//!
//! The lines are sums of words with coefficients from 1 to 9, drawn by a linear congruential generator modulo 65,537: two runs with one
//! seed, one list of words and one count see the same lines. What they are stands in `specs/Samples.antt`, what is counted in
//! `specs/Counts.antt`. The crate stands on `line_loop`, whose `Replier` replies, and on `word_letters`.
#![tactic(auto)]

pub use sample::sample_replies;
pub use sampled::Sampled;

mod draws;
mod lines;
mod sample;
mod sampled;
mod tally;
mod texts;

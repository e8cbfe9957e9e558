//! Lines that a run writes piece by piece. They take no memory, so that its want never comes in their place.
//!
//! The texts are those of `whole_runs`. The crate stands on `outside_io` for the sink.
#![tactic(auto)]

mod no_inverse;
mod params;
mod pieces;

pub use no_inverse::write_word;
pub use params::write_param;
pub use pieces::{write_begun, write_both, write_number, write_two};

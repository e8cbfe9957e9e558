//! Replies to lines by truncated sums: a check by numbers that needs no table.
//!
//! Each zeta of a line stands for its truncated sum up to n, modulo m, and the reply is the value of the whole line. Truncated sums
//! multiply by the stuffle (Hoffman 1997, *The algebra of multiple harmonic series*), so two lines that differ by stuffle products
//! get one value. The crate stands on `zeta_expr`, which reads lines, on `truncated_sums`, and on `table_rewrite` for the texts of
//! refusals. What a line means here stands in `specs/Values.antt`, its reply in `specs/Replies.antt`.
#![tactic(auto)]

pub use laws::probe_laws;
pub use probe::ProbeReplies;

mod laws;
mod numbers;
mod probe;
mod texts;
mod values;

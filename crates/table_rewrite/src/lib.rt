//! Replies to lines over a table: the polynomial of what a line means, or its refusal.
//!
//! The polynomial of a sum of words is the normal form, by the reduced rows of a table, of the row of the sum. The crate stands
//! on `zeta_expr`, which gives the sum of a line, on `lyndon_polys` and `echelon`, which give its row and the normal form, and on
//! `poly_print`, which prints it.
#![tactic(auto)]

pub use laws::{a_reply_answers_its_line, replies_tell};
pub use reply::{PolyText, Reply, reply_text};
pub use rewrite::{rewrite_line, sum_of_line};

mod laws;
mod reply;
mod rewrite;

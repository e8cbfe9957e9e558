//! Replies to lines over a table, with small fractions for residues.
//!
//! A [`FractionReplies`] is to `table_replies`' replier what `fraction_print` is to `poly_print`: the polynomial of what a line means is the
//! same row, and each residue is printed as the fraction that stands for it, where there is one. Contracts see it as a ring, columns and
//! forms. The crate stands on `table_rewrite` for lines, on `word_forms` for the forms, on `fraction_print` for the texts, and on
//! `line_loop`, whose `Replier` it is.
#![tactic(auto)]

mod laws;
mod replies;

pub use laws::fraction_reply_laws;
pub use replies::FractionReplies;

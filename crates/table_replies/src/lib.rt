//! Replies to lines over a table, by the normal forms of its words.
//!
//! A [`TableReplies`] holds, made once, the normal form of the row of each word of a table. The polynomial of a sum of words is then the
//! sum of these, each times the word's residue: no row is converted and none is eliminated for a line. Contracts see it as a ring, columns
//! and forms, and speak of replies by `table_rewrite`. The crate stands on `table_rewrite` for lines, on `word_forms` for the forms, and on
//! `line_loop`, whose `Replier` it is.
#![tactic(auto)]

mod replies;

pub use replies::TableReplies;

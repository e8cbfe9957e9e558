//! The reply to a line of zetas by duality: each word is replaced by the lesser of itself and its dual, coefficients
//! are summed modulo M, and the sum is printed by weight and then by increasing word.
//!
//! The sum is a `WordSum` of `word_sums` over the residues of `residues`, the lesser word is that of `duality_map`, and
//! lines are read by the tokens of `line_tokens`. A line is an optional sign, a zeta, then any number of a sign and a
//! zeta. What is accepted stands in `specs/Grammar.antt`, why another line is refused in `specs/Refusals.antt`, what is
//! printed in `specs/Listing.antt` and `specs/Reply.antt`, and what the replies tell in `specs/Canonical.antt`: two
//! accepted lines get the same reply exactly where their sums differ by duality (Ihara, Kaneko, Zagier 2006).
#![tactic(auto)]

pub use replies::{replies_are_canonical, reply};

mod draft;
mod fold;
mod listing;
mod ones;
mod place;
mod reader;
mod refusal;
mod replies;
mod text;
mod words;

//! Columns: the monomials of one weight up to a depth, in lead order.
//!
//! The lead order asks for the number of factors, the sum of their ranks, the depth, and the factors themselves. It is total and strict for
//! any ranks of words, and products keep it ([`lead_order_laws`]). A word's rank is that of its mode, and a table may name words that it
//! prefers to all others. Contracts see [`Columns`] as a weight, a depth, a preference and the list of the monomials, each of them the list
//! of its factors. The crate stands on `lyndon_words`.
#![tactic(auto)]

mod column;
mod columns;
mod counting;
mod fault;
mod laws;
mod lead_order;
mod preferred;
mod rank_rule;
mod ranks;
mod word_places;

pub use columns::{Columns, MAX_COLUMNS};
pub use counting::count;
pub use fault::ColumnsFault;
pub use laws::{column_list_laws, column_word_laws, lead_order_laws, preference_laws};
pub use lead_order::leads;
pub use preferred::{MAX_PREFERRED, Preferred};
pub use rank_rule::RankRule;
pub use ranks::{Mode, Preference, rank};

//! Expressions: sums of products of numbers and zetas, as lines spell them, and the sums of words that they mean.
//!
//! `read` gives the expression of a line, or the place of its first wrong byte; `meaning` gives the sum of words of an
//! expression, or the first reason why it means none. Contracts see an expression as the list of its terms, each a sign
//! with its factors. A zeta means the regularisation of its word (Ihara, Kaneko and Zagier 2006). The crate stands on
//! `line_tokens`, which finds the places, and on `regularise_core` and `quasi_product`.
#![tactic(auto)]

pub use expr::{Expr, Factor, Term};
pub use fault::LineFault;
pub use index_list::IndexList;
pub use laws::a_line_has_one_meaning;
pub use reader::read;
pub use refusals::refusal_of;
pub use sums::meaning;

mod draft;
mod expr;
mod fault;
mod index_list;
mod laws;
mod numbers;
mod place;
mod powers;
mod reader;
mod refusals;
mod sums;
mod weights;

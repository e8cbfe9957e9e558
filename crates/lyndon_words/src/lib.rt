//! Lyndon words, the factors of a word, and monomials in Lyndon words.
//!
//! Contracts see a monomial as the list of its factors. Each word is put together in exactly one way of Lyndon words that do not increase
//! (Chen, Fox and Lyndon 1958); these are the generators of the shuffle algebra (Radford 1979).
#![tactic(auto)]

pub use factorise::factors;
pub use lyndon_list::{is_lyndon, lyndon_of};
pub use monomial::Monomial;

mod factorise;
mod lyndon_list;
mod monomial;
mod words;

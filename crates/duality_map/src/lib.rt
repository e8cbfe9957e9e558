//! Duality of words: the word read backwards with x and y exchanged, and the lesser of a word and its dual.
//!
//! Duality is that of `zeta_model` (Ihara, Kaneko and Zagier 2006), over the words of `word_letters`; [`duality_laws`] says
//! what it keeps. Nothing here takes memory.
#![tactic(auto)]

pub use duality::{dual, representative};
pub use zeta_model::duality_laws;

mod duality;

//! The definitions that the algebra crates cite: words, sums, products, regularisation and duality.
#![tactic(auto)]

pub use duality::{compare, dual, representative};
pub use laws::{
    duality_laws, letter_laws, product_laws, regularisation_laws, sum_laws, word_list_laws,
};
pub use product::{shuffle, stuffle};
pub use regularise::reg_coefficient;
pub use word_list::WordList;

mod duality;
mod laws;
mod product;
mod regularise;
mod word_list;

/// A letter of a word; x is less than y.
#[derive(Clone, Copy, Debug, PartialEq, Eq, PartialOrd, Ord, Hash)]
pub enum Letter {
    X,
    Y,
}

//! Products of the rows of a table of relations with monomials: they are rows of a table of higher weight, and lead there.
//!
//! It has no code: its function does nothing, and the contract is the law. The crate stands on `table_model` for rows, spans and reduced
//! rows, on `leading_word` for the words of products of monomials, and on `column_order` for the order that products keep.
#![tactic(auto)]

pub use laws::leading_products;

mod laws;

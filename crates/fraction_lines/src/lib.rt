//! What the texts of rows with fractions mean.
#![tactic(auto)]

pub use laws::fraction_texts_are_lines;

mod laws;

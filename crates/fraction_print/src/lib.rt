//! The texts of rows whose residues are printed as fractions.
//!
//! Each residue is printed as the fraction that stands for it, as `2/5*z(2)^2`, and as itself where there is none. The crate stands on
//! `fractions` for these, and on `poly_print` for monomials and their texts.
#![tactic(auto)]

pub use laws::{fractions_text_laws, rows_are_known_by_their_fractions};
pub use row::{print_fractions, push_fractions};

mod laws;
mod number;
mod row;
mod term;

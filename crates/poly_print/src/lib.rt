//! The texts of monomials and of rows.
//!
//! A row is the sum of its terms, as `2*z(5)+100*z(2)*z(3)`, in increasing order of columns, and `0` where there is none. Contracts see a
//! row as its columns with their residues, and a text as its bytes. The
//! crate stands on `column_order` and `sparse_rows`.
#![tactic(auto)]

pub use laws::{row_text_laws, rows_are_known_by_their_texts};
pub use monomial::push_monomial;
pub use reading::parse;
pub use row::{print, push_row};

mod laws;
mod monomial;
mod number;
mod read_term;
mod reading;
mod row;

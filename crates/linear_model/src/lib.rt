//! Rows, combinations, spans, reduced lists, normal forms and forward lists modulo m, with their laws.
//!
//! A row is a function from columns to numbers that are read modulo m; a list of rows is a count and a function from
//! places to rows. The rows begin with 1 at their leads, so a composite modulus does no harm, and nowhere is an inverse
//! taken. Beside each definition stands a plain, slow function that it is the contract of; these functions take a list
//! of rows as a table, and rows of any length. The crate stands on `zeta_model`, for equality modulo m.
#![tactic(auto)]

pub mod combine;
pub mod laws;
pub mod normal;
pub mod reduced;
pub mod rows;

pub use combine::{add_product, combination};
pub use laws::{
    leads_of_a_span, normal_forms_are_unique, reduced_lists_are_unique, spans_pass_through,
    sweeps_leave_normal_forms,
};
pub use normal::{is_in_span, normal_form};
pub use reduced::{is_forward, is_reduced};
pub use rows::{entry, number_at, same, same_row};

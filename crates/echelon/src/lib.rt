//! Elimination over a ring of residues, with recorded combinations, and normal forms by reduced rows.
//!
//! Rows are offered one after the other; what is left of a row behind those kept so far, scaled so that it leads with 1, is
//! its forward row. Contracts see an elimination as the list of its forward rows, and reason about them through
//! `linear_model`. The crate stands on `residues` and `sparse_rows`.
#![tactic(auto)]

pub use echelon::{Echelon, Finished, Offered};
pub use fault::{OfferFault, ReducedFault, RestoreFault};
pub use laws::{kept_rows_span_all_offered, reduced_rows_are_known_by_their_span};
pub use reduced_rows::ReducedRows;
pub use row_echelon::{RowEchelon, Traced, Uses};

mod combining;
mod echelon;
mod evaluating;
mod fault;
mod finishing;
mod laws;
mod offering;
mod quick;
mod reduced_rows;
mod reducing;
mod remainder;
mod row_echelon;
mod standing;
mod sums;
mod sweeping;

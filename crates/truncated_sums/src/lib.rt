//! Truncated sums modulo m, a second meaning of the stuffle: `H(n, (k1, .., kr))` is the sum over all lists
//! `n >= n1 > .. > nr >= 1` of the product of the inverses of the `ni^ki`.
//!
//! [`truncated_laws`] carries that the sums over all lists multiply by the stuffle (Hoffman 1997, *The algebra of multiple
//! harmonic series*).
#![tactic(auto)]

pub use fault::SumFault;
pub use laws::{total_laws, truncated_laws};
pub use terms::Truncated;

mod fault;
mod laws;
mod running;
mod terms;

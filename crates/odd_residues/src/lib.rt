//! Residues modulo an odd number in Montgomery's form: a ring of the same contract as plain residues, whose elements are
//! not their values (Montgomery 1985).
//!
//! The element `a` of [`OddMod`] stands for `a` times the inverse of 2^64. A product is reduced by two more products and no
//! division. [`ResidueRing`] is the ring of a modulus, odd or even, chosen once. The crate stands on `residues`.
#![tactic(auto)]

pub use odd_mod::OddMod;
pub use residue_ring::ResidueRing;

mod newton;
mod odd_mod;
mod residue_ring;

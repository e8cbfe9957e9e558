//! Tests of words, residues, sums, duality, Lyndon words and fractions, with worked values.
//!
//! They stand above the crates that they try, since a crate with tests of its own is proved twice.
#![tactic(auto)]

#[cfg(test)]
mod combinations;
#[cfg(test)]
mod duality;
#[cfg(test)]
mod factorings;
#[cfg(test)]
mod laws;
#[cfg(test)]
mod letters;
#[cfg(test)]
mod odd_ring;
#[cfg(test)]
mod ring;
#[cfg(test)]
mod small_fractions;
#[cfg(test)]
mod sums;

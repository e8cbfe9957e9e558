//! Tests of products, regularisation, the names of relations and greatest words, with worked values.
//!
//! They stand above the crates that they try, since a crate with tests of its own is proved twice.
#![tactic(auto)]

#[cfg(test)]
mod conversion;
#[cfg(test)]
mod expressions;
#[cfg(test)]
mod greatest;
#[cfg(test)]
mod kept;
#[cfg(test)]
mod products;
#[cfg(test)]
mod regularised;
#[cfg(test)]
mod relations;
#[cfg(test)]
mod truncated;

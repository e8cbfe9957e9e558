//! Sums of words: finite maps from words to residues that are not zero.
//!
//! A [`WordSum`] is an `IndexMap` of `indexmap`. Contracts see it as the list of its terms, words with elements of a ring, in
//! an order that no contract tells, and what a call makes of it through `coefficient_of`, the number that the terms give each
//! word. The words of the terms are those with a coefficient that is not zero, and sums with the same coefficients have the
//! same terms ([`terms_are_known_by_their_coefficients`]). The crates above say what a sum is by `IsSumOf` and what it gained
//! by `Gains`. The crate stands on `word_letters` and `residues`.
#![tactic(auto)]

mod laws;
mod least_failing;
mod word_sum;

pub use laws::terms_are_known_by_their_coefficients;
pub use least_failing::WordTest;
pub use word_sum::WordSum;

//! The terms of a sum in the order in which they are printed.
ghost use Rattle.std.specs.Prelude.{IfOk};
ghost use Rattle.std.specs.List.Sorted.{IsPermutation, IsStrictlySortedBy};
ghost use Rattle.std.specs.Map.{keys_of};
ghost use Rattle.dual_reply.specs.Listing.{listing_cmp, IsListing};

use crate::fold::folded_sum;
use crate::words::Signed;
use residues::{Ring, WordMod};
use std::alloc::{AllocError, Global};
use word_letters::Word;
use word_sums::WordSum;

/// The terms of a sum by weight, and those of one weight by increasing word.
fn ordered<R: Ring>(alloc: Global, sum: &WordSum<R>) -> Result<Vec<(Word, R::Elem)>, AllocError>
    ensures increasing { IfOk result (λ terms. IsStrictlySortedBy listing_cmp (keys_of terms.items)) }
    ensures terms { IfOk result (λ terms. IsPermutation sum.now terms.items) }
{
    let mut terms = Vec::with_capacity(alloc, sum.len())?;
    for (word, residue) in sum.iter() {
        terms.push((*word, *residue))?;
    }
    terms.sort_unstable_by_key(|term| (term.0.weight(), term.0));
    Ok(terms)
}

/// The listing of the sum of some terms, each word replaced by the lesser of it and its dual.
pub fn listing(
    alloc: Global,
    ring: &WordMod,
    terms: &[Signed],
) -> Result<Vec<(Word, u64)>, AllocError>
    ensures { IfOk result (λ entries. IsListing (⟦<WordMod as Ring>⟧.modulus ring.now) terms.now entries.items) }
{
    let sum = folded_sum(alloc, ring, terms)?;
    ordered(alloc, &sum)
}

//! Sums of words of a table, by the places of their words.
ghost use Rattle.std.specs.Prelude.{◌≡◌, ◌≤◌, [], length, IfOk};
ghost use Rattle.zeta_model.specs.Sums.{Sum};
ghost use Rattle.word_sums.specs.Sums.{IsSumOf};
ghost use Rattle.word_sums.specs.Terms.{AllIn as AllTermsIn};
ghost use Rattle.cert_checker.specs.Inner.{IsPlaced, AreColumnWords};

use crate::column_words::column_words;
use column_order::Columns;
use residues::Ring;
use std::alloc::{AllocError, Global};
use std::marker::Model;
use word_sums::WordSum;

/// The places of words in a table, with their residues in a sum.
#[derive(Drop)]
pub(crate) struct PlacedSum<R: Ring> {
    pairs: Vec<(u16, R::Elem)>,
}

impl<R: Ring> Model for PlacedSum<R> {
    ghost use Rattle.std.specs.Prelude.{List, ℕ};

    ghost Value = { List (ℕ × R.Elem) };

    ghost view = { λ p. p.pairs.items };
}

impl<R: Ring> PlacedSum<R> {
    /// No words. It takes no memory.
    pub(crate) fn none(alloc: Global) -> PlacedSum<R>
        ensures { result ≡ [] }
    {
        PlacedSum {
            pairs: Vec::new(alloc),
        }
    }

    /// The pairs.
    pub(crate) fn entries(&self) -> &[(u16, R::Elem)]
        ensures { result.now ≡ self.now }
    {
        &self.pairs
    }
}

/// The places of the words of a sum. A word without a place is left out.
pub(crate) fn placed<R: Ring>(
    alloc: Global,
    ring: &R,
    columns: &Columns,
    sum: &WordSum<R>,
) -> Result<PlacedSum<R>, AllocError>
    requires few { length columns.now.list ≤ 2048 }
    requires in_ring { AllTermsIn (R.has ring.now) sum.now }
    ensures { IfOk result (λ placed. (s : Sum) → IsSumOf R.zero (R.has ring.now) (R.value ring.now) (R.modulus ring.now) s sum.now
        → IsPlaced (R.modulus ring.now) (R.has ring.now) (R.value ring.now) columns.now s placed) }
{
    let mut pairs = Vec::with_capacity(alloc, sum.len())?;
    for (word, residue) in sum.iter() {
        if let Some(place) = columns.place_of_word(*word) {
            pairs.push((place as u16, *residue))?;
        }
    }
    Ok(PlacedSum { pairs })
}

/// The words of each column.
pub(crate) fn all_column_words<R: Ring>(
    alloc: Global,
    ring: &R,
    columns: &Columns,
) -> Result<Vec<PlacedSum<R>>, AllocError>
    ensures { IfOk result (λ words. AreColumnWords (R.modulus ring.now) (R.has ring.now) (R.value ring.now) columns.now words.items) }
{
    let mut words = Vec::with_capacity(alloc, columns.len() as usize)?;
    for i in 0..columns.len() {
        let sum = column_words(alloc, ring, columns.at(i))?;
        words.push(placed(alloc, ring, columns, &sum)?)?;
    }
    Ok(words)
}

//! The rows of a share and their combinations, as rows of elements.
ghost use Rattle.std.specs.Prelude.{◌≡◌, ℕ, ◌<◌, length, get_or, IfOk};
ghost use Rattle.page_rows.specs.Written.{AreResidues};
ghost use Rattle.file_model.specs.FinalRows.{no_entry};
ghost use Rattle.share_check.specs.Inner.{AreRead, rows_of, combinations_of};

use page_codec::FinalEntry;
use page_rows::{combination_of_data, row_of_data};
use residues::Ring;
use sparse_rows::{Combination, Row};
use std::alloc::{AllocError, Global};

/// The rows of entries, as rows of elements.
pub(crate) fn rows_of<R: Ring>(
    alloc: Global,
    ring: &R,
    entries: &[FinalEntry],
) -> Result<Vec<Row<R>>, AllocError>
    requires { (i : ℕ) → i < length entries.now → AreResidues (λ k. k) (R.modulus ring.now) (get_or entries.now i no_entry).row }
    ensures { IfOk result (λ rows. AreRead R.zero (R.has ring.now) (R.value ring.now) (rows_of entries.now) rows.items) }
{
    let mut rows = Vec::with_capacity(alloc, entries.len())?;
    for entry in entries {
        rows.push(row_of_data(alloc, ring, &entry.row)?)?;
    }
    Ok(rows)
}

/// The combinations of entries, as combinations of elements.
pub(crate) fn combinations_of<R: Ring>(
    alloc: Global,
    ring: &R,
    entries: &[FinalEntry],
) -> Result<Vec<Combination<R>>, AllocError>
    requires { (i : ℕ) → i < length entries.now → AreResidues (λ k. k) (R.modulus ring.now) (get_or entries.now i no_entry).combination }
    ensures { IfOk result (λ combinations. AreRead R.zero (R.has ring.now) (R.value ring.now) (combinations_of entries.now) combinations.items) }
{
    let mut combinations = Vec::with_capacity(alloc, entries.len())?;
    for entry in entries {
        combinations.push(combination_of_data(alloc, ring, &entry.combination)?)?;
    }
    Ok(combinations)
}

//! The rows of an elimination, as a share has them.
ghost use Rattle.std.specs.Prelude.{◌≡◌, IfOk, length};
ghost use Rattle.echelon.specs.States.{AllIns};
ghost use Rattle.share_build.specs.Inner.{AreWritten, IsFinish};

use echelon::{Echelon, ReducedRows};
use page_codec::{FinalEntries, FinalEntry};
use page_rows::{data_of_combination, data_of_row};
use residues::Ring;
use sparse_rows::Combination;
use std::alloc::{AllocError, Global};

/// The reduced list of the rows that were kept, each row with its combination.
pub(crate) fn finish<R: Ring>(
    alloc: Global,
    ring: &R,
    echelon: &Echelon<R>,
) -> Result<FinalEntries, AllocError>
    requires { echelon.now.core.ring ≡ ring.now }
    ensures { IfOk result (IsFinish (R.modulus ring.now) (R.has ring.now) (R.value ring.now) R.zero echelon.now.core.columns
        echelon.now.core.rows echelon.now.combinations) }
{
    let finished = echelon.finish()?;
    let entries = written(alloc, ring, &finished.rows, &finished.combinations)?;
    Ok(entries)
}

/// What pages hold of the rows and combinations.
fn written<R: Ring>(
    alloc: Global,
    ring: &R,
    rows: &ReducedRows<R>,
    combinations: &[Combination<R>],
) -> Result<FinalEntries, AllocError>
    requires ring { rows.now.ring ≡ ring.now }
    requires count { length combinations.now ≡ length rows.now.rows }
    requires in_ring { AllIns (R.has ring.now) combinations.now }
    ensures { IfOk result (AreWritten R.zero (R.value ring.now) rows.now.rows combinations.now) }
{
    let mut entries = Vec::with_capacity(alloc, combinations.len())?;
    for i in 0..rows.len() {
        let row = data_of_row(alloc, ring, rows.row(i))?;
        let combination = data_of_combination(alloc, ring, &combinations[i as usize])?;
        entries.push(FinalEntry { row, combination })?;
    }
    Ok(FinalEntries::from_vec(entries))
}

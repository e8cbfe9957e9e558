//! Where the rows of shares stand, in turn.
ghost use Rattle.std.specs.Prelude.{◌≡◌, ◌<◌, ◌++◌, length, IfOk, OnOk, All};
ghost use Rattle.share_merge.specs.Turns.{counted, turns_of};
ghost use Rattle.share_merge.specs.Inner.{IsOwn, ArePlaces, places_of};

use crate::missing::has_index;
use residues::Ring;
use share_model::CheckedShare;
use std::alloc::{AllocError, Global};

/// Where a row stands: which share of a list has it, and which row of that share it is.
#[derive(Clone, Copy)]
pub(crate) struct RowPlace {
    pub share: usize,
    pub row: u32,
}

/// Where the rows of the counted shares stand, in the order of their turns.
pub(crate) fn places<R: Ring>(
    alloc: Global,
    shares: &[CheckedShare<R>],
) -> Result<Vec<RowPlace>, AllocError>
    ensures places { IfOk result (λ places. ArePlaces R.modulus R.has R.value shares.now (turns_of shares.now) places.items) }
    ensures checked { OnOk result (All (IsOwn R.modulus R.has R.value) (counted shares.now)) }
{
    let mut places = Vec::new(alloc);
    for place in 0..shares.len() {
        let share = &shares[place];
        if !has_index(&shares[..place], share.id().index) {
            add_rows(&mut places, place, share.rows().len())?;
        }
    }
    Ok(places)
}

/// Puts the places of the rows of a share behind the others.
fn add_rows(places: &mut Vec<RowPlace>, share: usize, rows: u32) -> Result<(), AllocError>
    ensures { OnOk result (places.new.items ≡ places.old.items ++ places_of share rows) }
{
    for row in 0..rows {
        places.push(RowPlace { share, row })?;
    }
    Ok(())
}

//! The rows of an elimination of turns, with combinations of listed relations.
ghost use Rattle.std.specs.Prelude.{◌≡◌, ◌<◌, IfOk, length, All};
ghost use Rattle.share_merge.specs.Turns.{AreSharesOf, share_count, turns_of, counted, HasAll};
ghost use Rattle.share_merge.specs.Inner.{IsOwn, ArePlaces, HasOffered, IsMerged};

use crate::expanding::all_expanded;
use crate::merged::Merged;
use crate::places::RowPlace;
use echelon::{Echelon, Finished};
use lyndon_polys::LyndonTable;
use residues::Ring;
use share_model::CheckedShare;
use std::alloc::{AllocError, Global};

/// The reduced list of the rows that were offered, each row with its combination of listed relations.
pub(crate) fn finished<R: Ring>(
    alloc: Global,
    table: &LyndonTable<R>,
    shares: &[CheckedShare<R>],
    places: &[RowPlace],
    echelon: &Echelon<R>,
) -> Result<Merged<R>, AllocError>
    requires some { 0 < length shares.now }
    requires shares { AreSharesOf table.now (share_count shares.now) shares.now }
    requires places { ArePlaces R.modulus R.has R.value shares.now (turns_of shares.now) places.now }
    requires checked { All (IsOwn R.modulus R.has R.value) (counted shares.now) }
    requires all { HasAll (share_count shares.now) shares.now }
    requires offered { HasOffered (R.modulus table.now.ring) (R.has table.now.ring) (R.value table.now.ring) R.zero table.now
        shares.now (length places.now) echelon.now }
    ensures ring { IfOk result (λ merged. merged.rows.ring ≡ table.now.ring) }
    ensures merged { IfOk result (λ merged. IsMerged (R.modulus table.now.ring) (R.has table.now.ring) (R.value table.now.ring) R.zero
        table.now.columns merged.rows.rows merged.combinations.items) }
{
    let Finished { rows, combinations } = echelon.finish()?;
    let combinations = all_expanded(alloc, table, shares, places, &combinations)?;
    Ok(Merged { rows, combinations })
}

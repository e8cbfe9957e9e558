//! Merging shares.
ghost use Rattle.std.specs.Prelude.{◌≡◌, ℕ, ◌<◌, length, IfOk, OnOk, IsErrOf};
ghost use Rattle.echelon.specs.Lists.{row_at, lead_at};
ghost use Rattle.echelon.specs.States.{IsRowList};
ghost use Rattle.table_model.specs.ListedSpan.{count_of};
ghost use Rattle.table_model.specs.Complete.{IsComplete};
ghost use Rattle.share_merge.specs.Turns.{AreSharesOf, share_count, HasAll, IsLeastMissing, MergesWhole, BreaksAtRow};
ghost use Rattle.share_merge.specs.Results.{AreListed};

use crate::fault::MergeFault;
use crate::finishing::finished;
use crate::merged::Merged;
use crate::missing::first_missing;
use crate::offering::offered;
use crate::places::places;
use lyndon_polys::LyndonTable;
use residues::Ring;
use share_model::CheckedShare;
use std::alloc::Global;

/// The reduced rows of all listed relations of the table, each with its combination of them, from checked shares of that table in any order.
/// The first share of each index counts.
///
/// `MissingShare(i)` exactly where `i` is the least index that no share has. `NoInverse { value, share, row }` where what the rows before it in turn
/// leave of row `row` of the share with index `share` leads with `value`, which has no inverse, and it is the first such row: the rows of the
/// counted shares have their turns share by share, as the list has them. `Memory` where memory is wanting. No other fault comes.
pub fn merge<R: Ring>(
    alloc: Global,
    table: &LyndonTable<R>,
    shares: &[CheckedShare<R>],
) -> Result<Merged<R>, MergeFault>
    requires some { 0 < length shares.now }
    requires shares { AreSharesOf table.now (share_count shares.now) shares.now }
    ensures ring { IfOk result (λ merged. merged.rows.ring ≡ table.now.ring) }
    ensures rows { IfOk result (λ merged. IsRowList (R.modulus table.now.ring) (R.has table.now.ring) (R.value table.now.ring) R.zero
        (length table.now.columns.list) merged.rows.rows) }
    ensures fits { IfOk result (λ merged. AreListed (R.has table.now.ring) R.zero (count_of table.now.columns) (length merged.rows.rows)
        merged.combinations.items) }
    ensures complete { IfOk result (λ merged. IsComplete (R.modulus table.now.ring) table.now.columns (length merged.rows.rows)
        (lead_at merged.rows.rows) (row_at (R.value table.now.ring) merged.rows.rows) (row_at (R.value table.now.ring) merged.combinations.items)) }
    ensures all { OnOk result (HasAll (share_count shares.now) shares.now) }
    ensures whole { OnOk result (MergesWhole (R.modulus table.now.ring) (R.value table.now.ring) table.now.columns shares.now) }
    ensures missing_share { (index : ℕ) → IsErrOf result (MergeFault.MissingShare index)
        → IsLeastMissing (share_count shares.now) shares.now index }
    ensures missing { (index : ℕ) → IsLeastMissing (share_count shares.now) shares.now index → IsErrOf result (MergeFault.MissingShare index) }
    ensures there { (value share row : ℕ) → IsErrOf result (MergeFault.NoInverse value share row) → HasAll (share_count shares.now) shares.now }
    ensures no_inverse { (value share row : ℕ) → IsErrOf result (MergeFault.NoInverse value share row)
        → BreaksAtRow (R.modulus table.now.ring) (R.value table.now.ring) table.now.columns shares.now value share row }
{
    if let Some(index) = first_missing(shares, shares[0].id().of) {
        return Err(MergeFault::MissingShare(index));
    }
    let places = match places(alloc, shares) {
        Ok(places) => places,
        Err(fault) => return Err(MergeFault::Memory(fault)),
    };
    let echelon = match offered(alloc, table, shares, &places) {
        Ok(echelon) => echelon,
        Err(fault) => return Err(fault),
    };
    match finished(alloc, table, shares, &places, &echelon) {
        Ok(merged) => Ok(merged),
        Err(fault) => Err(MergeFault::Memory(fault)),
    }
}

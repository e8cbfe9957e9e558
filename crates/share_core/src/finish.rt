//! What the counted shares give.
ghost use Rattle.std.specs.Prelude.{◌≡◌, ℕ, [], length, IfOk, OnOk, MatchResult, IsErrOf};
ghost use Rattle.echelon.specs.Lists.{row_at, lead_at};
ghost use Rattle.echelon.specs.States.{IsRowList};
ghost use Rattle.table_model.specs.ListedSpan.{count_of};
ghost use Rattle.table_model.specs.Complete.{IsComplete};
ghost use Rattle.share_merge.specs.Turns.{HasAll, IsLeastMissing, MergesWhole, BreaksAtRow};
ghost use Rattle.share_merge.specs.Results.{AreListed};
ghost use Rattle.share_core.specs.Finishes.{IsBreak};

use crate::coordinator::Coordinator;
use residues::Ring;
use share_merge::{MergeFault, Merged, merge};
use std::alloc::Global;

impl<R: Ring> Coordinator<R> {
    /// The reduced rows of all listed relations, each with its combination of them, from the counted shares in the order of counting.
    ///
    /// `MissingShare(i)` where `i` is the least index that is not counted, so 0 where none is. `NoInverse { value, share, row }` where what the
    /// rows before it in turn leave of row `row` of the share with index `share` leads with `value`, which has no inverse, and it is the first
    /// such row. `Memory` where memory is wanting. No other fault comes, and no `MissingShare` where [`Coordinator::done`].
    pub fn finish(&self, alloc: Global) -> Result<Merged<R>, MergeFault>
        ensures ring { IfOk result (λ merged. merged.rows.ring ≡ self.now.setting.table.ring) }
        ensures rows { IfOk result (λ merged. IsRowList (R.modulus self.now.setting.table.ring) (R.has self.now.setting.table.ring)
            (R.value self.now.setting.table.ring) R.zero (length self.now.setting.table.columns.list) merged.rows.rows) }
        ensures fits { IfOk result (λ merged. AreListed (R.has self.now.setting.table.ring) R.zero (count_of self.now.setting.table.columns)
            (length merged.rows.rows) merged.combinations.items) }
        ensures complete { IfOk result (λ merged. IsComplete (R.modulus self.now.setting.table.ring) self.now.setting.table.columns
            (length merged.rows.rows) (lead_at merged.rows.rows) (row_at (R.value self.now.setting.table.ring) merged.rows.rows)
            (row_at (R.value self.now.setting.table.ring) merged.combinations.items)) }
        ensures all { OnOk result (HasAll self.now.setting.of self.now.lists.counted) }
        ensures unbroken { OnOk result (MergesWhole (R.modulus self.now.setting.table.ring) (R.value self.now.setting.table.ring)
            self.now.setting.table.columns self.now.lists.counted) }
        ensures none { self.now.lists.counted ≡ [] → IsErrOf result (MergeFault.MissingShare 0) }
        ensures missing_share { (index : ℕ) → IsErrOf result (MergeFault.MissingShare index)
            → IsLeastMissing self.now.setting.of self.now.lists.counted index }
        ensures missing { (index : ℕ) → IsLeastMissing self.now.setting.of self.now.lists.counted index
            → IsErrOf result (MergeFault.MissingShare index) }
        ensures there { (value share row : ℕ) → IsErrOf result (MergeFault.NoInverse value share row)
            → HasAll self.now.setting.of self.now.lists.counted }
        ensures no_inverse { (value share row : ℕ) → IsErrOf result (MergeFault.NoInverse value share row)
            → BreaksAtRow (R.modulus self.now.setting.table.ring) (R.value self.now.setting.table.ring) self.now.setting.table.columns
            self.now.lists.counted value share row }
        ensures whole { HasAll self.now.setting.of self.now.lists.counted → MatchResult result
            (λ merged. IsComplete (R.modulus self.now.setting.table.ring) self.now.setting.table.columns (length merged.rows.rows)
            (lead_at merged.rows.rows) (row_at (R.value self.now.setting.table.ring) merged.rows.rows)
            (row_at (R.value self.now.setting.table.ring) merged.combinations.items))
            (IsBreak (BreaksAtRow (R.modulus self.now.setting.table.ring) (R.value self.now.setting.table.ring) self.now.setting.table.columns
            self.now.lists.counted)) }
    {
        let table = self.setting.table();
        let counted = self.lists.counted();
        if counted.is_empty() {
            return Err(MergeFault::MissingShare(0));
        }
        merge(alloc, table, counted)
    }
}

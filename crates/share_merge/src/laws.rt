//! The law of merging. The function does nothing: its contract is the law.
ghost use Rattle.std.specs.Prelude.{◌≡◌, ℕ, List};
ghost use Rattle.column_order.specs.Columns.{ColumnList};
ghost use Rattle.table_model.specs.Conversion.{IsTable, Converts};
ghost use Rattle.share_model.specs.Checked.{Checked};
ghost use Rattle.share_merge.specs.Turns.{HasAll, IsLeastMissing, MergesWhole, BreaksAtRow};

use residues::Ring;

/// The answers exclude each other: where an index is missing, not each occurs, and only one is the least; where the work breaks, it is not
/// whole, and it breaks at one row of one share with one residue.
pub fn merge_laws<R: Ring>()
    ensures missing { (shares index : ℕ) (list : List (Checked R R.Elem)) → IsLeastMissing shares list index → ¬ (HasAll shares list) }
    ensures least { (shares index other : ℕ) (list : List (Checked R R.Elem)) → IsLeastMissing shares list index → IsLeastMissing shares list other
        → index ≡ other }
    ensures broken { (ring : R) (columns : ColumnList) (list : List (Checked R R.Elem)) (residue share row : ℕ)
        → BreaksAtRow (R.modulus ring) (R.value ring) columns list residue share row → ¬ (MergesWhole (R.modulus ring) (R.value ring) columns list) }
    ensures once { (ring : R) (columns : ColumnList) (list : List (Checked R R.Elem)) (residue share row other_residue other_share other_row : ℕ)
        → IsTable (R.modulus ring) columns → Converts (R.modulus ring) columns
        → BreaksAtRow (R.modulus ring) (R.value ring) columns list residue share row
        → BreaksAtRow (R.modulus ring) (R.value ring) columns list other_residue other_share other_row
        → (residue ≡ other_residue) × (share ≡ other_share) × (row ≡ other_row) }
{}

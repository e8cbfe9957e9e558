//! First faults and verdicts.
ghost use Rattle.std.specs.Prelude.{◌≡◌, ◌⊎◌, ℕ, ◌<◌, ◌↔◌, List};
ghost use Rattle.zeta_model.specs.declared.Letter.{Letter};
ghost use Rattle.linear_model.specs.Reduced.{IsReduced};
ghost use Rattle.column_order.specs.Columns.{ColumnList};
ghost use Rattle.table_model.specs.Conversion.{IsTable, IsTableSum, Converts, IsOver};
ghost use Rattle.table_model.specs.ReducedRows.{IsUnbroken, BreaksFirst};
ghost use Rattle.table_model.specs.Faults.{IsNotInvertible, IsReducedAt, Verdict, IsVerdict};

/// A table that does not convert has one first word at which it does not, with one residue, and work that is broken has one number at which it
/// breaks first.
///
/// A list is reduced exactly where it is so at each place. A table converts or has a first word at which it does not, and rows over the
/// columns have exactly one verdict.
pub fn fault_laws()
    ensures not_invertible { (m : ℕ) (columns : ColumnList) (u v : List Letter) (r s : ℕ) → IsNotInvertible m columns u r → IsNotInvertible m columns v s
        → (u ≡ v) × (r ≡ s) }
    ensures one_break { (m : ℕ) (columns : ColumnList) → IsTable m columns → (sums : ℕ → List Letter → ℕ) → ((k : ℕ) → IsTableSum m columns (sums k))
        → Converts m columns
        → (n k r s : ℕ) → BreaksFirst m columns sums n r → BreaksFirst m columns sums k s → (n ≡ k) × (r ≡ s) }
    ensures converts { (m : ℕ) (columns : ColumnList) → IsTable m columns
        → Converts m columns ⊎ ((u : List Letter) × (residue : ℕ) × IsNotInvertible m columns u residue) }
    ensures breaks { (m : ℕ) (columns : ColumnList) → IsTable m columns → (sums : ℕ → List Letter → ℕ) → ((k : ℕ) → IsTableSum m columns (sums k))
        → Converts m columns
        → (k : ℕ) → IsUnbroken m columns sums k ⊎ ((j : ℕ) × (residue : ℕ) × (j < k) × BreaksFirst m columns sums j residue) }
    ensures verdict { (m : ℕ) (columns : ColumnList) → IsTable m columns → (count : ℕ) (lead : ℕ → ℕ) (rows combinations : ℕ → ℕ → ℕ)
        → ((i : ℕ) → i < count → IsOver m columns (rows i)) → (v : Verdict) × IsVerdict m columns count lead rows combinations v }
    ensures places { (m count : ℕ) (lead : ℕ → ℕ) (rows : ℕ → ℕ → ℕ)
        → IsReduced m count lead rows ↔ ((i : ℕ) → i < count → IsReducedAt m count lead rows i) }
    ensures one_verdict { (m : ℕ) (columns : ColumnList) (count : ℕ) (lead : ℕ → ℕ) (rows combinations : ℕ → ℕ → ℕ) → IsTable m columns
        → (v w : Verdict) → IsVerdict m columns count lead rows combinations v → IsVerdict m columns count lead rows combinations w → v ≡ w }
{}

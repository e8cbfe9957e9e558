//! Laws of shares. The function does nothing: its contract is the laws.
ghost use Rattle.std.specs.Prelude.{◌≡◌, ℕ, ◌+◌, ◌*◌, ◌<◌};
ghost use Rattle.linear_model.specs.Rows.{InSpan};
ghost use Rattle.linear_model.specs.Reduced.{IsReduced};
ghost use Rattle.column_order.specs.Columns.{ColumnList};
ghost use Rattle.table_model.specs.Conversion.{IsTable, Converts, IsOver};
ghost use Rattle.table_model.specs.ListedSpan.{count_of};
ghost use Rattle.table_model.specs.Complete.{Evaluates, IsComplete};
ghost use Rattle.table_model.specs.ReducedRows.{IsReducedRows};
ghost use Rattle.share_model.specs.Dealing.{InShare, share_values, share_size, AllOfShare, IsShareResult};

/// A result of a share has the reduced rows of the share's relations, and these with their combinations are one.
///
/// A reduced list whose span has the rows of a result of each share, and of which each row is what its combination of listed relations
/// gives, is complete: it is the reduced list of all listed relations, in whatever order the results were taken.
pub fn share_laws()
    ensures member { (index shares n : ℕ) → index < shares → InShare index shares n → (k : ℕ) × (n ≡ index + shares * k) }
    ensures inside { (columns : ColumnList) (index shares k : ℕ) → index < shares → k < share_size columns index shares
        → index + shares * k < count_of columns }
    ensures reaches { (columns : ColumnList) (index shares k : ℕ) → index < shares → index + shares * k < count_of columns
        → k < share_size columns index shares }
    ensures result { (m : ℕ) (columns : ColumnList) → IsTable m columns → Converts m columns → (index shares : ℕ) → index < shares
        → (count : ℕ) (lead : ℕ → ℕ) (rows combinations : ℕ → ℕ → ℕ)
        → IsReducedRows m columns (share_values m columns index shares) (share_size columns index shares) count lead rows
        → AllOfShare m columns index shares count rows combinations → IsShareResult m columns index shares count lead rows combinations }
    ensures reduced { (m : ℕ) (columns : ColumnList) → IsTable m columns → Converts m columns → (index shares : ℕ) → index < shares
        → (count : ℕ) (lead : ℕ → ℕ) (rows combinations : ℕ → ℕ → ℕ) → IsShareResult m columns index shares count lead rows combinations
        → IsReducedRows m columns (share_values m columns index shares) (share_size columns index shares) count lead rows }
    ensures merged { (m : ℕ) (columns : ColumnList) → IsTable m columns → Converts m columns → (shares : ℕ) → 0 < shares
        → (counts : ℕ → ℕ) (leads : ℕ → ℕ → ℕ) (results combinations_of : ℕ → ℕ → ℕ → ℕ)
        → ((index : ℕ) → index < shares → IsShareResult m columns index shares (counts index) (leads index) (results index) (combinations_of index))
        → (count : ℕ) (lead : ℕ → ℕ) (rows combinations : ℕ → ℕ → ℕ) → IsReduced m count lead rows → ((i : ℕ) → i < count → IsOver m columns (rows i))
        → ((i : ℕ) → i < count → Evaluates m columns (rows i) (combinations i))
        → ((index i : ℕ) → index < shares → i < counts index → InSpan m count rows (results index i))
        → IsComplete m columns count lead rows combinations }
{}

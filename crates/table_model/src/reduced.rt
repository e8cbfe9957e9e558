//! The reduced rows of the first sums of those that are offered.
ghost use Rattle.std.specs.Prelude.{◌≡◌, ℕ, suc, ◌<◌, ◌↔◌, List};
ghost use Rattle.zeta_model.specs.declared.Letter.{Letter};
ghost use Rattle.linear_model.specs.Rows.{SameRow, SameSpan};
ghost use Rattle.linear_model.specs.Reduced.{IsReduced};
ghost use Rattle.column_order.specs.Columns.{ColumnList};
ghost use Rattle.table_model.specs.Conversion.{IsTable, IsTableSum, Converts, IsCols};
ghost use Rattle.table_model.specs.ListedSpan.{values_of, InSumSpan};
ghost use Rattle.table_model.specs.ReducedRows.{IsReducedRows, IsForwardRow, IsUnbroken};

/// There is one list of reduced rows of the first n sums.
///
/// It begins with no row. It stays where sum number n is in the span of the earlier ones, and is one row longer where there
/// is a forward row. So there is one for each n below which the work is not broken. A reduced list with the span of the rows of the
/// first n sums is that list.
pub fn reduced_row_laws()
    ensures values { (m : ℕ) (columns : ColumnList) → IsTable m columns → (n : ℕ) → IsTableSum m columns (values_of m columns n) }
    ensures counts { (m : ℕ) (columns : ColumnList) → IsTable m columns → (sums : ℕ → List Letter → ℕ)
        → (n count k : ℕ) (lead other_lead : ℕ → ℕ) (rows others : ℕ → ℕ → ℕ)
        → IsReducedRows m columns sums n count lead rows → IsReducedRows m columns sums n k other_lead others → count ≡ k }
    ensures leads { (m : ℕ) (columns : ColumnList) → IsTable m columns → (sums : ℕ → List Letter → ℕ)
        → (n count k : ℕ) (lead other_lead : ℕ → ℕ) (rows others : ℕ → ℕ → ℕ)
        → IsReducedRows m columns sums n count lead rows → IsReducedRows m columns sums n k other_lead others → (i : ℕ) → i < count
        → lead i ≡ other_lead i }
    ensures rows { (m : ℕ) (columns : ColumnList) → IsTable m columns → (sums : ℕ → List Letter → ℕ)
        → (n count k : ℕ) (lead other_lead : ℕ → ℕ) (rows others : ℕ → ℕ → ℕ)
        → IsReducedRows m columns sums n count lead rows → IsReducedRows m columns sums n k other_lead others → (i : ℕ) → i < count
        → SameRow m (rows i) (others i) }
    ensures none { (m : ℕ) (columns : ColumnList) → IsTable m columns → (sums : ℕ → List Letter → ℕ) → ((k : ℕ) → IsTableSum m columns (sums k))
        → Converts m columns
        → (lead : ℕ → ℕ) (rows : ℕ → ℕ → ℕ) → IsReducedRows m columns sums 0 0 lead rows }
    ensures nothing { (m : ℕ) (columns : ColumnList) → IsTable m columns → (sums : ℕ → List Letter → ℕ) → (n count : ℕ) (lead : ℕ → ℕ) (rows : ℕ → ℕ → ℕ)
        → IsReducedRows m columns sums n count lead rows → InSumSpan m n sums (sums n)
        → IsReducedRows m columns sums (suc n) count lead rows }
    ensures forward { (m : ℕ) (columns : ColumnList) → IsTable m columns → (sums : ℕ → List Letter → ℕ) → ((k : ℕ) → IsTableSum m columns (sums k))
        → Converts m columns
        → (n count : ℕ) (lead : ℕ → ℕ) (rows : ℕ → ℕ → ℕ) → IsReducedRows m columns sums n count lead rows → (row : ℕ → ℕ)
        → IsForwardRow m columns sums n row
        → (next_lead : ℕ → ℕ) × (next_rows : ℕ → ℕ → ℕ) × IsReducedRows m columns sums (suc n) (suc count) next_lead next_rows }
    ensures from_span { (m : ℕ) (columns : ColumnList) → IsTable m columns → Converts m columns → (sums : ℕ → List Letter → ℕ)
        → (n count : ℕ) (lead : ℕ → ℕ) (list rows : ℕ → ℕ → ℕ) → ((i : ℕ) → i < n → IsCols m columns (sums i) (rows i))
        → IsReduced m count lead list → SameSpan m count list n rows → IsReducedRows m columns sums n count lead list }
    ensures unbroken { (m : ℕ) (columns : ColumnList) → IsTable m columns → (sums : ℕ → List Letter → ℕ) → ((k : ℕ) → IsTableSum m columns (sums k))
        → Converts m columns
        → (n : ℕ) → IsUnbroken m columns sums n
        → (count : ℕ) × (lead : ℕ → ℕ) × (rows : ℕ → ℕ → ℕ) × IsReducedRows m columns sums n count lead rows }
{}

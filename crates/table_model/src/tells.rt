//! What complete rows tell.
ghost use Rattle.std.specs.Prelude.{ℕ, ◌<◌, List};
ghost use Rattle.zeta_model.specs.declared.Letter.{Letter};
ghost use Rattle.linear_model.specs.Rows.{SameRow};
ghost use Rattle.linear_model.specs.Reduced.{IsReduced, IsNormalForm};
ghost use Rattle.table_model.specs.Computed.{normal_form_of};
ghost use Rattle.column_order.specs.Columns.{ColumnList};
ghost use Rattle.table_model.specs.Conversion.{IsTable, IsTableSum, Converts, IsOver};
ghost use Rattle.table_model.specs.ListedSpan.{values_of, count_of};
ghost use Rattle.table_model.specs.ReducedRows.{IsReducedRows};
ghost use Rattle.table_model.specs.Complete.{Evaluates, IsPolynomial, IsComplete, Tells};

/// Complete rows are the reduced rows of all listed relations, and these with their combinations are complete.
///
/// By them each sum of words of the table has exactly one polynomial, and two sums have the same one exactly where their difference is in
/// the span of the listed relations.
pub fn completeness_laws()
    ensures complete { (m : ℕ) (columns : ColumnList) → IsTable m columns → (count : ℕ) (lead : ℕ → ℕ) (rows combinations : ℕ → ℕ → ℕ)
        → IsComplete m columns count lead rows combinations → IsReducedRows m columns (values_of m columns) (count_of columns) count lead rows }
    ensures reduced { (m : ℕ) (columns : ColumnList) → IsTable m columns → Converts m columns → (count : ℕ) (lead : ℕ → ℕ) (rows combinations : ℕ → ℕ → ℕ)
        → IsReducedRows m columns (values_of m columns) (count_of columns) count lead rows
        → ((i : ℕ) → i < count → Evaluates m columns (rows i) (combinations i)) → IsComplete m columns count lead rows combinations }
    ensures computed { (m count : ℕ) (lead : ℕ → ℕ) (rows : ℕ → ℕ → ℕ) → 0 < m → IsReduced m count lead rows
        → (p : ℕ → ℕ) → IsNormalForm m count lead rows p (normal_form_of m count lead rows p) }
    ensures polynomial { (m : ℕ) (columns : ColumnList) → IsTable m columns → Converts m columns → (count : ℕ) (lead : ℕ → ℕ) (rows : ℕ → ℕ → ℕ)
        → IsReduced m count lead rows → (s : List Letter → ℕ) → IsTableSum m columns s → (q : ℕ → ℕ) × IsPolynomial m columns count lead rows s q }
    ensures over { (m : ℕ) (columns : ColumnList) (count : ℕ) (lead : ℕ → ℕ) (rows : ℕ → ℕ → ℕ)
        → ((i : ℕ) → i < count → IsOver m columns (rows i)) → (s : List Letter → ℕ) (q : ℕ → ℕ) → IsPolynomial m columns count lead rows s q
        → IsOver m columns q }
    ensures one_polynomial { (m : ℕ) (columns : ColumnList) → IsTable m columns → Converts m columns
        → (sums : ℕ → List Letter → ℕ) (n count k : ℕ) (lead other_lead : ℕ → ℕ) (rows others : ℕ → ℕ → ℕ)
        → IsReducedRows m columns sums n count lead rows → IsReducedRows m columns sums n k other_lead others → (s : List Letter → ℕ) (q r : ℕ → ℕ)
        → IsPolynomial m columns count lead rows s q → IsPolynomial m columns k other_lead others s r → SameRow m q r }
    ensures tells { (m : ℕ) (columns : ColumnList) → IsTable m columns → (count : ℕ) (lead : ℕ → ℕ) (rows : ℕ → ℕ → ℕ)
        → IsReducedRows m columns (values_of m columns) (count_of columns) count lead rows → Tells m columns count lead rows }
{}

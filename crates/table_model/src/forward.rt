//! What is left of a sum, its forward row, and combinations over accepted numbers.
ghost use Rattle.std.specs.Prelude.{ℕ, suc, ◌*◌, ◌<◌, ◌↔◌, List};
ghost use Rattle.zeta_model.specs.declared.Letter.{Letter};
ghost use Rattle.zeta_model.specs.Modular.{Same};
ghost use Rattle.linear_model.specs.Rows.{SameRow, SameSpan};
ghost use Rattle.linear_model.specs.Reduced.{IsLead, IsNormalForm};
ghost use Rattle.linear_model.specs.Forward.{IsForward};
ghost use Rattle.table_model.specs.MonomialWords.{words_of_row};
ghost use Rattle.column_order.specs.Columns.{ColumnList};
ghost use Rattle.table_model.specs.Conversion.{IsTable, IsTableSum, Converts, IsCols};
ghost use Rattle.table_model.specs.ListedSpan.{InSumSpan};
ghost use Rattle.table_model.specs.ReducedRows.{IsReducedRows, IsRest, IsForwardRow, IsCombination, IsUnbroken};

/// With reduced rows of the earlier ones a sum has exactly one rest, and at most one forward row.
///
/// The rest is zero exactly where the sum is in the span of the earlier ones; else, where it leads with an inverse, it gives a forward row.
/// A forward list with the span of the rows of the earlier ones leaves the rest too. Where the work is not broken, a row with words in the
/// span has exactly one combination over accepted numbers; so has a forward row.
pub fn forward_row_laws()
    ensures rest { (m : ℕ) (columns : ColumnList) → IsTable m columns → (sums : ℕ → List Letter → ℕ) → ((k : ℕ) → IsTableSum m columns (sums k))
        → Converts m columns
        → (n count : ℕ) (lead : ℕ → ℕ) (rows : ℕ → ℕ → ℕ)
        → IsReducedRows m columns sums n count lead rows → (q : ℕ → ℕ) × IsRest m columns sums n q }
    ensures one_rest { (m : ℕ) (columns : ColumnList) → IsTable m columns → (sums : ℕ → List Letter → ℕ) → ((k : ℕ) → IsTableSum m columns (sums k))
        → Converts m columns
        → (n : ℕ) (q r : ℕ → ℕ)
        → IsRest m columns sums n q → IsRest m columns sums n r → SameRow m q r }
    ensures zero { (m : ℕ) (columns : ColumnList) → IsTable m columns → (sums : ℕ → List Letter → ℕ) → (n : ℕ) (q : ℕ → ℕ) → IsRest m columns sums n q
        → SameRow m q (λ _. 0) ↔ InSumSpan m n sums (sums n) }
    ensures unique { (m : ℕ) (columns : ColumnList) → IsTable m columns → (sums : ℕ → List Letter → ℕ) → ((k : ℕ) → IsTableSum m columns (sums k))
        → Converts m columns
        → (n : ℕ) (p q : ℕ → ℕ)
        → IsForwardRow m columns sums n p → IsForwardRow m columns sums n q → SameRow m p q }
    ensures forward { (m : ℕ) (columns : ColumnList) (sums : ℕ → List Letter → ℕ) (n : ℕ) (q : ℕ → ℕ) (col b : ℕ)
        → IsRest m columns sums n q → IsLead m q col → Same m (q col * b) 1 → IsForwardRow m columns sums n (λ j. b * q j) }
    ensures from_forward_list { (m : ℕ) (columns : ColumnList) → IsTable m columns → Converts m columns → (sums : ℕ → List Letter → ℕ)
        → (n count k : ℕ) (lead other_lead : ℕ → ℕ) (list others rows : ℕ → ℕ → ℕ) → ((i : ℕ) → i < suc n → IsCols m columns (sums i) (rows i))
        → IsReducedRows m columns sums n k other_lead others → IsForward m count lead list → SameSpan m count list n rows
        → (q : ℕ → ℕ) → IsNormalForm m count lead list (rows n) q → IsRest m columns sums n q }
    ensures listed { (m : ℕ) (columns : ColumnList) → IsTable m columns → (sums : ℕ → List Letter → ℕ) → ((k : ℕ) → IsTableSum m columns (sums k))
        → Converts m columns
        → (n : ℕ) (row : ℕ → ℕ) → IsForwardRow m columns sums n row → InSumSpan m (suc n) sums (words_of_row columns.list row) }
    ensures combination { (m : ℕ) (columns : ColumnList) → IsTable m columns → (sums : ℕ → List Letter → ℕ) → ((k : ℕ) → IsTableSum m columns (sums k))
        → Converts m columns
        → (n : ℕ) → IsUnbroken m columns sums n → (p : ℕ → ℕ) → InSumSpan m n sums (words_of_row columns.list p)
        → (c : ℕ → ℕ) × IsCombination m columns sums n p c }
    ensures one_combination { (m : ℕ) (columns : ColumnList) → IsTable m columns → (sums : ℕ → List Letter → ℕ) → ((k : ℕ) → IsTableSum m columns (sums k))
        → Converts m columns
        → (n : ℕ) → IsUnbroken m columns sums n
        → (p c d : ℕ → ℕ) → IsCombination m columns sums n p c → IsCombination m columns sums n p d → (k : ℕ) → Same m (c k) (d k) }
{}

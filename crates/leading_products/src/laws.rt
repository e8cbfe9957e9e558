//! The laws of leading products.
ghost use Rattle.std.specs.Prelude.{◌≡◌, ℕ, ◌+◌, ◌<◌, ◌≤◌, IsTrue, List, length};
ghost use Rattle.zeta_model.specs.declared.Letter.{Letter};
ghost use Rattle.zeta_model.specs.Words.{depth_of, is_admissible};
ghost use Rattle.lyndon_words.specs.Monomials.{product_of};
ghost use Rattle.column_order.specs.Columns.{ColumnList};
ghost use Rattle.table_model.specs.MonomialWords.{column_at};
ghost use Rattle.table_model.specs.Conversion.{IsTable};
ghost use Rattle.table_model.specs.ListedSpan.{values_of, count_of, InSpanOfAll};
ghost use Rattle.table_model.specs.ReducedRows.{IsReducedRows};
ghost use Rattle.table_model.specs.Complete.{IsComplete};
ghost use Rattle.leading_products.specs.Cofactors.{shuffle_of_sum, IsLower, IsCofactor, LeadsARow};

/// A product of a combination of listed relations with a word is a combination of the listed relations of higher weight. So where a monomial
/// leads a reduced row of a table, its product with one more monomial leads a reduced row of a table of higher weight.
///
/// Both tables have one modulus and one order. The lower weight is at least 3, and the word or monomial has the weight that is left to the
/// higher one, at least 2, and at most the depth that is left. At most one of the reduced rows of a table leads with a monomial.
pub fn leading_products()
    ensures span { (m k e w d : ℕ) (s : List Letter → ℕ) (u : List Letter) → 3 ≤ k → w ≤ 24
        → IsTrue (is_admissible u) → k + length u ≡ w → e + depth_of u ≤ d → InSpanOfAll m k e s → InSpanOfAll m w d (shuffle_of_sum k s u) }
    ensures leads { (m : ℕ) (low high : ColumnList) → IsTable m low → IsTable m high → IsLower low high
        → (count high_count : ℕ) (lead high_lead : ℕ → ℕ) (rows high_rows : ℕ → ℕ → ℕ)
        → IsReducedRows m low (values_of m low) (count_of low) count lead rows
        → IsReducedRows m high (values_of m high) (count_of high) high_count high_lead high_rows
        → (p q : List (List Letter)) → LeadsARow low count lead p → IsCofactor low high q → LeadsARow high high_count high_lead (product_of p q) }
    ensures complete { (m : ℕ) (low high : ColumnList) → IsTable m low → IsTable m high → IsLower low high
        → (count high_count : ℕ) (lead high_lead : ℕ → ℕ) (rows high_rows combinations high_combinations : ℕ → ℕ → ℕ)
        → IsComplete m low count lead rows combinations → IsComplete m high high_count high_lead high_rows high_combinations
        → (p q : List (List Letter)) → LeadsARow low count lead p → IsCofactor low high q → LeadsARow high high_count high_lead (product_of p q) }
    ensures one_row { (m : ℕ) (columns : ColumnList) → IsTable m columns → (sums : ℕ → List Letter → ℕ) (n count : ℕ) (lead : ℕ → ℕ) (rows : ℕ → ℕ → ℕ)
        → IsReducedRows m columns sums n count lead rows → (i j : ℕ) → i < count → j < count
        → column_at columns.list (lead i) ≡ column_at columns.list (lead j) → i ≡ j }
{}

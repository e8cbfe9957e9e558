//! The law of the conversion. The function does nothing: its contract is the theorem.
ghost use Rattle.std.specs.Prelude.{◌≡◌, ℕ, ◌%◌, List};
ghost use Rattle.zeta_model.specs.declared.Letter.{Letter};
ghost use Rattle.word_sums.specs.Terms.{coefficient_of, IsTerms, AllIn as AllTermsIn};
ghost use Rattle.sparse_rows.specs.Entries.{AllIn, IsRow};
ghost use Rattle.column_order.specs.Columns.{ColumnList};
ghost use Rattle.table_model.specs.MonomialWords.{words_of_row};
ghost use Rattle.table_model.specs.Conversion.{IsTable, Converts, IsOver, IsCols};
ghost use Rattle.lyndon_polys.specs.Tables.{entries_of};

use residues::Ring;

/// A sum that has a row is the words of that row, and a row that is over the columns is the row of its words: so columns and words
/// are converted one to one.
pub fn conversion_is_one_to_one<R: Ring>()
    ensures sum { (ring : R) (columns : ColumnList) (terms : List (List Letter × R.Elem)) (row : List (ℕ × R.Elem))
        → IsTerms R.zero terms → AllTermsIn (R.has ring) terms
        → IsCols (R.modulus ring) columns (coefficient_of (R.value ring) terms) (entries_of (R.value ring) row)
        → (t : List Letter) → words_of_row columns.list (entries_of (R.value ring) row) t % R.modulus ring ≡ coefficient_of (R.value ring) terms t }
    ensures row { (ring : R) (columns : ColumnList) (row other : List (ℕ × R.Elem)) → IsTable (R.modulus ring) columns → Converts (R.modulus ring) columns
        → IsRow (λ k. k) R.zero 0 row → AllIn (R.has ring) row → IsOver (R.modulus ring) columns (entries_of (R.value ring) row)
        → IsRow (λ k. k) R.zero 0 other → AllIn (R.has ring) other
        → IsCols (R.modulus ring) columns (words_of_row columns.list (entries_of (R.value ring) row)) (entries_of (R.value ring) other) → other ≡ row }
{}

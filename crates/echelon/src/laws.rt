//! Laws of eliminations. Each function does nothing: its contract is the law.
ghost use Rattle.std.specs.Prelude.{◌≡◌, ℕ, ◌+◌, ◌<◌, List, ◌∷◌, ◌++◌, [], length};
ghost use Rattle.linear_model.specs.Rows.{SameSpan, rows_and};
ghost use Rattle.echelon.specs.Lists.{entries_of, row_at};
ghost use Rattle.echelon.specs.States.{IsRowList};
ghost use Rattle.echelon.specs.Offers.{TakesIn};
ghost use Rattle.echelon.specs.Finishes.{SameSpanOf};

use residues::Ring;

/// The rows offered so far, or restored, have the span of those kept: it is so before the first, and stays so.
///
/// `offered` are all rows that were offered or restored without a refusal, in any order; `row` is the next.
pub fn kept_rows_span_all_offered<R: Ring>()
    ensures start { (ring : R) → SameSpanOf {E = R.Elem} (R.modulus ring) (R.value ring) [] [] }
    ensures next { (ring : R) (offered kept new : List (List (ℕ × R.Elem))) (row : List (ℕ × R.Elem)) → SameSpanOf (R.modulus ring) (R.value ring) offered kept
        → TakesIn (R.modulus ring) (R.value ring) kept (entries_of (R.value ring) row) new → SameSpanOf (R.modulus ring) (R.value ring) (offered ++ row ∷ []) new }
    ensures restored { (ring : R) (kept : List (List (ℕ × R.Elem))) (row : List (ℕ × R.Elem)) → TakesIn (R.modulus ring) (R.value ring) kept (entries_of (R.value ring) row) (kept ++ row ∷ []) }
{}

/// Two reduced lists of one ring with one span are one list of rows, whatever they were made of and in whatever order.
pub fn reduced_rows_are_known_by_their_span<R: Ring>()
    ensures { (ring : R) (columns others_columns : ℕ) (rows others : List (List (ℕ × R.Elem)))
        → IsRowList (R.modulus ring) (R.has ring) (R.value ring) R.zero columns rows → IsRowList (R.modulus ring) (R.has ring) (R.value ring) R.zero others_columns others
        → SameSpanOf (R.modulus ring) (R.value ring) rows others → rows ≡ others }
{}

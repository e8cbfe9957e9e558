//! The laws of texts. These functions do nothing when they are called: what each one says is its contract, and the check proves it.
ghost use Rattle.std.specs.Prelude.{◌≡◌, ℕ, ◌^◌, ◌<◌, ◌≤◌, List, length};
ghost use Rattle.column_order.specs.Columns.{ColumnList, IsColumns};
ghost use Rattle.sparse_rows.specs.Entries.{IsRow, IsBelow, AllIn};
ghost use Rattle.poly_print.specs.Polynomials.{residue_pairs, ArePairs};
ghost use Rattle.fraction_print.specs.FractionTexts.{IsFractionsText};

use residues::Ring;

/// Each row of residues has exactly one text, and two rows that have one text are one row.
pub fn fractions_text_laws()
    ensures some { (m : ℕ) (columns : ColumnList) (es : List (ℕ × ℕ)) → 3 ≤ m → (text : List ℕ) × IsFractionsText m columns.list es text }
    ensures one { (m n : ℕ) (columns : ColumnList) (es : List (ℕ × ℕ)) (text other : List ℕ) → ArePairs m n 0 es
        → IsFractionsText m columns.list es text → IsFractionsText m columns.list es other → text ≡ other }
    ensures rows { (columns : ColumnList) → 2 ≤ columns.weight → IsColumns columns → (m : ℕ) (es fs : List (ℕ × ℕ)) (text : List ℕ) → 3 ≤ m → m < 2 ^ 64
        → ArePairs m (length columns.list) 0 es → ArePairs m (length columns.list) 0 fs
        → IsFractionsText m columns.list es text → IsFractionsText m columns.list fs text → es ≡ fs }
{}

/// Each row of a ring has a text, and two rows of one ring that have one text are one row.
pub fn rows_are_known_by_their_fractions<R: Ring>()
    ensures some { (ring : R) (columns : ColumnList) (p : List (ℕ × R.Elem))
        → (text : List ℕ) × IsFractionsText (R.modulus ring) columns.list (residue_pairs (λ col. col) (R.value ring) p) text }
    ensures rows { (ring : R) (columns : ColumnList) → 2 ≤ columns.weight → IsColumns columns → (p q : List (ℕ × R.Elem)) (text : List ℕ)
        → IsRow (λ col. col) R.zero 0 p → IsRow (λ col. col) R.zero 0 q
        → IsBelow (λ col. col) (length columns.list) p → IsBelow (λ col. col) (length columns.list) q
        → AllIn (R.has ring) p → AllIn (R.has ring) q
        → IsFractionsText (R.modulus ring) columns.list (residue_pairs (λ col. col) (R.value ring) p) text
        → IsFractionsText (R.modulus ring) columns.list (residue_pairs (λ col. col) (R.value ring) q) text
        → p ≡ q }
{}

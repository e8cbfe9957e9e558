//! The law of texts as lines. This function does nothing when it is called: what it says is its contract, and the check proves it.
ghost use Rattle.std.specs.Prelude.{◌≡◌, ℕ, ◌^◌, ◌<◌, ◌≤◌, List, length};
ghost use Rattle.column_order.specs.Columns.{ColumnList, IsColumns};
ghost use Rattle.poly_print.specs.Polynomials.{ArePairs};
ghost use Rattle.fraction_print.specs.FractionTexts.{IsFractionsText};
ghost use Rattle.fraction_lines.specs.FractionLines.{ReadsBack};

/// The text of a row, whose residues are printed as fractions, is a line of the grammar whose terms mean the words of the row, and none of its
/// terms is refused in its table.
pub fn fraction_texts_are_lines()
    ensures reads_back { (columns : ColumnList) → 2 ≤ columns.weight → IsColumns columns → (m : ℕ) → 3 ≤ m → m < 2 ^ 64
        → (es : List (ℕ × ℕ)) (text : List ℕ) → ArePairs m (length columns.list) 0 es → IsFractionsText m columns.list es text
        → ReadsBack m columns.weight columns.depth columns.list es text }
{}

//! The laws of replies with fractions. This function does nothing when it is called: what it says is its contract, and the check proves it.
ghost use Rattle.std.specs.Prelude.{◌≡◌, ℕ, ◌^◌, ◌<◌, ◌≤◌, List};
ghost use Rattle.linear_model.specs.Reduced.{IsReduced};
ghost use Rattle.column_order.specs.Columns.{ColumnList};
ghost use Rattle.table_model.specs.Conversion.{IsTable, Converts};
ghost use Rattle.table_model.specs.ListedSpan.{values_of, count_of};
ghost use Rattle.table_model.specs.ReducedRows.{IsReducedRows};
ghost use Rattle.fraction_replies.specs.Replies.{IsFractionReply, AreFractionReplies};
ghost use Rattle.fraction_replies.specs.Telling.{TellsByFractions};

/// Over reduced rows each line has a reply. Two lists of the reduced rows of all listed relations give it the same one, and such replies tell
/// the classes of sums.
pub fn fraction_reply_laws()
    ensures some { (m : ℕ) (columns : ColumnList) → IsTable m columns → Converts m columns → (count : ℕ) (lead : ℕ → ℕ) (rows : ℕ → ℕ → ℕ)
        → IsReduced m count lead rows → (line : List ℕ) → (bytes : List ℕ) × IsFractionReply m columns count lead rows line bytes }
    ensures one { (m : ℕ) (columns : ColumnList) → IsTable m columns → Converts m columns → (count k : ℕ) (lead other : ℕ → ℕ) (rows others : ℕ → ℕ → ℕ)
        → IsReducedRows m columns (values_of m columns) (count_of columns) count lead rows
        → IsReducedRows m columns (values_of m columns) (count_of columns) k other others → (line a b : List ℕ)
        → IsFractionReply m columns count lead rows line a → IsFractionReply m columns k other others line b → a ≡ b }
    ensures tells { (m : ℕ) (columns : ColumnList) → IsTable m columns → m < 2 ^ 64 → (count : ℕ) (lead : ℕ → ℕ) (rows : ℕ → ℕ → ℕ)
        → IsReducedRows m columns (values_of m columns) (count_of columns) count lead rows → (reply : List ℕ → List ℕ)
        → AreFractionReplies m columns count lead rows reply → TellsByFractions m columns.weight columns.depth reply }
{}

//! The laws of replies over a table. These functions do nothing when they are called: what each one says is its contract, and the check
//! proves it.
ghost use Rattle.std.specs.Prelude.{◌≡◌, ℕ, ◌^◌, ◌<◌, List, length};
ghost use Rattle.linear_model.specs.Reduced.{IsReduced};
ghost use Rattle.column_order.specs.Columns.{ColumnList};
ghost use Rattle.echelon.specs.Lists.{lead_at, row_at};
ghost use Rattle.table_model.specs.Conversion.{IsTable, Converts};
ghost use Rattle.table_model.specs.ListedSpan.{values_of, count_of};
ghost use Rattle.table_model.specs.ReducedRows.{IsReducedRows};
ghost use Rattle.table_rewrite.specs.declared.reply.Reply.{Reply};
ghost use Rattle.table_rewrite.specs.Replies.{IsReply, IsLineReply, AreReplies, text_of_reply};
ghost use Rattle.table_rewrite.specs.Telling.{TellsClasses};

use residues::Ring;

/// By the reduced rows of all listed relations each line has one reply, and what it tells of the line is known.
///
/// Any reduced list gives each line a reply. Two lists of the reduced rows of all listed relations give a line the same bytes. By such a
/// list two accepted lines get one text exactly where the difference of their sums is in the span of the listed relations, a refused line
/// gets the text of its refusal, and the first byte tells which of the two it is. The modulus is below 2^64, since a residue is printed in
/// at most so many digits.
pub fn replies_tell()
    ensures some { (m : ℕ) (columns : ColumnList) → IsTable m columns → Converts m columns
        → (count : ℕ) (lead : ℕ → ℕ) (rows : ℕ → ℕ → ℕ) → IsReduced m count lead rows
        → (line : List ℕ) → (bytes : List ℕ) × IsLineReply m columns count lead rows line bytes }
    ensures one { (m : ℕ) (columns : ColumnList) → IsTable m columns → Converts m columns
        → (count k : ℕ) (lead other_lead : ℕ → ℕ) (rows others : ℕ → ℕ → ℕ)
        → IsReducedRows m columns (values_of m columns) (count_of columns) count lead rows
        → IsReducedRows m columns (values_of m columns) (count_of columns) k other_lead others
        → (line a b : List ℕ) → IsLineReply m columns count lead rows line a → IsLineReply m columns k other_lead others line b → a ≡ b }
    ensures tells { (m : ℕ) (columns : ColumnList) → m < 2 ^ 64 → IsTable m columns → Converts m columns
        → (count : ℕ) (lead : ℕ → ℕ) (rows : ℕ → ℕ → ℕ)
        → IsReducedRows m columns (values_of m columns) (count_of columns) count lead rows
        → (reply : List ℕ → List ℕ) → AreReplies m columns count lead rows reply → TellsClasses m columns.weight columns.depth reply }
{}

/// The text of a reply by rows that are lists of pairs answers the line.
pub fn a_reply_answers_its_line<R: Ring>()
    ensures reply { (m : ℕ) (value : R.Elem → ℕ) (columns : ColumnList) (rows : List (List (ℕ × R.Elem))) (line : List ℕ) (reply : Reply)
        → IsReply m value columns rows line reply
        → IsLineReply m columns (length rows) (lead_at rows) (row_at value rows) line (text_of_reply reply) }
{}

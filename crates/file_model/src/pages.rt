//! The pages of parameters.
ghost use Rattle.std.specs.Prelude.{◌≡◌, ℕ, suc, ◌+◌, ◌*◌, ◌<◌, cond, eqb, Some, List, length, slice_get};
ghost use Rattle.zeta_model.specs.Sums.{SameSum};
ghost use Rattle.column_order.specs.Columns.{ColumnList};
ghost use Rattle.page_codec.specs.declared.params.Params.{Params};
ghost use Rattle.page_codec.specs.declared.parts.ForwardEntry.{ForwardEntry};
ghost use Rattle.page_codec.specs.declared.parts.FinalEntry.{FinalEntry};
ghost use Rattle.page_codec.specs.declared.page.Page.{Page};
ghost use Rattle.page_codec.specs.declared.page.Page.TheVariants.{Done};
ghost use Rattle.page_codec.specs.Places.{block_count};
ghost use Rattle.table_model.specs.MonomialWords.{words_of_row};
ghost use Rattle.table_model.specs.ReducedRows.{IsAccepted, IsBrokenAt, IsUnbroken, IsReducedRows};
ghost use Rattle.table_model.specs.Conversion.{IsTable, Converts};
ghost use Rattle.table_model.specs.ListedSpan.{count_of};
ghost use Rattle.file_model.specs.TableOf.{IsTableOf};
ghost use Rattle.file_model.specs.Pages.{forward_page, final_page, IsForwardBlock, IsFinalBlock, ArePages, Work, IsWork, Pairs, IsPairs, IsWritten, IsRecorded, listed_work};
ghost use Rattle.file_model.specs.FinalRows.{finals_of, IsSumOfForward};

/// Work on a table has one list of pages, and the page of a block stands there at its place.
///
/// A row that is a sum of recorded ones is recorded with the same sum of what is written beside them, and that of an accepted number with what
/// is written of that number alone. Each final row of the pages is a sum of their forward rows, with the same sum of combinations.
pub fn page_laws()
    ensures listed { (m : ℕ) (columns : ColumnList) → IsTable m columns → IsWork m columns (listed_work m columns) }
    ensures one { (params : Params) (columns : ColumnList) (work : Work) → IsWork params.modulus columns work → IsTableOf params columns
        → (pages others : List Page) → ArePages params columns work pages → ArePages params columns work others → pages ≡ others }
    ensures more { (m : ℕ) (columns : ColumnList) (work : Work) (n : ℕ) (p g : ℕ → ℕ)
        → IsRecorded m columns work n p g → IsRecorded m columns work (suc n) p g }
    ensures sum { (m : ℕ) (columns : ColumnList) (work : Work) → IsWork m columns work → (n a b : ℕ) (p q g h : ℕ → ℕ)
        → IsRecorded m columns work n p g → IsRecorded m columns work n q h
        → IsRecorded m columns work n (λ col. a * p col + b * q col) (λ k. a * g k + b * h k) }
    ensures own { (m : ℕ) (columns : ColumnList) (work : Work) (n : ℕ) (p : ℕ → ℕ)
        → IsAccepted m columns work.sums n → SameSum m (words_of_row columns.list p) (work.sums n)
        → IsRecorded m columns work (suc n) p (work.beside (λ k. cond (eqb k n) 1 0)) }
    ensures written { (m : ℕ) (columns : ColumnList) (work : Work) (n : ℕ) (p g : ℕ → ℕ) (row combination : Pairs)
        → IsRecorded m columns work n p g → IsPairs m p row → IsPairs m g combination → IsWritten m columns work n p row combination }
    ensures next { (params : Params) (columns : ColumnList) (work : Work) → IsWork params.modulus columns work → IsTableOf params columns
        → Converts params.modulus columns → (b : ℕ) → 64 * b < count_of columns → (pages : List Page) → ArePages params columns work pages
        → ((k : ℕ) → k < 64 * b + 64 → k < count_of columns → (residue : ℕ) → ¬ (IsBrokenAt params.modulus columns work.sums k residue))
        → (entries : List ForwardEntry) → IsForwardBlock params.modulus columns work b entries
        → slice_get pages (suc b) ≡ Some (forward_page (64 * b) entries) }
    ensures next_final { (params : Params) (columns : ColumnList) (work : Work) → IsWork params.modulus columns work → IsTableOf params columns
        → Converts params.modulus columns → IsUnbroken params.modulus columns work.sums (count_of columns)
        → (count : ℕ) (lead : ℕ → ℕ) (rows : ℕ → ℕ → ℕ) → IsReducedRows params.modulus columns work.sums (count_of columns) count lead rows
        → (pages : List Page) → ArePages params columns work pages → (i : ℕ) → 64 * i < count
        → (entries : List FinalEntry) → IsFinalBlock params.modulus columns work count rows i entries
        → slice_get pages (1 + block_count (count_of columns) + i) ≡ Some (final_page (64 * i) entries) }
    ensures last { (params : Params) (columns : ColumnList) (work : Work) → IsWork params.modulus columns work → IsTableOf params columns
        → Converts params.modulus columns → IsUnbroken params.modulus columns work.sums (count_of columns)
        → (count : ℕ) (lead : ℕ → ℕ) (rows : ℕ → ℕ → ℕ) → IsReducedRows params.modulus columns work.sums (count_of columns) count lead rows
        → (pages : List Page) → ArePages params columns work pages
        → (slice_get pages (1 + block_count (count_of columns) + block_count count) ≡ Some (Done count))
        × (length pages ≡ 2 + block_count (count_of columns) + block_count count) }
    ensures follow { (params : Params) (columns : ColumnList) (work : Work) → IsWork params.modulus columns work → IsTableOf params columns
        → (pages : List Page) → ArePages params columns work pages → (i : ℕ) → i < length (finals_of pages) → IsSumOfForward params.modulus pages i }
{}

//! Work that goes on from pages of a file.
ghost use Rattle.std.specs.Prelude.{◌≡◌, ◌<◌, ◌*◌, ◌↔◌, ℕ, suc, cond, eqb, Some, List, take, slice_get};
ghost use Rattle.std.specs.List.{AllByRecursion};
ghost use Rattle.linear_model.specs.Rows.{SameRow};
ghost use Rattle.column_order.specs.Columns.{ColumnList};
ghost use Rattle.page_codec.specs.declared.params.Params.{Params};
ghost use Rattle.page_codec.specs.declared.parts.ForwardEntry.{ForwardEntry};
ghost use Rattle.page_codec.specs.declared.page.Page.{Page};
ghost use Rattle.page_codec.specs.Bounds.{IsPage, IsParams};
ghost use Rattle.page_codec.specs.Places.{AllFit};
ghost use Rattle.table_model.specs.Conversion.{IsTable, Converts};
ghost use Rattle.table_model.specs.ListedSpan.{count_of, relation_count};
ghost use Rattle.table_model.specs.ReducedRows.{IsAccepted, IsForwardRow, IsUnbroken};
ghost use Rattle.file_model.specs.Pages.{forward_page, IsForwardBlock};
ghost use Rattle.file_model.specs.Prefixes.{IsPages};
ghost use Rattle.file_model.specs.TableOf.{IsTableOf};
ghost use Rattle.file_model.specs.Builds.{IsOurs};
ghost use Rattle.file_model.specs.Resuming.{Kept, written_of, entries_of, blocks_of, kept_of, AllSuit, AreForward, AreKept, resumed_work, IsResumed};

/// Work that goes on from sealed pages has one list of pages, and that of the first pages of parameters has the pages of the parameters.
///
/// The rows of sealed pages that are ours and suit are a forward list, and the forward pages that are sealed are those of the work. This work has
/// pages, and each of them is a page and fits its place.
///
/// Kept rows that are a forward list are the forward rows of the work that goes on from them: it is not broken at their numbers, and accepts these
/// and no others below the bound. A page of such rows is the page of that work.
pub fn resuming_laws()
    ensures one { (params : Params) (sealed pages others : List Page) → IsResumed params sealed pages → IsResumed params sealed others → pages ≡ others }
    ensures first { (params : Params) (pages : List Page) → IsPages params pages → (k : ℕ) → IsResumed params (take k pages) pages }
    ensures unbroken { (m : ℕ) (columns : ColumnList) → IsTable m columns → Converts m columns → (kept : Kept) → AreForward m columns kept
        → IsUnbroken m columns ((resumed_work m columns kept).sums) kept.below }
    ensures forward { (m : ℕ) (columns : ColumnList) → IsTable m columns → Converts m columns → (kept : Kept) (rows : AreForward m columns kept)
        → (i : ℕ) → i < rows.count → IsForwardRow m columns ((resumed_work m columns kept).sums) (rows.number i) (kept.rows (rows.number i)) }
    ensures accepted { (m : ℕ) (columns : ColumnList) → IsTable m columns → Converts m columns → (kept : Kept) (rows : AreForward m columns kept)
        → (n : ℕ) → n < kept.below → IsAccepted m columns ((resumed_work m columns kept).sums) n ↔ ((i : ℕ) × (i < rows.count) × (rows.number i ≡ n)) }
    ensures beside { (m : ℕ) (columns : ColumnList) (kept : Kept) (n : ℕ) → n < count_of columns
        → SameRow m ((resumed_work m columns kept).beside (λ k. cond (eqb k n) 1 0)) (written_of kept n) }
    ensures page { (m : ℕ) (columns : ColumnList) → IsTable m columns → Converts m columns → (kept : Kept) (rows : AreForward m columns kept)
        → (b : ℕ) (entries : List ForwardEntry) → AreKept m columns kept rows b entries → IsForwardBlock m columns (resumed_work m columns kept) b entries }
    ensures kept { (params : Params) (columns : ColumnList) → IsTableOf params columns → (bytes : List ℕ) (sealed : List Page) → IsOurs params bytes sealed
        → AllSuit params.modulus (entries_of sealed)
        → (rows : AreForward params.modulus columns (kept_of sealed)) × ((b : ℕ) (entries : List ForwardEntry) → b < blocks_of sealed
        → slice_get sealed (suc b) ≡ Some (forward_page (64 * b) entries) → AreKept params.modulus columns (kept_of sealed) rows b entries) }
    ensures stay { (params : Params) (columns : ColumnList) → IsTableOf params columns → (bytes : List ℕ) (sealed : List Page) → IsOurs params bytes sealed
        → AllSuit params.modulus (entries_of sealed) → Converts params.modulus columns → (pages : List Page) → IsResumed params sealed pages
        → (b : ℕ) → b < blocks_of sealed → slice_get pages (suc b) ≡ slice_get sealed (suc b) }
    ensures exist { (params : Params) (columns : ColumnList) → IsTableOf params columns → (bytes : List ℕ) (sealed : List Page) → IsOurs params bytes sealed
        → AllSuit params.modulus (entries_of sealed) → (pages : List Page) × IsResumed params sealed pages }
    ensures placed { (params : Params) → IsParams params → (columns : ColumnList) → IsTableOf params columns → (bytes : List ℕ) (sealed : List Page)
        → IsOurs params bytes sealed → AllSuit params.modulus (entries_of sealed) → (pages : List Page) → IsResumed params sealed pages
        → AllByRecursion IsPage pages × AllFit params (relation_count params.weight params.depth) pages }
{}

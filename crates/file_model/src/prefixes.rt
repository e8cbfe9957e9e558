//! The file of parameters and its prefixes.
ghost use Rattle.std.specs.Prelude.{◌≡◌, ◌≤◌, ◌++◌, ℕ, Some, List, [], length, take, slice_get};
ghost use Rattle.std.specs.List.{AllByRecursion};
ghost use Rattle.page_codec.specs.declared.params.Params.{Params};
ghost use Rattle.page_codec.specs.declared.page.Page.{Page};
ghost use Rattle.page_codec.specs.Bounds.{IsPage, IsParams};
ghost use Rattle.page_codec.specs.Places.{AllFit};
ghost use Rattle.page_file.specs.Files.{Stops, file_of, ReadsBeforeOrAfter};
ghost use Rattle.table_model.specs.ListedSpan.{relation_count};
ghost use Rattle.file_model.specs.FinalRows.{AreComplete, IsWholeFile};
ghost use Rattle.file_model.specs.Prefixes.{IsPages, IsSound, IsFile, IsPrefix, HasPages};

/// Parameters that pass their test have one list of pages and one file. Each of the pages is a page and fits its place.
///
/// Where the table converts and the work is not broken, the final rows are complete, and the file is whole. Two prefixes of as many pages are
/// alike up to what stands behind the last one, and bytes are a prefix in one way. The file of the first pages is a prefix, and so are no bytes
/// at all; so is what is left while the next page is sealed.
pub fn prefix_laws()
    ensures exist { (params : Params) → IsParams params → (pages : List Page) × IsPages params pages }
    ensures pages { (params : Params) (pages others : List Page) → IsPages params pages → IsPages params others → pages ≡ others }
    ensures placed { (params : Params) → IsParams params → (pages : List Page) → IsPages params pages
        → AllByRecursion IsPage pages × AllFit params (relation_count params.weight params.depth) pages }
    ensures one { (params : Params) (a b : List ℕ) → IsFile params a → IsFile params b → a ≡ b }
    ensures complete { (params : Params) → IsSound params → (pages : List Page) → IsPages params pages → AreComplete params pages }
    ensures whole { (params : Params) → IsParams params → (bytes : List ℕ) → IsFile params bytes → IsWholeFile bytes }
    ensures front { (params : Params) (k : ℕ) (a b : List ℕ) → IsPrefix params k a → IsPrefix params k b
        → (front x y : List ℕ) × (a ≡ front ++ x) × (b ≡ front ++ y) × Stops x × Stops y }
    ensures number { (params : Params) (j k : ℕ) (bytes : List ℕ) → IsPrefix params j bytes → IsPrefix params k bytes → j ≡ k }
    ensures file { (params : Params) → IsParams params → (pages : List Page) → IsPages params pages → (k : ℕ) → k ≤ length pages
        → IsPrefix params k (file_of (take k pages)) }
    ensures sealing { (params : Params) (pages : List Page) → IsPages params pages → (k : ℕ) (page : Page) → slice_get pages k ≡ Some page
        → (image : List ℕ) → ReadsBeforeOrAfter (take k pages) page image → HasPages params k image }
    ensures nothing { (params : Params) → IsParams params → IsPrefix params 0 [] }
{}

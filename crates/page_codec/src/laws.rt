//! Laws of spellings.
ghost use Rattle.std.specs.Prelude.{◌≡◌, ◌≤◌, ◌++◌, ◌+◌, ◌^◌, ◌<◌, All, Option, ℕ, List, [], ◌∷◌, length};
ghost use Rattle.sparse_rows.specs.Entries.{entry_of, IsRow};
ghost use Rattle.page_codec.specs.Bounds.{IsPage, IsParams, IsRowData, IsCombData};
ghost use Rattle.page_codec.specs.Places.{AllFit, block_count, gate_place};
ghost use Rattle.page_codec.specs.Tests.{Passes, Refuses};
ghost use Rattle.page_codec.specs.declared.fault.ParamFault.{ParamFault};
ghost use Rattle.page_codec.specs.declared.params.Params.{Params};
ghost use Rattle.page_codec.specs.Spelling.{body_of, spelling_of};
ghost use Rattle.page_codec.specs.declared.page.Page.{Page};

/// Each page has one spelling, no spelling begins another, and the longest body has 2,884,101 bytes: none has more, and one has so many.
pub fn spelling_laws()
    ensures one { (p q : Page) → IsPage p → IsPage q → spelling_of p ≡ spelling_of q → p ≡ q }
    ensures no_prefix { (p q : Page) (rest : List ℕ) → IsPage p → IsPage q → spelling_of p ≡ spelling_of q ++ rest → rest ≡ [] }
    ensures longest { (p : Page) → IsPage p → length (body_of p) ≤ 2884101 }
    ensures attained { (p : Page) × IsPage p × (length (body_of p) ≡ 2884101) }
{}

/// Where all pages of a file fit, they are few, and none stands behind a Done page.
pub fn file_laws()
    ensures few { (p : Params) (n : ℕ) (pages : List Page) → IsParams p → AllFit p n pages → length pages ≤ block_count n + 35 }
    ensures done { (p : Params) (n rows : ℕ) (front after : List Page) → IsParams p → AllFit p n (front ++ Page.Done rows ∷ after) → after ≡ [] }
{}

/// Parameters that pass the test are not refused by it, with any fault.
pub fn param_laws()
    ensures { (w d m : ℕ) (order : List ℕ) (text : Option (List ℕ)) (p : Params) (fault : ParamFault) → Passes w d m order text p → ¬ (Refuses w d m order text fault) }
{}

/// Rows that are equal as functions from columns to residues have one list of pairs, and so have combinations.
pub fn row_laws()
    ensures rows { (r s : List (ℕ × ℕ)) → IsRowData r → IsRowData s
        → ((column : ℕ) → entry_of (λ k. k) (λ v. v) r column ≡ entry_of (λ k. k) (λ v. v) s column) → r ≡ s }
    ensures combinations { (c d : List (ℕ × ℕ)) → IsCombData c → IsCombData d
        → ((number : ℕ) → entry_of (λ k. k) (λ v. v) c number ≡ entry_of (λ k. k) (λ v. v) d number) → c ≡ d }
    ensures increasing { (r : List (ℕ × ℕ)) → IsRowData r → IsRow (λ k. k) 0 0 r }
{}

/// In a file whose pages fit their places, no gate is at a place from 2^48 on. So no place in it passes a `u64`.
pub fn place_laws()
    ensures { (p : Params) (n : ℕ) (pages : List Page) (i : ℕ) → IsParams p → n < 2 ^ 32 → All IsPage pages → AllFit p n pages
        → gate_place pages i < 2 ^ 48 }
{}

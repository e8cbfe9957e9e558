//! What reading gives.
ghost use Rattle.std.specs.Prelude.{◌≡◌, ◌≤◌, ◌++◌, ℕ, List, length};
ghost use Rattle.std.specs.List.{AllByRecursion};
ghost use Rattle.outside_io.specs.Moments.{Moment, IsOnly};
ghost use Rattle.page_codec.specs.declared.page.Page.{Page};
ghost use Rattle.page_codec.specs.Bounds.{IsPage};
ghost use Rattle.page_file.specs.Files.{file_of, IsSealed, IsBadPage, ReadsAs};
ghost use Rattle.page_file.specs.Notes.{Notes, Suits, count_of, params_of};
ghost use Rattle.page_file.specs.Stays.{IsSettled};

/// Bytes have one list of sealed pages, or one first page that is not spelled behind its open gate. A file reads as its pages. Notes that
/// suit some contents tell how many pages are sealed there, and their parameters. Where nothing is pending the contents are the one image.
pub fn reading_laws()
    ensures one { (pages others : List Page) (bytes : List ℕ) → IsSealed pages bytes → IsSealed others bytes → pages ≡ others }
    ensures one_bad { (i k : ℕ) (bytes : List ℕ) → IsBadPage i bytes → IsBadPage k bytes → i ≡ k }
    ensures not_both { (pages : List Page) (i : ℕ) (bytes : List ℕ) → IsSealed pages bytes → ¬ (IsBadPage i bytes) }
    ensures file { (pages : List Page) → AllByRecursion IsPage pages → ReadsAs pages (file_of pages) }
    ensures count { (notes : Notes) (pages : List Page) (contents : List ℕ) → Suits notes contents → IsSealed pages contents → count_of notes ≡ length pages }
    ensures params { (notes : Notes) (pages : List Page) (contents : List ℕ) → Suits notes contents → IsSealed pages contents → notes.params ≡ params_of pages }
    ensures only { (m : Moment) → IsSettled m → IsOnly m }
{}

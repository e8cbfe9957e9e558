//! What building and going on leave over a prefix.
ghost use Rattle.std.specs.Prelude.{◌≡◌, ◌<◌, ◌+◌, ◌/◌, ℕ, List, length, take};
ghost use Rattle.zeta_model.specs.declared.Letter.{Letter};
ghost use Rattle.column_order.specs.Columns.{ColumnList};
ghost use Rattle.page_codec.specs.declared.params.Params.{Params};
ghost use Rattle.page_codec.specs.declared.page.Page.{Page};
ghost use Rattle.page_codec.specs.Bounds.{IsParams};
ghost use Rattle.page_file.specs.Files.{file_of};
ghost use Rattle.table_model.specs.Conversion.{Converts};
ghost use Rattle.table_model.specs.ListedSpan.{values_of, count_of};
ghost use Rattle.table_model.specs.ReducedRows.{IsUnbroken, BreaksFirst};
ghost use Rattle.table_model.specs.Faults.{IsNotInvertible};
ghost use Rattle.file_model.specs.TableOf.{IsTableOf};
ghost use Rattle.file_model.specs.Prefixes.{IsPages, IsFile, IsPrefix};
ghost use Rattle.file_model.specs.Builds.{Figures, AreFigures, Answer, ResumeEnds, IsLeft, HasGoneOn};
ghost use Rattle.file_model.specs.Builds.Answer.{Built, NoInverseWord, NoInverseRelation};

/// Of any bytes one thing is said.
///
/// Over a prefix it is the first word at which the table does not convert, or the first relation at which the work on the listed relations is
/// broken, or that the work came to its end, with its figures.
///
/// Over a prefix, work that comes to its end leaves the file of the parameters, and work that is broken at relation n leaves the 1 + n / 64
/// pages of the parameters.
///
/// Over any bytes work that comes to its end keeps the sealed pages as the first ones of its file, and the final rows follow from the forward rows.
pub fn ending_laws()
    ensures one { (params : Params) (bytes : List ℕ) (a b : Answer) → ResumeEnds params bytes a → ResumeEnds params bytes b → a ≡ b }
    ensures word { (params : Params) → IsParams params → (columns : ColumnList) → IsTableOf params columns
        → (k : ℕ) (bytes : List ℕ) → IsPrefix params k bytes → (u : List Letter) (residue : ℕ) → IsNotInvertible params.modulus columns u residue
        → ResumeEnds params bytes (NoInverseWord residue u) }
    ensures relation { (params : Params) → IsParams params → (columns : ColumnList) → IsTableOf params columns → Converts params.modulus columns
        → (k : ℕ) (bytes : List ℕ) → IsPrefix params k bytes → (n residue : ℕ) → n < count_of columns
        → BreaksFirst params.modulus columns (values_of params.modulus columns) n residue → ResumeEnds params bytes (NoInverseRelation residue n) }
    ensures end { (params : Params) → IsParams params → (columns : ColumnList) → IsTableOf params columns → Converts params.modulus columns
        → IsUnbroken params.modulus columns (values_of params.modulus columns) (count_of columns)
        → (k : ℕ) (bytes : List ℕ) → IsPrefix params k bytes → (pages : List Page) → IsPages params pages
        → (figures : Figures) → AreFigures columns (take k pages) pages figures → ResumeEnds params bytes (Built figures) }
    ensures built { (params : Params) (k : ℕ) (figures : Figures) (bytes contents : List ℕ)
        → IsPrefix params k bytes → ResumeEnds params bytes (Built figures) → IsLeft params bytes contents → IsFile params contents }
    ensures broken { (params : Params) (k n residue : ℕ) (bytes contents : List ℕ)
        → IsPrefix params k bytes → ResumeEnds params bytes (NoInverseRelation residue n) → IsLeft params bytes contents
        → (pages : List Page) × IsPages params pages × (contents ≡ file_of pages) × (length pages ≡ 1 + n / 64) }
    ensures goes_on { (params : Params) (figures : Figures) (bytes contents : List ℕ)
        → ResumeEnds params bytes (Built figures) → IsLeft params bytes contents → HasGoneOn params bytes contents }
{}

//! Runs and crashes, one after the other.
ghost use Rattle.std.specs.Prelude.{◌≡◌, ◌+◌, ◌/◌, ◌++◌, ℕ, Option, IfSome, List, length};
ghost use Rattle.std.specs.List.{Contains};
ghost use Rattle.outside_io.specs.Moments.{Moment, IsImage};
ghost use Rattle.outside_io.specs.Traces.{Trace};
ghost use Rattle.page_codec.specs.declared.params.Params.{Params};
ghost use Rattle.page_codec.specs.declared.page.Page.{Page};
ghost use Rattle.page_codec.specs.Bounds.{IsParams};
ghost use Rattle.page_file.specs.Files.{file_of};
ghost use Rattle.page_file.specs.Stays.{AllImages, Leaves};
ghost use Rattle.file_model.specs.Prefixes.{IsPages, IsFile, IsPrefix, HasPages};
ghost use Rattle.file_model.specs.Stays.{Stays};
ghost use Rattle.file_model.specs.Builds.{Figures, ResumeEnds, IsLeft};
ghost use Rattle.file_model.specs.Builds.Answer.{Built, NoInverseRelation};
ghost use Rattle.file_model.specs.Histories.{Step, moments_of, now_after, IsHistory, Continues, EndsInFile};

/// On a disk that was empty at first, whatever runs and crashes befall it:
///
/// Whatever a crash leaves at any moment is a prefix of the parameters. The pages that every image has behind some steps, a crash between two runs
/// or inside one among them, every image has at each moment of later steps.
///
/// Work that comes to its end over an image leaves the file of the parameters, byte for byte the one file that there is; work that is broken leaves
/// their pages.
///
/// A run of which this is known goes on with each history that left the disk where it begins, and one that comes to its end ends it in the file.
pub fn history_laws()
    ensures prefix { (params : Params) → IsParams params → (steps : List Step) → IsHistory params steps
        → (m : Moment) → Contains (moments_of steps) m → (image : List ℕ) → IsImage m image → (k : ℕ) × IsPrefix params k image }
    ensures stay { (params : Params) (later earlier : List Step) → IsHistory params (later ++ earlier)
        → (k : ℕ) → AllImages (HasPages params k) (now_after earlier)
        → (m : Moment) → Contains (moments_of later) m → AllImages (HasPages params k) m }
    ensures file { (params : Params) → IsParams params → (steps : List Step) → IsHistory params steps
        → (start : List ℕ) → IsImage (now_after steps) start → (figures : Figures) → ResumeEnds params start (Built figures)
        → (contents : List ℕ) → IsLeft params start contents
        → IsFile params contents × ((file : List ℕ) → IsFile params file → contents ≡ file) }
    ensures broken { (params : Params) → IsParams params → (steps : List Step) → IsHistory params steps
        → (start : List ℕ) → IsImage (now_after steps) start → (n residue : ℕ) → ResumeEnds params start (NoInverseRelation residue n)
        → (contents : List ℕ) → IsLeft params start contents
        → (pages : List Page) × IsPages params pages × (contents ≡ file_of pages) × (length pages ≡ 1 + n / 64) }
    ensures runs { (params : Params) (old new : Option Trace) → ((k : ℕ) → Stays (HasPages params k) old new) → Continues params old new }
    ensures ends { (params : Params) → IsParams params → (old new : Option Trace) → IfSome old (λ t. IsImage t.now t.now.contents)
        → (figures : Figures) → IfSome old (λ t. ResumeEnds params t.now.contents (Built figures))
        → Leaves (λ t bytes. IsLeft params t.now.contents bytes) old new → EndsInFile params old new }
{}

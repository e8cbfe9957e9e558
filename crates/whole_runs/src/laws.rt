//! The laws of whole runs.
ghost use Rattle.std.specs.Prelude.{◌≡◌, ℕ, List, Option, Some, Ok, IfOk, codes};
ghost use Rattle.page_codec.specs.declared.params.Params.{Params};
ghost use Rattle.page_codec.specs.Bounds.{IsParams};
ghost use Rattle.file_model.specs.FinalRows.{IsWholeFile};
ghost use Rattle.file_model.specs.Builds.{BuildEnds, ResumeEnds};
ghost use Rattle.whole_runs.specs.declared.command.Command.TheVariants.{Reduce, Check, Rewrite, Rational, Build, Resume, Migrate};
ghost use Rattle.whole_runs.specs.declared.status.Status.TheVariants as status;
ghost use Rattle.whole_runs.specs.CommandLine.{Asked, Asks, IsInRange};
ghost use Rattle.whole_runs.specs.Works.{Work};
ghost use Rattle.whole_runs.specs.Wanted.{IsWork, IsWorkOver};
ghost use Rattle.whole_runs.specs.Outcomes.{Outcome, RepliesTell, FileTells, FileTellsByFractions, FiguresTell, CopyTells, NamesFile};

/// Words ask for one thing, and for what is asked there is one work; what the words and the disk tell of it holds whatever the source gives.
///
/// What is asked in range has a work, where it names no file; where it names one, a run that is not broken off finds it. Where `reduce` ends with status 0, each line of the source got its reply, and two accepted lines got
/// the same one exactly where the difference of their sums is in the span of the listed relations of the parameters; where `check`,
/// `rewrite` or `rational` does, the file is whole and has complete rows, and the replies of the last two are so by the file's parameters; where
/// `build` or `resume` does, the work over these bytes came to its end, and the line of its figures was written; where `migrate` does,
/// nothing stood on the disk, the source's bytes read as an old file up to its Done page, and the line of that was written.
pub fn whole_run_laws()
    ensures one_ask { (words : List (List ℕ)) (a b : Asked) → Asks words a → Asks words b → a ≡ b }
    ensures one_work { (asked : Asked) (contents : Option (List ℕ)) (v w : Work) → IsWork asked contents v → IsWork asked contents w → v ≡ w }
    ensures work_over { (asked : Asked) (contents left : Option (List ℕ)) (work : Work) → IsWork asked contents work → IsWorkOver asked contents left work }
    ensures one_work_over { (asked : Asked) (contents left : Option (List ℕ)) (v w : Work)
        → IsWorkOver asked contents left v → IsWorkOver asked contents left w → v ≡ w }
    ensures some_work { (asked : Asked) (contents : Option (List ℕ)) → IfOk asked IsInRange → ¬ (NamesFile asked)
        → (work : Work) × IsWork asked contents work }
    ensures reduce { (params : Params) (contents left taken taken_new : Option (List ℕ)) → IsParams params
        → Outcome (Ok (Reduce params)) contents left taken taken_new status.Done → RepliesTell params left taken taken_new }
    ensures check { (bytes : List ℕ) (left taken taken_new : Option (List ℕ))
        → Outcome (Ok Check) (Some bytes) left taken taken_new status.Done → IsWholeFile bytes }
    ensures rewrite { (bytes : List ℕ) (left taken taken_new : Option (List ℕ))
        → Outcome (Ok Rewrite) (Some bytes) left taken taken_new status.Done → FileTells bytes left taken taken_new }
    ensures rational { (bytes : List ℕ) (left taken taken_new : Option (List ℕ))
        → Outcome (Ok Rational) (Some bytes) left taken taken_new status.Done → FileTellsByFractions bytes left taken taken_new }
    ensures build { (params : Params) (bytes : List ℕ) (left taken taken_new : Option (List ℕ))
        → Outcome (Ok (Build params)) (Some bytes) left taken taken_new status.Done → FiguresTell (BuildEnds params bytes) (codes "built") taken taken_new }
    ensures resume { (params : Params) (bytes : List ℕ) (left taken taken_new : Option (List ℕ))
        → Outcome (Ok (Resume params)) (Some bytes) left taken taken_new status.Done → FiguresTell (ResumeEnds params bytes) (codes "resumed") taken taken_new }
    ensures migrate { (bytes given : List ℕ) (taken taken_new : Option (List ℕ))
        → Outcome (Ok Migrate) (Some bytes) (Some given) taken taken_new status.Done → CopyTells bytes given taken taken_new }
{}

//! The call that the program makes: the command that the words ask for is done.
ghost use Rattle.std.specs.Prelude.{◌≡◌, ◌+◌, ◌≤◌, [], ℕ, List, Some, map, string_bytes, Ok, Err};
ghost use Rattle.outside_io.specs.Causes.{Rose};
ghost use Rattle.line_loop.specs.Lines.{input_limit};
ghost use Rattle.line_loop.specs.Talk.{Tells, TakesAtMost};
ghost use Rattle.dual_reply.specs.Canonical.{TellsSums};
ghost use Rattle.page_codec.specs.declared.params.Params.{Params};
ghost use Rattle.file_model.specs.FinalRows.{IsWholeFile};
ghost use Rattle.file_model.specs.Histories.{Continues, EndsInFile};
ghost use Rattle.whole_runs.specs.Statuses.{ComesFor};
ghost use Rattle.whole_runs.specs.CommandLine.{Asked, Asks, IsInRange};
ghost use Rattle.whole_runs.specs.Works.{Work, ReadsLines};
ghost use Rattle.whole_runs.specs.Wanted.{IsWork, Wants};
ghost use Rattle.whole_runs.specs.Outcomes.{Outcome, AnswersSeen, RepliesTell, FileTells, FileTellsByFractions, AsksForReplies, AsksForPages, ReadsSource, NamesFile, FailsTest, contents_of};
ghost use Rattle.whole_runs.specs.declared.command.Command.TheVariants.{Dual, Reduce, Check, Rewrite, Rational, Build, Resume, Migrate};
ghost use Rattle.whole_runs.specs.declared.command.WordsFault.TheVariants.{Usage};
ghost use Rattle.datamine_program.specs.Inner.{IsRun};
ghost use Rattle.datamine_program.specs.Leaving.{WritesFile, BuildLeaves, ResumeLeaves, BuildsTable, MigrateLeaves};

use crate::build::run_build;
use crate::check::run_check;
use crate::dual::run_dual;
use crate::list::run_list;
use crate::migrate::run_migrate;
use crate::probe::run_probe;
use crate::rational::run_rational;
use crate::reduce::run_reduce;
use crate::refusals::refuse;
use crate::resume::run_resume;
use crate::rewrite::run_rewrite;
use crate::sample::run_sample;
use crate::show::run_show;
use outside_io::{Disk, Sink, Source};
use std::alloc::Global;
use whole_runs::{Command, Status, read_words};

// Does what a command asks for.
fn perform<D: Disk, S: Source, K: Sink>(
    alloc: Global,
    command: Command,
    disk: &mut D,
    source: &mut S,
    sink: &mut K,
) -> Status
    requires { IsInRange command }
    ensures run { IsRun (Ok command) (contents_of (D.trace disk.old)) (S.left source.old) (S.left source.new) (K.taken sink.old) (K.taken sink.new) result }
    ensures source { (work : Work) → IsWork (Ok command) (contents_of (D.trace disk.old)) work → ¬ (ReadsLines work) → source.new ≡ source.old }
    ensures no_lines { ¬ (ReadsSource (Ok command)) → source.new ≡ source.old }
    ensures disk { ¬ (NamesFile (Ok command)) → disk.new ≡ disk.old }
    ensures unchanged { ¬ (WritesFile (Ok command)) → D.trace disk.new ≡ D.trace disk.old }
    ensures build { (params : Params) → command ≡ Command.Build params → BuildLeaves params result (D.trace disk.old) (D.trace disk.new) }
    ensures resume { (params : Params) → command ≡ Command.Resume params → ResumeLeaves params result (D.trace disk.old) (D.trace disk.new) }
    ensures built_in_file { (params : Params) → command ≡ Command.Build params → result ≡ Status.Done
        → EndsInFile params (D.trace disk.old) (D.trace disk.new) }
    ensures resumed_in_file { (params : Params) → command ≡ Command.Resume params → result ≡ Status.Done
        → EndsInFile params (D.trace disk.old) (D.trace disk.new) }
    ensures migrate { command ≡ Command.Migrate → MigrateLeaves (S.left source.old) result (D.trace disk.old) (D.trace disk.new) }
    ensures faults { D.faults disk.old ≤ D.faults disk.new }
    ensures disk_fault_only { result ≡ Status.DiskFault → Rose (D.faults disk.old) (D.faults disk.new) }
    ensures read_fault_only { result ≡ Status.ReadFault → Rose (S.faults source.old) (S.faults source.new) }
    ensures write_fault_only { result ≡ Status.WriteFault → Rose (K.faults sink.old) (K.faults sink.new) }
{
    match command {
        Command::Dual { modulus } => run_dual(alloc, modulus, source, sink),
        Command::List { weight, depth } => run_list(alloc, weight, depth, sink),
        Command::Reduce { params } => run_reduce(alloc, &params, source, sink),
        Command::Sample {
            params,
            seed,
            count,
        } => run_sample(alloc, &params, seed, count, sink),
        Command::Probe { terms, modulus } => run_probe(alloc, terms, modulus, source, sink),
        Command::Show => run_show(alloc, disk, sink),
        Command::Check => run_check(alloc, disk, sink),
        Command::Rewrite => run_rewrite(alloc, disk, source, sink),
        Command::Rational => run_rational(alloc, disk, source, sink),
        Command::Build { params } => run_build(alloc, &params, disk, sink),
        Command::Resume { params } => run_resume(alloc, &params, disk, sink),
        Command::Migrate => run_migrate(alloc, disk, source, sink),
    }
}

/// Does what the words behind the program's name ask for.
///
/// `dual M`, `reduce W D M ORDER [PREF]` and `probe N M` read the source to its end, and write one reply and the byte 10 for each
/// line: by duality, by the table of these parameters, which is made in memory before the first line is read, and by truncated sums up
/// to N. `list W D` writes the names of the relations of weight W and depth at most D, one a line, with their numbers from 0.
/// `sample W D M SEED COUNT` counts the replies of a table to lines that are made from the seed, and writes one line. `show FILE` writes
/// the header of the table in the file on the disk, how many pages it has, and its sealed final rows, one a line. `check FILE` checks that
/// table and writes one line, and `rewrite FILE` checks it before it reads the first line, and replies to each line by it; `rational FILE`
/// does so with small fractions for residues. `build FILE W D M ORDER [PREF]` makes the table of these parameters on an empty disk, with a
/// certificate for each row, and writes one line; `resume FILE W D M ORDER [PREF]` goes on with a build of it that was stopped, from the
/// pages that are sealed, and writes one line; `migrate FILE` copies a version 1 file from the source to an empty disk, page by page, and
/// writes one line; each other command leaves what the disk holds. The caller makes the disk by the name in the second word.
///
/// `Usage` and `Params` come exactly where the words fit no command or a parameter test fails, whatever memory there is; only a
/// write that fails may come in their place. `NoInverse` comes where a word, a relation or a number up to N tells a residue
/// without inverse: the first is told, and no line is read. Of a file, `NotATable` comes where `build` or `migrate` finds bytes
/// there, where it is foreign, and with the first page that is not spelled or does not fit its place; where `resume` finds a
/// header of other parameters, a forward row that does not go on from those before it, or a final page that is not the one that
/// the forward rows give; `NotComplete` where it has no sealed page. `migrate` tells so of the source's bytes, page by page, and
/// `NotComplete` where they end before a Done page. Where the table is checked, `NotComplete` comes where the last page is not
/// Done, and with the first final row that is not what its combination gives, the first that is not reduced, or the first listed
/// relation of which the rows leave something, and `NoInverse` with the first word at which the table does not convert.
/// `DiskFault`, `ReadFault` and `WriteFault` come only where that object's count of faults rose in this call. What is written is
/// a first part of the whole run's output: all of it unless memory was wanting or a call failed, and with `ReadFault` the replies
/// to the lines that are whole in the bytes that were read. `Done` says that the source was read to its end, where the command
/// reads lines. `TooMuchInput` comes where it gives more than 67,108,864 bytes, and not of `migrate`.
pub fn run<D: Disk, S: Source, K: Sink>(
    alloc: Global,
    words: &[String],
    disk: &mut D,
    source: &mut S,
    sink: &mut K,
) -> Status
    ensures usage { ComesFor (Asks (map string_bytes words.now) (Err Usage)) Status.Usage result }
    ensures params { ComesFor ((asked : Asked) × Asks (map string_bytes words.now) asked × FailsTest asked) Status.Params result }
    ensures disk_fault_only { result ≡ Status.DiskFault
        → (asked : Asked) × Asks (map string_bytes words.now) asked × NamesFile asked × Rose (D.faults disk.old) (D.faults disk.new) }
    ensures read_fault_only { result ≡ Status.ReadFault
        → (asked : Asked) × Asks (map string_bytes words.now) asked × ReadsSource asked × Rose (S.faults source.old) (S.faults source.new) }
    ensures write_fault_only { result ≡ Status.WriteFault → Rose (K.faults sink.old) (K.faults sink.new) }
    ensures outcome { (asked : Asked) → Asks (map string_bytes words.now) asked
        → Outcome asked (contents_of (D.trace disk.old)) (S.left source.old) (K.taken sink.old) (K.taken sink.new) result }
    ensures done { (asked : Asked) → Asks (map string_bytes words.now) asked → result ≡ Status.Done → AsksForReplies asked → Tells (S.left source.new) [] }
    ensures answered { result ≡ Status.ReadFault → (work : Work) → Wants (map string_bytes words.now) (contents_of (D.trace disk.old)) work
        → AnswersSeen work (S.left source.old) (S.left source.new) (K.taken sink.old) (K.taken sink.new) }
    ensures no_lines { (asked : Asked) → Asks (map string_bytes words.now) asked → ¬ (ReadsSource asked) → source.new ≡ source.old }
    ensures disk { (asked : Asked) → Asks (map string_bytes words.now) asked → ¬ (NamesFile asked) → disk.new ≡ disk.old }
    ensures unchanged { (asked : Asked) → Asks (map string_bytes words.now) asked → ¬ (WritesFile asked) → D.trace disk.new ≡ D.trace disk.old }
    ensures faults { D.faults disk.old ≤ D.faults disk.new }
    ensures source { (work : Work) → Wants (map string_bytes words.now) (contents_of (D.trace disk.old)) work → ¬ (ReadsLines work) → source.new ≡ source.old }
    ensures takes { (asked : Asked) → Asks (map string_bytes words.now) asked → ¬ (AsksForPages asked)
        → TakesAtMost (input_limit + 1) (S.left source.old) (S.left source.new) }

    // With `dual` two accepted lines get the same text exactly where their sums differ by duality, and no accepted line is refused.
    ensures replies { (m : ℕ) → Asks (map string_bytes words.now) (Ok (Dual m)) → TellsSums m }

    // With `reduce` and status 0 two accepted lines got the same text exactly where the difference of their sums is in the span of the
    // listed relations, and no accepted line was refused.
    ensures reduce { (params : Params) → Asks (map string_bytes words.now) (Ok (Reduce params)) → result ≡ Status.Done
        → RepliesTell params (S.left source.old) (K.taken sink.old) (K.taken sink.new) }

    // With `check` and status 0 the bytes on the disk are a whole file: each page fits its place, the last is Done, each final row is what
    // its combination gives, and the rows are complete.
    ensures check { (bytes : List ℕ) → Asks (map string_bytes words.now) (Ok Check) → contents_of (D.trace disk.old) ≡ Some bytes → result ≡ Status.Done
        → IsWholeFile bytes }

    // With `rewrite` and status 0 they are, and two accepted lines got the same text exactly where the difference of their sums is in the
    // span of the listed relations of the file's parameters, modulo its modulus.
    ensures rewrite { (bytes : List ℕ) → Asks (map string_bytes words.now) (Ok Rewrite) → contents_of (D.trace disk.old) ≡ Some bytes → result ≡ Status.Done
        → FileTells bytes (S.left source.old) (K.taken sink.old) (K.taken sink.new) }
    ensures rational { (bytes : List ℕ) → Asks (map string_bytes words.now) (Ok Rational) → contents_of (D.trace disk.old) ≡ Some bytes → result ≡ Status.Done
        → FileTellsByFractions bytes (S.left source.old) (K.taken sink.old) (K.taken sink.new) }

    // With `build` and status 0 the disk holds the file of the parameters; where the work breaks at relation n its first 1 + n / 64 pages;
    // and where the table does not convert or bytes stood there what it held. A crash at any moment leaves first pages of that file.
    ensures build { (params : Params) → Asks (map string_bytes words.now) (Ok (Build params))
        → BuildLeaves params result (D.trace disk.old) (D.trace disk.new) }

    // With `resume` and status 0, whatever stood there, the sealed pages stand first still, the last page is Done, and the final rows follow
    // from the forward rows; over first pages of the parameters' file the disk holds that file, and where the work breaks at relation n its
    // first 1 + n / 64 pages. A refusal leaves what stood there.
    ensures resume { (params : Params) → Asks (map string_bytes words.now) (Ok (Resume params))
        → ResumeLeaves params result (D.trace disk.old) (D.trace disk.new) }

    // With `migrate` and status 0 the disk, which was empty, holds the pages of the source in version 2, the last one Done, with nothing pending;
    // the file of some parameters, where the source holds their version 1 file. A refusal of the source's bytes leaves the pages before, and
    // bytes that stood there stay. A crash at any moment leaves first pages of these.
    ensures migrate { Asks (map string_bytes words.now) (Ok Migrate)
        → MigrateLeaves (S.left source.old) result (D.trace disk.old) (D.trace disk.new) }

    // With `build` and `resume`, whatever runs of `build` and `resume` with these parameters and crashes befell a disk that was empty at first, this run is
    // one step more of their history: no page that every image had is lost, and a crash at any moment leaves first pages of the parameters'
    // file. Where it ends with status 0, that file stands there, byte for byte, with nothing pending.
    ensures continues { (params : Params) (asked : Asked) → Asks (map string_bytes words.now) asked → BuildsTable params asked
        → Continues params (D.trace disk.old) (D.trace disk.new) }
    ensures in_file { (params : Params) (asked : Asked) → Asks (map string_bytes words.now) asked → BuildsTable params asked → result ≡ Status.Done
        → EndsInFile params (D.trace disk.old) (D.trace disk.new) }
{
    match read_words(words) {
        Ok(command) => perform(alloc, command, disk, source, sink),
        Err(fault) => refuse(sink, fault),
    }
}

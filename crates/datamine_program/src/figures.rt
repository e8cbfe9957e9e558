//! The line of a table whose work came to its end. It takes no memory, so that its want never comes in its place.
ghost use Rattle.std.specs.Prelude.{◌≡◌, ◌⊎◌, ◌++◌, [], ℕ, List, Option, OnOk, OnErr, decimal};
ghost use Rattle.outside_io.specs.Causes.{HasCause, Rose};
ghost use Rattle.outside_io.specs.Told.{after_told, AppendsFront};
ghost use Rattle.table_build.specs.Answers.{figures_of};
ghost use Rattle.whole_runs.specs.FileTexts.{figures_line};
ghost use Rattle.whole_runs.specs.Outcomes.{Has};
ghost use Rattle.whole_runs.specs.Works.Work.{Writes};

use outside_io::{Failed, Sink, write_all};
use table_build::Built;
use whole_runs::Status;
use written_lines::{write_begun, write_two};

// Writes a text and a number, and behind them a second text and a number.
fn write_counts<K: Sink>(
    sink: &mut K,
    first: &[u8],
    a: u64,
    second: &[u8],
    b: u64,
) -> Result<(), Failed>
    ensures ok { OnOk result (K.taken sink.new ≡ after_told (K.taken sink.old) (first.now ++ (decimal a ++ (second.now ++ decimal b)))) }
    ensures err { OnErr result (AppendsFront (K.taken sink.old) (K.taken sink.new) (first.now ++ (decimal a ++ (second.now ++ decimal b)))) }
    ensures cause { HasCause (K.faults sink.old) (K.faults sink.new) result }
{
    write_begun(sink, first, a)?;
    write_begun(sink, second, b)
}

// Writes the figures, behind what was done.
fn write_counted<K: Sink>(sink: &mut K, built: Built) -> Result<(), Failed>
    ensures ok { OnOk result (K.taken sink.new ≡ after_told (K.taken sink.old) (figures_line [] (figures_of built))) }
    ensures err { OnErr result (AppendsFront (K.taken sink.old) (K.taken sink.new) (figures_line [] (figures_of built))) }
    ensures cause { HasCause (K.faults sink.old) (K.faults sink.new) result }
{
    let relations = u64::from(built.relations);
    let rows = u64::from(built.rows);
    write_counts(sink, b": relations ", relations, b", rows ", rows)?;
    let offered = u64::from(built.offered);
    write_two(sink, b", offered ", offered, b", pages ", built.pages)
}

// Writes the line of a table: what was done, and the figures.
fn write_figures<K: Sink>(sink: &mut K, done: &[u8], built: Built) -> Result<(), Failed>
    ensures ok { OnOk result (K.taken sink.new ≡ after_told (K.taken sink.old) (figures_line done.now (figures_of built))) }
    ensures err { OnErr result (AppendsFront (K.taken sink.old) (K.taken sink.new) (figures_line done.now (figures_of built))) }
    ensures cause { HasCause (K.faults sink.old) (K.faults sink.new) result }
{
    write_all(sink, done)?;
    write_counted(sink, built)
}

// Tells what was done, where the work on a table came to its end.
pub(crate) fn tell_built<K: Sink>(sink: &mut K, done: &[u8], built: Built) -> Status
    ensures which { (result ≡ Status.Done) ⊎ (result ≡ Status.WriteFault) }
    ensures has { (left : Option (List ℕ)) → Has (Writes (figures_line done.now (figures_of built)) Status.Done) left (K.taken sink.old) (K.taken sink.new) result }
    ensures write_fault_only { result ≡ Status.WriteFault → Rose (K.faults sink.old) (K.faults sink.new) }
{
    match write_figures(sink, done, built) {
        Ok(()) => Status::Done,
        Err(_) => Status::WriteFault,
    }
}

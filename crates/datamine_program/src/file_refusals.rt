//! The lines that refuse a file. They take no memory, so that its want never comes in their place.
ghost use Rattle.std.specs.Prelude.{◌≡◌, ◌≢◌, ◌⊎◌, ◌++◌, ℕ, List, Option, OnOk, OnErr, decimal};
ghost use Rattle.outside_io.specs.Causes.{HasCause, Rose};
ghost use Rattle.outside_io.specs.Traces.{Trace};
ghost use Rattle.outside_io.specs.Told.{after_told, AppendsFront};
ghost use Rattle.whole_runs.specs.CommandLine.{Asked};
ghost use Rattle.whole_runs.specs.Outcomes.{Has, Outcome, contents_of};
ghost use Rattle.whole_runs.specs.Works.Work.{Writes};
ghost use Rattle.datamine_program.specs.Inner.{ReadsTable, IsShowFault};

use crate::table_file::ShowFault;
use outside_io::{Failed, Sink, write_all};
use whole_runs::Status;
use written_lines::write_begun;

// Writes a text and a number, and behind them a second text.
fn write_around<K: Sink>(
    sink: &mut K,
    first: &[u8],
    number: u64,
    second: &[u8],
) -> Result<(), Failed>
    ensures ok { OnOk result (K.taken sink.new ≡ after_told (K.taken sink.old) (first.now ++ (decimal number ++ second.now))) }
    ensures err { OnErr result (AppendsFront (K.taken sink.old) (K.taken sink.new) (first.now ++ (decimal number ++ second.now))) }
    ensures cause { HasCause (K.faults sink.old) (K.faults sink.new) result }
{
    write_begun(sink, first, number)?;
    write_all(sink, second)
}

// Tells a number between two texts, and ends so.
pub(crate) fn refuse_number<K: Sink>(
    sink: &mut K,
    first: &[u8],
    number: u64,
    second: &[u8],
    end: Status,
) -> Status
    requires { end ≢ Status.WriteFault }
    ensures which { (result ≡ end) ⊎ (result ≡ Status.WriteFault) }
    ensures has { (left : Option (List ℕ)) → Has (Writes (first.now ++ (decimal number ++ second.now)) end) left (K.taken sink.old) (K.taken sink.new) result }
    ensures write_fault_only { result ≡ Status.WriteFault → Rose (K.faults sink.old) (K.faults sink.new) }
{
    match write_around(sink, first, number, second) {
        Ok(()) => end,
        Err(_) => Status::WriteFault,
    }
}

// Tells why there is no table in a file, and writes nothing where memory was wanting or a call of the disk failed.
pub(crate) fn refuse_file<K: Sink>(sink: &mut K, fault: ShowFault) -> Status
    ensures which { (result ≡ Status.NotATable) ⊎ (result ≡ Status.NotComplete) ⊎ (result ≡ Status.DiskFault) ⊎ (result ≡ Status.Memory) ⊎ (result ≡ Status.WriteFault) }
    ensures outcome { (asked : Asked) (before now : ℕ) (told : Option Trace) (left : Option (List ℕ)) → ReadsTable asked → IsShowFault (Rose before now) told fault
        → Outcome asked (contents_of told) left (K.taken sink.old) (K.taken sink.new) result }
    ensures disk_fault_only { result ≡ Status.DiskFault → fault ≡ ShowFault.DiskFault }
    ensures write_fault_only { result ≡ Status.WriteFault → Rose (K.faults sink.old) (K.faults sink.new) }
{
    match fault {
        ShowFault::DiskFault => Status::DiskFault,
        ShowFault::Foreign(bytes) => {
            let text = b"not a table: foreign ";
            refuse_number(sink, text, bytes, b"\n", Status::NotATable)
        }
        ShowFault::BadPage(page) => {
            let text = b"not a table: page ";
            refuse_number(sink, text, page, b" unreadable\n", Status::NotATable)
        }
        ShowFault::Misplaced(page) => {
            let text = b"not a table: page ";
            refuse_number(sink, text, page, b" misplaced\n", Status::NotATable)
        }
        ShowFault::NoPage => {
            let text = b"not complete: pages ";
            refuse_number(sink, text, 0, b", not done\n", Status::NotComplete)
        }
        ShowFault::Memory => Status::Memory,
    }
}

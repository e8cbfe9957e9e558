//! The lines that refuse a file whose table is not whole. They take no memory, but for what is left of a relation.
ghost use Rattle.std.specs.Prelude.{◌≡◌, ◌⊎◌, ℕ, List, Option};
ghost use Rattle.outside_io.specs.Causes.{Rose};
ghost use Rattle.outside_io.specs.Traces.{Trace};
ghost use Rattle.page_codec.specs.Bounds.{IsParams};
ghost use Rattle.file_model.specs.TableOf.{IsTableOf};
ghost use Rattle.column_order.specs.Columns.{ColumnList};
ghost use Rattle.poly_print.specs.Polynomials.{residues_text};
ghost use Rattle.cert_checker.specs.Certified.{residues_at};
ghost use Rattle.table_checker.specs.Checks.{IsRowOf};
ghost use Rattle.whole_runs.specs.CommandLine.{Asked};
ghost use Rattle.whole_runs.specs.FileTexts.{missing_line};
ghost use Rattle.whole_runs.specs.Outcomes.{Has, Outcome, contents_of};
ghost use Rattle.whole_runs.specs.Works.Work.{Writes};
ghost use Rattle.datamine_program.specs.Inner.{JudgesFile, CanTell, IsCheckFault};

use crate::file_refusals::refuse_number;
use crate::no_inverse::refuse_word;
use crate::writing::write_and_end;
use outside_io::Sink;
use page_codec::{Params, RowData};
use std::alloc::Global;
use table_checker::CheckFault;
use table_texts::missing_text;
use whole_runs::Status;

// Tells what the final rows of the table of the parameters leave of a relation.
fn refuse_missing<K: Sink>(
    alloc: Global,
    params: &Params,
    n: u32,
    rest: &RowData,
    sink: &mut K,
) -> Status
    requires params { IsParams params.now }
    requires rest { IsRowOf params.now rest.now }
    ensures which { (result ≡ Status.NotComplete) ⊎ (result ≡ Status.Memory) ⊎ (result ≡ Status.WriteFault) }
    ensures has { (columns : ColumnList) (left : Option (List ℕ)) → IsTableOf params.now columns
        → Has (Writes (missing_line n (residues_text columns.list (residues_at rest.now))) Status.NotComplete) left (K.taken sink.old) (K.taken sink.new) result }
    ensures write_fault_only { result ≡ Status.WriteFault → Rose (K.faults sink.old) (K.faults sink.new) }
{
    match missing_text(alloc, params, n, rest) {
        Ok(text) => write_and_end(sink, text.as_bytes(), Status::NotComplete),
        Err(_) => Status::Memory,
    }
}

// Tells why the table of the parameters in a file is refused, and writes nothing where memory was wanting or a call of the disk failed.
pub(crate) fn refuse_check<K: Sink>(
    alloc: Global,
    params: &Params,
    fault: CheckFault,
    sink: &mut K,
) -> Status
    requires params { IsParams params.now }
    requires told { CanTell params.now fault }
    ensures which { (result ≡ Status.NotATable) ⊎ (result ≡ Status.NotComplete) ⊎ (result ≡ Status.DiskFault) ⊎ (result ≡ Status.Memory) ⊎ (result ≡ Status.WriteFault) ⊎ (result ≡ Status.NoInverse) }
    ensures outcome { (asked : Asked) (before now : ℕ) (told : Option Trace) (left : Option (List ℕ)) → JudgesFile asked
        → IsCheckFault (Rose before now) told params.now fault → Outcome asked (contents_of told) left (K.taken sink.old) (K.taken sink.new) result }
    ensures disk_fault_only { result ≡ Status.DiskFault → fault ≡ CheckFault.DiskFault }
    ensures write_fault_only { result ≡ Status.WriteFault → Rose (K.faults sink.old) (K.faults sink.new) }
{
    match fault {
        CheckFault::DiskFault => Status::DiskFault,
        CheckFault::BadPage(page) => {
            let text = b"not a table: page ";
            refuse_number(sink, text, page, b" unreadable\n", Status::NotATable)
        }
        CheckFault::Misfit(page) => {
            let text = b"not a table: page ";
            refuse_number(sink, text, page, b" misplaced\n", Status::NotATable)
        }
        CheckFault::NotDone(pages) => {
            let text = b"not complete: pages ";
            refuse_number(sink, text, pages, b", not done\n", Status::NotComplete)
        }
        CheckFault::NoInverse { value, word } => refuse_word(sink, value, word),
        CheckFault::BadRow(row) => {
            let text = b"not complete: row ";
            let end = b" is not its combination\n";
            refuse_number(sink, text, u64::from(row), end, Status::NotComplete)
        }
        CheckFault::NotReduced(row) => {
            let text = b"not complete: row ";
            let end = b" is not reduced\n";
            refuse_number(sink, text, u64::from(row), end, Status::NotComplete)
        }
        CheckFault::Missing { n, rest } => refuse_missing(alloc, params, n, &rest, sink),
        CheckFault::Memory(_) => Status::Memory,
    }
}

//! The command `check`: whether the table in a file is complete.
ghost use Rattle.std.specs.Prelude.{◌≡◌, ◌≤◌, ◌⊎◌, ℕ, List, Option, IsTrue, Ok, Some, IfSome};
ghost use Rattle.outside_io.specs.Causes.{Rose};
ghost use Rattle.page_codec.specs.Bounds.{IsParams};
ghost use Rattle.page_file.specs.Notes.{Suits};
ghost use Rattle.whole_runs.specs.declared.command.Command.TheVariants.{Check};
ghost use Rattle.whole_runs.specs.FileTexts.{complete_line};
ghost use Rattle.whole_runs.specs.Outcomes.{Has, Outcome, contents_of};
ghost use Rattle.whole_runs.specs.Works.Work.{Writes};
ghost use Rattle.datamine_program.specs.Inner.{EndsFile};

use crate::check_refusals::refuse_check;
use crate::file_refusals::refuse_file;
use crate::table_check::checked_table;
use crate::table_file::open_table;
use crate::writing::write_and_end;
use odd_residues::ResidueRing;
use outside_io::{Disk, Sink};
use page_codec::Params;
use page_file::PageFile;
use residues::Ring;
use std::alloc::Global;
use table_texts::complete_text;
use whole_runs::Status;

// Tells that a table is complete, with how many relations and rows it has.
fn tell_complete<K: Sink>(
    alloc: Global,
    params: &Params,
    relations: u32,
    rows: u32,
    sink: &mut K,
) -> Status
    requires { IsParams params.now }
    ensures which { (result ≡ Status.Done) ⊎ (result ≡ Status.Memory) ⊎ (result ≡ Status.WriteFault) }
    ensures has { (left : Option (List ℕ)) → Has (Writes (complete_line params.now relations rows) Status.Done) left (K.taken sink.old) (K.taken sink.new) result }
    ensures write_fault_only { result ≡ Status.WriteFault → Rose (K.faults sink.old) (K.faults sink.new) }
{
    match complete_text(alloc, params, relations, rows) {
        Ok(text) => write_and_end(sink, text.as_bytes(), Status::Done),
        Err(_) => Status::Memory,
    }
}

// Checks the table in a file with this header, over a ring of its modulus.
fn check_over<R: Ring, D: Disk, K: Sink>(
    alloc: Global,
    ring: R,
    file: &mut PageFile,
    params: &Params,
    disk: &mut D,
    sink: &mut K,
) -> Status
    requires live { IsTrue file.old.is_live }
    requires suits { IfSome (D.trace disk.old) (λ t. Suits file.old t.now.contents) }
    requires header { file.old.params ≡ Some params.now }
    requires params { IsParams params.now }
    requires ring { R.modulus ring ≡ params.now.modulus }
    ensures which { EndsFile result }
    ensures outcome { (left : Option (List ℕ)) → Outcome (Ok Check) (contents_of (D.trace disk.old)) left (K.taken sink.old) (K.taken sink.new) result }
    ensures disk_fault_only { result ≡ Status.DiskFault → Rose (D.faults disk.old) (D.faults disk.new) }
    ensures write_fault_only { result ≡ Status.WriteFault → Rose (K.faults sink.old) (K.faults sink.new) }
    ensures same { D.trace disk.new ≡ D.trace disk.old }
    ensures faults { D.faults disk.old ≤ D.faults disk.new }
{
    match checked_table(alloc, ring, file, params, disk) {
        Ok(checked) => {
            let rows = checked.rows.len();
            tell_complete(alloc, params, checked.relations, rows, sink)
        }
        Err(fault) => refuse_check(alloc, params, fault, sink),
    }
}

// Checks the table in the file, and prints one line.
pub(crate) fn run_check<D: Disk, K: Sink>(alloc: Global, disk: &mut D, sink: &mut K) -> Status
    ensures which { EndsFile result }
    ensures outcome { (left : Option (List ℕ)) → Outcome (Ok Check) (contents_of (D.trace disk.old)) left (K.taken sink.old) (K.taken sink.new) result }
    ensures disk_fault_only { result ≡ Status.DiskFault → Rose (D.faults disk.old) (D.faults disk.new) }
    ensures write_fault_only { result ≡ Status.WriteFault → Rose (K.faults sink.old) (K.faults sink.new) }
    ensures same { D.trace disk.new ≡ D.trace disk.old }
    ensures faults { D.faults disk.old ≤ D.faults disk.new }
{
    let mut opened = match open_table(alloc, disk) {
        Ok(opened) => opened,
        Err(fault) => return refuse_file(sink, fault),
    };
    let params = opened.params;
    let file = &mut opened.file;
    match ResidueRing::new(params.modulus) {
        Ok(ResidueRing::Odd(ring)) => check_over(alloc, ring, file, &params, disk, sink),
        Ok(ResidueRing::Even(ring)) => check_over(alloc, ring, file, &params, disk, sink),
        Err(_) => unreachable!(),
    }
}

//! The command `rational`: as `rewrite`, with small fractions for residues.
ghost use Rattle.std.specs.Prelude.{◌≡◌, ◌≤◌, Ok, IsTrue, Some, IfSome};
ghost use Rattle.outside_io.specs.Causes.{Rose};
ghost use Rattle.page_codec.specs.Bounds.{IsParams};
ghost use Rattle.page_file.specs.Notes.{Suits};
ghost use Rattle.whole_runs.specs.declared.command.Command.TheVariants.{Rational};
ghost use Rattle.whole_runs.specs.Outcomes.{contents_of};
ghost use Rattle.whole_runs.specs.Wanted.{IsWork};
ghost use Rattle.whole_runs.specs.Works.{Work, ReadsLines};
ghost use Rattle.datamine_program.specs.Inner.{IsRun};

use crate::check_refusals::refuse_check;
use crate::file_refusals::refuse_file;
use crate::file_replies::fraction_replies;
use crate::lines::run_lines;
use crate::table_file::open_table;
use odd_residues::ResidueRing;
use outside_io::{Disk, Sink, Source};
use page_codec::Params;
use page_file::PageFile;
use residues::Ring;
use std::alloc::Global;
use whole_runs::Status;

// Replies to each line by the table in a file with this header, over a ring of its modulus. No line is read before the table is checked.
fn rational_over<R: Ring, D: Disk, S: Source, K: Sink>(
    alloc: Global,
    ring: R,
    file: &mut PageFile,
    params: &Params,
    disk: &mut D,
    source: &mut S,
    sink: &mut K,
) -> Status
    requires live { IsTrue file.old.is_live }
    requires suits { IfSome (D.trace disk.old) (λ t. Suits file.old t.now.contents) }
    requires header { file.old.params ≡ Some params.now }
    requires params { IsParams params.now }
    requires ring { R.modulus ring ≡ params.now.modulus }
    ensures run { IsRun (Ok Rational) (contents_of (D.trace disk.old)) (S.left source.old) (S.left source.new) (K.taken sink.old) (K.taken sink.new) result }
    ensures source { (work : Work) → IsWork (Ok Rational) (contents_of (D.trace disk.old)) work → ¬ (ReadsLines work) → source.new ≡ source.old }
    ensures disk_fault_only { result ≡ Status.DiskFault → Rose (D.faults disk.old) (D.faults disk.new) }
    ensures read_fault_only { result ≡ Status.ReadFault → Rose (S.faults source.old) (S.faults source.new) }
    ensures write_fault_only { result ≡ Status.WriteFault → Rose (K.faults sink.old) (K.faults sink.new) }
    ensures same { D.trace disk.new ≡ D.trace disk.old }
    ensures faults { D.faults disk.old ≤ D.faults disk.new }
{
    match fraction_replies(alloc, ring, file, params, disk) {
        Ok(replies) => run_lines(alloc, &replies, source, sink),
        Err(fault) => refuse_check(alloc, params, fault, sink),
    }
}

// Replies to each line by the table in the file.
pub(crate) fn run_rational<D: Disk, S: Source, K: Sink>(
    alloc: Global,
    disk: &mut D,
    source: &mut S,
    sink: &mut K,
) -> Status
    ensures run { IsRun (Ok Rational) (contents_of (D.trace disk.old)) (S.left source.old) (S.left source.new) (K.taken sink.old) (K.taken sink.new) result }
    ensures source { (work : Work) → IsWork (Ok Rational) (contents_of (D.trace disk.old)) work → ¬ (ReadsLines work) → source.new ≡ source.old }
    ensures disk_fault_only { result ≡ Status.DiskFault → Rose (D.faults disk.old) (D.faults disk.new) }
    ensures read_fault_only { result ≡ Status.ReadFault → Rose (S.faults source.old) (S.faults source.new) }
    ensures write_fault_only { result ≡ Status.WriteFault → Rose (K.faults sink.old) (K.faults sink.new) }
    ensures same { D.trace disk.new ≡ D.trace disk.old }
    ensures faults { D.faults disk.old ≤ D.faults disk.new }
{
    let mut opened = match open_table(alloc, disk) {
        Ok(opened) => opened,
        Err(fault) => return refuse_file(sink, fault),
    };
    let params = opened.params;
    let file = &mut opened.file;
    match ResidueRing::new(params.modulus) {
        Ok(ResidueRing::Odd(ring)) => {
            rational_over(alloc, ring, file, &params, disk, source, sink)
        }
        Ok(ResidueRing::Even(ring)) => {
            rational_over(alloc, ring, file, &params, disk, source, sink)
        }
        Err(_) => unreachable!(),
    }
}

//! The command `build`: the table of parameters is made in a file, with a certificate for each row.
ghost use Rattle.std.specs.Prelude.{◌≡◌, ◌≤◌, ℕ, List, Option, Ok};
ghost use Rattle.outside_io.specs.Causes.{Rose};
ghost use Rattle.outside_io.specs.Traces.{Trace};
ghost use Rattle.page_codec.specs.declared.params.Params.{Params};
ghost use Rattle.page_codec.specs.Bounds.{IsParams};
ghost use Rattle.file_model.specs.Histories.{EndsInFile};
ghost use Rattle.whole_runs.specs.declared.command.Command.TheVariants.{Build};
ghost use Rattle.whole_runs.specs.Outcomes.{Outcome, contents_of};
ghost use Rattle.datamine_program.specs.Inner.{EndsFile, IsBuildFault, CanTellFault, StatusOfFault};
ghost use Rattle.datamine_program.specs.Leaving.{BuildLeaves};

use crate::figures::tell_built;
use crate::file_refusals::refuse_number;
use crate::no_inverse::{refuse_relation, refuse_word};
use odd_residues::ResidueRing;
use outside_io::{Disk, Sink};
use page_codec::Params;
use residues::Ring;
use std::alloc::Global;
use table_build::{BuildFault, build};
use whole_runs::Status;

// Tells why a table was not built, and writes nothing where memory was wanting or a call of the disk failed.
fn refuse_build<K: Sink>(sink: &mut K, fault: BuildFault) -> Status
    requires { CanTellFault fault }
    ensures which { StatusOfFault fault result }
    ensures outcome { (params : Params) (told : Option Trace) (left : Option (List ℕ)) → IsBuildFault params told fault
        → Outcome (Ok (Build params)) (contents_of told) left (K.taken sink.old) (K.taken sink.new) result }
    ensures write_fault_only { result ≡ Status.WriteFault → Rose (K.faults sink.old) (K.faults sink.new) }
{
    match fault {
        BuildFault::DiskFault => Status::DiskFault,
        BuildFault::Exists(bytes) => {
            let text = b"not a table: exists ";
            refuse_number(sink, text, bytes, b"\n", Status::NotATable)
        }
        BuildFault::BadPage(page) => {
            let text = b"not a table: page ";
            refuse_number(sink, text, page, b" unreadable\n", Status::NotATable)
        }
        BuildFault::NoInverseWord { value, word } => refuse_word(sink, value, word),
        BuildFault::NoInverseRelation { value, n } => refuse_relation(sink, value, n),
        BuildFault::Differs(page) => {
            let text = b"not a table: page ";
            refuse_number(sink, text, page, b" differs\n", Status::NotATable)
        }
        BuildFault::Memory(_) => Status::Memory,
    }
}

// Builds the table of the parameters, over a ring of their modulus.
fn build_over<R: Ring, D: Disk, K: Sink>(
    alloc: Global,
    ring: R,
    params: &Params,
    disk: &mut D,
    sink: &mut K,
) -> Status
    requires params { IsParams params.now }
    requires ring { R.modulus ring ≡ params.now.modulus }
    ensures which { EndsFile result }
    ensures outcome { (left : Option (List ℕ)) → Outcome (Ok (Build params.now)) (contents_of (D.trace disk.old)) left (K.taken sink.old) (K.taken sink.new) result }
    ensures leaves { BuildLeaves params.now result (D.trace disk.old) (D.trace disk.new) }
    ensures in_file { result ≡ Status.Done → EndsInFile params.now (D.trace disk.old) (D.trace disk.new) }
    ensures disk_fault_only { result ≡ Status.DiskFault → Rose (D.faults disk.old) (D.faults disk.new) }
    ensures write_fault_only { result ≡ Status.WriteFault → Rose (K.faults sink.old) (K.faults sink.new) }
    ensures faults { D.faults disk.old ≤ D.faults disk.new }
{
    match build(alloc, ring, params, disk) {
        Ok(built) => tell_built(sink, b"built", built),
        Err(fault) => refuse_build(sink, fault),
    }
}

// Builds the table of the parameters on the disk, and prints one line.
pub(crate) fn run_build<D: Disk, K: Sink>(
    alloc: Global,
    params: &Params,
    disk: &mut D,
    sink: &mut K,
) -> Status
    requires { IsParams params.now }
    ensures which { EndsFile result }
    ensures outcome { (left : Option (List ℕ)) → Outcome (Ok (Build params.now)) (contents_of (D.trace disk.old)) left (K.taken sink.old) (K.taken sink.new) result }
    ensures leaves { BuildLeaves params.now result (D.trace disk.old) (D.trace disk.new) }
    ensures in_file { result ≡ Status.Done → EndsInFile params.now (D.trace disk.old) (D.trace disk.new) }
    ensures disk_fault_only { result ≡ Status.DiskFault → Rose (D.faults disk.old) (D.faults disk.new) }
    ensures write_fault_only { result ≡ Status.WriteFault → Rose (K.faults sink.old) (K.faults sink.new) }
    ensures faults { D.faults disk.old ≤ D.faults disk.new }
{
    match ResidueRing::new(params.modulus) {
        Ok(ResidueRing::Odd(ring)) => build_over(alloc, ring, params, disk, sink),
        Ok(ResidueRing::Even(ring)) => build_over(alloc, ring, params, disk, sink),
        Err(_) => unreachable!(),
    }
}

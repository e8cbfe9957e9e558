//! The command `resume`: a stopped build of the table of parameters goes on, from what stands in its file.
ghost use Rattle.std.specs.Prelude.{◌≡◌, ◌≤◌, ◌⊎◌, ℕ, List, Option, Ok};
ghost use Rattle.outside_io.specs.Causes.{Rose};
ghost use Rattle.outside_io.specs.Traces.{Trace};
ghost use Rattle.page_codec.specs.declared.params.Params.{Params};
ghost use Rattle.page_codec.specs.Bounds.{IsParams};
ghost use Rattle.file_model.specs.Histories.{EndsInFile};
ghost use Rattle.table_build.specs.Resumes.{Tells, fault_says, CanTell};
ghost use Rattle.whole_runs.specs.declared.command.Command.TheVariants.{Resume};
ghost use Rattle.whole_runs.specs.FileTexts.{other_line};
ghost use Rattle.whole_runs.specs.Outcomes.{Has, Outcome, contents_of};
ghost use Rattle.whole_runs.specs.Works.Work.{Writes};
ghost use Rattle.datamine_program.specs.Inner.{EndsFile, EndsAs, end_of};
ghost use Rattle.datamine_program.specs.Leaving.{ResumeLeaves};

use crate::figures::tell_built;
use crate::file_refusals::refuse_number;
use crate::no_inverse::{refuse_relation, refuse_word};
use crate::writing::write_and_end;
use odd_residues::ResidueRing;
use outside_io::{Disk, Sink};
use page_codec::Params;
use residues::Ring;
use std::alloc::Global;
use table_build::{ResumeFault, resume};
use table_texts::other_text;
use whole_runs::Status;

// Tells that the header of a file has other parameters, these.
fn refuse_other<K: Sink>(alloc: Global, params: &Params, sink: &mut K) -> Status
    requires { IsParams params.now }
    ensures which { EndsAs Status.NotATable result }
    ensures has { (left : Option (List ℕ)) → Has (Writes (other_line params.now) Status.NotATable) left (K.taken sink.old) (K.taken sink.new) result }
    ensures write_fault_only { result ≡ Status.WriteFault → Rose (K.faults sink.old) (K.faults sink.new) }
{
    match other_text(alloc, params) {
        Ok(text) => write_and_end(sink, text.as_bytes(), Status::NotATable),
        Err(_) => Status::Memory,
    }
}

// Tells why a build did not go on, and writes nothing where memory was wanting or a call of the disk failed.
fn refuse_resume<K: Sink>(alloc: Global, fault: ResumeFault, sink: &mut K) -> Status
    requires { CanTell fault }
    ensures which { EndsAs (end_of fault) result }
    ensures outcome { (params : Params) (told : Option Trace) (left : Option (List ℕ)) → Tells params told (fault_says fault)
        → Outcome (Ok (Resume params)) (contents_of told) left (K.taken sink.old) (K.taken sink.new) result }
    ensures write_fault_only { result ≡ Status.WriteFault → Rose (K.faults sink.old) (K.faults sink.new) }
{
    match fault {
        ResumeFault::DiskFault => Status::DiskFault,
        ResumeFault::Foreign(bytes) => {
            let text = b"not a table: foreign ";
            refuse_number(sink, text, bytes, b"\n", Status::NotATable)
        }
        ResumeFault::BadPage(page) => {
            let text = b"not a table: page ";
            refuse_number(sink, text, page, b" unreadable\n", Status::NotATable)
        }
        ResumeFault::Other(params) => refuse_other(alloc, &params, sink),
        ResumeFault::Misfit(page) => {
            let text = b"not a table: page ";
            refuse_number(sink, text, page, b" misplaced\n", Status::NotATable)
        }
        ResumeFault::NoInverseWord { value, word } => refuse_word(sink, value, word),
        ResumeFault::NotForward(page) => {
            let text = b"not a table: page ";
            refuse_number(sink, text, page, b" not forward\n", Status::NotATable)
        }
        ResumeFault::NoInverseRelation { value, n } => refuse_relation(sink, value, n),
        ResumeFault::Differs(page) => {
            let text = b"not a table: page ";
            refuse_number(sink, text, page, b" differs\n", Status::NotATable)
        }
        ResumeFault::Memory(_) => Status::Memory,
    }
}

// Goes on with a build of the table of the parameters, over a ring of their modulus.
fn resume_over<R: Ring, D: Disk, K: Sink>(
    alloc: Global,
    ring: R,
    params: &Params,
    disk: &mut D,
    sink: &mut K,
) -> Status
    requires params { IsParams params.now }
    requires ring { R.modulus ring ≡ params.now.modulus }
    ensures which { EndsFile result }
    ensures outcome { (left : Option (List ℕ)) → Outcome (Ok (Resume params.now)) (contents_of (D.trace disk.old)) left (K.taken sink.old) (K.taken sink.new) result }
    ensures leaves { ResumeLeaves params.now result (D.trace disk.old) (D.trace disk.new) }
    ensures in_file { result ≡ Status.Done → EndsInFile params.now (D.trace disk.old) (D.trace disk.new) }
    ensures disk_fault_only { result ≡ Status.DiskFault → Rose (D.faults disk.old) (D.faults disk.new) }
    ensures write_fault_only { result ≡ Status.WriteFault → Rose (K.faults sink.old) (K.faults sink.new) }
    ensures faults { D.faults disk.old ≤ D.faults disk.new }
{
    match resume(alloc, ring, params, disk) {
        Ok(built) => tell_built(sink, b"resumed", built),
        Err(fault) => refuse_resume(alloc, fault, sink),
    }
}

// Goes on with a build of the table of the parameters on the disk, and prints one line.
pub(crate) fn run_resume<D: Disk, K: Sink>(
    alloc: Global,
    params: &Params,
    disk: &mut D,
    sink: &mut K,
) -> Status
    requires { IsParams params.now }
    ensures which { EndsFile result }
    ensures outcome { (left : Option (List ℕ)) → Outcome (Ok (Resume params.now)) (contents_of (D.trace disk.old)) left (K.taken sink.old) (K.taken sink.new) result }
    ensures leaves { ResumeLeaves params.now result (D.trace disk.old) (D.trace disk.new) }
    ensures in_file { result ≡ Status.Done → EndsInFile params.now (D.trace disk.old) (D.trace disk.new) }
    ensures disk_fault_only { result ≡ Status.DiskFault → Rose (D.faults disk.old) (D.faults disk.new) }
    ensures write_fault_only { result ≡ Status.WriteFault → Rose (K.faults sink.old) (K.faults sink.new) }
    ensures faults { D.faults disk.old ≤ D.faults disk.new }
{
    match ResidueRing::new(params.modulus) {
        Ok(ResidueRing::Odd(ring)) => resume_over(alloc, ring, params, disk, sink),
        Ok(ResidueRing::Even(ring)) => resume_over(alloc, ring, params, disk, sink),
        Err(_) => unreachable!(),
    }
}

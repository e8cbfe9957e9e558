//! Work that replies to each line of the source.
ghost use Rattle.std.specs.Prelude.{◌≡◌, ◌+◌, ◌⊎◌, []};
ghost use Rattle.outside_io.specs.Causes.{Rose};
ghost use Rattle.line_loop.specs.Lines.{input_limit};
ghost use Rattle.line_loop.specs.Talk.{Tells, TakesAtMost};
ghost use Rattle.whole_runs.specs.Outcomes.{Has, AnswersSeen};
ghost use Rattle.whole_runs.specs.Works.Work.{Replies};

use line_loop::{Ended, Replier, answer_lines};
use outside_io::{Sink, Source};
use std::alloc::Global;
use whole_runs::Status;

// Gives each line of the source its reply.
pub(crate) fn run_lines<R: Replier, S: Source, K: Sink>(
    alloc: Global,
    replier: &R,
    source: &mut S,
    sink: &mut K,
) -> Status
    ensures which { (result ≡ Status.Done) ⊎ (result ≡ Status.Memory) ⊎ (result ≡ Status.ReadFault) ⊎ (result ≡ Status.WriteFault) ⊎ (result ≡ Status.TooMuchInput) }
    ensures has { Has (Replies (R.reply_to replier.now)) (S.left source.old) (K.taken sink.old) (K.taken sink.new) result }
    ensures takes { TakesAtMost (input_limit + 1) (S.left source.old) (S.left source.new) }
    ensures done { result ≡ Status.Done → Tells (S.left source.new) [] }
    ensures answered { result ≡ Status.ReadFault → AnswersSeen (Replies (R.reply_to replier.now)) (S.left source.old) (S.left source.new) (K.taken sink.old) (K.taken sink.new) }
    ensures read_fault_only { result ≡ Status.ReadFault → Rose (S.faults source.old) (S.faults source.new) }
    ensures write_fault_only { result ≡ Status.WriteFault → Rose (K.faults sink.old) (K.faults sink.new) }
{
    match answer_lines(alloc, replier, source, sink) {
        Ended::Done => Status::Done,
        Ended::Memory => Status::Memory,
        Ended::ReadFault => Status::ReadFault,
        Ended::WriteFault => Status::WriteFault,
        Ended::TooMuchInput => Status::TooMuchInput,
    }
}

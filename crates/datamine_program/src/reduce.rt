//! The command `reduce`: each line is replied to by the reduced rows of a table that is made in memory.
ghost use Rattle.std.specs.Prelude.{◌≡◌, ℕ, List, Option, Ok};
ghost use Rattle.outside_io.specs.Causes.{Rose};
ghost use Rattle.page_codec.specs.Bounds.{IsParams};
ghost use Rattle.whole_runs.specs.Works.{Work, ReadsLines};
ghost use Rattle.whole_runs.specs.Wanted.{IsWork};
ghost use Rattle.whole_runs.specs.declared.command.Command.TheVariants.{Reduce};
ghost use Rattle.datamine_program.specs.Inner.{IsRun};

use crate::lines::run_lines;
use crate::no_inverse::refuse_table;
use crate::ready::make_ready;
use odd_residues::ResidueRing;
use outside_io::{Sink, Source};
use page_codec::Params;
use residues::Ring;
use std::alloc::Global;
use whole_runs::Status;

// Replies to each line, in a ring of the modulus of the parameters. No line is read before the table stands.
fn reduce_over<R: Ring, S: Source, K: Sink>(
    alloc: Global,
    ring: R,
    params: &Params,
    source: &mut S,
    sink: &mut K,
) -> Status
    requires params { IsParams params.now }
    requires ring { R.modulus ring ≡ params.now.modulus }
    ensures run { (contents : Option (List ℕ)) → IsRun (Ok (Reduce params.now)) contents (S.left source.old) (S.left source.new) (K.taken sink.old) (K.taken sink.new) result }
    ensures source { (contents : Option (List ℕ)) (work : Work) → IsWork (Ok (Reduce params.now)) contents work → ¬ (ReadsLines work) → source.new ≡ source.old }
    ensures read_fault_only { result ≡ Status.ReadFault → Rose (S.faults source.old) (S.faults source.new) }
    ensures write_fault_only { result ≡ Status.WriteFault → Rose (K.faults sink.old) (K.faults sink.new) }
{
    match make_ready(alloc, ring, params) {
        Ok(ready) => run_lines(alloc, &ready.replies, source, sink),
        Err(fault) => refuse_table(sink, fault),
    }
}

// Replies to each line by the table of the parameters.
pub(crate) fn run_reduce<S: Source, K: Sink>(
    alloc: Global,
    params: &Params,
    source: &mut S,
    sink: &mut K,
) -> Status
    requires { IsParams params.now }
    ensures run { (contents : Option (List ℕ)) → IsRun (Ok (Reduce params.now)) contents (S.left source.old) (S.left source.new) (K.taken sink.old) (K.taken sink.new) result }
    ensures source { (contents : Option (List ℕ)) (work : Work) → IsWork (Ok (Reduce params.now)) contents work → ¬ (ReadsLines work) → source.new ≡ source.old }
    ensures read_fault_only { result ≡ Status.ReadFault → Rose (S.faults source.old) (S.faults source.new) }
    ensures write_fault_only { result ≡ Status.WriteFault → Rose (K.faults sink.old) (K.faults sink.new) }
{
    match ResidueRing::new(params.modulus) {
        Ok(ResidueRing::Odd(ring)) => reduce_over(alloc, ring, params, source, sink),
        Ok(ResidueRing::Even(ring)) => reduce_over(alloc, ring, params, source, sink),
        Err(_) => unreachable!(),
    }
}

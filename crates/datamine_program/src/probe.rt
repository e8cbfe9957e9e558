//! The command `probe`: each line is replied to by truncated sums.
ghost use Rattle.std.specs.Prelude.{◌≡◌, ℕ, List, Option, ◌≤◌, ◌<◌, ◌^◌, Ok};
ghost use Rattle.outside_io.specs.Causes.{Rose};
ghost use Rattle.whole_runs.specs.Works.{Work, ReadsLines};
ghost use Rattle.whole_runs.specs.Wanted.{IsWork};
ghost use Rattle.whole_runs.specs.declared.command.Command.TheVariants.{Probe};
ghost use Rattle.datamine_program.specs.Inner.{IsRun};

use crate::lines::run_lines;
use crate::no_inverse::refuse_sums;
use odd_residues::ResidueRing;
use outside_io::{Sink, Source};
use probe_replies::ProbeReplies;
use residues::Ring;
use std::alloc::Global;
use whole_runs::Status;

// Replies to each line by sums up to a number, in a ring of the modulus. No line is read before all numbers up to it have inverses.
fn probe_over<R: Ring, S: Source, K: Sink>(
    alloc: Global,
    ring: R,
    terms: u32,
    source: &mut S,
    sink: &mut K,
) -> Status
    requires from { 1 ≤ terms }
    requires most { terms ≤ 10000 }
    ensures run { (contents : Option (List ℕ)) → IsRun (Ok (Probe terms (R.modulus ring))) contents (S.left source.old) (S.left source.new) (K.taken sink.old) (K.taken sink.new) result }
    ensures source { (contents : Option (List ℕ)) (work : Work) → IsWork (Ok (Probe terms (R.modulus ring))) contents work → ¬ (ReadsLines work) → source.new ≡ source.old }
    ensures read_fault_only { result ≡ Status.ReadFault → Rose (S.faults source.old) (S.faults source.new) }
    ensures write_fault_only { result ≡ Status.WriteFault → Rose (K.faults sink.old) (K.faults sink.new) }
{
    match ProbeReplies::new(alloc, ring, terms) {
        Ok(replies) => run_lines(alloc, &replies, source, sink),
        Err(fault) => refuse_sums(sink, fault),
    }
}

// Replies to each line by truncated sums up to a number.
pub(crate) fn run_probe<S: Source, K: Sink>(
    alloc: Global,
    terms: u32,
    modulus: u64,
    source: &mut S,
    sink: &mut K,
) -> Status
    requires from { 1 ≤ terms }
    requires most { terms ≤ 10000 }
    requires modulus_from { 3 ≤ modulus }
    requires modulus_below { modulus < 2 ^ 63 }
    ensures run { (contents : Option (List ℕ)) → IsRun (Ok (Probe terms modulus)) contents (S.left source.old) (S.left source.new) (K.taken sink.old) (K.taken sink.new) result }
    ensures source { (contents : Option (List ℕ)) (work : Work) → IsWork (Ok (Probe terms modulus)) contents work → ¬ (ReadsLines work) → source.new ≡ source.old }
    ensures read_fault_only { result ≡ Status.ReadFault → Rose (S.faults source.old) (S.faults source.new) }
    ensures write_fault_only { result ≡ Status.WriteFault → Rose (K.faults sink.old) (K.faults sink.new) }
{
    match ResidueRing::new(modulus) {
        Ok(ResidueRing::Odd(ring)) => probe_over(alloc, ring, terms, source, sink),
        Ok(ResidueRing::Even(ring)) => probe_over(alloc, ring, terms, source, sink),
        Err(_) => unreachable!(),
    }
}

//! The command `dual`: each line is replied to by duality alone.
ghost use Rattle.std.specs.Prelude.{◌≡◌, ℕ, List, Option, ◌≤◌, ◌<◌, ◌^◌, Ok};
ghost use Rattle.outside_io.specs.Causes.{Rose};
ghost use Rattle.dual_reply.specs.Reply.{reply_of};
ghost use Rattle.whole_runs.specs.declared.command.Command.TheVariants.{Dual};
ghost use Rattle.datamine_program.specs.Inner.{IsRun};

use crate::lines::run_lines;
use line_loop::Replier;
use outside_io::{Sink, Source};
use residues::{Ring, WordMod};
use std::alloc::{AllocError, Global};
use whole_runs::Status;

// Replies by duality, modulo the modulus of the ring.
#[derive(Drop)]
struct Duality {
    alloc: Global,
    ring: WordMod,
}

impl Duality {
    // Replies modulo this number.
    fn modulo(alloc: Global, modulus: u64) -> Duality
        requires from { 3 ≤ modulus }
        requires below { modulus < 2 ^ 63 }
        ensures { ⟦<Duality as Replier>⟧.reply_to result ≡ reply_of modulus }
    {
        let ring = WordMod::new(modulus).unwrap();
        Duality { alloc, ring }
    }
}

impl Replier for Duality {
    ghost reply_to = { λ d. reply_of (⟦<WordMod as Ring>⟧.modulus d.ring) };

    fn reply(&self, line: &[u8], out: &mut Vec<u8>) -> Result<(), AllocError> {
        dual_reply::reply(self.alloc, &self.ring, line, out)
    }
}

// Replies to each line by duality.
pub(crate) fn run_dual<S: Source, K: Sink>(
    alloc: Global,
    modulus: u64,
    source: &mut S,
    sink: &mut K,
) -> Status
    requires from { 3 ≤ modulus }
    requires below { modulus < 2 ^ 63 }
    ensures run { (contents : Option (List ℕ)) → IsRun (Ok (Dual modulus)) contents (S.left source.old) (S.left source.new) (K.taken sink.old) (K.taken sink.new) result }
    ensures read_fault_only { result ≡ Status.ReadFault → Rose (S.faults source.old) (S.faults source.new) }
    ensures write_fault_only { result ≡ Status.WriteFault → Rose (K.faults sink.old) (K.faults sink.new) }
{
    run_lines(alloc, &Duality::modulo(alloc, modulus), source, sink)
}

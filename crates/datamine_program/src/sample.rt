//! The command `sample`: lines that are made from a seed get their replies by a table, and these are counted.
ghost use Rattle.std.specs.Prelude.{◌≡◌, ◌⊎◌, ℕ, List, Option, Ok, IfOk, string_bytes};
ghost use Rattle.outside_io.specs.Causes.{Rose};
ghost use Rattle.page_codec.specs.Bounds.{IsParams};
ghost use Rattle.whole_runs.specs.Outcomes.{Outcome};
ghost use Rattle.whole_runs.specs.declared.command.Command.TheVariants.{Sample};
ghost use Rattle.datamine_program.specs.Inner.{counts_text, IsSampleText};

use crate::no_inverse::refuse_table;
use crate::ready::{Ready, make_ready};
use crate::writing::write_and_end;
use line_loop::Replier;
use line_samples::{Sampled, sample_replies};
use odd_residues::ResidueRing;
use outside_io::Sink;
use page_codec::Params;
use residues::Ring;
use std::alloc::{AllocError, Global};
use table_replies::TableReplies;
use table_texts::push_count;
use whole_runs::Status;
use word_letters::admissible_words;

// The line of what was counted.
fn counts_line(
    alloc: Global,
    rows: u32,
    columns: u32,
    lines: u32,
    sampled: Sampled,
) -> Result<String, AllocError>
    ensures { IfOk result (λ text. string_bytes text ≡ counts_text rows columns lines sampled.zero sampled.distinct sampled.terms) }
{
    let mut line = String::new(alloc);
    push_count(&mut line, "rows ", rows as u64)?;
    push_count(&mut line, ", columns ", columns as u64)?;
    push_count(&mut line, ", lines ", lines as u64)?;
    push_count(&mut line, ", zero ", sampled.zero)?;
    push_count(&mut line, ", distinct ", sampled.distinct)?;
    push_count(&mut line, ", terms ", sampled.terms)?;
    line.push_str("\n")?;
    Ok(line)
}

// The line of a sample of the replies.
fn sample_text<R: Ring>(
    alloc: Global,
    ready: &Ready<R>,
    params: &Params,
    seed: u64,
    count: u32,
) -> Result<String, AllocError>
    requires params { IsParams params.now }
    ensures { IfOk result (λ text. IsSampleText params.now seed count ready.now.rows ready.now.columns (⟦<TableReplies<R> as Replier>⟧.reply_to ready.now.replies) (string_bytes text)) }
{
    let words = admissible_words(alloc, params.weight, params.depth)?;
    let sampled = sample_replies(alloc, &ready.replies, &words, seed, count)?;
    counts_line(alloc, ready.rows, ready.columns, count, sampled)
}

// Counts a sample of the replies, in a ring of the modulus of the parameters.
fn sample_over<R: Ring, K: Sink>(
    alloc: Global,
    ring: R,
    params: &Params,
    seed: u64,
    count: u32,
    sink: &mut K,
) -> Status
    requires params { IsParams params.now }
    requires ring { R.modulus ring ≡ params.now.modulus }
    ensures which { (result ≡ Status.Done) ⊎ (result ≡ Status.NoInverse) ⊎ (result ≡ Status.Memory) ⊎ (result ≡ Status.WriteFault) }
    ensures outcome { (contents left : Option (List ℕ)) → Outcome (Ok (Sample params.now seed count)) contents left (K.taken sink.old) (K.taken sink.new) result }
    ensures write_fault_only { result ≡ Status.WriteFault → Rose (K.faults sink.old) (K.faults sink.new) }
{
    let ready = match make_ready(alloc, ring, params) {
        Ok(ready) => ready,
        Err(fault) => return refuse_table(sink, fault),
    };
    let Ok(text) = sample_text(alloc, &ready, params, seed, count) else {
        return Status::Memory;
    };
    write_and_end(sink, text.as_bytes(), Status::Done)
}

// Counts a sample of the replies by the table of the parameters.
pub(crate) fn run_sample<K: Sink>(
    alloc: Global,
    params: &Params,
    seed: u64,
    count: u32,
    sink: &mut K,
) -> Status
    requires { IsParams params.now }
    ensures which { (result ≡ Status.Done) ⊎ (result ≡ Status.NoInverse) ⊎ (result ≡ Status.Memory) ⊎ (result ≡ Status.WriteFault) }
    ensures outcome { (contents left : Option (List ℕ)) → Outcome (Ok (Sample params.now seed count)) contents left (K.taken sink.old) (K.taken sink.new) result }
    ensures write_fault_only { result ≡ Status.WriteFault → Rose (K.faults sink.old) (K.faults sink.new) }
{
    match ResidueRing::new(params.modulus) {
        Ok(ResidueRing::Odd(ring)) => sample_over(alloc, ring, params, seed, count, sink),
        Ok(ResidueRing::Even(ring)) => sample_over(alloc, ring, params, seed, count, sink),
        Err(_) => unreachable!(),
    }
}

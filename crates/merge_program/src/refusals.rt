//! The lines that refuse words, or a share that has no result. They take no memory, so that its want never comes in their place.
ghost use Rattle.std.specs.Prelude.{◌≡◌, true, OnOk, OnErr, Ok};
ghost use Rattle.outside_io.specs.Causes.{HasCause};
ghost use Rattle.outside_io.specs.Told.{after_told, AppendsFront};
ghost use Rattle.zeta_model.specs.Words.{has_index};
ghost use Rattle.whole_runs.specs.Texts.{word_line, relation_line};
ghost use Rattle.merge_program.specs.ShareRuns.{Ends, refusal_line, refusal_status};

use crate::ending::end_after;
use crate::status::MergeStatus;
use crate::words::MergeWordsFault;
use outside_io::{Failed, Sink, write_all};
use word_letters::Word;
use written_lines::{write_number, write_param, write_two, write_word};

// Writes the line that refuses words.
fn write_refusal<K: Sink>(sink: &mut K, fault: MergeWordsFault) -> Result<(), Failed>
    ensures ok { OnOk result (K.taken sink.new ≡ after_told (K.taken sink.old) (refusal_line fault)) }
    ensures err { OnErr result (AppendsFront (K.taken sink.old) (K.taken sink.new) (refusal_line fault)) }
    ensures cause { HasCause (K.faults sink.old) (K.faults sink.new) result }
{
    match fault {
        MergeWordsFault::Usage => {
            let line = b"usage: share W D M ORDER I S; merge W D M ORDER S FILE ..\n";
            write_all(sink, line)
        }
        MergeWordsFault::Param(fault) => write_param(sink, fault),
        MergeWordsFault::Shares(shares) => write_number(sink, b"bad parameter: shares ", shares),
        MergeWordsFault::Share(index) => write_number(sink, b"bad parameter: share ", index),
    }
}

// How a run of words that are refused ends.
fn refusal_status(fault: MergeWordsFault) -> MergeStatus
    ensures { result ≡ refusal_status fault }
{
    match fault {
        MergeWordsFault::Usage => MergeStatus::Usage,
        MergeWordsFault::Param(_) | MergeWordsFault::Shares(_) | MergeWordsFault::Share(_) =>
            MergeStatus::Params,
    }
}

/// Refuses words: their line alone is written. `WriteFault` only where a write failed, behind a first part of the line.
pub fn refuse_words<K: Sink>(sink: &mut K, fault: MergeWordsFault) -> MergeStatus
    ensures { Ends (refusal_line fault) (refusal_status fault) (K.taken sink.old) (K.taken sink.new) (K.faults sink.old) (K.faults sink.new) result }
{
    let written = write_refusal(sink, fault);
    end_after(written, refusal_status(fault))
}

/// Tells the word at which a table does not convert, and the residue there. `WriteFault` only where a write failed, behind a first part of
/// the line.
pub fn refuse_word<K: Sink>(sink: &mut K, value: u64, word: Word) -> MergeStatus
    requires { has_index word ≡ true }
    ensures { Ends (word_line value word) MergeStatus.NoInverse (K.taken sink.old) (K.taken sink.new) (K.faults sink.old) (K.faults sink.new) result }
{
    let written = write_word(sink, value, word);
    end_after(written, MergeStatus::NoInverse)
}

// Tells the relation at which the work on a share is broken, and the residue there.
pub(crate) fn refuse_relation<K: Sink>(sink: &mut K, value: u64, n: u32) -> MergeStatus
    ensures { Ends (relation_line value n) MergeStatus.NoInverse (K.taken sink.old) (K.taken sink.new) (K.faults sink.old) (K.faults sink.new) result }
{
    let written = write_two(sink, b"no inverse: ", value, b" at relation ", n as u64);
    end_after(written, MergeStatus::NoInverse)
}

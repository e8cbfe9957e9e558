//! The lines that refuse words or parameters. They take no memory, so that its want never comes in their place.
ghost use Rattle.std.specs.Prelude.{◌≡◌, ◌⊎◌, ◌++◌, ◌∷◌, [], ℕ, List, Option, Err, decimal};
ghost use Rattle.outside_io.specs.Causes.{Rose};
ghost use Rattle.whole_runs.specs.Outcomes.{Has, Outcome, FailsTest};
ghost use Rattle.whole_runs.specs.Statuses.{ComesFor};
ghost use Rattle.whole_runs.specs.Texts.{usage_line, param_line};
ghost use Rattle.whole_runs.specs.Works.Work.{Writes};

use crate::writing::write_and_end;
use outside_io::Sink;
use page_codec::ParamFault;
use whole_runs::{Status, WordsFault};
use written_lines::{write_number, write_param};

// Refuses words that fit no command.
fn refuse_words<K: Sink>(sink: &mut K) -> Status
    ensures which { (result ≡ Status.Usage) ⊎ (result ≡ Status.WriteFault) }
    ensures has { (left : Option (List ℕ)) → Has (Writes usage_line Status.Usage) left (K.taken sink.old) (K.taken sink.new) result }
    ensures write_fault_only { result ≡ Status.WriteFault → Rose (K.faults sink.old) (K.faults sink.new) }
{
    write_and_end(
        sink,
        b"usage: dual M; list W D; reduce W D M ORDER [PREF]; build FILE W D M ORDER [PREF]; resume FILE W D M ORDER [PREF]; check FILE; rewrite FILE; show FILE; sample W D M SEED COUNT; migrate FILE; rational FILE; probe N M\n",
        Status::Usage,
    )
}

// Refuses a parameter that fails its test.
fn refuse_param<K: Sink>(sink: &mut K, fault: ParamFault) -> Status
    ensures which { (result ≡ Status.Params) ⊎ (result ≡ Status.WriteFault) }
    ensures has { (left : Option (List ℕ)) → Has (Writes (param_line fault) Status.Params) left (K.taken sink.old) (K.taken sink.new) result }
    ensures write_fault_only { result ≡ Status.WriteFault → Rose (K.faults sink.old) (K.faults sink.new) }
{
    match write_param(sink, fault) {
        Ok(()) => Status::Params,
        Err(_) => Status::WriteFault,
    }
}

// Refuses a number that no parameter of a table is, with a text before it.
fn refuse_number<K: Sink>(sink: &mut K, text: &[u8], number: u64) -> Status
    ensures which { (result ≡ Status.Params) ⊎ (result ≡ Status.WriteFault) }
    ensures has { (left : Option (List ℕ)) → Has (Writes (text.now ++ (decimal number ++ 10 ∷ [])) Status.Params) left (K.taken sink.old) (K.taken sink.new) result }
    ensures write_fault_only { result ≡ Status.WriteFault → Rose (K.faults sink.old) (K.faults sink.new) }
{
    match write_number(sink, text, number) {
        Ok(()) => Status::Params,
        Err(_) => Status::WriteFault,
    }
}

// Refuses words that ask for nothing.
pub(crate) fn refuse<K: Sink>(sink: &mut K, fault: WordsFault) -> Status
    ensures which { (result ≡ Status.Usage) ⊎ (result ≡ Status.Params) ⊎ (result ≡ Status.WriteFault) }
    ensures usage { ComesFor (fault ≡ WordsFault.Usage) Status.Usage result }
    ensures params { ComesFor (FailsTest (Err fault)) Status.Params result }
    ensures outcome { (contents left : Option (List ℕ)) → Outcome (Err fault) contents left (K.taken sink.old) (K.taken sink.new) result }
    ensures write_fault_only { result ≡ Status.WriteFault → Rose (K.faults sink.old) (K.faults sink.new) }
{
    match fault {
        WordsFault::Usage => refuse_words(sink),
        WordsFault::Param(fault) => refuse_param(sink, fault),
        WordsFault::Count(count) => refuse_number(sink, b"bad parameter: count ", count),
        WordsFault::Terms(terms) => refuse_number(sink, b"bad parameter: terms ", terms),
    }
}

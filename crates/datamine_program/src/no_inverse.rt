//! The lines that tell a residue without inverse. They take no memory, so that its want never comes in their place.
ghost use Rattle.std.specs.Prelude.{◌≡◌, ◌⊎◌, true, ℕ, List, Option};
ghost use Rattle.outside_io.specs.Causes.{Rose};
ghost use Rattle.zeta_model.specs.Words.{has_index};
ghost use Rattle.whole_runs.specs.CommandLine.{Asked};
ghost use Rattle.whole_runs.specs.Outcomes.{Has, Outcome};
ghost use Rattle.whole_runs.specs.Texts.{word_line, relation_line, term_line};
ghost use Rattle.whole_runs.specs.Works.Work.{Writes};
ghost use Rattle.datamine_program.specs.Inner.{IsFaultFor, IsSumFaultFor, HasText};

use crate::table::TableFault;
use outside_io::Sink;
use truncated_sums::SumFault;
use whole_runs::Status;
use word_letters::Word;
use written_lines::{write_two, write_word};

// Tells the word at which a table does not convert.
pub(crate) fn refuse_word<K: Sink>(sink: &mut K, value: u64, word: Word) -> Status
    requires { has_index word ≡ true }
    ensures which { (result ≡ Status.NoInverse) ⊎ (result ≡ Status.WriteFault) }
    ensures has { (left : Option (List ℕ)) → Has (Writes (word_line value word) Status.NoInverse) left (K.taken sink.old) (K.taken sink.new) result }
    ensures write_fault_only { result ≡ Status.WriteFault → Rose (K.faults sink.old) (K.faults sink.new) }
{
    match write_word(sink, value, word) {
        Ok(()) => Status::NoInverse,
        Err(_) => Status::WriteFault,
    }
}

// Tells the relation at which the work on a table is broken.
pub(crate) fn refuse_relation<K: Sink>(sink: &mut K, value: u64, n: u32) -> Status
    ensures which { (result ≡ Status.NoInverse) ⊎ (result ≡ Status.WriteFault) }
    ensures has { (left : Option (List ℕ)) → Has (Writes (relation_line value n) Status.NoInverse) left (K.taken sink.old) (K.taken sink.new) result }
    ensures write_fault_only { result ≡ Status.WriteFault → Rose (K.faults sink.old) (K.faults sink.new) }
{
    match write_two(sink, b"no inverse: ", value, b" at relation ", n as u64) {
        Ok(()) => Status::NoInverse,
        Err(_) => Status::WriteFault,
    }
}

// Tells the number that no truncated sum can divide by.
fn refuse_term<K: Sink>(sink: &mut K, value: u64, term: u32) -> Status
    ensures which { (result ≡ Status.NoInverse) ⊎ (result ≡ Status.WriteFault) }
    ensures has { (left : Option (List ℕ)) → Has (Writes (term_line value term) Status.NoInverse) left (K.taken sink.old) (K.taken sink.new) result }
    ensures write_fault_only { result ≡ Status.WriteFault → Rose (K.faults sink.old) (K.faults sink.new) }
{
    match write_two(sink, b"no inverse: ", value, b" at term ", term as u64) {
        Ok(()) => Status::NoInverse,
        Err(_) => Status::WriteFault,
    }
}

// Tells why a table was not made, and writes nothing where memory was wanting.
pub(crate) fn refuse_table<K: Sink>(sink: &mut K, fault: TableFault) -> Status
    requires { HasText fault }
    ensures which { (result ≡ Status.NoInverse) ⊎ (result ≡ Status.Memory) ⊎ (result ≡ Status.WriteFault) }
    ensures outcome { (asked : Asked) (contents left : Option (List ℕ)) → IsFaultFor asked contents fault → Outcome asked contents left (K.taken sink.old) (K.taken sink.new) result }
    ensures write_fault_only { result ≡ Status.WriteFault → Rose (K.faults sink.old) (K.faults sink.new) }
{
    match fault {
        TableFault::NoInverseWord { value, word } => refuse_word(sink, value, word),
        TableFault::NoInverseRelation { value, n } => refuse_relation(sink, value, n),
        TableFault::Memory => Status::Memory,
    }
}

// Tells why truncated sums were not made, and writes nothing where memory was wanting.
pub(crate) fn refuse_sums<K: Sink>(sink: &mut K, fault: SumFault) -> Status
    ensures which { (result ≡ Status.NoInverse) ⊎ (result ≡ Status.Memory) ⊎ (result ≡ Status.WriteFault) }
    ensures outcome { (asked : Asked) (contents left : Option (List ℕ)) → IsSumFaultFor asked contents fault → Outcome asked contents left (K.taken sink.old) (K.taken sink.new) result }
    ensures write_fault_only { result ≡ Status.WriteFault → Rose (K.faults sink.old) (K.faults sink.new) }
{
    match fault {
        SumFault::NoInverse { value, term } => refuse_term(sink, value, term),
        SumFault::Memory(_) => Status::Memory,
    }
}

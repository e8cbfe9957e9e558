//! The line of a word whose coefficient has no inverse. It takes no memory, so that its want never comes in its place.
ghost use Rattle.std.specs.Prelude.{◌≡◌, true, OnOk, OnErr};
ghost use Rattle.outside_io.specs.Causes.{HasCause};
ghost use Rattle.outside_io.specs.Told.{after_told, AppendsFront};
ghost use Rattle.word_letters.specs.Inner.{part_text};
ghost use Rattle.zeta_model.specs.Indices.{index_of};
ghost use Rattle.zeta_model.specs.Words.{has_index};
ghost use Rattle.whole_runs.specs.Texts.{word_line};
ghost use Rattle.written_lines.specs.Inner.{numbers_text, at_word};

use crate::pieces::{write_begun, write_both};
use itoa::Buffer;
use outside_io::{Failed, Sink, write_all};
use word_letters::Word;

// Writes a number of an index, behind a comma where it is not the first.
fn write_part<K: Sink>(sink: &mut K, first: bool, k: u32) -> Result<(), Failed>
    ensures ok { OnOk result (K.taken sink.new ≡ after_told (K.taken sink.old) (part_text first k)) }
    ensures err { OnErr result (AppendsFront (K.taken sink.old) (K.taken sink.new) (part_text first k)) }
    ensures cause { HasCause (K.faults sink.old) (K.faults sink.new) result }
{
    let mut digits = Buffer::new();
    let digits = digits.format(k).as_bytes();
    if first {
        write_all(sink, digits)
    } else {
        write_both(sink, b",", digits)
    }
}

// Writes the numbers of the index of a word, and what ends its line.
fn write_numbers<K: Sink>(sink: &mut K, first: bool, word: Word) -> Result<(), Failed>
    requires { has_index word ≡ true }
    ensures ok { OnOk result (K.taken sink.new ≡ after_told (K.taken sink.old) (numbers_text first (index_of word))) }
    ensures err { OnErr result (AppendsFront (K.taken sink.old) (K.taken sink.new) (numbers_text first (index_of word))) }
    ensures cause { HasCause (K.faults sink.old) (K.faults sink.new) result }
{
    if word.weight() == 0 {
        return write_all(sink, b")\n");
    }
    let k = word.first_number();
    write_part(sink, first, k)?;
    write_numbers(sink, false, word.without_front(k))
}

// Writes the text of a word behind ` at word`, and the byte 10.
fn write_at_word<K: Sink>(sink: &mut K, word: Word) -> Result<(), Failed>
    requires { has_index word ≡ true }
    ensures ok { OnOk result (K.taken sink.new ≡ after_told (K.taken sink.old) (at_word word)) }
    ensures err { OnErr result (AppendsFront (K.taken sink.old) (K.taken sink.new) (at_word word)) }
    ensures cause { HasCause (K.faults sink.old) (K.faults sink.new) result }
{
    write_all(sink, b" at word z(")?;
    write_numbers(sink, true, word)
}

/// Writes the line that tells the word at which a table does not convert, and the residue there.
pub fn write_word<K: Sink>(sink: &mut K, value: u64, word: Word) -> Result<(), Failed>
    requires { has_index word ≡ true }
    ensures ok { OnOk result (K.taken sink.new ≡ after_told (K.taken sink.old) (word_line value word)) }
    ensures err { OnErr result (AppendsFront (K.taken sink.old) (K.taken sink.new) (word_line value word)) }
    ensures cause { HasCause (K.faults sink.old) (K.faults sink.new) result }
{
    write_begun(sink, b"no inverse: ", value)?;
    write_at_word(sink, word)
}

//! Texts and numbers that are written piece by piece. They take no memory, so that its want never comes in their place.
ghost use Rattle.std.specs.Prelude.{◌≡◌, ◌++◌, ◌∷◌, [], OnOk, OnErr, decimal};
ghost use Rattle.outside_io.specs.Causes.{HasCause};
ghost use Rattle.outside_io.specs.Told.{after_told, AppendsFront};

use itoa::Buffer;
use outside_io::{Failed, Sink, write_all};

/// Writes two pieces, the second behind the first. `Failed` only where the sink failed; then a first part of them is written.
pub fn write_both<K: Sink>(sink: &mut K, first: &[u8], second: &[u8]) -> Result<(), Failed>
    ensures ok { OnOk result (K.taken sink.new ≡ after_told (K.taken sink.old) (first.now ++ second.now)) }
    ensures err { OnErr result (AppendsFront (K.taken sink.old) (K.taken sink.new) (first.now ++ second.now)) }
    ensures cause { HasCause (K.faults sink.old) (K.faults sink.new) result }
{
    write_all(sink, first)?;
    write_all(sink, second)
}

/// Writes a text and a number.
pub fn write_begun<K: Sink>(sink: &mut K, text: &[u8], number: u64) -> Result<(), Failed>
    ensures ok { OnOk result (K.taken sink.new ≡ after_told (K.taken sink.old) (text.now ++ decimal number)) }
    ensures err { OnErr result (AppendsFront (K.taken sink.old) (K.taken sink.new) (text.now ++ decimal number)) }
    ensures cause { HasCause (K.faults sink.old) (K.faults sink.new) result }
{
    let mut digits = Buffer::new();
    write_both(sink, text, digits.format(number).as_bytes())
}

/// Writes a text, a number and the byte 10.
pub fn write_number<K: Sink>(sink: &mut K, text: &[u8], number: u64) -> Result<(), Failed>
    ensures ok { OnOk result (K.taken sink.new ≡ after_told (K.taken sink.old) (text.now ++ (decimal number ++ 10 ∷ []))) }
    ensures err { OnErr result (AppendsFront (K.taken sink.old) (K.taken sink.new) (text.now ++ (decimal number ++ 10 ∷ []))) }
    ensures cause { HasCause (K.faults sink.old) (K.faults sink.new) result }
{
    let mut digits = Buffer::new();
    write_all(sink, text)?;
    write_both(sink, digits.format(number).as_bytes(), b"\n")
}

/// Writes a text and a number, and behind them a second text, a number and the byte 10.
pub fn write_two<K: Sink>(
    sink: &mut K,
    first: &[u8],
    a: u64,
    second: &[u8],
    b: u64,
) -> Result<(), Failed>
    ensures ok { OnOk result (K.taken sink.new ≡ after_told (K.taken sink.old) (first.now ++ (decimal a ++ (second.now ++ (decimal b ++ 10 ∷ []))))) }
    ensures err { OnErr result (AppendsFront (K.taken sink.old) (K.taken sink.new) (first.now ++ (decimal a ++ (second.now ++ (decimal b ++ 10 ∷ []))))) }
    ensures cause { HasCause (K.faults sink.old) (K.faults sink.new) result }
{
    write_begun(sink, first, a)?;
    write_number(sink, second, b)
}

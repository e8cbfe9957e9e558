//! The loop: read a piece, answer the lines that are whole in it, and read on.
ghost use Rattle.std.specs.Prelude.{◌≡◌, ◌<◌, ◌≤◌, [], ◌⊎◌, length, OnOk, OnErr, IfOk, IfErr};
ghost use Rattle.outside_io.specs.Causes.{Rose};
ghost use Rattle.outside_io.specs.Told.{after_told, AppendsFront};
ghost use Rattle.line_loop.specs.Lines.{answers, cut_from, too_much_text, last_line, input_limit};
ghost use Rattle.line_loop.specs.Talk.{Talks, SaysOf};

use crate::Replier;
use crate::answering::{answer, answer_piece};
use outside_io::{Sink, Source, write_all};
use std::alloc::{AllocError, Global};

/// How many bytes are input at most.
pub const LIMIT: usize = 67_108_864;

// How many bytes are asked for at once, at most.
const PIECE: usize = 65_536;

/// How a conversation ended.
#[derive(Clone, Copy, Debug, PartialEq, Eq)]
pub enum Ended {
    /// The source was read to its end, and each line has its reply.
    Done,
    /// Memory was wanting.
    Memory,
    /// A call of the source failed.
    ReadFault,
    /// A call of the sink failed.
    WriteFault,
    /// The source gives more than `LIMIT` bytes.
    TooMuchInput,
}

// Writes the replies, and empties their buffer where that was done.
fn flush<K: Sink>(replies: &mut Vec<u8>, sink: &mut K) -> Result<(), Ended>
    ensures ok { OnOk result (K.taken sink.new ≡ after_told (K.taken sink.old) replies.old.items) }
    ensures emptied { OnOk result (replies.new.items ≡ []) }
    ensures err { OnErr result (AppendsFront (K.taken sink.old) (K.taken sink.new) replies.old.items) }
    ensures later { K.faults sink.old ≤ K.faults sink.new }
    ensures which { IfErr result (λ e. (e ≡ Ended.WriteFault) × Rose (K.faults sink.old) (K.faults sink.new)) }
{
    match write_all(sink, replies) {
        Ok(()) => {
            replies.clear();
            Ok(())
        }
        Err(_) => Err(Ended::WriteFault),
    }
}

// The input is over: what stands behind the last byte 10 is a line where there is any.
fn end<R: Replier, K: Sink>(replier: &R, line: &[u8], replies: &mut Vec<u8>, sink: &mut K) -> Ended
    requires { replies.old.items ≡ [] }
    ensures done { result ≡ Ended.Done → K.taken sink.new ≡ after_told (K.taken sink.old) (answers (R.reply_to replier.now) (last_line line.now)) }
    ensures front { AppendsFront (K.taken sink.old) (K.taken sink.new) (answers (R.reply_to replier.now) (last_line line.now)) }
    ensures write { result ≡ Ended.WriteFault → Rose (K.faults sink.old) (K.faults sink.new) }
    ensures later { K.faults sink.old ≤ K.faults sink.new }
    ensures which { (result ≡ Ended.Done) ⊎ (result ≡ Ended.Memory) ⊎ (result ≡ Ended.WriteFault) }
{
    if line.is_empty() {
        return Ended::Done;
    }
    if answer(replier, line, replies).is_err() {
        return Ended::Memory;
    }
    match flush(replies, sink) {
        Ok(()) => Ended::Done,
        Err(ended) => ended,
    }
}

// There is more input than may be.
fn too_much<K: Sink>(sink: &mut K) -> Ended
    ensures done { result ≡ Ended.TooMuchInput → K.taken sink.new ≡ after_told (K.taken sink.old) too_much_text }
    ensures front { AppendsFront (K.taken sink.old) (K.taken sink.new) too_much_text }
    ensures write { result ≡ Ended.WriteFault → Rose (K.faults sink.old) (K.faults sink.new) }
    ensures later { K.faults sink.old ≤ K.faults sink.new }
    ensures which { (result ≡ Ended.TooMuchInput) ⊎ (result ≡ Ended.WriteFault) }
{
    match write_all(sink, b"too much input\n") {
        Ok(()) => Ended::TooMuchInput,
        Err(_) => Ended::WriteFault,
    }
}

// Answers the lines that end in a piece, and writes the replies in one go.
fn feed<R: Replier, K: Sink>(
    replier: &R,
    line: &mut Vec<u8>,
    piece: &[u8],
    replies: &mut Vec<u8>,
    sink: &mut K,
) -> Result<(), Ended>
    requires { replies.old.items ≡ [] }
    ensures said { OnOk result (K.taken sink.new ≡ after_told (K.taken sink.old) (answers (R.reply_to replier.now) (cut_from line.old.items piece.now).0)) }
    ensures line { OnOk result (line.new.items ≡ (cut_from line.old.items piece.now).1) }
    ensures emptied { OnOk result (replies.new.items ≡ []) }
    ensures err { OnErr result (AppendsFront (K.taken sink.old) (K.taken sink.new) (answers (R.reply_to replier.now) (cut_from line.old.items piece.now).0)) }
    ensures later { K.faults sink.old ≤ K.faults sink.new }
    ensures which { IfErr result (λ e. (e ≡ Ended.Memory) ⊎ ((e ≡ Ended.WriteFault) × Rose (K.faults sink.old) (K.faults sink.new))) }
{
    match answer_piece(replier, line, piece, replies) {
        Ok(()) => flush(replies, sink),
        Err(_) => Err(Ended::Memory),
    }
}

// Reads lines to the end of the source in pieces that fit a buffer, and gives each its reply.
fn converse_in<R: Replier, S: Source, K: Sink>(
    alloc: Global,
    replier: &R,
    buffer: &mut [u8],
    source: &mut S,
    sink: &mut K,
) -> Ended
    requires { 0 < length buffer.old }
    ensures talks { Talks input_limit (R.reply_to replier.now) (S.left source.old) (S.left source.new) (K.taken sink.old) (K.taken sink.new) result }
    ensures read { result ≡ Ended.ReadFault → Rose (S.faults source.old) (S.faults source.new) }
    ensures write { result ≡ Ended.WriteFault → Rose (K.faults sink.old) (K.faults sink.new) }
{
    let mut line = Vec::new(alloc);
    let mut replies = Vec::new(alloc);
    let mut room = LIMIT;
    loop {
        // Where there is no room, one more byte is asked for.
        let size = room.max(1).min(buffer.len());
        let piece = &mut buffer[..size];
        let Ok(count) = source.read(piece) else {
            return Ended::ReadFault;
        };
        if count == 0 {
            return end(replier, &line, &mut replies, sink);
        }
        if room == 0 {
            return too_much(sink);
        }
        room -= count;
        if let Err(ended) = feed(replier, &mut line, &piece[..count], &mut replies, sink) {
            return ended;
        }
    }
}

// A buffer for the pieces, on the heap: a function pays at its entry for the size of its locals.
fn piece_buffer(alloc: Global) -> Result<Vec<u8>, AllocError>
    ensures { IfOk result (λ buffer. 0 < length buffer.items) }
{
    vec![in alloc; 0; PIECE]
}

/// Reads lines to the end of the source, and gives each its reply and the byte 10.
///
/// A line ends at the byte 10; bytes behind the last one are one more line, where there are any. Where a read fails,
/// the replies to all lines that are whole in the bytes read until then are written. At most `LIMIT` bytes are input:
/// where these were taken and one byte more comes, `too much input` is written after the replies to the lines that
/// are whole within the limit. However it ends, no byte past that one is taken from the source. What is said is all
/// that `whole_output` says, or where `Ended` is `Memory`, `ReadFault` or `WriteFault`, a first part of it.
pub fn answer_lines<R: Replier, S: Source, K: Sink>(
    alloc: Global,
    replier: &R,
    source: &mut S,
    sink: &mut K,
) -> Ended
    ensures says { SaysOf input_limit (R.reply_to replier.now) (S.left source.old) (K.taken sink.old) (K.taken sink.new) result }
    ensures talks { Talks input_limit (R.reply_to replier.now) (S.left source.old) (S.left source.new) (K.taken sink.old) (K.taken sink.new) result }
    ensures read_fault_only { result ≡ Ended.ReadFault → Rose (S.faults source.old) (S.faults source.new) }
    ensures write_fault_only { result ≡ Ended.WriteFault → Rose (K.faults sink.old) (K.faults sink.new) }
{
    match piece_buffer(alloc) {
        Ok(mut buffer) => converse_in(alloc, replier, &mut buffer, source, sink),
        Err(_) => Ended::Memory,
    }
}

//! The replies to the lines of a piece of the input, put into a buffer.
ghost use Rattle.std.specs.Prelude.{◌≡◌, ◌++◌, [], OnOk};
ghost use Rattle.line_loop.specs.Lines.{answer_to, answers, cut_from};

use crate::Replier;
use memchr::memchr;
use std::alloc::AllocError;

// The reply to a line and the byte 10 go behind what is in the buffer.
pub(crate) fn answer<R: Replier>(
    replier: &R,
    line: &[u8],
    replies: &mut Vec<u8>,
) -> Result<(), AllocError>
    ensures ok { OnOk result (replies.new.items ≡ replies.old.items ++ answer_to (R.reply_to replier.now) line.now) }
{
    replier.reply(line, replies)?;
    match replies.push(10) {
        Ok(()) => Ok(()),
        Err(_) => Err(AllocError),
    }
}

// The line that is begun ends with `front`, and is answered. The next one begins with nothing.
fn finish_line<R: Replier>(
    replier: &R,
    line: &mut Vec<u8>,
    front: &[u8],
    replies: &mut Vec<u8>,
) -> Result<(), AllocError>
    ensures replies { OnOk result (replies.new.items ≡ replies.old.items ++ answer_to (R.reply_to replier.now) (line.old.items ++ front.now)) }
    ensures line { OnOk result (line.new.items ≡ []) }
{
    // A line that lies whole in the piece is not copied.
    if line.is_empty() {
        return answer(replier, front, replies);
    }
    line.extend_from_slice(front)?;
    answer(replier, line, replies)?;
    line.clear();
    Ok(())
}

// Answers the lines that end in a piece, behind the line that is begun. Its buffers grow with the longest
// line and the longest reply, and not with the number of lines.
pub(crate) fn answer_piece<R: Replier>(
    replier: &R,
    line: &mut Vec<u8>,
    piece: &[u8],
    replies: &mut Vec<u8>,
) -> Result<(), AllocError>
    ensures replies { OnOk result (replies.new.items ≡ replies.old.items ++ answers (R.reply_to replier.now) (cut_from line.old.items piece.now).0) }
    ensures line { OnOk result (line.new.items ≡ (cut_from line.old.items piece.now).1) }
{
    let mut at = 0;
    while let Some(length) = memchr(10, &piece[at..]) {
        finish_line(replier, line, &piece[at..at + length], replies)?;
        at += length + 1;
    }
    line.extend_from_slice(&piece[at..])
}

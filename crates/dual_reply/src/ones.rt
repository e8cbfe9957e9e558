//! The first index that begins with 1.
ghost use Rattle.std.specs.Prelude.{◌≡◌, ◌==◌, ◌&&◌, ◌||◌, not, false};
ghost use Rattle.line_tokens.specs.Tokens.{is_blank};
ghost use Rattle.dual_reply.specs.Refusals.{begins_with_digit};
ghost use Rattle.dual_reply.specs.Inner.{first_one};

use line_tokens::{is_blank, is_digit};

fn begins_with_digit(bytes: &[u8]) -> bool
    ensures { result ≡ begins_with_digit bytes.now }
{
    match bytes {
        [] => false,
        [first, ..] => is_digit(*first),
    }
}

/// Whether a byte that stands where a number may begin an index is the number 1 there.
fn is_one_here(opened: bool, byte: u8, behind: &[u8]) -> bool
    ensures { result ≡ (byte == 49 && not (begins_with_digit behind.now) && opened) }
{
    byte == b'1' && !begins_with_digit(behind) && opened
}

/// Whether a number that stands behind this byte begins an index.
fn opens(opened: bool, byte: u8) -> bool
    ensures { result ≡ (byte == 40 || (is_blank byte && opened)) }
{
    byte == b'(' || is_blank(byte) && opened
}

/// The byte of the first number 1 that stands behind a bracket that opens and any blanks.
pub fn first_one(line: &[u8]) -> Option<usize>
    ensures { result ≡ first_one false line.now }
{
    let mut opened = false;
    for (at, byte) in line.iter().enumerate() {
        if is_one_here(opened, *byte, &line[at + 1..]) {
            return Some(at);
        }
        opened = opens(opened, *byte);
    }
    None
}

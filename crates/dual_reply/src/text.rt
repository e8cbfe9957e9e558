//! The texts of sums and of refusals.
ghost use Rattle.std.specs.Prelude.{◌≡◌, ℕ, ◌+◌, ◌++◌, List, length, map, take, OnOk};
ghost use Rattle.std.specs.List.{join_with_byte};
ghost use Rattle.std.specs.Fmt.{decimal};
ghost use Rattle.zeta_model.specs.Indices.{index_of, word_text};
ghost use Rattle.dual_reply.specs.Reply.{behind_byte, entry_text, sum_text, refusal_text};

use crate::refusal::Refusal;
use itoa::Buffer;
use std::alloc::AllocError;
use word_letters::{Letter, Word};

/// Adds a number in decimal.
fn push_number(out: &mut Vec<u8>, number: u64) -> Result<(), AllocError>
    ensures ok { OnOk result (out.new.items ≡ out.old.items ++ decimal number) }
    ensures kept { take (length out.old.items) out.new.items ≡ out.old.items }
{
    if number < 10 {
        out.push(b'0' + number as u8)?;
        return Ok(());
    }
    let mut buffer = Buffer::new();
    out.extend_from_slice(buffer.format(number).as_bytes())
}

/// Adds a number of an index, behind a comma where it is not the first.
fn push_part(out: &mut Vec<u8>, first: bool, number: u32) -> Result<(), AllocError>
    ensures ok { OnOk result (out.new.items ≡ out.old.items ++ behind_byte 44 first (decimal number)) }
    ensures kept { take (length out.old.items) out.new.items ≡ out.old.items }
{
    if !first {
        out.push(b',')?;
    }
    push_number(out, u64::from(number))
}

/// Adds the numbers of the index of a word, with commas between them.
fn push_index(out: &mut Vec<u8>, word: &Word) -> Result<(), AllocError>
    ensures ok { OnOk result (out.new.items ≡ out.old.items ++ join_with_byte 44 (map decimal (index_of word.now))) }
    ensures kept { take (length out.old.items) out.new.items ≡ out.old.items }
{
    let mut first = true;
    let mut run = 1;
    for i in 0..word.weight() {
        match word.letter(i) {
            Letter::X => run += 1,
            Letter::Y => {
                push_part(out, first, run)?;
                first = false;
                run = 1;
            }
        }
    }
    Ok(())
}

/// Adds a word with its residue, as `100*z(3,1)`, behind a `+` where it is not the first.
fn push_entry(out: &mut Vec<u8>, first: bool, entry: &(Word, u64)) -> Result<(), AllocError>
    ensures ok { OnOk result (out.new.items ≡ out.old.items ++ behind_byte 43 first (entry_text entry.now)) }
    ensures kept { take (length out.old.items) out.new.items ≡ out.old.items }
{
    if !first {
        out.push(b'+')?;
    }
    push_number(out, entry.1)?;
    out.extend_from_slice(b"*z(")?;
    push_index(out, &entry.0)?;
    out.push(b')')?;
    Ok(())
}

/// Adds the text of a sum: its entries joined by `+`, and `0` where there is none.
pub fn push_text(out: &mut Vec<u8>, entries: &[(Word, u64)]) -> Result<(), AllocError>
    ensures ok { OnOk result (out.new.items ≡ out.old.items ++ sum_text entries.now) }
    ensures kept { take (length out.old.items) out.new.items ≡ out.old.items }
{
    if entries.is_empty() {
        out.push(b'0')?;
        return Ok(());
    }
    let mut first = true;
    for entry in entries {
        push_entry(out, first, entry)?;
        first = false;
    }
    Ok(())
}

/// Adds a text and a number in decimal.
fn push_told(out: &mut Vec<u8>, text: &[u8], number: u128) -> Result<(), AllocError>
    ensures ok { OnOk result (out.new.items ≡ out.old.items ++ (text.now ++ decimal number)) }
    ensures kept { take (length out.old.items) out.new.items ≡ out.old.items }
{
    let mut buffer = Buffer::new();
    out.extend_from_slice(text)?;
    out.extend_from_slice(buffer.format(number).as_bytes())
}

/// Adds the text of a refusal.
pub fn push_refusal(out: &mut Vec<u8>, refusal: Refusal) -> Result<(), AllocError>
    ensures ok { OnOk result (out.new.items ≡ out.old.items ++ refusal_text refusal) }
    ensures kept { take (length out.old.items) out.new.items ≡ out.old.items }
{
    match refusal {
        Refusal::LineTooLong => out.extend_from_slice(b"line too long"),
        Refusal::Syntax(at) => push_told(out, b"syntax ", at as u128),
        Refusal::NotAdmissible(at) => push_told(out, b"not admissible ", at as u128),
        Refusal::WeightIs(weight) => push_told(out, b"weight ", weight),
    }
}

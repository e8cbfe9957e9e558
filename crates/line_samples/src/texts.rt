//! The texts of numbers and words at the end of a line.
ghost use Rattle.std.specs.Prelude.{◌≡◌, ◌++◌, OnOk, string_bytes};
ghost use Rattle.std.specs.Fmt.{decimal};
ghost use Rattle.zeta_model.specs.Indices.{word_text};
ghost use Rattle.word_letters.specs.Inner.{part_text};

use itoa::Buffer;
use std::alloc::AllocError;
use word_letters::{Letter, Word};

/// Adds a number in decimal.
pub(crate) fn push_number(line: &mut String, number: u64) -> Result<(), AllocError>
    ensures { OnOk result (string_bytes line.new ≡ string_bytes line.old ++ decimal number) }
{
    let mut buffer = Buffer::new();
    line.push_str(buffer.format(number))
}

/// Adds a number of an index, behind a comma where it is not the first.
fn push_part(line: &mut String, first: bool, k: u64) -> Result<(), AllocError>
    ensures { OnOk result (string_bytes line.new ≡ string_bytes line.old ++ part_text first k) }
{
    if !first {
        line.push_str(",")?;
    }
    push_number(line, k)
}

/// Adds the index text of a word. Letters x behind its last y do not show.
pub(crate) fn push_word(line: &mut String, word: Word) -> Result<(), AllocError>
    ensures { OnOk result (string_bytes line.new ≡ string_bytes line.old ++ word_text word) }
{
    line.push_str("z(")?;
    let mut first = true;
    let mut k = 1;
    for i in 0..word.weight() {
        match word.letter(i) {
            Letter::X => k += 1,
            Letter::Y => {
                push_part(line, first, k)?;
                first = false;
                k = 1;
            }
        }
    }
    line.push_str(")")?;
    Ok(())
}

//! The next line.
ghost use Rattle.std.specs.Prelude.{◌≡◌, ◌+◌, ◌*◌, ◌<◌, ◌++◌, length, OnOk, string_bytes};
ghost use Rattle.line_samples.specs.Samples.{term_text, line_from, state_after, terms_drawn};

use crate::draws::Draws;
use crate::texts::{push_number, push_word};
use std::alloc::AllocError;
use word_letters::Word;

/// Draws a term and adds its text.
fn push_term(words: &[Word], draws: &mut Draws, line: &mut String) -> Result<(), AllocError>
    requires { 0 < length words.now }
    ensures text { OnOk result (string_bytes line.new ≡ string_bytes line.old ++ term_text words.now draws.old.state) }
    ensures state { OnOk result (draws.new.state ≡ state_after 2 draws.old.state) }
{
    let coefficient = 1 + draws.draw(9);
    push_number(line, coefficient as u64)?;
    line.push_str("*")?;
    push_word(line, words[draws.draw(words.len())])
}

/// Draws a line and adds it.
pub(crate) fn push_line(
    words: &[Word],
    draws: &mut Draws,
    line: &mut String,
) -> Result<(), AllocError>
    requires { 0 < length words.now }
    ensures text { OnOk result (string_bytes line.new ≡ string_bytes line.old ++ line_from words.now draws.old.state) }
    ensures state { OnOk result (draws.new.state ≡ state_after (1 + 2 * terms_drawn draws.old.state) draws.old.state) }
{
    let more = draws.draw(4);
    push_term(words, draws, line)?;
    for i in 0..more {
        line.push_str("+")?;
        push_term(words, draws, line)?;
    }
    Ok(())
}

//! The text of a monomial.
ghost use Rattle.std.specs.Prelude.{◌≡◌, ◌++◌, true, OnOk, string_bytes};
ghost use Rattle.zeta_model.specs.Words.{ends_with_y};
ghost use Rattle.poly_print.specs.Polynomials.{monomial_text, power_text};
ghost use Rattle.poly_print.specs.Inner.{behind_byte};

use crate::number::push_number;
use lyndon_words::Monomial;
use std::alloc::AllocError;
use word_letters::Word;

/// Adds a factor with its power, behind a `*` where it is not the first.
fn push_power(text: &mut String, first: bool, word: Word, power: u64) -> Result<(), AllocError>
    requires { ends_with_y word ≡ true }
    ensures { OnOk result (string_bytes text.new ≡ string_bytes text.old ++ behind_byte 42 first (power_text (word, power))) }
{
    if !first {
        text.push_str("*")?;
    }
    word.push_text(text)?;
    if power == 1 {
        return Ok(());
    }
    text.push_str("^")?;
    push_number(text, power)
}

/// Adds the text of a monomial: its factors joined by `*`, each once, with `^` and its power where that is more than 1. After want of
/// memory only part of it may be there.
pub fn push_monomial(text: &mut String, p: &Monomial) -> Result<(), AllocError>
    ensures { OnOk result (string_bytes text.new ≡ string_bytes text.old ++ monomial_text p.now) }
{
    let count = p.len();
    if count == 0 {
        return Ok(());
    }
    let mut first = true;
    let mut word = p.factor(0);
    let mut power: u64 = 1;
    for i in 1..count {
        let next = p.factor(i);
        if word == next {
            power += 1;
        } else {
            push_power(text, first, word, power)?;
            first = false;
            word = next;
            power = 1;
        }
    }
    push_power(text, first, word, power)
}

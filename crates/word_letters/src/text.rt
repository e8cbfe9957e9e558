//! The text of a word.
ghost use Rattle.std.specs.Prelude.{◌≡◌, ◌++◌, true, length, take, IfOk, OnOk, string_bytes};
ghost use Rattle.zeta_model.specs.Words.{ends_with_y, has_index};
ghost use Rattle.zeta_model.specs.Indices.{word_text};
ghost use Rattle.word_letters.specs.Inner.{part_text};

use crate::word::Word;
use itoa::Buffer;
use std::alloc::{AllocError, Global};
use std::fmt::{self, Debug, Display, Formatter};
use zeta_model::Letter;

impl Word {
    /// The index text `z(k1,..,kr)` of a word that ends with y.
    pub fn text(self, alloc: Global) -> Result<String, AllocError>
        requires { ends_with_y self ≡ true }
        ensures { IfOk result (λ s. string_bytes s ≡ word_text self) }
    {
        let mut text = String::new(alloc);
        self.push_text(&mut text)?;
        Ok(text)
    }

    /// Puts the index text `z(k1,..,kr)` of a word that ends with y at the end of a text. After want of memory a part of it may be
    /// there; what stood there before still does.
    pub fn push_text(self, text: &mut String) -> Result<(), AllocError>
        requires { ends_with_y self ≡ true }
        ensures ok { OnOk result (string_bytes text.new ≡ string_bytes text.old ++ word_text self) }
        ensures kept { take (length (string_bytes text.old)) (string_bytes text.new) ≡ string_bytes text.old }
    {
        text.push_str("z(")?;
        let mut first = true;
        let mut rest = self;
        while rest.weight() > 0 {
            let k = rest.first_number();
            push_part(text, first, k)?;
            first = false;
            rest = rest.without_front(k);
        }
        text.push_str(")")?;
        Ok(())
    }
}

/// Adds a number of an index to a text, behind a comma where it is not the first.
fn push_part(text: &mut String, first: bool, k: u32) -> Result<(), AllocError>
    ensures ok { OnOk result (string_bytes text.new ≡ string_bytes text.old ++ part_text first k) }
    ensures kept { take (length (string_bytes text.old)) (string_bytes text.new) ≡ string_bytes text.old }
{
    if !first {
        text.push_str(",")?;
    }
    let mut buffer = Buffer::new();
    text.push_str(buffer.format(k))
}

/// The index text of a word that has an index, and the letters of any other.
impl Display for Word {
    fn fmt<W: fmt::Write>(&self, f: &mut Formatter<W>) -> fmt::Result {
        if self.has_index() {
            write_index(f, *self)
        } else {
            write_letters(f, *self)
        }
    }
}

/// What `Display` writes.
impl Debug for Word {
    fn fmt<W: fmt::Write>(&self, f: &mut Formatter<W>) -> fmt::Result {
        Display::fmt(self, f)
    }
}

/// Writes the index text of a word that has an index.
fn write_index<W: fmt::Write>(f: &mut Formatter<W>, word: Word) -> fmt::Result
    requires { has_index word ≡ true }
{
    f.write_str("z(")?;
    let mut first = true;
    let mut rest = word;
    while rest.weight() > 0 {
        let k = rest.first_number();
        if !first {
            f.write_str(",")?;
        }
        write!(f, "{k}")?;
        first = false;
        rest = rest.without_front(k);
    }
    f.write_str(")")
}

/// Writes the letters of a word.
fn write_letters<W: fmt::Write>(f: &mut Formatter<W>, word: Word) -> fmt::Result {
    for i in 0..word.weight() {
        match word.letter(i) {
            Letter::X => f.write_str("x")?,
            Letter::Y => f.write_str("y")?,
        }
    }
    Ok(())
}

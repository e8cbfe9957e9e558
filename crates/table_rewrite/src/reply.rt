//! Replies and their texts.
ghost use Rattle.std.specs.Prelude.{◌≡◌, ◌++◌, OnOk, IfOk, string_bytes};
ghost use Rattle.std.specs.Fmt.{decimal};
ghost use Rattle.table_rewrite.specs.Replies.{fault_text, text_of_reply};

use itoa::Buffer;
use std::alloc::{AllocError, Global};
use std::marker::Model;
use zeta_expr::LineFault;

/// The text of a polynomial.
#[derive(Drop)]
pub struct PolyText {
    text: String,
}

impl Model for PolyText {
    ghost use Rattle.std.specs.Prelude.{ℕ, List, string_bytes};

    ghost Value = { List ℕ };

    ghost view = { λ t. string_bytes t.text };
}

impl PolyText {
    /// A text as that of a polynomial.
    pub(crate) fn new(text: String) -> PolyText
        ensures { result ≡ string_bytes text }
    {
        PolyText { text }
    }

    /// The bytes of the text.
    pub fn bytes(&self) -> &[u8]
        ensures { result.now ≡ self.now }
    {
        self.text.as_bytes()
    }

    /// Adds the text.
    fn push_to(&self, text: &mut String) -> Result<(), AllocError>
        ensures { OnOk result (string_bytes text.new ≡ string_bytes text.old ++ self.now) }
    {
        text.push_str(self.text.as_str())
    }
}

/// The reply to a line.
#[derive(Drop)]
pub enum Reply {
    /// The polynomial of what the line means.
    Poly(PolyText),
    /// The first reason why it means nothing, never want of memory.
    Refused(LineFault),
}

/// Adds a cause and its number.
fn push_told(text: &mut String, cause: &str, number: u128) -> Result<(), AllocError>
    ensures { OnOk result (string_bytes text.new ≡ string_bytes text.old ++ (cause.now ++ decimal number)) }
{
    text.push_str(cause)?;
    let mut buffer = Buffer::new();
    text.push_str(buffer.format(number))
}

/// Adds the text of a refusal.
fn push_fault(text: &mut String, fault: &LineFault) -> Result<(), AllocError>
    ensures { OnOk result (string_bytes text.new ≡ string_bytes text.old ++ fault_text fault.now) }
{
    match fault {
        LineFault::LineTooLong => text.push_str("line too long"),
        LineFault::Syntax(at) => push_told(text, "syntax ", *at as u128),
        LineFault::NoInverse(number) => push_told(text, "no inverse ", *number),
        LineFault::WeightIs(weight) => push_told(text, "weight ", u128::from(*weight)),
        LineFault::DepthIs(depth) => push_told(text, "depth ", u128::from(*depth)),
        LineFault::Memory(_) => text.push_str("out of memory"),
    }
}

/// The text of a reply: that of the polynomial, or of the refusal with the byte, the number below `/`, the weight or the depth that it
/// tells. No refusal's text begins with a digit.
pub fn reply_text(alloc: Global, reply: &Reply) -> Result<String, AllocError>
    ensures { IfOk result (λ text. string_bytes text ≡ text_of_reply reply.now) }
{
    let mut text = String::new(alloc);
    match reply {
        Reply::Poly(poly) => poly.push_to(&mut text)?,
        Reply::Refused(fault) => push_fault(&mut text, fault)?,
    }
    Ok(text)
}

//! How a name is printed.
ghost use Rattle.std.specs.Prelude.{◌≡◌, ◌++◌, IsTrue, IfOk, OnOk, true, length, take, string_bytes};
ghost use Rattle.relation_list.specs.Names.{is_direct, is_name_of};
ghost use Rattle.relation_list.specs.Texts.{direct_text_of, text_of};

use crate::names::{Direct, RelName};
use itoa::Buffer;
use std::alloc::{AllocError, Global};

/// The text of a name, as `Fin z(2) z(3)`, `Reg 1 z(2,1)`, `Dual z(3)` or `Prod [Dual z(3)] z(2)`.
pub fn text(alloc: Global, name: &RelName) -> Result<String, AllocError>
    requires { IsTrue (is_name_of name.now) }
    ensures { IfOk result (λ text. string_bytes text ≡ text_of name.now) }
{
    let mut text = String::new(alloc);
    push_text(&mut text, name)?;
    Ok(text)
}

/// Puts the text of a name at the end of a text. After want of memory a part of it may be there; what stood there before still
/// does.
pub fn push_text(text: &mut String, name: &RelName) -> Result<(), AllocError>
    requires { IsTrue (is_name_of name.now) }
    ensures ok { OnOk result (string_bytes text.new ≡ string_bytes text.old ++ text_of name.now) }
    ensures kept { take (length (string_bytes text.old)) (string_bytes text.new) ≡ string_bytes text.old }
{
    match name {
        RelName::Plain(r) => push_direct(text, r),
        RelName::Prod { r, u } => {
            text.push_str("Prod [")?;
            push_direct(text, r)?;
            text.push_str("] ")?;
            u.push_text(text)
        }
    }
}

/// Puts the text of a direct name at the end of a text.
fn push_direct(text: &mut String, r: &Direct) -> Result<(), AllocError>
    requires { is_direct r.now ≡ true }
    ensures ok { OnOk result (string_bytes text.new ≡ string_bytes text.old ++ direct_text_of r.now) }
    ensures kept { take (length (string_bytes text.old)) (string_bytes text.new) ≡ string_bytes text.old }
{
    match r {
        Direct::Fin { u, v } => {
            text.push_str("Fin ")?;
            u.push_text(text)?;
            text.push_str(" ")?;
            v.push_text(text)
        }
        Direct::Reg { m, v } => {
            let mut buffer = Buffer::new();
            text.push_str("Reg ")?;
            text.push_str(buffer.format(*m))?;
            text.push_str(" ")?;
            v.push_text(text)
        }
        Direct::Dual { u } => {
            text.push_str("Dual ")?;
            u.push_text(text)
        }
    }
}

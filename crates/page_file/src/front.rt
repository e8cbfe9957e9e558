//! What stands in front of some bytes: a gate, and a page behind it.
ghost use Rattle.std.specs.Prelude.{IfOk};
ghost use Rattle.page_file.specs.Inner.{IsFrontOf};

use page_codec::{Page, decode};
use std::alloc::{AllocError, Global};

/// What stands in front of some bytes. `size` is in bytes, with the gate.
#[derive(Drop)]
pub(crate) enum Front {
    /// A gate that is not open.
    Closed,
    /// An open gate, and a page.
    Sealed { page: Page, size: usize },
    /// No byte, or an open gate behind which no page is spelled.
    Short,
}

/// What stands in front of the bytes.
pub(crate) fn front_of(alloc: Global, bytes: &[u8]) -> Result<Front, AllocError>
    ensures { IfOk result (IsFrontOf bytes.now) }
{
    if bytes.is_empty() {
        return Ok(Front::Short);
    }
    if bytes[0] != 1 {
        return Ok(Front::Closed);
    }
    match decode(alloc, &bytes[1..])? {
        Some((page, length)) => Ok(Front::Sealed {
            page,
            size: length + 1,
        }),
        None => Ok(Front::Short),
    }
}

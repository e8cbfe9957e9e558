//! The texts of values and of refusals.
ghost use Rattle.std.specs.Prelude.{◌≡◌, ◌≢◌, ◌++◌, IfOk, OnOk, string_bytes};
ghost use Rattle.std.specs.declared.alloc.AllocError.{AllocError};
ghost use Rattle.std.specs.Fmt.{decimal};
ghost use Rattle.table_rewrite.specs.Replies.{fault_text};

use itoa::Buffer;
use std::alloc::{AllocError, Global};
use table_rewrite::{Reply, reply_text};
use zeta_expr::LineFault;

/// A number in decimal.
pub(crate) fn number_text(alloc: Global, number: u64) -> Result<String, AllocError>
    ensures { IfOk result (λ text. string_bytes text ≡ decimal number) }
{
    let mut text = String::new(alloc);
    let mut buffer = Buffer::new();
    text.push_str(buffer.format(number))?;
    Ok(text)
}

/// The text of a refusal. Want of memory is handed on.
pub(crate) fn refusal_text(alloc: Global, fault: LineFault) -> Result<String, AllocError>
    ensures text { IfOk result (λ text. string_bytes text ≡ fault_text fault) }
    ensures memory { OnOk result ((e : AllocError) → fault ≢ LineFault.Memory e) }
{
    match fault {
        LineFault::Memory(e) => Err(e),
        _ => reply_text(alloc, &Reply::Refused(fault)),
    }
}

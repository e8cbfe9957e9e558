//! Numbers and ratios at the end of a text.
ghost use Rattle.std.specs.Prelude.{◌≡◌, ◌++◌, OnOk, string_bytes};
ghost use Rattle.std.specs.Fmt.{decimal};
ghost use Rattle.fraction_print.specs.FractionTexts.{ratio_text};

use itoa::Buffer;
use std::alloc::AllocError;

/// Adds a number in decimal.
pub(crate) fn push_number(text: &mut String, number: u64) -> Result<(), AllocError>
    ensures { OnOk result (string_bytes text.new ≡ string_bytes text.old ++ decimal number) }
{
    let mut buffer = Buffer::new();
    text.push_str(buffer.format(number))
}

/// Adds a number over another, as `2/5`, and as `2` where the other is 1.
pub(crate) fn push_ratio(text: &mut String, top: u64, bottom: u64) -> Result<(), AllocError>
    ensures { OnOk result (string_bytes text.new ≡ string_bytes text.old ++ ratio_text top bottom) }
{
    push_number(text, top)?;
    if bottom == 1 {
        return Ok(());
    }
    text.push_str("/")?;
    push_number(text, bottom)
}

//! The text of a term with its sign.
ghost use Rattle.std.specs.Prelude.{◌≡◌, ◌<◌, ◌≤◌, ◌^◌, ◌++◌, length, OnOk, string_bytes};
ghost use Rattle.fraction_print.specs.FractionTexts.{Coefficient, IsCoefficient, is_negative, sign_text, size_text, signed_term};

use crate::number::{push_number, push_ratio};
use column_order::Columns;
use fractions::fraction;
use poly_print::push_monomial;
use std::alloc::AllocError;

/// Adds the sign of a term: `-` where it is negative, else `+` where it is not the first.
fn push_sign(text: &mut String, first: bool, negative: bool) -> Result<(), AllocError>
    ensures { OnOk result (string_bytes text.new ≡ string_bytes text.old ++ sign_text first negative) }
{
    if negative {
        return text.push_str("-");
    }
    if first {
        return Ok(());
    }
    text.push_str("+")
}

/// Adds what is printed for a residue, behind its sign: the fraction that stands for it, or the residue where there is none.
fn push_coefficient(
    text: &mut String,
    first: bool,
    modulus: u64,
    residue: u64,
) -> Result<(), AllocError>
    requires from { 3 ≤ modulus }
    requires within { modulus < 2 ^ 63 }
    requires residue { residue < modulus }
    ensures { OnOk result ((k : Coefficient) → IsCoefficient modulus residue k
        → string_bytes text.new ≡ string_bytes text.old ++ (sign_text first (is_negative k) ++ size_text k)) }
{
    match fraction(modulus, residue) {
        Some(f) => {
            push_sign(text, first, f.negative)?;
            push_ratio(text, f.top, f.bottom)
        }
        None => {
            push_sign(text, first, false)?;
            push_number(text, residue)
        }
    }
}

/// Adds a term behind its sign, as `-2/5*z(2)^2`.
pub(crate) fn push_term(
    text: &mut String,
    first: bool,
    modulus: u64,
    columns: &Columns,
    col: u16,
    residue: u64,
) -> Result<(), AllocError>
    requires col { col < length columns.now.list }
    requires from { 3 ≤ modulus }
    requires within { modulus < 2 ^ 63 }
    requires residue { residue < modulus }
    ensures { OnOk result ((k : Coefficient) → IsCoefficient modulus residue k
        → string_bytes text.new ≡ string_bytes text.old ++ signed_term first columns.now.list col k) }
{
    push_coefficient(text, first, modulus, residue)?;
    text.push_str("*")?;
    push_monomial(text, columns.at(u32::from(col)))
}

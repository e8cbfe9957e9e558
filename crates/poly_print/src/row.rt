//! The text of a row.
ghost use Rattle.std.specs.Prelude.{◌≡◌, ◌<◌, ◌++◌, true, length, OnOk, IfOk, string_bytes};
ghost use Rattle.sparse_rows.specs.Entries.{AllIn, IsBelow};
ghost use Rattle.poly_print.specs.Polynomials.{residue_pairs, row_text, term_text};
ghost use Rattle.poly_print.specs.Inner.{behind_byte};

use crate::monomial::push_monomial;
use crate::number::push_number;
use column_order::Columns;
use residues::Ring;
use sparse_rows::Row;
use std::alloc::{AllocError, Global};

/// Adds a term, as `100*z(2)*z(3)`.
fn push_term(text: &mut String, columns: &Columns, col: u16, residue: u64) -> Result<(), AllocError>
    requires { col < length columns.now.list }
    ensures { OnOk result (string_bytes text.new ≡ string_bytes text.old ++ term_text columns.now.list (col, residue)) }
{
    push_number(text, residue)?;
    text.push_str("*")?;
    push_monomial(text, columns.at(u32::from(col)))
}

/// Adds a term, behind a `+` where it is not the first.
fn push_next_term(
    text: &mut String,
    first: bool,
    columns: &Columns,
    col: u16,
    residue: u64,
) -> Result<(), AllocError>
    requires { col < length columns.now.list }
    ensures { OnOk result (string_bytes text.new ≡ string_bytes text.old ++ behind_byte 43 first (term_text columns.now.list (col, residue))) }
{
    if !first {
        text.push_str("+")?;
    }
    push_term(text, columns, col, residue)
}

/// Adds the text of a row: its terms joined by `+`, in increasing order of columns, and `0` for the zero row. After want of memory only
/// part of it may be there.
pub fn push_row<R: Ring>(
    text: &mut String,
    ring: &R,
    columns: &Columns,
    row: &Row<R>,
) -> Result<(), AllocError>
    requires below { IsBelow (λ col. col) (length columns.now.list) row.now }
    requires in_ring { AllIn (R.has ring.now) row.now }
    ensures { OnOk result (string_bytes text.new ≡ string_bytes text.old ++ row_text columns.now.list (residue_pairs (λ col. col) (R.value ring.now) row.now)) }
{
    let entries = row.entries();
    if entries.is_empty() {
        return text.push_str("0");
    }
    let mut first = true;
    for entry in entries {
        push_next_term(text, first, columns, entry.0, ring.value(entry.1))?;
        first = false;
    }
    Ok(())
}

/// The text of a row.
pub fn print<R: Ring>(
    alloc: Global,
    ring: &R,
    columns: &Columns,
    row: &Row<R>,
) -> Result<String, AllocError>
    requires below { IsBelow (λ col. col) (length columns.now.list) row.now }
    requires in_ring { AllIn (R.has ring.now) row.now }
    ensures { IfOk result (λ text. string_bytes text ≡ row_text columns.now.list (residue_pairs (λ col. col) (R.value ring.now) row.now)) }
{
    let mut text = String::new(alloc);
    push_row(&mut text, ring, columns, row)?;
    Ok(text)
}

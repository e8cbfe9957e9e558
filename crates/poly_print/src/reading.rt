//! The row of a text.
ghost use Rattle.std.specs.Prelude.{◌≡◌, ℕ, ◌<◌, List, length, IfOk, MatchOption, string_bytes};
ghost use Rattle.sparse_rows.specs.Entries.{AllIn, IsBelow};
ghost use Rattle.poly_print.specs.Polynomials.{monomial_text, IsTextOf};

use crate::monomial::push_monomial;
use crate::read_term::term_at;
use crate::row::print;
use column_order::Columns;
use lyndon_words::Monomial;
use residues::Ring;
use sparse_rows::Row;
use std::alloc::{AllocError, Global};

/// The text of a monomial.
fn text_of(alloc: Global, p: &Monomial) -> Result<String, AllocError>
    ensures { IfOk result (λ text. string_bytes text ≡ monomial_text p.now) }
{
    let mut text = String::new(alloc);
    push_monomial(&mut text, p)?;
    Ok(text)
}

/// A row that is the only one that a text can be of: column by column, where a term of the column stands at the front of what is left.
fn read_row<R: Ring>(
    alloc: Global,
    ring: &R,
    columns: &Columns,
    text: &[u8],
) -> Result<Row<R>, AllocError>
    ensures below { IfOk result (λ row. IsBelow (λ col. col) (length columns.now.list) row) }
    ensures in_ring { IfOk result (λ row. AllIn (R.has ring.now) row) }
    ensures only { IfOk result (λ row. (p : List (ℕ × R.Elem)) → IsTextOf R.zero (R.has ring.now) (R.value ring.now) columns.now.list p text.now → p ≡ row) }
{
    prove!(columns.weight() >= 2);
    let mut row = Row::zero(alloc);
    let mut rest = if text == b"0".as_slice() {
        &text[1..]
    } else {
        text
    };
    for col in 0..columns.len() {
        let monomial = text_of(alloc, columns.at(col))?;
        if let Some((residue, behind)) = term_at(rest, monomial.as_bytes()) {
            let element = ring.of(u128::from(residue));
            if !R::is_zero(element) {
                row.push(col as u16, element)?;
                rest = behind;
            }
        }
    }
    Ok(row)
}

/// The row of a text: `None` exactly where no row prints so.
pub fn parse<R: Ring>(
    alloc: Global,
    ring: &R,
    columns: &Columns,
    text: &[u8],
) -> Result<Option<Row<R>>, AllocError>
    ensures { IfOk result (λ parsed. MatchOption parsed
        ((p : List (ℕ × R.Elem)) → ¬ (IsTextOf R.zero (R.has ring.now) (R.value ring.now) columns.now.list p text.now))
        (λ row. IsTextOf R.zero (R.has ring.now) (R.value ring.now) columns.now.list row text.now)) }
{
    let row = read_row(alloc, ring, columns, text)?;
    let printed = print(alloc, ring, columns, &row)?;
    if printed.as_bytes() == text {
        Ok(Some(row))
    } else {
        Ok(None)
    }
}

//! The text of a row.
ghost use Rattle.std.specs.Prelude.{◌≡◌, ℕ, ◌++◌, length, OnOk, IfOk, string_bytes};
ghost use Rattle.sparse_rows.specs.Entries.{AllIn, IsBelow};
ghost use Rattle.poly_print.specs.Polynomials.{residue_pairs};
ghost use Rattle.fraction_print.specs.FractionTexts.{Coefficient, AreCoefficients, fractions_text, IsFractionsText};

use crate::term::push_term;
use column_order::Columns;
use residues::Ring;
use sparse_rows::Row;
use std::alloc::{AllocError, Global};

/// Adds the text of a row: its terms in increasing order of columns, each residue as the fraction that stands for it, and `0` for the zero
/// row. After want of memory only part of it may be there.
pub fn push_fractions<R: Ring>(
    text: &mut String,
    ring: &R,
    columns: &Columns,
    row: &Row<R>,
) -> Result<(), AllocError>
    requires below { IsBelow (λ col. col) (length columns.now.list) row.now }
    requires in_ring { AllIn (R.has ring.now) row.now }
    ensures { OnOk result ((f : ℕ → Coefficient) → AreCoefficients (R.modulus ring.now) f
        → string_bytes text.new ≡ string_bytes text.old ++ fractions_text columns.now.list f (residue_pairs (λ col. col) (R.value ring.now) row.now)) }
{
    let entries = row.entries();
    if entries.is_empty() {
        return text.push_str("0");
    }
    let modulus = ring.modulus();
    let mut first = true;
    for entry in entries {
        push_term(text, first, modulus, columns, entry.0, ring.value(entry.1))?;
        first = false;
    }
    Ok(())
}

/// The text of a row, each residue as the fraction that stands for it.
pub fn print_fractions<R: Ring>(
    alloc: Global,
    ring: &R,
    columns: &Columns,
    row: &Row<R>,
) -> Result<String, AllocError>
    requires below { IsBelow (λ col. col) (length columns.now.list) row.now }
    requires in_ring { AllIn (R.has ring.now) row.now }
    ensures { IfOk result (λ text.
        IsFractionsText (R.modulus ring.now) columns.now.list (residue_pairs (λ col. col) (R.value ring.now) row.now) (string_bytes text)) }
{
    let mut text = String::new(alloc);
    push_fractions(&mut text, ring, columns, row)?;
    Ok(text)
}

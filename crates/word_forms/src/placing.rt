//! The normal form of a sum of words, by those of the words.
ghost use Rattle.std.specs.Prelude.{◌≡◌, ℕ, ◌+◌, ◌%◌, length, IfOk, All};
ghost use Rattle.linear_model.specs.Rows.{SameRow};
ghost use Rattle.word_sums.specs.Terms.{coefficient_of, AllIn as AllTermsIn};
ghost use Rattle.sparse_rows.specs.Entries.{AllIn, IsRow, IsBelow};
ghost use Rattle.echelon.specs.Lists.{row_at};
ghost use Rattle.table_model.specs.Computed.{cols_by};
ghost use Rattle.lyndon_polys.specs.Tables.{entries_of};
ghost use Rattle.word_forms.specs.Forms.{FitForms};
ghost use Rattle.word_forms.specs.Inner.{numbers_of};

use crate::gathering::{add_entries, gathered, no_sums};
use crate::places::place_of;
use column_order::Columns;
use residues::Ring;
use sparse_rows::Row;
use std::alloc::{AllocError, Global};
use word_sums::WordSum;

/// Adds the forms of the words of a sum, each times the word's residue.
fn add_forms<R: Ring>(
    ring: &R,
    columns: &Columns,
    guesses: &[u16],
    forms: &[Row<R>],
    sum: &WordSum<R>,
    sums: &mut [R::Accumulator],
)
    requires forms { FitForms (R.has ring.now) (length columns.now.list) forms.now }
    requires in_ring { AllTermsIn (R.has ring.now) sum.now }
    requires len { length sums.old ≡ length columns.now.list }
    requires all { All (R.is_sum ring.now) sums.old }
    ensures len { length sums.new ≡ length sums.old }
    ensures all { All (R.is_sum ring.now) sums.new }
    ensures sum { SameRow (R.modulus ring.now) (numbers_of (R.total ring.now) sums.new) (λ q. numbers_of (R.total ring.now) sums.old q
        + cols_by columns.now.list (row_at (R.value ring.now) forms.now) (coefficient_of (R.value ring.now) sum.now) q) }
{
    for (word, residue) in sum.iter() {
        // A word without a place is none of the table.
        if let Some(col) = place_of(columns, guesses, *word) {
            add_entries(ring, sums, *residue, forms[col as usize].entries());
        }
    }
}

/// The sum of the forms of the words of a sum, each times the word's residue.
pub(crate) fn form_of_sum<R: Ring>(
    alloc: Global,
    ring: &R,
    columns: &Columns,
    guesses: &[u16],
    forms: &[Row<R>],
    sum: &WordSum<R>,
) -> Result<Row<R>, AllocError>
    requires forms { FitForms (R.has ring.now) (length columns.now.list) forms.now }
    requires in_ring { AllTermsIn (R.has ring.now) sum.now }
    ensures row { IfOk result (IsRow (λ k. k) R.zero 0) }
    ensures below { IfOk result (IsBelow (λ k. k) (length columns.now.list)) }
    ensures in_ring { IfOk result (AllIn (R.has ring.now)) }
    ensures entries { IfOk result (λ row. (q : ℕ) → entries_of (R.value ring.now) row q
        ≡ cols_by columns.now.list (row_at (R.value ring.now) forms.now) (coefficient_of (R.value ring.now) sum.now) q % R.modulus ring.now) }
{
    let mut sums = no_sums(alloc, ring, columns.len() as usize)?;
    add_forms(ring, columns, guesses, forms, sum, &mut sums);
    gathered(alloc, ring, &sums)
}

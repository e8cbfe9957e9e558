//! The normal forms of the words of a table, by which those of sums are made.
ghost use Rattle.std.specs.Prelude.{◌≡◌, ℕ, ◌%◌, ◌<◌, List, [], length, get_or, IfOk};
ghost use Rattle.word_sums.specs.Terms.{coefficient_of, AllIn as AllTermsIn};
ghost use Rattle.sparse_rows.specs.Entries.{AllIn, IsRow, IsBelow};
ghost use Rattle.echelon.specs.Lists.{lead_at, row_at};
ghost use Rattle.lyndon_polys.specs.Tables.{entries_of};
ghost use Rattle.table_model.specs.Computed.{cols_by};
ghost use Rattle.table_model.specs.Conversion.{IsTable, IsTableSum};
ghost use Rattle.table_model.specs.Complete.{IsPolynomial};
ghost use Rattle.word_forms.specs.Forms.{AreForms};

use crate::forms::forms_of_words;
use crate::places::guesses_of;
use crate::placing::form_of_sum;
use column_order::Columns;
use echelon::ReducedRows;
use lyndon_polys::LyndonTable;
use residues::Ring;
use sparse_rows::Row;
use std::alloc::{AllocError, Global};
use std::marker::Model;
use word_sums::WordSum;

/// For each column of a table, the normal form of the row of the column's word.
#[derive(Drop)]
pub struct WordForms<R: Ring> {
    ring: R,
    guesses: Vec<u16>,
    forms: Vec<Row<R>>,
}

impl<R: Ring> Model for WordForms<R> {
    ghost use Rattle.std.specs.Prelude.{length};
    ghost use Rattle.word_forms.specs.Forms.{RingForms, FitForms};

    ghost Value = { RingForms R R.Elem };

    ghost view = { λ f. record { ring = f.ring; forms = f.forms.items } };

    ghost invariant = { λ f. FitForms (R.has f.ring) (length f.forms.items) f.forms.items };
}

impl<R: Ring> WordForms<R> {
    /// The forms of the words of a table by reduced rows over its columns, each by one conversion and one elimination.
    pub fn new(
        alloc: Global,
        table: &LyndonTable<R>,
        rows: &ReducedRows<R>,
    ) -> Result<WordForms<R>, AllocError>
        requires ring { R.modulus rows.now.ring ≡ R.modulus table.now.ring }
        requires columns { (i : ℕ) → i < length rows.now.rows → IsBelow (λ k. k) (length table.now.columns.list) (get_or rows.now.rows i []) }
        ensures table { IsTable (R.modulus table.now.ring) table.now.columns }
        ensures ring { IfOk result (λ made. made.ring ≡ table.now.ring) }
        ensures forms { IfOk result (λ made. AreForms (R.modulus table.now.ring) (R.has table.now.ring) (R.value table.now.ring) table.now.columns
            rows.now.rows made.forms) }
    {
        let guesses = guesses_of(alloc, table.columns())?;
        let forms = forms_of_words(alloc, table, rows)?;
        Ok(WordForms {
            ring: *table.ring(),
            guesses,
            forms,
        })
    }

    /// The sum of the forms of the words of a sum, each times the word's residue: the normal form of the row of a sum of words of the
    /// table. A word that is none of the table adds nothing.
    pub fn row_of_sum(&self, columns: &Columns, sum: &WordSum<R>) -> Result<Row<R>, AllocError>
        requires columns { length self.now.forms ≡ length columns.now.list }
        requires in_ring { AllTermsIn (R.has self.now.ring) sum.now }
        ensures polynomial { IfOk result (λ row. (rows : List (List (ℕ × R.Elem))) → IsTable (R.modulus self.now.ring) columns.now
            → AreForms (R.modulus self.now.ring) (R.has self.now.ring) (R.value self.now.ring) columns.now rows self.now.forms
            → IsTableSum (R.modulus self.now.ring) columns.now (coefficient_of (R.value self.now.ring) sum.now)
            → IsPolynomial (R.modulus self.now.ring) columns.now (length rows) (lead_at rows) (row_at (R.value self.now.ring) rows)
            (coefficient_of (R.value self.now.ring) sum.now) (entries_of (R.value self.now.ring) row)) }
        ensures entries { IfOk result (λ row. (q : ℕ) → entries_of (R.value self.now.ring) row q ≡ cols_by columns.now.list
            (row_at (R.value self.now.ring) self.now.forms) (coefficient_of (R.value self.now.ring) sum.now) q % R.modulus self.now.ring) }
        ensures row { IfOk result (IsRow (λ k. k) R.zero 0) }
        ensures below { IfOk result (IsBelow (λ k. k) (length columns.now.list)) }
        ensures in_ring { IfOk result (AllIn (R.has self.now.ring)) }
    {
        let alloc = *self.forms.allocator();
        let row = form_of_sum(alloc, &self.ring, columns, &self.guesses, &self.forms, sum)?;
        Ok(row)
    }
}

//! Replies with fractions by the normal forms of the words of a table.
ghost use Rattle.std.specs.Prelude.{◌≡◌, ◌%◌, length, IfOk, string_bytes};
ghost use Rattle.word_sums.specs.Terms.{coefficient_of, AllIn as AllTermsIn};
ghost use Rattle.echelon.specs.Lists.{lead_at, row_at};
ghost use Rattle.table_model.specs.Computed.{cols_by};
ghost use Rattle.table_rewrite.specs.Replies.{AreOver, fault_text};
ghost use Rattle.table_rewrite.specs.Inner.{IsNoMemory};
ghost use Rattle.fraction_replies.specs.Replies.{AreFractionReplies};
ghost use Rattle.fraction_replies.specs.Forms.{fractions_of, reply_by};

use echelon::ReducedRows;
use fraction_print::print_fractions;
use line_loop::Replier;
use lyndon_polys::LyndonTable;
use residues::Ring;
use std::alloc::{AllocError, Global};
use std::marker::Model;
use table_rewrite::{Reply, reply_text, sum_of_line};
use word_forms::WordForms;
use word_sums::WordSum;
use zeta_expr::LineFault;

/// The table of a modulus, and for each column the normal form of the row of the column's word.
#[derive(Drop)]
pub struct FractionReplies<R: Ring> {
    alloc: Global,
    table: LyndonTable<R>,
    forms: WordForms<R>,
}

impl<R: Ring> Model for FractionReplies<R> {
    ghost use Rattle.std.specs.Prelude.{◌≡◌, length};
    ghost use Rattle.fraction_replies.specs.Forms.{FractionForms};

    ghost Value = { FractionForms R R.Elem };

    ghost view = { λ r. record { ring = r.table.ring; columns = r.table.columns; forms = r.forms.forms } };

    ghost invariant = { λ r. (r.forms.ring ≡ r.table.ring) × (length r.forms.forms ≡ length r.table.columns.list) };
}

/// The text of a refusal, where it is not want of memory.
fn text_of_refusal(alloc: Global, fault: LineFault) -> Result<String, AllocError>
    ensures { IfOk result (λ text. (string_bytes text ≡ fault_text fault) × IsNoMemory fault) }
{
    match fault {
        LineFault::Memory(e) => Err(e),
        _ => reply_text(alloc, &Reply::Refused(fault)),
    }
}

impl<R: Ring> FractionReplies<R> {
    /// What replies to lines over a table by its reduced rows, with fractions.
    ///
    /// The reply to a line is the text of the normal form of the row of what the line means, each residue as the fraction that stands for
    /// it where there is one, or of the line's first refusal. The forms of the words are made here, each by one conversion and one
    /// elimination.
    pub fn new(
        alloc: Global,
        table: LyndonTable<R>,
        rows: &ReducedRows<R>,
    ) -> Result<FractionReplies<R>, AllocError>
        requires ring { R.modulus rows.now.ring ≡ R.modulus table.ring }
        requires columns { AreOver (length table.columns.list) rows.now.rows }
        ensures replies { IfOk result (λ replies. AreFractionReplies (R.modulus table.ring) table.columns (length rows.now.rows) (lead_at rows.now.rows)
            (row_at (R.value table.ring) rows.now.rows) (⟦<FractionReplies<R> as Replier>⟧.reply_to replies)) }
    {
        let forms = WordForms::new(alloc, &table, rows)?;
        Ok(FractionReplies {
            alloc,
            table,
            forms,
        })
    }

    /// The text of the sum of the forms of the words of a sum.
    fn text_of_sum(&self, sum: &WordSum<R>) -> Result<String, AllocError>
        requires { AllTermsIn (R.has self.now.ring) sum.now }
        ensures { IfOk result (λ text. string_bytes text ≡ fractions_of (R.modulus self.now.ring) self.now.columns (λ col. cols_by self.now.columns.list
            (row_at (R.value self.now.ring) self.now.forms) (coefficient_of (R.value self.now.ring) sum.now) col % R.modulus self.now.ring)) }
    {
        let columns = self.table.columns();
        let form = self.forms.row_of_sum(columns, sum)?;
        print_fractions(self.alloc, self.table.ring(), columns, &form)
    }

    /// The text of the reply to a line.
    fn text_of_line(&self, line: &[u8]) -> Result<String, AllocError>
        ensures { IfOk result (λ text. string_bytes text ≡ reply_by (R.modulus self.now.ring) self.now.columns
            (row_at (R.value self.now.ring) self.now.forms) line.now) }
    {
        let columns = self.table.columns();
        match sum_of_line(
            self.alloc,
            self.table.ring(),
            line,
            columns.weight(),
            columns.depth(),
        ) {
            Ok(sum) => self.text_of_sum(&sum),
            Err(fault) => text_of_refusal(self.alloc, fault),
        }
    }
}

impl<R: Ring> Replier for FractionReplies<R> {
    ghost use Rattle.echelon.specs.Lists.{row_at};
    ghost use Rattle.fraction_replies.specs.Forms.{reply_by};

    ghost reply_to = { λ r. reply_by (R.modulus r.ring) r.columns (row_at (R.value r.ring) r.forms) };

    fn reply(&self, line: &[u8], out: &mut Vec<u8>) -> Result<(), AllocError> {
        let text = self.text_of_line(line)?;
        out.extend_from_slice(text.as_bytes())
    }
}

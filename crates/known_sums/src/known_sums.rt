//! What is known of the sums that add nothing.
ghost use Rattle.std.specs.Prelude.{◌≡◌, ℕ, ◌<◌, IsTrue, IfOk, OnOk, false, List, length};
ghost use Rattle.linear_model.specs.Rows.{SpanWithin};
ghost use Rattle.word_sums.specs.Terms.{coefficient_of, AllIn as AllTermsIn};
ghost use Rattle.echelon.specs.Lists.{row_at};
ghost use Rattle.table_model.specs.Conversion.{IsTableSum};
ghost use Rattle.known_sums.specs.Known.{AddsNothing, IsNothing, FitsTable, Knows, IsCurrent, AreFresh};

use crate::table_forms::{TableForms, forms_of_kept};
use echelon::RowEchelon;
use lyndon_polys::LyndonTable;
use residues::Ring;
use std::alloc::{AllocError, Global};
use word_sums::WordSum;

/// The forms are made once an eighth as many offers in turn as there are columns have added nothing.
const SHARE: u32 = 8;

/// Normal forms of the words of a table by rows that were kept, by which most sums that add nothing to these are known.
#[derive(Drop)]
pub struct KnownSums<R: Ring> {
    alloc: Global,
    // None until many offers in turn have added nothing.
    forms: Option<TableForms<R>>,
    // Whether a row was kept since they were made, so that they are by the rows of an earlier time.
    is_stale: bool,
    // The offers in turn that added nothing.
    vain: u32,
}

impl<R: Ring> KnownSums<R> {
    /// Nothing is known yet. It takes no memory.
    pub fn new(alloc: Global) -> KnownSums<R>
        ensures { IsNothing result }
    {
        KnownSums {
            alloc,
            forms: None,
            is_stale: false,
            vain: 0,
        }
    }

    /// Whether a sum of words of the table is known to add nothing to the rows kept: its row lies in their span. No where it is not
    /// known, so also where no forms were made yet.
    pub fn passes(&self, table: &LyndonTable<R>, sum: &WordSum<R>) -> Result<bool, AllocError>
        requires fits { FitsTable table.now self.now }
        requires in_ring { AllTermsIn (R.has table.now.ring) sum.now }
        ensures passes { IfOk result (λ passes. IsTrue passes → (kept : List (List (ℕ × R.Elem)))
            → Knows (R.modulus table.now.ring) (R.has table.now.ring) (R.value table.now.ring) table.now kept self.now
            → IsTableSum (R.modulus table.now.ring) table.now.columns (coefficient_of (R.value table.now.ring) sum.now)
            → AddsNothing (R.modulus table.now.ring) (R.value table.now.ring) table.now.columns kept sum.now) }
    {
        let Some(known) = &self.forms else {
            return Ok(false);
        };
        let left = known.forms.row_of_sum(table.columns(), sum)?;
        Ok(left.entries().is_empty())
    }

    /// Notes that a sum was offered to the elimination, and whether its row was new. After many offers in turn that added nothing, the
    /// forms are made anew: by then the rows are mostly all that there will be.
    pub fn note(
        &mut self,
        table: &LyndonTable<R>,
        echelon: &RowEchelon<R>,
        is_new: bool,
    ) -> Result<(), AllocError>
        requires ring { echelon.now.ring ≡ table.now.ring }
        requires columns { echelon.now.columns ≡ length table.now.columns.list }
        ensures knows { (kept : List (List (ℕ × R.Elem)))
            → SpanWithin (R.modulus table.now.ring) (length kept) (row_at (R.value table.now.ring) kept) (length echelon.now.rows)
            (row_at (R.value table.now.ring) echelon.now.rows)
            → Knows (R.modulus table.now.ring) (R.has table.now.ring) (R.value table.now.ring) table.now kept self.old
            → OnOk result (Knows (R.modulus table.now.ring) (R.has table.now.ring) (R.value table.now.ring) table.now echelon.now.rows self.new) }
        ensures current { (is_new ≡ false → IsCurrent (R.modulus table.now.ring) (R.has table.now.ring) (R.value table.now.ring) table.now R.zero echelon.now.rows self.old)
            → OnOk result (IsCurrent (R.modulus table.now.ring) (R.has table.now.ring) (R.value table.now.ring) table.now R.zero echelon.now.rows self.new) }
    {
        if is_new {
            self.vain = 0;
            self.is_stale = true;
            return Ok(());
        }
        self.vain = self.vain.saturating_add(1);
        if self.vain < table.columns().len() / SHARE {
            return Ok(());
        }
        self.vain = 0;
        let forms = forms_of_kept(self.alloc, table, echelon)?;
        self.forms = Some(forms);
        self.is_stale = false;
        Ok(())
    }

    /// The reduced list of all rows that were kept, and the forms by it. They are made already, where no row was kept since.
    pub fn into_forms(
        self,
        table: &LyndonTable<R>,
        echelon: &RowEchelon<R>,
    ) -> Result<TableForms<R>, AllocError>
        requires ring { echelon.now.ring ≡ table.now.ring }
        requires columns { echelon.now.columns ≡ length table.now.columns.list }
        requires current { IsCurrent (R.modulus table.now.ring) (R.has table.now.ring) (R.value table.now.ring) table.now R.zero echelon.now.rows self }
        ensures { IfOk result (λ made. AreFresh (R.modulus table.now.ring) (R.has table.now.ring) (R.value table.now.ring) table.now R.zero echelon.now.rows
            made.rows made.forms) }
    {
        let KnownSums {
            alloc,
            forms,
            is_stale,
            vain: _,
        } = self;
        match forms {
            Some(forms) if !is_stale => Ok(forms),
            _ => forms_of_kept(alloc, table, echelon),
        }
    }
}

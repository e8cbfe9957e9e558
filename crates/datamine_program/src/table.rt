//! The table of parameters, made in memory.
ghost use Rattle.std.specs.Prelude.{◌≡◌, length, IfOk, IfErr};
ghost use Rattle.echelon.specs.Lists.{lead_at, row_at};
ghost use Rattle.page_codec.specs.Bounds.{IsParams};
ghost use Rattle.word_forms.specs.Forms.{AreForms};
ghost use Rattle.datamine_program.specs.Inner.{conversion_fault, relation_fault, IsTableMade, IsFaultOf};

use echelon::ReducedRows;
use lyndon_polys::{LyndonFault, LyndonTable};
use page_codec::Params;
use residues::Ring;
use std::alloc::Global;
use table_columns::columns_of;
use table_rows::{RowsFault, reduced_rows};
use word_forms::WordForms;
use word_letters::Word;

// A table, the reduced rows of all its listed relations, and the normal forms of its words by these.
#[derive(Drop)]
pub(crate) struct MadeTable<R: Ring> {
    pub(crate) table: LyndonTable<R>,
    pub(crate) rows: ReducedRows<R>,
    pub(crate) forms: WordForms<R>,
}

// Why a table was not made. The first cause in the order of the variants is told.
#[derive(Drop)]
pub(crate) enum TableFault {
    // The coefficient of the word in the shuffle of its Lyndon factors is the value, which has no inverse. It is the first such word.
    NoInverseWord { value: u64, word: Word },
    // The rest of relation `n` leads with the value, which has no inverse. It is the first such relation.
    NoInverseRelation { value: u64, n: u32 },
    // Memory was wanting.
    Memory,
}

// Why the words of a table do not convert.
fn conversion_fault(fault: LyndonFault) -> TableFault
    ensures { result ≡ conversion_fault fault }
{
    match fault {
        LyndonFault::NoInverse { value, word } => TableFault::NoInverseWord { value, word },
        LyndonFault::Memory(_) => TableFault::Memory,
    }
}

// Why the work on a table is broken.
fn relation_fault(fault: RowsFault) -> TableFault
    ensures { result ≡ relation_fault fault }
{
    match fault {
        RowsFault::NoInverse { value, n } => TableFault::NoInverseRelation { value, n },
        RowsFault::Memory(_) => TableFault::Memory,
    }
}

// The table of the parameters over a ring of their modulus, the reduced rows of all its listed relations, and the forms of its words.
pub(crate) fn table_of<R: Ring>(
    alloc: Global,
    ring: R,
    params: &Params,
) -> Result<MadeTable<R>, TableFault>
    requires params { IsParams params.now }
    requires ring { R.modulus ring ≡ params.now.modulus }
    ensures made { IfOk result (λ made. IsTableMade params.now made.table.columns (length made.rows.rows) (lead_at made.rows.rows) (row_at (R.value made.table.ring) made.rows.rows)) }
    ensures forms { IfOk result (λ made. AreForms (R.modulus made.table.ring) (R.has made.table.ring) (R.value made.table.ring) made.table.columns
        made.rows.rows made.forms.forms) }
    ensures table_ring { IfOk result (λ made. made.table.ring ≡ ring) }
    ensures forms_ring { IfOk result (λ made. made.forms.ring ≡ ring) }
    ensures fault { IfErr result (IsFaultOf params.now) }
{
    let Ok(columns) = columns_of(alloc, params) else {
        return Err(TableFault::Memory);
    };
    let table = match LyndonTable::new(alloc, ring, columns) {
        Ok(table) => table,
        Err(fault) => return Err(conversion_fault(fault)),
    };
    match reduced_rows(alloc, &table) {
        Ok(made) => Ok(MadeTable {
            table,
            rows: made.rows,
            forms: made.forms,
        }),
        Err(fault) => Err(relation_fault(fault)),
    }
}

//! Reduced rows, and the normal forms of the words of a table by them.
ghost use Rattle.std.specs.Prelude.{◌≡◌, length, IfOk};
ghost use Rattle.known_sums.specs.Known.{AreFresh};

use echelon::{ReducedRows, RowEchelon};
use lyndon_polys::LyndonTable;
use residues::Ring;
use std::alloc::{AllocError, Global};
use word_forms::WordForms;

/// The reduced rows of a table, and the normal form of each of its words by these.
#[derive(Drop)]
pub struct TableForms<R: Ring> {
    pub rows: ReducedRows<R>,
    pub forms: WordForms<R>,
}

/// The reduced list of the rows that were kept, and the forms of the words by it.
pub(crate) fn forms_of_kept<R: Ring>(
    alloc: Global,
    table: &LyndonTable<R>,
    echelon: &RowEchelon<R>,
) -> Result<TableForms<R>, AllocError>
    requires ring { echelon.now.ring ≡ table.now.ring }
    requires columns { echelon.now.columns ≡ length table.now.columns.list }
    ensures { IfOk result (λ made. AreFresh (R.modulus table.now.ring) (R.has table.now.ring) (R.value table.now.ring) table.now R.zero echelon.now.rows
        made.rows made.forms) }
{
    let rows = echelon.reduced()?;
    let forms = WordForms::new(alloc, table, &rows)?;
    Ok(TableForms { rows, forms })
}

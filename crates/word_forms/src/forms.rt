//! The normal forms of the rows of a table's words.
ghost use Rattle.std.specs.Prelude.{◌≡◌, ℕ, ◌<◌, [], length, get_or, IfOk};
ghost use Rattle.zeta_model.specs.Sums.{single};
ghost use Rattle.word_sums.specs.Sums.{IsSumOf};
ghost use Rattle.sparse_rows.specs.Entries.{AllIn, IsBelow};
ghost use Rattle.lyndon_polys.specs.Tables.{entries_of};
ghost use Rattle.table_model.specs.Conversion.{IsTable, IsTableWord, IsCols};
ghost use Rattle.word_forms.specs.Forms.{IsFormOf, AreForms};

use echelon::ReducedRows;
use lyndon_polys::{LyndonTable, OutFault};
use residues::Ring;
use sparse_rows::Row;
use std::alloc::{AllocError, Global};
use word_letters::Word;
use word_sums::WordSum;

/// The sum of the one word.
fn word_sum<R: Ring>(alloc: Global, ring: &R, u: Word) -> Result<WordSum<R>, AllocError>
    ensures { IfOk result (IsSumOf R.zero (R.has ring.now) (R.value ring.now) (R.modulus ring.now) (single u)) }
{
    let mut sum = WordSum::new(alloc);
    sum.add_term(ring, u, ring.one())?;
    Ok(sum)
}

/// The row of a word of the table.
fn row_of_word<R: Ring>(
    alloc: Global,
    table: &LyndonTable<R>,
    word: Word,
) -> Result<Row<R>, AllocError>
    requires { IsTableWord table.now.columns.weight table.now.columns.depth word }
    ensures cols { IfOk result (λ row. IsCols (R.modulus table.now.ring) table.now.columns (single word) (entries_of (R.value table.now.ring) row)) }
    ensures in_ring { IfOk result (AllIn (R.has table.now.ring)) }
{
    let sum = word_sum(alloc, table.ring(), word)?;
    match table.to_columns(&sum) {
        Ok(row) => Ok(row),
        Err(OutFault::Memory(e)) => Err(e),
        Err(OutFault::OutOfTable(_)) => unreachable!(),
    }
}

/// The normal form of the row of a word of the table.
fn form_of_word<R: Ring>(
    alloc: Global,
    table: &LyndonTable<R>,
    rows: &ReducedRows<R>,
    word: Word,
) -> Result<Row<R>, AllocError>
    requires ring { R.modulus rows.now.ring ≡ R.modulus table.now.ring }
    requires columns { (i : ℕ) → i < length rows.now.rows → IsBelow (λ k. k) (length table.now.columns.list) (get_or rows.now.rows i []) }
    requires word { IsTableWord table.now.columns.weight table.now.columns.depth word }
    ensures { IfOk result (IsFormOf (R.modulus table.now.ring) (R.has table.now.ring) (R.value table.now.ring) table.now.columns rows.now.rows word) }
{
    let row = row_of_word(alloc, table, word)?;
    let form = rows.nf(table.ring(), &row)?;
    // Its entries are a row, and so they are known to lie over the columns.
    form.entries();
    Ok(form)
}

/// The normal forms of the rows of the words of the columns, in the order of the columns.
pub(crate) fn forms_of_words<R: Ring>(
    alloc: Global,
    table: &LyndonTable<R>,
    rows: &ReducedRows<R>,
) -> Result<Vec<Row<R>>, AllocError>
    requires ring { R.modulus rows.now.ring ≡ R.modulus table.now.ring }
    requires columns { (i : ℕ) → i < length rows.now.rows → IsBelow (λ k. k) (length table.now.columns.list) (get_or rows.now.rows i []) }
    ensures table { IsTable (R.modulus table.now.ring) table.now.columns }
    ensures forms { IfOk result (λ forms. AreForms (R.modulus table.now.ring) (R.has table.now.ring) (R.value table.now.ring) table.now.columns
        rows.now.rows forms.items) }
{
    let columns = table.columns();
    let mut forms = Vec::with_capacity(alloc, columns.len() as usize)?;
    for i in 0..columns.len() {
        let form = form_of_word(alloc, table, rows, columns.at(i).word())?;
        forms.push(form)?;
    }
    Ok(forms)
}

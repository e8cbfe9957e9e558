//! The reply to a line.
ghost use Rattle.std.specs.Prelude.{◌≡◌, ◌≤◌, List, length, IfOk, IfErr};
ghost use Rattle.zeta_model.specs.declared.Letter.{Letter};
ghost use Rattle.word_sums.specs.Terms.{coefficient_of};
ghost use Rattle.word_sums.specs.Sums.{IsSum};
ghost use Rattle.sparse_rows.specs.Entries.{AllIn};
ghost use Rattle.lyndon_polys.specs.Tables.{entries_of};
ghost use Rattle.table_model.specs.Conversion.{IsTableWord, IsCols};
ghost use Rattle.zeta_expr.specs.LineMeaning.{IsMeaning, means};
ghost use Rattle.table_rewrite.specs.Replies.{AreOver, IsReply, IsPolyText};
ghost use Rattle.table_rewrite.specs.Refusals.{IsRefusalOf};
ghost use Rattle.table_rewrite.specs.Inner.{IsNoMemory};

use crate::reply::{PolyText, Reply};
use echelon::ReducedRows;
use lyndon_polys::{LyndonTable, OutFault};
use poly_print::print;
use residues::Ring;
use sparse_rows::Row;
use std::alloc::{AllocError, Global};
use word_sums::WordSum;
use zeta_expr::{LineFault, meaning, read};

/// The sum of words that a line means, where each term is of weight `w`, 2 to 24, and at most `d` deep.
///
/// The line's first refusal where it means none: `LineTooLong` and `Syntax(at)` before all others, then `NoInverse(b)`, `WeightIs(k)` and
/// `DepthIs(k)`, each that of the first number or term as written. `Memory` where memory is wanting.
pub fn sum_of_line<R: Ring>(
    alloc: Global,
    ring: &R,
    line: &[u8],
    w: u32,
    d: u32,
) -> Result<WordSum<R>, LineFault>
    requires least { 2 ≤ w }
    requires most { w ≤ 24 }
    ensures sum { IfOk result (IsSum R.zero (R.has ring.now)) }
    ensures means { IfOk result (λ sum. IsMeaning (R.modulus ring.now) w d line.now (means (coefficient_of (R.value ring.now) sum))) }
    ensures refused { IfErr result (IsRefusalOf (R.modulus ring.now) w d line.now) }
{
    match read(alloc, line) {
        Ok(e) => meaning(alloc, ring, &e, w, d),
        Err(fault) => Err(fault),
    }
}

/// The row of a sum of words of the table.
fn row_of_sum<R: Ring>(table: &LyndonTable<R>, sum: &WordSum<R>) -> Result<Row<R>, AllocError>
    requires sum { IsSum R.zero (R.has table.now.ring) sum.now }
    requires words { (t : List Letter) → ¬ (IsTableWord table.now.columns.weight table.now.columns.depth t)
        → coefficient_of (R.value table.now.ring) sum.now t ≡ 0 }
    ensures cols { IfOk result (λ row. IsCols (R.modulus table.now.ring) table.now.columns
        (coefficient_of (R.value table.now.ring) sum.now) (entries_of (R.value table.now.ring) row)) }
    ensures in_ring { IfOk result (AllIn (R.has table.now.ring)) }
{
    match table.to_columns(sum) {
        Ok(row) => Ok(row),
        Err(OutFault::Memory(e)) => Err(e),
        Err(OutFault::OutOfTable(_)) => unreachable!(),
    }
}

/// The polynomial of a sum of words of the table.
fn polynomial<R: Ring>(
    alloc: Global,
    table: &LyndonTable<R>,
    rows: &ReducedRows<R>,
    sum: &WordSum<R>,
) -> Result<PolyText, AllocError>
    requires ring { R.modulus rows.now.ring ≡ R.modulus table.now.ring }
    requires columns { AreOver (length table.now.columns.list) rows.now.rows }
    requires sum { IsSum R.zero (R.has table.now.ring) sum.now }
    requires words { (t : List Letter) → ¬ (IsTableWord table.now.columns.weight table.now.columns.depth t)
        → coefficient_of (R.value table.now.ring) sum.now t ≡ 0 }
    ensures { IfOk result (IsPolyText (R.modulus table.now.ring) (R.value table.now.ring) table.now.columns rows.now.rows
        (coefficient_of (R.value table.now.ring) sum.now)) }
{
    let row = row_of_sum(table, sum)?;
    let left = rows.nf(table.ring(), &row)?;
    Ok(PolyText::new(print(alloc, table.ring(), table.columns(), &left)?))
}

/// The reply with a refusal, where it is not want of memory.
fn refuse(fault: LineFault) -> Result<Reply, AllocError>
    ensures { IfOk result (λ reply. (reply ≡ Reply.Refused fault) × IsNoMemory fault) }
{
    match fault {
        LineFault::Memory(e) => Err(e),
        _ => Ok(Reply::Refused(fault)),
    }
}

/// The reply to a line over a table and its reduced rows: the text of the normal form of the row of what the line means, or the line's
/// first refusal for the weight and the depth of the table. The weight and the depth of each term are tested before any product.
pub fn rewrite_line<R: Ring>(
    alloc: Global,
    table: &LyndonTable<R>,
    rows: &ReducedRows<R>,
    line: &[u8],
) -> Result<Reply, AllocError>
    requires ring { R.modulus rows.now.ring ≡ R.modulus table.now.ring }
    requires columns { AreOver (length table.now.columns.list) rows.now.rows }
    ensures { IfOk result (IsReply (R.modulus table.now.ring) (R.value table.now.ring) table.now.columns rows.now.rows line.now) }
{
    let columns = table.columns();
    match sum_of_line(alloc, table.ring(), line, columns.weight(), columns.depth()) {
        Ok(sum) => Ok(Reply::Poly(polynomial(alloc, table, rows, &sum)?)),
        Err(fault) => refuse(fault),
    }
}

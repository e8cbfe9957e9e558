//! The lines of a merge, made in memory.
ghost use Rattle.std.specs.Prelude.{◌≡◌, ◌++◌, ◌<◌, ℕ, true, [], length, map, get_or, IfOk, OnOk, string_bytes};
ghost use Rattle.zeta_model.specs.Words.{ends_with_y};
ghost use Rattle.sparse_rows.specs.Entries.{IsBelow};
ghost use Rattle.column_order.specs.Columns.{ColumnList};
ghost use Rattle.page_codec.specs.Bounds.{IsParams};
ghost use Rattle.page_rows.specs.Written.{written};
ghost use Rattle.poly_print.specs.Polynomials.{residues_text};
ghost use Rattle.file_model.specs.TableOf.{IsTableOf};
ghost use Rattle.cert_checker.specs.Certified.{residues_at};
ghost use Rattle.table_checker.specs.Checks.{IsRowOf};
ghost use Rattle.whole_runs.specs.Texts.{word_line};
ghost use Rattle.merge_runs.specs.Lines.{bad_row_line, leaves_line, merged_lines, missing_line, not_reduced_line, other_line, turn_line, unreadable_line};

use column_order::Columns;
use echelon::ReducedRows;
use page_codec::{Params, RowData};
use page_rows::{data_of_row, row_of_data};
use poly_print::push_row;
use residues::{Ring, WordMod};
use std::alloc::{AllocError, Global};
use table_columns::columns_of;
use table_texts::{push_count, push_row_line};
use word_letters::Word;

/// The line of the word at which a table does not convert.
pub(crate) fn word_text(alloc: Global, value: u64, word: Word) -> Result<String, AllocError>
    requires { ends_with_y word ≡ true }
    ensures { IfOk result (λ text. string_bytes text ≡ word_line value word) }
{
    let mut text = String::new(alloc);
    push_count(&mut text, "no inverse: ", value)?;
    text.push_str(" at word ")?;
    word.push_text(&mut text)?;
    text.push_str("\n")?;
    Ok(text)
}

/// The line of a file that holds no share.
pub(crate) fn unreadable_text(alloc: Global, file: u64) -> Result<String, AllocError>
    ensures { IfOk result (λ text. string_bytes text ≡ unreadable_line file) }
{
    let mut text = String::new(alloc);
    push_count(&mut text, "not a share: file ", file)?;
    text.push_str(" unreadable\n")?;
    Ok(text)
}

/// The line of a file whose share is one of others.
pub(crate) fn other_text(alloc: Global, file: u64) -> Result<String, AllocError>
    ensures { IfOk result (λ text. string_bytes text ≡ other_line file) }
{
    let mut text = String::new(alloc);
    push_count(&mut text, "not a share: file ", file)?;
    text.push_str(" other\n")?;
    Ok(text)
}

/// The line of a file with a row that is not its combination.
pub(crate) fn bad_row_text(alloc: Global, file: u64, row: u32) -> Result<String, AllocError>
    ensures { IfOk result (λ text. string_bytes text ≡ bad_row_line file row) }
{
    let mut text = String::new(alloc);
    push_count(&mut text, "not a share: file ", file)?;
    push_count(&mut text, " row ", u64::from(row))?;
    text.push_str(" is not its combination\n")?;
    Ok(text)
}

/// The line of a file with a row that is not reduced.
pub(crate) fn not_reduced_text(alloc: Global, file: u64, row: u32) -> Result<String, AllocError>
    ensures { IfOk result (λ text. string_bytes text ≡ not_reduced_line file row) }
{
    let mut text = String::new(alloc);
    push_count(&mut text, "not a share: file ", file)?;
    push_count(&mut text, " row ", u64::from(row))?;
    text.push_str(" is not reduced\n")?;
    Ok(text)
}

// Puts the text of a row of the table of the parameters at the end of a line.
fn push_rest(
    alloc: Global,
    line: &mut String,
    params: &Params,
    rest: &RowData,
) -> Result<(), AllocError>
    requires params { IsParams params.now }
    requires rest { IsRowOf params.now rest.now }
    ensures { OnOk result ((columns : ColumnList) → IsTableOf params.now columns
        → string_bytes line.new ≡ string_bytes line.old ++ residues_text columns.list (residues_at rest.now)) }
{
    let columns = columns_of(alloc, params)?;
    let ring = WordMod::new(params.modulus).unwrap();
    let row = row_of_data(alloc, &ring, rest)?;
    push_row(line, &ring, &columns, &row)
}

/// The line of a file whose rows leave something of a relation.
pub(crate) fn leaves_text(
    alloc: Global,
    params: &Params,
    file: u64,
    n: u32,
    rest: &RowData,
) -> Result<String, AllocError>
    requires params { IsParams params.now }
    requires rest { IsRowOf params.now rest.now }
    ensures { IfOk result (λ text. (columns : ColumnList) → IsTableOf params.now columns
        → string_bytes text ≡ leaves_line file n (residues_text columns.list (residues_at rest.now))) }
{
    let mut text = String::new(alloc);
    push_count(&mut text, "not a share: file ", file)?;
    push_count(&mut text, " relation ", u64::from(n))?;
    text.push_str(" leaves ")?;
    push_rest(alloc, &mut text, params, rest)?;
    text.push_str("\n")?;
    Ok(text)
}

/// The line of a share that no file holds.
pub(crate) fn missing_text(alloc: Global, index: u32) -> Result<String, AllocError>
    ensures { IfOk result (λ text. string_bytes text ≡ missing_line index) }
{
    let mut text = String::new(alloc);
    push_count(&mut text, "not complete: share ", u64::from(index))?;
    text.push_str(" missing\n")?;
    Ok(text)
}

/// The line of a row of a share that leads with a residue without inverse.
pub(crate) fn turn_text(
    alloc: Global,
    value: u64,
    share: u32,
    row: u32,
) -> Result<String, AllocError>
    ensures { IfOk result (λ text. string_bytes text ≡ turn_line value share row) }
{
    let mut text = String::new(alloc);
    push_count(&mut text, "no inverse: ", value)?;
    push_count(&mut text, " at share ", u64::from(share))?;
    push_count(&mut text, " row ", u64::from(row))?;
    text.push_str("\n")?;
    Ok(text)
}

/// The lines of merged rows.
pub(crate) fn merged_text<R: Ring>(
    alloc: Global,
    ring: &R,
    columns: &Columns,
    rows: &ReducedRows<R>,
) -> Result<String, AllocError>
    requires ring { rows.now.ring ≡ ring.now }
    requires below { (i : ℕ) → i < length rows.now.rows → IsBelow (λ k. k) (length columns.now.list) (get_or rows.now.rows i []) }
    ensures { IfOk result (λ text. string_bytes text ≡ merged_lines (R.modulus ring.now) columns.now.list (map (written (R.value ring.now)) rows.now.rows)) }
{
    let _few = columns.len();
    let mut text = String::new(alloc);
    push_count(&mut text, "merged: rows ", u64::from(rows.len()))?;
    text.push_str("\n")?;
    for i in 0..rows.len() {
        let row = data_of_row(alloc, ring, rows.row(i))?;
        push_row_line(alloc, ring, columns, &row, &mut text)?;
    }
    Ok(text)
}

//! Texts that are made in memory: numbers, parameters, and rows of a table.
ghost use Rattle.std.specs.Prelude.{◌≡◌, ◌++◌, ◌<◌, ◌≤◌, ℕ, true, All, length, IfOk, OnOk, decimal, string_bytes};
ghost use Rattle.std.specs.List.{AllByRecursion};
ghost use Rattle.zeta_model.specs.Words.{ends_with_y};
ghost use Rattle.sparse_rows.specs.Entries.{IsBelow, AllIn};
ghost use Rattle.page_codec.specs.Bounds.{IsParams, IsRowData};
ghost use Rattle.page_codec.specs.Places.{AreBelow};
ghost use Rattle.page_rows.specs.Written.{written, AreResidues};
ghost use Rattle.column_order.specs.Columns.{ColumnList};
ghost use Rattle.poly_print.specs.Polynomials.{residues_text};
ghost use Rattle.file_model.specs.TableOf.{IsTableOf};
ghost use Rattle.file_model.specs.FinalRows.{finals_of_page};
ghost use Rattle.cert_checker.specs.Certified.{residues_at};
ghost use Rattle.table_checker.specs.Checks.{IsRowOf};
ghost use Rattle.whole_runs.specs.FileTexts.{order_text, preferred_text, params_text, complete_line, other_line, migrated_line, missing_line, negated, row_line, row_lines};
ghost use Rattle.table_texts.specs.Texts.{word_gap, head_text, IsShowable, CanShow};

use column_order::{Columns, Preferred};
use itoa::Buffer;
use page_codec::{FinalEntry, Page, Params, RowData};
use page_rows::row_of_data;
use poly_print::{push_monomial, push_row};
use residues::{Ring, WordMod};
use sparse_rows::Row;
use std::alloc::{AllocError, Global};
use table_columns::columns_of;

/// Puts a text and a number at the end of a line.
pub fn push_count(line: &mut String, text: &str, number: u64) -> Result<(), AllocError>
    ensures { OnOk result (string_bytes line.new ≡ string_bytes line.old ++ (text.now ++ decimal number)) }
{
    line.push_str(text)?;
    let mut digits = Buffer::new();
    line.push_str(digits.format(number))
}

// Puts the name of an order of columns at the end of a line.
fn push_order(line: &mut String, order: u8) -> Result<(), AllocError>
    ensures { OnOk result (string_bytes line.new ≡ string_bytes line.old ++ order_text order) }
{
    if order == 0 {
        return line.push_str("lex");
    }
    line.push_str("odd")
}

// Puts what stands before a preferred word at the end of a line: a blank before the first, and a + before each other.
fn push_gap(line: &mut String, first: bool) -> Result<(), AllocError>
    ensures { OnOk result (string_bytes line.new ≡ string_bytes line.old ++ word_gap first) }
{
    if first {
        return line.push_str(" ");
    }
    line.push_str("+")
}

// Puts the preferred words at the end of a line, behind a blank where there are any.
fn push_preferred(line: &mut String, words: &Preferred) -> Result<(), AllocError>
    requires { AllByRecursion (λ u. ends_with_y u ≡ true) words.now }
    ensures { OnOk result (string_bytes line.new ≡ string_bytes line.old ++ preferred_text words.now) }
{
    let mut first = true;
    for i in 0..words.len() {
        push_gap(line, first)?;
        words.at(i).push_text(line)?;
        first = false;
    }
    Ok(())
}

/// Puts the parameters of a table at the end of a line.
pub fn push_params(line: &mut String, params: &Params) -> Result<(), AllocError>
    requires { IsParams params.now }
    ensures { OnOk result (string_bytes line.new ≡ string_bytes line.old ++ params_text params.now) }
{
    push_count(line, "", u64::from(params.weight))?;
    push_count(line, " ", u64::from(params.depth))?;
    push_count(line, " ", params.modulus)?;
    line.push_str(" ")?;
    push_order(line, params.order)?;
    push_preferred(line, &params.preferred)
}

/// The lines of the header of a table, and of how many pages it has.
pub fn head_text(alloc: Global, params: &Params, pages: u64) -> Result<String, AllocError>
    requires { IsParams params.now }
    ensures { IfOk result (λ text. string_bytes text ≡ head_text params.now pages) }
{
    let mut text = String::new(alloc);
    text.push_str("table ")?;
    push_params(&mut text, params)?;
    push_count(&mut text, "\npages ", pages)?;
    text.push_str("\n")?;
    Ok(text)
}

/// The line of a complete table.
pub fn complete_text(
    alloc: Global,
    params: &Params,
    relations: u32,
    rows: u32,
) -> Result<String, AllocError>
    requires { IsParams params.now }
    ensures { IfOk result (λ text. string_bytes text ≡ complete_line params.now relations rows) }
{
    let mut text = String::new(alloc);
    text.push_str("complete: ")?;
    push_params(&mut text, params)?;
    push_count(&mut text, ", relations ", u64::from(relations))?;
    push_count(&mut text, ", rows ", u64::from(rows))?;
    text.push_str("\n")?;
    Ok(text)
}

/// The line of a file that has other parameters, these.
pub fn other_text(alloc: Global, params: &Params) -> Result<String, AllocError>
    requires { IsParams params.now }
    ensures { IfOk result (λ text. string_bytes text ≡ other_line params.now) }
{
    let mut text = String::new(alloc);
    text.push_str("not a table: other ")?;
    push_params(&mut text, params)?;
    text.push_str("\n")?;
    Ok(text)
}

/// The line of a version 1 file that was copied.
pub fn migrated_text(alloc: Global, params: &Params, pages: u64) -> Result<String, AllocError>
    requires { IsParams params.now }
    ensures { IfOk result (λ text. string_bytes text ≡ migrated_line params.now pages) }
{
    let mut text = String::new(alloc);
    text.push_str("migrated: ")?;
    push_params(&mut text, params)?;
    push_count(&mut text, ", pages ", pages)?;
    text.push_str("\n")?;
    Ok(text)
}

// Puts the text of a row of the table of the parameters at the end of a line.
fn push_rest(
    alloc: Global,
    line: &mut String,
    params: &Params,
    rest: &RowData,
) -> Result<(), AllocError>
    requires params { IsParams params.now }
    requires rest { IsRowOf params.now rest.now }
    ensures { OnOk result ((columns : ColumnList) → IsTableOf params.now columns
        → string_bytes line.new ≡ string_bytes line.old ++ residues_text columns.list (residues_at rest.now)) }
{
    let columns = columns_of(alloc, params)?;
    let ring = WordMod::new(params.modulus).unwrap();
    let row = row_of_data(alloc, &ring, rest)?;
    push_row(line, &ring, &columns, &row)
}

/// The line of a relation of which the final rows leave something.
pub fn missing_text(
    alloc: Global,
    params: &Params,
    n: u32,
    rest: &RowData,
) -> Result<String, AllocError>
    requires params { IsParams params.now }
    requires rest { IsRowOf params.now rest.now }
    ensures { IfOk result (λ text. (columns : ColumnList) → IsTableOf params.now columns
        → string_bytes text ≡ missing_line n (residues_text columns.list (residues_at rest.now))) }
{
    let mut text = String::new(alloc);
    push_count(&mut text, "not complete: relation ", u64::from(n))?;
    text.push_str(" leaves ")?;
    push_rest(alloc, &mut text, params, rest)?;
    text.push_str("\n")?;
    Ok(text)
}

// The negative of some columns with residues.
fn negative<R: Ring>(alloc: Global, ring: &R, pairs: &[(u16, u64)]) -> Result<Row<R>, AllocError>
    requires { AreResidues (λ k. k) (R.modulus ring.now) pairs.now }
    ensures written { IfOk result (λ row. written (R.value ring.now) row ≡ negated (R.modulus ring.now) pairs.now) }
    ensures in_ring { IfOk result (AllIn (R.has ring.now)) }
    ensures below { (high : ℕ) → IsBelow (λ k. k) high pairs.now → IfOk result (IsBelow (λ k. k) high) }
{
    let mut negated = Vec::with_capacity(alloc, pairs.len())?;
    let mut rest = pairs;
    while let Some((pair, behind)) = rest.split_first() {
        negated.push((pair.0, ring.modulus() - pair.1))?;
        rest = behind;
    }
    let data = RowData::from_vec(negated);
    row_of_data(alloc, ring, &data)
}

/// Puts the line of a row at the end of the lines: the monomial of its lead is the negative of what stands behind it.
pub fn push_row_line<R: Ring>(
    alloc: Global,
    ring: &R,
    columns: &Columns,
    row: &RowData,
    lines: &mut String,
) -> Result<(), AllocError>
    requires data { IsRowData row.now }
    requires below { AreBelow (length columns.now.list) (R.modulus ring.now) row.now }
    ensures { OnOk result (string_bytes lines.new ≡ string_bytes lines.old ++ row_line (R.modulus ring.now) columns.now.list row.now) }
{
    let Some((lead, rest)) = row.as_slice().split_first() else {
        return Ok(());
    };
    let polynomial = negative(alloc, ring, rest)?;
    push_monomial(lines, columns.at(u32::from(lead.0)))?;
    lines.push_str(" = ")?;
    push_row(lines, ring, columns, &polynomial)?;
    lines.push_str("\n")
}

// Puts the lines of the rows of some entries at the end of the lines.
fn push_entries<R: Ring>(
    alloc: Global,
    ring: &R,
    columns: &Columns,
    entries: &[FinalEntry],
    lines: &mut String,
) -> Result<(), AllocError>
    requires { AllByRecursion (IsShowable (length columns.now.list) (R.modulus ring.now)) entries.now }
    ensures { OnOk result (string_bytes lines.new ≡ string_bytes lines.old ++ row_lines (R.modulus ring.now) columns.now.list entries.now) }
{
    for entry in entries {
        push_row_line(alloc, ring, columns, &entry.row, lines)?;
    }
    Ok(())
}

/// Puts the lines of the final rows of a page at the end of the lines.
pub fn push_page<R: Ring>(
    alloc: Global,
    ring: &R,
    columns: &Columns,
    page: &Page,
    lines: &mut String,
) -> Result<(), AllocError>
    requires { CanShow (length columns.now.list) (R.modulus ring.now) page.now }
    ensures { OnOk result (string_bytes lines.new ≡ string_bytes lines.old ++ row_lines (R.modulus ring.now) columns.now.list (finals_of_page page.now)) }
{
    match page {
        Page::Header(_) => Ok(()),
        Page::Forward(_) => Ok(()),
        Page::Final(rows) => push_entries(alloc, ring, columns, rows.entries.as_slice(), lines),
        Page::Done { .. } => Ok(()),
    }
}

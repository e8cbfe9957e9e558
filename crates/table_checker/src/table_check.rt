//! The table in a file: its pages, its columns, and its final rows.
ghost use Rattle.std.specs.Prelude.{◌≡◌, ◌≤◌, ◌<◌, ℕ, List, [], IsTrue, length, map, get_or, IfOk, IfErr, OnOk, IfSome, IsSomeAnd};
ghost use Rattle.outside_io.specs.Causes.{Rose};
ghost use Rattle.sparse_rows.specs.Entries.{IsBelow};
ghost use Rattle.page_codec.specs.declared.parts.FinalEntry.{FinalEntry};
ghost use Rattle.page_codec.specs.declared.page.Page.{Page};
ghost use Rattle.page_rows.specs.Written.{written};
ghost use Rattle.page_file.specs.Files.{IsSealed};
ghost use Rattle.page_file.specs.Notes.{Suits};
ghost use Rattle.table_model.specs.ListedSpan.{count_of};
ghost use Rattle.table_model.specs.Faults.{Whole};
ghost use Rattle.file_model.specs.TableOf.{IsTableOf};
ghost use Rattle.file_model.specs.FinalRows.{finals_of};
ghost use Rattle.table_checker.specs.Checks.{Finds, Found, IsRefusal};
ghost use Rattle.table_checker.specs.CheckedTables.{AreCompleteRows};
ghost use Rattle.table_checker.specs.Inner.{conversion_fault, rows_fault};

use crate::fault::CheckFault;
use crate::file_pages::{columns_of, relation_count, without_header};
use crate::final_rows::final_rows;
use cert_checker::{CompletenessFault, check_rows};
use echelon::ReducedRows;
use lyndon_polys::{LyndonFault, LyndonTable};
use outside_io::Disk;
use page_file::PageFile;
use residues::Ring;
use std::alloc::Global;

/// A table whose final rows are complete: its columns, these rows, and how many relations are listed.
#[derive(Drop)]
pub struct Checked<R: Ring> {
    pub table: LyndonTable<R>,
    pub rows: ReducedRows<R>,
    pub relations: u32,
}

/// Why the words of a table do not convert.
fn conversion_fault(fault: LyndonFault) -> CheckFault
    ensures { result ≡ conversion_fault fault }
{
    match fault {
        LyndonFault::NoInverse { value, word } => CheckFault::NoInverse { value, word },
        LyndonFault::Memory(fault) => CheckFault::Memory(fault),
    }
}

/// Why the rows of a table are not complete.
fn rows_fault(fault: CompletenessFault) -> CheckFault
    ensures { result ≡ rows_fault fault }
{
    match fault {
        CompletenessFault::BadRow(i) => CheckFault::BadRow(i),
        CompletenessFault::NotReduced(i) => CheckFault::NotReduced(i),
        CompletenessFault::Missing { n, rest } => CheckFault::Missing { n, rest },
        CompletenessFault::Memory(fault) => CheckFault::Memory(fault),
    }
}

/// The table in a file, where it is whole: page 0 is a header, each sealed page fits its place, the last one is Done, the table converts,
/// and the final rows are complete. The ring has the modulus of the header.
///
/// The refusals, over a disk that tells: `Misfit(i)` for the first page that does not fit, and `Misfit(0)` where page 0 is no header;
/// `NotDone(n)` where all n pages fit and the last is not Done; `NoInverse { value, word }` for the first word at which the table does not
/// convert; `BadRow(i)`, `NotReduced(i)` and `Missing { n, rest }` as `check_rows` says of the final rows. `DiskFault` only where the
/// disk's count rose. `BadPage(i)` never over a disk that tells. `Memory` at any step. Whether forward rows are true is not tested.
pub fn check_table<D: Disk, R: Ring>(
    alloc: Global,
    ring: R,
    file: &mut PageFile,
    disk: &mut D,
) -> Result<Checked<R>, CheckFault>
    requires live { IsTrue file.old.is_live }
    requires suits { IfSome (D.trace disk.old) (λ t. Suits file.old t.now.contents) }
    requires modulus { IfSome file.old.params (λ params. R.modulus ring ≡ params.modulus) }
    ensures whole { OnOk result (Finds (D.trace disk.old) (Found Whole)) }
    ensures complete { IfOk result (λ checked. AreCompleteRows (R.modulus ring) (R.value ring) checked.table.columns checked.rows.rows) }
    ensures finals { IfOk result (λ checked. IfSome (D.trace disk.old) (λ t. (pages : List Page) → IsSealed pages t.now.contents
        → map (written (R.value ring)) checked.rows.rows ≡ map (λ (e : FinalEntry). e.row) (finals_of pages))) }
    ensures table { IfOk result (λ checked. IsSomeAnd file.old.params (λ params. IsTableOf params checked.table.columns)) }
    ensures relations { IfOk result (λ checked. checked.relations ≡ count_of checked.table.columns) }
    ensures table_ring { IfOk result (λ checked. checked.table.ring ≡ ring) }
    ensures rows_ring { IfOk result (λ checked. checked.rows.ring ≡ ring) }
    ensures over { IfOk result (λ checked. (i : ℕ) → i < length checked.rows.rows
        → IsBelow (λ k. k) (length checked.table.columns.list) (get_or checked.rows.rows i [])) }
    ensures err { IfErr result (IsRefusal (Rose (D.faults disk.old) (D.faults disk.new)) (D.trace disk.old) file.old.params) }
    ensures file { file.new ≡ file.old }
    ensures same { D.trace disk.new ≡ D.trace disk.old }
    ensures faults { D.faults disk.old ≤ D.faults disk.new }
{
    let Some(params) = file.params() else {
        return Err(without_header(file.count()));
    };
    let columns = match columns_of(alloc, &params) {
        Ok(columns) => columns,
        Err(fault) => return Err(CheckFault::Memory(fault)),
    };
    let relations = match relation_count(alloc, &params) {
        Ok(relations) => relations,
        Err(fault) => return Err(CheckFault::Memory(fault)),
    };
    let finals = match final_rows(alloc, &ring, file, disk, &params, relations) {
        Ok(finals) => finals,
        Err(fault) => return Err(fault),
    };
    let table = match LyndonTable::new(alloc, ring, columns) {
        Ok(table) => table,
        Err(fault) => return Err(conversion_fault(fault)),
    };
    match check_rows(alloc, &table, finals.rows, &finals.combinations) {
        Ok(rows) => Ok(Checked {
            table,
            rows,
            relations,
        }),
        Err(fault) => Err(rows_fault(fault)),
    }
}

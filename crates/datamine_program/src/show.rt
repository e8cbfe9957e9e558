//! The command `show`: the header of the table in a file, how many pages it has, and its sealed final rows.
ghost use Rattle.std.specs.Prelude.{◌≡◌, ◌≤◌, ◌⊎◌, ◌++◌, ℕ, List, Option, IsTrue, Ok, Some, length, IfOk, IfErr, IfSome, OnOk, string_bytes};
ghost use Rattle.outside_io.specs.Causes.{Rose};
ghost use Rattle.page_codec.specs.Bounds.{IsParams};
ghost use Rattle.page_codec.specs.Places.{walk_of};
ghost use Rattle.page_codec.specs.declared.page.Page.{Page};
ghost use Rattle.page_file.specs.Files.{IsSealed};
ghost use Rattle.page_file.specs.Notes.{Suits};
ghost use Rattle.file_model.specs.TableOf.{IsTableOf};
ghost use Rattle.table_model.specs.ListedSpan.{relation_count};
ghost use Rattle.whole_runs.specs.declared.command.Command.TheVariants.{Show};
ghost use Rattle.whole_runs.specs.FileWorks.{IsShow};
ghost use Rattle.whole_runs.specs.Outcomes.{Outcome, contents_of};
ghost use Rattle.whole_runs.specs.Works.Work.{Writes};
ghost use Rattle.datamine_program.specs.Inner.{EndsFile, IsShowFault, ShowsAll};

use crate::file_refusals::refuse_file;
use crate::table_file::{ShowFault, next_page, open_table};
use crate::writing::write_and_end;
use column_order::Columns;
use outside_io::{Disk, Sink};
use page_codec::{Params, Walk};
use page_file::PageFile;
use residues::{Ring, WordMod};
use std::alloc::Global;
use table_columns::{columns_of, relation_count};
use table_texts::{head_text, push_page};
use whole_runs::Status;

// Puts the lines of all sealed final rows at the end of the lines.
fn push_rows<D: Disk>(
    alloc: Global,
    file: &mut PageFile,
    disk: &mut D,
    params: &Params,
    columns: &Columns,
    lines: &mut String,
) -> Result<(), ShowFault>
    requires live { IsTrue file.old.is_live }
    requires suits { IfSome (D.trace disk.old) (λ t. Suits file.old t.now.contents) }
    requires header { file.old.params ≡ Some params.now }
    requires params { IsParams params.now }
    requires columns { IsTableOf params.now columns.now }
    ensures ok { OnOk result (IfSome (D.trace disk.old) (λ t. (pages : List Page) → IsSealed pages t.now.contents → ShowsAll params.now columns.now.list pages (string_bytes lines.old) (string_bytes lines.new))) }
    ensures err { IfErr result (IsShowFault (Rose (D.faults disk.old) (D.faults disk.new)) (D.trace disk.old)) }
    ensures same { D.trace disk.new ≡ D.trace disk.old }
    ensures faults { D.faults disk.old ≤ D.faults disk.new }
{
    let Ok(relations) = relation_count(alloc, params) else {
        return Err(ShowFault::Memory);
    };
    let ring = WordMod::new(params.modulus).unwrap();
    let mut walk = Walk::new(*params, relations);
    for place in 0..file.count() {
        let page = match next_page(file, disk, &mut walk, place) {
            Ok(page) => page,
            Err(fault) => return Err(fault),
        };
        if push_page(alloc, &ring, columns, &page, lines).is_err() {
            return Err(ShowFault::Memory);
        }
    }
    Ok(())
}

// The lines of the table in a file with this header.
fn table_lines<D: Disk>(
    alloc: Global,
    file: &mut PageFile,
    disk: &mut D,
    params: &Params,
) -> Result<String, ShowFault>
    requires live { IsTrue file.old.is_live }
    requires suits { IfSome (D.trace disk.old) (λ t. Suits file.old t.now.contents) }
    requires header { file.old.params ≡ Some params.now }
    requires params { IsParams params.now }
    ensures ok { IfOk result (λ lines. IfSome (D.trace disk.old) (λ t. IsShow t.now.contents (Writes (string_bytes lines) Status.Done))) }
    ensures err { IfErr result (IsShowFault (Rose (D.faults disk.old) (D.faults disk.new)) (D.trace disk.old)) }
    ensures same { D.trace disk.new ≡ D.trace disk.old }
    ensures faults { D.faults disk.old ≤ D.faults disk.new }
{
    let Ok(columns) = columns_of(alloc, params) else {
        return Err(ShowFault::Memory);
    };
    let Ok(mut lines) = head_text(alloc, params, file.count()) else {
        return Err(ShowFault::Memory);
    };
    match push_rows(alloc, file, disk, params, &columns, &mut lines) {
        Ok(()) => Ok(lines),
        Err(fault) => Err(fault),
    }
}

// The lines of the table in the file.
fn shown_lines<D: Disk>(alloc: Global, disk: &mut D) -> Result<String, ShowFault>
    ensures ok { IfOk result (λ lines. IfSome (D.trace disk.old) (λ t. IsShow t.now.contents (Writes (string_bytes lines) Status.Done))) }
    ensures err { IfErr result (IsShowFault (Rose (D.faults disk.old) (D.faults disk.new)) (D.trace disk.old)) }
    ensures same { D.trace disk.new ≡ D.trace disk.old }
    ensures faults { D.faults disk.old ≤ D.faults disk.new }
{
    let mut opened = match open_table(alloc, disk) {
        Ok(opened) => opened,
        Err(fault) => return Err(fault),
    };
    let params = opened.params;
    table_lines(alloc, &mut opened.file, disk, &params)
}

// Prints the table in the file, in one write.
pub(crate) fn run_show<D: Disk, K: Sink>(alloc: Global, disk: &mut D, sink: &mut K) -> Status
    ensures which { EndsFile result }
    ensures outcome { (left : Option (List ℕ)) → Outcome (Ok Show) (contents_of (D.trace disk.old)) left (K.taken sink.old) (K.taken sink.new) result }
    ensures disk_fault_only { result ≡ Status.DiskFault → Rose (D.faults disk.old) (D.faults disk.new) }
    ensures write_fault_only { result ≡ Status.WriteFault → Rose (K.faults sink.old) (K.faults sink.new) }
    ensures same { D.trace disk.new ≡ D.trace disk.old }
    ensures faults { D.faults disk.old ≤ D.faults disk.new }
{
    match shown_lines(alloc, disk) {
        Ok(lines) => write_and_end(sink, lines.as_bytes(), Status::Done),
        Err(fault) => refuse_file(sink, fault),
    }
}

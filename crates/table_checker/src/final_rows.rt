//! The final rows of a file, with their combinations, as rows of elements.
ghost use Rattle.std.specs.Prelude.{◌≡◌, ◌≤◌, ◌<◌, ◌^◌, ◌++◌, ◌∷◌, [], ℕ, List, IsTrue, Some, length, IfOk, IfErr, IfSome, OnOk};
ghost use Rattle.std.specs.List.{AllByRecursion};
ghost use Rattle.outside_io.specs.Causes.{Rose};
ghost use Rattle.page_codec.specs.Bounds.{IsParams};
ghost use Rattle.page_codec.specs.declared.parts.FinalEntry.{FinalEntry};
ghost use Rattle.page_file.specs.Notes.{Suits};
ghost use Rattle.page_rows.specs.Written.{AreResidues};
ghost use Rattle.table_model.specs.ListedSpan.{relation_count};
ghost use Rattle.column_order.specs.Columns.{column_count};
ghost use Rattle.file_model.specs.FinalRows.{finals_of_page};
ghost use Rattle.table_checker.specs.Checks.{IsRefusal};
ghost use Rattle.table_checker.specs.Inner.{IsReadable, AreRowsOf, ClosesWith};

use crate::fault::CheckFault;
use crate::file_pages::next_page;
use outside_io::Disk;
use page_codec::{FinalEntry, Page, Params, Walk};
use page_file::PageFile;
use page_rows::{combination_of_data, row_of_data};
use residues::Ring;
use sparse_rows::{Combination, Row};
use std::alloc::{AllocError, Global};

/// Final rows, each with its combination.
#[derive(Drop)]
pub(crate) struct FinalRows<R: Ring> {
    pub(crate) rows: Vec<Row<R>>,
    pub(crate) combinations: Vec<Combination<R>>,
}

/// Puts the row and the combination of an entry behind the others. After want of memory the row may stand alone.
fn push_entry<R: Ring>(
    alloc: Global,
    ring: &R,
    entry: &FinalEntry,
    finals: &mut FinalRows<R>,
) -> Result<(), AllocError>
    requires row { AreResidues (λ k. k) (R.modulus ring.now) entry.now.row }
    requires combination { AreResidues (λ k. k) (R.modulus ring.now) entry.now.combination }
    ensures { OnOk result ((before : List FinalEntry)
        → AreRowsOf R.zero (R.has ring.now) (R.value ring.now) before finals.old.rows.items finals.old.combinations.items
        → AreRowsOf R.zero (R.has ring.now) (R.value ring.now) (before ++ entry.now ∷ []) finals.new.rows.items finals.new.combinations.items) }
{
    let row = row_of_data(alloc, ring, &entry.row)?;
    let combination = combination_of_data(alloc, ring, &entry.combination)?;
    finals.rows.push(row)?;
    finals.combinations.push(combination)?;
    Ok(())
}

/// Puts those of some entries behind the others.
fn push_entries<R: Ring>(
    alloc: Global,
    ring: &R,
    entries: &[FinalEntry],
    finals: &mut FinalRows<R>,
) -> Result<(), AllocError>
    requires { (columns relations : ℕ) × AllByRecursion (IsReadable columns relations (R.modulus ring.now)) entries.now }
    ensures { OnOk result ((before : List FinalEntry)
        → AreRowsOf R.zero (R.has ring.now) (R.value ring.now) before finals.old.rows.items finals.old.combinations.items
        → AreRowsOf R.zero (R.has ring.now) (R.value ring.now) (before ++ entries.now) finals.new.rows.items finals.new.combinations.items) }
{
    let mut rest = entries;
    while let Some((entry, behind)) = rest.split_first() {
        push_entry(alloc, ring, entry, finals)?;
        rest = behind;
    }
    Ok(())
}

/// Puts those of a page behind the others.
fn push_page<R: Ring>(
    alloc: Global,
    ring: &R,
    page: &Page,
    finals: &mut FinalRows<R>,
) -> Result<(), AllocError>
    requires { (columns relations : ℕ) × AllByRecursion (IsReadable columns relations (R.modulus ring.now)) (finals_of_page page.now) }
    ensures { OnOk result ((before : List FinalEntry)
        → AreRowsOf R.zero (R.has ring.now) (R.value ring.now) before finals.old.rows.items finals.old.combinations.items
        → AreRowsOf R.zero (R.has ring.now) (R.value ring.now) (before ++ finals_of_page page.now) finals.new.rows.items finals.new.combinations.items) }
{
    match page {
        Page::Header(_) => Ok(()),
        Page::Forward(_) => Ok(()),
        Page::Final(rows) => push_entries(alloc, ring, rows.entries.as_slice(), finals),
        Page::Done { .. } => Ok(()),
    }
}

/// The final rows of a file with this header, whose pages all fit their places, the last of them Done.
pub(crate) fn final_rows<D: Disk, R: Ring>(
    alloc: Global,
    ring: &R,
    file: &mut PageFile,
    disk: &mut D,
    params: &Params,
    relations: u32,
) -> Result<FinalRows<R>, CheckFault>
    requires live { IsTrue file.old.is_live }
    requires suits { IfSome (D.trace disk.old) (λ t. Suits file.old t.now.contents) }
    requires header { file.old.params ≡ Some params.now }
    requires params { IsParams params.now }
    requires modulus { R.modulus ring.now ≡ params.now.modulus }
    requires relations { relations ≡ relation_count params.now.weight params.now.depth }
    ensures finals { IfOk result (λ finals. (entries : List FinalEntry)
        × AreRowsOf R.zero (R.has ring.now) (R.value ring.now) entries finals.rows.items finals.combinations.items
        × AllByRecursion (IsReadable (column_count params.now.weight params.now.depth) (relation_count params.now.weight params.now.depth)
        params.now.modulus) entries
        × ClosesWith (D.trace disk.old) params.now entries) }
    ensures few { IfOk result (λ finals. length finals.rows.items < 2 ^ 32) }
    ensures err { IfErr result (IsRefusal (Rose (D.faults disk.old) (D.faults disk.new)) (D.trace disk.old) file.old.params) }
    ensures file { file.new ≡ file.old }
    ensures same { D.trace disk.new ≡ D.trace disk.old }
    ensures faults { D.faults disk.old ≤ D.faults disk.new }
{
    let mut finals = FinalRows {
        rows: Vec::new(alloc),
        combinations: Vec::new(alloc),
    };
    let mut walk = Walk::new(*params, relations);
    let pages = file.count();
    for place in 0..pages {
        let page = match next_page(file, disk, &mut walk, place) {
            Ok(page) => page,
            Err(fault) => return Err(fault),
        };
        if let Err(fault) = push_page(alloc, ring, &page, &mut finals) {
            return Err(CheckFault::Memory(fault));
        }
    }
    let _few = walk.rows();
    if !walk.is_done() {
        return Err(CheckFault::NotDone(pages));
    }
    Ok(finals)
}

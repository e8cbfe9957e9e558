//! The final pages, made and sealed group by group: reduced rows, each with its combination.
ghost use Rattle.std.specs.Prelude.{◌≡◌, ℕ, ◌+◌, ◌*◌, ◌^◌, ◌<◌, ◌≤◌, None, IsTrue, IsErrOf, length, IfErr, IfSome, OnOk};
ghost use Rattle.outside_io.specs.Causes.{Rose};
ghost use Rattle.column_order.specs.Columns.{ColumnList};
ghost use Rattle.page_codec.specs.Places.{block_count};
ghost use Rattle.page_file.specs.Notes.{Suits};
ghost use Rattle.echelon.specs.States.{AllIns};
ghost use Rattle.table_model.specs.ListedSpan.{count_of};
ghost use Rattle.table_build.specs.Faults.{HasCauseIn};
ghost use Rattle.table_build.specs.Inner.{Course, AreRows, AreFinals, AreReady, IsGroup, IsReadyAt, Holds, Keeps};

use crate::block::KeptRows;
use crate::fault::WorkFault;
use crate::groups::{Group, made_group, page_of_group, pages_in_group};
use crate::sealing::seal;
use echelon::{ReducedRows, Uses};
use outside_io::Disk;
use page_codec::Page;
use page_file::PageFile;
use residues::Ring;
use std::alloc::Global;

// Seals the final page of a place of a group.
fn seal_final<D: Disk, R: Ring>(
    alloc: Global,
    ring: &R,
    rows: &ReducedRows<R>,
    blocks: u32,
    file: &mut PageFile,
    disk: &mut D,
    group: &Group<R>,
    place: u32,
) -> Result<(), WorkFault>
    requires ready { IsReadyAt (1 + blocks + place) file.old }
    requires suits { IfSome (D.trace disk.old) (λ t. Suits file.old t.now.contents) }
    requires few { blocks < 2 ^ 32 }
    requires ring { rows.now.ring ≡ ring.now }
    requires few_rows { length rows.now.rows ≤ 2048 }
    requires group { IsGroup (R.has ring.now) (length rows.now.rows) group.now.first group.now.end group.now.combinations.items }
    requires from { group.now.first ≤ place }
    requires below { place < group.now.end }
    ensures ready { OnOk result (IsReadyAt (2 + blocks + place) file.new) }
    ensures suits { OnOk result (IfSome (D.trace disk.new) (λ t. Suits file.new t.now.contents)) }
    ensures keeps { (columns : ColumnList) (course : Course) → blocks ≡ block_count (count_of columns)
        → AreReady (R.modulus ring.now) (R.value ring.now) columns course (1 + blocks + place) group.now.first rows.now.rows group.now.combinations.items (D.trace disk.old)
        → Keeps course.pages (1 + blocks + place) (D.trace disk.old) (D.trace disk.new) }
    ensures holds { (columns : ColumnList) (course : Course) → blocks ≡ block_count (count_of columns)
        → AreReady (R.modulus ring.now) (R.value ring.now) columns course (1 + blocks + place) group.now.first rows.now.rows group.now.combinations.items (D.trace disk.old)
        → OnOk result (Holds course.pages (2 + blocks + place) (D.trace disk.new)) }
    ensures fault { (columns : ColumnList) (course : Course) → blocks ≡ block_count (count_of columns)
        → AreReady (R.modulus ring.now) (R.value ring.now) columns course (1 + blocks + place) group.now.first rows.now.rows group.now.combinations.items (D.trace disk.old)
        → IfErr result (HasCauseIn (Rose (D.faults disk.old) (D.faults disk.new)) (D.trace disk.old ≡ None) (λ _ _. ⊥)) }
    ensures untold { D.trace disk.old ≡ None → D.trace disk.new ≡ None }
    ensures disk_fault { IsErrOf result WorkFault.DiskFault → Rose (D.faults disk.old) (D.faults disk.new) }
    ensures faults { D.faults disk.old ≤ D.faults disk.new }
{
    let page = match page_of_group(alloc, ring, rows, group, place) {
        Ok(page) => page,
        Err(fault) => return Err(WorkFault::Memory(fault)),
    };
    seal(file, disk, &page)
}

// Seals the final pages of a group.
fn seal_pages<D: Disk, R: Ring>(
    alloc: Global,
    ring: &R,
    rows: &ReducedRows<R>,
    blocks: u32,
    file: &mut PageFile,
    disk: &mut D,
    group: &Group<R>,
) -> Result<(), WorkFault>
    requires ready { IsReadyAt (1 + blocks + group.now.first) file.old }
    requires suits { IfSome (D.trace disk.old) (λ t. Suits file.old t.now.contents) }
    requires few { blocks < 2 ^ 32 }
    requires ring { rows.now.ring ≡ ring.now }
    requires few_rows { length rows.now.rows ≤ 2048 }
    requires group { IsGroup (R.has ring.now) (length rows.now.rows) group.now.first group.now.end group.now.combinations.items }
    requires order { group.now.first ≤ group.now.end }
    ensures ready { OnOk result (IsReadyAt (1 + blocks + group.now.end) file.new) }
    ensures suits { OnOk result (IfSome (D.trace disk.new) (λ t. Suits file.new t.now.contents)) }
    ensures keeps { (columns : ColumnList) (course : Course) → blocks ≡ block_count (count_of columns)
        → AreReady (R.modulus ring.now) (R.value ring.now) columns course (1 + blocks + group.now.first) group.now.first rows.now.rows group.now.combinations.items (D.trace disk.old)
        → Keeps course.pages (1 + blocks + group.now.first) (D.trace disk.old) (D.trace disk.new) }
    ensures holds { (columns : ColumnList) (course : Course) → blocks ≡ block_count (count_of columns)
        → AreReady (R.modulus ring.now) (R.value ring.now) columns course (1 + blocks + group.now.first) group.now.first rows.now.rows group.now.combinations.items (D.trace disk.old)
        → OnOk result (Holds course.pages (1 + blocks + group.now.end) (D.trace disk.new)) }
    ensures fault { (columns : ColumnList) (course : Course) → blocks ≡ block_count (count_of columns)
        → AreReady (R.modulus ring.now) (R.value ring.now) columns course (1 + blocks + group.now.first) group.now.first rows.now.rows group.now.combinations.items (D.trace disk.old)
        → IfErr result (HasCauseIn (Rose (D.faults disk.old) (D.faults disk.new)) (D.trace disk.old ≡ None) (λ _ _. ⊥)) }
    ensures untold { D.trace disk.old ≡ None → D.trace disk.new ≡ None }
    ensures disk_fault { IsErrOf result WorkFault.DiskFault → Rose (D.faults disk.old) (D.faults disk.new) }
    ensures faults { D.faults disk.old ≤ D.faults disk.new }
{
    for place in group.first..group.end {
        if let Err(fault) = seal_final(alloc, ring, rows, blocks, file, disk, group, place) {
            return Err(fault);
        }
    }
    Ok(())
}

// Makes the group of the final pages from a place to below another, and seals them.
fn seal_group<D: Disk, R: Ring>(
    alloc: Global,
    ring: &R,
    sealed: &KeptRows<R>,
    blocks: u32,
    file: &mut PageFile,
    disk: &mut D,
    finals: &Uses<R>,
    first: u32,
    end: u32,
) -> Result<(), WorkFault>
    requires ready { IsReadyAt (1 + blocks + first) file.old }
    requires suits { IfSome (D.trace disk.old) (λ t. Suits file.old t.now.contents) }
    requires few { blocks < 2 ^ 32 }
    requires rows { AreRows (R.has ring.now) (64 * blocks) sealed.now.numbers.items sealed.now.rows.items }
    requires ring { finals.now.rows.ring ≡ ring.now }
    requires uses { length finals.now.uses.items ≡ length finals.now.rows.rows }
    requires in_ring { AllIns (R.has ring.now) finals.now.uses.items }
    requires order { first < end }
    requires within { end ≤ block_count (length finals.now.rows.rows) }
    requires few_rows { length finals.now.rows.rows ≤ 2048 }
    ensures ready { OnOk result (IsReadyAt (1 + blocks + end) file.new) }
    ensures suits { OnOk result (IfSome (D.trace disk.new) (λ t. Suits file.new t.now.contents)) }
    ensures keeps { (columns : ColumnList) (course : Course) → blocks ≡ block_count (count_of columns)
        → AreFinals (R.modulus ring.now) (R.value ring.now) columns course (1 + blocks + first) sealed.now.numbers.items sealed.now.rows.items finals.now.rows.rows finals.now.uses.items (D.trace disk.old)
        → Keeps course.pages (1 + blocks + first) (D.trace disk.old) (D.trace disk.new) }
    ensures holds { (columns : ColumnList) (course : Course) → blocks ≡ block_count (count_of columns)
        → AreFinals (R.modulus ring.now) (R.value ring.now) columns course (1 + blocks + first) sealed.now.numbers.items sealed.now.rows.items finals.now.rows.rows finals.now.uses.items (D.trace disk.old)
        → OnOk result (Holds course.pages (1 + blocks + end) (D.trace disk.new)) }
    ensures fault { (columns : ColumnList) (course : Course) → blocks ≡ block_count (count_of columns)
        → AreFinals (R.modulus ring.now) (R.value ring.now) columns course (1 + blocks + first) sealed.now.numbers.items sealed.now.rows.items finals.now.rows.rows finals.now.uses.items (D.trace disk.old)
        → IfErr result (HasCauseIn (Rose (D.faults disk.old) (D.faults disk.new)) (D.trace disk.old ≡ None) (λ _ _. ⊥)) }
    ensures untold { D.trace disk.old ≡ None → D.trace disk.new ≡ None }
    ensures disk_fault { IsErrOf result WorkFault.DiskFault → Rose (D.faults disk.old) (D.faults disk.new) }
    ensures faults { D.faults disk.old ≤ D.faults disk.new }
{
    let group = match made_group(alloc, ring, sealed, blocks, file, disk, finals, first, end) {
        Ok(group) => group,
        Err(fault) => return Err(fault),
    };
    seal_pages(alloc, ring, &finals.rows, blocks, file, disk, &group)
}

// Seals the final pages from a place on, and the last one, if it is not sealed.
pub(crate) fn seal_finals<D: Disk, R: Ring>(
    alloc: Global,
    ring: &R,
    sealed: &KeptRows<R>,
    blocks: u32,
    file: &mut PageFile,
    disk: &mut D,
    finals: &Uses<R>,
    first: u32,
) -> Result<(), WorkFault>
    requires ready { IsReadyAt (1 + blocks + first) file.old }
    requires from { first ≤ block_count (length finals.now.rows.rows) + 1 }
    requires suits { IfSome (D.trace disk.old) (λ t. Suits file.old t.now.contents) }
    requires few { blocks < 2 ^ 32 }
    requires rows { AreRows (R.has ring.now) (64 * blocks) sealed.now.numbers.items sealed.now.rows.items }
    requires ring { finals.now.rows.ring ≡ ring.now }
    requires uses { length finals.now.uses.items ≡ length finals.now.rows.rows }
    requires in_ring { AllIns (R.has ring.now) finals.now.uses.items }
    requires few_rows { length finals.now.rows.rows ≤ 2048 }
    ensures ready { OnOk result (IsReadyAt (2 + blocks + block_count (length finals.now.rows.rows)) file.new) }
    ensures keeps { (columns : ColumnList) (course : Course) → blocks ≡ block_count (count_of columns)
        → AreFinals (R.modulus ring.now) (R.value ring.now) columns course (1 + blocks + first) sealed.now.numbers.items sealed.now.rows.items finals.now.rows.rows finals.now.uses.items (D.trace disk.old)
        → Keeps course.pages (1 + blocks + first) (D.trace disk.old) (D.trace disk.new) }
    ensures holds { (columns : ColumnList) (course : Course) → blocks ≡ block_count (count_of columns)
        → AreFinals (R.modulus ring.now) (R.value ring.now) columns course (1 + blocks + first) sealed.now.numbers.items sealed.now.rows.items finals.now.rows.rows finals.now.uses.items (D.trace disk.old)
        → OnOk result (Holds course.pages (length course.pages) (D.trace disk.new)) }
    ensures fault { (columns : ColumnList) (course : Course) → blocks ≡ block_count (count_of columns)
        → AreFinals (R.modulus ring.now) (R.value ring.now) columns course (1 + blocks + first) sealed.now.numbers.items sealed.now.rows.items finals.now.rows.rows finals.now.uses.items (D.trace disk.old)
        → IfErr result (HasCauseIn (Rose (D.faults disk.old) (D.faults disk.new)) (D.trace disk.old ≡ None) (λ _ _. ⊥)) }
    ensures untold { D.trace disk.old ≡ None → D.trace disk.new ≡ None }
    ensures disk_fault { IsErrOf result WorkFault.DiskFault → Rose (D.faults disk.old) (D.faults disk.new) }
    ensures faults { D.faults disk.old ≤ D.faults disk.new }
{
    let count = finals.rows.len();
    let end = (count + 63) / 64;
    if first > end {
        return Ok(());
    }
    let size = pages_in_group(&sealed.numbers);
    let mut place = first;
    while place < end {
        let next = place + size.min(end - place);
        if let Err(fault) = seal_group(
            alloc, ring, sealed, blocks, file, disk, finals, place, next,
        ) {
            return Err(fault);
        }
        place = next;
    }
    let last = Page::Done { rows: count as u16 };
    seal(file, disk, &last)
}

//! The final pages of a file, compared with those that its forward rows give.
ghost use Rattle.std.specs.Prelude.{◌≡◌, ◌↔◌, ◌<◌, ◌≤◌, ◌+◌, ◌*◌, ◌^◌, ℕ, List, IsTrue, IsErrOf, None, Some, IfOk, IfErr, IfSome, OnOk, length, slice_get};
ghost use Rattle.outside_io.specs.Causes.{Rose};
ghost use Rattle.column_order.specs.Columns.{ColumnList};
ghost use Rattle.page_codec.specs.declared.page.Page.{Page};
ghost use Rattle.page_codec.specs.declared.page.Page.TheVariants.{Done};
ghost use Rattle.page_codec.specs.Bounds.{IsPage};
ghost use Rattle.page_codec.specs.Places.{block_count};
ghost use Rattle.page_file.specs.Notes.{Suits, count_of as page_count};
ghost use Rattle.echelon.specs.States.{AllIns};
ghost use Rattle.table_model.specs.ListedSpan.{count_of};
ghost use Rattle.file_model.specs.Resuming.{Differs};
ghost use Rattle.table_build.specs.Inner.{Course, AreRows, AreFirst, AreFirstUpTo, AreRecorded, HaveFinals, IfSealed, IsCompareFault, IsGroup};

use crate::block::KeptRows;
use crate::fault::{WorkFault, work_fault};
use crate::groups::{Group, made_group, page_of_group, pages_in_group};
use echelon::{ReducedRows, Uses};
use outside_io::Disk;
use page_codec::{Page, encode, is_page};
use page_file::PageFile;
use residues::Ring;
use std::alloc::{AllocError, Global};

// Whether they are the same page.
fn is_same(alloc: Global, made: &Page, read: &Page) -> Result<bool, AllocError>
    requires { IsPage read.now }
    ensures { IfOk result (λ same. IsTrue same ↔ (made.now ≡ read.now)) }
{
    if !is_page(made) {
        return Ok(false);
    }
    let mut spelling = Vec::new(alloc);
    encode(made, &mut spelling)?;
    let mut other = Vec::new(alloc);
    encode(read, &mut other)?;
    Ok(spelling.as_slice() == other.as_slice())
}

// Compares the sealed page of this number with the one that is made.
fn compare_page<D: Disk>(
    alloc: Global,
    made: &Page,
    file: &mut PageFile,
    disk: &mut D,
    number: u64,
) -> Result<(), WorkFault>
    requires live { IsTrue file.old.is_live }
    requires suits { IfSome (D.trace disk.old) (λ t. Suits file.old t.now.contents) }
    requires within { number < page_count file.old }
    ensures first { (pages : List Page) → IfSome (D.trace disk.old) (λ t. slice_get pages number ≡ Some made.now)
        → AreFirstUpTo pages number (D.trace disk.old) → OnOk result (AreFirstUpTo pages (1 + number) (D.trace disk.old)) }
    ensures fault { (pages : List Page) → IfSome (D.trace disk.old) (λ t. slice_get pages number ≡ Some made.now)
        → AreFirstUpTo pages number (D.trace disk.old)
        → IfErr result (IsCompareFault (Rose (D.faults disk.old) (D.faults disk.new)) (D.trace disk.old ≡ None)
        (λ i. IfSealed (λ sealed. Differs sealed pages i) (D.trace disk.old))) }
    ensures same { file.new ≡ file.old }
    ensures disk { D.trace disk.new ≡ D.trace disk.old }
    ensures disk_fault { IsErrOf result WorkFault.DiskFault → Rose (D.faults disk.old) (D.faults disk.new) }
    ensures faults { D.faults disk.old ≤ D.faults disk.new }
{
    let read = match file.page(disk, number) {
        Ok(read) => read,
        Err(fault) => return Err(work_fault(fault)),
    };
    match is_same(alloc, made, &read) {
        Ok(true) => Ok(()),
        Ok(false) => Err(WorkFault::Differs(number)),
        Err(fault) => Err(WorkFault::Memory(fault)),
    }
}

// Compares the sealed page of a place with that of a group.
fn compare_final<D: Disk, R: Ring>(
    alloc: Global,
    ring: &R,
    rows: &ReducedRows<R>,
    blocks: u32,
    file: &mut PageFile,
    disk: &mut D,
    group: &Group<R>,
    place: u32,
) -> Result<(), WorkFault>
    requires live { IsTrue file.old.is_live }
    requires suits { IfSome (D.trace disk.old) (λ t. Suits file.old t.now.contents) }
    requires few { blocks < 2 ^ 32 }
    requires ring { rows.now.ring ≡ ring.now }
    requires few_rows { length rows.now.rows ≤ 2048 }
    requires group { IsGroup (R.has ring.now) (length rows.now.rows) group.now.first group.now.end group.now.combinations.items }
    requires from { group.now.first ≤ place }
    requires below { place < group.now.end }
    requires sealed { 1 + blocks + place < page_count file.old }
    ensures first { (columns : ColumnList) (course : Course) → blocks ≡ block_count (count_of columns)
        → IfSome (D.trace disk.old) (λ t. AreRecorded (R.modulus ring.now) (R.value ring.now) columns course group.now.first rows.now.rows group.now.combinations.items)
        → AreFirstUpTo course.pages (1 + blocks + place) (D.trace disk.old) → OnOk result (AreFirstUpTo course.pages (2 + blocks + place) (D.trace disk.old)) }
    ensures fault { (columns : ColumnList) (course : Course) → blocks ≡ block_count (count_of columns)
        → IfSome (D.trace disk.old) (λ t. AreRecorded (R.modulus ring.now) (R.value ring.now) columns course group.now.first rows.now.rows group.now.combinations.items)
        → AreFirstUpTo course.pages (1 + blocks + place) (D.trace disk.old)
        → IfErr result (IsCompareFault (Rose (D.faults disk.old) (D.faults disk.new)) (D.trace disk.old ≡ None)
        (λ i. IfSealed (λ sealed. Differs sealed course.pages i) (D.trace disk.old))) }
    ensures same { file.new ≡ file.old }
    ensures disk { D.trace disk.new ≡ D.trace disk.old }
    ensures disk_fault { IsErrOf result WorkFault.DiskFault → Rose (D.faults disk.old) (D.faults disk.new) }
    ensures faults { D.faults disk.old ≤ D.faults disk.new }
{
    let made = match page_of_group(alloc, ring, rows, group, place) {
        Ok(made) => made,
        Err(fault) => return Err(WorkFault::Memory(fault)),
    };
    let number = u64::from(blocks) + 1 + u64::from(place);
    compare_page(alloc, &made, file, disk, number)
}

// Compares the sealed pages of its places with those of a group.
fn compare_places<D: Disk, R: Ring>(
    alloc: Global,
    ring: &R,
    rows: &ReducedRows<R>,
    blocks: u32,
    file: &mut PageFile,
    disk: &mut D,
    group: &Group<R>,
) -> Result<(), WorkFault>
    requires live { IsTrue file.old.is_live }
    requires suits { IfSome (D.trace disk.old) (λ t. Suits file.old t.now.contents) }
    requires few { blocks < 2 ^ 32 }
    requires ring { rows.now.ring ≡ ring.now }
    requires few_rows { length rows.now.rows ≤ 2048 }
    requires group { IsGroup (R.has ring.now) (length rows.now.rows) group.now.first group.now.end group.now.combinations.items }
    requires order { group.now.first ≤ group.now.end }
    requires sealed { 1 + blocks + group.now.end ≤ page_count file.old }
    ensures first { (columns : ColumnList) (course : Course) → blocks ≡ block_count (count_of columns)
        → IfSome (D.trace disk.old) (λ t. AreRecorded (R.modulus ring.now) (R.value ring.now) columns course group.now.first rows.now.rows group.now.combinations.items)
        → AreFirstUpTo course.pages (1 + blocks + group.now.first) (D.trace disk.old) → OnOk result (AreFirstUpTo course.pages (1 + blocks + group.now.end) (D.trace disk.old)) }
    ensures fault { (columns : ColumnList) (course : Course) → blocks ≡ block_count (count_of columns)
        → IfSome (D.trace disk.old) (λ t. AreRecorded (R.modulus ring.now) (R.value ring.now) columns course group.now.first rows.now.rows group.now.combinations.items)
        → AreFirstUpTo course.pages (1 + blocks + group.now.first) (D.trace disk.old)
        → IfErr result (IsCompareFault (Rose (D.faults disk.old) (D.faults disk.new)) (D.trace disk.old ≡ None)
        (λ i. IfSealed (λ sealed. Differs sealed course.pages i) (D.trace disk.old))) }
    ensures same { file.new ≡ file.old }
    ensures disk { D.trace disk.new ≡ D.trace disk.old }
    ensures disk_fault { IsErrOf result WorkFault.DiskFault → Rose (D.faults disk.old) (D.faults disk.new) }
    ensures faults { D.faults disk.old ≤ D.faults disk.new }
{
    for place in group.first..group.end {
        if let Err(fault) = compare_final(alloc, ring, rows, blocks, file, disk, group, place) {
            return Err(fault);
        }
    }
    Ok(())
}

// Makes the group of the final pages from a place to below another, and compares them with those that are sealed.
fn compare_group<D: Disk, R: Ring>(
    alloc: Global,
    ring: &R,
    kept: &KeptRows<R>,
    blocks: u32,
    file: &mut PageFile,
    disk: &mut D,
    finals: &Uses<R>,
    first: u32,
    end: u32,
) -> Result<(), WorkFault>
    requires live { IsTrue file.old.is_live }
    requires suits { IfSome (D.trace disk.old) (λ t. Suits file.old t.now.contents) }
    requires few { blocks < 2 ^ 32 }
    requires rows { AreRows (R.has ring.now) (64 * blocks) kept.now.numbers.items kept.now.rows.items }
    requires ring { finals.now.rows.ring ≡ ring.now }
    requires uses { length finals.now.uses.items ≡ length finals.now.rows.rows }
    requires in_ring { AllIns (R.has ring.now) finals.now.uses.items }
    requires few_rows { length finals.now.rows.rows ≤ 2048 }
    requires order { first < end }
    requires within { end ≤ block_count (length finals.now.rows.rows) }
    requires sealed { 1 + blocks + end ≤ page_count file.old }
    ensures first { (columns : ColumnList) (course : Course) → blocks ≡ block_count (count_of columns)
        → HaveFinals (R.modulus ring.now) (R.value ring.now) columns course blocks kept.now.numbers.items kept.now.rows.items finals.now.rows.rows finals.now.uses.items (D.trace disk.old)
        → AreFirstUpTo course.pages (1 + blocks + first) (D.trace disk.old) → OnOk result (AreFirstUpTo course.pages (1 + blocks + end) (D.trace disk.old)) }
    ensures fault { (columns : ColumnList) (course : Course) → blocks ≡ block_count (count_of columns)
        → HaveFinals (R.modulus ring.now) (R.value ring.now) columns course blocks kept.now.numbers.items kept.now.rows.items finals.now.rows.rows finals.now.uses.items (D.trace disk.old)
        → AreFirstUpTo course.pages (1 + blocks + first) (D.trace disk.old)
        → IfErr result (IsCompareFault (Rose (D.faults disk.old) (D.faults disk.new)) (D.trace disk.old ≡ None)
        (λ i. IfSealed (λ sealed. Differs sealed course.pages i) (D.trace disk.old))) }
    ensures same { file.new ≡ file.old }
    ensures disk { D.trace disk.new ≡ D.trace disk.old }
    ensures disk_fault { IsErrOf result WorkFault.DiskFault → Rose (D.faults disk.old) (D.faults disk.new) }
    ensures faults { D.faults disk.old ≤ D.faults disk.new }
{
    let group = match made_group(alloc, ring, kept, blocks, file, disk, finals, first, end) {
        Ok(group) => group,
        Err(fault) => return Err(fault),
    };
    compare_places(alloc, ring, &finals.rows, blocks, file, disk, &group)
}

// Compares the sealed final pages of the places below one with those that the rows give.
fn compare_finals<D: Disk, R: Ring>(
    alloc: Global,
    ring: &R,
    kept: &KeptRows<R>,
    blocks: u32,
    file: &mut PageFile,
    disk: &mut D,
    finals: &Uses<R>,
    end: u32,
) -> Result<(), WorkFault>
    requires live { IsTrue file.old.is_live }
    requires suits { IfSome (D.trace disk.old) (λ t. Suits file.old t.now.contents) }
    requires few { blocks < 2 ^ 32 }
    requires rows { AreRows (R.has ring.now) (64 * blocks) kept.now.numbers.items kept.now.rows.items }
    requires ring { finals.now.rows.ring ≡ ring.now }
    requires uses { length finals.now.uses.items ≡ length finals.now.rows.rows }
    requires in_ring { AllIns (R.has ring.now) finals.now.uses.items }
    requires few_rows { length finals.now.rows.rows ≤ 2048 }
    requires within { end ≤ block_count (length finals.now.rows.rows) }
    requires sealed { 1 + blocks + end ≤ page_count file.old }
    ensures first { (columns : ColumnList) (course : Course) → blocks ≡ block_count (count_of columns)
        → HaveFinals (R.modulus ring.now) (R.value ring.now) columns course blocks kept.now.numbers.items kept.now.rows.items finals.now.rows.rows finals.now.uses.items (D.trace disk.old)
        → AreFirstUpTo course.pages (1 + blocks) (D.trace disk.old) → OnOk result (AreFirstUpTo course.pages (1 + blocks + end) (D.trace disk.old)) }
    ensures fault { (columns : ColumnList) (course : Course) → blocks ≡ block_count (count_of columns)
        → HaveFinals (R.modulus ring.now) (R.value ring.now) columns course blocks kept.now.numbers.items kept.now.rows.items finals.now.rows.rows finals.now.uses.items (D.trace disk.old)
        → AreFirstUpTo course.pages (1 + blocks) (D.trace disk.old)
        → IfErr result (IsCompareFault (Rose (D.faults disk.old) (D.faults disk.new)) (D.trace disk.old ≡ None)
        (λ i. IfSealed (λ sealed. Differs sealed course.pages i) (D.trace disk.old))) }
    ensures same { file.new ≡ file.old }
    ensures disk { D.trace disk.new ≡ D.trace disk.old }
    ensures disk_fault { IsErrOf result WorkFault.DiskFault → Rose (D.faults disk.old) (D.faults disk.new) }
    ensures faults { D.faults disk.old ≤ D.faults disk.new }
{
    let size = pages_in_group(&kept.numbers);
    let mut place = 0;
    while place < end {
        let next = place + size.min(end - place);
        if let Err(fault) = compare_group(
            alloc, ring, kept, blocks, file, disk, finals, place, next,
        ) {
            return Err(fault);
        }
        place = next;
    }
    Ok(())
}

// Compares the sealed page of this number with the last one of a table of so many final rows.
fn compare_last<D: Disk>(
    alloc: Global,
    count: u32,
    file: &mut PageFile,
    disk: &mut D,
    number: u64,
) -> Result<(), WorkFault>
    requires live { IsTrue file.old.is_live }
    requires suits { IfSome (D.trace disk.old) (λ t. Suits file.old t.now.contents) }
    requires few { count ≤ 2048 }
    requires within { number < page_count file.old }
    ensures first { (pages : List Page) → slice_get pages number ≡ Some (Done count)
        → AreFirstUpTo pages number (D.trace disk.old) → OnOk result (AreFirstUpTo pages (1 + number) (D.trace disk.old)) }
    ensures fault { (pages : List Page) → slice_get pages number ≡ Some (Done count)
        → AreFirstUpTo pages number (D.trace disk.old)
        → IfErr result (IsCompareFault (Rose (D.faults disk.old) (D.faults disk.new)) (D.trace disk.old ≡ None)
        (λ i. IfSealed (λ sealed. Differs sealed pages i) (D.trace disk.old))) }
    ensures same { file.new ≡ file.old }
    ensures disk { D.trace disk.new ≡ D.trace disk.old }
    ensures disk_fault { IsErrOf result WorkFault.DiskFault → Rose (D.faults disk.old) (D.faults disk.new) }
    ensures faults { D.faults disk.old ≤ D.faults disk.new }
{
    let last = Page::Done { rows: count as u16 };
    compare_page(alloc, &last, file, disk, number)
}

// Compares so many pages behind the forward pages with those that the rows give.
pub(crate) fn compare_pages<D: Disk, R: Ring>(
    alloc: Global,
    ring: &R,
    kept: &KeptRows<R>,
    blocks: u32,
    file: &mut PageFile,
    disk: &mut D,
    finals: &Uses<R>,
    sealed: u32,
) -> Result<(), WorkFault>
    requires live { IsTrue file.old.is_live }
    requires suits { IfSome (D.trace disk.old) (λ t. Suits file.old t.now.contents) }
    requires few { blocks < 2 ^ 32 }
    requires rows { AreRows (R.has ring.now) (64 * blocks) kept.now.numbers.items kept.now.rows.items }
    requires ring { finals.now.rows.ring ≡ ring.now }
    requires uses { length finals.now.uses.items ≡ length finals.now.rows.rows }
    requires in_ring { AllIns (R.has ring.now) finals.now.uses.items }
    requires few_rows { length finals.now.rows.rows ≤ 2048 }
    requires sealed { 1 + blocks + sealed ≡ page_count file.old }
    ensures few { OnOk result (sealed ≤ block_count (length finals.now.rows.rows) + 1) }
    ensures first { (columns : ColumnList) (course : Course) → blocks ≡ block_count (count_of columns)
        → HaveFinals (R.modulus ring.now) (R.value ring.now) columns course blocks kept.now.numbers.items kept.now.rows.items finals.now.rows.rows finals.now.uses.items (D.trace disk.old)
        → AreFirstUpTo course.pages (1 + blocks) (D.trace disk.old) → OnOk result (AreFirst course.pages (D.trace disk.old)) }
    ensures fault { (columns : ColumnList) (course : Course) → blocks ≡ block_count (count_of columns)
        → HaveFinals (R.modulus ring.now) (R.value ring.now) columns course blocks kept.now.numbers.items kept.now.rows.items finals.now.rows.rows finals.now.uses.items (D.trace disk.old)
        → AreFirstUpTo course.pages (1 + blocks) (D.trace disk.old)
        → IfErr result (IsCompareFault (Rose (D.faults disk.old) (D.faults disk.new)) (D.trace disk.old ≡ None)
        (λ i. IfSealed (λ sealed. Differs sealed course.pages i) (D.trace disk.old))) }
    ensures same { file.new ≡ file.old }
    ensures disk { D.trace disk.new ≡ D.trace disk.old }
    ensures disk_fault { IsErrOf result WorkFault.DiskFault → Rose (D.faults disk.old) (D.faults disk.new) }
    ensures faults { D.faults disk.old ≤ D.faults disk.new }
{
    let count = finals.rows.len();
    let end = (count + 63) / 64;
    if let Err(fault) = compare_finals(
        alloc,
        ring,
        kept,
        blocks,
        file,
        disk,
        finals,
        sealed.min(end),
    ) {
        return Err(fault);
    }
    if sealed <= end {
        return Ok(());
    }
    let number = u64::from(blocks) + 1 + u64::from(end);
    if let Err(fault) = compare_last(alloc, count, file, disk, number) {
        return Err(fault);
    }
    if sealed > end + 1 {
        return Err(WorkFault::Differs(number + 1));
    }
    Ok(())
}

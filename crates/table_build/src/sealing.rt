//! Pages of rows, made and sealed.
ghost use Rattle.std.specs.Prelude.{◌≡◌, ℕ, suc, ◌+◌, ◌*◌, ◌^◌, ◌<◌, ◌≤◌, ◌++◌, List, [], Some, None, IsTrue, IsErrOf, IsSome, length, get_or, slice_get, IfOk, IfErr, IfSome, OnOk};
ghost use Rattle.outside_io.specs.Causes.{Rose};
ghost use Rattle.linear_model.specs.Rows.{combination, SameRow};
ghost use Rattle.column_order.specs.Columns.{ColumnList};
ghost use Rattle.page_codec.specs.declared.parts.ForwardEntry.{ForwardEntry};
ghost use Rattle.page_codec.specs.declared.page.Page.{Page};
ghost use Rattle.page_codec.specs.Bounds.{IsPage};
ghost use Rattle.page_rows.specs.Written.{written};
ghost use Rattle.page_file.specs.Files.{IsSealed};
ghost use Rattle.page_file.specs.Notes.{Suits, count_of as page_count, header_of};
ghost use Rattle.echelon.specs.Lists.{row_at};
ghost use Rattle.echelon.specs.Offers.{used_at};
ghost use Rattle.echelon.specs.States.{AllIns};
ghost use Rattle.table_build.specs.Faults.{HasCauseIn};
ghost use Rattle.table_build.specs.Inner.{Course, AreSums, AreRows, AllKept, IsBlock, IsEntryOf, IsPageOfRows, IsReadyAt, Holds, Keeps, sealed_combination};

use crate::block::{Block, KeptRows};
use crate::fault::{WorkFault, work_fault};
use crate::rereading::with_sealed;
use crate::summing::added_in_turn;
use outside_io::Disk;
use page_codec::{ForwardEntries, ForwardEntry, ForwardPage, Page, is_page};
use page_file::PageFile;
use page_rows::{data_of_combination, data_of_row};
use residues::Ring;
use sparse_rows::Combination;
use std::alloc::{AllocError, Global};

// Seals a page behind the others. What is no page is not sealed.
pub(crate) fn seal<D: Disk>(file: &mut PageFile, disk: &mut D, page: &Page) -> Result<(), WorkFault>
    requires ready { (k : ℕ) × IsReadyAt k file.old × (k < 2 ^ 40) × (k ≡ 0 → IsSome (header_of page.now)) }
    requires suits { IfSome (D.trace disk.old) (λ t. Suits file.old t.now.contents) }
    ensures ready { (k : ℕ) → IsReadyAt k file.old → OnOk result (IsReadyAt (suc k) file.new) }
    ensures suits { OnOk result (IfSome (D.trace disk.new) (λ t. Suits file.new t.now.contents)) }
    ensures keeps { (pages : List Page) (k : ℕ) → slice_get pages k ≡ Some page.now → Holds pages k (D.trace disk.old) → Keeps pages k (D.trace disk.old) (D.trace disk.new) }
    ensures holds { (pages : List Page) (k : ℕ) → slice_get pages k ≡ Some page.now → Holds pages k (D.trace disk.old) → OnOk result (Holds pages (suc k) (D.trace disk.new)) }
    ensures fault { IfErr result (HasCauseIn (Rose (D.faults disk.old) (D.faults disk.new)) (¬ (IsPage page.now)) (λ _ _. ⊥)) }
    ensures untold { D.trace disk.old ≡ None → D.trace disk.new ≡ None }
    ensures disk_fault { IsErrOf result WorkFault.DiskFault → Rose (D.faults disk.old) (D.faults disk.new) }
    ensures faults { D.faults disk.old ≤ D.faults disk.new }
{
    if !is_page(page) {
        return Err(WorkFault::Differs(file.count()));
    }
    match file.seal(disk, page) {
        Ok(()) => Ok(()),
        Err(fault) => Err(work_fault(fault)),
    }
}

// The entries of a forward page: the rows, each with its number and its combination.
fn forward_entries<R: Ring>(
    alloc: Global,
    ring: &R,
    kept: &KeptRows<R>,
    combinations: &[Combination<R>],
) -> Result<Vec<ForwardEntry>, AllocError>
    requires rows { length kept.now.rows.items ≡ length kept.now.numbers.items }
    requires count { length combinations.now ≡ length kept.now.numbers.items }
    requires rows_in_ring { AllIns (R.has ring.now) kept.now.rows.items }
    requires in_ring { AllIns (R.has ring.now) combinations.now }
    ensures count { IfOk result (λ entries. length entries.items ≡ length kept.now.numbers.items) }
    ensures entries { IfOk result (λ entries. (i : ℕ) (e : ForwardEntry) → slice_get entries.items i ≡ Some e
        → IsEntryOf R.zero (R.value ring.now) (get_or kept.now.numbers.items i 0) (get_or kept.now.rows.items i []) (get_or combinations.now i []) e) }
{
    let mut entries = Vec::with_capacity(alloc, combinations.len())?;
    for i in 0..combinations.len() {
        let row = data_of_row(alloc, ring, &kept.rows[i])?;
        let combination = data_of_combination(alloc, ring, &combinations[i])?;
        entries.push(ForwardEntry {
            number: kept.numbers[i],
            row,
            combination,
        })?;
    }
    Ok(entries)
}

// The combinations of the rows of a block: by those that are sealed, and in turn by those of the block.
fn combinations_of<D: Disk, R: Ring>(
    alloc: Global,
    ring: &R,
    sealed: &KeptRows<R>,
    file: &mut PageFile,
    disk: &mut D,
    number: u32,
    numbers: &[u32],
    uses: &[Combination<R>],
    starts: Vec<Combination<R>>,
) -> Result<Vec<Combination<R>>, WorkFault>
    requires live { IsTrue file.old.is_live }
    requires suits { IfSome (D.trace disk.old) (λ t. Suits file.old t.now.contents) }
    requires within { number < page_count file.old }
    requires rows { AreRows (R.has ring.now) (64 * number) sealed.now.numbers.items sealed.now.rows.items }
    requires sums { AreSums (R.has ring.now) (length numbers.now) uses.now starts.items }
    ensures count { IfOk result (λ made. length made.items ≡ length numbers.now) }
    ensures in_ring { IfOk result (λ made. AllIns (R.has ring.now) made.items) }
    ensures told { IfOk result (λ made. IfSome (D.trace disk.old) (λ t. (pages : List Page) → IsSealed pages t.now.contents
        → (j : ℕ) → j < length numbers.now → SameRow (R.modulus ring.now) (row_at (R.value ring.now) made.items j) (λ q. row_at (R.value ring.now) starts.items j q
        + combination (length sealed.now.numbers.items) (λ i. sealed_combination pages (get_or sealed.now.numbers.items i 0)) (used_at (R.value ring.now) sealed.now.numbers.items (get_or uses.now j [])) q
        + combination j (row_at (R.value ring.now) made.items) (used_at (R.value ring.now) numbers.now (get_or uses.now j [])) q))) }
    ensures fault { IfErr result (HasCauseIn (Rose (D.faults disk.old) (D.faults disk.new)) (IfSome (D.trace disk.old) (λ t. (pages : List Page) → IsSealed pages t.now.contents
        → ¬ (AllKept (R.modulus ring.now) R.zero (R.value ring.now) number sealed.now.numbers.items sealed.now.rows.items pages))) (λ _ _. ⊥)) }
    ensures same { file.new ≡ file.old }
    ensures disk { D.trace disk.new ≡ D.trace disk.old }
    ensures disk_fault { IsErrOf result WorkFault.DiskFault → Rose (D.faults disk.old) (D.faults disk.new) }
    ensures faults { D.faults disk.old ≤ D.faults disk.new }
{
    let sums = match with_sealed(alloc, ring, sealed, number, file, disk, uses, starts) {
        Ok(sums) => sums,
        Err(fault) => return Err(fault),
    };
    match added_in_turn(alloc, ring, &sums, uses, numbers) {
        Ok(made) => Ok(made),
        Err(fault) => Err(WorkFault::Memory(fault)),
    }
}

// The page of a block.
fn forward_page<R: Ring>(
    alloc: Global,
    ring: &R,
    number: u32,
    kept: &KeptRows<R>,
    combinations: &[Combination<R>],
) -> Result<Page, AllocError>
    requires few { 64 * number < 2 ^ 32 }
    requires rows { length kept.now.rows.items ≡ length kept.now.numbers.items }
    requires count { length combinations.now ≡ length kept.now.numbers.items }
    requires rows_in_ring { AllIns (R.has ring.now) kept.now.rows.items }
    requires in_ring { AllIns (R.has ring.now) combinations.now }
    ensures { IfOk result (IsPageOfRows R.zero (R.value ring.now) number kept.now.numbers.items kept.now.rows.items combinations.now) }
{
    let entries = forward_entries(alloc, ring, kept, combinations)?;
    Ok(Page::Forward(ForwardPage {
        first: 64 * number,
        entries: ForwardEntries::from_vec(entries),
    }))
}

// Seals the page of a block behind the pages of the earlier ones, and keeps its rows.
pub(crate) fn seal_block<D: Disk, R: Ring>(
    alloc: Global,
    ring: &R,
    sealed: &mut KeptRows<R>,
    file: &mut PageFile,
    disk: &mut D,
    number: u32,
    block: Block<R>,
) -> Result<(), WorkFault>
    requires ready { IsReadyAt (1 + number) file.old }
    requires suits { IfSome (D.trace disk.old) (λ t. Suits file.old t.now.contents) }
    requires few { 64 * number < 2 ^ 32 }
    requires sealed_rows { AreRows (R.has ring.now) (64 * number) sealed.old.numbers.items sealed.old.rows.items }
    requires rows { AreRows (R.has ring.now) (64 * number + 64) block.kept.numbers.items block.kept.rows.items }
    requires behind { (i : ℕ) → i < length block.kept.numbers.items → 64 * number ≤ get_or block.kept.numbers.items i 0 }
    requires sums { AreSums (R.has ring.now) (length block.kept.numbers.items) block.uses.items block.starts.items }
    ensures ready { OnOk result (IsReadyAt (2 + number) file.new) }
    ensures suits { OnOk result (IfSome (D.trace disk.new) (λ t. Suits file.new t.now.contents)) }
    ensures numbers { OnOk result (sealed.new.numbers.items ≡ sealed.old.numbers.items ++ block.kept.numbers.items) }
    ensures rows { OnOk result (sealed.new.rows.items ≡ sealed.old.rows.items ++ block.kept.rows.items) }
    ensures keeps { (columns : ColumnList) (course : Course) → IsBlock (R.modulus ring.now) (R.value ring.now) columns course number
        sealed.old.numbers.items sealed.old.rows.items block.kept.numbers.items block.kept.rows.items block.uses.items block.starts.items (D.trace disk.old)
        → Keeps course.pages (1 + number) (D.trace disk.old) (D.trace disk.new) }
    ensures holds { (columns : ColumnList) (course : Course) → IsBlock (R.modulus ring.now) (R.value ring.now) columns course number
        sealed.old.numbers.items sealed.old.rows.items block.kept.numbers.items block.kept.rows.items block.uses.items block.starts.items (D.trace disk.old)
        → OnOk result (Holds course.pages (2 + number) (D.trace disk.new)) }
    ensures fault { (columns : ColumnList) (course : Course) → IsBlock (R.modulus ring.now) (R.value ring.now) columns course number
        sealed.old.numbers.items sealed.old.rows.items block.kept.numbers.items block.kept.rows.items block.uses.items block.starts.items (D.trace disk.old)
        → IfErr result (HasCauseIn (Rose (D.faults disk.old) (D.faults disk.new)) (D.trace disk.old ≡ None) (λ _ _. ⊥)) }
    ensures untold { D.trace disk.old ≡ None → D.trace disk.new ≡ None }
    ensures disk_fault { IsErrOf result WorkFault.DiskFault → Rose (D.faults disk.old) (D.faults disk.new) }
    ensures faults { D.faults disk.old ≤ D.faults disk.new }
{
    let Block { kept, starts, uses } = block;
    let made = combinations_of(
        alloc,
        ring,
        sealed,
        file,
        disk,
        number,
        &kept.numbers,
        &uses,
        starts,
    );
    let combinations = match made {
        Ok(combinations) => combinations,
        Err(fault) => return Err(fault),
    };
    let page = match forward_page(alloc, ring, number, &kept, &combinations) {
        Ok(page) => page,
        Err(fault) => return Err(WorkFault::Memory(fault)),
    };
    if let Err(fault) = seal(file, disk, &page) {
        return Err(fault);
    }
    match sealed.append(kept) {
        Ok(()) => Ok(()),
        Err(fault) => Err(WorkFault::Memory(fault)),
    }
}

//! Groups of final pages: the combinations of their rows are made in one walk over the sealed forward pages.
ghost use Rattle.std.specs.Prelude.{◌≡◌, ℕ, ◌+◌, ◌*◌, ◌^◌, ◌<◌, ◌≤◌, List, [], Some, None, IsTrue, IsErrOf, length, get_or, slice_get, IfOk, IfErr, IfSome};
ghost use Rattle.outside_io.specs.Causes.{Rose};
ghost use Rattle.column_order.specs.Columns.{ColumnList};
ghost use Rattle.page_codec.specs.Places.{block_count};
ghost use Rattle.page_file.specs.Notes.{Suits, count_of as page_count};
ghost use Rattle.echelon.specs.States.{AllIns};
ghost use Rattle.table_model.specs.ListedSpan.{count_of};
ghost use Rattle.table_build.specs.Faults.{HasCauseIn};
ghost use Rattle.table_build.specs.Inner.{Course, AreRising, AreRows, AreRecorded, HaveFinals, IsGroup, IsPageOfFinals};

use crate::block::KeptRows;
use crate::fault::WorkFault;
use crate::rereading::with_sealed;
use crate::totals::bound_of;
use echelon::{ReducedRows, Uses};
use outside_io::Disk;
use page_codec::{FinalEntries, FinalEntry, FinalPage, Page};
use page_file::PageFile;
use page_rows::{data_of_combination, data_of_row};
use residues::Ring;
use sparse_rows::Combination;
use std::alloc::{AllocError, Global};

// The accumulators of a group: each of its rows has one for each number. At 16 bytes each they take 27 MiB at most, and the combinations that
// come of them about as much. A walk decodes all sealed forward pages, so that fewer groups take less time, and more of them less memory:
// the table of weight 12 and depth 11 is one group.
const ACCUMULATORS: usize = 1769472;

// The combinations of the final rows on the pages of the places from `first` to below `end`.
#[derive(Drop)]
pub(crate) struct Group<R: Ring> {
    pub(crate) first: u32,
    pub(crate) end: u32,
    pub(crate) combinations: Vec<Combination<R>>,
}

// How many final pages a group has, where the forward rows have these numbers.
pub(crate) fn pages_in_group(numbers: &[u32]) -> u32
    requires rising { AreRising numbers.now }
    ensures some { 0 < result }
{
    let accumulators = 64 * bound_of(numbers).max(1);
    (ACCUMULATORS / accumulators).max(1) as u32
}

// Combinations without pairs.
fn zeros<R: Ring>(alloc: Global, count: usize) -> Result<Vec<Combination<R>>, AllocError>
    ensures count { IfOk result (λ zeros. length zeros.items ≡ count) }
    ensures zero { IfOk result (λ zeros. (i : ℕ) → get_or zeros.items i [] ≡ []) }
{
    let mut zeros = Vec::with_capacity(alloc, count)?;
    while zeros.len() < count {
        zeros.push(Combination::zero(alloc))?;
    }
    Ok(zeros)
}

// The final page of the rows from 64 times `place` on, with these combinations.
fn final_page<R: Ring>(
    alloc: Global,
    ring: &R,
    rows: &ReducedRows<R>,
    place: u32,
    combinations: &[Combination<R>],
) -> Result<Page, AllocError>
    requires within { 64 * place + length combinations.now ≤ length rows.now.rows }
    requires few { 64 * place < 2 ^ 16 }
    requires block { length combinations.now ≤ 64 }
    requires ring { rows.now.ring ≡ ring.now }
    requires in_ring { AllIns (R.has ring.now) combinations.now }
    ensures { IfOk result (IsPageOfFinals (R.has ring.now) R.zero (R.value ring.now) place rows.now.rows combinations.now) }
{
    let mut entries = Vec::with_capacity(alloc, combinations.len())?;
    for i in 0..combinations.len() {
        let row = data_of_row(alloc, ring, rows.row(64 * place + i as u32))?;
        let combination = data_of_combination(alloc, ring, &combinations[i])?;
        entries.push(FinalEntry { row, combination })?;
    }
    Ok(Page::Final(FinalPage {
        first: (64 * place) as u16,
        entries: FinalEntries::from_vec(entries),
    }))
}

// The combinations of a group, which are made of the sealed ones.
pub(crate) fn made_group<D: Disk, R: Ring>(
    alloc: Global,
    ring: &R,
    sealed: &KeptRows<R>,
    blocks: u32,
    file: &mut PageFile,
    disk: &mut D,
    finals: &Uses<R>,
    first: u32,
    end: u32,
) -> Result<Group<R>, WorkFault>
    requires live { IsTrue file.old.is_live }
    requires suits { IfSome (D.trace disk.old) (λ t. Suits file.old t.now.contents) }
    requires sealed { blocks < page_count file.old }
    requires few { blocks < 2 ^ 32 }
    requires rows { AreRows (R.has ring.now) (64 * blocks) sealed.now.numbers.items sealed.now.rows.items }
    requires ring { finals.now.rows.ring ≡ ring.now }
    requires uses { length finals.now.uses.items ≡ length finals.now.rows.rows }
    requires in_ring { AllIns (R.has ring.now) finals.now.uses.items }
    requires order { first < end }
    requires within { end ≤ block_count (length finals.now.rows.rows) }
    ensures first { IfOk result (λ group. group.first ≡ first) }
    ensures end { IfOk result (λ group. group.end ≡ end) }
    ensures group { IfOk result (λ group. IsGroup (R.has ring.now) (length finals.now.rows.rows) first end group.combinations.items) }
    ensures recorded { (columns : ColumnList) (course : Course) → blocks ≡ block_count (count_of columns)
        → HaveFinals (R.modulus ring.now) (R.value ring.now) columns course blocks sealed.now.numbers.items sealed.now.rows.items finals.now.rows.rows finals.now.uses.items (D.trace disk.old)
        → IfOk result (λ group. IfSome (D.trace disk.old) (λ t. AreRecorded (R.modulus ring.now) (R.value ring.now) columns course first finals.now.rows.rows group.combinations.items)) }
    ensures fault { (columns : ColumnList) (course : Course) → blocks ≡ block_count (count_of columns)
        → HaveFinals (R.modulus ring.now) (R.value ring.now) columns course blocks sealed.now.numbers.items sealed.now.rows.items finals.now.rows.rows finals.now.uses.items (D.trace disk.old)
        → IfErr result (HasCauseIn (Rose (D.faults disk.old) (D.faults disk.new)) (D.trace disk.old ≡ None) (λ _ _. ⊥)) }
    ensures same { file.new ≡ file.old }
    ensures disk { D.trace disk.new ≡ D.trace disk.old }
    ensures disk_fault { IsErrOf result WorkFault.DiskFault → Rose (D.faults disk.old) (D.faults disk.new) }
    ensures faults { D.faults disk.old ≤ D.faults disk.new }
{
    let start = 64 * first as usize;
    let stop = finals.uses.len().min(64 * end as usize);
    let uses = &finals.uses[start..stop];
    let starts = match zeros(alloc, uses.len()) {
        Ok(starts) => starts,
        Err(fault) => return Err(WorkFault::Memory(fault)),
    };
    match with_sealed(alloc, ring, sealed, blocks, file, disk, uses, starts) {
        Ok(combinations) => Ok(Group {
            first,
            end,
            combinations,
        }),
        Err(fault) => Err(fault),
    }
}

// The final page of a place of a group.
pub(crate) fn page_of_group<R: Ring>(
    alloc: Global,
    ring: &R,
    rows: &ReducedRows<R>,
    group: &Group<R>,
    place: u32,
) -> Result<Page, AllocError>
    requires ring { rows.now.ring ≡ ring.now }
    requires few { length rows.now.rows ≤ 2048 }
    requires group { IsGroup (R.has ring.now) (length rows.now.rows) group.now.first group.now.end group.now.combinations.items }
    requires from { group.now.first ≤ place }
    requires below { place < group.now.end }
    ensures page { (columns : ColumnList) (course : Course)
        → AreRecorded (R.modulus ring.now) (R.value ring.now) columns course group.now.first rows.now.rows group.now.combinations.items
        → IfOk result (λ page. slice_get course.pages (1 + block_count (count_of columns) + place) ≡ Some page) }
{
    let start = 64 * (place - group.first) as usize;
    let stop = group.combinations.len().min(start + 64);
    final_page(alloc, ring, rows, place, &group.combinations[start..stop])
}

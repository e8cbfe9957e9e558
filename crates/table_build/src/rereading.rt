//! Combinations of forward rows, read again from the pages on which they are sealed.
ghost use Rattle.std.specs.Prelude.{◌≡◌, ◌↔◌, ℕ, ◌+◌, ◌-◌, ◌*◌, ◌/◌, ◌<◌, ◌≤◌, List, [], Some, IsTrue, length, get_or, slice_get, IfOk, IfErr, IfSome, OnOk};
ghost use Rattle.linear_model.specs.Rows.{combination, SameRow};
ghost use Rattle.outside_io.specs.Causes.{Rose};
ghost use Rattle.sparse_rows.specs.Entries.{IsRow, IsBelow, AllIn};
ghost use Rattle.row_sums.specs.Totals.{total_at};
ghost use Rattle.page_codec.specs.declared.page.Page.{Page};
ghost use Rattle.page_codec.specs.Places.{AreBelow};
ghost use Rattle.page_codec.specs.Bounds.{IsCombData};
ghost use Rattle.page_rows.specs.Written.{written, AreResidues};
ghost use Rattle.page_file.specs.Files.{IsSealed};
ghost use Rattle.page_file.specs.Notes.{Suits, count_of as page_count};
ghost use Rattle.echelon.specs.Lists.{entries_of, row_at};
ghost use Rattle.echelon.specs.Offers.{used_at};
ghost use Rattle.echelon.specs.States.{AllIns};
ghost use Rattle.file_model.specs.Pages.{pairs_of};
ghost use Rattle.file_model.specs.Resuming.{combination_in};
ghost use Rattle.table_build.specs.Faults.{HasCauseIn};
ghost use Rattle.table_build.specs.Inner.{AreSums, AreTotals, AreRows, AreRising, IsRun, IsKeptEntry, AreKeptEntries, IsKeptPage, AllKept, between, entries_on, sealed_combination};

use crate::block::KeptRows;
use crate::fault::{WorkFault, work_fault};
use crate::totals::{add_all_used, all_ended, no_totals};
use outside_io::Disk;
use page_codec::{CombData, ForwardEntry, Page, RowData};
use page_file::PageFile;
use page_rows::combination_of_data;
use residues::Ring;
use row_sums::RowSum;
use sparse_rows::{Combination, Row};
use std::alloc::{AllocError, Global};

// Whether the pairs are what is written of the row.
fn is_written<R: Ring>(ring: &R, row: &Row<R>, pairs: &RowData) -> bool
    requires in_ring { AllIn (R.has ring.now) row.now }
    ensures written { IsTrue result ↔ (pairs.now ≡ written (R.value ring.now) row.now) }
    ensures row { IsRow (λ k. k) R.zero 0 row.now }
{
    are_written(ring, row.entries(), pairs.as_slice())
}

// Whether the pairs have the keys of the entries, and the residues that their elements stand for.
fn are_written<R: Ring>(ring: &R, entries: &[(u16, R::Elem)], pairs: &[(u16, u64)]) -> bool
    requires in_ring { AllIn (R.has ring.now) entries.now }
    ensures { IsTrue result ↔ (pairs.now ≡ written (R.value ring.now) entries.now) }
{
    let mut row_left = entries;
    let mut pairs_left = pairs;
    while let Some((entry, row_behind)) = row_left.split_first() {
        let Some((pair, pairs_behind)) = pairs_left.split_first() else {
            return false;
        };
        if entry.0 != pair.0 || ring.value(entry.1) != pair.1 {
            return false;
        }
        row_left = row_behind;
        pairs_left = pairs_behind;
    }
    pairs_left.is_empty()
}

// Whether the combination has no number past this one, and residues of the ring.
fn fits<R: Ring>(ring: &R, number: u32, pairs: &CombData) -> bool
    ensures { IsTrue result ↔ AreBelow (number + 1) (R.modulus ring.now) pairs.now }
{
    let modulus = ring.modulus();
    pairs
        .as_slice()
        .iter()
        .all(|e| e.0 <= number && e.1 < modulus)
}

// Whether the entry is that of a row.
fn is_kept<R: Ring>(ring: &R, number: u32, row: &Row<R>, entry: &ForwardEntry) -> bool
    requires in_ring { AllIn (R.has ring.now) row.now }
    ensures { IsTrue result ↔ IsKeptEntry (R.modulus ring.now) R.zero (R.value ring.now) number row.now entry.now }
{
    entry.number == number
        && is_written(ring, row, &entry.row)
        && fits(ring, number, &entry.combination)
}

// Whether the entries are those of these rows.
fn are_kept<R: Ring>(ring: &R, numbers: &[u32], rows: &[Row<R>], entries: &[ForwardEntry]) -> bool
    requires count { length rows.now ≡ length numbers.now }
    requires in_ring { (i : ℕ) → i < length rows.now → AllIn (R.has ring.now) (get_or rows.now i []) }
    ensures { IsTrue result ↔ AreKeptEntries (R.modulus ring.now) R.zero (R.value ring.now) numbers.now rows.now entries.now }
{
    if entries.len() != numbers.len() {
        return false;
    }
    for i in 0..entries.len() {
        if !is_kept(ring, numbers[i], &rows[i], &entries[i]) {
            return false;
        }
    }
    true
}

// The combinations of the entries.
fn combinations_of<R: Ring>(
    alloc: Global,
    ring: &R,
    entries: &[ForwardEntry],
) -> Result<Vec<Combination<R>>, AllocError>
    requires residues { (i : ℕ) (e : _) → slice_get entries.now i ≡ Some e → AreResidues (λ k. k) (R.modulus ring.now) e.combination }
    ensures count { IfOk result (λ made. length made.items ≡ length entries.now) }
    ensures in_ring { IfOk result (λ made. AllIns (R.has ring.now) made.items) }
    ensures written { IfOk result (λ made. (i : ℕ) (e : _) → slice_get entries.now i ≡ Some e → written (R.value ring.now) (get_or made.items i []) ≡ e.combination) }
    ensures made { IfOk result (λ made. (i : ℕ) (e : _) → slice_get entries.now i ≡ Some e → (q : ℕ) → row_at (R.value ring.now) made.items i q ≡ pairs_of e.combination q) }
{
    let mut made = Vec::with_capacity(alloc, entries.len())?;
    for i in 0..entries.len() {
        let combination = combination_of_data(alloc, ring, &entries[i].combination)?;
        made.push(combination)?;
    }
    Ok(made)
}

// The combinations of the rows of a block, which are sealed on its page.
fn read_block<D: Disk, R: Ring>(
    alloc: Global,
    ring: &R,
    file: &mut PageFile,
    disk: &mut D,
    block: u32,
    numbers: &[u32],
    rows: &[Row<R>],
) -> Result<Vec<Combination<R>>, WorkFault>
    requires live { IsTrue file.old.is_live }
    requires suits { IfSome (D.trace disk.old) (λ t. Suits file.old t.now.contents) }
    requires within { 1 + block < page_count file.old }
    requires count { length rows.now ≡ length numbers.now }
    requires in_ring { (i : ℕ) → i < length rows.now → AllIn (R.has ring.now) (get_or rows.now i []) }
    requires rising { AreRising numbers.now }
    ensures count { IfOk result (λ made. length made.items ≡ length numbers.now) }
    ensures in_ring { IfOk result (λ made. AllIns (R.has ring.now) made.items) }
    ensures below { IfOk result (λ made. (i : ℕ) → i < length numbers.now → IsBelow (λ k. k) (get_or numbers.now i 0 + 1) (get_or made.items i [])) }
    ensures told { IfOk result (λ made. IfSome (D.trace disk.old) (λ t. (pages : List Page) → IsSealed pages t.now.contents
        → (i : ℕ) → i < length numbers.now → (q : ℕ) → row_at (R.value ring.now) made.items i q ≡ combination_in (entries_on (slice_get pages (1 + block))) (get_or numbers.now i 0) q)) }
    ensures fault { IfErr result (HasCauseIn (Rose (D.faults disk.old) (D.faults disk.new)) (IfSome (D.trace disk.old) (λ t. (pages : List Page) → IsSealed pages t.now.contents
        → (page : Page) → slice_get pages (1 + block) ≡ Some page → ¬ (IsKeptPage (R.modulus ring.now) R.zero (R.value ring.now) block numbers.now rows.now page))) (λ _ _. ⊥)) }
    ensures same { file.new ≡ file.old }
    ensures disk { D.trace disk.new ≡ D.trace disk.old }
    ensures faults { D.faults disk.old ≤ D.faults disk.new }
{
    let place = u64::from(block) + 1;
    let page = match file.page(disk, place) {
        Ok(page) => page,
        Err(fault) => return Err(work_fault(fault)),
    };
    let Page::Forward(page) = page else {
        return Err(WorkFault::Differs(place));
    };
    let entries = page.entries.as_slice();
    if u64::from(page.first) != 64 * u64::from(block) || !are_kept(ring, numbers, rows, entries) {
        return Err(WorkFault::Differs(place));
    }
    match combinations_of(alloc, ring, entries) {
        Ok(made) => Ok(made),
        Err(fault) => Err(WorkFault::Memory(fault)),
    }
}

// The place behind the rows of a block, of which the first would stand at `done`.
fn end_of_block(numbers: &[u32], block: u32, done: usize) -> usize
    requires within { done ≤ length numbers.now }
    requires rising { AreRising numbers.now }
    requires before { (i : ℕ) → i < done → get_or numbers.now i 0 < 64 * block }
    requires behind { (i : ℕ) → done ≤ i → i < length numbers.now → 64 * block ≤ get_or numbers.now i 0 }
    ensures { IsRun numbers.now block done result }
{
    for i in done..numbers.len() {
        if numbers[i] / 64 != block {
            return i;
        }
    }
    numbers.len()
}

// Adds to each sum the combinations of the rows of a block from place `done` to below `end`, each as often as its uses say.
fn add_block<D: Disk, R: Ring>(
    alloc: Global,
    ring: &R,
    kept: &KeptRows<R>,
    file: &mut PageFile,
    disk: &mut D,
    block: u32,
    done: usize,
    end: usize,
    uses: &[Combination<R>],
    sums: &mut [RowSum<R>],
) -> Result<(), WorkFault>
    requires live { IsTrue file.old.is_live }
    requires suits { IfSome (D.trace disk.old) (λ t. Suits file.old t.now.contents) }
    requires within { 1 + block < page_count file.old }
    requires rows { (bound : ℕ) × AreRows (R.has ring.now) bound kept.now.numbers.items kept.now.rows.items }
    requires run { IsRun kept.now.numbers.items block done end }
    requires uses_in_ring { AllIns (R.has ring.now) uses.now }
    requires totals { AreTotals (R.is_sum ring.now) kept.now.numbers.items (length uses.now) sums.old }
    ensures totals { AreTotals (R.is_sum ring.now) kept.now.numbers.items (length uses.now) sums.new }
    ensures told { OnOk result (IfSome (D.trace disk.old) (λ t. (pages : List Page) → IsSealed pages t.now.contents
        → (j : ℕ) → j < length uses.now → SameRow (R.modulus ring.now) (total_at (R.total ring.now) (get_or sums.new j [])) (λ q. total_at (R.total ring.now) (get_or sums.old j []) q
        + combination (end - done) (λ i. sealed_combination pages (get_or kept.now.numbers.items (done + i) 0)) (λ i. used_at (R.value ring.now) kept.now.numbers.items (get_or uses.now j []) (done + i)) q))) }
    ensures fault { IfErr result (HasCauseIn (Rose (D.faults disk.old) (D.faults disk.new)) (IfSome (D.trace disk.old) (λ t. (pages : List Page) → IsSealed pages t.now.contents
        → (blocks : ℕ) → block < blocks → ¬ (AllKept (R.modulus ring.now) R.zero (R.value ring.now) blocks kept.now.numbers.items kept.now.rows.items pages))) (λ _ _. ⊥)) }
    ensures same { file.new ≡ file.old }
    ensures disk { D.trace disk.new ≡ D.trace disk.old }
    ensures faults { D.faults disk.old ≤ D.faults disk.new }
{
    if done == end {
        return Ok(());
    }
    let numbers = &kept.numbers[done..end];
    let rows = &kept.rows[done..end];
    let combinations = read_block(alloc, ring, file, disk, block, numbers, rows)?;
    add_all_used(ring, sums, uses, numbers, &combinations);
    Ok(())
}

// The sums, plus the sealed combinations of all rows kept, each as often as the uses say. Each page with entries is read once.
pub(crate) fn with_sealed<D: Disk, R: Ring>(
    alloc: Global,
    ring: &R,
    kept: &KeptRows<R>,
    blocks: u32,
    file: &mut PageFile,
    disk: &mut D,
    uses: &[Combination<R>],
    starts: Vec<Combination<R>>,
) -> Result<Vec<Combination<R>>, WorkFault>
    requires live { IsTrue file.old.is_live }
    requires suits { IfSome (D.trace disk.old) (λ t. Suits file.old t.now.contents) }
    requires within { blocks < page_count file.old }
    requires rows { AreRows (R.has ring.now) (64 * blocks) kept.now.numbers.items kept.now.rows.items }
    requires sums { AreSums (R.has ring.now) (length starts.items) uses.now starts.items }
    ensures count { IfOk result (λ made. AreSums (R.has ring.now) (length starts.items) uses.now made.items) }
    ensures told { IfOk result (λ made. IfSome (D.trace disk.old) (λ t. (pages : List Page) → IsSealed pages t.now.contents
        → (j : ℕ) → j < length starts.items → SameRow (R.modulus ring.now) (row_at (R.value ring.now) made.items j) (λ q. row_at (R.value ring.now) starts.items j q
        + combination (length kept.now.numbers.items) (λ i. sealed_combination pages (get_or kept.now.numbers.items i 0)) (used_at (R.value ring.now) kept.now.numbers.items (get_or uses.now j [])) q))) }
    ensures fault { IfErr result (HasCauseIn (Rose (D.faults disk.old) (D.faults disk.new)) (IfSome (D.trace disk.old) (λ t. (pages : List Page) → IsSealed pages t.now.contents
        → ¬ (AllKept (R.modulus ring.now) R.zero (R.value ring.now) blocks kept.now.numbers.items kept.now.rows.items pages))) (λ _ _. ⊥)) }
    ensures same { file.new ≡ file.old }
    ensures disk { D.trace disk.new ≡ D.trace disk.old }
    ensures faults { D.faults disk.old ≤ D.faults disk.new }
{
    let mut sums = no_totals(alloc, ring, &kept.numbers, uses.len())?;
    let mut done = 0;
    for block in 0..blocks {
        let end = end_of_block(&kept.numbers, block, done);
        add_block(
            alloc, ring, kept, file, disk, block, done, end, uses, &mut sums,
        )?;
        done = end;
    }
    Ok(all_ended(alloc, ring, &starts, &sums)?)
}

//! Building the file of a table.
ghost use Rattle.std.specs.Prelude.{◌≡◌, ◌⊎◌, ◌+◌, ◌/◌, ◌<◌, ◌≤◌, ℕ, List, [], max, Some, None, IsTrue, IsErrOf, IsOk, IfOk, IfErr, IfSome, OnOk, length, slice_get};
ghost use Rattle.zeta_model.specs.declared.Letter.{Letter};
ghost use Rattle.zeta_model.specs.Words.{is_admissible};
ghost use Rattle.outside_io.specs.Causes.{Rose};
ghost use Rattle.outside_io.specs.Moments.{IsImage};
ghost use Rattle.column_order.specs.Columns.{ColumnList};
ghost use Rattle.page_codec.specs.declared.page.Page.{Page};
ghost use Rattle.page_codec.specs.Bounds.{IsParams};
ghost use Rattle.page_file.specs.Stays.{Leaves};
ghost use Rattle.page_file.specs.Notes.{Suits, count_of as page_count};
ghost use Rattle.table_model.specs.Conversion.{Converts};
ghost use Rattle.table_model.specs.ListedSpan.{count_of};
ghost use Rattle.table_model.specs.ReducedRows.{BreaksFirst};
ghost use Rattle.table_model.specs.Faults.{IsNotInvertible};
ghost use Rattle.file_model.specs.TableOf.{IsTableOf};
ghost use Rattle.file_model.specs.Prefixes.{HasPages};
ghost use Rattle.file_model.specs.Builds.{BuildEnds, IsLeft};
ghost use Rattle.file_model.specs.Stays.{Stays};
ghost use Rattle.table_build.specs.Answers.{answer_of, IsWorked, IsRefused};
ghost use Rattle.table_build.specs.Faults.{HasCauseIn, IsTableFault, table_fault};
ghost use Rattle.table_build.specs.Inner.{AreFirst, IsReadyAt, Holds, Keeps, IsCourse, IsBegun, IsEnd, Course};

use crate::block::KeptRows;
use crate::building::work;
use crate::columns::columns_of;
use crate::fault::{BuildFault, WorkFault, build_fault, table_fault, work_fault};
use crate::offering::Offering;
use crate::sealing::seal;
use lyndon_polys::{LyndonFault, LyndonTable};
use outside_io::Disk;
use page_codec::{Page, Params};
use page_file::{PageFile, look};
use residues::Ring;
use std::alloc::Global;

/// What was built: how many relations are listed, how many final rows there are, how many relations this call offered, and how many pages
/// are sealed.
#[derive(Clone, Copy, Debug, PartialEq, Eq)]
pub struct Built {
    pub relations: u32,
    pub rows: u32,
    pub offered: u32,
    pub pages: u64,
}

// The table of the parameters.
pub(crate) fn table_of<R: Ring>(
    alloc: Global,
    ring: R,
    params: &Params,
) -> Result<LyndonTable<R>, LyndonFault>
    requires modulus { R.modulus ring ≡ params.now.modulus }
    requires params { IsParams params.now }
    ensures ring { IfOk result (λ table. table.ring ≡ ring) }
    ensures columns { IfOk result (λ table. IsTableOf params.now table.columns) }
    ensures converts { IfOk result (λ table. Converts params.now.modulus table.columns) }
    ensures fault { IfErr result (λ fault. IsTableFault params.now (table_fault fault)) }
{
    let columns = match columns_of(alloc, params) {
        Ok(columns) => columns,
        Err(fault) => return Err(LyndonFault::Memory(fault)),
    };
    match LyndonTable::new(alloc, ring, columns) {
        Ok(table) => Ok(table),
        Err(fault) => Err(fault),
    }
}

// Makes the file ready for its next page; the header is sealed where no page is.
pub(crate) fn begin_again<D: Disk>(
    params: &Params,
    file: &mut PageFile,
    disk: &mut D,
) -> Result<(), WorkFault>
    requires params { IsParams params.now }
    requires live { IsTrue file.old.is_live }
    requires noted { 0 < length file.old.gates }
    requires suits { IfSome (D.trace disk.old) (λ t. Suits file.old t.now.contents) }
    ensures ready { OnOk result (IsReadyAt (max 1 (page_count file.old)) file.new) }
    ensures suits { OnOk result (IfSome (D.trace disk.new) (λ t. Suits file.new t.now.contents)) }
    ensures keeps { (pages : List Page) → slice_get pages 0 ≡ Some (Page.Header params.now) → AreFirst pages (D.trace disk.old)
        → Keeps pages (page_count file.old) (D.trace disk.old) (D.trace disk.new) }
    ensures holds { (pages : List Page) → slice_get pages 0 ≡ Some (Page.Header params.now) → AreFirst pages (D.trace disk.old)
        → OnOk result (Holds pages (max 1 (page_count file.old)) (D.trace disk.new)) }
    ensures fault { IfErr result (HasCauseIn (Rose (D.faults disk.old) (D.faults disk.new)) ⊥ (λ _ _. ⊥)) }
    ensures untold { D.trace disk.old ≡ None → D.trace disk.new ≡ None }
    ensures disk_fault { IsErrOf result WorkFault.DiskFault → Rose (D.faults disk.old) (D.faults disk.new) }
    ensures faults { D.faults disk.old ≤ D.faults disk.new }
{
    if let Err(fault) = file.renew(disk) {
        return Err(work_fault(fault));
    }
    if file.count() > 0 {
        return Ok(());
    }
    let header = Page::Header(*params);
    seal(file, disk, &header)
}

// Seals the header on a disk that is empty.
fn begin<D: Disk>(alloc: Global, params: &Params, disk: &mut D) -> Result<PageFile, WorkFault>
    requires empty { IfSome (D.trace disk.old) (λ t. t.now.contents ≡ []) }
    requires params { IsParams params.now }
    ensures ready { IfOk result (IsReadyAt 1) }
    ensures suits { IfOk result (λ file. IfSome (D.trace disk.new) (λ t. Suits file t.now.contents)) }
    ensures keeps { (pages : List Page) → slice_get pages 0 ≡ Some (Page.Header params.now) → Keeps pages 0 (D.trace disk.old) (D.trace disk.new) }
    ensures holds { (pages : List Page) → slice_get pages 0 ≡ Some (Page.Header params.now) → OnOk result (Holds pages 1 (D.trace disk.new)) }
    ensures fault { IfErr result (HasCauseIn (Rose (D.faults disk.old) (D.faults disk.new)) (D.trace disk.old ≡ None) (λ _ _. ⊥)) }
    ensures faults { D.faults disk.old ≤ D.faults disk.new }
{
    let mut file = match look(alloc, disk) {
        Ok(file) => file,
        Err(fault) => return Err(work_fault(fault)),
    };
    if file.count() > 0 {
        return Err(WorkFault::Differs(0));
    }
    if let Err(fault) = begin_again(params, &mut file, disk) {
        return Err(fault);
    }
    Ok(file)
}

// Builds the file of a table on a disk that is empty.
fn build_table<D: Disk, R: Ring>(
    alloc: Global,
    table: LyndonTable<R>,
    params: &Params,
    disk: &mut D,
) -> Result<Built, WorkFault>
    requires empty { IfSome (D.trace disk.old) (λ t. t.now.contents ≡ []) }
    requires params { IsParams params.now }
    ensures relations { IfOk result (λ built. (built.relations ≡ count_of table.columns) × (built.offered ≡ built.relations)) }
    ensures keeps { (course : Course) → IsBegun (R.modulus table.ring) table.columns params.now course → Keeps course.pages 0 (D.trace disk.old) (D.trace disk.new) }
    ensures end { (course : Course) → IsBegun (R.modulus table.ring) table.columns params.now course
        → IfOk result (λ built. IsEnd (R.modulus table.ring) table.columns course built.rows (D.trace disk.new) × (built.pages ≡ length course.pages)) }
    ensures fault { (course : Course) → IsBegun (R.modulus table.ring) table.columns params.now course
        → IfErr result (HasCauseIn (Rose (D.faults disk.old) (D.faults disk.new)) (D.trace disk.old ≡ None)
        (λ value n. (n < count_of table.columns) × BreaksFirst (R.modulus table.ring) table.columns course.work.sums n value
        × Holds course.pages (1 + n / 64) (D.trace disk.new))) }
    ensures faults { D.faults disk.old ≤ D.faults disk.new }
{
    let mut offering = match Offering::new(alloc, table) {
        Ok(offering) => offering,
        Err(fault) => return Err(WorkFault::Memory(fault)),
    };
    let mut file = match begin(alloc, params, disk) {
        Ok(file) => file,
        Err(fault) => return Err(fault),
    };
    let none = KeptRows::none(alloc);
    match work(alloc, &mut offering, none, &mut file, disk, 0) {
        Ok((relations, rows)) => Ok(Built {
            relations,
            rows,
            offered: relations,
            pages: file.count(),
        }),
        Err(fault) => Err(fault),
    }
}

/// Builds the file of a table on an empty disk, from the header to the last page.
///
/// All relations are offered. Each page is sealed as soon as its block is whole, and combinations are read again from the sealed pages where
/// they are wanted, so that only rows are kept in memory. Where the work is broken at relation `n`, the header and the pages of the blocks
/// before it are left.
///
/// `DiskFault` only where the disk's count rose. `Exists` where the disk is not empty. `NoInverseWord` where the table does not convert,
/// with the first word at which it does not; the word is admissible over every disk. `NoInverseRelation` where the work is broken, with the first relation at which it is.
/// `BadPage(i)` and `Differs(i)` never over a disk that tells its moments; over another they say that what was read of page `i` was no
/// page, or not the one that was sealed. `Memory` where memory is wanting. A fault after `Exists` and `NoInverseWord` leaves the pages that
/// are sealed so far.
pub fn build<D: Disk, R: Ring>(
    alloc: Global,
    ring: R,
    params: &Params,
    disk: &mut D,
) -> Result<Built, BuildFault>
    requires modulus { R.modulus ring ≡ params.now.modulus }
    requires params { IsParams params.now }
    ensures ends { IfSome (answer_of result) (λ answer. IfSome (D.trace disk.old) (λ t. BuildEnds params.now t.now.contents answer)) }
    ensures left { IsWorked result → Leaves (λ t bytes. IsLeft params.now t.now.contents bytes) (D.trace disk.old) (D.trace disk.new) }

    // Where each image has the first pages of the parameters, a crash at any moment since leaves them.
    ensures moments { (k : ℕ) → Stays (HasPages params.now k) (D.trace disk.old) (D.trace disk.new) }

    // What stood there is what a crash might have left.
    ensures image { IsOk result → IfSome (D.trace disk.old) (λ t. IsImage t.now t.now.contents) }
    ensures refused { IsRefused result → D.trace disk.new ≡ D.trace disk.old }
    ensures told { (i : ℕ) → (IsErrOf result (BuildFault.BadPage i) ⊎ IsErrOf result (BuildFault.Differs i)) → D.trace disk.old ≡ None }
    ensures word { (value : ℕ) (word : List Letter) → IsErrOf result (BuildFault.NoInverseWord value word) → IsTrue (is_admissible word) }
    ensures disk_fault { IsErrOf result BuildFault.DiskFault → Rose (D.faults disk.old) (D.faults disk.new) }
    ensures faults { D.faults disk.old ≤ D.faults disk.new }
{
    let len = match disk.len() {
        Ok(len) => len,
        Err(_) => return Err(BuildFault::DiskFault),
    };
    if len > 0 {
        return Err(BuildFault::Exists(len));
    }
    let table = match table_of(alloc, ring, params) {
        Ok(table) => table,
        Err(fault) => return Err(table_fault(fault)),
    };
    match build_table(alloc, table, params, disk) {
        Ok(built) => Ok(built),
        Err(fault) => Err(build_fault(fault)),
    }
}

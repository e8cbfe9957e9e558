//! Going on with a build that was stopped.
ghost use Rattle.std.specs.Prelude.{◌≡◌, ◌<◌, ◌≤◌, ◌+◌, ◌-◌, ◌*◌, ◌/◌, ℕ, max, min, List, [], IsTrue, IsErrOf, IsOk, None, Some, IfOk, IfErr, IfSome, OnOk, length, slice_get};
ghost use Rattle.outside_io.specs.Causes.{Rose};
ghost use Rattle.outside_io.specs.Moments.{IsImage};
ghost use Rattle.page_codec.specs.declared.page.Page.{Page};
ghost use Rattle.page_codec.specs.Bounds.{IsParams};
ghost use Rattle.page_codec.specs.Places.{block_count};
ghost use Rattle.page_file.specs.Stays.{Leaves};
ghost use Rattle.page_file.specs.Notes.{Suits, count_of as page_count};
ghost use Rattle.table_model.specs.Conversion.{Converts};
ghost use Rattle.table_model.specs.ListedSpan.{count_of};
ghost use Rattle.table_model.specs.ReducedRows.{BreaksFirst};
ghost use Rattle.file_model.specs.TableOf.{IsTableOf};
ghost use Rattle.file_model.specs.Prefixes.{HasPages};
ghost use Rattle.file_model.specs.Resuming.{AllSuit, Differs, entries_of};
ghost use Rattle.file_model.specs.Builds.{IsOurs, IsLeft, HasGoneOn};
ghost use Rattle.file_model.specs.Stays.{Stays};
ghost use Rattle.table_build.specs.Faults.{HasCauseIn};
ghost use Rattle.table_build.specs.Inner.{Course, CanOffer, AreRows, AreRowsOn, AreFirst, AreFirstUpTo, HasOffered, IfSealed, IsEnd, IsGoneFault, IsReadyAt, IsStarted, Holds, Keeps};
ghost use Rattle.table_build.specs.Resumes.{Tells, fault_says, result_says, HasWorked, HasRefused, CanTell};

use crate::block::KeptRows;
use crate::building::work;
use crate::comparing::compare_pages;
use crate::fault::{ResumeFault, WorkFault, resume_fault, word_fault, work_fault};
use crate::finals::seal_finals;
use crate::offering::Offering;
use crate::opening::{open, relation_count};
use crate::restoring::restore_rows;
use crate::table_file::{Built, begin_again, table_of};
use outside_io::Disk;
use page_codec::Params;
use page_file::PageFile;
use residues::Ring;
use std::alloc::Global;

// Goes on from forward pages: the blocks that are left are worked on, and then the final pages.
fn go_on<D: Disk, R: Ring>(
    alloc: Global,
    params: &Params,
    offering: &mut Offering<R>,
    kept: KeptRows<R>,
    file: &mut PageFile,
    disk: &mut D,
) -> Result<Built, WorkFault>
    requires params { IsParams params.now }
    requires few { length offering.old.names.items ≤ 1179648 }
    requires live { IsTrue file.old.is_live }
    requires noted { 0 < length file.old.gates }
    requires suits { IfSome (D.trace disk.old) (λ t. Suits file.old t.now.contents) }
    requires front { page_count file.old ≤ 1 + block_count (length offering.old.names.items) }
    requires can { CanOffer offering.old.table offering.old.names.items offering.old.kept.ring offering.old.echelon (64 * (page_count file.old - 1)) }
    requires numbers { kept.numbers.items ≡ offering.old.echelon.numbers }
    requires same_rows { kept.rows.items ≡ offering.old.echelon.rows }
    requires rows { AreRows (R.has offering.old.table.ring) (64 * (page_count file.old - 1)) kept.numbers.items kept.rows.items }
    ensures figures { IfOk result (λ built. (built.relations ≡ count_of offering.old.table.columns)
        × (built.offered ≡ count_of offering.old.table.columns - 64 * (page_count file.old - 1))) }
    ensures keeps { (course : Course) → IsStarted (R.modulus offering.old.table.ring) (R.value offering.old.table.ring) offering.old.table.columns params.now course (page_count file.old - 1)
        kept.numbers.items kept.rows.items (D.trace disk.old) → Keeps course.pages (page_count file.old) (D.trace disk.old) (D.trace disk.new) }
    ensures end { (course : Course) → IsStarted (R.modulus offering.old.table.ring) (R.value offering.old.table.ring) offering.old.table.columns params.now course (page_count file.old - 1)
        kept.numbers.items kept.rows.items (D.trace disk.old)
        → IfOk result (λ built. IsEnd (R.modulus offering.old.table.ring) offering.old.table.columns course built.rows (D.trace disk.new) × (built.pages ≡ length course.pages)) }
    ensures fault { (course : Course) → IsStarted (R.modulus offering.old.table.ring) (R.value offering.old.table.ring) offering.old.table.columns params.now course (page_count file.old - 1)
        kept.numbers.items kept.rows.items (D.trace disk.old)
        → IfErr result (HasCauseIn (Rose (D.faults disk.old) (D.faults disk.new)) (D.trace disk.old ≡ None)
        (λ value n. (n < count_of offering.old.table.columns) × BreaksFirst (R.modulus offering.old.table.ring) offering.old.table.columns course.work.sums n value
        × Holds course.pages (1 + n / 64) (D.trace disk.new))) }
    ensures untold { D.trace disk.old ≡ None → D.trace disk.new ≡ None }
    ensures disk_fault { IsErrOf result WorkFault.DiskFault → Rose (D.faults disk.old) (D.faults disk.new) }
    ensures faults { D.faults disk.old ≤ D.faults disk.new }
{
    if let Err(fault) = begin_again(params, file, disk) {
        return Err(fault);
    }
    let first = (file.count() - 1) as u32;
    match work(alloc, offering, kept, file, disk, first) {
        Ok((relations, rows)) => Ok(Built {
            relations,
            rows,
            offered: relations - relations.min(64 * first),
            pages: file.count(),
        }),
        Err(fault) => Err(fault),
    }
}

// Goes on from final pages: they are compared with those that the rows give, and those that are left are sealed.
fn go_on_behind<D: Disk, R: Ring>(
    alloc: Global,
    offering: &mut Offering<R>,
    kept: &KeptRows<R>,
    file: &mut PageFile,
    disk: &mut D,
    blocks: u32,
    sealed: u32,
) -> Result<Built, WorkFault>
    requires few { length offering.old.names.items ≤ 1179648 }
    requires all { blocks ≡ block_count (length offering.old.names.items) }
    requires live { IsTrue file.old.is_live }
    requires suits { IfSome (D.trace disk.old) (λ t. Suits file.old t.now.contents) }
    requires sealed { page_count file.old ≡ 1 + blocks + sealed }
    requires some { 0 < sealed }
    requires can { CanOffer offering.old.table offering.old.names.items offering.old.kept.ring offering.old.echelon (64 * blocks) }
    requires numbers { kept.now.numbers.items ≡ offering.old.echelon.numbers }
    requires same_rows { kept.now.rows.items ≡ offering.old.echelon.rows }
    requires rows { AreRows (R.has offering.old.table.ring) (64 * blocks) kept.now.numbers.items kept.now.rows.items }
    ensures figures { IfOk result (λ built. (built.relations ≡ count_of offering.old.table.columns) × (built.offered ≡ 0)) }
    ensures keeps { (course : Course) → HasOffered (R.modulus offering.old.table.ring) (R.value offering.old.table.ring) offering.old.table.columns course (count_of offering.old.table.columns) kept.now.numbers.items kept.now.rows.items
        → AreFirstUpTo course.pages (1 + blocks) (D.trace disk.old) → Keeps course.pages (1 + blocks + sealed) (D.trace disk.old) (D.trace disk.new) }
    ensures first { (course : Course) → HasOffered (R.modulus offering.old.table.ring) (R.value offering.old.table.ring) offering.old.table.columns course (count_of offering.old.table.columns) kept.now.numbers.items kept.now.rows.items
        → AreFirstUpTo course.pages (1 + blocks) (D.trace disk.old) → OnOk result (AreFirst course.pages (D.trace disk.old)) }
    ensures end { (course : Course) → HasOffered (R.modulus offering.old.table.ring) (R.value offering.old.table.ring) offering.old.table.columns course (count_of offering.old.table.columns) kept.now.numbers.items kept.now.rows.items
        → AreFirstUpTo course.pages (1 + blocks) (D.trace disk.old)
        → IfOk result (λ built. IsEnd (R.modulus offering.old.table.ring) offering.old.table.columns course built.rows (D.trace disk.new) × (built.pages ≡ length course.pages)) }
    ensures fault { (course : Course) → HasOffered (R.modulus offering.old.table.ring) (R.value offering.old.table.ring) offering.old.table.columns course (count_of offering.old.table.columns) kept.now.numbers.items kept.now.rows.items
        → AreFirstUpTo course.pages (1 + blocks) (D.trace disk.old)
        → IfErr result (IsGoneFault (Rose (D.faults disk.old) (D.faults disk.new)) (D.trace disk.old ≡ None)
        (λ i. IfSealed (λ pages. Differs pages course.pages i) (D.trace disk.old) × (D.trace disk.new ≡ D.trace disk.old))) }
    ensures untold { D.trace disk.old ≡ None → D.trace disk.new ≡ None }
    ensures disk_fault { IsErrOf result WorkFault.DiskFault → Rose (D.faults disk.old) (D.faults disk.new) }
    ensures faults { D.faults disk.old ≤ D.faults disk.new }
{
    let ring = offering.table.ring();
    let finals = match offering.echelon.finish() {
        Ok(finals) => finals,
        Err(fault) => return Err(WorkFault::Memory(fault)),
    };
    if let Err(fault) = compare_pages(alloc, ring, kept, blocks, file, disk, &finals, sealed) {
        return Err(fault);
    }
    if let Err(fault) = file.renew(disk) {
        return Err(work_fault(fault));
    }
    match seal_finals(alloc, ring, kept, blocks, file, disk, &finals, sealed) {
        Ok(()) => Ok(Built {
            relations: offering.names.len() as u32,
            rows: finals.rows.len(),
            offered: 0,
            pages: file.count(),
        }),
        Err(fault) => Err(fault),
    }
}

// Goes on with a file of these parameters, whose rows are put back.
fn go_on_from_rows<D: Disk, R: Ring>(
    alloc: Global,
    params: &Params,
    offering: &mut Offering<R>,
    kept: KeptRows<R>,
    file: &mut PageFile,
    disk: &mut D,
) -> Result<Built, ResumeFault>
    requires params { IsParams params.now }
    requires columns { IsTableOf params.now offering.old.table.columns }
    requires modulus { R.modulus offering.old.table.ring ≡ params.now.modulus }
    requires converts { Converts params.now.modulus offering.old.table.columns }
    requires few { length offering.old.names.items ≤ 1179648 }
    requires live { IsTrue file.old.is_live }
    requires noted { 0 < length file.old.gates }
    requires suits { IfSome (D.trace disk.old) (λ t. Suits file.old t.now.contents) }
    requires ours { IfSome (D.trace disk.old) (λ t. (sealed : List Page) × IsOurs params.now t.now.contents sealed) }
    requires pages { page_count file.old ≤ block_count (length offering.old.names.items) + 35 }
    requires image { IfSome (D.trace disk.old) (λ t. IsImage t.now t.now.contents) }
    requires can { CanOffer offering.old.table offering.old.names.items offering.old.kept.ring offering.old.echelon
        (64 * (min (page_count file.old) (1 + block_count (length offering.old.names.items)) - 1)) }
    requires numbers { kept.numbers.items ≡ offering.old.echelon.numbers }
    requires same_rows { kept.rows.items ≡ offering.old.echelon.rows }
    requires rows { AreRows (R.has offering.old.table.ring) (64 * (min (page_count file.old) (1 + block_count (length offering.old.names.items)) - 1))
        kept.numbers.items kept.rows.items }
    requires taken { IfSealed (λ sealed. AreRowsOn (R.value offering.old.table.ring) sealed kept.numbers.items kept.rows.items
        × AllSuit params.now.modulus (entries_of sealed)) (D.trace disk.old) }
    ensures ends { Tells params.now (D.trace disk.old) (result_says result) }
    ensures left { HasWorked result → Leaves (λ t bytes. IsLeft params.now t.now.contents bytes) (D.trace disk.old) (D.trace disk.new) }
    ensures moments { (k : ℕ) → Stays (HasPages params.now k) (D.trace disk.old) (D.trace disk.new) }
    ensures refused { HasRefused result → D.trace disk.new ≡ D.trace disk.old }
    ensures can_tell { IfErr result CanTell }
    ensures disk_fault { IsErrOf result ResumeFault.DiskFault → Rose (D.faults disk.old) (D.faults disk.new) }
    ensures faults { D.faults disk.old ≤ D.faults disk.new }
{
    let blocks = (offering.names.len() as u32 + 63) / 64;
    let count = file.count();
    let front = u64::from(blocks) + 1;
    if count <= front {
        return match go_on(alloc, params, offering, kept, file, disk) {
            Ok(built) => Ok(built),
            Err(fault) => Err(resume_fault(fault)),
        };
    }
    let sealed = (count - front) as u32;
    match go_on_behind(alloc, offering, &kept, file, disk, blocks, sealed) {
        Ok(built) => Ok(built),
        Err(fault) => Err(resume_fault(fault)),
    }
}

// Goes on with a file of these parameters from its rows.
fn resume_table<D: Disk, R: Ring>(
    alloc: Global,
    params: &Params,
    offering: &mut Offering<R>,
    file: &mut PageFile,
    disk: &mut D,
) -> Result<Built, ResumeFault>
    requires params { IsParams params.now }
    requires columns { IsTableOf params.now offering.old.table.columns }
    requires modulus { R.modulus offering.old.table.ring ≡ params.now.modulus }
    requires converts { Converts params.now.modulus offering.old.table.columns }
    requires few { length offering.old.names.items ≤ 1179648 }
    requires can { CanOffer offering.old.table offering.old.names.items offering.old.kept.ring offering.old.echelon 0 }
    requires none { (offering.old.echelon.numbers ≡ []) × (offering.old.echelon.rows ≡ []) }
    requires live { IsTrue file.old.is_live }
    requires noted { 0 < length file.old.gates }
    requires suits { IfSome (D.trace disk.old) (λ t. Suits file.old t.now.contents) }
    requires ours { IfSome (D.trace disk.old) (λ t. (sealed : List Page) × IsOurs params.now t.now.contents sealed) }
    requires pages { page_count file.old ≤ block_count (length offering.old.names.items) + 35 }
    requires image { IfSome (D.trace disk.old) (λ t. IsImage t.now t.now.contents) }
    ensures ends { Tells params.now (D.trace disk.old) (result_says result) }
    ensures left { HasWorked result → Leaves (λ t bytes. IsLeft params.now t.now.contents bytes) (D.trace disk.old) (D.trace disk.new) }
    ensures moments { (k : ℕ) → Stays (HasPages params.now k) (D.trace disk.old) (D.trace disk.new) }
    ensures refused { HasRefused result → D.trace disk.new ≡ D.trace disk.old }
    ensures can_tell { IfErr result CanTell }
    ensures disk_fault { IsErrOf result ResumeFault.DiskFault → Rose (D.faults disk.old) (D.faults disk.new) }
    ensures faults { D.faults disk.old ≤ D.faults disk.new }
{
    let blocks = (offering.names.len() as u32 + 63) / 64;
    let pages = file.count().min(u64::from(blocks) + 1);
    let kept = match restore_rows(alloc, params, offering, file, disk, pages) {
        Ok(kept) => kept,
        Err(fault) => return Err(fault),
    };
    go_on_from_rows(alloc, params, offering, kept, file, disk)
}

/// Goes on with a build that was stopped, whatever stands in the file, the empty one included, until the last page is sealed.
///
/// The file is read and tested first, then made ready, and then the relations behind the sealed forward pages are offered: the rows that stand
/// in the file are taken as they are. Where the work is broken at relation `n`, the header and the pages of the blocks before it are left.
///
/// `DiskFault` only where the disk's count rose. `Foreign` and `BadPage` as `look` tells them. `Other` where the header has other
/// parameters. `Misfit(i)` where page `i` is the first that does not fit its place. `NoInverseWord` where the table does not convert, with the
/// first word at which it does not. `NotForward(i)` where page `i` is the first with an entry that does not suit those before it: its row is no
/// forward row behind theirs, its combination has no residue with an inverse at its own number, or a number that is none of theirs.
/// `NoInverseRelation` where the work is broken, with the first relation at which it is. `Differs(i)` where page `i` is the first that is not
/// the one that the forward rows give. `Memory` where memory is wanting. Only `NoInverseRelation`, `DiskFault` and `Memory` may come after
/// something was written; the pages that are sealed then stay. `BadPage` and `Differs` come besides where the disk does not tell its
/// moments, for a page that is read again and is not what was there.
pub fn resume<D: Disk, R: Ring>(
    alloc: Global,
    ring: R,
    params: &Params,
    disk: &mut D,
) -> Result<Built, ResumeFault>
    requires modulus { R.modulus ring ≡ params.now.modulus }
    requires params { IsParams params.now }
    ensures ends { Tells params.now (D.trace disk.old) (result_says result) }
    ensures left { HasWorked result → Leaves (λ t bytes. IsLeft params.now t.now.contents bytes) (D.trace disk.old) (D.trace disk.new) }

    // Where the work came to its end, the sealed pages are the first ones still, and the final rows follow from the forward rows.
    ensures goes_on { IsOk result → Leaves (λ t bytes. HasGoneOn params.now t.now.contents bytes) (D.trace disk.old) (D.trace disk.new) }

    // Where each image has the first pages of the parameters, a crash at any moment since leaves them.
    ensures moments { (k : ℕ) → Stays (HasPages params.now k) (D.trace disk.old) (D.trace disk.new) }

    // What stood there is what a crash might have left.
    ensures image { IsOk result → IfSome (D.trace disk.old) (λ t. IsImage t.now t.now.contents) }
    ensures refused { HasRefused result → D.trace disk.new ≡ D.trace disk.old }
    ensures can_tell { IfErr result CanTell }
    ensures disk_fault { IsErrOf result ResumeFault.DiskFault → Rose (D.faults disk.old) (D.faults disk.new) }
    ensures faults { D.faults disk.old ≤ D.faults disk.new }
{
    let relations = match relation_count(alloc, params) {
        Ok(relations) => relations,
        Err(fault) => return Err(ResumeFault::Memory(fault)),
    };
    let mut file = match open(alloc, params, relations, disk) {
        Ok(file) => file,
        Err(fault) => return Err(fault),
    };
    let table = match table_of(alloc, ring, params) {
        Ok(table) => table,
        Err(fault) => return Err(word_fault(fault)),
    };
    let mut offering = match Offering::new(alloc, table) {
        Ok(offering) => offering,
        Err(fault) => return Err(ResumeFault::Memory(fault)),
    };
    resume_table(alloc, params, &mut offering, &mut file, disk)
}

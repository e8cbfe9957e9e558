//! The pages of a file, one after the other, each at its place, and what a header says of its table.
ghost use Rattle.std.specs.Prelude.{◌≡◌, ◌≤◌, ◌<◌, ◌++◌, ◌∷◌, [], ℕ, List, IsTrue, Some, IfOk, IfErr, IfSome, slice_get};
ghost use Rattle.outside_io.specs.Causes.{Rose};
ghost use Rattle.page_codec.specs.Bounds.{IsPage, IsParams};
ghost use Rattle.page_codec.specs.Places.{FitsPlace, walk_of};
ghost use Rattle.page_codec.specs.declared.page.Page.{Page};
ghost use Rattle.page_file.specs.Files.{IsSealed};
ghost use Rattle.page_file.specs.Notes.{Suits, count_of};
ghost use Rattle.table_model.specs.ListedSpan.{relation_count};
ghost use Rattle.file_model.specs.TableOf.{IsTableOf};
ghost use Rattle.table_checker.specs.Inner.{reading_fault, without_header, IsBehind, IsPageFault};

use crate::fault::CheckFault;
use column_order::{Columns, ColumnsFault, RankRule, rank};
use outside_io::Disk;
use page_codec::{Page, Params, Walk};
use page_file::{FileFault, PageFile};
use relation_list::listing;
use std::alloc::{AllocError, Global};
use word_letters::Word;

/// Why a page was not read. No page is refused as foreign.
fn reading_fault(fault: FileFault) -> CheckFault
    ensures { result ≡ reading_fault fault }
{
    match fault {
        FileFault::DiskFault => CheckFault::DiskFault,
        FileFault::Foreign(bytes) => CheckFault::BadPage(bytes),
        FileFault::BadPage(page) => CheckFault::BadPage(page),
        FileFault::Memory(fault) => CheckFault::Memory(fault),
    }
}

/// What is told of so many pages that do not begin with a header.
pub(crate) fn without_header(pages: u64) -> CheckFault
    ensures { result ≡ without_header pages }
{
    if pages == 0 {
        return CheckFault::NotDone(0);
    }
    CheckFault::Misfit(0)
}

/// The columns of the parameters, in their order.
pub(crate) fn columns_of(alloc: Global, params: &Params) -> Result<Columns, AllocError>
    requires { IsParams params.now }
    ensures { IfOk result (IsTableOf params.now) }
{
    let preference = params.preference();
    let ranked = preference;
    let rule = RankRule::new(preference, move |word: Word| rank(&ranked, word));
    match Columns::new(alloc, params.weight, params.depth, &rule) {
        Ok(columns) => Ok(columns),
        Err(ColumnsFault::TooManyColumns(_)) => unreachable!(),
        Err(ColumnsFault::Memory(fault)) => Err(fault),
    }
}

/// How many relations the table of the parameters has.
pub(crate) fn relation_count(alloc: Global, params: &Params) -> Result<u32, AllocError>
    requires { IsParams params.now }
    ensures { IfOk result (λ n. n ≡ relation_count params.now.weight params.now.depth) }
{
    let names = listing(alloc, params.weight, params.depth)?;
    Ok(names.len() as u32)
}

/// Reads a page, and goes on over it where it fits behind those that the walk went over.
pub(crate) fn next_page<D: Disk>(
    file: &mut PageFile,
    disk: &mut D,
    walk: &mut Walk,
    place: u64,
) -> Result<Page, CheckFault>
    requires live { IsTrue file.old.is_live }
    requires suits { IfSome (D.trace disk.old) (λ t. Suits file.old t.now.contents) }
    requires within { place < count_of file.old }
    requires behind { (before : List Page) × IsBehind walk.old before }
    ensures page { IfOk result IsPage }
    ensures sealed { IfOk result (λ page. IfSome (D.trace disk.old) (λ t. (pages : List Page) → IsSealed pages t.now.contents
        → slice_get pages place ≡ Some page)) }
    ensures fits { IfOk result (λ page. (before : List Page) → IsBehind walk.old before
        → FitsPlace walk.old.params walk.old.relations before page × (walk.new ≡ walk_of walk.old.params walk.old.relations (before ++ page ∷ []))) }
    ensures err { IfErr result (IsPageFault (Rose (D.faults disk.old) (D.faults disk.new)) (D.trace disk.old) walk.old place) }
    ensures file { file.new ≡ file.old }
    ensures same { D.trace disk.new ≡ D.trace disk.old }
    ensures faults { D.faults disk.old ≤ D.faults disk.new }
{
    let page = match file.page(disk, place) {
        Ok(page) => page,
        Err(fault) => return Err(reading_fault(fault)),
    };
    if !walk.step(&page) {
        return Err(CheckFault::Misfit(place));
    }
    Ok(page)
}

//! The table in a file: its pages, one after the other, each at its place.
ghost use Rattle.std.specs.Prelude.{◌≡◌, ◌≤◌, ◌<◌, ◌++◌, ◌∷◌, [], ℕ, List, IsTrue, Some, IfOk, IfErr, IfSome, slice_get};
ghost use Rattle.outside_io.specs.Causes.{Rose};
ghost use Rattle.page_codec.specs.Bounds.{IsPage, IsParams};
ghost use Rattle.page_codec.specs.Places.{FitsPlace, walk_of};
ghost use Rattle.page_file.specs.Files.{IsSealed};
ghost use Rattle.page_file.specs.Notes.{Suits, count_of};
ghost use Rattle.page_codec.specs.declared.page.Page.{Page};
ghost use Rattle.datamine_program.specs.Inner.{reading_fault, without_header, IsBehind, IsPageFault, IsShowFault};

use outside_io::Disk;
use page_codec::{Page, Params, Walk};
use page_file::{FileFault, PageFile, look};
use std::alloc::Global;

// Why the table in a file is not shown. The first cause in the order of the variants is told.
#[derive(Drop)]
pub(crate) enum ShowFault {
    // A call of the disk failed.
    DiskFault,
    // The file has so many bytes, over 107, and does not begin with an open gate.
    Foreign(u64),
    // The page is the first behind an open gate that is not spelled there.
    BadPage(u64),
    // The page is the first that does not fit its place.
    Misplaced(u64),
    // No page is sealed.
    NoPage,
    // Memory was wanting.
    Memory,
}

// Why a file was not looked at, or a page not read.
fn reading_fault(fault: FileFault) -> ShowFault
    ensures { result ≡ reading_fault fault }
{
    match fault {
        FileFault::DiskFault => ShowFault::DiskFault,
        FileFault::Foreign(bytes) => ShowFault::Foreign(bytes),
        FileFault::BadPage(page) => ShowFault::BadPage(page),
        FileFault::Memory(_) => ShowFault::Memory,
    }
}

// Looks at the disk.
fn open<D: Disk>(alloc: Global, disk: &mut D) -> Result<PageFile, ShowFault>
    ensures ok { IfOk result (λ file. IfSome (D.trace disk.old) (λ t. Suits file t.now.contents)) }
    ensures live { IfOk result (λ file. IsTrue file.is_live) }
    ensures err { IfErr result (IsShowFault (Rose (D.faults disk.old) (D.faults disk.new)) (D.trace disk.old)) }
    ensures same { D.trace disk.new ≡ D.trace disk.old }
    ensures faults { D.faults disk.old ≤ D.faults disk.new }
{
    match look(alloc, disk) {
        Ok(file) => Ok(file),
        Err(fault) => Err(reading_fault(fault)),
    }
}

// What is told of so many pages that do not begin with a header.
fn without_header(pages: u64) -> ShowFault
    ensures { result ≡ without_header pages }
{
    if pages == 0 {
        return ShowFault::NoPage;
    }
    ShowFault::Misplaced(0)
}

// A file whose first page is a header, and the parameters of that.
#[derive(Drop)]
pub(crate) struct TableFile {
    pub(crate) file: PageFile,
    pub(crate) params: Params,
}

// Looks at the disk, and refuses a file without a header.
pub(crate) fn open_table<D: Disk>(alloc: Global, disk: &mut D) -> Result<TableFile, ShowFault>
    ensures ok { IfOk result (λ opened. IfSome (D.trace disk.old) (λ t. Suits opened.file t.now.contents)) }
    ensures live { IfOk result (λ opened. IsTrue opened.file.is_live) }
    ensures header { IfOk result (λ opened. opened.file.params ≡ Some opened.params) }
    ensures params { IfOk result (λ opened. IsParams opened.params) }
    ensures err { IfErr result (IsShowFault (Rose (D.faults disk.old) (D.faults disk.new)) (D.trace disk.old)) }
    ensures same { D.trace disk.new ≡ D.trace disk.old }
    ensures faults { D.faults disk.old ≤ D.faults disk.new }
{
    let file = match open(alloc, disk) {
        Ok(file) => file,
        Err(fault) => return Err(fault),
    };
    match file.params() {
        Some(params) => Ok(TableFile { file, params }),
        None => Err(without_header(file.count())),
    }
}

// Reads a page, and goes on over it where it fits behind those that the walk went over.
pub(crate) fn next_page<D: Disk>(
    file: &mut PageFile,
    disk: &mut D,
    walk: &mut Walk,
    place: u64,
) -> Result<Page, ShowFault>
    requires live { IsTrue file.old.is_live }
    requires suits { IfSome (D.trace disk.old) (λ t. Suits file.old t.now.contents) }
    requires within { place < count_of file.old }
    requires behind { (before : List Page) × IsBehind walk.old before }
    ensures page { IfOk result IsPage }
    ensures sealed { IfOk result (λ page. IfSome (D.trace disk.old) (λ t. (pages : List Page) → IsSealed pages t.now.contents → slice_get pages place ≡ Some page)) }
    ensures fits { IfOk result (λ page. (before : List Page) → IsBehind walk.old before
        → FitsPlace walk.old.params walk.old.relations before page × (walk.new ≡ walk_of walk.old.params walk.old.relations (before ++ page ∷ []))) }
    ensures err { IfErr result (IsPageFault (Rose (D.faults disk.old) (D.faults disk.new)) (D.trace disk.old) walk.old place) }
    ensures file { file.new ≡ file.old }
    ensures same { D.trace disk.new ≡ D.trace disk.old }
    ensures faults { D.faults disk.old ≤ D.faults disk.new }
{
    let page = match file.page(disk, place) {
        Ok(page) => page,
        Err(fault) => return Err(reading_fault(fault)),
    };
    if !walk.step(&page) {
        return Err(ShowFault::Misplaced(place));
    }
    Ok(page)
}

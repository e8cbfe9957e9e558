//! The file with which a build goes on: its parameters, and the places of its pages.
ghost use Rattle.std.specs.Prelude.{◌≡◌, ◌↔◌, ◌<◌, ◌≤◌, ◌+◌, ◌∷◌, ◌++◌, [], ℕ, List, IsTrue, IsErrOf, false, None, Some, IfOk, IfErr, IfSome, IfNone, OnOk, length, slice_get};
ghost use Rattle.outside_io.specs.Causes.{Rose};
ghost use Rattle.outside_io.specs.Moments.{IsImage};
ghost use Rattle.page_codec.specs.declared.page.Page.{Page};
ghost use Rattle.page_codec.specs.Bounds.{IsPage, IsParams};
ghost use Rattle.page_codec.specs.Places.{FitsPlace, block_count, walk_of};
ghost use Rattle.page_file.specs.Notes.{Suits, count_of};
ghost use Rattle.table_model.specs.ListedSpan.{relation_count};
ghost use Rattle.file_model.specs.Builds.{FitsAt, HasParams, IsOurs};
ghost use Rattle.table_build.specs.Inner.{IsBehind, IfSealed, IsReadFault};
ghost use Rattle.table_build.specs.Resumes.{Tells, fault_says, CanTell, IsWorkedFault};

use crate::fault::{ResumeFault, look_fault};
use outside_io::Disk;
use page_codec::{Page, Params, Walk};
use page_file::{PageFile, look};
use relation_list::listing;
use std::alloc::{AllocError, Global};

/// How many relations the table of the parameters has.
pub fn relation_count(alloc: Global, params: &Params) -> Result<u32, AllocError>
    requires { IsParams params.now }
    ensures { IfOk result (λ n. n ≡ relation_count params.now.weight params.now.depth) }
{
    let names = listing(alloc, params.weight, params.depth)?;
    Ok(names.len() as u32)
}

// Reads a page, and goes on over it where it fits behind those that the walk went over; none where it does not.
pub(crate) fn next_page<D: Disk>(
    file: &mut PageFile,
    disk: &mut D,
    walk: &mut Walk,
    place: u64,
) -> Result<Option<Page>, ResumeFault>
    requires live { IsTrue file.old.is_live }
    requires suits { IfSome (D.trace disk.old) (λ t. Suits file.old t.now.contents) }
    requires within { place < count_of file.old }
    requires behind { (before : List Page) × IsBehind walk.old before }
    ensures page { IfOk result (λ o. IfSome o IsPage) }
    ensures sealed { IfOk result (λ o. IfSome o (λ page. IfSealed (λ pages. slice_get pages place ≡ Some page) (D.trace disk.old))) }
    ensures fits { IfOk result (λ o. IfSome o (λ page. (before : List Page) → IsBehind walk.old before
        → FitsPlace walk.old.params walk.old.relations before page × (walk.new ≡ walk_of walk.old.params walk.old.relations (before ++ page ∷ [])))) }
    ensures misfit { IfOk result (λ o. IfNone o (IfSealed (λ pages. (before : List Page) → IsBehind walk.old before
        → (page : Page) → slice_get pages place ≡ Some page → ¬ (FitsPlace walk.old.params walk.old.relations before page)) (D.trace disk.old))) }
    ensures fault { IfErr result (IsReadFault (Rose (D.faults disk.old) (D.faults disk.new)) (D.trace disk.old ≡ None)) }
    ensures file { file.new ≡ file.old }
    ensures same { D.trace disk.new ≡ D.trace disk.old }
    ensures faults { D.faults disk.old ≤ D.faults disk.new }
{
    let page = match file.page(disk, place) {
        Ok(page) => page,
        Err(fault) => return Err(look_fault(fault)),
    };
    if !walk.step(&page) {
        return Ok(None);
    }
    Ok(Some(page))
}

// Whether each page fits its place; the first that does not is told.
fn test_places<D: Disk>(
    params: &Params,
    relations: u32,
    file: &mut PageFile,
    disk: &mut D,
) -> Result<(), ResumeFault>
    requires params { IsParams params.now }
    requires relations { relations ≡ relation_count params.now.weight params.now.depth }
    requires live { IsTrue file.old.is_live }
    requires suits { IfSome (D.trace disk.old) (λ t. Suits file.old t.now.contents) }
    requires header { IfSealed (HasParams params.now) (D.trace disk.old) }
    ensures fit { OnOk result (IfSealed (λ sealed. (i : ℕ) → i < length sealed → FitsAt params.now sealed i) (D.trace disk.old)) }
    ensures few { OnOk result (count_of file.old ≤ block_count relations + 35) }
    ensures told { IfErr result (λ fault. Tells params.now (D.trace disk.old) (fault_says fault)) }
    ensures disk_fault { IsErrOf result ResumeFault.DiskFault → Rose (D.faults disk.old) (D.faults disk.new) }
    ensures unworked { IfErr result (λ fault. ¬ (IsWorkedFault fault)) }
    ensures can_tell { IfErr result CanTell }
    ensures file { file.new ≡ file.old }
    ensures same { D.trace disk.new ≡ D.trace disk.old }
    ensures faults { D.faults disk.old ≤ D.faults disk.new }
{
    let mut walk = Walk::new(*params, relations);
    let count = file.count();
    for place in 0..count {
        match next_page(file, disk, &mut walk, place) {
            Ok(Some(_)) => {}
            Ok(None) => return Err(ResumeFault::Misfit(place)),
            Err(fault) => return Err(fault),
        }
    }
    Ok(())
}

// Whether a header has these parameters.
fn is_own(params: &Params, relations: u32, header: &Params) -> bool
    requires { IsParams params.now }
    ensures { IsTrue result ↔ (header.now ≡ params.now) }
{
    let mut walk = Walk::new(*params, relations);
    walk.step(&Page::Header(*header))
}

// Looks at the disk, and refuses what is no file of these parameters.
pub(crate) fn open<D: Disk>(
    alloc: Global,
    params: &Params,
    relations: u32,
    disk: &mut D,
) -> Result<PageFile, ResumeFault>
    requires params { IsParams params.now }
    requires relations { relations ≡ relation_count params.now.weight params.now.depth }
    ensures live { IfOk result (λ file. IsTrue file.is_live) }
    ensures suits { IfOk result (λ file. IfSome (D.trace disk.old) (λ t. Suits file t.now.contents)) }
    ensures ready { IfOk result (λ file. file.is_ready ≡ false) }
    ensures image { OnOk result (IfSome (D.trace disk.old) (λ t. IsImage t.now t.now.contents)) }
    ensures ours { IfOk result (λ file. IfSome (D.trace disk.old) (λ t. (sealed : List Page) × IsOurs params.now t.now.contents sealed × (count_of file ≡ length sealed))) }
    ensures few { IfOk result (λ file. count_of file ≤ block_count relations + 35) }
    ensures told { IfErr result (λ fault. Tells params.now (D.trace disk.old) (fault_says fault)) }
    ensures unworked { IfErr result (λ fault. ¬ (IsWorkedFault fault)) }
    ensures can_tell { IfErr result CanTell }
    ensures disk_fault { IsErrOf result ResumeFault.DiskFault → Rose (D.faults disk.old) (D.faults disk.new) }
    ensures same { D.trace disk.new ≡ D.trace disk.old }
    ensures faults { D.faults disk.old ≤ D.faults disk.new }
{
    // What a length is told of is an image, which a crash may leave.
    if disk.len().is_err() {
        return Err(ResumeFault::DiskFault);
    }
    let mut file = match look(alloc, disk) {
        Ok(file) => file,
        Err(fault) => return Err(look_fault(fault)),
    };
    if let Some(header) = file.params() {
        if !is_own(params, relations, &header) {
            return Err(ResumeFault::Other(header));
        }
    }
    match test_places(params, relations, &mut file, disk) {
        Ok(()) => Ok(file),
        Err(fault) => Err(fault),
    }
}

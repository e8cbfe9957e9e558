//! Migration: the pages of a version 1 file, sealed one by one on an empty disk.
ghost use Rattle.std.specs.Prelude.{◌≡◌, ◌≤◌, ◌<◌, ◌++◌, ◌∷◌, [], ℕ, List, Option, None, Some, IsErrOf, IfOk, IfErr, IfSome, OnOk, length, true, false};
ghost use Rattle.outside_io.specs.Causes.{Rose};
ghost use Rattle.outside_io.specs.Told.{before_told};
ghost use Rattle.outside_io.specs.Traces.{Trace};
ghost use Rattle.page_codec.specs.declared.params.Params.{Params};
ghost use Rattle.page_codec.specs.declared.page.Page.{Page};
ghost use Rattle.page_codec.specs.declared.page.Page.TheVariants.{Header};
ghost use Rattle.page_codec.specs.declared.walk.Last.TheVariants.{DonePage};
ghost use Rattle.page_codec.specs.Bounds.{IsParams, IsOldParams};
ghost use Rattle.page_codec.specs.Places.{WalkAt};
ghost use Rattle.page_file.specs.Files.{file_of};
ghost use Rattle.page_file.specs.Stays.{Leaves};
ghost use Rattle.table_model.specs.ListedSpan.{relation_count};
ghost use Rattle.file_model.specs.FinalRows.{EndsDone};
ghost use Rattle.file_model.specs.Prefixes.{IsFile};
ghost use Rattle.table_migration.specs.OldFiles.{old_spelling, old_opened, IsOldFile};
ghost use Rattle.table_migration.specs.Migrations.{Answer, ArePassed, IsReading, AreOldPages, MigrationEnds, Climbs};
ghost use Rattle.table_migration.specs.Answers.{answer_of, IsBegun};
ghost use Rattle.table_migration.specs.Inner.{IsDiskCause, IsCause, Stands, IsReady, AreCopied, IsStopped};

use crate::fault::MigrateFault;
use crate::reading::{Next, next_page};
use outside_io::{Disk, Source};
use page_codec::{Page, Params, Walk};
use page_file::{PageFile, look};
use relation_list::listing;
use std::alloc::{AllocError, Global};

/// What was migrated: the parameters in the Header, and how many pages are sealed.
#[derive(Clone, Copy, PartialEq, Eq)]
pub struct Migrated {
    pub params: Params,
    pub pages: u64,
}

// How many relations the table of the parameters has.
fn relation_count(alloc: Global, params: &Params) -> Result<u32, AllocError>
    requires { IsParams params.now }
    ensures { IfOk result (λ n. n ≡ relation_count params.now.weight params.now.depth) }
{
    let names = listing(alloc, params.weight, params.depth)?;
    Ok(names.len() as u32)
}

// A file without pages, ready for the first one, on a disk that is empty.
fn begin<D: Disk>(alloc: Global, disk: &mut D) -> Result<PageFile, MigrateFault>
    requires empty { IfSome (D.trace disk.old) (λ t. t.now.contents ≡ []) }
    ensures ready { IfOk result (λ file. IsReady 0 file (D.trace disk.new)) }
    ensures stands { OnOk result (Stands [] (D.trace disk.new)) }
    ensures keeps { Climbs [] (D.trace disk.old) (D.trace disk.new) }
    ensures cause { IfErr result (IsDiskCause (Rose (D.faults disk.old) (D.faults disk.new)) (D.trace disk.old ≡ None)) }
    ensures faults { D.faults disk.old ≤ D.faults disk.new }
{
    let mut file = look(alloc, disk)?;
    if file.count() > 0 {
        return Err(MigrateFault::Exists(0));
    }
    file.renew(disk)?;
    Ok(file)
}

// The parameters in the first page of the source.
fn header<S: Source>(
    alloc: Global,
    source: &mut S,
    buffer: &mut Vec<u8>,
) -> Result<Params, MigrateFault>
    ensures ok { IfOk result (λ params. IsOldParams params × (S.left source.old ≡ before_told (old_opened (Header params ∷ [])) (S.left source.new))) }
    ensures stopped { (told : Option Trace) → Stands [] told → IfErr result (IsStopped (S.left source.old) told told) }
    ensures cause { IfErr result (IsCause ⊥ (Rose (S.faults source.old) (S.faults source.new))) }
    ensures faults { S.faults source.old ≤ S.faults source.new }
{
    let page = match next_page(alloc, source, buffer)? {
        Next::Passed(page) => page,
        Next::Unread => return Err(MigrateFault::BadPage(0)),
        Next::End => return Err(MigrateFault::NotDone(0)),
    };
    match &page {
        Page::Header(params) => Ok(*params),
        _ => Err(MigrateFault::Misfit(0)),
    }
}

// Takes the next page from the source, and seals it.
fn copy_page<S: Source, D: Disk>(
    alloc: Global,
    source: &mut S,
    disk: &mut D,
    buffer: &mut Vec<u8>,
    file: &mut PageFile,
    walk: &mut Walk,
) -> Result<(), MigrateFault>
    requires { (params : Params) × (pages : List Page) × (first : Option (List ℕ)) × (old : Option Trace)
        × AreCopied params pages walk.old file.old first (S.left source.old) old (D.trace disk.old) }
    ensures ok { (params : Params) (pages : List Page) (first : Option (List ℕ)) (old : Option Trace)
        → AreCopied params pages walk.old file.old first (S.left source.old) old (D.trace disk.old)
        → OnOk result ((page : Page) × AreCopied params (pages ++ page ∷ []) walk.new file.new first (S.left source.new) old (D.trace disk.new)) }
    ensures stopped { (params : Params) (pages : List Page) (first : Option (List ℕ)) (old : Option Trace)
        → AreCopied params pages walk.old file.old first (S.left source.old) old (D.trace disk.old) → ¬ (walk.old.last ≡ DonePage)
        → IfErr result (IsStopped first old (D.trace disk.new)) }
    ensures cause { IfErr result (IsCause (Rose (D.faults disk.old) (D.faults disk.new)) (Rose (S.faults source.old) (S.faults source.new))) }
    ensures disk_faults { D.faults disk.old ≤ D.faults disk.new }
    ensures source_faults { S.faults source.old ≤ S.faults source.new }
{
    let page = match next_page(alloc, source, buffer)? {
        Next::Passed(page) => page,
        Next::Unread => return Err(MigrateFault::BadPage(file.count())),
        Next::End => return Err(MigrateFault::NotDone(file.count())),
    };
    if !walk.step(&page) {
        return Err(MigrateFault::Misfit(file.count()));
    }
    file.seal(disk, &page)?;
    Ok(())
}

// Takes the pages of a source up to a Done page, and seals them behind each other.
fn copy_pages<S: Source, D: Disk>(
    alloc: Global,
    source: &mut S,
    disk: &mut D,
    file: &mut PageFile,
) -> Result<Migrated, MigrateFault>
    requires ready { IsReady 0 file.old (D.trace disk.old) }
    requires stands { Stands [] (D.trace disk.old) }
    ensures ok { IfOk result (λ migrated. (pages : List Page) × (walk : WalkAt) × AreCopied migrated.params pages walk file.new
        (S.left source.old) (S.left source.new) (D.trace disk.old) (D.trace disk.new) × EndsDone pages × (migrated.pages ≡ length pages)) }
    ensures params { IfOk result (λ migrated. IsParams migrated.params) }
    ensures stopped { IfErr result (IsStopped (S.left source.old) (D.trace disk.old) (D.trace disk.new)) }
    ensures cause { IfErr result (IsCause (Rose (D.faults disk.old) (D.faults disk.new)) (Rose (S.faults source.old) (S.faults source.new))) }
    ensures disk_faults { D.faults disk.old ≤ D.faults disk.new }
    ensures source_faults { S.faults source.old ≤ S.faults source.new }
{
    let mut buffer = Vec::new(alloc);
    let params = header(alloc, source, &mut buffer)?;
    let relations = relation_count(alloc, &params)?;
    let header = Page::Header(params);
    let mut walk = Walk::new(params, relations);
    let _ = walk.step(&header);
    file.seal(disk, &header)?;
    'pages: while !walk.is_done() {
        copy_page(alloc, source, disk, &mut buffer, file, &mut walk)?;
    }
    Ok(Migrated {
        params,
        pages: file.count(),
    })
}

/// Reads a version 1 file from the source, and writes it as version 2 onto an empty disk, page by page, each sealed as it comes.
///
/// It ends at the Done page, and no byte behind that is taken. `DiskFault` and `ReadFault` only where that count rose. `Exists` where the disk
/// is not empty, with its length; nothing is then done. `BadPage(i)` where page `i` is the first that stands behind an open gate and is not
/// spelled there, `Misfit(i)` where it is the first that does not fit its place, and `NotDone(n)` where reading ends behind `n` pages before
/// a Done page; the pages before are sealed. `Memory` at any step. Over a disk that does not tell its moments `Exists` may also come where
/// bytes were found on a disk whose length was 0.
pub fn migrate<S: Source, D: Disk>(
    alloc: Global,
    source: &mut S,
    disk: &mut D,
) -> Result<Migrated, MigrateFault>
    ensures ends { IfSome (answer_of result) (λ answer. IfSome (S.left source.old) (λ bytes. MigrationEnds bytes answer)) }
    ensures left { IfSome (answer_of result) (λ answer. IfSome (S.left source.old) (λ bytes. (pages : List Page) → IsReading bytes pages answer
        → Leaves (λ _ contents. contents ≡ file_of pages) (D.trace disk.old) (D.trace disk.new))) }

    // A crash at any moment since leaves the first pages that reading passes, never fewer than were sealed, and nothing that is foreign.
    ensures moments { IfSome (S.left source.old) (λ bytes. (pages : List Page) → AreOldPages bytes pages
        → Climbs pages (D.trace disk.old) (D.trace disk.new)) }

    // The file of some parameters becomes their new file.
    ensures file { IfSome (S.left source.old) (λ bytes. (params : Params) → IsParams params → IsOldFile params bytes
        → IfOk result (λ migrated. (migrated.params ≡ params) × Leaves (λ _ contents. IsFile params contents) (D.trace disk.old) (D.trace disk.new))) }

    ensures params { IfOk result (λ migrated. IsParams migrated.params) }

    // What stands behind the Done page is left.
    ensures unread { OnOk result (IfSome (S.left source.old) (λ bytes. (pages : List Page) × EndsDone pages
        × ((rest : List ℕ) × (S.left source.new ≡ Some rest) × ArePassed bytes pages rest))) }
    ensures exists { (n : ℕ) → IsErrOf result (MigrateFault.Exists n) → IfSome (D.trace disk.old) (λ t. (n ≡ length t.now.contents) × (0 < n)) }
    ensures begun { IsBegun result → IfSome (D.trace disk.old) (λ t. t.now.contents ≡ []) }
    ensures refused { IfSome (D.trace disk.old) (λ t. 0 < length t.now.contents → D.trace disk.new ≡ D.trace disk.old) }
    ensures untaken { IfSome (D.trace disk.old) (λ t. 0 < length t.now.contents → source.new ≡ source.old) }
    ensures disk_fault { IsErrOf result MigrateFault.DiskFault → Rose (D.faults disk.old) (D.faults disk.new) }
    ensures read_fault { IsErrOf result MigrateFault.ReadFault → Rose (S.faults source.old) (S.faults source.new) }
    ensures disk_faults { D.faults disk.old ≤ D.faults disk.new }
    ensures source_faults { S.faults source.old ≤ S.faults source.new }
{
    let len = match disk.len() {
        Ok(len) => len,
        Err(_) => return Err(MigrateFault::DiskFault),
    };
    if len > 0 {
        return Err(MigrateFault::Exists(len));
    }
    let mut file = begin(alloc, disk)?;
    copy_pages(alloc, source, disk, &mut file)
}

//! The forward rows of a file, put back.
ghost use Rattle.std.specs.Prelude.{◌≡◌, ◌≢◌, ◌⊎◌, ◌↔◌, ◌<◌, ◌≤◌, ◌+◌, ◌-◌, ◌*◌, ◌∷◌, ◌++◌, [], ℕ, suc, min, List, IsTrue, IsErrOf, None, Some, All, IfOk, IfErr, IfSome, OnOk, length, take};
ghost use Rattle.zeta_model.specs.Inverses.{HasInverse};
ghost use Rattle.outside_io.specs.Causes.{Rose};
ghost use Rattle.page_codec.specs.declared.page.Page.{Page};
ghost use Rattle.page_codec.specs.declared.parts.ForwardEntry.{ForwardEntry};
ghost use Rattle.page_codec.specs.declared.parts.ForwardPage.{ForwardPage};
ghost use Rattle.std.specs.List.{AllByRecursion};
ghost use Rattle.page_codec.specs.Bounds.{IsPage, IsParams, IsRowData, IsCombData, AreForward};
ghost use Rattle.page_codec.specs.Places.{AreBelow, block_count};
ghost use Rattle.page_rows.specs.Written.{AreResidues};
ghost use Rattle.page_file.specs.Notes.{Suits, count_of as page_count};
ghost use Rattle.table_model.specs.Conversion.{Converts};
ghost use Rattle.file_model.specs.TableOf.{IsTableOf};
ghost use Rattle.file_model.specs.Pages.{pairs_of};
ghost use Rattle.file_model.specs.Resuming.{entries_of, entries_of_page, Suits as SuitsBehind, AllSuit};
ghost use Rattle.file_model.specs.Builds.{IsOurs};
ghost use Rattle.table_build.specs.Inner.{AreRising, AreRows, AreRowsOf, AreRowsOn, CanOffer, IfSealed, Stands};
ghost use Rattle.table_build.specs.Resumes.{Tells, fault_says, CanTell, IsWorkedFault};

use crate::block::KeptRows;
use crate::fault::ResumeFault;
use crate::offering::Offering;
use crate::opening::next_page;
use echelon::RestoreFault;
use outside_io::Disk;
use page_codec::{CombData, ForwardEntry, Page, Params, Walk};
use page_file::PageFile;
use page_rows::{combination_of_data, row_of_data};
use residues::Ring;
use std::alloc::{AllocError, Global};

// Whether the residue of the combination at its entry's number has an inverse.
fn has_own<R: Ring>(
    alloc: Global,
    ring: &R,
    number: u32,
    pairs: &CombData,
) -> Result<bool, AllocError>
    requires residues { AreResidues (λ k. k) (R.modulus ring.now) pairs.now }
    ensures { IfOk result (λ has. IsTrue has ↔ HasInverse (R.modulus ring.now) (pairs_of pairs.now number)) }
{
    let combination = combination_of_data(alloc, ring, pairs)?;
    let own = combination.entry(ring, number);
    Ok(ring.inverse(own).is_some())
}

// Whether a number is one of these.
fn stands(numbers: &[u32], number: u32) -> bool
    requires rising { AreRising numbers.now }
    ensures { IsTrue result ↔ Stands numbers.now number }
{
    numbers.binary_search(&number).is_ok()
}

// Whether each other number of the combination is one of these.
fn has_others(numbers: &[u32], number: u32, pairs: &CombData) -> bool
    requires rising { AreRising numbers.now }
    ensures { IsTrue result ↔ All (λ e. (e.0 ≡ number) ⊎ Stands numbers.now e.0) pairs.now }
{
    for pair in pairs.as_slice() {
        if pair.0 != number && !stands(numbers, pair.0) {
            return false;
        }
    }
    true
}

// Puts the row of an entry back; false where the entry does not suit those before it.
fn restore_entry<R: Ring>(
    alloc: Global,
    offering: &mut Offering<R>,
    kept: &mut KeptRows<R>,
    entry: &ForwardEntry,
) -> Result<bool, AllocError>
    requires can { CanOffer offering.old.table offering.old.names.items offering.old.kept.ring offering.old.echelon entry.now.number }
    requires row_data { IsRowData entry.now.row }
    requires combination_data { IsCombData entry.now.combination }
    requires row { AreBelow (length offering.old.table.columns.list) (R.modulus offering.old.table.ring) entry.now.row }
    requires combination { AreBelow (entry.now.number + 1) (R.modulus offering.old.table.ring) entry.now.combination }
    requires numbers { kept.old.numbers.items ≡ offering.old.echelon.numbers }
    requires same_rows { kept.old.rows.items ≡ offering.old.echelon.rows }
    requires rows { AreRows (R.has offering.old.table.ring) entry.now.number kept.old.numbers.items kept.old.rows.items }
    ensures can { IfOk result (λ suits. IsTrue suits → CanOffer offering.new.table offering.new.names.items offering.new.kept.ring offering.new.echelon (suc entry.now.number)) }
    ensures table { (offering.new.table ≡ offering.old.table) × (offering.new.names.items ≡ offering.old.names.items) }
    ensures numbers { IfOk result (λ suits. IsTrue suits → kept.new.numbers.items ≡ offering.new.echelon.numbers) }
    ensures same_rows { IfOk result (λ suits. IsTrue suits → kept.new.rows.items ≡ offering.new.echelon.rows) }
    ensures rows { IfOk result (λ suits. IsTrue suits → AreRows (R.has offering.old.table.ring) (suc entry.now.number) kept.new.numbers.items kept.new.rows.items) }
    ensures taken { (earlier : List ForwardEntry) → AreRowsOf (R.value offering.old.table.ring) earlier kept.old.numbers.items kept.old.rows.items
        → IfOk result (λ suits. IsTrue suits → AreRowsOf (R.value offering.old.table.ring) (earlier ++ entry.now ∷ []) kept.new.numbers.items kept.new.rows.items) }
    ensures suits { (earlier : List ForwardEntry) → AreRowsOf (R.value offering.old.table.ring) earlier kept.old.numbers.items kept.old.rows.items
        → IfOk result (λ suits. IsTrue suits ↔ SuitsBehind (R.modulus offering.old.table.ring) earlier entry.now) }
{
    let ring = offering.table.ring();
    if !has_others(&kept.numbers, entry.number, &entry.combination) {
        return Ok(false);
    }
    if !has_own(alloc, ring, entry.number, &entry.combination)? {
        return Ok(false);
    }
    let row = row_of_data(alloc, ring, &entry.row)?;
    match offering.echelon.restore(entry.number, &row) {
        Ok(()) => {}
        Err(RestoreFault::NotForward) => return Ok(false),
        Err(RestoreFault::Memory(fault)) => return Err(fault),
    }
    kept.push(entry.number, row)?;
    Ok(true)
}

// Puts the rows of the entries back; false where one does not suit those before it.
fn restore_entries<R: Ring>(
    alloc: Global,
    offering: &mut Offering<R>,
    kept: &mut KeptRows<R>,
    entries: &[ForwardEntry],
    first: u32,
) -> Result<bool, AllocError>
    requires entries { AreForward first (first + 64) entries.now }
    requires in_table { AllByRecursion (λ e. AreBelow (length offering.old.table.columns.list) (R.modulus offering.old.table.ring) e.row
        × AreBelow (e.number + 1) (R.modulus offering.old.table.ring) e.combination) entries.now }
    requires can { CanOffer offering.old.table offering.old.names.items offering.old.kept.ring offering.old.echelon first }
    requires numbers { kept.old.numbers.items ≡ offering.old.echelon.numbers }
    requires same_rows { kept.old.rows.items ≡ offering.old.echelon.rows }
    requires rows { AreRows (R.has offering.old.table.ring) first kept.old.numbers.items kept.old.rows.items }
    ensures can { IfOk result (λ suits. IsTrue suits → CanOffer offering.new.table offering.new.names.items offering.new.kept.ring offering.new.echelon (first + 64)) }
    ensures table { (offering.new.table ≡ offering.old.table) × (offering.new.names.items ≡ offering.old.names.items) }
    ensures numbers { IfOk result (λ suits. IsTrue suits → kept.new.numbers.items ≡ offering.new.echelon.numbers) }
    ensures same_rows { IfOk result (λ suits. IsTrue suits → kept.new.rows.items ≡ offering.new.echelon.rows) }
    ensures rows { IfOk result (λ suits. IsTrue suits → AreRows (R.has offering.old.table.ring) (first + 64) kept.new.numbers.items kept.new.rows.items) }
    ensures taken { (earlier : List ForwardEntry) → AreRowsOf (R.value offering.old.table.ring) earlier kept.old.numbers.items kept.old.rows.items
        → IfOk result (λ suits. IsTrue suits → AreRowsOf (R.value offering.old.table.ring) (earlier ++ entries.now) kept.new.numbers.items kept.new.rows.items) }
    ensures suits { (earlier : List ForwardEntry) → AreRowsOf (R.value offering.old.table.ring) earlier kept.old.numbers.items kept.old.rows.items
        → AllSuit (R.modulus offering.old.table.ring) earlier
        → IfOk result (λ suits. IsTrue suits ↔ AllSuit (R.modulus offering.old.table.ring) (earlier ++ entries.now)) }
{
    let mut rest = entries;
    while let Some((entry, behind)) = rest.split_first() {
        if !restore_entry(alloc, offering, kept, entry)? {
            return Ok(false);
        }
        rest = behind;
    }
    Ok(true)
}

// Puts the rows of a page back; false where one does not suit those before it.
fn restore_page<R: Ring>(
    alloc: Global,
    offering: &mut Offering<R>,
    kept: &mut KeptRows<R>,
    page: &Page,
) -> Result<bool, AllocError>
    requires page { IsPage page.now }
    requires first { (p : ForwardPage) → page.now ≡ Page.Forward p → CanOffer offering.old.table offering.old.names.items offering.old.kept.ring offering.old.echelon p.first
        × AreRows (R.has offering.old.table.ring) p.first kept.old.numbers.items kept.old.rows.items }
    requires in_table { AllByRecursion (λ e. AreBelow (length offering.old.table.columns.list) (R.modulus offering.old.table.ring) e.row
        × AreBelow (e.number + 1) (R.modulus offering.old.table.ring) e.combination) (entries_of_page page.now) }
    requires numbers { kept.old.numbers.items ≡ offering.old.echelon.numbers }
    requires same_rows { kept.old.rows.items ≡ offering.old.echelon.rows }
    ensures can { IfOk result (λ suits. IsTrue suits → (p : ForwardPage) → page.now ≡ Page.Forward p
        → CanOffer offering.new.table offering.new.names.items offering.new.kept.ring offering.new.echelon (p.first + 64)
        × AreRows (R.has offering.old.table.ring) (p.first + 64) kept.new.numbers.items kept.new.rows.items) }
    ensures plain { ((p : ForwardPage) → page.now ≢ Page.Forward p) → (offering.new ≡ offering.old) × (kept.new ≡ kept.old) × IfOk result IsTrue }
    ensures table { (offering.new.table ≡ offering.old.table) × (offering.new.names.items ≡ offering.old.names.items) }
    ensures numbers { IfOk result (λ suits. IsTrue suits → kept.new.numbers.items ≡ offering.new.echelon.numbers) }
    ensures same_rows { IfOk result (λ suits. IsTrue suits → kept.new.rows.items ≡ offering.new.echelon.rows) }
    ensures taken { (earlier : List ForwardEntry) → AreRowsOf (R.value offering.old.table.ring) earlier kept.old.numbers.items kept.old.rows.items
        → IfOk result (λ suits. IsTrue suits → AreRowsOf (R.value offering.old.table.ring) (earlier ++ entries_of_page page.now) kept.new.numbers.items kept.new.rows.items) }
    ensures suits { (earlier : List ForwardEntry) → AreRowsOf (R.value offering.old.table.ring) earlier kept.old.numbers.items kept.old.rows.items
        → AllSuit (R.modulus offering.old.table.ring) earlier
        → IfOk result (λ suits. IsTrue suits ↔ AllSuit (R.modulus offering.old.table.ring) (earlier ++ entries_of_page page.now)) }
{
    let Page::Forward(page) = page else {
        return Ok(true);
    };
    restore_entries(alloc, offering, kept, page.entries.as_slice(), page.first)
}

// Puts the rows of the first pages back, and answers them.
pub(crate) fn restore_rows<D: Disk, R: Ring>(
    alloc: Global,
    params: &Params,
    offering: &mut Offering<R>,
    file: &mut PageFile,
    disk: &mut D,
    pages: u64,
) -> Result<KeptRows<R>, ResumeFault>
    requires params { IsParams params.now }
    requires columns { IsTableOf params.now offering.old.table.columns }
    requires modulus { R.modulus offering.old.table.ring ≡ params.now.modulus }
    requires converts { Converts params.now.modulus offering.old.table.columns }
    requires can { CanOffer offering.old.table offering.old.names.items offering.old.kept.ring offering.old.echelon 0 }
    requires none { (offering.old.echelon.numbers ≡ []) × (offering.old.echelon.rows ≡ []) }
    requires live { IsTrue file.old.is_live }
    requires suits { IfSome (D.trace disk.old) (λ t. Suits file.old t.now.contents) }
    requires ours { IfSome (D.trace disk.old) (λ t. (sealed : List Page) × IsOurs params.now t.now.contents sealed) }
    requires pages { pages ≡ min (page_count file.old) (1 + block_count (length offering.old.names.items)) }
    ensures can { OnOk result (CanOffer offering.new.table offering.new.names.items offering.new.kept.ring offering.new.echelon (64 * (pages - 1))) }
    ensures table { (offering.new.table ≡ offering.old.table) × (offering.new.names.items ≡ offering.old.names.items) }
    ensures numbers { IfOk result (λ kept. kept.numbers.items ≡ offering.new.echelon.numbers) }
    ensures same_rows { IfOk result (λ kept. kept.rows.items ≡ offering.new.echelon.rows) }
    ensures rows { IfOk result (λ kept. AreRows (R.has offering.old.table.ring) (64 * (pages - 1)) kept.numbers.items kept.rows.items) }
    ensures taken { IfOk result (λ kept. IfSealed (λ sealed. AreRowsOn (R.value offering.old.table.ring) sealed kept.numbers.items kept.rows.items
        × AllSuit params.now.modulus (entries_of sealed)) (D.trace disk.old)) }
    ensures told { IfErr result (λ fault. Tells params.now (D.trace disk.old) (fault_says fault)) }
    ensures unworked { IfErr result (λ fault. ¬ (IsWorkedFault fault)) }
    ensures can_tell { IfErr result CanTell }
    ensures disk_fault { IsErrOf result ResumeFault.DiskFault → Rose (D.faults disk.old) (D.faults disk.new) }
    ensures file { file.new ≡ file.old }
    ensures same { D.trace disk.new ≡ D.trace disk.old }
    ensures faults { D.faults disk.old ≤ D.faults disk.new }
{
    let mut kept = KeptRows::none(alloc);
    let mut walk = Walk::new(*params, offering.names.len() as u32);
    for place in 0..pages {
        let page = match next_page(file, disk, &mut walk, place) {
            Ok(Some(page)) => page,
            Ok(None) => return Err(ResumeFault::Differs(place)),
            Err(fault) => return Err(fault),
        };
        match restore_page(alloc, offering, &mut kept, &page) {
            Ok(true) => {}
            Ok(false) => return Err(ResumeFault::NotForward(place)),
            Err(fault) => return Err(ResumeFault::Memory(fault)),
        }
    }
    Ok(kept)
}

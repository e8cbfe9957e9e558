//! The work on the pages of a table, from its first relation to its last page.
ghost use Rattle.std.specs.Prelude.{◌≡◌, ℕ, ◌+◌, ◌*◌, ◌/◌, ◌<◌, ◌≤◌, List, [], None, IsTrue, IsErrOf, length, IfOk, IfErr, IfSome, OnOk};
ghost use Rattle.outside_io.specs.Causes.{Rose};
ghost use Rattle.page_codec.specs.Places.{block_count};
ghost use Rattle.page_file.specs.Notes.{Suits};
ghost use Rattle.table_model.specs.ListedSpan.{count_of};
ghost use Rattle.table_model.specs.ReducedRows.{BreaksFirst};
ghost use Rattle.known_sums.specs.Known.{Knows};
ghost use Rattle.table_build.specs.Faults.{HasCauseIn};
ghost use Rattle.table_build.specs.Inner.{Course, CanOffer, AreRows, IsAt, IsEnd, IsReadyAt, Holds, Keeps};

use crate::block::{KeptRows, offer_block};
use crate::fault::WorkFault;
use crate::finals::seal_finals;
use crate::offering::Offering;
use crate::sealing::seal_block;
use known_sums::KnownSums;
use outside_io::Disk;
use page_file::PageFile;
use residues::Ring;
use std::alloc::Global;

// Offers the relations of a block, and seals its page.
fn work_on_block<D: Disk, R: Ring>(
    alloc: Global,
    offering: &mut Offering<R>,
    known: &mut KnownSums<R>,
    sealed: &mut KeptRows<R>,
    file: &mut PageFile,
    disk: &mut D,
    number: u32,
) -> Result<(), WorkFault>
    requires can { CanOffer offering.old.table offering.old.names.items offering.old.kept.ring offering.old.echelon (64 * number) }
    requires some { 64 * number < length offering.old.names.items }
    requires few { length offering.old.names.items ≤ 1179648 }
    requires known { Knows (R.modulus offering.old.table.ring) (R.has offering.old.table.ring) (R.value offering.old.table.ring) offering.old.table offering.old.echelon.rows known.old }
    requires numbers { sealed.old.numbers.items ≡ offering.old.echelon.numbers }
    requires same_rows { sealed.old.rows.items ≡ offering.old.echelon.rows }
    requires rows { AreRows (R.has offering.old.table.ring) (64 * number) sealed.old.numbers.items sealed.old.rows.items }
    requires ready { IsReadyAt (1 + number) file.old }
    requires suits { IfSome (D.trace disk.old) (λ t. Suits file.old t.now.contents) }
    ensures can { OnOk result (CanOffer offering.new.table offering.new.names.items offering.new.kept.ring offering.new.echelon (64 * (1 + number))) }
    ensures known { OnOk result (Knows (R.modulus offering.old.table.ring) (R.has offering.old.table.ring) (R.value offering.old.table.ring) offering.old.table offering.new.echelon.rows known.new) }
    ensures table { offering.new.table ≡ offering.old.table }
    ensures names { offering.new.names.items ≡ offering.old.names.items }
    ensures numbers { OnOk result (sealed.new.numbers.items ≡ offering.new.echelon.numbers) }
    ensures same_rows { OnOk result (sealed.new.rows.items ≡ offering.new.echelon.rows) }
    ensures rows { OnOk result (AreRows (R.has offering.old.table.ring) (64 * (1 + number)) sealed.new.numbers.items sealed.new.rows.items) }
    ensures ready { OnOk result (IsReadyAt (2 + number) file.new) }
    ensures suits { OnOk result (IfSome (D.trace disk.new) (λ t. Suits file.new t.now.contents)) }
    ensures keeps { (course : Course) → IsAt (R.modulus offering.old.table.ring) (R.value offering.old.table.ring) offering.old.table.columns course number
        sealed.old.numbers.items sealed.old.rows.items (D.trace disk.old) → Keeps course.pages (1 + number) (D.trace disk.old) (D.trace disk.new) }
    ensures at { (course : Course) → IsAt (R.modulus offering.old.table.ring) (R.value offering.old.table.ring) offering.old.table.columns course number
        sealed.old.numbers.items sealed.old.rows.items (D.trace disk.old)
        → OnOk result (IsAt (R.modulus offering.old.table.ring) (R.value offering.old.table.ring) offering.old.table.columns course (1 + number)
        sealed.new.numbers.items sealed.new.rows.items (D.trace disk.new)) }
    ensures fault { (course : Course) → IsAt (R.modulus offering.old.table.ring) (R.value offering.old.table.ring) offering.old.table.columns course number
        sealed.old.numbers.items sealed.old.rows.items (D.trace disk.old)
        → IfErr result (HasCauseIn (Rose (D.faults disk.old) (D.faults disk.new)) (D.trace disk.old ≡ None)
        (λ value n. (n < count_of offering.old.table.columns) × BreaksFirst (R.modulus offering.old.table.ring) offering.old.table.columns course.work.sums n value
        × Holds course.pages (1 + n / 64) (D.trace disk.new))) }
    ensures untold { D.trace disk.old ≡ None → D.trace disk.new ≡ None }
    ensures disk_fault { IsErrOf result WorkFault.DiskFault → Rose (D.faults disk.old) (D.faults disk.new) }
    ensures faults { D.faults disk.old ≤ D.faults disk.new }
{
    let first = 64 * number;
    let end = (offering.names.len() as u32).min(first + 64);
    let block = match offer_block(alloc, offering, known, first, end) {
        Ok(block) => block,
        Err(fault) => return Err(fault),
    };
    seal_block(
        alloc,
        offering.table.ring(),
        sealed,
        file,
        disk,
        number,
        block,
    )
}

// Offers the relations from a block on, and seals the pages of their blocks.
fn work_on_blocks<D: Disk, R: Ring>(
    alloc: Global,
    offering: &mut Offering<R>,
    known: &mut KnownSums<R>,
    sealed: &mut KeptRows<R>,
    file: &mut PageFile,
    disk: &mut D,
    first: u32,
    blocks: u32,
) -> Result<(), WorkFault>
    requires can { CanOffer offering.old.table offering.old.names.items offering.old.kept.ring offering.old.echelon (64 * first) }
    requires few { length offering.old.names.items ≤ 1179648 }
    requires all { blocks ≡ block_count (length offering.old.names.items) }
    requires order { first ≤ blocks }
    requires known { Knows (R.modulus offering.old.table.ring) (R.has offering.old.table.ring) (R.value offering.old.table.ring) offering.old.table offering.old.echelon.rows known.old }
    requires numbers { sealed.old.numbers.items ≡ offering.old.echelon.numbers }
    requires same_rows { sealed.old.rows.items ≡ offering.old.echelon.rows }
    requires rows { AreRows (R.has offering.old.table.ring) (64 * first) sealed.old.numbers.items sealed.old.rows.items }
    requires ready { IsReadyAt (1 + first) file.old }
    requires suits { IfSome (D.trace disk.old) (λ t. Suits file.old t.now.contents) }
    ensures can { OnOk result (CanOffer offering.new.table offering.new.names.items offering.new.kept.ring offering.new.echelon (64 * blocks)) }
    ensures known { OnOk result (Knows (R.modulus offering.old.table.ring) (R.has offering.old.table.ring) (R.value offering.old.table.ring) offering.old.table offering.new.echelon.rows known.new) }
    ensures table { offering.new.table ≡ offering.old.table }
    ensures numbers { OnOk result (sealed.new.numbers.items ≡ offering.new.echelon.numbers) }
    ensures same_rows { OnOk result (sealed.new.rows.items ≡ offering.new.echelon.rows) }
    ensures rows { OnOk result (AreRows (R.has offering.old.table.ring) (64 * blocks) sealed.new.numbers.items sealed.new.rows.items) }
    ensures ready { OnOk result (IsReadyAt (1 + blocks) file.new) }
    ensures suits { OnOk result (IfSome (D.trace disk.new) (λ t. Suits file.new t.now.contents)) }
    ensures keeps { (course : Course) → IsAt (R.modulus offering.old.table.ring) (R.value offering.old.table.ring) offering.old.table.columns course first
        sealed.old.numbers.items sealed.old.rows.items (D.trace disk.old)
        → Keeps course.pages (1 + first) (D.trace disk.old) (D.trace disk.new) }
    ensures at { (course : Course) → IsAt (R.modulus offering.old.table.ring) (R.value offering.old.table.ring) offering.old.table.columns course first
        sealed.old.numbers.items sealed.old.rows.items (D.trace disk.old)
        → OnOk result (IsAt (R.modulus offering.old.table.ring) (R.value offering.old.table.ring) offering.old.table.columns course blocks
        sealed.new.numbers.items sealed.new.rows.items (D.trace disk.new)) }
    ensures fault { (course : Course) → IsAt (R.modulus offering.old.table.ring) (R.value offering.old.table.ring) offering.old.table.columns course first
        sealed.old.numbers.items sealed.old.rows.items (D.trace disk.old)
        → IfErr result (HasCauseIn (Rose (D.faults disk.old) (D.faults disk.new)) (D.trace disk.old ≡ None)
        (λ value n. (n < count_of offering.old.table.columns) × BreaksFirst (R.modulus offering.old.table.ring) offering.old.table.columns course.work.sums n value
        × Holds course.pages (1 + n / 64) (D.trace disk.new))) }
    ensures untold { D.trace disk.old ≡ None → D.trace disk.new ≡ None }
    ensures disk_fault { IsErrOf result WorkFault.DiskFault → Rose (D.faults disk.old) (D.faults disk.new) }
    ensures faults { D.faults disk.old ≤ D.faults disk.new }
{
    for number in first..blocks {
        if let Err(fault) = work_on_block(alloc, offering, known, sealed, file, disk, number) {
            return Err(fault);
        }
    }
    Ok(())
}

// Works from a block to the last page, and answers how many relations and final rows there are.
pub(crate) fn work<D: Disk, R: Ring>(
    alloc: Global,
    offering: &mut Offering<R>,
    mut sealed: KeptRows<R>,
    file: &mut PageFile,
    disk: &mut D,
    first: u32,
) -> Result<(u32, u32), WorkFault>
    requires can { CanOffer offering.old.table offering.old.names.items offering.old.kept.ring offering.old.echelon (64 * first) }
    requires few { length offering.old.names.items ≤ 1179648 }
    requires order { first ≤ block_count (length offering.old.names.items) }
    requires numbers { sealed.numbers.items ≡ offering.old.echelon.numbers }
    requires same_rows { sealed.rows.items ≡ offering.old.echelon.rows }
    requires rows { AreRows (R.has offering.old.table.ring) (64 * first) sealed.numbers.items sealed.rows.items }
    requires ready { IsReadyAt (1 + first) file.old }
    requires suits { IfSome (D.trace disk.old) (λ t. Suits file.old t.now.contents) }
    ensures relations { IfOk result (λ counts. counts.0 ≡ count_of offering.old.table.columns) }
    ensures ready { IfOk result (λ counts. IsReadyAt (2 + block_count (count_of offering.old.table.columns) + block_count counts.1) file.new) }
    ensures keeps { (course : Course) → IsAt (R.modulus offering.old.table.ring) (R.value offering.old.table.ring) offering.old.table.columns course first
        sealed.numbers.items sealed.rows.items (D.trace disk.old)
        → Keeps course.pages (1 + first) (D.trace disk.old) (D.trace disk.new) }
    ensures end { (course : Course) → IsAt (R.modulus offering.old.table.ring) (R.value offering.old.table.ring) offering.old.table.columns course first
        sealed.numbers.items sealed.rows.items (D.trace disk.old)
        → IfOk result (λ counts. IsEnd (R.modulus offering.old.table.ring) offering.old.table.columns course counts.1 (D.trace disk.new)) }
    ensures fault { (course : Course) → IsAt (R.modulus offering.old.table.ring) (R.value offering.old.table.ring) offering.old.table.columns course first
        sealed.numbers.items sealed.rows.items (D.trace disk.old)
        → IfErr result (HasCauseIn (Rose (D.faults disk.old) (D.faults disk.new)) (D.trace disk.old ≡ None)
        (λ value n. (n < count_of offering.old.table.columns) × BreaksFirst (R.modulus offering.old.table.ring) offering.old.table.columns course.work.sums n value
        × Holds course.pages (1 + n / 64) (D.trace disk.new))) }
    ensures untold { D.trace disk.old ≡ None → D.trace disk.new ≡ None }
    ensures disk_fault { IsErrOf result WorkFault.DiskFault → Rose (D.faults disk.old) (D.faults disk.new) }
    ensures faults { D.faults disk.old ≤ D.faults disk.new }
{
    let relations = offering.names.len() as u32;
    let blocks = (relations + 63) / 64;
    // Nothing is known of rows that were put back, until offers add nothing to them.
    let mut known = KnownSums::new(alloc);
    if let Err(fault) = work_on_blocks(
        alloc,
        offering,
        &mut known,
        &mut sealed,
        file,
        disk,
        first,
        blocks,
    ) {
        return Err(fault);
    }
    let finals = match offering.echelon.finish() {
        Ok(finals) => finals,
        Err(fault) => return Err(WorkFault::Memory(fault)),
    };
    match seal_finals(
        alloc,
        offering.table.ring(),
        &sealed,
        blocks,
        file,
        disk,
        &finals,
        0,
    ) {
        Ok(()) => Ok((relations, finals.rows.len())),
        Err(fault) => Err(fault),
    }
}

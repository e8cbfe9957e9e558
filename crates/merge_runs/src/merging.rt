//! What a merge writes, and how it ends.
ghost use Rattle.std.specs.Prelude.{◌≡◌, ℕ, [], true, List, Ok, Err, map, IfOk, IsErrOf, MatchResult, string_bytes};
ghost use Rattle.zeta_model.specs.declared.Letter.{Letter};
ghost use Rattle.zeta_model.specs.Words.{ends_with_y};
ghost use Rattle.column_order.specs.Columns.{ColumnList};
ghost use Rattle.page_codec.specs.Bounds.{IsParams};
ghost use Rattle.lyndon_polys.specs.Tables.{RingTable};
ghost use Rattle.table_model.specs.Conversion.{Converts};
ghost use Rattle.file_model.specs.TableOf.{IsTableOf};
ghost use Rattle.share_model.specs.declared.share.Share.{Share};
ghost use Rattle.whole_runs.specs.Texts.{word_line};
ghost use Rattle.merge_program.specs.declared.words.TableWords.{TableWords};
ghost use Rattle.merge_program.specs.MergeWords.{IsDealt};
ghost use Rattle.merge_runs.specs.Disks.{AnyRose, NoneFell};
ghost use Rattle.merge_runs.specs.Runs.{ends, file_line, IsFinish, IsOver, IsOverTable};
ghost use Rattle.merge_runs.specs.Inner.{CanTell, HoldsOfFiles, Stands, TellsFault, why_of};

use crate::taking::{NotAShare, TakingFault, take_files};
use crate::texts::{
    bad_row_text, leaves_text, merged_text, missing_text, not_reduced_text, other_text, turn_text,
    unreadable_text, word_text,
};
use lyndon_polys::{LyndonFault, LyndonTable};
use merge_program::{MergeStatus, TableWords};
use odd_residues::ResidueRing;
use outside_io::Disk;
use page_codec::Params;
use relation_list::listing;
use residues::Ring;
use share_core::{Coordinator, Refusal};
use share_merge::MergeFault;
use share_model::ShareFault;
use std::alloc::{AllocError, Global};
use table_columns::columns_of;

/// All that is to be written, and how the run then ends.
#[derive(Drop)]
pub(crate) struct Ending {
    pub(crate) text: String,
    pub(crate) status: MergeStatus,
}

/// Why there is nothing to be written.
#[derive(Drop)]
pub(crate) enum BrokenOff {
    /// A call of a disk failed.
    DiskFault,
    /// Memory was wanting.
    Memory,
}

// The line of a file that is refused.
fn refusal_text(
    alloc: Global,
    params: &Params,
    file: u64,
    why: &NotAShare,
) -> Result<String, AllocError>
    requires params { IsParams params.now }
    requires told { CanTell params.now why.now }
    ensures { IfOk result (λ text. (columns : ColumnList) → IsTableOf params.now columns
        → string_bytes text ≡ file_line columns.list file (why_of why.now)) }
{
    match why {
        NotAShare::Unreadable => unreadable_text(alloc, file),
        NotAShare::Refused(Refusal::Other) => other_text(alloc, file),
        NotAShare::Refused(Refusal::Share(fault)) => fault_text(alloc, params, file, fault),
    }
}

// The line of a file whose rows are no result of its share.
fn fault_text(
    alloc: Global,
    params: &Params,
    file: u64,
    fault: &ShareFault,
) -> Result<String, AllocError>
    requires params { IsParams params.now }
    requires told { CanTell params.now (NotAShare.Refused (Refusal.Share fault.now)) }
    ensures { IfOk result (λ text. (columns : ColumnList) → IsTableOf params.now columns
        → string_bytes text ≡ file_line columns.list file (why_of (NotAShare.Refused (Refusal.Share fault.now)))) }
{
    match fault {
        ShareFault::BadRow(row) => bad_row_text(alloc, file, *row),
        ShareFault::NotReduced(row) => not_reduced_text(alloc, file, *row),
        ShareFault::Missing { n, rest } => leaves_text(alloc, params, file, *n, rest),
        _ => unreachable!(),
    }
}

// What the counted shares give together.
fn finished<R: Ring>(alloc: Global, coordinator: &Coordinator<R>) -> Result<Ending, AllocError>
    ensures { IfOk result (λ ending. (merge : TableWords) (table : RingTable R) (counted : List Share) → Stands R.value merge table counted coordinator.now
        → IsFinish merge table.columns counted (ends (string_bytes ending.text) ending.status)) }
{
    let table = coordinator.table();
    match coordinator.finish(alloc) {
        Ok(merged) => Ok(Ending {
            text: merged_text(alloc, table.ring(), table.columns(), &merged.rows)?,
            status: MergeStatus::Done,
        }),
        Err(fault) => not_merged(alloc, fault),
    }
}

// The ending where the counted shares do not give all rows.
fn not_merged(alloc: Global, fault: MergeFault) -> Result<Ending, AllocError>
    ensures { IfOk result (λ ending. TellsFault fault (ends (string_bytes ending.text) ending.status)) }
{
    match fault {
        MergeFault::MissingShare(index) => Ok(Ending {
            text: missing_text(alloc, index)?,
            status: MergeStatus::NotComplete,
        }),
        MergeFault::NoInverse { value, share, row } => Ok(Ending {
            text: turn_text(alloc, value, share, row)?,
            status: MergeStatus::NoInverse,
        }),
        MergeFault::Memory(fault) => Err(fault),
    }
}

// A coordinator over the table, that counts no share.
fn coordinator_of<R: Ring>(
    alloc: Global,
    table: LyndonTable<R>,
    merge: &TableWords,
) -> Result<Coordinator<R>, AllocError>
    requires merge { IsDealt merge.now }
    requires columns { IsTableOf merge.now.params table.columns }
    requires modulus { R.modulus table.ring ≡ merge.now.params.modulus }
    ensures { IfOk result (Stands R.value merge.now table []) }
{
    let names = listing(alloc, merge.params.weight, merge.params.depth)?;
    Coordinator::new(alloc, table, names, merge.params, merge.shares)
}

// The ending of a file that is refused.
fn refused(alloc: Global, params: &Params, file: u64, why: &NotAShare) -> Result<Ending, AllocError>
    requires params { IsParams params.now }
    requires told { CanTell params.now why.now }
    ensures status { IfOk result (λ ending. ending.status ≡ MergeStatus.NotAShare) }
    ensures text { IfOk result (λ ending. (columns : ColumnList) → IsTableOf params.now columns
        → string_bytes ending.text ≡ file_line columns.list file (why_of why.now)) }
{
    Ok(Ending {
        text: refusal_text(alloc, params, file, why)?,
        status: MergeStatus::NotAShare,
    })
}

// The ending where the table does not convert.
fn not_converted(alloc: Global, fault: LyndonFault) -> Result<Ending, AllocError>
    requires { (value : ℕ) (word : List Letter) → fault ≡ LyndonFault.NoInverse value word → ends_with_y word ≡ true }
    ensures { IfOk result (λ ending. (value : ℕ) × (word : List Letter) × (fault ≡ LyndonFault.NoInverse value word)
        × (ends (string_bytes ending.text) ending.status ≡ ends (word_line value word) MergeStatus.NoInverse)) }
{
    match fault {
        LyndonFault::NoInverse { value, word } => Ok(Ending {
            text: word_text(alloc, value, word)?,
            status: MergeStatus::NoInverse,
        }),
        LyndonFault::Memory(fault) => Err(fault),
    }
}

// An ending that was made, unless memory was wanting.
fn made(ending: Result<Ending, AllocError>) -> Result<Ending, BrokenOff>
    ensures { MatchResult ending (λ e. result ≡ Ok e) (λ _. result ≡ Err BrokenOff.Memory) }
{
    match ending {
        Ok(ending) => Ok(ending),
        Err(_) => Err(BrokenOff::Memory),
    }
}

// What the files give over a table that converts.
fn merged_over_table<R: Ring, D: Disk>(
    alloc: Global,
    table: LyndonTable<R>,
    merge: &TableWords,
    disks: &mut [D],
) -> Result<Ending, BrokenOff>
    requires merge { IsDealt merge.now }
    requires columns { IsTableOf merge.now.params table.columns }
    requires modulus { R.modulus table.ring ≡ merge.now.params.modulus }
    requires converts { Converts merge.now.params.modulus table.columns }
    ensures ok { IfOk result (λ ending. HoldsOfFiles (λ files. IsOver merge.now table.columns files (ends (string_bytes ending.text) ending.status))
        (map D.trace disks.old)) }
    ensures disk_fault { IsErrOf result BrokenOff.DiskFault → AnyRose (map D.faults disks.old) (map D.faults disks.new) }
    ensures same { map D.trace disks.new ≡ map D.trace disks.old }
    ensures faults { NoneFell (map D.faults disks.old) (map D.faults disks.new) }
{
    let Ok(mut coordinator) = coordinator_of(alloc, table, merge) else {
        return Err(BrokenOff::Memory);
    };
    match take_files(alloc, &mut coordinator, disks) {
        Ok(()) => made(finished(alloc, &coordinator)),
        Err(TakingFault::NotAShare { file, why }) => made(refused(
            alloc,
            &merge.params,
            file,
            &why,
        )),
        Err(TakingFault::DiskFault) => Err(BrokenOff::DiskFault),
        Err(TakingFault::Memory) => Err(BrokenOff::Memory),
    }
}

// What the files give, over a ring of the modulus of the parameters.
fn merged_over<R: Ring, D: Disk>(
    alloc: Global,
    ring: R,
    merge: &TableWords,
    disks: &mut [D],
) -> Result<Ending, BrokenOff>
    requires merge { IsDealt merge.now }
    requires modulus { R.modulus ring ≡ merge.now.params.modulus }
    ensures ok { IfOk result (λ ending. HoldsOfFiles (λ files. IsOverTable merge.now files (ends (string_bytes ending.text) ending.status))
        (map D.trace disks.old)) }
    ensures disk_fault { IsErrOf result BrokenOff.DiskFault → AnyRose (map D.faults disks.old) (map D.faults disks.new) }
    ensures same { map D.trace disks.new ≡ map D.trace disks.old }
    ensures faults { NoneFell (map D.faults disks.old) (map D.faults disks.new) }
{
    let Ok(columns) = columns_of(alloc, &merge.params) else {
        return Err(BrokenOff::Memory);
    };
    match LyndonTable::new(alloc, ring, columns) {
        Ok(table) => merged_over_table(alloc, table, merge, disks),
        Err(fault) => made(not_converted(alloc, fault)),
    }
}

/// What the files give.
pub(crate) fn merged<D: Disk>(
    alloc: Global,
    merge: &TableWords,
    disks: &mut [D],
) -> Result<Ending, BrokenOff>
    requires { IsDealt merge.now }
    ensures ok { IfOk result (λ ending. HoldsOfFiles (λ files. IsOverTable merge.now files (ends (string_bytes ending.text) ending.status))
        (map D.trace disks.old)) }
    ensures disk_fault { IsErrOf result BrokenOff.DiskFault → AnyRose (map D.faults disks.old) (map D.faults disks.new) }
    ensures same { map D.trace disks.new ≡ map D.trace disks.old }
    ensures faults { NoneFell (map D.faults disks.old) (map D.faults disks.new) }
{
    match ResidueRing::new(merge.params.modulus) {
        Ok(ResidueRing::Odd(ring)) => merged_over(alloc, ring, merge, disks),
        Ok(ResidueRing::Even(ring)) => merged_over(alloc, ring, merge, disks),
        Err(_) => unreachable!(),
    }
}

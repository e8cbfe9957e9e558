//! The call that the program makes.
ghost use Rattle.std.specs.Prelude.{◌≡◌, ◌≤◌, ◌⊎◌, ℕ, List, Option, None, Ok, Err, map, string_bytes};
ghost use Rattle.outside_io.specs.Causes.{Rose};
ghost use Rattle.outside_io.specs.Told.{after_told};
ghost use Rattle.outside_io.specs.Traces.{Trace};
ghost use Rattle.merge_program.specs.declared.words.TableWords.{TableWords};
ghost use Rattle.merge_program.specs.declared.words.ShareWords.{ShareWords};
ghost use Rattle.merge_program.specs.declared.words.MergeWordsFault.TheVariants.{Usage};
ghost use Rattle.merge_program.specs.MergeWords.{Asked as AskedShare, AsksForShare, share_request};
ghost use Rattle.merge_program.specs.Statuses.{ComesFor};
ghost use Rattle.merge_program.specs.ShareRuns.{IsOutcome as IsShareOutcome, IsRefused as IsShareRefused, WritesShare, FailsTest as FailsShareTest};
ghost use Rattle.merge_runs.specs.Disks.{AnyRose, NoneFell, TellAll};
ghost use Rattle.merge_runs.specs.MergeWords.{Asked, AsksForMerge, FailsTest, merge_request};
ghost use Rattle.merge_runs.specs.Runs.{Run, IsMergeRun};
ghost use Rattle.merge_runs.specs.Outcomes.{IsOutcome, WritesMerged};

use crate::ending::merge_files;
use crate::merge_words::read_merge;
use merge_program::{MergeStatus, MergeWordsFault, refuse_words, run_share};
use outside_io::{Disk, Sink};
use std::alloc::Global;

// Serves words that ask for no merge: those of a share, or refuses them.
fn other_words<K: Sink>(
    alloc: Global,
    words: &[String],
    fault: MergeWordsFault,
    sink: &mut K,
) -> MergeStatus
    requires { AsksForMerge (map string_bytes words.now) (Err fault) }
    ensures usage { ComesFor ((merge_request (map string_bytes words.now) ≡ None) × (share_request (map string_bytes words.now) ≡ None)) MergeStatus.Usage result }
    ensures params { ComesFor (((asked : Asked) × AsksForMerge (map string_bytes words.now) asked × FailsTest asked)
        ⊎ ((merge_request (map string_bytes words.now) ≡ None) × (asked : AskedShare) × AsksForShare (map string_bytes words.now) asked × FailsShareTest asked))
        MergeStatus.Params result }
    ensures outcome { (asked : Asked) (told : List (Option Trace)) → AsksForMerge (map string_bytes words.now) asked → ¬ (asked ≡ Err Usage)
        → IsOutcome asked told (K.taken sink.old) (K.taken sink.new) (K.faults sink.old) (K.faults sink.new) result }
    ensures share_outcome { (asked : AskedShare) → merge_request (map string_bytes words.now) ≡ None → AsksForShare (map string_bytes words.now) asked
        → IsShareOutcome asked (K.taken sink.old) (K.taken sink.new) result }
    ensures share_done { merge_request (map string_bytes words.now) ≡ None → result ≡ MergeStatus.Done
        → (share : ShareWords) × AsksForShare (map string_bytes words.now) (Ok share) × WritesShare share (K.taken sink.old) (K.taken sink.new) }
    ensures share_through { (share : ShareWords) → merge_request (map string_bytes words.now) ≡ None → AsksForShare (map string_bytes words.now) (Ok share)
        → ¬ (IsShareRefused share) → ¬ (Rose (K.faults sink.old) (K.faults sink.new)) → (result ≡ MergeStatus.Done) ⊎ (result ≡ MergeStatus.Memory) }
    ensures sink_faults { K.faults sink.old ≤ K.faults sink.new }
    ensures no_disk_fault { ¬ (result ≡ MergeStatus.DiskFault) }
    ensures write_fault_only { result ≡ MergeStatus.WriteFault → Rose (K.faults sink.old) (K.faults sink.new) }
{
    match fault {
        MergeWordsFault::Usage => run_share(alloc, words, sink),
        _ => refuse_words(sink, fault),
    }
}

/// Does what the words behind the program's name ask for: merges the shares in the files on the disks, or makes a share. The caller makes a disk
/// for each word after the sixth.
///
/// `merge W D M ORDER S FILE ..` takes 1 to 1,024 files. It reads each whole, in order, and delivers the share in it to a coordinator; what the
/// counted shares give is then written, how many rows there are and each row as a line. `share W D M ORDER I S` writes a share, and leaves the
/// disks.
///
/// `Usage` and `Params` come exactly where the words are neither or a parameter test fails. Of a merge, `NoInverse` comes where the table does not
/// convert, and tells the first word; `NotAShare` for the first file that is not a share of the merge: with more than 100,663,296 bytes or those of
/// no share, a share of other parameters or of another number of shares, or, where no share of its index is counted, one whose rows are not a
/// result of it; `NotComplete` with the least share that no file holds; `NoInverse` with the row at which the work over the rows of the counted
/// shares is broken. Each of these writes its line alone; want of memory or a fault may come in its place. `DiskFault` comes only where the count
/// of faults of a disk rose in this call, and nothing is then written; `WriteFault` only where that of the sink rose, and a first part is then
/// written of what the whole run writes. With `Memory` nothing is written.
pub fn run_merge<D: Disk, K: Sink>(
    alloc: Global,
    words: &[String],
    disks: &mut [D],
    sink: &mut K,
) -> MergeStatus
    ensures usage { ComesFor ((merge_request (map string_bytes words.now) ≡ None) × (share_request (map string_bytes words.now) ≡ None)) MergeStatus.Usage result }
    ensures params { ComesFor (((asked : Asked) × AsksForMerge (map string_bytes words.now) asked × FailsTest asked)
        ⊎ ((merge_request (map string_bytes words.now) ≡ None) × (asked : AskedShare) × AsksForShare (map string_bytes words.now) asked × FailsShareTest asked))
        MergeStatus.Params result }

    // A run of a merge is one of the whole run over the files: it tells the first refusal, or writes the merged rows.
    ensures outcome { (asked : Asked) → AsksForMerge (map string_bytes words.now) asked → ¬ (asked ≡ Err Usage)
        → IsOutcome asked (map D.trace disks.old) (K.taken sink.old) (K.taken sink.new) (K.faults sink.old) (K.faults sink.new) result }

    // Over disks that tell their bytes it is the whole run or `Memory`, where no count has risen.
    ensures through { (asked : Asked) (files : List (List ℕ)) → AsksForMerge (map string_bytes words.now) asked → ¬ (asked ≡ Err Usage)
        → TellAll (map D.trace disks.old) files → ¬ (AnyRose (map D.faults disks.old) (map D.faults disks.new)) → ¬ (Rose (K.faults sink.old) (K.faults sink.new))
        → (result ≡ MergeStatus.Memory) ⊎ ((run : Run) × IsMergeRun asked files run × (K.taken sink.new ≡ after_told (K.taken sink.old) run.text) × (result ≡ run.status)) }

    // With status 0 of a merge the rows are written that are the one reduced list of the span of the listed relations of the parameters.
    ensures merged { (merge : TableWords) → AsksForMerge (map string_bytes words.now) (Ok merge) → result ≡ MergeStatus.Done
        → WritesMerged merge (K.taken sink.old) (K.taken sink.new) }

    // Words that are not those of a merge are served as words of a share.
    ensures share_outcome { (asked : AskedShare) → merge_request (map string_bytes words.now) ≡ None → AsksForShare (map string_bytes words.now) asked
        → IsShareOutcome asked (K.taken sink.old) (K.taken sink.new) result }
    ensures share_done { merge_request (map string_bytes words.now) ≡ None → result ≡ MergeStatus.Done
        → (share : ShareWords) × AsksForShare (map string_bytes words.now) (Ok share) × WritesShare share (K.taken sink.old) (K.taken sink.new) }
    ensures share_through { (share : ShareWords) → merge_request (map string_bytes words.now) ≡ None → AsksForShare (map string_bytes words.now) (Ok share)
        → ¬ (IsShareRefused share) → ¬ (Rose (K.faults sink.old) (K.faults sink.new)) → (result ≡ MergeStatus.Done) ⊎ (result ≡ MergeStatus.Memory) }
    ensures disks_same { map D.trace disks.new ≡ map D.trace disks.old }
    ensures faults { NoneFell (map D.faults disks.old) (map D.faults disks.new) }
    ensures sink_faults { K.faults sink.old ≤ K.faults sink.new }
    ensures disk_fault_only { result ≡ MergeStatus.DiskFault → AnyRose (map D.faults disks.old) (map D.faults disks.new) }
    ensures write_fault_only { result ≡ MergeStatus.WriteFault → Rose (K.faults sink.old) (K.faults sink.new) }
{
    match read_merge(words) {
        Ok(merge) => merge_files(alloc, &merge, disks, sink),
        Err(fault) => other_words(alloc, words, fault, sink),
    }
}

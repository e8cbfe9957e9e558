//! The call that the program makes for a share.
ghost use Rattle.std.specs.Prelude.{◌≡◌, ◌⊎◌, ◌≤◌, map, string_bytes, Ok, Err, None};
ghost use Rattle.outside_io.specs.Causes.{Rose};
ghost use Rattle.share_build.specs.Refusals.{GoesThrough};
ghost use Rattle.merge_program.specs.declared.words.ShareWords.{ShareWords};
ghost use Rattle.merge_program.specs.declared.words.MergeWordsFault.{MergeWordsFault};
ghost use Rattle.merge_program.specs.MergeWords.{Asked, share_request, AsksForShare};
ghost use Rattle.merge_program.specs.Statuses.{ComesFor, ComesWithMemory};
ghost use Rattle.merge_program.specs.ShareRuns.{FailsTest, Ends, refusal_line, refusal_status, IsRefused, IsOutcome, WritesShare};

use crate::reading::read_share_words;
use crate::refusals::refuse_words;
use crate::share::make_share;
use crate::status::MergeStatus;
use outside_io::Sink;
use std::alloc::Global;

/// Writes share I of S of the table that the words `share W D M ORDER I S` ask for, and answers how it ended.
///
/// `Usage` and `Params` come exactly where the words are others or a parameter test fails, whatever memory there is; only a write that fails
/// may come in their place. `NoInverse` comes exactly where the table does not convert or the work on the share is broken, and tells the
/// first word or relation; want of memory or a write that fails may come in its place. Each of these writes its line alone. `WriteFault`
/// comes only where the sink's count of faults rose in this call, and a first part of what the whole run writes is then written; with
/// `Memory` nothing is. No other fault comes.
pub fn run_share<K: Sink>(alloc: Global, words: &[String], sink: &mut K) -> MergeStatus
    ensures usage { ComesFor (share_request (map string_bytes words.now) ≡ None) MergeStatus.Usage result }
    ensures params { ComesFor ((asked : Asked) × AsksForShare (map string_bytes words.now) asked × FailsTest asked) MergeStatus.Params result }
    ensures no_inverse { ComesWithMemory ((share : ShareWords) × AsksForShare (map string_bytes words.now) (Ok share) × IsRefused share) MergeStatus.NoInverse result }
    ensures outcome { (asked : Asked) → AsksForShare (map string_bytes words.now) asked → IsOutcome asked (K.taken sink.old) (K.taken sink.new) result }
    ensures refused { (fault : MergeWordsFault) → AsksForShare (map string_bytes words.now) (Err fault)
        → Ends (refusal_line fault) (refusal_status fault) (K.taken sink.old) (K.taken sink.new) (K.faults sink.old) (K.faults sink.new) result }
    ensures through { (share : ShareWords) → AsksForShare (map string_bytes words.now) (Ok share) → ¬ (IsRefused share)
        → ¬ (Rose (K.faults sink.old) (K.faults sink.new)) → (result ≡ MergeStatus.Done) ⊎ (result ≡ MergeStatus.Memory) }
    ensures done { result ≡ MergeStatus.Done
        → (share : ShareWords) × AsksForShare (map string_bytes words.now) (Ok share) × WritesShare share (K.taken sink.old) (K.taken sink.new) }
    ensures faults { K.faults sink.old ≤ K.faults sink.new }
    ensures only { (¬ (result ≡ MergeStatus.DiskFault)) × (¬ (result ≡ MergeStatus.NotAShare)) × (¬ (result ≡ MergeStatus.NotComplete)) }
    ensures write_fault_only { result ≡ MergeStatus.WriteFault → Rose (K.faults sink.old) (K.faults sink.new) }
{
    match read_share_words(words) {
        Ok(share) => make_share(alloc, &share, sink),
        Err(fault) => refuse_words(sink, fault),
    }
}

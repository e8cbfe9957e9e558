//! Work that writes some bytes and ends.
ghost use Rattle.std.specs.Prelude.{◌≡◌, ◌≢◌, ◌⊎◌, ℕ, List, Option};
ghost use Rattle.outside_io.specs.Causes.{Rose};
ghost use Rattle.whole_runs.specs.Outcomes.{Has};
ghost use Rattle.whole_runs.specs.Works.Work.{Writes};

use outside_io::{Sink, write_all};
use whole_runs::Status;

// Writes all the bytes, and ends so.
pub(crate) fn write_and_end<K: Sink>(sink: &mut K, bytes: &[u8], end: Status) -> Status
    requires { end ≢ Status.WriteFault }
    ensures which { (result ≡ end) ⊎ (result ≡ Status.WriteFault) }
    ensures has { (left : Option (List ℕ)) → Has (Writes bytes.now end) left (K.taken sink.old) (K.taken sink.new) result }
    ensures write_fault_only { result ≡ Status.WriteFault → Rose (K.faults sink.old) (K.faults sink.new) }
{
    match write_all(sink, bytes) {
        Ok(()) => end,
        Err(_) => Status::WriteFault,
    }
}

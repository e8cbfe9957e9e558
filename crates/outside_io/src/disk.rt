//! A disk: what a read gives, and what a crash at any moment may leave.
ghost use Rattle.std.specs.Prelude.{◌≡◌, ◌≤◌, ◌<◌, ℕ, Option, length, take, drop, IfOk, IfSome};
ghost use Rattle.outside_io.specs.Causes.{HasCause};
ghost use Rattle.outside_io.specs.Moments.{IsImage};
ghost use Rattle.outside_io.specs.Traces.{Trace, Written, CutOff, Synced};

use crate::Failed;

/// One file of bytes that can be made durable. Lengths and places are in bytes, places from 0.
pub trait Disk {
    /// Its moments, where it tells them. No call changes whether it tells.
    ghost trace: { Self → Option Trace };

    /// How often a call failed. The count stops at 2^64 - 1, where a further fault counts as risen.
    ghost faults: { Self → ℕ };

    /// The length of the contents. `Failed` only where the count rose.
    fn len(&mut self) -> Result<u64, Failed>
        ensures length { IfOk result (λ n. IfSome (trace self.old) (λ t. n ≡ length t.now.contents)) }
        ensures same { trace self.new ≡ trace self.old }
        ensures image { IfSome (trace self.new) (λ t. IsImage t.now t.now.contents) }
        ensures cause { HasCause (faults self.old) (faults self.new) result };

    /// Reads from `at` into the front of the buffer, and answers how many bytes: none only where the buffer is empty or `at` is at or
    /// past the end. `Failed` only where the count rose.
    fn read_at(&mut self, at: u64, buf: &mut [u8]) -> Result<usize, Failed>
        ensures bound { IfOk result (λ n. n ≤ length buf.new) }
        ensures bytes { IfOk result (λ n. IfSome (trace self.old) (λ t. take n buf.new ≡ take n (drop at t.now.contents))) }
        ensures end { IfOk result (λ n. IfSome (trace self.old) (λ t. n ≡ 0 → 0 < length buf.new → length t.now.contents ≤ at)) }
        ensures same { trace self.new ≡ trace self.old }
        ensures image { IfSome (trace self.new) (λ t. IsImage t.now t.now.contents) }
        ensures cause { HasCause (faults self.old) (faults self.new) result };

    /// Writes all the bytes at `at`, over what is there and past its end. `Failed` only where the count rose; the contents are then as
    /// they were, or one of the images of a write that was broken off.
    fn write_at(&mut self, at: u64, bytes: &[u8]) -> Result<(), Failed>
        requires { IfSome (trace self.old) (λ t. at ≤ length t.now.contents) }
        ensures written { Written at bytes.now (trace self.old) (trace self.new) result }
        ensures image { IfSome (trace self.new) (λ t. IsImage t.now t.now.contents) }
        ensures cause { HasCause (faults self.old) (faults self.new) result };

    /// Cuts the contents to their first `len` bytes. `Failed` only where the count rose; the contents are then as they were, or one of
    /// the images of a cut that was broken off.
    fn cut(&mut self, len: u64) -> Result<(), Failed>
        requires { IfSome (trace self.old) (λ t. len ≤ length t.now.contents) }
        ensures cut { CutOff len (trace self.old) (trace self.new) result }
        ensures image { IfSome (trace self.new) (λ t. IsImage t.now t.now.contents) }
        ensures cause { HasCause (faults self.old) (faults self.new) result };

    /// Makes the contents the one image. `Failed` only where the count rose; nothing is then changed.
    fn sync(&mut self) -> Result<(), Failed>
        ensures synced { Synced (trace self.old) (trace self.new) result }
        ensures image { IfSome (trace self.new) (λ t. IsImage t.now t.now.contents) }
        ensures cause { HasCause (faults self.old) (faults self.new) result };
}

//! What gives a line its reply.
ghost use Rattle.std.specs.Prelude.{◌≡◌, ◌++◌, ℕ, List, OnOk, OnErr};

use std::alloc::AllocError;

/// What gives each line its reply.
pub trait Replier {
    /// The reply to a line, both without the byte 10 at their end.
    ghost reply_to: { Self → List ℕ → List ℕ };

    /// Puts the reply to `line` behind what `out` holds. `line` is without the byte 10 that ended it.
    ///
    /// `Err` is want of memory alone, and then `out` is as before.
    fn reply(&self, line: &[u8], out: &mut Vec<u8>) -> Result<(), AllocError>
        ensures ok { OnOk result (out.new.items ≡ out.old.items ++ reply_to self.now line.now) }
        ensures err { OnErr result (out.new.items ≡ out.old.items) };
}

//! Reading as many bytes as there is room for.
ghost use Rattle.std.specs.Prelude.{◌≡◌, ◌≤◌, ◌<◌, ◌+◌, ◌^◌, length, take, drop, IfOk, IfSome};
ghost use Rattle.outside_io.specs.Causes.{HasCause};

use outside_io::{Disk, Failed};

/// Reads from `at` until the buffer is full or a read gives no byte, and answers how many bytes it read.
pub(crate) fn fill<D: Disk>(disk: &mut D, at: u64, buf: &mut [u8]) -> Result<usize, Failed>
    requires { at + length buf.old < 2 ^ 64 }
    ensures bound { IfOk result (λ n. n ≤ length buf.new) }
    ensures bytes { IfOk result (λ n. IfSome (D.trace disk.old) (λ t. take n buf.new ≡ take n (drop at t.now.contents))) }
    ensures end { IfOk result (λ n. IfSome (D.trace disk.old) (λ t. n < length buf.new → length t.now.contents ≤ at + n)) }
    ensures same { D.trace disk.new ≡ D.trace disk.old }
    ensures cause { HasCause (D.faults disk.old) (D.faults disk.new) result }
{
    let mut count = 0;
    while count < buf.len() {
        let more = disk.read_at(at + count as u64, &mut buf[count..])?;
        if more == 0 {
            return Ok(count);
        }
        count += more;
    }
    Ok(count)
}

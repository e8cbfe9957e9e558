//! Reading all the bytes of a disk.
ghost use Rattle.std.specs.Prelude.{◌≡◌, ℕ, ◌≤◌, ◌<◌, ◌+◌, ◌^◌, length, take, drop, IfOk, IfSome, IsErrOf};
ghost use Rattle.outside_io.specs.Causes.{HasCause, Rose};

use outside_io::{Disk, Failed};
use std::alloc::{AllocError, Global};
use thiserror::Error;

/// Why the bytes of a disk are not read.
#[derive(Debug, Drop, Error)]
pub enum ReadFault {
    /// A call of the disk failed.
    #[error("a call of the disk failed")]
    DiskFault,
    /// There are more bytes than were to be read, so many.
    #[error("{0} bytes are too many")]
    TooLong(u64),
    /// Memory was wanting.
    #[error("out of memory")]
    Memory(AllocError),
}

// Reads from `at` until the buffer is full or a read gives no byte, and answers how many bytes it read.
fn fill<D: Disk>(disk: &mut D, at: u64, buf: &mut [u8]) -> Result<usize, Failed>
    requires { at + length buf.old < 2 ^ 64 }
    ensures bound { IfOk result (λ n. n ≤ length buf.new) }
    ensures len { length buf.new ≡ length buf.old }
    ensures bytes { IfOk result (λ n. IfSome (D.trace disk.old) (λ t. take n buf.new ≡ take n (drop at t.now.contents))) }
    ensures end { IfOk result (λ n. IfSome (D.trace disk.old) (λ t. n < length buf.new → length t.now.contents ≤ at + n)) }
    ensures same { D.trace disk.new ≡ D.trace disk.old }
    ensures cause { HasCause (D.faults disk.old) (D.faults disk.new) result }
{
    let mut count = 0;
    while count < buf.len() {
        let more = disk.read_at(at + count as u64, &mut buf[count..])?;
        if more == 0 {
            return Ok(count);
        }
        count += more;
    }
    Ok(count)
}

/// All the bytes of the disk, where they are at most `limit`.
///
/// `TooLong` exactly where there are more, with their number. `DiskFault` only where a call of the disk failed. The disk is left as it was.
pub fn read_whole<D: Disk>(alloc: Global, disk: &mut D, limit: u32) -> Result<Vec<u8>, ReadFault>
    ensures bytes { IfOk result (λ bytes. IfSome (D.trace disk.old) (λ t. bytes.items ≡ t.now.contents)) }
    ensures within { IfOk result (λ bytes. length bytes.items ≤ limit) }
    ensures too_long { (n : ℕ) → IsErrOf result (ReadFault.TooLong n) → (limit < n) × IfSome (D.trace disk.old) (λ t. n ≡ length t.now.contents) }
    ensures disk_fault { IsErrOf result ReadFault.DiskFault → Rose (D.faults disk.old) (D.faults disk.new) }
    ensures same { D.trace disk.new ≡ D.trace disk.old }
    ensures faults { D.faults disk.old ≤ D.faults disk.new }
{
    let Ok(len) = disk.len() else {
        return Err(ReadFault::DiskFault);
    };
    if len > u64::from(limit) {
        return Err(ReadFault::TooLong(len));
    }
    let mut bytes = match vec![in alloc; 0; len as usize] {
        Ok(bytes) => bytes,
        Err(fault) => return Err(ReadFault::Memory(fault)),
    };
    match fill(disk, 0, &mut bytes) {
        Ok(count) => {
            bytes.truncate(count);
            Ok(bytes)
        }
        Err(_) => Err(ReadFault::DiskFault),
    }
}

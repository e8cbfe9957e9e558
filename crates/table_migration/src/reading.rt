//! The next page of a version 1 file, out of a source.
ghost use Rattle.std.specs.Prelude.{◌≡◌, ◌≤◌, ◌<◌, ◌+◌, ◌++◌, [], ◌∷◌, ◌^◌, ℕ, List, IsErrOf, IfSome, length, take, IfOk, IfErr, OnOk};
ghost use Rattle.outside_io.specs.Causes.{HasCause, Rose};
ghost use Rattle.outside_io.specs.Told.{before_told};
ghost use Rattle.table_migration.specs.Inner.{IsNext, IsReadCause, Takes};

use crate::fault::MigrateFault;
use crate::old_pages::{HEAD, body_length, old_page};
use outside_io::{Failed, Source};
use page_codec::Page;
use std::alloc::Global;

/// What stands next in a source.
#[derive(Drop)]
pub(crate) enum Next {
    /// An open gate, and a page.
    Passed(Page),
    /// No gate, one that is not open, or an open one as the last byte.
    End,
    /// An open gate, and bytes that spell no page.
    Unread,
}

// Reads until the buffer is full or the source is at its end, and answers how many bytes it read.
fn fill<S: Source>(source: &mut S, buf: &mut [u8]) -> Result<usize, Failed>
    ensures bound { IfOk result (λ n. n ≤ length buf.new) }
    ensures same_length { length buf.new ≡ length buf.old }
    ensures bytes { IfOk result (λ n. S.left source.old ≡ before_told (take n buf.new) (S.left source.new)) }
    ensures end { IfOk result (λ n. n < length buf.new → IfSome (S.left source.new) (λ left. left ≡ [])) }
    ensures cause { HasCause (S.faults source.old) (S.faults source.new) result }
{
    let mut count = 0;
    while count < buf.len() {
        let more = source.read(&mut buf[count..])?;
        if more == 0 {
            return Ok(count);
        }
        count += more;
    }
    Ok(count)
}

// Takes the next bytes, as many as are wanted or as there are, and puts them behind what the buffer holds.
fn take_on<S: Source>(
    source: &mut S,
    buffer: &mut Vec<u8>,
    wanted: usize,
) -> Result<(), MigrateFault>
    requires { length buffer.old.items + wanted < 2 ^ 62 }
    ensures ok { OnOk result (Takes wanted (S.left source.old) (S.left source.new) buffer.old.items buffer.new.items) }
    ensures cause { IfErr result (IsReadCause (Rose (S.faults source.old) (S.faults source.new))) }
    ensures faults { S.faults source.old ≤ S.faults source.new }
{
    let have = buffer.len();
    buffer.resize(have + wanted, 0)?;
    let count = fill(source, &mut buffer[have..])?;
    buffer.truncate(have + count);
    Ok(())
}

/// What stands next in the source. A page is taken with its gate, and nothing behind it.
pub(crate) fn next_page<S: Source>(
    alloc: Global,
    source: &mut S,
    buffer: &mut Vec<u8>,
) -> Result<Next, MigrateFault>
    ensures ok { IfOk result (IsNext (S.left source.old) (S.left source.new)) }
    ensures cause { IfErr result (IsReadCause (Rose (S.faults source.old) (S.faults source.new))) }
    ensures faults { S.faults source.old ≤ S.faults source.new }
{
    buffer.clear();
    take_on(source, buffer, 1)?;
    if buffer.is_empty() || buffer[0] != 1 {
        return Ok(Next::End);
    }
    buffer.clear();
    take_on(source, buffer, HEAD)?;
    if buffer.is_empty() {
        return Ok(Next::End);
    }
    if buffer.len() < HEAD {
        return Ok(Next::Unread);
    }
    let Some(length) = body_length(buffer) else {
        return Ok(Next::Unread);
    };
    take_on(source, buffer, length)?;
    match old_page(alloc, buffer)? {
        Some(page) => Ok(Next::Passed(page)),
        None => Ok(Next::Unread),
    }
}

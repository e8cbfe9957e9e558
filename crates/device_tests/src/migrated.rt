//! What `migrate` says of version 1 files, and what it leaves on the disk.
use crate::commands::conduct_on;
use crate::sealing::FILE;
use outside_io::MemDisk;
use std::alloc::Global;
use std::process::Abort;
use std::test::Fail;

// The version 1 file of 2 1 3 lex, and its new file.
const SMALL: [u8; 34] = [
    1, 1, 19, 0, 0, 0, 77, 90, 86, 68, 65, 84, 65, 1, 2, 1, 0, 3, 0, 0, 0, 0, 0, 0, 0, 1, 4, 2, 0,
    0, 0, 0, 0, 0,
];

const SMALL_NEW: [u8; 35] = [
    1, 1, 20, 0, 0, 0, 77, 90, 86, 68, 65, 84, 65, 2, 2, 1, 0, 3, 0, 0, 0, 0, 0, 0, 0, 0, 1, 4, 2,
    0, 0, 0, 0, 0, 0,
];

// The Header of the version 1 file of 3 2 5 lex; the pages behind it are those of the new file.
const HEADER: [u8; 25] = [
    1, 1, 19, 0, 0, 0, 77, 90, 86, 68, 65, 84, 65, 1, 3, 2, 0, 5, 0, 0, 0, 0, 0, 0, 0,
];

// What its Header leaves of the new file.
const HEADER_NEW: [u8; 27] = [
    1, 1, 20, 0, 0, 0, 77, 90, 86, 68, 65, 84, 65, 2, 3, 2, 0, 5, 0, 0, 0, 0, 0, 0, 0, 0, 0,
];

/// What stands on the disk, two pieces that the source gives, what `migrate` writes, its status, and what it leaves.
type Migrated = (
    &'static [u8],
    (&'static [u8], &'static [u8]),
    &'static [u8],
    u8,
    &'static [u8],
);

fn migrated(rt: &impl Abort, alloc: Global, wanted: Migrated) -> Result<(), Fail> {
    let (stands, (first, second), said, status, left) = wanted;
    let mut given = Vec::from_slice(alloc, first)?;
    given.extend_from_slice(second)?;
    let mut disk = MemDisk::new(
        alloc,
        Vec::from_slice(alloc, stands)?,
        Vec::new(alloc),
        None,
    );
    let (ended, sink) = conduct_on(alloc, &mut disk, &["migrate", "t"], given, (&[], &[]))?;
    assert_eq!(rt; ended, status);
    assert_eq!(rt; sink.taken(), said);
    assert_eq!(rt; disk.contents(), left);
    Ok(())
}

#[test]
fn version_1_files_become_new_ones(rt: HostRuntime) -> Result<(), Fail> {
    let alloc = rt.alloc();
    let small = b"migrated: 2 1 3 lex, pages 2\n";
    let whole = b"migrated: 3 2 5 lex, pages 4\n";
    migrated(&rt, alloc, (b"", (&SMALL, b""), small, 0, &SMALL_NEW))?;
    migrated(&rt, alloc, (b"", (&HEADER, &FILE[26..]), whole, 0, &FILE))
}

#[test]
fn other_bytes_and_disks_are_refused(rt: HostRuntime) -> Result<(), Fail> {
    let alloc = rt.alloc();
    let none = b"not complete: pages 0, not done\n";
    let one = b"not complete: pages 1, not done\n";
    let unread = b"not a table: page 1 unreadable\n";
    let exists = b"not a table: exists 1\n";
    migrated(&rt, alloc, (b"", (b"", b""), none, 9, b"\x00"))?;
    migrated(&rt, alloc, (b"", (&HEADER, b""), one, 9, &HEADER_NEW))?;
    migrated(
        &rt,
        alloc,
        (b"", (&HEADER, b"\x01\x09"), unread, 8, &HEADER_NEW),
    )?;
    migrated(&rt, alloc, (b"x", (&SMALL, b""), exists, 8, b"x"))
}

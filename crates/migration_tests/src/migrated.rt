//! Version 1 files that are migrated onto disks in memory, and other bytes, against another program.
use outside_io::{MemDisk, MemSource, Pick};
use page_file::look;
use std::alloc::{AllocError, Global};
use std::test::Fail;
use table_migration::{MigrateFault, migrate};

// The version 1 file of the parameters 2 1 3 lex.
const SMALL: [u8; 34] = [
    1, 1, 19, 0, 0, 0, 77, 90, 86, 68, 65, 84, 65, 1, 2, 1, 0, 3, 0, 0, 0, 0, 0, 0, 0, 1, 4, 2, 0,
    0, 0, 0, 0, 0,
];

// Their new file.
const SMALL_NEW: [u8; 35] = [
    1, 1, 20, 0, 0, 0, 77, 90, 86, 68, 65, 84, 65, 2, 2, 1, 0, 3, 0, 0, 0, 0, 0, 0, 0, 0, 1, 4, 2,
    0, 0, 0, 0, 0, 0,
];

// The version 1 file of the parameters 3 2 5 lex.
const OLD: [u8; 130] = [
    1, 1, 19, 0, 0, 0, 77, 90, 86, 68, 65, 84, 65, 1, 3, 2, 0, 5, 0, 0, 0, 0, 0, 0, 0, 1, 2, 45, 0,
    0, 0, 0, 0, 0, 0, 1, 0, 0, 0, 0, 2, 0, 0, 0, 1, 0, 0, 0, 0, 0, 0, 0, 1, 0, 4, 0, 0, 0, 0, 0, 0,
    0, 1, 0, 0, 0, 0, 0, 4, 0, 0, 0, 0, 0, 0, 0, 1, 3, 39, 0, 0, 0, 0, 0, 1, 2, 0, 0, 0, 1, 0, 0,
    0, 0, 0, 0, 0, 1, 0, 4, 0, 0, 0, 0, 0, 0, 0, 1, 0, 0, 0, 0, 0, 4, 0, 0, 0, 0, 0, 0, 0, 1, 4, 2,
    0, 0, 0, 1, 0, 0,
];

// Their new file.
const NEW: [u8; 131] = [
    1, 1, 20, 0, 0, 0, 77, 90, 86, 68, 65, 84, 65, 2, 3, 2, 0, 5, 0, 0, 0, 0, 0, 0, 0, 0, 1, 2, 45,
    0, 0, 0, 0, 0, 0, 0, 1, 0, 0, 0, 0, 2, 0, 0, 0, 1, 0, 0, 0, 0, 0, 0, 0, 1, 0, 4, 0, 0, 0, 0, 0,
    0, 0, 1, 0, 0, 0, 0, 0, 4, 0, 0, 0, 0, 0, 0, 0, 1, 3, 39, 0, 0, 0, 0, 0, 1, 2, 0, 0, 0, 1, 0,
    0, 0, 0, 0, 0, 0, 1, 0, 4, 0, 0, 0, 0, 0, 0, 0, 1, 0, 0, 0, 0, 0, 4, 0, 0, 0, 0, 0, 0, 0, 1, 4,
    2, 0, 0, 0, 1, 0, 0,
];

// What a migration says: how many pages were migrated, or the fault with its number.
#[derive(Clone, Copy, PartialEq, Eq)]
enum Said {
    Migrated(u64),
    Exists(u64),
    BadPage(u64),
    Misfit(u64),
    NotDone(u64),
    DiskFault,
    ReadFault,
}

// Migrates the pieces onto the disk.
fn migrate_onto(
    alloc: Global,
    pieces: &[&[u8]],
    fails: Vec<u64>,
    disk: &mut MemDisk,
) -> Result<Said, AllocError> {
    let mut bytes = Vec::new(alloc);
    for piece in pieces {
        bytes.extend_from_slice(piece)?;
    }
    let mut source = MemSource::new(bytes, fails);
    match migrate(alloc, &mut source, disk) {
        Ok(migrated) => Ok(Said::Migrated(migrated.pages)),
        Err(MigrateFault::DiskFault) => Ok(Said::DiskFault),
        Err(MigrateFault::ReadFault) => Ok(Said::ReadFault),
        Err(MigrateFault::Exists(bytes)) => Ok(Said::Exists(bytes)),
        Err(MigrateFault::BadPage(page)) => Ok(Said::BadPage(page)),
        Err(MigrateFault::Misfit(page)) => Ok(Said::Misfit(page)),
        Err(MigrateFault::NotDone(pages)) => Ok(Said::NotDone(pages)),
        Err(MigrateFault::Memory(fault)) => Err(fault),
    }
}

// Whether the pieces, on an empty disk, give what is said and leave these bytes.
fn gives(alloc: Global, pieces: &[&[u8]], said: Said, left: &[u8]) -> Result<bool, AllocError> {
    let mut disk = MemDisk::new(alloc, Vec::new(alloc), Vec::new(alloc), None);
    let found = migrate_onto(alloc, pieces, Vec::new(alloc), &mut disk)?;
    Ok(found == said && disk.contents() == left)
}

#[test]
fn version_1_files_become_their_new_files(rt: HostRuntime) -> Result<(), Fail> {
    let alloc = rt.alloc();
    assert!(rt; gives(alloc, &[&SMALL], Said::Migrated(2), &SMALL_NEW)?);
    assert!(rt; gives(alloc, &[&OLD], Said::Migrated(4), &NEW)?);
    assert!(rt; gives(alloc, &[&OLD, b"\x01\x09\x09"], Said::Migrated(4), &NEW)?);
    Ok(())
}

// The Header of the new file, and a closed gate.
const HEADER: [u8; 27] = [
    1, 1, 20, 0, 0, 0, 77, 90, 86, 68, 65, 84, 65, 2, 3, 2, 0, 5, 0, 0, 0, 0, 0, 0, 0, 0, 0,
];

#[test]
fn other_bytes_are_told_apart(rt: HostRuntime) -> Result<(), Fail> {
    let alloc = rt.alloc();
    assert!(rt; gives(alloc, &[], Said::NotDone(0), b"\x00")?);
    assert!(rt; gives(alloc, &[&OLD[..25]], Said::NotDone(1), &HEADER)?);
    assert!(rt; gives(alloc, &[&OLD[..26]], Said::NotDone(1), &HEADER)?);
    assert!(rt; gives(alloc, &[&OLD[..31]], Said::BadPage(1), &HEADER)?);
    assert!(rt;
        gives(
            alloc,
            &[&OLD[..26], b"\x09", &OLD[27..]],
            Said::BadPage(1),
            &HEADER
        )?
    );
    assert!(rt;
        gives(
            alloc,
            &[&OLD[..25], &OLD[76..121], &OLD[25..76], &OLD[121..]],
            Said::Misfit(1),
            &HEADER
        )?
    );
    assert!(rt; gives(alloc, &[&NEW], Said::BadPage(0), b"\x00")?);
    Ok(())
}

#[test]
fn a_disk_that_is_not_empty_is_left_as_it_is(rt: HostRuntime) -> Result<(), Fail> {
    let alloc = rt.alloc();
    let mut disk = MemDisk::new(alloc, vec![in alloc; 0]?, Vec::new(alloc), None);
    let said = migrate_onto(alloc, &[&OLD], Vec::new(alloc), &mut disk)?;
    assert!(rt; said == Said::Exists(1));
    assert!(rt; disk.contents() == b"\x00".as_slice());
    Ok(())
}

#[test]
fn a_source_that_fails_leaves_the_pages_before(rt: HostRuntime) -> Result<(), Fail> {
    let alloc = rt.alloc();
    let mut disk = MemDisk::new(alloc, Vec::new(alloc), Vec::new(alloc), None);
    // Three reads take a page: its gate, its head and its body.
    let said = migrate_onto(alloc, &[&OLD], vec![in alloc; 4]?, &mut disk)?;
    assert!(rt; said == Said::ReadFault);
    assert!(rt; disk.contents() == HEADER.as_slice());
    Ok(())
}

// How many pages are sealed after a crash of a disk that stops at a change; 100 where they cannot be told.
fn left(alloc: Global, stop: u64, pick: Pick) -> Result<u64, AllocError> {
    let mut disk = MemDisk::new(alloc, Vec::new(alloc), Vec::new(alloc), Some(stop));
    let said = migrate_onto(alloc, &[&OLD], Vec::new(alloc), &mut disk)?;
    if said != Said::DiskFault && said != Said::Migrated(4) {
        return Ok(100);
    }
    let mut crashed = disk.crash(pick)?;
    match look(alloc, &mut crashed) {
        Ok(file) => Ok(file.count()),
        Err(_) => Ok(100),
    }
}

// Whether a crash of a disk that stops at change 0, 1, .. leaves so many pages, each time.
fn are_left(alloc: Global, pick: Pick, counts: &[u64]) -> Result<bool, AllocError> {
    let mut stop = 0u64;
    for count in counts {
        if left(alloc, stop, pick)? != *count {
            return Ok(false);
        }
        stop = stop.wrapping_add(1);
    }
    Ok(true)
}

const SYNCED: [u64; 22] = [
    0, 0, 0, 0, 0, 0, 0, 0, 0, 1, 1, 1, 1, 2, 2, 2, 2, 3, 3, 3, 3, 4,
];

const OPENED: [u64; 22] = [
    0, 0, 0, 0, 0, 0, 0, 1, 1, 1, 1, 2, 2, 2, 2, 3, 3, 3, 3, 4, 4, 4,
];

#[test]
fn a_crash_leaves_the_pages_that_were_sealed(rt: HostRuntime) -> Result<(), Fail> {
    assert!(rt; are_left(rt.alloc(), Pick::Synced, &SYNCED)?);
    assert!(rt; are_left(rt.alloc(), Pick::Filled(1), &OPENED)?);
    Ok(())
}

//! Files of sealed pages: on a disk in memory that stops at any call, cut at any place, and on a real file.
ghost use Rattle.std.specs.Prelude.{◌≤◌, IsTrue, IfSome, OnOk};
ghost use Rattle.page_file.specs.Notes.{Suits};

use file_edge::FileDisk;
use outside_io::{Disk, MemDisk, Pick};
use page_codec::{Page, decode};
use page_file::{FileFault, PageFile, look, reading_laws};
use std::alloc::{AllocError, Global};
use std::fs;
use std::test::Fail;

// The file of the parameters 3 2 5 lex.
pub(crate) const FILE: [u8; 131] = [
    1, 1, 20, 0, 0, 0, 77, 90, 86, 68, 65, 84, 65, 2, 3, 2, 0, 5, 0, 0, 0, 0, 0, 0, 0, 0, 1, 2, 45,
    0, 0, 0, 0, 0, 0, 0, 1, 0, 0, 0, 0, 2, 0, 0, 0, 1, 0, 0, 0, 0, 0, 0, 0, 1, 0, 4, 0, 0, 0, 0, 0,
    0, 0, 1, 0, 0, 0, 0, 0, 4, 0, 0, 0, 0, 0, 0, 0, 1, 3, 39, 0, 0, 0, 0, 0, 1, 2, 0, 0, 0, 1, 0,
    0, 0, 0, 0, 0, 0, 1, 0, 4, 0, 0, 0, 0, 0, 0, 0, 1, 0, 0, 0, 0, 0, 4, 0, 0, 0, 0, 0, 0, 0, 1, 4,
    2, 0, 0, 0, 1, 0, 0,
];

// Seals the page that the bytes spell.
fn seal_one<D: Disk>(
    alloc: Global,
    disk: &mut D,
    file: &mut PageFile,
    bytes: &[u8],
) -> Result<(), FileFault>
    requires live { IsTrue file.old.is_live }
    requires ready { IsTrue file.old.is_ready }
    requires suits { IfSome (D.trace disk.old) (λ t. Suits file.old t.now.contents) }
    ensures live { OnOk result (IsTrue file.new.is_live) }
    ensures ready { OnOk result (IsTrue file.new.is_ready) }
    ensures suits { OnOk result (IfSome (D.trace disk.new) (λ t. Suits file.new t.now.contents)) }
{
    let Some((page, _)) = decode(alloc, bytes)? else {
        return Err(FileFault::BadPage(0));
    };
    let count = file.count();
    if count >= 1 << 40 {
        return Err(FileFault::BadPage(1));
    }
    if count > 0 {
        return file.seal(disk, &page);
    }
    match &page {
        Page::Header(_) => file.seal(disk, &page),
        _ => Err(FileFault::BadPage(2)),
    }
}

// Looks, renews, and seals three pages.
fn seal_three<D: Disk>(alloc: Global, disk: &mut D) -> Result<(), FileFault> {
    let mut file = look(alloc, disk)?;
    file.renew(disk)?;
    seal_one(alloc, disk, &mut file, &FILE[1..26])?;
    seal_one(alloc, disk, &mut file, &FILE[27..77])?;
    seal_one(alloc, disk, &mut file, &FILE[78..122])
}

// How many pages are sealed, or 100 and the number of the bad one.
fn seen<D: Disk>(alloc: Global, disk: &mut D) -> Result<u64, FileFault> {
    match look(alloc, disk) {
        Ok(file) => Ok(file.count()),
        Err(FileFault::BadPage(i)) => Ok(i.saturating_add(100)),
        Err(fault) => Err(fault),
    }
}

// How many pages are sealed after a crash of a disk that stops at a change.
fn left(alloc: Global, stop: u64, pick: Pick) -> Result<u64, FileFault> {
    let mut disk = MemDisk::new(alloc, Vec::new(alloc), Vec::new(alloc), Some(stop));
    let _ = seal_three(alloc, &mut disk);
    let mut crashed = disk.crash(pick)?;
    seen(alloc, &mut crashed)
}

// Whether a crash of a disk that stops at change 0, 1, .. leaves so many pages, each time.
fn are_left(alloc: Global, pick: Pick, counts: &[u64]) -> Result<bool, FileFault> {
    let mut stop = 0u64;
    for count in counts {
        if left(alloc, stop, pick)? != *count {
            return Ok(false);
        }
        stop = stop.wrapping_add(1);
    }
    Ok(true)
}

const SYNCED: [u64; 18] = [0, 0, 0, 0, 0, 0, 0, 0, 0, 1, 1, 1, 1, 2, 2, 2, 2, 3];

const READ: [u64; 18] = [0, 0, 0, 0, 0, 0, 0, 0, 1, 1, 1, 1, 2, 2, 2, 2, 3, 3];

const OPENED: [u64; 18] = [0, 0, 0, 0, 0, 0, 0, 1, 1, 1, 1, 2, 2, 2, 2, 3, 3, 3];

#[test]
fn a_crash_leaves_whole_pages(rt: HostRuntime) -> Result<(), Fail> {
    reading_laws();
    assert!(rt; are_left(rt.alloc(), Pick::Synced, &SYNCED)?);
    assert!(rt; are_left(rt.alloc(), Pick::Read, &READ)?);
    assert!(rt; are_left(rt.alloc(), Pick::Filled(0), &SYNCED)?);
    assert!(rt; are_left(rt.alloc(), Pick::Filled(1), &OPENED)?);
    assert!(rt; are_left(rt.alloc(), Pick::Filled(7), &SYNCED)?);
    Ok(())
}

// What is seen of the first bytes of the file.
fn seen_of(alloc: Global, bytes: &[u8]) -> Result<u64, FileFault> {
    let bytes = Vec::from_slice(alloc, bytes)?;
    let mut disk = MemDisk::new(alloc, bytes, Vec::new(alloc), None);
    seen(alloc, &mut disk)
}

// The number of whole pages in so many bytes of the file, or 100 more where reading stands behind an open gate.
fn wanted(len: usize) -> u64 {
    match len {
        0..=1 => 0,
        2..=25 => 100,
        26..=27 => 1,
        28..=76 => 101,
        77..=78 => 2,
        79..=121 => 102,
        122..=123 => 3,
        124..=129 => 103,
        _ => 4,
    }
}

// Whether the file, cut to each length, has its whole pages.
fn are_whole(alloc: Global) -> Result<bool, FileFault> {
    for len in 0..132usize {
        if seen_of(alloc, &FILE[..len])? != wanted(len) {
            return Ok(false);
        }
    }
    Ok(true)
}

#[test]
fn a_file_cut_anywhere_has_its_whole_pages(rt: HostRuntime) -> Result<(), Fail> {
    assert!(rt; are_whole(rt.alloc())?);
    Ok(())
}

// The length that is told of zero bytes as foreign, if any.
fn foreign(alloc: Global, len: usize) -> Result<Option<u64>, AllocError> {
    let bytes = vec![in alloc; 0; len]?;
    let mut disk = MemDisk::new(alloc, bytes, Vec::new(alloc), None);
    match look(alloc, &mut disk) {
        Err(FileFault::Foreign(n)) => Ok(Some(n)),
        _ => Ok(None),
    }
}

#[test]
fn zero_bytes_are_foreign_from_108_on(rt: HostRuntime) -> Result<(), Fail> {
    assert_eq!(rt; foreign(rt.alloc(), 108)?, Some(108));
    assert_eq!(rt; foreign(rt.alloc(), 107)?, None);
    let zeros = [0u8; 107];
    assert_eq!(rt; seen_of(rt.alloc(), &zeros)?, 0);
    Ok(())
}

// Whether page 2 of the file is the Final page.
fn has_final<D: Disk>(alloc: Global, disk: &mut D) -> Result<bool, FileFault> {
    let mut file = look(alloc, disk)?;
    if file.count() < 3 || file.params().is_none() {
        return Ok(false);
    }
    Ok(matches!(file.page(disk, 2)?, Page::Final(_)) && file.live())
}

#[test]
fn pages_are_sealed_in_a_real_file(rt: HostRuntime) -> Result<(), Fail> {
    let path = "page_file_test_table";
    let mut disk = FileDisk::new(&rt, String::from_str(rt.alloc(), path)?);
    seal_three(rt.alloc(), &mut disk)?;
    assert_eq!(rt; seen(rt.alloc(), &mut disk)?, 3);
    assert!(rt; has_final(rt.alloc(), &mut disk)?);
    assert_eq!(rt; fs::metadata(&rt, path)?.len(), 123);
    fs::remove_file(&rt, path)?;
    Ok(())
}

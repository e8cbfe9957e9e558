//! Builds that stop at any change of the disk, files that are cut or changed, and calls of the disk that fail.
use crate::files::{Answered, FILE, build_lex, resume_lex};
use outside_io::{MemDisk, Pick};
use std::alloc::{AllocError, Global};
use std::test::Fail;

// A disk in memory with these bytes, which never fails.
fn disk_of(alloc: Global, bytes: &[u8]) -> Result<MemDisk, AllocError> {
    let mut contents = Vec::new(alloc);
    contents.extend_from_slice(bytes)?;
    Ok(MemDisk::new(alloc, contents, Vec::new(alloc), None))
}

// The file that a whole build leaves.
fn whole(alloc: Global, wdm: (u64, u64, u64)) -> Result<MemDisk, AllocError> {
    let mut disk = MemDisk::new(alloc, Vec::new(alloc), Vec::new(alloc), None);
    let _ = build_lex(alloc, wdm, &mut disk);
    Ok(disk)
}

// The first change from `from` to below `most` that a build does not reach, where one that is stopped at each change before crashes, and
// is resumed to the same bytes.
fn stops(
    alloc: Global,
    wdm: (u64, u64, u64),
    pick: Pick,
    from: u64,
    most: u64,
) -> Result<u64, AllocError> {
    let file = whole(alloc, wdm)?;
    for stop in from..most {
        let mut disk = MemDisk::new(alloc, Vec::new(alloc), Vec::new(alloc), Some(stop));
        let (built, _) = build_lex(alloc, wdm, &mut disk);
        if built == "built" {
            return Ok(stop);
        }
        if built != "disk fault" {
            return Ok(1000);
        }
        let mut crashed = disk.crash(pick)?;
        let (resumed, _) = resume_lex(alloc, wdm, &mut crashed);
        if resumed != "resumed" || crashed.contents() != file.contents() {
            return Ok(stop.saturating_add(2000));
        }
    }
    Ok(3000)
}

#[test]
fn a_stopped_build_is_resumed_to_its_bytes(rt: HostRuntime) -> Result<(), Fail> {
    let file = whole(rt.alloc(), (3, 2, 5))?;
    assert_eq!(rt; file.contents(), &FILE[..]);
    assert_eq!(rt; stops(rt.alloc(), (2, 1, 3), Pick::Read, 0, 40)?, 13);
    Ok(())
}

#[test]
fn what_was_synced_is_resumed(rt: HostRuntime) -> Result<(), Fail> {
    assert_eq!(rt; stops(rt.alloc(), (3, 2, 5), Pick::Synced, 0, 40)?, 21);
    Ok(())
}

#[test]
fn what_was_read_is_resumed(rt: HostRuntime) -> Result<(), Fail> {
    assert_eq!(rt; stops(rt.alloc(), (3, 2, 5), Pick::Read, 0, 40)?, 21);
    Ok(())
}

#[test]
fn what_was_filled_with_0_is_resumed(rt: HostRuntime) -> Result<(), Fail> {
    assert_eq!(rt; stops(rt.alloc(), (3, 2, 5), Pick::Filled(0), 0, 40)?, 21);
    Ok(())
}

#[test]
fn what_was_filled_with_1_is_resumed(rt: HostRuntime) -> Result<(), Fail> {
    assert_eq!(rt; stops(rt.alloc(), (3, 2, 5), Pick::Filled(1), 0, 40)?, 21);
    Ok(())
}

#[test]
fn what_was_filled_with_7_is_resumed(rt: HostRuntime) -> Result<(), Fail> {
    assert_eq!(rt; stops(rt.alloc(), (3, 2, 5), Pick::Filled(7), 0, 40)?, 21);
    Ok(())
}

#[test]
fn longer_builds_are_resumed_to_their_bytes(rt: HostRuntime) -> Result<(), Fail> {
    assert_eq!(rt; stops(rt.alloc(), (4, 3, 101), Pick::Read, 0, 40)?, 21);
    assert_eq!(rt; stops(rt.alloc(), (5, 4, 101), Pick::Synced, 11, 40)?, 21);
    Ok(())
}

// What is answered over what is left of a build that stops at a change and crashes, how many bytes that is, and whether the file is that of
// a whole build then.
fn resumed_from(
    alloc: Global,
    wdm: (u64, u64, u64),
    stop: u64,
    file: &[u8],
) -> Result<(usize, Answered, bool), AllocError> {
    let mut disk = MemDisk::new(alloc, Vec::new(alloc), Vec::new(alloc), Some(stop));
    let _ = build_lex(alloc, wdm, &mut disk);
    let mut crashed = disk.crash(Pick::Synced)?;
    let left = crashed.contents().len();
    let answered = resume_lex(alloc, wdm, &mut crashed);
    Ok((left, answered, crashed.contents() == file))
}

#[test]
fn the_blocks_that_are_left_are_offered(rt: HostRuntime) -> Result<(), Fail> {
    let wdm = (7, 6, 101);
    let file = whole(rt.alloc(), wdm)?;
    let file = file.contents();
    assert_eq!(rt; file.len(), 13394);
    // of 94 relations the first 64 are sealed
    assert_eq!(rt;
        resumed_from(rt.alloc(), wdm, 14, file)?,
        (6590, ("resumed", 30), true)
    );
    Ok(())
}

#[test]
fn the_final_pages_that_are_left_are_sealed(rt: HostRuntime) -> Result<(), Fail> {
    let wdm = (15, 3, 101);
    let file = whole(rt.alloc(), wdm)?;
    let file = file.contents();
    assert_eq!(rt; file.len(), 128965);
    // of two final pages the first is sealed
    assert_eq!(rt;
        resumed_from(rt.alloc(), wdm, 22, file)?,
        (118602, ("resumed", 0), true)
    );
    Ok(())
}

#[test]
fn a_sealed_block_is_not_offered_again(rt: HostRuntime) -> Result<(), Fail> {
    let mut disk = MemDisk::new(
        rt.alloc(),
        Vec::new(rt.alloc()),
        Vec::new(rt.alloc()),
        Some(14),
    );
    assert_eq!(rt;
        build_lex(rt.alloc(), (3, 2, 5), &mut disk),
        ("disk fault", 0)
    );
    let mut crashed = disk.crash(Pick::Synced)?;
    assert_eq!(rt; crashed.contents().len(), 78);
    assert_eq!(rt;
        resume_lex(rt.alloc(), (3, 2, 5), &mut crashed),
        ("resumed", 0)
    );
    assert_eq!(rt; crashed.contents(), &FILE[..]);
    assert_eq!(rt;
        resume_lex(rt.alloc(), (3, 2, 5), &mut crashed),
        ("resumed", 0)
    );
    assert_eq!(rt; crashed.contents(), &FILE[..]);
    Ok(())
}

// What is answered over the first bytes of the file.
fn over_front(alloc: Global, len: usize) -> Result<(Answered, bool, bool), AllocError> {
    let front = if len < 131 { &FILE[..len] } else { &FILE[..] };
    let mut disk = disk_of(alloc, front)?;
    let answered = resume_lex(alloc, (3, 2, 5), &mut disk);
    Ok((
        answered,
        disk.contents() == &FILE[..],
        disk.contents() == front,
    ))
}

#[test]
fn cut_files_are_resumed_or_refused(rt: HostRuntime) -> Result<(), Fail> {
    // From the first length to the last: the page that is unreadable, or 9 where the build goes on.
    let lengths: [(usize, usize, u64); 9] = [
        (0, 1, 9),
        (2, 25, 0),
        (26, 27, 9),
        (28, 76, 1),
        (77, 78, 9),
        (79, 121, 2),
        (122, 123, 9),
        (124, 129, 3),
        (130, 131, 9),
    ];
    for (first, last, page) in lengths {
        for len in [first, last] {
            let ((answered, number), whole, same) = over_front(rt.alloc(), len)?;
            if page == 9 {
                assert_eq!(rt; answered, "resumed");
                assert!(rt; whole);
            } else {
                assert_eq!(rt; (answered, number), ("unreadable", page));
                assert!(rt; same);
            }
        }
    }
    Ok(())
}

// What is answered over the file with one byte changed, for a modulus, and whether the disk is as it was.
fn over_changed(
    alloc: Global,
    len: usize,
    place: usize,
    byte: u8,
    modulus: u64,
) -> Result<(Answered, bool, MemDisk), AllocError> {
    let mut bytes = Vec::new(alloc);
    bytes.extend_from_slice(if len < 131 { &FILE[..len] } else { &FILE[..] })?;
    if place < bytes.len() {
        bytes[place] = byte;
    }
    let mut disk = disk_of(alloc, &bytes)?;
    let answered = resume_lex(alloc, (3, 2, modulus), &mut disk);
    let same = disk.contents() == bytes.as_slice();
    Ok((answered, same, disk))
}

#[test]
fn changed_files_are_refused_by_name(rt: HostRuntime) -> Result<(), Fail> {
    let table: [(usize, u8, u64, Answered); 11] = [
        (27, 9, 5, ("unreadable", 1)),
        // another modulus
        (0, 1, 7, ("other", 5)),
        // the final row's last column, which is no column of the table then
        (98, 2, 5, ("misplaced", 2)),
        // the final row's last residue
        (100, 2, 5, ("differs", 2)),
        // the final combination's relation
        (110, 1, 5, ("differs", 2)),
        // the count of the last page
        (128, 2, 5, ("misplaced", 3)),
        // the forward row's last residue: the final page is another then
        (55, 2, 5, ("differs", 2)),
        // the forward combination's relation is past its entry's
        (65, 1, 5, ("misplaced", 1)),
        // the forward entry's number is 1, and its combination is of relation 0 alone
        (37, 1, 5, ("not forward", 1)),
        // the last gate is open
        (130, 1, 5, ("resumed", 0)),
        // nothing is changed
        (0, 1, 5, ("resumed", 0)),
    ];
    for (place, byte, modulus, said) in table {
        let (answered, same, disk) = over_changed(rt.alloc(), 131, place, byte, modulus)?;
        assert_eq!(rt; (place, answered), (place, said));
        if said.0 == "resumed" {
            assert_eq!(rt; disk.contents(), &FILE[..]);
        } else {
            assert!(rt; same);
        }
    }
    Ok(())
}

#[test]
fn the_rows_that_stand_are_taken(rt: HostRuntime) -> Result<(), Fail> {
    let (answered, _, disk) = over_changed(rt.alloc(), 77, 55, 2, 5)?;
    assert_eq!(rt; answered, ("resumed", 0));
    assert_eq!(rt; disk.contents().len(), 131);
    let page: [u8; 44] = [
        3, 39, 0, 0, 0, 0, 0, 1, 2, 0, 0, 0, 1, 0, 0, 0, 0, 0, 0, 0, 1, 0, 2, 0, 0, 0, 0, 0, 0, 0,
        1, 0, 0, 0, 0, 0, 4, 0, 0, 0, 0, 0, 0, 0,
    ];
    assert_eq!(rt; &disk.contents()[78..122], &page[..]);
    Ok(())
}

// What is answered where one call of the disk fails, and the disk.
fn failing(
    alloc: Global,
    bytes: &[u8],
    k: u64,
    builds: bool,
) -> Result<(Answered, MemDisk), AllocError> {
    let mut contents = Vec::new(alloc);
    contents.extend_from_slice(bytes)?;
    let mut fails = Vec::new(alloc);
    fails.push(k)?;
    let mut disk = MemDisk::new(alloc, contents, fails, None);
    let answered = if builds {
        build_lex(alloc, (3, 2, 5), &mut disk)
    } else {
        resume_lex(alloc, (3, 2, 5), &mut disk)
    };
    Ok((answered, disk))
}

// How many calls there are, of which each is a disk fault where it fails, and what a crash leaves then is resumed to the file.
fn calls(alloc: Global, bytes: &[u8], builds: bool) -> Result<u64, AllocError> {
    for k in 0..500 {
        let ((answered, _), disk) = failing(alloc, bytes, k, builds)?;
        if answered == "built" || answered == "resumed" {
            return Ok(k);
        }
        if answered != "disk fault" {
            return Ok(1000 + k);
        }
        let mut crashed = disk.crash(Pick::Read)?;
        let (again, _) = resume_lex(alloc, (3, 2, 5), &mut crashed);
        if again != "resumed" || crashed.contents() != &FILE[..] {
            return Ok(3000 + k);
        }
    }
    Ok(2000)
}

#[test]
fn a_failing_call_is_told(rt: HostRuntime) -> Result<(), Fail> {
    let whole = calls(rt.alloc(), &[], true)?;
    assert!(rt; 20 < whole && whole < 100);
    for len in [0, 26, 77, 122, 131] {
        let count = calls(rt.alloc(), &FILE[..len], false)?;
        assert!(rt; 5 < count && count < 100);
    }
    Ok(())
}

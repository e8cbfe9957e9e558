//! What `resume` says of files, and what it leaves of them.
use crate::commands::conduct_on;
use crate::sealing::FILE;
use outside_io::MemDisk;
use std::alloc::Global;
use std::process::Abort;
use std::test::Fail;

/// The length of the front of the file of 3 2 5 lex, a place in it that is changed to a byte, the words behind the file's name, what
/// `resume` writes, and its status.
type Resumed = (
    usize,
    (usize, u8),
    &'static [&'static str],
    &'static [u8],
    u8,
);

// Goes on with a front of the file. Status 0 leaves the whole file, another what stood there.
fn resumed(rt: &impl Abort, alloc: Global, wanted: Resumed) -> Result<(), Fail> {
    let (front, (place, byte), behind, said, status) = wanted;
    let stands = if front < 131 {
        &FILE[..front]
    } else {
        &FILE[..]
    };
    let mut bytes = Vec::from_slice(alloc, stands)?;
    if place < bytes.len() {
        bytes[place] = byte;
    }
    let mut words = Vec::new(alloc);
    words.push("resume")?;
    words.push("t")?;
    words.extend_from_slice(behind)?;
    let mut disk = MemDisk::new(alloc, bytes.clone()?, Vec::new(alloc), None);
    let (ended, sink) = conduct_on(alloc, &mut disk, &words, Vec::new(alloc), (&[0], &[]))?;
    assert_eq!(rt; ended, status);
    assert_eq!(rt; sink.taken(), said);
    if status == 0 {
        assert_eq!(rt; disk.contents(), FILE.as_slice());
    } else {
        assert_eq!(rt; disk.contents(), bytes.as_slice());
    }
    Ok(())
}

#[test]
fn a_stopped_build_goes_on(rt: HostRuntime) -> Result<(), Fail> {
    let all = b"resumed: relations 2, rows 1, offered 2, pages 4\n";
    let none = b"resumed: relations 2, rows 1, offered 0, pages 4\n";
    resumed(
        &rt,
        rt.alloc(),
        (0, (0, 1), &["3", "2", "5", "lex"], all, 0),
    )?;
    resumed(
        &rt,
        rt.alloc(),
        (27, (0, 1), &["3", "2", "5", "lex"], all, 0),
    )?;
    resumed(
        &rt,
        rt.alloc(),
        (78, (0, 1), &["3", "2", "5", "lex"], none, 0),
    )?;
    resumed(
        &rt,
        rt.alloc(),
        (131, (0, 1), &["3", "2", "5", "lex"], none, 0),
    )
}

#[test]
fn another_file_is_refused_by_name(rt: HostRuntime) -> Result<(), Fail> {
    let own: &[&str] = &["3", "2", "5", "lex"];
    let other = b"not a table: other 3 2 5 lex\n";
    let table: [Resumed; 7] = [
        (131, (0, 1), &["3", "2", "7", "lex"], other, 8),
        (131, (0, 1), &["3", "2", "5", "lex", "z(2,1)"], other, 8),
        (131, (0, 0), own, b"not a table: foreign 131\n", 8),
        (131, (27, 9), own, b"not a table: page 1 unreadable\n", 8),
        (131, (98, 2), own, b"not a table: page 2 misplaced\n", 8),
        (131, (37, 1), own, b"not a table: page 1 not forward\n", 8),
        (131, (55, 2), own, b"not a table: page 2 differs\n", 8),
    ];
    for wanted in table {
        resumed(&rt, rt.alloc(), wanted)?;
    }
    Ok(())
}

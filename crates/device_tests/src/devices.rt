//! Calls that fail when they are told to, and calls over ample memory.
use outside_io::{Disk, Failed, MemDisk, MemSink, MemSource, Sink, Source, write_all};
use std::process::Abort;
use std::test::Fail;

#[test]
fn a_source_that_fails_at_its_first_call_gives_all_its_bytes_then(
    rt: HostRuntime,
) -> Result<(), Fail> {
    let bytes = b"z(2)\n".to_vec(rt.alloc())?;
    let fails = [0u64, 2].to_vec(rt.alloc())?;
    let mut source = MemSource::new(bytes, fails);
    let mut buf = [0u8; 3];
    assert!(rt; source.read(&mut buf).is_err());
    assert_eq!(rt; source.read(&mut buf)?, 3);
    assert_eq!(rt; buf, *b"z(2");
    assert!(rt; source.read(&mut buf).is_err());
    assert_eq!(rt; source.read(&mut buf)?, 2);
    assert_eq!(rt; buf, *b")\n2");
    assert_eq!(rt; source.read(&mut buf)?, 0);
    Ok(())
}

#[test]
fn a_sink_that_fails_at_its_first_call_takes_what_comes_then(rt: HostRuntime) -> Result<(), Fail> {
    let fails = [0u64].to_vec(rt.alloc())?;
    let mut sink = MemSink::new(rt.alloc(), fails);
    assert!(rt; write_all(&mut sink, b"lost").is_err());
    assert_eq!(rt; sink.taken(), b"".as_slice());
    write_all(&mut sink, b"0\n")?;
    write_all(&mut sink, b"")?;
    assert_eq!(rt; sink.write(b"refused\n")?, 8);
    assert_eq!(rt; sink.taken(), b"0\nrefused\n".as_slice());
    assert_eq!(rt; sink.starved(), 0);
    Ok(())
}

// Writes where the contents reach, which has to be so.
fn write_within(rt: &impl Abort, disk: &mut MemDisk, at: u64, piece: &[u8]) -> Result<(), Failed> {
    let len = disk.contents().len() as u64;
    assert!(rt; at <= len);
    disk.write_at(at, piece)
}

#[test]
fn a_disk_gives_what_was_written_and_cut(rt: HostRuntime) -> Result<(), Fail> {
    let bytes = b"abcdef".to_vec(rt.alloc())?;
    let fails = [1u64].to_vec(rt.alloc())?;
    let mut disk = MemDisk::new(rt.alloc(), bytes, fails, Some(4));
    assert_eq!(rt; disk.len()?, 6);
    assert!(rt; disk.write_at(0, b"lost").is_err());
    assert_eq!(rt; disk.contents(), b"abcdef".as_slice());
    for (at, piece, whole) in [
        (1, b"XY".as_slice(), b"aXYdef".as_slice()),
        (5, b"ghi".as_slice(), b"aXYdeghi".as_slice()),
    ] {
        write_within(&rt, &mut disk, at, piece)?;
        assert_eq!(rt; disk.contents(), whole, "at {at}");
    }
    assert!(rt; disk.contents().len() >= 4);
    disk.cut(4)?;
    let mut buf = [0u8; 3];
    assert_eq!(rt; disk.read_at(2, &mut buf)?, 2);
    assert_eq!(rt; buf, *b"Yd\0");
    assert_eq!(rt; disk.read_at(4, &mut buf)?, 0);
    // The sync is change number 4, at which the disk stops.
    assert!(rt; disk.sync().is_err());
    assert!(rt; disk.len().is_err());
    assert_eq!(rt; disk.contents(), b"aXYd".as_slice());
    assert_eq!(rt; disk.starved(), 0);
    Ok(())
}

#[test]
fn a_disk_syncs_where_nothing_fails(rt: HostRuntime) -> Result<(), Fail> {
    let bytes = Vec::new(rt.alloc());
    let fails = Vec::new(rt.alloc());
    let mut disk = MemDisk::new(rt.alloc(), bytes, fails, None);
    disk.write_at(0, b"0\n")?;
    disk.sync()?;
    assert_eq!(rt; disk.contents(), b"0\n".as_slice());
    Ok(())
}

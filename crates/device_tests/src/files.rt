//! A disk on a real file, and the standard streams.
use file_edge::{FileDisk, StdSink, StdSource};
use outside_io::{Disk, Failed, Sink, Source, write_all};
use std::fs;
use std::test::Fail;

// Writes a piece, cuts the file to a length, and syncs it.
fn change(
    disk: &mut FileDisk<'_, HostRuntime>,
    at: u64,
    piece: &[u8],
    len: u64,
) -> Result<(), Failed> {
    disk.write_at(at, piece)?;
    disk.cut(len)?;
    disk.sync()
}

// Whether the length is this, and a read at a place begins with this byte.
fn shows(
    disk: &mut FileDisk<'_, HostRuntime>,
    len: u64,
    at: u64,
    byte: u8,
) -> Result<bool, Failed> {
    let mut buf = [0u8; 1];
    let long = disk.len()? == len;
    Ok(long && disk.read_at(at, &mut buf)? == 1 && buf[0] == byte)
}

#[test]
fn a_file_is_made_at_the_first_write(rt: HostRuntime) -> Result<(), Fail> {
    let path = "file_edge_test_table";
    let mut disk = FileDisk::new(&rt, String::from_str(rt.alloc(), path)?);
    assert_eq!(rt; disk.len()?, 0);
    assert!(rt; fs::metadata(&rt, path).is_err());
    change(&mut disk, 0, b"abcdef", 6)?;
    change(&mut disk, 4, b"XYZ", 6)?;
    assert!(rt; shows(&mut disk, 6, 5, b'Y')?);
    let mut other = FileDisk::new(&rt, String::from_str(rt.alloc(), path)?);
    assert!(rt; shows(&mut other, 6, 3, b'd')?);
    fs::remove_file(&rt, path)?;
    Ok(())
}

#[test]
fn a_file_in_no_folder_is_a_fault(rt: HostRuntime) -> Result<(), Fail> {
    let path = String::from_str(rt.alloc(), "file_edge_no_folder/table")?;
    let mut disk = FileDisk::new(&rt, path);
    assert!(rt; disk.write_at(0, b"x").is_err());
    Ok(())
}

#[test]
fn the_standard_streams_take_empty_pieces(rt: HostRuntime) -> Result<(), Fail> {
    let mut source = StdSource::new(&rt);
    assert_eq!(rt; source.read(&mut [])?, 0);
    let mut sink = StdSink::new(&rt);
    assert_eq!(rt; sink.write(b"")?, 0);
    write_all(&mut sink, b"\n")?;
    Ok(())
}

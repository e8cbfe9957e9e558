//! What `build` writes into files, and what the other commands say of them, against another program.
use crate::commands::{conduct_on, conduct_over};
use crate::sealing::FILE;
use outside_io::MemDisk;
use std::alloc::Global;
use std::process::Abort;
use std::test::Fail;

// The file of the parameters 2 1 3 lex.
const SMALL: [u8; 35] = [
    1, 1, 20, 0, 0, 0, 77, 90, 86, 68, 65, 84, 65, 2, 2, 1, 0, 3, 0, 0, 0, 0, 0, 0, 0, 0, 1, 4, 2,
    0, 0, 0, 0, 0, 0,
];

/// The words behind the file's name, what `build` writes, its status, and the length and the sum of the file that it leaves.
type Built = (&'static [&'static str], &'static [u8], u8, usize, u32);

// A sum of bytes that tells their order.
fn sum_of(bytes: &[u8]) -> u32 {
    let mut sum = 2_166_136_261u32;
    for byte in bytes {
        sum = (sum ^ u32::from(*byte)).wrapping_mul(16_777_619);
    }
    sum
}

// The disk that a run of `build` leaves of an empty one, of which is said what is wanted.
fn built(rt: &impl Abort, alloc: Global, wanted: &Built) -> Result<MemDisk, Fail> {
    let (behind, said, status, len, sum) = wanted;
    let mut words = Vec::new(alloc);
    words.push("build")?;
    words.push("t")?;
    words.extend_from_slice(behind)?;
    let mut disk = MemDisk::new(alloc, Vec::new(alloc), Vec::new(alloc), None);
    let (ended, sink) = conduct_on(alloc, &mut disk, &words, Vec::new(alloc), (&[0], &[]))?;
    assert_eq!(rt; ended, *status);
    assert_eq!(rt; sink.taken(), *said);
    assert_eq!(rt; disk.contents().len(), *len);
    assert_eq!(rt; sum_of(disk.contents()), *sum);
    Ok(disk)
}

#[test]
fn files_are_written_byte_for_byte(rt: HostRuntime) -> Result<(), Fail> {
    let alloc = rt.alloc();
    let small: Built = (
        &["2", "1", "3", "lex"],
        b"built: relations 0, rows 0, offered 0, pages 2\n",
        0,
        35,
        2_217_680_785,
    );
    let disk = built(&rt, alloc, &small)?;
    assert_eq!(rt; disk.contents(), SMALL.as_slice());
    let next: Built = (
        &["3", "2", "5", "lex"],
        b"built: relations 2, rows 1, offered 2, pages 4\n",
        0,
        131,
        1_409_115_377,
    );
    let disk = built(&rt, alloc, &next)?;
    assert_eq!(rt; disk.contents(), FILE.as_slice());
    Ok(())
}

#[test]
fn files_of_several_pages_are_written(rt: HostRuntime) -> Result<(), Fail> {
    let files: [Built; 6] = [
        (
            &["3", "2", "5", "lex", "z(2,1)"],
            b"built: relations 2, rows 1, offered 2, pages 4\n",
            0,
            136,
            3_285_797_235,
        ),
        (
            &["8", "2", "101", "odd"],
            b"built: relations 4, rows 4, offered 4, pages 4\n",
            0,
            605,
            2_960_884_252,
        ),
        // The work breaks in its second block: the header and one page are left.
        (
            &["8", "7", "289", "lex"],
            b"no inverse: 204 at relation 65\n",
            4,
            22_100,
            333_582_969,
        ),
        (
            &["4", "3", "15", "lex"],
            b"no inverse: 5 at relation 1\n",
            4,
            27,
            2_537_712_760,
        ),
        (
            &["4", "3", "100", "lex"],
            b"no inverse: 2 at word z(2,2)\n",
            4,
            0,
            2_166_136_261,
        ),
        (
            &["5", "4", "5", "lex"],
            b"bad parameter: weight 5 not below modulus 5\n",
            3,
            0,
            2_166_136_261,
        ),
    ];
    for file in &files {
        built(&rt, rt.alloc(), file)?;
    }
    Ok(())
}

// What a command says over the file on a disk, and the status.
fn says(
    rt: &impl Abort,
    alloc: Global,
    disk: &mut MemDisk,
    command: (&str, &[u8]),
    said: &[u8],
) -> Result<(), Fail> {
    let input = Vec::from_slice(alloc, command.1)?;
    let (ended, sink) = conduct_on(alloc, disk, &[command.0, "t"], input, (&[], &[]))?;
    assert_eq!(rt; ended, 0);
    assert_eq!(rt; sink.taken(), said);
    Ok(())
}

#[test]
fn a_built_file_is_shown_checked_and_used(rt: HostRuntime) -> Result<(), Fail> {
    let alloc = rt.alloc();
    let four: Built = (
        &["4", "3", "101", "lex"],
        b"built: relations 5, rows 3, offered 5, pages 4\n",
        0,
        367,
        474_282_430,
    );
    let mut disk = built(&rt, alloc, &four)?;
    let rows =
        b"table 4 3 101 lex\npages 4\nz(2,1,1) = 61*z(2)^2\nz(3,1) = 91*z(2)^2\nz(4) = 61*z(2)^2\n";
    says(&rt, alloc, &mut disk, ("show", b""), rows)?;
    says(
        &rt,
        alloc,
        &mut disk,
        ("rational", b"z(4)\nz(3,1)"),
        b"2/5*z(2)^2\n91*z(2)^2\n",
    )?;
    let seven: Built = (
        &["7", "6", "101", "lex"],
        b"built: relations 94, rows 29, offered 94, pages 5\n",
        0,
        13_394,
        817_211_898,
    );
    let mut disk = built(&rt, alloc, &seven)?;
    says(
        &rt,
        alloc,
        &mut disk,
        ("check", b""),
        b"complete: 7 6 101 lex, relations 94, rows 29\n",
    )?;
    let lines = b"z(5,2)\nz(2)*z(5)-z(2,5)-z(5,2)-z(7)\nz(2,1,2,1,1)\n";
    let replies = b"90*z(7)+5*z(2)*z(5)+21*z(2)^2*z(3)\n0\n17*z(7)+91*z(2)*z(5)\n";
    says(&rt, alloc, &mut disk, ("rewrite", lines), replies)?;
    let replies = b"90*z(7)+5*z(2)*z(5)+4/5*z(2)^2*z(3)\n";
    says(&rt, alloc, &mut disk, ("rational", b"z(5,2)"), replies)
}

#[test]
fn a_file_that_stands_is_left_as_it_is(rt: HostRuntime) -> Result<(), Fail> {
    let zeros = vec![in rt.alloc(); 0; 108]?;
    let (ended, sink) = conduct_over(
        rt.alloc(),
        &["build", "t", "3", "2", "5", "lex"],
        zeros,
        Vec::new(rt.alloc()),
        (&[], &[]),
    )?;
    assert_eq!(rt; ended, 8);
    assert_eq!(rt; sink.taken(), b"not a table: exists 108\n".as_slice());
    Ok(())
}

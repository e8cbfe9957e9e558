use datamine_program::run;
use outside_io::{MemDisk, MemSink, MemSource};
use std::alloc::{AllocError, Global};
use std::test::Fail;

const USAGE: &[u8] =
    b"usage: dual M; list W D; reduce W D M ORDER [PREF]; build FILE W D M ORDER [PREF]; resume FILE W D M ORDER [PREF]; check FILE; rewrite FILE; show FILE; sample W D M SEED COUNT; migrate FILE; rational FILE; probe N M\n";

// A run over some input, of which the listed calls of the source and the sink fail. Its file is empty.
pub(crate) fn conduct(
    alloc: Global,
    words: &[&str],
    input: Vec<u8>,
    fails: (&[u64], &[u64]),
) -> Result<(u8, MemSink), AllocError> {
    conduct_over(alloc, words, Vec::new(alloc), input, fails)
}

// The same over a file.
pub(crate) fn conduct_over(
    alloc: Global,
    words: &[&str],
    file: Vec<u8>,
    input: Vec<u8>,
    fails: (&[u64], &[u64]),
) -> Result<(u8, MemSink), AllocError> {
    let mut disk = MemDisk::new(alloc, file, Vec::new(alloc), None);
    conduct_on(alloc, &mut disk, words, input, fails)
}

// The same on a disk, which keeps what the run writes.
pub(crate) fn conduct_on(
    alloc: Global,
    disk: &mut MemDisk,
    words: &[&str],
    input: Vec<u8>,
    fails: (&[u64], &[u64]),
) -> Result<(u8, MemSink), AllocError> {
    let mut own = Vec::new(alloc);
    for word in words {
        own.push(String::from_str(alloc, word)?)?;
    }
    let mut source = MemSource::new(input, Vec::from_slice(alloc, fails.0)?);
    let mut sink = MemSink::new(alloc, Vec::from_slice(alloc, fails.1)?);
    let status = run(alloc, &own, disk, &mut source, &mut sink);
    Ok((status.code(), sink))
}

#[test]
fn runs_say_and_end_so(rt: HostRuntime) -> Result<(), Fail> {
    let alloc = rt.alloc();
    let table: [(&[&str], &[u8], u8); 14] = [
        (&["dual", "101"], b"0\nsyntax 3\n1*z(2)\n", 0),
        (
            &["dual", "9223372036854775807"],
            b"0\nsyntax 3\n1*z(2)\n",
            0,
        ),
        (
            &["list", "04", "3"],
            b"0 Fin z(2) z(2)\n1 Reg 1 z(3)\n2 Reg 1 z(2,1)\n3 Reg 2 z(2)\n4 Dual z(4)\n",
            0,
        ),
        (&["list", "2", "1"], b"", 0),
        (&[], USAGE, 2),
        (&["dual"], USAGE, 2),
        (&["dual", "+7"], USAGE, 2),
        (&["dual", "18446744073709551616"], USAGE, 2),
        (&["list", "3", "2", "5"], USAGE, 2),
        (&["list", "25", "0"], b"bad parameter: weight 25\n", 3),
        (&["list", "4", "4"], b"bad parameter: depth 4\n", 3),
        (&["list", "14", "13"], b"bad parameter: columns 4096\n", 3),
        (&["dual", "2"], b"bad parameter: modulus 2\n", 3),
        (
            &["dual", "9223372036854775808"],
            b"bad parameter: modulus 9223372036854775808\n",
            3,
        ),
    ];
    for (words, said, status) in table {
        let input = Vec::from_slice(alloc, b"z(2,1)-z(3)\nz(3\nz(2)")?;
        let (ended, sink) = conduct(alloc, words, input, (&[], &[]))?;
        assert_eq!(rt; ended, status);
        assert_eq!(rt; sink.taken(), said);
    }
    Ok(())
}

#[test]
fn a_call_that_fails_has_its_status(rt: HostRuntime) -> Result<(), Fail> {
    let alloc = rt.alloc();
    // The line that is not whole when a read fails gets no reply.
    let table: [(&[&str], (&[u64], &[u64]), &[u8], u8); 5] = [
        (&["dual", "101"], (&[0], &[]), b"", 6),
        (&["dual", "101"], (&[1], &[]), b"1*z(2)\n", 6),
        (&["dual", "101"], (&[], &[0]), b"", 7),
        (&["dual"], (&[0], &[0]), b"", 7),
        (&["list", "4", "3"], (&[0], &[0]), b"", 7),
    ];
    for (words, fails, said, status) in table {
        let input = Vec::from_slice(alloc, b"z(2)\nz(3")?;
        let (ended, sink) = conduct(alloc, words, input, fails)?;
        assert_eq!(rt; ended, status);
        assert_eq!(rt; sink.taken(), said);
    }
    Ok(())
}

#[test]
fn input_past_the_limit_is_too_much(rt: HostRuntime) -> Result<(), Fail> {
    let alloc = rt.alloc();
    let input = vec![in alloc; b'z'; 67_108_865]?;
    let (ended, sink) = conduct(alloc, &["dual", "101"], input, (&[], &[]))?;
    assert_eq!(rt; ended, 11);
    assert_eq!(rt; sink.taken(), b"too much input\n".as_slice());
    Ok(())
}

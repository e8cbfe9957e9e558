//! What `check`, `rewrite` and `rational` say of files, against another program.
use crate::commands::conduct_over;
use crate::sealing::FILE;
use outside_io::MemSink;
use std::alloc::{AllocError, Global};
use std::process::Abort;
use std::test::Fail;

const ZEROS: [u8; 108] = [0; 108];

// A run of a command over a file of these pieces, with some input; the listed calls of the source and the sink fail.
fn over(
    alloc: Global,
    name: &str,
    pieces: &[&[u8]],
    input: &[u8],
    fails: (&[u64], &[u64]),
) -> Result<(u8, MemSink), AllocError> {
    let mut file = Vec::new(alloc);
    for piece in pieces {
        file.extend_from_slice(piece)?;
    }
    let input = Vec::from_slice(alloc, input)?;
    conduct_over(alloc, &[name, "t"], file, input, fails)
}

// Each file is judged so by `check`, and where it is refused by `rewrite` and `rational` too, which then read no line.
fn each_is(rt: &impl Abort, alloc: Global, verdicts: &[(&[&[u8]], &[u8], u8)]) -> Result<(), Fail> {
    for (pieces, said, status) in verdicts {
        let (ended, sink) = over(alloc, "check", pieces, b"", (&[0], &[]))?;
        assert_eq!(rt; ended, *status);
        assert_eq!(rt; sink.taken(), *said);
        if *status != 0 {
            for name in ["rewrite", "rational"] {
                let (ended, sink) = over(alloc, name, pieces, b"z(3)\n", (&[0], &[]))?;
                assert_eq!(rt; ended, *status);
                assert_eq!(rt; sink.taken(), *said);
            }
        }
    }
    Ok(())
}

#[test]
fn complete_tables_are_told_from_others(rt: HostRuntime) -> Result<(), Fail> {
    let verdicts: [(&[&[u8]], &[u8], u8); 7] = [
        (&[&FILE], b"complete: 3 2 5 lex, relations 2, rows 1\n", 0),
        // The row is named by the second relation, which is twice the first.
        (
            &[&FILE[..110], b"\x01", &FILE[111..]],
            b"complete: 3 2 5 lex, relations 2, rows 1\n",
            0,
        ),
        (
            &[&FILE[..114], b"\x03", &FILE[115..]],
            b"not complete: row 0 is not its combination\n",
            9,
        ),
        (
            &[&FILE[..100], b"\x03", &FILE[101..]],
            b"not complete: row 0 is not its combination\n",
            9,
        ),
        // Without the final page.
        (
            &[&FILE[..77], b"\x01\x04\x02\x00\x00\x00\x00\x00\x00"],
            b"not complete: relation 0 leaves 4*z(2,1)+1*z(3)\n",
            9,
        ),
        (
            &[&FILE[..122], b"\x00"],
            b"not complete: pages 3, not done\n",
            9,
        ),
        (
            &[&FILE[..26], b"\x00"],
            b"not complete: pages 1, not done\n",
            9,
        ),
    ];
    each_is(&rt, rt.alloc(), &verdicts)
}

#[test]
fn what_is_no_table_is_refused(rt: HostRuntime) -> Result<(), Fail> {
    let verdicts: [(&[&[u8]], &[u8], u8); 6] = [
        (&[], b"not complete: pages 0, not done\n", 9),
        (&[&ZEROS], b"not a table: foreign 108\n", 8),
        (
            &[&FILE[..27], b"\x09", &FILE[28..]],
            b"not a table: page 1 unreadable\n",
            8,
        ),
        (
            &[&FILE[..26], &FILE[77..122], &FILE[26..77], &FILE[122..]],
            b"not a table: page 1 misplaced\n",
            8,
        ),
        (
            &[&FILE[..84], b"\x01", &FILE[85..]],
            b"not a table: page 2 misplaced\n",
            8,
        ),
        (&[&FILE[26..]], b"not a table: page 0 misplaced\n", 8),
    ];
    each_is(&rt, rt.alloc(), &verdicts)
}

#[test]
fn lines_are_rewritten_by_a_file(rt: HostRuntime) -> Result<(), Fail> {
    let alloc = rt.alloc();
    let lines = b"z(1,2)\nz(2,1)\nz(3)-z(2,1)\nz(2\nz(2)\n1/2*z(3)";
    let table: [(&str, &[u8], (&[u64], &[u64]), &[u8], u8); 6] = [
        (
            "rewrite",
            lines,
            (&[], &[]),
            b"3*z(3)\n1*z(3)\n0\nsyntax 3\nweight 2\n3*z(3)\n",
            0,
        ),
        (
            "rational",
            b"4*z(3)\nz(1,2)\nz(1",
            (&[], &[]),
            b"-1*z(3)\n3*z(3)\nsyntax 3\n",
            0,
        ),
        ("rewrite", b"", (&[], &[]), b"", 0),
        ("rewrite", lines, (&[0], &[]), b"", 6),
        ("rewrite", lines, (&[], &[0]), b"", 7),
        ("check", b"", (&[], &[0]), b"", 7),
    ];
    for (name, input, fails, said, status) in table {
        let (ended, sink) = over(alloc, name, &[&FILE], input, fails)?;
        assert_eq!(rt; ended, status);
        assert_eq!(rt; sink.taken(), said);
    }
    Ok(())
}

//! What `show` prints of files, against another program.
use crate::commands::conduct_over;
use crate::sealing::FILE;
use outside_io::MemSink;
use std::alloc::{AllocError, Global};
use std::test::Fail;

const ZEROS: [u8; 108] = [0; 108];

// A run of `show` over a file of these pieces.
fn show(alloc: Global, pieces: &[&[u8]]) -> Result<(u8, MemSink), AllocError> {
    let mut file = Vec::new(alloc);
    for piece in pieces {
        file.extend_from_slice(piece)?;
    }
    conduct_over(alloc, &["show", "t"], file, Vec::new(alloc), (&[0], &[]))
}

#[test]
fn sealed_rows_are_shown(rt: HostRuntime) -> Result<(), Fail> {
    let closed: &[u8] = b"\x00";
    let strange: &[u8] = b"\x09";
    let table: [(&[&[u8]], &[u8], u8); 8] = [
        (
            &[&FILE[..]],
            b"table 3 2 5 lex\npages 4\nz(2,1) = 1*z(3)\n",
            0,
        ),
        (&[&FILE[..77], closed], b"table 3 2 5 lex\npages 2\n", 0),
        (&[], b"not complete: pages 0, not done\n", 9),
        (&[&ZEROS[1..]], b"not complete: pages 0, not done\n", 9),
        (&[&ZEROS[..]], b"not a table: foreign 108\n", 8),
        (
            &[&FILE[..27], strange, &FILE[28..]],
            b"not a table: page 1 unreadable\n",
            8,
        ),
        (
            &[&FILE[..26], &FILE[77..122], &FILE[26..77], &FILE[122..]],
            b"not a table: page 1 misplaced\n",
            8,
        ),
        (&[&FILE[26..]], b"not a table: page 0 misplaced\n", 8),
    ];
    for (pieces, said, status) in table {
        let (ended, sink) = show(rt.alloc(), pieces)?;
        assert_eq!(rt; ended, status);
        assert_eq!(rt; sink.taken(), said);
    }
    Ok(())
}

//! Whole runs of `mzv_merge share`.
use crate::shares::{EMPTY, SECOND};
use merge_program::run_share;
use outside_io::MemSink;
use std::alloc::{AllocError, Global};
use std::test::Fail;

pub(crate) const USAGE: &[u8] = b"usage: share W D M ORDER I S; merge W D M ORDER S FILE ..\n";

// A run over a sink of which the listed calls fail.
fn conduct(alloc: Global, words: &[&str], fails: &[u64]) -> Result<(u8, MemSink), AllocError> {
    let mut own = Vec::new(alloc);
    for word in words {
        own.push(String::from_str(alloc, word)?)?;
    }
    let mut sink = MemSink::new(alloc, Vec::from_slice(alloc, fails)?);
    let status = run_share(alloc, &own, &mut sink);
    Ok((status.code(), sink))
}

#[test]
fn runs_say_and_end_so(rt: HostRuntime) -> Result<(), Fail> {
    let table: [(&[&str], &[u8], u8); 15] = [
        (&["share", "3", "2", "5", "lex", "1", "2"], &SECOND, 0),
        (&["share", "03", "2", "5", "lex", "001", "2"], &SECOND, 0),
        (&["share", "3", "2", "5", "lex", "2", "3"], &EMPTY, 0),
        (&[], USAGE, 2),
        (&["share", "3", "2", "5", "lex", "1"], USAGE, 2),
        (&["share", "3", "2", "5", "lex", "1", "2", "3"], USAGE, 2),
        (&["share", "3", "2", "5", "lex", "-1", "2"], USAGE, 2),
        (&["shares", "3", "2", "5", "lex", "1", "2"], USAGE, 2),
        (
            &["share", "3", "3", "5", "best", "9", "0"],
            b"bad parameter: depth 3\n",
            3,
        ),
        (
            &["share", "3", "2", "5", "best", "9", "0"],
            b"bad parameter: order\n",
            3,
        ),
        (
            &["share", "3", "2", "5", "lex", "9", "0"],
            b"bad parameter: shares 0\n",
            3,
        ),
        (
            &["share", "3", "2", "5", "lex", "0", "257"],
            b"bad parameter: shares 257\n",
            3,
        ),
        (
            &["share", "3", "2", "5", "lex", "2", "2"],
            b"bad parameter: share 2\n",
            3,
        ),
        (
            &["share", "4", "3", "100", "lex", "0", "1"],
            b"no inverse: 2 at word z(2,2)\n",
            4,
        ),
        (
            &["share", "5", "4", "9", "lex", "0", "3"],
            b"no inverse: 6 at relation 6\n",
            4,
        ),
    ];
    for (words, said, status) in table {
        let (ended, sink) = conduct(rt.alloc(), words, &[])?;
        assert_eq!(rt; ended, status, "of {} words", words.len());
        assert_eq!(rt; sink.taken(), said);
    }
    Ok(())
}

#[test]
fn a_sink_that_fails_ends_a_run(rt: HostRuntime) -> Result<(), Fail> {
    let table: [&[&str]; 4] = [
        &["share", "3", "2", "5", "lex", "1", "2"],
        &["share", "3", "2", "5", "lex", "2", "2"],
        &["share", "4", "3", "100", "lex", "0", "1"],
        &["share"],
    ];
    for words in table {
        let (ended, sink) = conduct(rt.alloc(), words, &[0])?;
        assert_eq!(rt; ended, 7);
        assert!(rt; sink.taken().is_empty());
    }
    Ok(())
}

//! A coordinator of shares, and whole runs of `mzv_merge merge`.
ghost use Rattle.std.specs.Prelude.{◌≡◌, ◌≤◌, IfOk};
ghost use Rattle.page_codec.specs.Bounds.{IsParams};

use crate::runs::USAGE;
use crate::shares::{SECOND, params_of, share_of, table_of};
use merge_runs::run_merge;
use outside_io::{MemDisk, MemSink};
use page_codec::Params;
use relation_list::listing;
use residues::WordMod;
use share_core::{Answer, Coordinator, Event, Refusal};
use share_file::encode_share;
use share_merge::MergeFault;
use std::alloc::{AllocError, Global};
use std::test::Fail;

/// A coordinator of the table of the parameters, in so many shares.
fn coordinator(alloc: Global, params: &Params, of: u32) -> Result<Coordinator<WordMod>, Fail>
    requires params { IsParams params.now }
    requires some { 1 ≤ of }
    requires few { of ≤ 256 }
{
    let table = table_of(alloc, params)?;
    let names = listing(alloc, params.weight, params.depth)?;
    Ok(Coordinator::new(alloc, table, names, *params, of)?)
}

/// An answer as text.
fn answer_text(alloc: Global, answer: &Answer) -> Result<String, AllocError> {
    match answer {
        Answer::Granted(i) => format!(in alloc; "granted {i}"),
        Answer::NoneOpen => String::from_str(alloc, "none open"),
        Answer::Counted(i) => format!(in alloc; "counted {i}"),
        Answer::Repeat(i) => format!(in alloc; "repeat {i}"),
        Answer::Refused(Refusal::Other) => String::from_str(alloc, "other"),
        Answer::Refused(Refusal::Share(_)) => String::from_str(alloc, "refused"),
        Answer::Freed(n) => format!(in alloc; "freed {n}"),
        Answer::Restarted => String::from_str(alloc, "restarted"),
    }
}

/// What is given in the end, as text.
fn end_text(alloc: Global, coordinator: &Coordinator<WordMod>) -> Result<String, Fail> {
    match coordinator.finish(alloc) {
        Ok(merged) => Ok(format!(in alloc; "rows {}", merged.rows.len())?),
        Err(MergeFault::MissingShare(i)) => Ok(format!(in alloc; "missing {i}")?),
        Err(_) => Err(Fail::new("nothing is given")),
    }
}

#[test]
fn grants_go_to_the_least_open_share(rt: HostRuntime) -> Result<(), Fail> {
    let mut coordinator = coordinator(rt.alloc(), &params_of(3, 5)?, 2)?;
    let table = [
        (Event::Grant { worker: 7 }, "granted 0"),
        (Event::Grant { worker: 8 }, "granted 1"),
        (Event::Grant { worker: 9 }, "none open"),
        (Event::Lose { worker: 7 }, "freed 1"),
        (Event::Grant { worker: 9 }, "granted 0"),
        (Event::Restart, "restarted"),
        (Event::Grant { worker: 9 }, "granted 0"),
    ];
    for (event, wanted) in &table {
        let answer = coordinator.step(rt.alloc(), event)?;
        let text = answer_text(rt.alloc(), &answer)?;
        assert_eq!(rt; text.as_str(), *wanted);
    }
    Ok(())
}

#[test]
fn each_share_counts_once(rt: HostRuntime) -> Result<(), Fail> {
    let params = params_of(3, 5)?;
    let mut coordinator = coordinator(rt.alloc(), &params, 2)?;
    let table = [
        (1, 2, "counted 1", "missing 0"),
        (1, 2, "repeat 1", "missing 0"),
        (0, 3, "other", "missing 0"),
        (0, 2, "counted 0", "rows 1"),
        (1, 2, "repeat 1", "rows 1"),
    ];
    for (index, of, wanted, end) in table {
        let share = share_of(rt.alloc(), &params, index, of)?;
        let answer = coordinator.step(rt.alloc(), &Event::Deliver { share })?;
        let text = answer_text(rt.alloc(), &answer)?;
        assert_eq!(rt; text.as_str(), wanted);
        let text = end_text(rt.alloc(), &coordinator)?;
        assert_eq!(rt; text.as_str(), end);
        assert_eq!(rt; coordinator.done(), end == "rows 1");
    }
    Ok(())
}

/// A disk with the bytes of share `index` of so many of the parameters w, w - 1, m and lex; none of them where the index is not below.
fn disk_of(alloc: Global, w: u64, m: u64, index: u32, of: u32) -> Result<MemDisk, Fail> {
    let mut bytes = Vec::new(alloc);
    if index < of {
        let share = share_of(alloc, &params_of(w, m)?, index, of)?;
        encode_share(alloc, &share, &mut bytes)?;
    }
    Ok(MemDisk::new(alloc, bytes, Vec::new(alloc), None))
}

/// A run for the words, over the shares with these indices of as many as the sixth word would have them.
fn conduct(
    alloc: Global,
    words: &[&str],
    shares: (u64, u64, &[u32], u32),
    fails: &[u64],
) -> Result<(u8, MemSink), Fail> {
    let mut own = Vec::new(alloc);
    for word in words {
        own.push(String::from_str(alloc, word)?)?;
    }
    let (w, m, order, of) = shares;
    let mut disks = Vec::new(alloc);
    for index in order {
        own.push(String::from_str(alloc, "file")?)?;
        disks.push(disk_of(alloc, w, m, *index, of)?)?;
    }
    let mut sink = MemSink::new(alloc, Vec::from_slice(alloc, fails)?);
    let status = run_merge(alloc, &own, &mut disks, &mut sink);
    Ok((status.code(), sink))
}

/// The words before the files; the table, the shares in the files, where 9 stands for no bytes, and how many there are; what is written, and the status.
type Merging = (
    &'static [&'static str],
    (u64, u64, &'static [u32], u32),
    &'static [u8],
    u8,
);

#[test]
fn merges_say_and_end_so(rt: HostRuntime) -> Result<(), Fail> {
    let small: &[&str] = &["merge", "3", "2", "5", "lex", "2"];
    let rows: &[u8] = b"merged: rows 1\nz(2,1) = 1*z(3)\n";
    let table: [Merging; 11] = [
        (small, (3, 5, &[0, 1], 2), rows, 0),
        (small, (3, 5, &[1, 0], 2), rows, 0),
        (small, (3, 5, &[0, 1, 0], 2), rows, 0),
        (
            small,
            (3, 5, &[0, 0], 2),
            b"not complete: share 1 missing\n",
            9,
        ),
        (
            small,
            (3, 5, &[9], 2),
            b"not a share: file 0 unreadable\n",
            8,
        ),
        (small, (3, 7, &[0, 1], 2), b"not a share: file 0 other\n", 8),
        (
            &["merge", "4", "3", "15", "lex", "3"],
            (4, 15, &[0, 1, 2], 3),
            b"no inverse: 10 at share 1 row 0\n",
            4,
        ),
        (
            &["merge", "4", "3", "100", "lex", "1"],
            (3, 5, &[9], 1),
            b"no inverse: 2 at word z(2,2)\n",
            4,
        ),
        (
            &["merge", "3", "2", "5", "lex", "0"],
            (3, 5, &[9], 1),
            b"bad parameter: shares 0\n",
            3,
        ),
        (small, (3, 5, &[], 2), USAGE, 2),
        (
            &["share", "3", "2", "5", "lex", "1", "2"],
            (3, 5, &[], 2),
            &SECOND,
            0,
        ),
    ];
    for (words, shares, said, status) in table {
        let (ended, sink) = conduct(rt.alloc(), words, shares, &[])?;
        assert_eq!(rt; ended, status, "of {} words", words.len());
        assert_eq!(rt; sink.taken(), said);
        let (ended, sink) = conduct(rt.alloc(), words, shares, &[0])?;
        assert_eq!(rt; ended, 7);
        assert!(rt; sink.taken().is_empty());
    }
    Ok(())
}

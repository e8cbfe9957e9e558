use line_loop::{Ended, Replier, answer_lines};
use outside_io::{MemSink, MemSource};
use std::alloc::AllocError;
use std::test::Fail;

// Its reply to a line is the line.
struct Echo;

impl Replier for Echo {
    ghost reply_to = { λ e line. line };

    fn reply(&self, line: &[u8], out: &mut Vec<u8>) -> Result<(), AllocError> {
        out.extend_from_slice(line)
    }
}

#[test]
fn each_line_gets_its_reply(rt: HostRuntime) -> Result<(), Fail> {
    let alloc = rt.alloc();
    for (input, said) in [
        (b"".as_slice(), b"".as_slice()),
        (b"\n".as_slice(), b"\n".as_slice()),
        (b"a\nbc\n\nd\n".as_slice(), b"a\nbc\n\nd\n".as_slice()),
        (b"a\nno end".as_slice(), b"a\nno end\n".as_slice()),
    ] {
        let mut source = MemSource::new(Vec::from_slice(alloc, input)?, Vec::new(alloc));
        let mut sink = MemSink::new(alloc, Vec::new(alloc));
        let ended = answer_lines(alloc, &Echo, &mut source, &mut sink);
        assert!(rt; ended == Ended::Done);
        assert_eq!(rt; sink.taken(), said);
    }
    Ok(())
}

#[test]
fn a_line_that_is_not_whole_when_a_read_fails_gets_no_reply(rt: HostRuntime) -> Result<(), Fail> {
    let alloc = rt.alloc();
    let bytes = Vec::from_slice(alloc, b"a\nb\nc")?;
    let mut source = MemSource::new(bytes, vec![in alloc; 1]?);
    let mut sink = MemSink::new(alloc, Vec::new(alloc));
    let ended = answer_lines(alloc, &Echo, &mut source, &mut sink);
    assert!(rt; ended == Ended::ReadFault);
    assert_eq!(rt; sink.taken(), b"a\nb\n".as_slice());
    Ok(())
}

#[test]
fn a_write_that_fails_ends_the_loop(rt: HostRuntime) -> Result<(), Fail> {
    let alloc = rt.alloc();
    let mut source = MemSource::new(Vec::from_slice(alloc, b"a\nb")?, Vec::new(alloc));
    let mut sink = MemSink::new(alloc, vec![in alloc; 1]?);
    let ended = answer_lines(alloc, &Echo, &mut source, &mut sink);
    assert!(rt; ended == Ended::WriteFault);
    assert_eq!(rt; sink.taken(), b"a\n".as_slice());
    Ok(())
}

//! The program `mzv`: a data mine of multiple zeta values modulo m. Its words, its input and its output are those of
//! `datamine_program`; what stands here only makes the real disk, source and sink.
#![tactic(auto)]

use datamine_program::{Status, run};
use file_edge::{FileDisk, StdSink, StdSource};
use std::alloc::AllocError;
use std::env;
use std::io::ErrorKind;
use std::process::ExitCode;

// The words behind the program's name. Where they cannot be had for another cause than want of memory there are
// none, so that the usage line is the answer.
fn words_of(rt: &HostRuntime) -> Result<Vec<String>, AllocError> {
    let mut words = Vec::new(rt.alloc());
    match env::args(rt) {
        Ok(arguments) => {
            for word in arguments.skip(1) {
                words.push(word)?;
            }
            Ok(words)
        }
        Err(error) if error.kind() == ErrorKind::OutOfMemory => Err(AllocError),
        Err(_) => Ok(words),
    }
}

// The name of the file: the second word, or the empty name.
fn file_of(rt: &HostRuntime, words: &[String]) -> Result<String, AllocError> {
    match words.get(1) {
        Some(name) => name.clone(),
        None => Ok(String::new(rt.alloc())),
    }
}

fn status(rt: &HostRuntime) -> Result<Status, AllocError> {
    let words = words_of(rt)?;
    let mut disk = FileDisk::new(rt, file_of(rt, &words)?);
    let mut source = StdSource::new(rt);
    let mut sink = StdSink::new(rt);
    Ok(run(rt.alloc(), &words, &mut disk, &mut source, &mut sink))
}

fn main(rt: HostRuntime) -> ExitCode {
    let status = match status(&rt) {
        Ok(status) => status,
        Err(AllocError) => Status::Memory,
    };
    ExitCode::from(status.code())
}

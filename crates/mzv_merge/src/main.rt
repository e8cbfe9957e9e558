//! The program `mzv_merge`: shares of tables of multiple zeta values modulo m. Its words, its files and its output are those of `merge_runs`;
//! what stands here only makes the real disks and the real sink.
#![tactic(auto)]

use file_edge::{FileDisk, StdSink};
use merge_runs::{MergeStatus, run_merge};
use std::alloc::AllocError;
use std::env;
use std::io::ErrorKind;
use std::process::ExitCode;

// The words behind the program's name. Where they cannot be had for another cause than want of memory there are
// none, so that the usage line is the answer.
fn words_of(rt: &HostRuntime) -> Result<Vec<String>, AllocError> {
    let mut words = Vec::new(rt.alloc());
    match env::args(rt) {
        Ok(arguments) => {
            for word in arguments.skip(1) {
                words.push(word)?;
            }
            Ok(words)
        }
        Err(error) if error.kind() == ErrorKind::OutOfMemory => Err(AllocError),
        Err(_) => Ok(words),
    }
}

// A disk on the file of each word after the sixth.
fn disks_of<'r>(
    rt: &'r HostRuntime,
    words: &[String],
) -> Result<Vec<FileDisk<'r, HostRuntime>>, AllocError> {
    let mut disks = Vec::new(rt.alloc());
    for name in words.iter().skip(6) {
        disks.push(FileDisk::new(rt, name.clone()?))?;
    }
    Ok(disks)
}

fn status(rt: &HostRuntime) -> Result<MergeStatus, AllocError> {
    let words = words_of(rt)?;
    let mut disks = disks_of(rt, &words)?;
    let mut sink = StdSink::new(rt);
    Ok(run_merge(rt.alloc(), &words, &mut disks, &mut sink))
}

fn main(rt: HostRuntime) -> ExitCode {
    let status = match status(&rt) {
        Ok(status) => status,
        Err(AllocError) => MergeStatus::Memory,
    };
    ExitCode::from(status.code())
}

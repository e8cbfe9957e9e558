//! Standard input as a source, and standard output as a sink.
ghost use Rattle.std.specs.Prelude.{◌≡◌, ◌≤◌, ◌<◌, length, None, IfOk};
ghost use Rattle.outside_io.specs.Causes.{HasCause};
ghost use Rattle.outside_io.specs.Told.{Reads, EndsOnly, Writes};

use outside_io::{Failed, Sink, Source};
use std::io::{Input, Print, Read};
use std::marker::Model;

/// Standard input. Each read is one read of the handle, of as many bytes as the buffer has room for.
#[derive(Drop)]
pub struct StdSource<'r, R> {
    rt: &'r R,
    faults: u64,
}

impl<'r, R> Model for StdSource<'r, R> {
    ghost use Rattle.std.specs.Prelude.{ℕ};

    ghost Value = { ℕ };

    ghost view = { λ a. a.faults };
}

impl<'r, R: Input> StdSource<'r, R> {
    /// Standard input, of which no read failed yet.
    pub fn new(rt: &'r R) -> StdSource<'r, R>
        ensures { result ≡ 0 }
    {
        StdSource { rt, faults: 0 }
    }
}

impl<R: Input> Source for StdSource<'_, R> {
    ghost left = { λ _. None };

    ghost faults = { λ s. s };

    fn read(&mut self, buf: &mut [u8]) -> Result<usize, Failed> {
        match self.rt.reader().read(buf) {
            Ok(n) => Ok(n),
            Err(_) => {
                self.faults = self.faults.saturating_add(1);
                Err(Failed)
            }
        }
    }
}

/// Standard output. Each write is one write of the handle; nothing is held back.
#[derive(Drop)]
pub struct StdSink<'r, R> {
    rt: &'r R,
    faults: u64,
}

impl<'r, R> Model for StdSink<'r, R> {
    ghost use Rattle.std.specs.Prelude.{ℕ};

    ghost Value = { ℕ };

    ghost view = { λ a. a.faults };
}

impl<'r, R: Print> StdSink<'r, R> {
    /// Standard output, of which no write failed yet.
    pub fn new(rt: &'r R) -> StdSink<'r, R>
        ensures { result ≡ 0 }
    {
        StdSink { rt, faults: 0 }
    }
}

impl<R: Print> Sink for StdSink<'_, R> {
    ghost taken = { λ _. None };

    ghost faults = { λ s. s };

    fn write(&mut self, bytes: &[u8]) -> Result<usize, Failed> {
        if bytes.is_empty() {
            return Ok(0);
        }
        match self.rt.write_some(bytes) {
            // A write that takes nothing would be tried again for ever.
            Ok(0) | Err(_) => {
                self.faults = self.faults.saturating_add(1);
                Err(Failed)
            }
            Ok(n) => Ok(n),
        }
    }
}

//! Bytes that come in: the trait, and a source in memory whose calls fail as they are told to.
ghost use Rattle.std.specs.Prelude.{if◌then◌else◌, is_ok, ◌≡◌, ◌≤◌, ◌<◌, [], ℕ, List, Option, Some, length, min, take, drop, IfOk, IsErr, is_err};
ghost use Rattle.outside_io.specs.Causes.{HasCause};
ghost use Rattle.outside_io.specs.Told.{Reads, EndsOnly};
ghost use Rattle.outside_io.specs.Mem.{Bytes, up, is_listed};

use crate::Failed;
use std::marker::Model;

/// Bytes that come in.
pub trait Source {
    /// The bytes that are left, where it tells them. No call changes whether it tells.
    ghost left: { Self → Option (List ℕ) };

    /// How often a call failed. The count stops at 2^64 - 1, where a further fault counts as risen.
    ghost faults: { Self → ℕ };

    /// Reads into the front of the buffer, and answers how many bytes: none only where the buffer is empty or at the end.
    /// `Failed` only where the count rose; no byte is then taken.
    fn read(&mut self, buf: &mut [u8]) -> Result<usize, Failed>
        ensures bound { IfOk result (λ n. n ≤ length buf.new) }
        ensures bytes { Reads (left self.old) (left self.new) result buf.new }
        ensures end { EndsOnly (left self.old) result buf.new }
        ensures cause { HasCause (faults self.old) (faults self.new) result };
}

/// A source in memory. A call fails exactly where its number is listed, and raises the count by one.
#[derive(Drop)]
pub struct MemSource {
    bytes: Vec<u8>,
    at: usize,
    calls: u64,
    fails: Vec<u64>,
    faults: u64,
}

impl Model for MemSource {
    ghost use Rattle.std.specs.Prelude.{◌≤◌, length, drop};
    ghost use Rattle.outside_io.specs.Mem.{Bytes};

    ghost Value = { Bytes };

    ghost view = { λ a. record { left = drop a.at a.bytes.items; calls = a.calls; fails = a.fails.items; faults = a.faults } };

    ghost invariant = { λ a. a.at ≤ length a.bytes.items };
}

impl MemSource {
    /// A source that gives the bytes. `fails` lists the numbers of the reads that are to fail, from 0.
    pub fn new(bytes: Vec<u8>, fails: Vec<u64>) -> MemSource
        ensures { result ≡ record { left = bytes.items; calls = 0; fails = fails.items; faults = 0 } }
    {
        MemSource {
            bytes,
            at: 0,
            calls: 0,
            fails,
            faults: 0,
        }
    }
}

impl Source for MemSource {
    ghost left = { λ s. Some s.left };

    ghost faults = { λ s. s.faults };

    fn read(&mut self, buf: &mut [u8]) -> Result<usize, Failed>
        ensures bound { IfOk result (λ n. n ≤ length buf.new) }
        ensures bytes { Reads (Some self.old.left) (Some self.new.left) result buf.new }
        ensures end { EndsOnly (Some self.old.left) result buf.new }
        ensures cause { HasCause self.old.faults self.new.faults result }
        ensures count { IfOk result (λ n. n ≡ min (length buf.new) (length self.old.left)) }
        ensures listed { is_err result ≡ is_listed self.old.fails self.old.calls }
        ensures faults { self.new.faults ≡ (if is_ok result then self.old.faults else up self.old.faults) }
        ensures calls { self.new.calls ≡ up self.old.calls }
        ensures fails { self.new.fails ≡ self.old.fails }
    {
        let listed = self.fails.contains(&self.calls);
        self.calls = self.calls.saturating_add(1);
        if listed {
            self.faults = self.faults.saturating_add(1);
            return Err(Failed);
        }
        let n = copy_front(buf, &self.bytes[self.at..]);
        self.at += n;
        Ok(n)
    }
}

// As many of the bytes as there is room for.
fn copy_front(buf: &mut [u8], bytes: &[u8]) -> usize
    ensures count { result ≡ min (length buf.new) (length bytes.now) }
    ensures front { take result buf.new ≡ take result bytes.now }
{
    let n = buf.len().min(bytes.len());
    buf[..n].copy_from_slice(&bytes[..n]);
    n
}

//! Where bytes go: the trait, a sink in memory whose calls fail as they are told to, and the writing of a whole piece.
ghost use Rattle.std.specs.Prelude.{◌≡◌, ◌≤◌, ◌<◌, [], ℕ, List, Option, Some, length, take, IfOk, OnOk, OnErr, IsOk, IsErr, IsTrue, is_ok, ◌||◌, if◌then◌else◌};
ghost use Rattle.outside_io.specs.Causes.{HasCause};
ghost use Rattle.outside_io.specs.Told.{Writes, AppendsFront, after_told};
ghost use Rattle.outside_io.specs.Mem.{Taken, up, is_listed};

use crate::Failed;
use std::alloc::Global;
use std::marker::Model;

/// Where bytes go.
pub trait Sink {
    /// The bytes that it took, where it tells them. No call changes whether it tells.
    ghost taken: { Self → Option (List ℕ) };

    /// How often a call failed. The count stops at 2^64 - 1, where a further fault counts as risen.
    ghost faults: { Self → ℕ };

    /// Takes the first of the bytes, and answers how many: at least one of a piece that has any.
    /// `Failed` only where the count rose; no byte is then taken.
    fn write(&mut self, bytes: &[u8]) -> Result<usize, Failed>
        ensures bound { IfOk result (λ n. n ≤ length bytes.now) }
        ensures some { IfOk result (λ n. 0 < length bytes.now → 0 < n) }
        ensures bytes { Writes (taken self.old) (taken self.new) result bytes.now }
        ensures cause { HasCause (faults self.old) (faults self.new) result };
}

/// Writes all the bytes, in as many writes as it needs. `Failed` only where the sink's count rose; the first of the bytes were then
/// taken, and the rest not.
pub fn write_all<K: Sink>(sink: &mut K, bytes: &[u8]) -> Result<(), Failed>
    ensures ok { OnOk result (K.taken sink.new ≡ after_told (K.taken sink.old) bytes.now) }
    ensures err { OnErr result (AppendsFront (K.taken sink.old) (K.taken sink.new) bytes.now) }
    ensures cause { HasCause (K.faults sink.old) (K.faults sink.new) result }
{
    let mut at = 0;
    while at < bytes.len() {
        at += sink.write(&bytes[at..])?;
    }
    Ok(())
}

/// A sink in memory. A call fails exactly where its number is listed or where it finds no memory, and takes the whole piece otherwise.
#[derive(Drop)]
pub struct MemSink {
    bytes: Vec<u8>,
    calls: u64,
    fails: Vec<u64>,
    faults: u64,
    starved: u64,
}

impl Model for MemSink {
    ghost use Rattle.outside_io.specs.Mem.{Taken};

    ghost Value = { Taken };

    ghost view = { λ a. record { taken = a.bytes.items; calls = a.calls; fails = a.fails.items; faults = a.faults; starved = a.starved } };
}

impl MemSink {
    /// A sink that took nothing. `fails` lists the numbers of the writes that are to fail, from 0.
    pub fn new(alloc: Global, fails: Vec<u64>) -> MemSink
        ensures { result ≡ record { taken = []; calls = 0; fails = fails.items; faults = 0; starved = 0 } }
    {
        MemSink {
            bytes: Vec::new(alloc),
            calls: 0,
            fails,
            faults: 0,
            starved: 0,
        }
    }

    /// The bytes that it took, the first ones first.
    pub fn taken(&self) -> &[u8]
        ensures { result.now ≡ self.now.taken }
    {
        &self.bytes
    }

    /// How many writes found no memory. The count stops at 2^64 - 1.
    pub fn starved(&self) -> u64
        ensures { result ≡ self.now.starved }
    {
        self.starved
    }
}

impl Sink for MemSink {
    ghost taken = { λ s. Some s.taken };

    ghost faults = { λ s. s.faults };

    fn write(&mut self, bytes: &[u8]) -> Result<usize, Failed>
        ensures bound { IfOk result (λ n. n ≤ length bytes.now) }
        ensures some { IfOk result (λ n. 0 < length bytes.now → 0 < n) }
        ensures bytes { Writes (Some self.old.taken) (Some self.new.taken) result bytes.now }
        ensures cause { HasCause self.old.faults self.new.faults result }
        ensures whole { IfOk result (λ n. n ≡ length bytes.now) }
        ensures listed { IsTrue (is_listed self.old.fails self.old.calls) → IsErr result }
        ensures starved { self.new.starved ≡ (if is_ok result || is_listed self.old.fails self.old.calls then self.old.starved else up self.old.starved) }
        ensures faults { self.new.faults ≡ (if is_ok result then self.old.faults else up self.old.faults) }
        ensures calls { self.new.calls ≡ up self.old.calls }
        ensures fails { self.new.fails ≡ self.old.fails }
    {
        let listed = self.fails.contains(&self.calls);
        self.calls = self.calls.saturating_add(1);
        if listed {
            self.faults = self.faults.saturating_add(1);
            return Err(Failed);
        }
        if self.bytes.extend_from_slice(bytes).is_err() {
            self.faults = self.faults.saturating_add(1);
            self.starved = self.starved.saturating_add(1);
            return Err(Failed);
        }
        Ok(bytes.len())
    }
}

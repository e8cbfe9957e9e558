//! A disk in memory, whose calls fail as they are told to.
ghost use Rattle.std.specs.Prelude.{◌≡◌, ◌≤◌, ◌<◌, [], length, take, drop, min, IfOk, is_err, if◌then◌else◌, false, None, Some};
ghost use Rattle.outside_io.specs.Causes.{HasCause};
ghost use Rattle.outside_io.specs.Moments.{IsImage, writing, cutting, settled};
ghost use Rattle.outside_io.specs.Traces.{step, Written, CutOff, Synced};
ghost use Rattle.outside_io.specs.Picks.{IsPicked};
ghost use Rattle.outside_io.specs.Kept.{Kept, Changes, called, is_refused, failed};

use crate::crashing::Pick;
use crate::held::filled;
use crate::history::History;
use crate::script::Script;
use crate::{Disk, Failed};
use std::alloc::{AllocError, Global};
use std::marker::Model;

/// A disk in memory. A call fails exactly where it is listed, is stopped or finds no memory.
#[derive(Drop)]
pub struct MemDisk {
    alloc: Global,
    history: History,
    script: Script,
}

impl Model for MemDisk {
    ghost use Rattle.outside_io.specs.Kept.{Kept};
    ghost use Rattle.outside_io.specs.Moments.{IsImage};

    ghost Value = { Kept };

    ghost view = { λ a. record { trace = a.history; counts = a.script } };

    ghost invariant = { λ a. IsImage a.history.now a.history.now.contents };
}

impl MemDisk {
    /// A disk that holds the bytes, with nothing pending. `fails` lists the numbers of the calls that are to fail, from 0 over the calls
    /// of all five kinds. `stop` counts write_at, cut and sync together, from 0: that call and every later one of any kind fail.
    pub fn new(alloc: Global, bytes: Vec<u8>, fails: Vec<u64>, stop: Option<u64>) -> MemDisk
        ensures trace { result.trace ≡ record { now = settled bytes.items; past = [] } }
        ensures counts { result.counts ≡ record { calls = 0; fails = fails.items; changes = 0; stop = stop; is_stopped = false; faults = 0; starved = 0 } }
    {
        MemDisk {
            alloc,
            history: History::new(alloc, bytes),
            script: Script::new(fails, stop),
        }
    }

    /// What a read gives.
    pub fn contents(&self) -> &[u8]
        ensures { result.now ≡ self.now.trace.now.contents }
    {
        self.history.contents()
    }

    // The image that is picked.
    fn image(&self, pick: Pick) -> Result<Vec<u8>, AllocError>
        ensures image { IfOk result (λ bytes. IsImage self.now.trace.now bytes.items) }
        ensures picked { IfOk result (λ bytes. IsPicked pick self.now.trace.now bytes.items) }
    {
        let held = self.history.held(self.alloc)?;
        match pick {
            Pick::Synced => Ok(held.into_synced()),
            Pick::Read => Vec::from_slice(self.alloc, self.history.contents()),
            Pick::Filled(byte) => filled(self.alloc, &held, byte),
        }
    }

    /// The disk after a crash that leaves the picked image: nothing is pending there, no call came yet, and none is to fail.
    pub fn crash(&self, pick: Pick) -> Result<MemDisk, AllocError>
        ensures settled { IfOk result (λ d. d.trace ≡ record { now = settled d.trace.now.contents; past = [] }) }
        ensures image { IfOk result (λ d. IsImage self.now.trace.now d.trace.now.contents) }
        ensures picked { IfOk result (λ d. IsPicked pick self.now.trace.now d.trace.now.contents) }
        ensures counts { IfOk result (λ d. d.counts ≡ record { calls = 0; fails = []; changes = 0; stop = None; is_stopped = false; faults = 0; starved = 0 }) }
    {
        let bytes = self.image(pick)?;
        let none = Vec::new(self.alloc);
        Ok(MemDisk::new(self.alloc, bytes, none, None))
    }

    /// How many calls found no memory. The count stops at 2^64 - 1.
    pub fn starved(&self) -> u64
        ensures { result ≡ self.now.counts.starved }
    {
        self.script.starved()
    }
}

impl Disk for MemDisk {
    ghost trace = { λ d. Some d.trace };

    ghost faults = { λ d. d.counts.faults };

    fn len(&mut self) -> Result<u64, Failed>
        ensures length { IfOk result (λ n. n ≡ length self.old.trace.now.contents) }
        ensures same { Some self.new.trace ≡ Some self.old.trace }
        ensures image { IsImage self.new.trace.now self.new.trace.now.contents }
        ensures cause { HasCause self.old.counts.faults self.new.counts.faults result }
        ensures refused { is_err result ≡ is_refused self.old.counts }
        ensures counts { self.new.counts ≡ (if is_refused self.old.counts then failed (called self.old.counts) else called self.old.counts) }
    {
        let bytes = self.history.contents();
        self.script.ask()?;
        Ok(bytes.len() as u64)
    }

    fn read_at(&mut self, at: u64, buf: &mut [u8]) -> Result<usize, Failed>
        ensures bound { IfOk result (λ n. n ≤ length buf.new) }
        ensures bytes { IfOk result (λ n. take n buf.new ≡ take n (drop at self.old.trace.now.contents)) }
        ensures end { IfOk result (λ n. n ≡ 0 → 0 < length buf.new → length self.old.trace.now.contents ≤ at) }
        ensures same { Some self.new.trace ≡ Some self.old.trace }
        ensures image { IsImage self.new.trace.now self.new.trace.now.contents }
        ensures cause { HasCause self.old.counts.faults self.new.counts.faults result }
        ensures count { IfOk result (λ n. n ≡ min (length buf.new) (length (drop at self.old.trace.now.contents))) }
        ensures refused { is_err result ≡ is_refused self.old.counts }
        ensures counts { self.new.counts ≡ (if is_refused self.old.counts then failed (called self.old.counts) else called self.old.counts) }
    {
        let bytes = self.history.contents();
        self.script.ask()?;
        Ok(copy_from(buf, bytes, at))
    }

    fn write_at(&mut self, at: u64, bytes: &[u8]) -> Result<(), Failed>
        requires { at ≤ length self.old.trace.now.contents }
        ensures written { Written at bytes.now (Some self.old.trace) (Some self.new.trace) result }
        ensures image { IsImage self.new.trace.now self.new.trace.now.contents }
        ensures cause { HasCause self.old.counts.faults self.new.counts.faults result }
        ensures changes { Changes (step (λ m. writing m at (length bytes.now) m.contents)) self.old self.new result }
    {
        let written = match self.script.change() {
            Ok(()) => self.history.write(self.alloc, at, bytes),
            Err(fault) => {
                if self.history.break_write(at, bytes.len()).is_err() {
                    self.script.starve();
                }
                return Err(fault);
            }
        };
        match written {
            Ok(()) => Ok(()),
            Err(_) => {
                self.script.fail_starved();
                Err(Failed)
            }
        }
    }

    fn cut(&mut self, len: u64) -> Result<(), Failed>
        requires { len ≤ length self.old.trace.now.contents }
        ensures cut { CutOff len (Some self.old.trace) (Some self.new.trace) result }
        ensures image { IsImage self.new.trace.now self.new.trace.now.contents }
        ensures cause { HasCause self.old.counts.faults self.new.counts.faults result }
        ensures changes { Changes (step (λ m. cutting m len m.contents)) self.old self.new result }
    {
        let was_cut = match self.script.change() {
            Ok(()) => self.history.cut(self.alloc, len),
            Err(fault) => {
                if self.history.break_cut(len).is_err() {
                    self.script.starve();
                }
                return Err(fault);
            }
        };
        match was_cut {
            Ok(()) => Ok(()),
            Err(_) => {
                self.script.fail_starved();
                Err(Failed)
            }
        }
    }

    fn sync(&mut self) -> Result<(), Failed>
        ensures synced { Synced (Some self.old.trace) (Some self.new.trace) result }
        ensures image { IsImage self.new.trace.now self.new.trace.now.contents }
        ensures cause { HasCause self.old.counts.faults self.new.counts.faults result }
        ensures changes { Changes (λ t. t) self.old self.new result }
    {
        self.script.change()?;
        match self.history.sync() {
            Ok(()) => Ok(()),
            Err(_) => {
                self.script.fail_starved();
                Err(Failed)
            }
        }
    }
}

// As many of the bytes from a place as there is room for.
fn copy_from(buf: &mut [u8], bytes: &[u8], at: u64) -> usize
    ensures count { result ≡ min (length buf.new) (length (drop at bytes.now)) }
    ensures front { take result buf.new ≡ take result (drop at bytes.now) }
    ensures end { result ≡ 0 → 0 < length buf.new → length bytes.now ≤ at }
{
    if at >= bytes.len() as u64 {
        return 0;
    }
    let rest = &bytes[at as usize..];
    let n = buf.len().min(rest.len());
    buf[..n].copy_from_slice(&rest[..n]);
    n
}

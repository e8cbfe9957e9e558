//! Which calls of a disk in memory fail, and how many did.
ghost use Rattle.std.specs.Prelude.{◌≡◌, ◌≤◌, ◌||◌, ◌==◌, is_err, if◌then◌else◌, false};
ghost use Rattle.std.specs.Option.{option_map_or};
ghost use Rattle.outside_io.specs.Causes.{HasCause, Rose};
ghost use Rattle.outside_io.specs.Kept.{Counts, called, changing, is_refused, is_change_refused, failed};
ghost use Rattle.outside_io.specs.Mem.{up};

use crate::Failed;
use std::marker::Model;

/// The numbers of the calls that are to fail, and the counts so far. A count stops at 2^64 - 1.
#[derive(Drop)]
pub struct Script {
    calls: u64,
    fails: Vec<u64>,
    changes: u64,
    stop: Option<u64>,
    stopped: bool,
    faults: u64,
    starved: u64,
}

impl Model for Script {
    ghost use Rattle.outside_io.specs.Kept.{Counts};

    ghost Value = { Counts };

    ghost view = { λ a. record { calls = a.calls; fails = a.fails.items; changes = a.changes; stop = a.stop; is_stopped = a.stopped; faults = a.faults; starved = a.starved } };
}

impl Script {
    /// No call came yet.
    pub fn new(fails: Vec<u64>, stop: Option<u64>) -> Script
        ensures { result ≡ record { calls = 0; fails = fails.items; changes = 0; stop = stop; is_stopped = false; faults = 0; starved = 0 } }
    {
        Script {
            calls: 0,
            fails,
            changes: 0,
            stop,
            stopped: false,
            faults: 0,
            starved: 0,
        }
    }

    /// How many calls found no memory.
    pub fn starved(&self) -> u64
        ensures { result ≡ self.now.starved }
    {
        self.starved
    }

    /// Counts a call of len or read_at, and a fault where it is to fail.
    pub fn ask(&mut self) -> Result<(), Failed>
        ensures refused { is_err result ≡ is_refused self.old }
        ensures new { self.new ≡ (if is_refused self.old then failed (called self.old) else called self.old) }
        ensures cause { HasCause self.old.faults self.new.faults result }
    {
        let refused = self.stopped || self.fails.contains(&self.calls);
        self.calls = self.calls.saturating_add(1);
        if refused {
            self.faults = self.faults.saturating_add(1);
            return Err(Failed);
        }
        Ok(())
    }

    /// Counts a call of write_at, cut or sync, and a fault where it is to fail.
    pub fn change(&mut self) -> Result<(), Failed>
        ensures refused { is_err result ≡ is_change_refused self.old }
        ensures new { self.new ≡ (if is_change_refused self.old then failed (changing self.old) else changing self.old) }
        ensures cause { HasCause self.old.faults self.new.faults result }
    {
        self.stopped = self.stopped || is_at(self.stop, self.changes);
        let refused = self.stopped || self.fails.contains(&self.calls);
        self.calls = self.calls.saturating_add(1);
        self.changes = self.changes.saturating_add(1);
        if refused {
            self.faults = self.faults.saturating_add(1);
            return Err(Failed);
        }
        Ok(())
    }

    /// Counts a fault for want of memory.
    pub fn fail_starved(&mut self)
        ensures new { self.new ≡ record self.old { faults = up self.old.faults; starved = up self.old.starved } }
        ensures later { self.old.faults ≤ self.new.faults }
        ensures rose { Rose self.old.faults self.new.faults }
    {
        self.faults = self.faults.saturating_add(1);
        self.starved = self.starved.saturating_add(1);
    }

    /// Counts that a call that was to fail found no memory either.
    pub fn starve(&mut self)
        ensures { self.new ≡ record self.old { starved = up self.old.starved } }
    {
        self.starved = self.starved.saturating_add(1);
    }
}

// The next change is the one at which the disk stops.
fn is_at(stop: Option<u64>, changes: u64) -> bool
    ensures { result ≡ option_map_or (λ n. n == changes) stop false }
{
    match stop {
        Some(number) => number == changes,
        None => false,
    }
}

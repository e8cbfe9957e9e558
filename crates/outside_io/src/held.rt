//! A moment of a disk in memory, made again from the changes since its start.
ghost use Rattle.std.specs.Prelude.{◌≡◌, length, take, IfOk, OnOk};
ghost use Rattle.outside_io.specs.Moments.{is_open, overlaid, writing, cutting, settled};
ghost use Rattle.outside_io.specs.Inner.{after_change, replay};
ghost use Rattle.outside_io.specs.Picks.{filled_at, IsFilled};

use crate::history::{Change, over};
use std::alloc::{AllocError, Global};
use std::marker::Model;

/// What a read gives at a moment, what was there at the last sync, the bounds of the length since, and the ranges that are open.
#[derive(Drop)]
pub struct Held {
    contents: Vec<u8>,
    synced: Vec<u8>,
    low: u64,
    high: u64,
    ranges: Vec<(u64, u64)>,
}

impl Model for Held {
    ghost use Rattle.outside_io.specs.Moments.{Moment};

    ghost Value = { Moment };

    ghost view = { λ h. record { contents = h.contents.items; synced = h.synced.items; low = h.low; high = h.high; open_ranges = h.ranges.items } };
}

impl Held {
    /// The bytes, and nothing pending.
    pub fn new(alloc: Global, start: &[u8]) -> Result<Held, AllocError>
        ensures { IfOk result (λ h. h ≡ settled start.now) }
    {
        let contents = Vec::from_slice(alloc, start)?;
        let synced = Vec::from_slice(alloc, start)?;
        Ok(Held {
            contents,
            synced,
            low: start.len() as u64,
            high: start.len() as u64,
            ranges: Vec::new(alloc),
        })
    }

    /// One change more. A length past 2^64 - 1 counts as want of memory.
    pub fn apply(&mut self, alloc: Global, change: &Change) -> Result<(), AllocError>
        ensures { OnOk result (self.new ≡ after_change change.now self.old) }
    {
        match change {
            Change::Wrote { at, bytes } => self.write(alloc, *at, bytes),
            Change::Broke { at, len } => self.open(*at, *len as u64),
            Change::Cut { len } => {
                self.cut(*len);
                Ok(())
            }
            Change::BrokeOff { len } => {
                self.low = self.low.min(*len);
                Ok(())
            }
            Change::Synced => self.sync(alloc),
        }
    }

    // The bytes are written.
    fn write(&mut self, alloc: Global, at: u64, bytes: &[u8]) -> Result<(), AllocError>
        ensures { OnOk result (self.new ≡ writing self.old at (length bytes.now) (overlaid self.old.contents at bytes.now)) }
    {
        let next = laid_over(alloc, &self.contents, at, bytes)?;
        self.open(at, bytes.len() as u64)?;
        self.contents = next;
        Ok(())
    }

    // A range is open, and the bytes may reach as far.
    fn open(&mut self, at: u64, len: u64) -> Result<(), AllocError>
        ensures { OnOk result (self.new ≡ writing self.old at len self.old.contents) }
    {
        let Some(end) = at.checked_add(len) else {
            return Err(AllocError);
        };
        self.ranges.insert(0, (at, len))?;
        self.high = self.high.max(end);
        Ok(())
    }

    // The bytes are cut.
    fn cut(&mut self, len: u64)
        ensures { self.new ≡ cutting self.old len (take len self.old.contents) }
    {
        self.contents.truncate(len as usize);
        self.low = self.low.min(len);
    }

    // What a read gives is made durable.
    fn sync(&mut self, alloc: Global) -> Result<(), AllocError>
        ensures { OnOk result (self.new ≡ settled self.old.contents) }
    {
        let synced = Vec::from_slice(alloc, &self.contents)?;
        self.low = synced.len() as u64;
        self.high = synced.len() as u64;
        self.synced = synced;
        self.ranges.clear();
        Ok(())
    }

    fn is_open(&self, i: u64) -> bool
        ensures { result ≡ is_open self.now.open_ranges i }
    {
        self.ranges.iter().any(|r| r.0 <= i && i - r.0 < r.1)
    }

    // The byte at a place, where what is open holds a byte.
    fn cell(&self, byte: u8, i: u64) -> u8
        ensures { result ≡ filled_at byte self.now i }
    {
        if i < self.synced.len() as u64 && !self.is_open(i) {
            self.synced[i as usize]
        } else {
            byte
        }
    }

    /// The greatest length of an image.
    fn high(&self) -> u64
        ensures { result ≡ self.now.high }
    {
        self.high
    }

    /// What was there at the last sync.
    pub fn into_synced(self) -> Vec<u8>
        ensures { result.items ≡ self.synced }
    {
        let Held { synced, .. } = self;
        synced
    }
}

// The bytes over the old ones from a place on, or behind them where they end before it.
fn laid_over(alloc: Global, old: &[u8], at: u64, bytes: &[u8]) -> Result<Vec<u8>, AllocError>
    ensures { IfOk result (λ next. next.items ≡ overlaid old.now at bytes.now) }
{
    if at > old.len() as u64 {
        let mut next = Vec::from_slice(alloc, old)?;
        next.extend_from_slice(bytes)?;
        return Ok(next);
    }
    over(alloc, old, at as usize, bytes)
}

/// What a disk holds that began with some bytes, nothing pending, after the changes.
pub fn held_after(alloc: Global, start: &[u8], changes: &[Change]) -> Result<Held, AllocError>
    ensures { IfOk result (λ h. h ≡ (replay start.now changes.now).now) }
{
    let mut held = Held::new(alloc, start)?;
    for change in changes {
        held.apply(alloc, change)?;
    }
    Ok(held)
}

/// The longest image whose open bytes all hold the byte.
pub fn filled(alloc: Global, held: &Held, byte: u8) -> Result<Vec<u8>, AllocError>
    ensures { IfOk result (λ image. IsFilled byte held.now image.items) }
{
    let mut image = Vec::new(alloc);
    for i in 0..held.high() {
        image.push(held.cell(byte, i))?;
    }
    Ok(image)
}

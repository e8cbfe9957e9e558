//! What a disk in memory held at first, and what was done to it since.
ghost use Rattle.std.specs.Prelude.{◌≡◌, ◌≤◌, ◌+◌, [], ℕ, List, length, take, IfOk, OnOk, OnErr};
ghost use Rattle.outside_io.specs.Moments.{IsImage, overlaid, writing, cutting, settled};
ghost use Rattle.outside_io.specs.Traces.{Trace, step};
ghost use Rattle.outside_io.specs.Inner.{after_change};

use crate::held::{Held, held_after};
use std::alloc::{AllocError, Global};
use std::marker::Model;

/// One change of a disk. Places and lengths are in bytes.
#[derive(Drop)]
pub enum Change {
    /// The bytes were written.
    Wrote { at: u64, bytes: Vec<u8> },
    /// A write of so many bytes failed.
    Broke { at: u64, len: usize },
    /// The contents were cut to a length.
    Cut { len: u64 },
    /// A cut to a length failed.
    BrokeOff { len: u64 },
    /// What was written was made durable.
    Synced,
}

/// What was there at first, the changes since, and what is there now, where that is not what was there at first.
#[derive(Drop)]
pub struct History {
    start: Vec<u8>,
    changes: Vec<Change>,
    present: Option<Vec<u8>>,
}

impl Model for History {
    ghost use Rattle.std.specs.Prelude.{◌≡◌};
    ghost use Rattle.std.specs.Option.{option_map_or};
    ghost use Rattle.outside_io.specs.Moments.{IsImage};
    ghost use Rattle.outside_io.specs.Traces.{Trace};
    ghost use Rattle.outside_io.specs.Inner.{replay, IsKept};

    ghost Value = { Trace };

    ghost view = { λ a. replay a.start.items a.changes.items };

    ghost invariant = { λ a. IsKept (replay a.start.items a.changes.items) (option_map_or (λ v. v.items) a.present a.start.items) };
}

impl History {
    /// The bytes, and nothing pending.
    pub fn new(alloc: Global, start: Vec<u8>) -> History
        ensures { result ≡ record { now = settled start.items; past = [] } }
    {
        History {
            start,
            changes: Vec::new(alloc),
            present: None,
        }
    }

    /// What a read gives.
    pub fn contents(&self) -> &[u8]
        ensures bytes { result.now ≡ self.now.now.contents }
        ensures image { IsImage self.now.now result.now }
    {
        match &self.present {
            Some(bytes) => bytes,
            None => &self.start,
        }
    }

    /// The moment now.
    pub fn held(&self, alloc: Global) -> Result<Held, AllocError>
        ensures held { IfOk result (λ h. h ≡ self.now.now) }
        ensures synced { IsImage self.now.now self.now.now.synced }
    {
        held_after(alloc, &self.start, &self.changes)
    }

    // A change that leaves these contents.
    fn push(&mut self, change: Change, next: Vec<u8>) -> Result<(), AllocError>
        requires same { next.items ≡ (after_change change self.old.now).contents }
        requires image { IsImage (after_change change self.old.now) next.items }
        ensures ok { OnOk result (self.new ≡ step (after_change change) self.old) }
        ensures err { OnErr result (self.new ≡ self.old) }
        ensures kept { IsImage self.new.now self.new.now.contents }
    {
        self.changes.push(change)?;
        self.present = Some(next);
        Ok(())
    }

    // A change that leaves the contents.
    fn note(&mut self, change: Change) -> Result<(), AllocError>
        requires same { self.old.now.contents ≡ (after_change change self.old.now).contents }
        requires image { IsImage self.old.now self.old.now.contents → IsImage (after_change change self.old.now) self.old.now.contents }
        ensures ok { OnOk result (self.new ≡ step (after_change change) self.old) }
        ensures image { OnOk result (IsImage (after_change change self.old.now) self.old.now.contents) }
        ensures err { OnErr result (self.new ≡ self.old) }
        ensures kept { IsImage self.new.now self.new.now.contents }
    {
        self.changes.push(change)?;
        Ok(())
    }

    /// Writes the bytes.
    pub fn write(&mut self, alloc: Global, at: u64, bytes: &[u8]) -> Result<(), AllocError>
        requires { at ≤ length self.old.now.contents }
        ensures ok { OnOk result (self.new ≡ step (λ m. writing m at (length bytes.now) (overlaid m.contents at bytes.now)) self.old) }
        ensures err { OnErr result (self.new ≡ self.old) }
        ensures kept { IsImage self.new.now self.new.now.contents }
    {
        let next = over(alloc, self.contents(), at as usize, bytes)?;
        let bytes = Vec::from_slice(alloc, bytes)?;
        self.push(Change::Wrote { at, bytes }, next)
    }

    /// Cuts the contents.
    pub fn cut(&mut self, alloc: Global, len: u64) -> Result<(), AllocError>
        requires { len ≤ length self.old.now.contents }
        ensures ok { OnOk result (self.new ≡ step (λ m. cutting m len (take len m.contents)) self.old) }
        ensures err { OnErr result (self.new ≡ self.old) }
        ensures kept { IsImage self.new.now self.new.now.contents }
    {
        let next = front(alloc, self.contents(), len as usize)?;
        self.push(Change::Cut { len }, next)
    }

    /// A write failed. Its range is open then.
    pub fn break_write(&mut self, at: u64, len: usize) -> Result<(), AllocError>
        ensures ok { OnOk result (self.new ≡ step (λ m. writing m at len m.contents) self.old) }
        ensures image { OnOk result (IsImage (writing self.old.now at len self.old.now.contents) self.old.now.contents) }
        ensures err { OnErr result (self.new ≡ self.old) }
        ensures kept { IsImage self.new.now self.new.now.contents }
    {
        self.note(Change::Broke { at, len })
    }

    /// A cut failed. The length is open then.
    pub fn break_cut(&mut self, len: u64) -> Result<(), AllocError>
        ensures ok { OnOk result (self.new ≡ step (λ m. cutting m len m.contents) self.old) }
        ensures image { OnOk result (IsImage (cutting self.old.now len self.old.now.contents) self.old.now.contents) }
        ensures err { OnErr result (self.new ≡ self.old) }
        ensures kept { IsImage self.new.now self.new.now.contents }
    {
        self.note(Change::BrokeOff { len })
    }

    /// Makes the contents the one image.
    pub fn sync(&mut self) -> Result<(), AllocError>
        ensures ok { OnOk result (self.new ≡ step (λ m. settled m.contents) self.old) }
        ensures err { OnErr result (self.new ≡ self.old) }
        ensures kept { IsImage self.new.now self.new.now.contents }
    {
        self.note(Change::Synced)
    }
}

// The bytes over the old ones, and past their end.
pub(crate) fn over(
    alloc: Global,
    old: &[u8],
    at: usize,
    bytes: &[u8],
) -> Result<Vec<u8>, AllocError>
    requires { at ≤ length old.now }
    ensures { IfOk result (λ next. next.items ≡ overlaid old.now at bytes.now) }
{
    let mut next = Vec::from_slice(alloc, &old[..at])?;
    next.extend_from_slice(bytes)?;
    if bytes.len() < old.len() - at {
        next.extend_from_slice(&old[at + bytes.len()..])?;
    }
    Ok(next)
}

// The first of the bytes.
fn front(alloc: Global, old: &[u8], len: usize) -> Result<Vec<u8>, AllocError>
    requires { len ≤ length old.now }
    ensures { IfOk result (λ next. next.items ≡ take len old.now) }
{
    Vec::from_slice(alloc, &old[..len])
}

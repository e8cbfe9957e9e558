//! The bytes of a disk from a place on, as many as a buffer holds.
ghost use Rattle.std.specs.Prelude.{◌≡◌, ◌≤◌, ◌<◌, ◌+◌, ◌-◌, ◌⊎◌, ◌^◌, [], length, take, drop, IfOk, IfSome, OnOk};
ghost use Rattle.outside_io.specs.Causes.{HasCause};
ghost use Rattle.page_file.specs.Puts.{StandsAt};

use crate::filling::fill;
use outside_io::{Disk, Failed};
use std::alloc::{AllocError, Global};
use std::marker::Model;

/// A gate and the greatest page, in bytes.
pub(crate) const ROOM: usize = 2_884_107;

/// Some bytes of a disk, one behind the other, which stand in a buffer.
#[derive(Drop)]
pub(crate) struct Window {
    buffer: Vec<u8>,
    from: usize,
    to: usize,
}

impl Model for Window {
    ghost use Rattle.std.specs.Prelude.{◌≡◌, ◌≤◌, ◌-◌, ℕ, List, length, take, drop};

    ghost Value = { List ℕ };

    ghost view = { λ w. take (w.to - w.from) (drop w.from w.buffer.items) };

    ghost invariant = { λ w. (w.from ≤ w.to) × (w.to ≤ length w.buffer.items) × (length w.buffer.items ≡ 2884107) };
}

impl Window {
    /// No byte.
    pub fn new(alloc: Global) -> Result<Window, AllocError>
        ensures { IfOk result (λ w. w ≡ []) }
    {
        let buffer = vec![in alloc; 0; ROOM]?;
        Ok(Window {
            buffer,
            from: 0,
            to: 0,
        })
    }

    /// The bytes.
    pub fn bytes(&self) -> &[u8]
        ensures { result.now ≡ self.now }
    {
        &self.buffer[self.from..self.to]
    }

    /// How many they are.
    pub fn len(&self) -> usize
        ensures { result ≡ length self.now }
    {
        self.bytes().len()
    }

    /// Leaves the first bytes out.
    pub fn pass(&mut self, count: usize)
        requires { count ≤ length self.old }
        ensures { self.new ≡ drop count self.old }
    {
        self.from += count;
    }

    /// Reads on behind the bytes, which stand at `place`, until `len` bytes were read in all or there is no more room.
    pub fn refill<D: Disk>(&mut self, disk: &mut D, place: u64, len: u64) -> Result<(), Failed>
        requires within { place + length self.old ≤ len }
        requires told { IfSome (D.trace disk.old) (λ t. (len ≡ length t.now.contents) × StandsAt place self.old t.now.contents) }
        ensures within { place + length self.new ≤ len }
        ensures told { OnOk result (IfSome (D.trace disk.old) (λ t. StandsAt place self.new t.now.contents)) }
        ensures whole { OnOk result (IfSome (D.trace disk.old) (λ t. (length self.new ≡ 2884107) ⊎ (place + length self.new ≡ len))) }
        ensures same { D.trace disk.new ≡ D.trace disk.old }
        ensures cause { HasCause (D.faults disk.old) (D.faults disk.new) result }
    {
        let have = move_to_front(&mut self.buffer, self.from, self.to);
        self.from = 0;
        self.to = have;
        self.to = read_on(disk, &mut self.buffer, have, place, len)?;
        Ok(())
    }

    /// The buffer.
    pub fn into_buffer(self) -> Vec<u8> {
        let Window { buffer, .. } = self;
        buffer
    }
}

// Moves some of the bytes to the front, and answers how many.
fn move_to_front(bytes: &mut [u8], from: usize, to: usize) -> usize
    requires start { from ≤ to }
    requires end { to ≤ length bytes.old }
    ensures count { result ≡ to - from }
    ensures front { take result bytes.new ≡ take (to - from) (drop from bytes.old) }
{
    bytes.copy_within(from..to, 0);
    to - from
}

// Reads on behind the first `have` bytes, which stand at `place`, and answers how many there are then.
fn read_on<D: Disk>(
    disk: &mut D,
    buffer: &mut [u8],
    have: usize,
    place: u64,
    len: u64,
) -> Result<usize, Failed>
    requires room { have ≤ length buffer.old }
    requires within { place + have ≤ len }
    requires told { IfSome (D.trace disk.old) (λ t. (len ≡ length t.now.contents) × (take have buffer.old ≡ take have (drop place t.now.contents))) }
    ensures bound { IfOk result (λ n. (n ≤ length buffer.new) × (place + n ≤ len)) }
    ensures kept { take have buffer.new ≡ take have buffer.old }
    ensures told { IfOk result (λ n. IfSome (D.trace disk.old) (λ t. take n buffer.new ≡ take n (drop place t.now.contents))) }
    ensures whole { IfOk result (λ n. IfSome (D.trace disk.old) (λ t. (n ≡ length buffer.new) ⊎ (place + n ≡ len))) }
    ensures same { D.trace disk.new ≡ D.trace disk.old }
    ensures cause { HasCause (D.faults disk.old) (D.faults disk.new) result }
{
    let behind = place + have as u64;
    let more = (len - behind).min((buffer.len() - have) as u64) as usize;
    let count = fill(disk, behind, &mut buffer[have..have + more])?;
    Ok(have + count)
}

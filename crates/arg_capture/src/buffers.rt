//! Room for the texts that are read.

ghost use Rattle.std.specs.Prelude.{◌≡◌, ◌<◌, ◌≤◌, ◌+◌, ◌-◌, ◌++◌, [], length, IsOk, OnOk, OnErr, All, vec_capacity, vec_len};

use std::alloc::Global;
use std::marker::Model;
use std::mem;
use sys_abi::memory::NoMemory;

/// The most bytes of a text or a value.
pub const MOST_BYTES: usize = 4096;

/// The bytes of the part in hand, and empty buffers for the parts after it. Contracts see the bytes, and for how many parts
/// there is room, the one in hand among them.
#[derive(Drop)]
pub struct Buffers {
    bytes: Vec<u8>,
    spare: Vec<Vec<u8>>,
    alloc: Global,
}

impl Model for Buffers {
    ghost use Rattle.std.specs.Prelude.{◌≡◌, ◌≤◌, List, [], All, vec_capacity, vec_len};
    ghost use Rattle.arg_capture.specs.Buffered.{Buffered, rooms_of};

    ghost Value = { Buffered };

    ghost view = { λ b. record { bytes = b.bytes.items; rooms = rooms_of (vec_capacity b.bytes) (vec_len b.spare) } };

    ghost invariant = { λ b. All (λ v. (v.items ≡ []) × (4096 ≤ vec_capacity v)) b.spare.items };
}

/// Adds empty buffers until there are n.
fn add_spare(alloc: Global, spare: &mut Vec<Vec<u8>>, n: usize) -> Result<(), NoMemory>
    requires empty { All (λ v. (v.items ≡ []) × (4096 ≤ vec_capacity v)) spare.old.items }
    ensures empty { All (λ v. (v.items ≡ []) × (4096 ≤ vec_capacity v)) spare.new.items }
    ensures kept { vec_len spare.old ≤ vec_len spare.new }
    ensures enough { OnOk result (n ≤ vec_len spare.new) }
{
    let missing = n.saturating_sub(spare.len());
    for _ in 0..missing {
        let buffer = Vec::with_capacity(alloc, MOST_BYTES)?;
        spare.push(buffer)?;
    }
    Ok(())
}

impl Buffers {
    /// No bytes, and no room.
    pub fn new(alloc: Global) -> Buffers
        ensures { result.bytes ≡ [] }
    {
        Buffers {
            bytes: Vec::new(alloc),
            spare: Vec::new(alloc),
            alloc,
        }
    }

    /// Makes room for n parts.
    pub fn reserve(&mut self, n: usize) -> Result<(), NoMemory>
        ensures same { self.new.bytes ≡ self.old.bytes }
        ensures room { OnOk result (n ≤ self.new.rooms) }
        ensures kept { self.old.rooms ≤ self.new.rooms }
    {
        self.bytes
            .reserve(MOST_BYTES.saturating_sub(self.bytes.len()))?;
        add_spare(self.alloc, &mut self.spare, n)
    }

    /// Drops the bytes of the part in hand, and keeps the room.
    pub fn clear(&mut self)
        ensures bytes { self.new.bytes ≡ [] }
        ensures rooms { self.new.rooms ≡ self.old.rooms }
    {
        self.bytes.clear();
    }

    /// Adds bytes to the part in hand.
    pub fn push(&mut self, bytes: &[u8]) -> Result<(), NoMemory>
        ensures added { OnOk result (self.new.bytes ≡ self.old.bytes ++ bytes.now) }
        ensures same { OnErr result (self.new.bytes ≡ self.old.bytes) }
        ensures room { 0 < self.old.rooms → length self.old.bytes + length bytes.now ≤ 4096 → IsOk result }
        ensures kept { self.old.rooms ≤ self.new.rooms }
    {
        self.bytes.extend_from_slice(bytes)?;
        Ok(())
    }

    /// Takes the bytes of the part in hand, and goes on to an empty buffer.
    pub fn take(&mut self) -> Vec<u8>
        ensures taken { result.items ≡ self.old.bytes }
        ensures left { self.new.bytes ≡ [] }
        ensures kept { self.old.rooms ≤ self.new.rooms + 1 }
    {
        let next = match self.spare.pop() {
            Some(buffer) => buffer,
            None => Vec::new(self.alloc),
        };
        mem::replace(&mut self.bytes, next)
    }
}

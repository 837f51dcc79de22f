//! Memory that was taken before for the texts of one change.

ghost use Rattle.std.specs.Prelude.{◌≡◌, ◌<◌, ◌≤◌, ◌+◌, nat_lt, length, OnOk, OnErr, vec_len, vec_capacity};
ghost use Rattle.mount_tree.specs.Changes.{row_of, row_length};

use crate::mounts::NewMount;
use hist_model::request::MountRow;
use hist_model::text::Text;
use std::alloc::Global;
use std::marker::Model;
use std::mem;
use sys_abi::memory::NoMemory;

/// Room for one text. Contracts see it as the bytes for which there is room.
#[derive(Drop)]
struct TextRoom {
    /// Empty.
    bytes: Vec<u8>,
}

impl Model for TextRoom {
    ghost use Rattle.std.specs.Prelude.{◌≡◌, ℕ, vec_capacity, vec_len};

    ghost Value = { ℕ };

    ghost view = { λ t. vec_capacity t.bytes };

    ghost invariant = { λ t. vec_len t.bytes ≡ 0 };
}

impl TextRoom {
    /// No room.
    fn new(alloc: Global) -> TextRoom {
        TextRoom {
            bytes: Vec::new(alloc),
        }
    }

    /// Makes room for this many bytes.
    fn reserve(&mut self, len: usize) -> Result<(), NoMemory>
        ensures kept { self.old ≤ self.new }
        ensures room { OnOk result (len ≤ self.new) }
    {
        self.bytes.reserve(len)?;
        Ok(())
    }

    /// The text of these bytes, in the memory that was taken for it.
    fn text(&mut self, bytes: &[u8]) -> Text
        requires { length bytes.now ≤ self.old }
        ensures { result ≡ bytes.now }
    {
        let Ok(()) = self.bytes.extend_from_slice(bytes) else {
            unreachable!()
        };
        let none = Vec::new(*self.bytes.allocator());
        Text::new(mem::replace(&mut self.bytes, none))
    }
}

/// Room for the texts of one change. Contracts see it as one more than the bytes that they may have together, or 0 where there
/// is no room.
#[derive(Drop)]
pub struct Rooms {
    first: TextRoom,
    second: TextRoom,
    third: TextRoom,
    fourth: TextRoom,
    room: usize,
}

impl Model for Rooms {
    ghost use Rattle.std.specs.Prelude.{ℕ, ◌≤◌, ◌+◌};

    ghost Value = { ℕ };

    ghost view = { λ r. r.room };

    ghost invariant = { λ r. (r.room ≤ r.first + 1) × (r.room ≤ r.second + 1) × (r.room ≤ r.third + 1) × (r.room ≤ r.fourth + 1) };
}

impl Rooms {
    /// No room.
    pub fn new(alloc: Global) -> Rooms
        ensures { result ≡ 0 }
    {
        Rooms {
            first: TextRoom::new(alloc),
            second: TextRoom::new(alloc),
            third: TextRoom::new(alloc),
            fourth: TextRoom::new(alloc),
            room: 0,
        }
    }

    /// Makes room for texts of at most `len` bytes together.
    pub fn reserve(&mut self, len: usize) -> Result<(), NoMemory>
        ensures room { OnOk result (self.new ≡ len + 1) }
        ensures unchanged { OnErr result (self.new ≡ self.old) }
    {
        let Some(room) = len.checked_add(1) else {
            return Err(NoMemory);
        };
        self.first.reserve(len)?;
        self.second.reserve(len)?;
        self.third.reserve(len)?;
        self.fourth.reserve(len)?;
        self.room = room;
        Ok(())
    }

    /// Whether there is room for texts of this many bytes together.
    pub fn holds(&self, len: u128) -> bool
        ensures { result ≡ nat_lt len self.now }
    {
        len < self.room as u128
    }

    /// A text. There is room for it, and then no more.
    pub fn text(&mut self, bytes: &[u8]) -> Text
        requires { length bytes.now < self.old }
        ensures text { result ≡ bytes.now }
        ensures left { self.new ≡ 0 }
    {
        let text = self.first.text(bytes);
        self.room = 0;
        text
    }

    /// A name and a value. There is room for them, and then no more.
    pub fn name_and_value(&mut self, name: &[u8], value: &[u8]) -> (Text, Text)
        requires { length name.now + length value.now < self.old }
        ensures name { result.0 ≡ name.now }
        ensures value { result.1 ≡ value.now }
        ensures left { self.new ≡ 0 }
    {
        let name = self.first.text(name);
        let value = self.second.text(value);
        self.room = 0;
        (name, value)
    }

    /// What is kept of a mount. There is room for its texts, and then no more.
    pub fn mount_row(&mut self, row: NewMount<'_>) -> MountRow
        requires { row_length (row_of row) < self.old }
        ensures row { result ≡ row_of row.entry }
        ensures left { self.new ≡ 0 }
    {
        let source = self.first.text(row.source);
        let fstype = self.second.text(row.fstype);
        let options = self.third.text(row.options);
        let via = self.fourth.text(row.via);
        self.room = 0;
        MountRow {
            source,
            fstype,
            flags: row.flags,
            options,
            via,
            shift: row.shift,
        }
    }
}

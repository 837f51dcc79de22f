//! Rows that are found by their keys.

ghost use Rattle.std.specs.Prelude.{◌≡◌, ℕ, List, ◌∷◌, ◌<◌, ◌^◌, [], true, false, length, reverse, None, Some, IfSome, IfNone, OnOk, OnErr};
ghost use Rattle.mount_tree.specs.Keys.{key_of, newest, newest_row};

use crate::index::Index;
use crate::keys::Row;
use hist_model::text::Text;
use hist_model::tree::{AttrRow, NodeRow};
use std::alloc::Global;
use std::marker::Model;
use sys_abi::memory::NoMemory;

/// As many rows as a table has at most.
const MAX_ROWS: usize = 4_294_967_295;

/// Rows that are kept the oldest first, with an index of their keys. Contracts see them the newest first.
#[derive(Drop)]
pub struct Table<T: Row> {
    rows: Vec<T>,
    index: Index,
    /// There is room for one more row.
    roomy: bool,
    /// The row that may have more memory than its texts need.
    loose: Option<usize>,
}

impl<T: Row> Model for Table<T> {
    ghost use Rattle.std.specs.Prelude.{◌≡◌, ◌<◌, ◌≤◌, true, map, reverse, vec_capacity, vec_len};
    ghost use Rattle.mount_tree.specs.Keys.{Kept};
    ghost use Rattle.mount_tree.specs.Chains.{FollowKeys, HaveRoom};

    ghost Value = { Kept T };

    ghost view = { λ t. record { rows = reverse t.rows.items; roomy = t.roomy } };

    ghost invariant = { λ t. FollowKeys (map T.key t.rows.items) t.index × (vec_len t.rows ≤ 4294967295)
        × (t.roomy ≡ true → vec_len t.rows < 4294967295) × (t.roomy ≡ true → vec_len t.rows < vec_capacity t.rows)
        × (t.roomy ≡ true → HaveRoom t.index) };
}

impl<T: Row + Drop> Table<T> {
    /// No rows, and no room.
    pub fn new(alloc: Global) -> Table<T>
        ensures { result ≡ record { rows = []; roomy = false } }
    {
        Table {
            rows: Vec::new(alloc),
            index: Index::new(alloc),
            roomy: false,
            loose: None,
        }
    }

    /// Makes room for one more row. `NoMemory` comes also where the table has as many rows as it can have.
    pub fn reserve(&mut self) -> Result<(), NoMemory>
        ensures kept { self.new.rows ≡ self.old.rows }
        ensures room { OnOk result (self.new.roomy ≡ true) }
        ensures unchanged { OnErr result (self.new ≡ self.old) }
    {
        if self.rows.len() >= MAX_ROWS {
            return Err(NoMemory);
        }
        self.rows.reserve(1)?;
        let alloc = *self.rows.allocator();
        self.index.reserve(alloc, self.rows.as_slice())?;
        self.roomy = true;
        Ok(())
    }

    /// Gives the newest row, or the one that was written last, memory for its texts and no more.
    pub fn make_exact(&mut self) -> Result<(), NoMemory>
        ensures { self.new ≡ self.old }
    {
        let Some(place) = self.loose else {
            return Ok(());
        };
        let alloc = *self.rows.allocator();
        if place < self.rows.len() {
            self.rows[place].make_exact(alloc)?;
        }
        self.loose = None;
        Ok(())
    }

    /// The allocator of the rows.
    pub fn allocator(&self) -> Global {
        *self.rows.allocator()
    }

    /// How many rows there are.
    pub fn len(&self) -> usize
        ensures count { result ≡ length self.now.rows }
        ensures small { result < 2 ^ 63 }
    {
        self.rows.len()
    }

    /// The rows, the oldest first.
    pub fn rows(&self) -> &[T]
        ensures { reverse result.now ≡ self.now.rows }
    {
        self.rows.as_slice()
    }

    /// The newest row of an owner under a name.
    pub fn find(&self, owner: u32, name: &[u8]) -> Option<u32>
        ensures found { result ≡ newest T.key self.now.rows (key_of (Some owner) name.now) }
        ensures below { IfSome result (λ n. n < length self.now.rows) }
    {
        self.index.find(self.rows.as_slice(), owner, name)
    }

    /// The newest row of an owner under a name, itself.
    pub fn find_row(&self, owner: u32, name: &[u8]) -> Option<&T>
        ensures some { IfSome result (λ r. newest_row T.key self.now.rows (key_of (Some owner) name.now) ≡ Some r.now) }
        ensures none { IfNone result (newest_row T.key self.now.rows (key_of (Some owner) name.now) ≡ None) }
    {
        match self.find(owner, name) {
            Some(n) => Some(&self.rows()[n as usize]),
            None => None,
        }
    }

    /// Adds a row, and gives its ordinal. There is room for it.
    pub fn push(&mut self, row: T) -> u32
        requires { self.old.roomy ≡ true }
        ensures made { result ≡ length self.old.rows }
        ensures rows { self.new ≡ record { rows = row ∷ self.old.rows; roomy = false } }
    {
        let n = self.rows.len();
        self.index.push(&row);
        self.rows.push_reserved(row);
        self.roomy = false;
        self.loose = Some(n);
        n as u32
    }
}

impl Table<NodeRow> {
    ghost use Rattle.hist_model.specs.Trees.{entry_in};

    /// The directory's entry under a name.
    pub fn entry(&self, dir: u32, name: &[u8]) -> Option<u32>
        ensures entry { result ≡ entry_in self.now.rows dir name.now }
        ensures below { IfSome result (λ n. n < length self.now.rows) }
    {
        self.find(dir, name)
    }
}

impl Table<AttrRow> {
    ghost use Rattle.hist_model.specs.Trees.{attr_in, attr_put};
    ghost use Rattle.mount_tree.specs.Places.{attr_place};

    /// The attribute of a node under a name.
    pub fn attr(&self, on: u32, name: &[u8]) -> Option<u32>
        ensures attr { result ≡ attr_place self.now.rows on name.now }
        ensures below { IfSome result (λ n. n < length self.now.rows) }
    {
        self.find(on, name)
    }

    /// Gives the attribute whose newest row has this ordinal another value.
    pub fn set_value(&mut self, n: u32, value: Text)
        requires { n < length self.old.rows }
        ensures rows { (on : ℕ) (name : List ℕ) → attr_place self.old.rows on name ≡ Some n
            → self.new.rows ≡ attr_put self.old.rows on name value (attr_in self.old.rows on name) }
        ensures roomy { self.new.roomy ≡ self.old.roomy }
    {
        let n = n as usize;
        self.rows[n].value = value;
        self.loose = Some(n);
    }
}

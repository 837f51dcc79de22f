//! Where the rows of a table are found.

ghost use Rattle.std.specs.Prelude.{◌≡◌, ℕ, ◌+◌, ◌-◌, ◌<◌, ◌≤◌, ◌^◌, ◌++◌, List, [], ◌∷◌, length, map, reverse, replicate, Some, IfOk, OnOk, OnErr};
ghost use Rattle.mount_tree.specs.Chains.{AreChains, FollowKeys, HaveRoom, bucket_of};
ghost use Rattle.mount_tree.specs.Keys.{Key, key_of, newest};

use crate::keys::{Row, hash, is_key};
use std::alloc::Global;
use std::marker::Model;
use sys_abi::memory::NoMemory;

/// As many rows as are found without buckets.
const FEW: usize = 8;

/// The chains of rows, one for each bucket of a hash of their keys. There are no buckets for few rows.
#[derive(Drop)]
pub struct Index {
    /// For each bucket one more than the ordinal of its newest row, or 0 for none. They are as many as a power of two.
    heads: Vec<u32>,
    /// For each row one more than the ordinal of the next older one of its bucket, or 0 for none.
    older: Vec<u32>,
}

impl Model for Index {
    ghost use Rattle.std.specs.Prelude.{◌≤◌, vec_capacity, vec_len};
    ghost use Rattle.mount_tree.specs.Chains.{Chains};

    ghost Value = { Chains };

    ghost view = { λ x. record { heads = x.heads.items; older = x.older.items } };

    ghost invariant = { λ x. vec_len x.heads ≤ vec_capacity x.older };
}

/// The newest row of an owner under a name, by going through all.
fn find_in<T: Row>(rows: &[T], owner: u32, name: &[u8]) -> Option<u32>
    requires { length rows.now < 2 ^ 32 }
    ensures { result ≡ newest T.key (reverse rows.now) (key_of (Some owner) name.now) }
{
    let mut left = rows.len();
    while left > 0 {
        left -= 1;
        if is_key(&rows[left], owner, name) {
            return Some(left as u32);
        }
    }
    None
}

impl Index {
    /// No buckets.
    pub fn new(alloc: Global) -> Index
        ensures { result ≡ record { heads = []; older = [] } }
    {
        Index {
            heads: Vec::new(alloc),
            older: Vec::new(alloc),
        }
    }

    /// So many buckets, with room for as many rows.
    fn with_buckets(alloc: Global, count: usize) -> Result<Index, NoMemory>
        ensures { IfOk result (λ x. x ≡ record { heads = replicate count 0; older = [] }) }
    {
        Ok(Index {
            heads: vec![in alloc; 0u32; count]?,
            older: Vec::with_capacity(alloc, count)?,
        })
    }

    /// The bucket of an owner's row of a name.
    fn bucket(&self, owner: u32, name: &[u8]) -> usize
        requires { 0 < length self.now.heads }
        ensures bucket { result ≡ bucket_of (length self.now.heads) owner name.now }
        ensures below { result < length self.now.heads }
    {
        hash(owner, name) as usize & (self.heads.len() - 1)
    }

    /// Adds the next row to its chain.
    fn chain<T: Row>(&mut self, row: &T)
        requires some { 0 < length self.old.heads }
        requires room { length self.old.older < length self.old.heads }
        requires small { length self.old.older + 1 < 2 ^ 32 }
        ensures chains { (keys : List Key) → AreChains keys self.old → AreChains (keys ++ T.key row.now ∷ []) self.new }
        ensures buckets { length self.new.heads ≡ length self.old.heads }
    {
        let count = self.older.len() as u32 + 1;
        match row.owner() {
            Some(owner) => {
                let bucket = self.bucket(owner, row.name());
                self.older.push_reserved(self.heads[bucket]);
                self.heads[bucket] = count;
            }
            None => self.older.push_reserved(0),
        }
    }

    /// The index of these rows, in so many buckets.
    fn of<T: Row>(alloc: Global, rows: &[T], count: usize) -> Result<Index, NoMemory>
        requires room { length rows.now < count }
        requires small { length rows.now < 2 ^ 32 }
        ensures chains { IfOk result (AreChains (map T.key rows.now)) }
        ensures buckets { IfOk result (λ x. length x.heads ≡ count) }
    {
        let mut index = Index::with_buckets(alloc, count)?;
        for row in rows {
            index.chain(row);
        }
        Ok(index)
    }

    /// As many rows as there is room for.
    fn room(&self) -> usize
        ensures some { 0 < result }
        ensures buckets { 0 < length self.now.heads → result ≡ length self.now.heads }
    {
        if self.heads.is_empty() {
            FEW
        } else {
            self.heads.len()
        }
    }

    /// Makes room for one more than these rows: twice as many buckets as rows, where each bucket has had its row.
    pub fn reserve<T: Row>(&mut self, alloc: Global, rows: &[T]) -> Result<(), NoMemory>
        requires rows { FollowKeys (map T.key rows.now) self.old }
        requires small { length rows.now < 2 ^ 32 }
        ensures rows { FollowKeys (map T.key rows.now) self.new }
        ensures room { OnOk result (HaveRoom self.new) }
        ensures unchanged { OnErr result (self.new ≡ self.old) }
    {
        if rows.len() >= self.room() {
            *self = Index::of(alloc, rows, rows.len() * 2)?;
        }
        Ok(())
    }

    /// Adds the next row. There is room for it.
    pub fn push<T: Row>(&mut self, row: &T)
        requires room { HaveRoom self.old }
        requires small { 0 < length self.old.heads → length self.old.older + 1 < 2 ^ 32 }
        ensures { (keys : List Key) → FollowKeys keys self.old → FollowKeys (keys ++ T.key row.now ∷ []) self.new }
    {
        if !self.heads.is_empty() {
            self.chain(row);
        }
    }

    /// The newest row of an owner under a name, by its chain.
    fn find_chained<T: Row>(&self, rows: &[T], owner: u32, name: &[u8]) -> Option<u32>
        requires some { 0 < length self.now.heads }
        requires chains { AreChains (map T.key rows.now) self.now }
        ensures { result ≡ newest T.key (reverse rows.now) (key_of (Some owner) name.now) }
    {
        let mut place = self.heads[self.bucket(owner, name)];
        while place > 0 {
            let n = place - 1;
            if is_key(&rows[n as usize], owner, name) {
                return Some(n);
            }
            place = self.older[n as usize];
        }
        None
    }

    /// The newest of these rows of an owner under a name.
    pub fn find<T: Row>(&self, rows: &[T], owner: u32, name: &[u8]) -> Option<u32>
        requires rows { FollowKeys (map T.key rows.now) self.now }
        requires small { length rows.now < 2 ^ 32 }
        ensures { result ≡ newest T.key (reverse rows.now) (key_of (Some owner) name.now) }
    {
        if self.heads.is_empty() {
            find_in(rows, owner, name)
        } else {
            self.find_chained(rows, owner, name)
        }
    }
}

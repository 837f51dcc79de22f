//! The listed calls in the order of entry.

ghost use Rattle.std.specs.Prelude.{◌≡◌, ◌+◌, ◌<◌, ◌∷◌, ◌++◌, [], Some, IfOk, IfErr, IfSome, IsOk, OnOk, MatchResult, find, filter, map, not, nat_le, slice_get};
ghost use Rattle.sorted_list.specs.Entries.{NumbersRise};
ghost use Rattle.listener.specs.Entries.{AreBelow, IsPlace, IsAbsent, entry_number, has_number, new_entry, replied, is_empty};

use crate::keys::push_entry;
use hist_model::notification::Reply;
use hist_model::request::TaskRef;
use key_bytes::push_number;
use std::alloc::Global;
use std::collections::VecDeque;
use sys_abi::memory::NoMemory;

/// A listed call: how many calls were entered before it, its task, and how it will return.
#[derive(Clone, Copy, Debug)]
pub struct Entry {
    pub number: u64,
    pub owner: TaskRef,
    pub reply: Option<Reply>,
}

/// The listed calls in the order of entry. One that is taken from either end moves no other, and one between them the
/// shorter part.
#[derive(Drop)]
pub struct Order {
    entries: VecDeque<Entry>,
    /// How many calls were entered.
    entered: u64,
    ghost rising: { NumbersRise entry_number entries.items },
    ghost below: { AreBelow entered entries.items },
}

impl Order {
    ghost use Rattle.listener.specs.Keys.{order_part};
    ghost use Rattle.listener.specs.Table.{HasPlace};

    pub fn new(alloc: Global) -> Order
        ensures entries { result.entries.items ≡ [] }
        ensures entered { result.entered ≡ 0 }
    {
        Order {
            entries: VecDeque::new(alloc),
            entered: 0,
        }
    }

    /// Adds the part of these calls in a key.
    pub fn write_key(&self, key: &mut Vec<u8>) -> Result<(), NoMemory>
        ensures { OnOk result (key.new.items ≡ key.old.items ++ order_part self.now) }
    {
        push_number(key, self.entered)?;
        push_number(key, self.entries.len() as u64)?;
        for place in 0..self.entries.len() {
            push_entry(key, &self.entries[place])?;
        }
        Ok(())
    }

    /// How many calls were entered.
    pub fn entered(&self) -> u64
        ensures { result ≡ self.now.entered }
    {
        self.entered
    }

    /// Whether no call is listed.
    pub fn is_empty(&self) -> bool
        ensures { result ≡ is_empty self.now.entries.items }
    {
        self.entries.is_empty()
    }

    /// Makes room for one `push`. There is none for the 2^64-th call.
    pub fn ready(&mut self) -> Result<(), NoMemory>
        ensures room { OnOk result (HasPlace self.new) }
        ensures had_room { HasPlace self.old → IsOk result }
        ensures entries { self.new.entries.items ≡ self.old.entries.items }
        ensures entered { self.new.entered ≡ self.old.entered }
    {
        if self.entered == u64::MAX {
            return Err(NoMemory);
        }
        self.entries.reserve(1)?;
        Ok(())
    }

    /// Enters a call of this task, for which there is room, and gives its number.
    pub fn push(&mut self, owner: TaskRef) -> u64
        requires { HasPlace self.old }
        ensures number { result ≡ self.old.entered }
        ensures entries { self.new.entries.items ≡ self.old.entries.items ++ new_entry self.old.entered owner ∷ [] }
        ensures entered { self.new.entered ≡ self.old.entered + 1 }
    {
        let number = self.entered;
        self.entered = number + 1;
        let Ok(()) = self.entries.push_back(Entry {
            number,
            owner,
            reply: None,
        })
        else {
            unreachable!()
        };
        number
    }

    /// The place of the call with this number, or that of the first one with a higher number.
    fn place(&self, number: u64) -> Result<usize, usize>
        ensures found { IfOk result (λ i. IsPlace self.now.entries.items number i) }
        ensures absent { IfErr result (λ i. IsAbsent self.now.entries.items number) }
        ensures first { MatchResult result (λ i. find (λ e. nat_le number e.number) self.now.entries.items ≡ slice_get self.now.entries.items i) (λ i. find (λ e. nat_le number e.number) self.now.entries.items ≡ slice_get self.now.entries.items i) }
    {
        self.entries
            .binary_search_by_key(&number, |entry| entry.number)
    }

    /// The call with this number.
    pub fn find(&self, number: u64) -> Option<Entry>
        ensures { result ≡ find (has_number number) self.now.entries.items }
    {
        match self.place(number) {
            Ok(place) => Some(self.entries[place]),
            Err(_) => None,
        }
    }

    /// The first call whose number isn't below this one.
    pub fn first_from(&self, number: u64) -> Option<Entry>
        ensures first { result ≡ find (λ e. nat_le number e.number) self.now.entries.items }
        ensures below { IfSome result (λ e. e.number < self.now.entered) }
    {
        let place = match self.place(number) {
            Ok(place) => place,
            Err(place) => place,
        };
        match self.entries.get(place) {
            Some(entry) => Some(*entry),
            None => None,
        }
    }

    /// Writes how the call with this number will return, if there is one.
    pub fn set_reply(&mut self, number: u64, reply: Option<Reply>)
        ensures entries { self.new.entries.items ≡ map (replied number reply) self.old.entries.items }
        ensures entered { self.new.entered ≡ self.old.entered }
        ensures room { HasPlace self.old → HasPlace self.new }
    {
        let Ok(place) = self.place(number) else {
            return;
        };
        self.entries[place].reply = reply;
    }

    /// Takes the call with this number away, if there is one.
    pub fn take(&mut self, number: u64)
        ensures entries { self.new.entries.items ≡ filter (λ e. not (has_number number e)) self.old.entries.items }
        ensures entered { self.new.entered ≡ self.old.entered }
    {
        let Ok(place) = self.place(number) else {
            return;
        };
        self.entries.remove(place);
    }

    /// Takes all calls away.
    pub fn clear(&mut self)
        ensures entries { self.new.entries.items ≡ [] }
        ensures entered { self.new.entered ≡ self.old.entered }
    {
        self.entries.clear();
    }
}

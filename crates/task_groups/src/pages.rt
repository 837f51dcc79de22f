//! Pages, which the lists of spaces share.

ghost use Rattle.std.specs.Prelude.{◌≡◌, ◌≢◌, ℕ, ◌+◌, ◌-◌, ◌*◌, ◌%◌, ◌<◌, ◌≤◌, ◌++◌, ◌^◌, length, Some, None, OnOk, IsOk, vec_len, vec_capacity, slice_index};
ghost use Rattle.key_bytes.specs.Parts.{list_part};
ghost use Rattle.slab.specs.Slab.{get};
ghost use Rattle.sorted_list.specs.Entries.{NumbersRise};
ghost use Rattle.task_groups.specs.Keys.{page_part};
ghost use Rattle.task_groups.specs.Lists.{page_number, slot_of};
ghost use Rattle.task_groups.specs.Pages.{count_at, bytes_at_some, byte_in, bytes_from, IsStore, IsList, HasPages, pages_touched, IsLeft, IsLeftBySome, IsPageAdded, IsOwned, IsPut, IsStored, IsSharedOnce, IsShared, IsLeftByAll};

use crate::list::{PageEntry, slot_of};
use crate::page_bytes::{PAGE, PageBytes, append_zeros, part};
use key_bytes::{push_number, push_text};
use slab::Slab;
use sorted_list::set;
use std::alloc::Global;
use sys_abi::memory::NoMemory;

/// A page, and how many entries of lists have it.
#[derive(Drop)]
pub struct Page {
    shares: u64,
    bytes: PageBytes,
}

/// The pages that were written, in slots that are used again.
#[derive(Drop)]
pub struct Pages {
    slots: Slab<Page>,
    /// Room for pages that are made later, with any bytes.
    stock: Vec<PageBytes>,
    alloc: Global,
}

impl Pages {
    /// No pages.
    pub fn new(alloc: Global) -> Pages
        ensures { (p : ℕ) → get result.slots p ≡ None }
    {
        Pages {
            slots: Slab::new(alloc),
            stock: Vec::new(alloc),
            alloc,
        }
    }

    /// Adds a page of a list.
    fn push_page(&self, key: &mut Vec<u8>, entry: &PageEntry) -> Result<(), NoMemory>
        ensures { OnOk result (key.new.items ≡ key.old.items ++ page_part self.now entry.now) }
    {
        push_number(key, entry.number)?;
        push_text(key, self.bytes(Some(entry.slot)))
    }

    /// Adds the pages of a list, with how many there are before them.
    pub fn push_list(&self, key: &mut Vec<u8>, list: &[PageEntry]) -> Result<(), NoMemory>
        ensures { OnOk result (key.new.items ≡ key.old.items ++ list_part (page_part self.now) list.now) }
    {
        push_number(key, list.len() as u64)?;
        for entry in list {
            self.push_page(key, entry)?;
        }
        Ok(())
    }

    /// Makes room for so many more pages, which then take no memory.
    pub fn ready(&mut self, count: usize) -> Result<(), NoMemory>
        ensures room { OnOk result (HasPages self.new count) }
        ensures had_room { HasPages self.old count → IsOk result }
        ensures same { self.new.slots.slots ≡ self.old.slots.slots }
    {
        self.slots.reserve(count)?;
        while self.stock.len() < count {
            let page = PageBytes::new(self.alloc)?;
            self.stock.push(page)?;
        }
        Ok(())
    }

    /// How many entries have the page of a slot.
    fn shares(&self, slot: usize) -> u64
        ensures { result ≡ count_at self.now slot }
    {
        match self.slots.get(slot) {
            Some(page) => page.shares,
            None => 0,
        }
    }

    /// The bytes of the page of a slot, up to the last one that was written; none where there is no page.
    fn bytes(&self, slot: Option<usize>) -> &[u8]
        ensures bytes { result.now ≡ bytes_at_some self.now slot }
        ensures most { length result.now ≤ 4096 }
    {
        let Some(slot) = slot else {
            return &[];
        };
        match self.slots.get(slot) {
            Some(page) => page.bytes.written(),
            None => &[],
        }
    }

    /// Makes a page that one entry has, with the bytes of another one, or zeros. There is room for it.
    fn add(&mut self, like: Option<usize>) -> usize
        requires { HasPages self.old 1 }
        ensures added { IsPageAdded self.old like result self.new }
        ensures store { IsStore self.old → IsStore self.new }
        ensures room { (k : ℕ) → HasPages self.old (k + 1) → HasPages self.new k }
    {
        let Some(mut bytes) = self.stock.pop() else {
            unreachable!()
        };
        bytes.copy_from(self.bytes(like));
        self.slots.insert_reserved(Page { shares: 1, bytes })
    }

    /// Puts the room of a page that was given up into the stock, unless that is full.
    fn stock_up(&mut self, bytes: PageBytes)
        ensures slots { self.new.slots ≡ self.old.slots }
        ensures stock { vec_len self.old.stock ≤ vec_len self.new.stock }
    {
        if self.stock.len() < self.stock.capacity() {
            self.stock.push_reserved(bytes);
        }
    }

    /// One entry less has the page of a slot, which is given up with the last one.
    fn leave(&mut self, slot: usize)
        ensures left { IsLeft self.old slot self.new }
        ensures store { IsStore self.old → IsStore self.new }
        ensures room { (k : ℕ) → HasPages self.old k → HasPages self.new k }
    {
        let Some(page) = self.slots.get_mut(slot) else {
            return;
        };
        if page.shares > 1 {
            page.shares -= 1;
        } else if let Some(page) = self.slots.try_remove(slot) {
            self.stock_up(page.bytes);
        }
    }

    /// The same, if there is a slot.
    fn leave_some(&mut self, slot: Option<usize>)
        ensures left { IsLeftBySome self.old slot self.new }
        ensures store { IsStore self.old → IsStore self.new }
        ensures room { (k : ℕ) → HasPages self.old k → HasPages self.new k }
    {
        if let Some(slot) = slot {
            self.leave(slot);
        }
    }

    /// The slot of the page of a number, which no other entry has: where one has, this list gets a page of its own with
    /// the same bytes. There is room for it.
    fn own(&mut self, list: &mut Vec<PageEntry>, number: u64) -> usize
        requires pages { HasPages self.old 1 }
        requires entry { vec_len list.old < vec_capacity list.old }
        ensures owned { IsStore self.old → IsList self.old list.old.items → IsOwned self.old list.old.items number result self.new list.new.items }
        ensures pages { (k : ℕ) → HasPages self.old (k + 1) → HasPages self.new k }
        ensures entries { (k : ℕ) → vec_len list.old + (k + 1) ≤ vec_capacity list.old → vec_len list.new + k ≤ vec_capacity list.new }
    {
        let found = slot_of(list, number);
        match found {
            Some(slot) if self.shares(slot) == 1 => slot,
            _ => self.replace(list, number, found),
        }
    }

    /// Gives a list a page of its own, with the bytes of the page that it had under this number, or zeros. There is room
    /// for it.
    fn replace(&mut self, list: &mut Vec<PageEntry>, number: u64, found: Option<usize>) -> usize
        requires pages { HasPages self.old 1 }
        requires entry { vec_len list.old < vec_capacity list.old }
        ensures owned { IsStore self.old → IsList self.old list.old.items → found ≡ slot_of list.old.items number → ((p : ℕ) → found ≡ Some p → count_at self.old p ≢ 1) → IsOwned self.old list.old.items number result self.new list.new.items }
        ensures pages { (k : ℕ) → HasPages self.old (k + 1) → HasPages self.new k }
        ensures entries { (k : ℕ) → vec_len list.old + (k + 1) ≤ vec_capacity list.old → vec_len list.new + k ≤ vec_capacity list.new }
    {
        let slot = self.add(found);
        self.leave_some(found);
        set(list, PageEntry { number, slot });
        slot
    }

    /// Writes a piece into the page of a slot.
    fn put(&mut self, slot: usize, offset: usize, piece: &[u8])
        requires { offset + length piece.now ≤ 4096 }
        ensures put { IsPut self.old slot offset piece.now self.new }
        ensures store { IsStore self.old → IsStore self.new }
        ensures room { (k : ℕ) → HasPages self.old k → HasPages self.new k }
    {
        if let Some(page) = self.slots.get_mut(slot) {
            page.bytes.write(offset, piece);
        }
    }

    /// Stores a piece in one page of a space. There is room for that page.
    fn store_piece(&mut self, list: &mut Vec<PageEntry>, number: u64, offset: usize, piece: &[u8])
        requires pages { HasPages self.old 1 }
        requires entry { vec_len list.old < vec_capacity list.old }
        requires within { offset + length piece.now ≤ 4096 }
        ensures stored { IsStore self.old → IsList self.old list.old.items → IsStored self.old list.old.items (4096 * number + offset) piece.now self.new list.new.items }
        ensures pages { (k : ℕ) → HasPages self.old (k + 1) → HasPages self.new k }
        ensures entries { (k : ℕ) → vec_len list.old + (k + 1) ≤ vec_capacity list.old → vec_len list.new + k ≤ vec_capacity list.new }
    {
        let slot = self.own(list, number);
        self.put(slot, offset, piece);
    }

    /// Stores bytes in a space, from an address on. There is room for the pages.
    pub fn store(&mut self, list: &mut Vec<PageEntry>, addr: u64, bytes: &[u8])
        requires pages { HasPages self.old (pages_touched (addr % 4096) (length bytes.now)) }
        requires entries { vec_len list.old + pages_touched (addr % 4096) (length bytes.now) ≤ vec_capacity list.old }
        ensures { IsStore self.old → IsList self.old list.old.items → IsStored self.old list.old.items addr bytes.now self.new list.new.items }
    {
        let mut number = addr / PAGE as u64;
        let mut offset = (addr % PAGE as u64) as usize;
        let mut rest = bytes;
        while !rest.is_empty() {
            let (piece, more) = rest.split_at(rest.len().min(PAGE - offset));
            self.store_piece(list, number, offset, piece);
            number += 1;
            offset = 0;
            rest = more;
        }
    }

    /// Appends bytes of one page of a space. There is room for them.
    fn append_piece(
        &self,
        list: &[PageEntry],
        number: u64,
        offset: usize,
        count: usize,
        out: &mut Vec<u8>,
    )
        requires within { offset + count ≤ 4096 }
        requires room { vec_len out.old + count ≤ vec_capacity out.old }
        ensures items { NumbersRise page_number list.now → out.new.items ≡ out.old.items ++ bytes_from (byte_in self.now list.now) (4096 * number + offset) count }
        ensures len { vec_len out.new ≡ vec_len out.old + count }
        ensures capacity { vec_capacity out.old ≤ vec_capacity out.new }
    {
        let written = part(self.bytes(slot_of(list, number)), offset, count);
        let Ok(()) = out.extend_from_slice(written) else {
            unreachable!()
        };
        append_zeros(out, count - written.len());
    }

    /// Appends so many bytes of a space, from an address on. There is room for them.
    pub fn append(&self, list: &[PageEntry], addr: u64, count: usize, out: &mut Vec<u8>)
        requires { vec_len out.old + count ≤ vec_capacity out.old }
        ensures items { NumbersRise page_number list.now → out.new.items ≡ out.old.items ++ bytes_from (byte_in self.now list.now) addr count }
        ensures capacity { vec_capacity out.old ≤ vec_capacity out.new }
    {
        let mut number = addr / PAGE as u64;
        let mut offset = (addr % PAGE as u64) as usize;
        let mut rest = count;
        while rest > 0 {
            let piece = rest.min(PAGE - offset);
            self.append_piece(list, number, offset, piece, out);
            number += 1;
            offset = 0;
            rest -= piece;
        }
    }

    /// One entry more has the page of a slot.
    fn share(&mut self, slot: usize)
        ensures shared { IsSharedOnce self.old slot self.new }
        ensures store { IsStore self.old → IsStore self.new }
    {
        if let Some(page) = self.slots.get_mut(slot) {
            page.shares = page.shares.saturating_add(1);
        }
    }

    /// Each entry of a list is there once more.
    pub fn share_all(&mut self, list: &[PageEntry])
        ensures shared { IsShared self.old list.now self.new }
        ensures store { IsStore self.old → IsStore self.new }
    {
        for entry in list {
            self.share(entry.slot);
        }
    }

    /// Each entry of a list is there no more.
    pub fn leave_all(&mut self, list: &[PageEntry])
        ensures left { IsLeftByAll self.old list.now self.new }
        ensures store { IsStore self.old → IsStore self.new }
    {
        for entry in list {
            self.leave(entry.slot);
        }
    }
}

//! The table of groups, which living tasks and workers' handles hold.

ghost use Rattle.std.specs.Prelude.{◌≡◌, ◌++◌, ℕ, ◌+◌, ◌<◌, ◌≤◌, not, List, [], length, Some, None, IfOk, OnOk, OnErr, is_ok, is_err, true, false, vec_capacity};
ghost use Rattle.sys_abi.specs.Memory.{lacked_memory, was_refused};
ghost use Rattle.hist_model.specs.Effects.{is_cloexec};
ghost use Rattle.hist_model.specs.Memory.{all_mapped};
ghost use Rattle.hist_model.specs.Natives.{is_open};
ghost use Rattle.hist_model.specs.Steps.{slot_answer};
ghost use Rattle.sorted_list.specs.Entries.{NumbersRise, IsSet};
ghost use Rattle.task_groups.specs.Descriptors.{descriptor_number, IsFirstFree};
ghost use Rattle.task_groups.specs.Groups.{Holds, HasRow, IsLive, IsReadAnswer, HasRoom, HasRoomFor, HasStoreRoom, number_given};
ghost use Rattle.task_groups.specs.Keys.{group_part, groups_part};
ghost use Rattle.task_groups.specs.Pages.{IsStored, IsStore, IsLeftByAll, IsShared};
ghost use Rattle.task_groups.specs.Rows.{Row, row_at, row_of, descriptor_in, IsSound, SameGroups, IsPut, SetsMark, SameMarks, HasCopyRoom, HasPageRoom, HasDescriptorRoom};
ghost use Rattle.task_groups.specs.State.{State, IsSetTo, no_groups, read_from, free_of, place_at, place_for, with_fresh, with_copy, with_joined, with_left, with_opened, with_closed, with_stored, with_number, with_installed};

use crate::descriptors::{self, Descriptor};
use crate::keys::push_descriptors;
use crate::list::PageEntry;
use crate::map;
use crate::page_bytes::PAGE;
use crate::pages::Pages;
use hist_model::request::{Fault, Obj};
use hist_model::script::{MapRange, Script};
use key_bytes::push_number;
use std::alloc::Global;
use std::mem;
use sys_abi::errno::Errno;
use sys_abi::memory::{NoMemory, OrNoMemory};
use sys_abi::wire::{Addfd, is_cloexec};
use thiserror::Error;

/// The largest table has this many numbers (nr_open, proc(5)).
pub const NR_OPEN: u32 = 1_048_576;

/// Every number below the limit is open (RLIMIT_NOFILE, getrlimit(2)), or the one that was asked for isn't below it.
#[derive(Clone, Copy, PartialEq, Eq, Debug, Error)]
#[error("descriptor over the limit")]
pub struct OverLimit;

/// The number isn't open (close(2), EBADF).
#[derive(Clone, Copy, PartialEq, Eq, Debug, Error)]
#[error("descriptor not open")]
pub struct NotOpen;

/// A group: an address space, which its living tasks and the handles that are open on it hold, and a descriptor table, which
/// its living tasks hold.
#[derive(Drop)]
pub struct Group {
    /// How many of its tasks live.
    living: u64,
    /// How many handles are open on its memory.
    handles: u64,
    /// The pages that were written.
    pages: Vec<PageEntry>,
    descriptors: Vec<Descriptor>,
}

/// The groups of a kernel. A group is named by its ordinal, which is how many were made before it. Its row stays, without pages
/// and descriptors once nobody holds them.
pub struct Groups {
    map: Vec<MapRange>,
    /// New numbers are below it.
    rlimit: u32,
    /// By ordinal.
    rows: Vec<Group>,
    pages: Pages,
    /// Room for the page list and the descriptors of the next copy.
    spare_pages: Vec<PageEntry>,
    spare_descriptors: Vec<Descriptor>,
    alloc: Global,
}

// (written out, so that what letting one go comes to is proved here once, and not in each crate that owns one)
impl Drop for Groups {
    fn drop(self) {
        let Groups {
            map: _map,
            rlimit: _rlimit,
            rows: _rows,
            pages: _pages,
            spare_pages: _spare_pages,
            spare_descriptors: _spare_descriptors,
            alloc: _alloc,
        } = self;
    }
}

/// The entries of a list in the room of another one.
fn copied_into<T: Copy>(room: Vec<T>, list: &[T]) -> Vec<T>
    requires { length list.now ≤ vec_capacity room }
    ensures { result.items ≡ list.now }
{
    let mut room = room;
    room.clear();
    let Ok(()) = room.extend_from_slice(list) else {
        unreachable!()
    };
    room
}

impl Groups {
    /// No groups, over the map and the limit of a script.
    pub fn new(alloc: Global, script: &Script) -> Result<Groups, NoMemory>
        ensures { IfOk result (λ g. Holds (no_groups script.now.map script.now.rlimit) g) }
    {
        Ok(Groups {
            map: Vec::from_slice(alloc, script.map.items())?,
            rlimit: script.rlimit,
            rows: Vec::new(alloc),
            pages: Pages::new(alloc),
            spare_pages: Vec::new(alloc),
            spare_descriptors: Vec::new(alloc),
            alloc,
        })
    }

    /// Adds what is kept of a group, but for how many hold it.
    fn push_group(&self, key: &mut Vec<u8>, group: &Group) -> Result<(), NoMemory>
        ensures { OnOk result (key.new.items ≡ key.old.items ++ group_part self.now.pages group.now) }
    {
        self.pages.push_list(key, &group.pages)?;
        push_descriptors(key, &group.descriptors)
    }

    /// Adds the key of this table: only tables whose groups have the same bytes and descriptors have equal ones. Fails for want of memory
    /// alone; then a front of the key was added.
    pub fn write_key(&self, key: &mut Vec<u8>) -> Result<(), NoMemory>
        ensures { OnOk result (key.new.items ≡ key.old.items ++ groups_part self.now) }
    {
        push_number(key, self.rows.len() as u64)?;
        for group in &self.rows {
            self.push_group(key, group)?;
        }
        Ok(())
    }

    /// How many groups were made: the ordinal of the next one.
    pub fn made(&self) -> usize
        ensures { (s : State) → Holds s self.now → result ≡ s.made }
    {
        self.rows.len()
    }

    /// Makes room for one `copied` of a group, or for one `store` of at most `len` bytes or one `install` in it, which then
    /// take no memory. There is none for the 2^32-th group.
    pub fn ready(&mut self, o: u32, len: u32) -> Result<(), NoMemory>
        requires { IsLive self.old o }
        ensures room { OnOk result (HasRoom self.new o len) }
        ensures live { IsLive self.new o }
        ensures same { SameGroups self.old self.new }
    {
        self.ready_copy(o)?;
        self.ready_pages(o, len)?;
        self.ready_descriptor(o)
    }

    /// Makes room for one `store` of at most `len` bytes in a group, which then takes no memory.
    pub fn ready_store(&mut self, o: u32, len: u32) -> Result<(), NoMemory>
        requires { HasRow self.old o }
        ensures room { OnOk result (HasStoreRoom self.new o len) }
        ensures same { SameGroups self.old self.new }
    {
        self.ready_pages(o, len)
    }

    /// Makes room for a copy of a group.
    fn ready_copy(&mut self, o: u32) -> Result<(), NoMemory>
        requires { HasRow self.old o }
        ensures room { OnOk result (HasCopyRoom self.new o) }
        ensures same { SameGroups self.old self.new }
    {
        if self.rows.len() >= u32::MAX as usize {
            return Err(NoMemory);
        }
        self.rows.reserve(1)?;
        self.spare_pages.clear();
        self.spare_pages.reserve(self.rows[o as usize].pages.len())?;
        self.spare_descriptors.clear();
        self.spare_descriptors
            .reserve(self.rows[o as usize].descriptors.len())?;
        Ok(())
    }

    /// Makes room for storing `len` bytes in a group.
    fn ready_pages(&mut self, o: u32, len: u32) -> Result<(), NoMemory>
        requires { HasRow self.old o }
        ensures room { OnOk result (HasPageRoom self.new o len) }
        ensures copy { HasCopyRoom self.old o → HasCopyRoom self.new o }
        ensures same { SameGroups self.old self.new }
    {
        let count = len as usize / PAGE + 2;
        self.pages.ready(count)?;
        self.rows[o as usize].pages.reserve(count)?;
        Ok(())
    }

    /// Makes room for one more descriptor of a group.
    fn ready_descriptor(&mut self, o: u32) -> Result<(), NoMemory>
        requires { HasRow self.old o }
        ensures room { OnOk result (HasDescriptorRoom self.new o) }
        ensures copy { HasCopyRoom self.old o → HasCopyRoom self.new o }
        ensures pages { (len : ℕ) → HasPageRoom self.old o len → HasPageRoom self.new o len }
        ensures same { SameGroups self.old self.new }
    {
        self.rows[o as usize].descriptors.reserve(1)?;
        Ok(())
    }

    /// Makes a group with one living task, whose memory is all 0 and whose numbers 0, 1 and 2 lead to the console. Where
    /// there is no memory the groups are given up.
    pub fn fresh(self) -> Result<Groups, NoMemory>
        ensures { IfOk result (λ g. (s : State) → Holds s self → Holds (with_fresh s) g) }
    {
        let mut groups = self;
        let descriptors = Vec::from_slice(groups.alloc, &descriptors::console())?;
        groups.rows.push(Group {
            living: 1,
            handles: 0,
            pages: Vec::new(groups.alloc),
            descriptors,
        })?;
        Ok(groups)
    }

    /// Makes a copy of a group, with one living task (fork(2)), and gives its ordinal. There is room for it.
    pub fn copied(&mut self, o: u32) -> u32
        requires live { IsLive self.old o }
        requires room { HasRoomFor self.old o 0 }
        ensures ordinal { (s : State) → Holds s self.old → result ≡ s.made }
        ensures step { (s : State) → Holds s self.old → Holds (with_copy o s) self.new }
    {
        let ordinal = self.rows.len() as u32;
        let copy = self.copy(o);
        self.rows.push_reserved(copy);
        ordinal
    }

    /// A copy of a group, whose pages are shared with it.
    fn copy(&mut self, o: u32) -> Group
        requires { HasCopyRoom self.old o }
        ensures row { (r : Row) → row_at self.old o ≡ Some r → row_of result ≡ record { living = 1; handles = 0; pages = r.pages; descriptors = r.descriptors } }
        ensures shared { (r : Row) → row_at self.old o ≡ Some r → IsShared self.old.pages r.pages self.new.pages }
        ensures store { IsStore self.old.pages → IsStore self.new.pages }
        ensures rows { self.new.rows ≡ self.old.rows }
        ensures map { self.new.map ≡ self.old.map }
        ensures rlimit { self.new.rlimit ≡ self.old.rlimit }
    {
        let pages = mem::replace(&mut self.spare_pages, Vec::new(self.alloc));
        let descriptors = mem::replace(&mut self.spare_descriptors, Vec::new(self.alloc));
        let row = &self.rows[o as usize];
        self.pages.share_all(&row.pages);
        Group {
            living: 1,
            handles: 0,
            pages: copied_into(pages, &row.pages),
            descriptors: copied_into(descriptors, &row.descriptors),
        }
    }

    /// How many tasks and handles hold a group.
    fn holders(&self, o: u32) -> (u64, u64)
        requires { HasRow self.now o }
        ensures { (r : Row) → row_at self.now o ≡ Some r → result ≡ (r.living, r.handles) }
    {
        let row = &self.rows[o as usize];
        (row.living, row.handles)
    }

    /// One more living task is of a group: a thread (pthread_create(3)).
    pub fn joined(&mut self, o: u32)
        requires { IsLive self.old o }
        ensures { (s : State) → Holds s self.old → Holds (with_joined o s) self.new }
    {
        let (living, handles) = self.holders(o);
        self.hold(o, living + 1, handles);
    }

    /// A living task of a group has ended. The last one frees the descriptors, and the memory where no handle holds it.
    pub fn left(&mut self, o: u32)
        requires { IsLive self.old o }
        ensures { (s : State) → Holds s self.old → Holds (with_left o s) self.new }
    {
        let (living, handles) = self.holders(o);
        self.hold(o, living - 1, handles);
    }

    /// A worker opened the memory of a group, which then holds it until it is closed.
    pub fn opened(&mut self, o: u32)
        requires { IsLive self.old o }
        ensures { (s : State) → Holds s self.old → Holds (with_opened o s) self.new }
    {
        let (living, handles) = self.holders(o);
        self.hold(o, living, handles + 1);
    }

    /// A worker closed the memory of a group, which it had open. The last holder frees it.
    pub fn closed(&mut self, o: u32)
        requires { HasRow self.old o }
        ensures { (s : State) → Holds s self.old → 0 < s.handles o → Holds (with_closed o s) self.new }
    {
        let (living, handles) = self.holders(o);
        self.hold(o, living, handles.saturating_sub(1));
    }

    /// So many tasks and handles hold a group now, of which some did. What nobody holds is freed.
    fn hold(&mut self, o: u32, living: u64, handles: u64)
        requires { HasRow self.old o }
        ensures { (s : State) (l h : ℕ → ℕ) → Holds s self.old → (0 < living → 0 < s.living o) → (0 < living + handles → 0 < s.living o + s.handles o) → IsSetTo s.living o living l → IsSetTo s.handles o handles h → Holds (record s { living = l; handles = h }) self.new }
    {
        if living > 0 {
            self.set_holders(o, living, handles);
        } else {
            self.close_all(o, handles);
            if handles == 0 {
                self.free(o);
            }
        }
    }

    /// Writes how many hold a group.
    fn set_holders(&mut self, o: u32, living: u64, handles: u64)
        requires { HasRow self.old o }
        ensures put { (r : Row) → row_at self.old o ≡ Some r → IsPut self.old o (record r { living = living; handles = handles }) self.new }
        ensures pages { self.new.pages ≡ self.old.pages }
    {
        let row = &mut self.rows[o as usize];
        row.living = living;
        row.handles = handles;
    }

    /// No task of a group lives any more, and its descriptors are freed.
    fn close_all(&mut self, o: u32, handles: u64)
        requires { HasRow self.old o }
        ensures put { (r : Row) → row_at self.old o ≡ Some r → IsPut self.old o (record r { living = 0; handles = handles; descriptors = [] }) self.new }
        ensures pages { self.new.pages ≡ self.old.pages }
    {
        let row = &mut self.rows[o as usize];
        row.living = 0;
        row.handles = handles;
        row.descriptors = Vec::new(self.alloc);
    }

    /// Frees the memory of a group.
    fn free(&mut self, o: u32)
        requires { HasRow self.old o }
        ensures put { (r : Row) → row_at self.old o ≡ Some r → IsPut self.old o (record r { pages = [] }) self.new }
        ensures left { (r : Row) → row_at self.old o ≡ Some r → IsLeftByAll self.old.pages r.pages self.new.pages }
        ensures store { IsStore self.old.pages → IsStore self.new.pages }
    {
        let list = mem::replace(&mut self.rows[o as usize].pages, Vec::new(self.alloc));
        self.pages.leave_all(&list);
    }

    /// Stores bytes in the memory of a group that somebody holds, for which there is room. A fault exactly where one of them
    /// isn't mapped; then all is as it was.
    pub fn store(&mut self, o: u32, addr: u64, bytes: &[u8]) -> Result<(), Fault>
        requires row { HasRow self.old o }
        requires room { HasStoreRoom self.old o (length bytes.now) }
        ensures fault { (s : State) → Holds s self.old → is_err result ≡ not (all_mapped s.map addr (length bytes.now)) }
        ensures step { OnOk result ((s : State) → Holds s self.old → 0 < s.living o + s.handles o → Holds (with_stored o addr bytes.now s) self.new) }
        ensures marks { IsSound self.old → SameMarks self.old o self.new }
        ensures refused { OnErr result (self.new ≡ self.old) }
    {
        if map::mapped_count(&self.map, addr, bytes.len()) < bytes.len() {
            return Err(Fault);
        }
        self.write(o, addr, bytes);
        Ok(())
    }

    /// Writes bytes into the pages of a group, for which there is room.
    fn write(&mut self, o: u32, addr: u64, bytes: &[u8])
        requires row { HasRow self.old o }
        requires room { HasStoreRoom self.old o (length bytes.now) }
        ensures { IsSound self.old → (r : Row) → row_at self.old o ≡ Some r → (ys : List PageEntry) × IsPut self.old o (record r { pages = ys }) self.new × IsStored self.old.pages r.pages addr bytes.now self.new.pages ys }
    {
        self.pages
            .store(&mut self.rows[o as usize].pages, addr, bytes);
    }

    /// Reads the bytes of a group's memory from an address on, up to the first that isn't mapped, and at most `len`: `out`
    /// then holds them, and nothing else, and has the room that it had. A fault where the first isn't mapped; `out` is then
    /// as it was.
    pub fn read(
        &self,
        o: u32,
        addr: u64,
        len: u16,
        out: &mut Vec<u8>,
    ) -> Result<(), OrNoMemory<Fault>>
        requires { HasRow self.now o }
        ensures answer { (s : State) → Holds s self.now → 0 < s.living o + s.handles o → IsReadAnswer result out.new.items (read_from s o addr len) }
        ensures room { len ≤ vec_capacity out.old → lacked_memory result ≡ false }
        ensures capacity { vec_capacity out.old ≤ vec_capacity out.new }
        ensures refused { was_refused result ≡ true → out.new ≡ out.old }
        ensures same { OnErr result (out.new.items ≡ out.old.items) }
    {
        if map::mapped_rest(&self.map, addr) == 0 {
            return Err(OrNoMemory::Refused(Fault));
        }
        let len = usize::from(len);
        let count = map::mapped_count(&self.map, addr, len);
        out.reserve(len.saturating_sub(out.len()))?;
        out.clear();
        self.pages
            .append(&self.rows[o as usize].pages, addr, count, out);
        Ok(())
    }

    /// The descriptor of a number of a group.
    fn find(&self, o: u32, n: u32) -> Option<Descriptor>
        requires { HasRow self.now o }
        ensures { IsSound self.now → result ≡ descriptor_in (row_at self.now o) n }
    {
        sorted_list::find(&self.rows[o as usize].descriptors, n as u64)
    }

    /// What a number of a group leads to. None exactly where it isn't open.
    pub fn get(&self, o: u32, n: u32) -> Option<Obj>
        requires { IsLive self.now o }
        ensures { (s : State) → Holds s self.now → result ≡ (s.contents o).slot n }
    {
        self.find(o, n).map(|descriptor| descriptor.obj)
    }

    /// The lowest number of a group that isn't open, whatever the limit is.
    fn first_free(&self, o: u32) -> usize
        requires { HasRow self.now o }
        ensures { IsSound self.now → (r : Row) → row_at self.now o ≡ Some r → IsFirstFree r.descriptors result }
    {
        descriptors::first_free(&self.rows[o as usize].descriptors)
    }

    /// Sets the descriptor of a number of a group, for which there is room.
    fn put(&mut self, o: u32, descriptor: Descriptor)
        requires { HasDescriptorRoom self.old o }
        ensures put { (r : Row) → row_at self.old o ≡ Some r → (xs : List Descriptor) × (NumbersRise descriptor_number r.descriptors → IsSet descriptor_number r.descriptors descriptor.number (Some descriptor) xs) × IsPut self.old o (record r { descriptors = xs }) self.new }
        ensures pages { self.new.pages ≡ self.old.pages }
    {
        sorted_list::set(&mut self.rows[o as usize].descriptors, descriptor);
    }

    /// Takes the descriptor of a number of a group away.
    fn take(&mut self, o: u32, n: u32)
        requires { HasRow self.old o }
        ensures put { (r : Row) → row_at self.old o ≡ Some r → (xs : List Descriptor) × (NumbersRise descriptor_number r.descriptors → IsSet descriptor_number r.descriptors n None xs) × IsPut self.old o (record r { descriptors = xs }) self.new }
        ensures pages { self.new.pages ≡ self.old.pages }
    {
        sorted_list::remove(&mut self.rows[o as usize].descriptors, n as u64);
    }

    /// Opens the lowest free number below the limit (open(2), EMFILE), for which there is room, and gives it. It is refused
    /// exactly where there is none.
    pub fn open(&mut self, o: u32, obj: Obj, cloexec: bool) -> Result<u32, OverLimit>
        requires live { IsLive self.old o }
        requires room { HasDescriptorRoom self.old o }
        ensures number { (s : State) → Holds s self.old → number_given result ≡ free_of s o }
        ensures step { IfOk result (λ n. (s : State) → Holds s self.old → Holds (with_number o n (Some obj) s) self.new) }
        ensures marks { IfOk result (λ n. IsSound self.old → SetsMark self.old o n (Some cloexec) self.new) }
        ensures refused { OnErr result (self.new ≡ self.old) }
    {
        let number = self.first_free(o);
        if number >= self.rlimit as usize {
            return Err(OverLimit);
        }
        let number = number as u32;
        self.put(
            o,
            Descriptor {
                number,
                obj,
                cloexec,
            },
        );
        Ok(number)
    }

    /// Opens this number, in place of what it leads to where it is open (dup2(2)). EMFILE exactly from `NR_OPEN` on, and below
    /// that EBADF exactly from the limit on. There is room for it.
    fn open_at(&mut self, o: u32, n: u32, obj: Obj, cloexec: bool) -> Result<u32, Errno>
        requires live { IsLive self.old o }
        requires room { HasDescriptorRoom self.old o }
        ensures answer { (s : State) → Holds s self.old → result ≡ slot_answer (place_at s n) }
        ensures step { IfOk result (λ m. (s : State) → Holds s self.old → Holds (with_number o m (Some obj) s) self.new) }
        ensures marks { IfOk result (λ m. IsSound self.old → SetsMark self.old o m (Some cloexec) self.new) }
        ensures refused { OnErr result (self.new ≡ self.old) }
    {
        if n >= NR_OPEN {
            return Err(Errno::EMFILE);
        }
        if n >= self.rlimit {
            return Err(Errno::EBADF);
        }
        self.put(
            o,
            Descriptor {
                number: n,
                obj,
                cloexec,
            },
        );
        Ok(n)
    }

    /// Closes a number of a group. It is refused exactly where the number isn't open.
    pub fn close(&mut self, o: u32, n: u32) -> Result<(), NotOpen>
        requires { IsLive self.old o }
        ensures open { (s : State) → Holds s self.old → is_ok result ≡ is_open ((s.contents o).slot n) }
        ensures step { OnOk result ((s : State) → Holds s self.old → Holds (with_number o n None s) self.new) }
        ensures marks { OnOk result (IsSound self.old → SetsMark self.old o n None self.new) }
        ensures refused { OnErr result (self.new ≡ self.old) }
    {
        let Some(_) = self.get(o, n) else {
            return Err(NotOpen);
        };
        self.take(o, n);
        Ok(())
    }

    /// Installs the broker's file that was asked for in a group (seccomp_unotify(2), SECCOMP_IOCTL_NOTIF_ADDFD), for which
    /// there is room, and gives its number. With `SECCOMP_ADDFD_FLAG_SETFD` EMFILE exactly for a number that no table has,
    /// and EBADF exactly for another one that isn't below the limit; else EBADF exactly where every number below the limit
    /// is open. After an error all is as it was.
    pub fn install(&mut self, o: u32, asked: &Addfd) -> Result<u32, Errno>
        requires live { IsLive self.old o }
        requires room { HasRoomFor self.old o 0 }
        ensures answer { (s : State) → Holds s self.old → result ≡ slot_answer (place_for s o asked.now) }
        ensures step { (s : State) → Holds s self.old → Holds (with_installed o asked.now.srcfd result s) self.new }
        ensures marks { IfOk result (λ n. IsSound self.old → SetsMark self.old o n (Some (is_cloexec asked.now.newfd_flags)) self.new) }
        ensures refused { OnErr result (self.new ≡ self.old) }
    {
        let file = Obj::Broker(asked.srcfd);
        let cloexec = is_cloexec(asked.newfd_flags);
        if asked.has_setfd() {
            return self.open_at(o, asked.newfd, file, cloexec);
        }
        match self.open(o, file, cloexec) {
            Ok(number) => Ok(number),
            Err(OverLimit) => Err(Errno::EBADF),
        }
    }
}

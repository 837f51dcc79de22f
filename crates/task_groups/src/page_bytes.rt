//! The bytes of one page, of which those after the last one that was written aren't kept.

ghost use Rattle.std.specs.Prelude.{◌≡◌, ℕ, ◌+◌, ◌<◌, ◌≤◌, ◌++◌, length, replicate, Some, OnOk, vec_len, vec_capacity, slice_index};
ghost use Rattle.hist_model.specs.Memory.{byte_or, byte_stored};

use std::alloc::Global;
use std::marker::Model;
use sys_abi::memory::NoMemory;

/// How many bytes a page has.
pub const PAGE: usize = 4096;

/// A page that was never written.
const ZEROS: [u8; PAGE] = [0; PAGE];

/// The bytes of a page up to the last one that was written, with room for all; after them the page has zeros. So a page is
/// made and copied in the time of what was written to it.
#[derive(Drop)]
pub struct PageBytes {
    written: Vec<u8>,
}

impl Model for PageBytes {
    ghost use Rattle.std.specs.Prelude.{ℕ, ◌≤◌, List, length, vec_capacity};

    ghost Value = { List ℕ };

    ghost view = { λ b. b.written.items };

    ghost invariant = { λ b. (length b.written.items ≤ 4096) × (4096 ≤ vec_capacity b.written) };
}

impl PageBytes {
    /// A page of zeros.
    pub fn new(alloc: Global) -> Result<PageBytes, NoMemory> {
        Ok(PageBytes {
            written: Vec::with_capacity(alloc, PAGE)?,
        })
    }

    /// The bytes up to the last one that was written.
    pub fn written(&self) -> &[u8]
        ensures bytes { result.now ≡ self.now }
        ensures most { length result.now ≤ 4096 }
    {
        self.written.as_slice()
    }

    /// Makes it a copy of the page that has these bytes.
    pub fn copy_from(&mut self, bytes: &[u8])
        requires { length bytes.now ≤ 4096 }
        ensures { self.new ≡ bytes.now }
    {
        self.written.clear();
        let Ok(()) = self.written.extend_from_slice(bytes) else {
            unreachable!()
        };
    }

    /// Writes a piece.
    pub fn write(&mut self, offset: usize, piece: &[u8])
        requires { offset + length piece.now ≤ 4096 }
        ensures { (i : ℕ) → slice_index self.new i ≡ byte_or (byte_stored (Some (offset, piece.now)) i) (slice_index self.old i) }
    {
        reach(&mut self.written, offset + piece.len());
        write_at(&mut self.written, offset, piece);
    }
}

/// Appends the zeros of a page that end at this many of its bytes, if it has fewer.
fn reach(bytes: &mut Vec<u8>, end: usize)
    requires within { end ≤ 4096 }
    requires most { vec_len bytes.old ≤ 4096 }
    requires room { 4096 ≤ vec_capacity bytes.old }
    ensures bytes { (i : ℕ) → slice_index bytes.new.items i ≡ slice_index bytes.old.items i }
    ensures end { end ≤ vec_len bytes.new }
    ensures most { vec_len bytes.new ≤ 4096 }
    ensures room { 4096 ≤ vec_capacity bytes.new }
{
    let missing = end.saturating_sub(bytes.len());
    append_zeros(bytes, missing);
}

/// Appends so many zeros, at most a page of them, for which there is room.
pub fn append_zeros(out: &mut Vec<u8>, count: usize)
    requires within { count ≤ 4096 }
    requires room { vec_len out.old + count ≤ vec_capacity out.old }
    ensures items { out.new.items ≡ out.old.items ++ replicate count 0 }
    ensures len { vec_len out.new ≡ vec_len out.old + count }
    ensures capacity { vec_capacity out.old ≤ vec_capacity out.new }
{
    let Ok(()) = out.extend_from_slice(&ZEROS[..count]) else {
        unreachable!()
    };
}

/// Writes a piece into bytes.
fn write_at(bytes: &mut [u8], offset: usize, piece: &[u8])
    requires { offset + length piece.now ≤ length bytes.old }
    ensures bytes { (i : ℕ) → slice_index bytes.new i ≡ byte_or (byte_stored (Some (offset, piece.now)) i) (slice_index bytes.old i) }
    ensures len { length bytes.new ≡ length bytes.old }
{
    bytes[offset..offset + piece.len()].copy_from_slice(piece);
}

/// The bytes of a page from an offset on that were written, and at most so many.
pub fn part(page: &[u8], offset: usize, count: usize) -> &[u8]
    requires { offset + count ≤ 4096 }
    ensures most { length result.now ≤ count }
    ensures bytes { (i : ℕ) → i < count → slice_index result.now i ≡ slice_index page.now (offset + i) }
{
    let end = page.len().min(offset + count);
    &page[offset.min(end)..end]
}

//! The copies that reads make of a call's arguments, by read and not by byte.

ghost use Rattle.std.specs.Prelude.{◌≡◌, ◌^◌, ◌<◌, ◌≤◌, ℕ, List, [], length, reverse, All, Result, IfOk, OnOk};
ghost use Rattle.arg_capture.specs.Captures.{Follows, continued};
ghost use Rattle.arg_capture.specs.Plans.{IsSound};
ghost use Rattle.hist_model.specs.Copies.{Complete, Progress, further, plan, progress, wanted};
ghost use Rattle.hist_model.specs.declared.copy.Part.{Part as PartValue};
ghost use Rattle.broker_verdict.specs.SeatCopies as copies;
ghost use Rattle.broker_judge.specs.Copied.{Comes, HasPieces, IsAnswered, IsSo, WantsSome};
ghost use Rattle.broker_judge.specs.Copied.{seen_at, told_by, told_so, with_more, with_read, worth_so};
ghost use Rattle.broker_judge.specs.Reads.{seen_of};

use crate::reads::{SeatRead, Seen, Worth};
use arg_capture::{Capture, Part, Plan};
use hist_model::request::Fault;
use hist_model::text::Text;
use std::alloc::Global;
use sys_abi::errno::Errno;
use sys_abi::memory::NoMemory;

/// The most bytes of a value.
pub(crate) const MOST_BYTES: u64 = 4096;

/// The copy of a call's arguments that reads make.
#[derive(Debug, Drop)]
pub enum Copied {
    /// A byte wasn't read.
    Missing,
    /// All texts, in the order of the call's plan.
    Whole(Vec<Text>),
    /// The first fault that is known.
    Faulty(Errno),
}

impl Copied {
    /// Whether all of it is known, or its fault.
    pub fn is_known(&self) -> bool
        ensures { (p : Progress) → Comes p self.now → result ≡ copies.is_known p }
    {
        !matches!(self, Copied::Missing)
    }
}

/// One text of a copy.
#[derive(Debug, Drop)]
enum Known {
    Whole(Vec<u8>),
    Fails(Errno),
    Missing,
}

/// The two copies of a call's arguments: with the newest byte at each place, and in the order of the call's plan.
#[derive(Debug, Drop)]
pub struct BothCopies {
    pub newest: Copied,
    pub planned: Copied,
}

/// The copies that the reads of this worth make, given with the oldest first.
pub fn make_copies(
    alloc: Global,
    reads: &[SeatRead],
    least: Worth,
    nr: i32,
    args: &[u64; 6],
) -> Result<BothCopies, NoMemory>
    requires { All IsAnswered reads.now }
    ensures newest { IfOk result (λ both. Comes (copies.newest_copy (worth_so least reads.now) (plan nr args.now)) both.newest) }
    ensures planned { IfOk result (λ both.
        Comes (copies.planned_from (plan nr args.now) [] (reverse (worth_so least reads.now))) both.planned) }
{
    Ok(BothCopies {
        newest: newest_copy(alloc, reads, least, Plan::of(nr, args))?,
        planned: planned_copy(alloc, reads, least, Plan::of(nr, args))?,
    })
}

/// Lays what a read of this worth tells over what is known of the bytes from an address on.
fn lay_worth(seen: &mut [Seen], addr: u64, read: &SeatRead, least: Worth)
    requires { length seen.old ≤ 4096 }
    ensures size { length seen.new ≡ length seen.old }
    ensures laid { (i : ℕ) → i < length seen.old
        → seen_at seen.new i ≡ copies.or_seen (told_so least read.now (further addr i)) (seen_at seen.old i) }
{
    if read.is_worth(least) {
        lay_over(seen, addr, read);
    }
}

/// Lays what a read tells over what is known of the bytes from an address on.
fn lay_over(seen: &mut [Seen], addr: u64, read: &SeatRead)
    requires { length seen.old ≤ 4096 }
    ensures size { length seen.new ≡ length seen.old }
    ensures laid { (i : ℕ) → i < length seen.old
        → seen_at seen.new i ≡ copies.or_seen (told_by read.now (further addr i)) (seen_at seen.old i) }
{
    let (from, to) = read.places(addr, seen.len());
    for place in from..to {
        let told = read.told(addr.wrapping_add(place as u64));
        seen[place] = laid_over(told, seen[place]);
    }
}

/// What is known of a byte after one more read tells something of it, or nothing.
fn laid_over(told: Seen, known: Seen) -> Seen
    ensures { seen_of result ≡ copies.or_seen (seen_of told) (seen_of known) }
{
    match told {
        Seen::Unread => known,
        Seen::Byte(_) | Seen::Unmapped => told,
    }
}

/// Behind how many bytes from an address on a read of this worth tells nothing, of at most so many.
fn end_of(read: &SeatRead, least: Worth, addr: u64, most: usize) -> usize
    requires { most ≤ 4096 }
    ensures within { result ≤ most }
    ensures behind { (i : ℕ) → result ≤ i → i < most → told_so least read.now (further addr i) ≡ copies.Unread }
{
    if read.is_worth(least) {
        let (_from, to) = read.places(addr, most);
        to
    } else {
        0
    }
}

/// How many bytes from an address on the reads tell of, but at most so many.
fn reach(reads: &[SeatRead], least: Worth, addr: u64, most: usize) -> usize
    requires { most ≤ 4096 }
    ensures within { result ≤ most }
    ensures behind { (i : ℕ) → result ≤ i → i < most
        → copies.newest_at (worth_so least reads.now) (further addr i) ≡ copies.Unread }
{
    let mut reached: usize = 0;
    let mut rest = reads;
    while let Some((read, later)) = rest.split_first() {
        reached = reached.max(end_of(read, least, addr, most));
        rest = later;
    }
    reached
}

/// So many bytes of which nothing is known.
fn unread_bytes(alloc: Global, n: usize) -> Result<Vec<Seen>, NoMemory>
    ensures size { IfOk result (λ seen. length seen.items ≡ n) }
    ensures unread { IfOk result (λ seen. (i : ℕ) → seen_at seen.items i ≡ copies.Unread) }
{
    Ok(vec![in alloc; Seen::Unread; n]?)
}

/// What the newest of the reads tell of the bytes from an address on, at most so many; of those behind they tell nothing.
fn newest_bytes(
    alloc: Global,
    reads: &[SeatRead],
    least: Worth,
    addr: u64,
    most: usize,
) -> Result<Vec<Seen>, NoMemory>
    requires { most ≤ 4096 }
    ensures { IfOk result (λ seen. (i : ℕ) → i < most
        → seen_at seen.items i ≡ copies.newest_at (worth_so least reads.now) (further addr i)) }
{
    let mut seen = unread_bytes(alloc, reach(reads, least, addr, most))?;
    lay_all(seen.as_mut_slice(), addr, reads, least);
    Ok(seen)
}

/// Lays what the reads of this worth tell, given with the oldest first, over what is known of the bytes from an address on.
fn lay_all(seen: &mut [Seen], addr: u64, reads: &[SeatRead], least: Worth)
    requires { length seen.old ≤ 4096 }
    ensures size { length seen.new ≡ length seen.old }
    ensures laid { (i : ℕ) → i < length seen.old
        → seen_at seen.new i ≡ copies.or_seen (copies.newest_at (worth_so least reads.now) (further addr i)) (seen_at seen.old i) }
{
    let mut rest = reads;
    while let Some((read, later)) = rest.split_first() {
        lay_worth(seen, addr, read, least);
        rest = later;
    }
}

/// What is known of the byte at a place; nothing behind the last one.
fn seen_at(seen: &[Seen], place: usize) -> Seen
    ensures { seen_of result ≡ seen_at seen.now place }
{
    if place < seen.len() {
        seen[place]
    } else {
        Seen::Unread
    }
}

/// The text of these bytes, of at most so many with its zero.
fn text_seen(alloc: Global, seen: &[Seen], limit: usize, fault: Errno) -> Result<Known, NoMemory>
    ensures { IfOk result (λ known. (byte : ℕ → copies.Seen) (addr : ℕ) → addr < 2 ^ 64
        → ((i : ℕ) → i < limit → seen_at seen.now i ≡ byte (further addr i))
        → IsSo (copies.text_seen byte fault limit addr) known) }
{
    let mut text = Vec::new(alloc);
    for place in 0..limit {
        match seen_at(seen, place) {
            Seen::Byte(0) => return Ok(Known::Whole(text)),
            Seen::Byte(byte) => text.push(byte)?,
            Seen::Unmapped => return Ok(Known::Fails(Errno::EFAULT)),
            Seen::Unread => return Ok(Known::Missing),
        }
    }
    Ok(Known::Fails(fault))
}

/// The value of so many of these bytes.
fn value_seen(alloc: Global, seen: &[Seen], size: usize) -> Result<Known, NoMemory>
    ensures { IfOk result (λ known. (byte : ℕ → copies.Seen) (addr : ℕ) → addr < 2 ^ 64
        → ((i : ℕ) → i < size → seen_at seen.now i ≡ byte (further addr i))
        → IsSo (copies.value_seen byte size addr) known) }
{
    let mut value = Vec::new(alloc);
    for place in 0..size {
        match seen_at(seen, place) {
            Seen::Byte(byte) => value.push(byte)?,
            Seen::Unmapped => return Ok(Known::Fails(Errno::EFAULT)),
            Seen::Unread => return Ok(Known::Missing),
        }
    }
    Ok(Known::Whole(value))
}

/// What the newest of the reads make of a part.
fn part_seen(
    alloc: Global,
    reads: &[SeatRead],
    least: Worth,
    part: &Part,
) -> Result<Known, NoMemory>
    requires { IsSound part.now }
    ensures { IfOk result (λ known. IsSo (copies.part_seen (copies.newest_at (worth_so least reads.now)) part.now) known) }
{
    match *part {
        Part::Text { addr, limit, fault } => {
            let limit = limit as usize;
            let seen = newest_bytes(alloc, reads, least, addr, limit)?;
            text_seen(alloc, seen.as_slice(), limit, fault)
        }
        Part::Value { addr, size } => {
            if MOST_BYTES < size {
                return Ok(Known::Fails(Errno::E2BIG));
            }
            let size = size as usize;
            let seen = newest_bytes(alloc, reads, least, addr, size)?;
            value_seen(alloc, seen.as_slice(), size)
        }
    }
}

/// A copy with one text more behind it.
fn with_known(copied: Copied, known: Known) -> Result<Copied, NoMemory>
    ensures { IfOk result (λ more. (p : Progress) (k : copies.Known) → Comes p copied → IsSo k known → Comes (with_more p k) more) }
{
    match copied {
        Copied::Faulty(errno) => Ok(Copied::Faulty(errno)),
        Copied::Missing => Ok(match known {
            Known::Fails(errno) => Copied::Faulty(errno),
            Known::Whole(_) | Known::Missing => Copied::Missing,
        }),
        Copied::Whole(texts) => with_text(texts, known),
    }
}

/// Whole texts with one more behind them.
fn with_text(texts: Vec<Text>, known: Known) -> Result<Copied, NoMemory>
    ensures { IfOk result (λ more. (k : copies.Known) → IsSo k known → Comes (with_more (Complete texts.items) k) more) }
{
    let mut texts = texts;
    match known {
        Known::Whole(text) => {
            texts.push(Text::new(text))?;
            Ok(Copied::Whole(texts))
        }
        Known::Fails(errno) => Ok(Copied::Faulty(errno)),
        Known::Missing => Ok(Copied::Missing),
    }
}

/// The copy with the newest byte at each place, by the reads of this worth, given with the oldest first.
pub fn newest_copy(
    alloc: Global,
    reads: &[SeatRead],
    least: Worth,
    plan: Plan,
) -> Result<Copied, NoMemory>
    ensures { IfOk result (λ copied. Comes (copies.newest_copy (worth_so least reads.now) plan) copied) }
{
    let mut parts = plan;
    let mut copied = Copied::Whole(Vec::new(alloc));
    while let Some(part) = parts.first() {
        let known = part_seen(alloc, reads, least, &part)?;
        copied = with_known(copied, known)?;
        parts.drop_first();
    }
    Ok(copied)
}

/// Whether a read is of the piece that a copy wants.
fn is_wanted(capture: &Capture, read: &SeatRead) -> bool
    ensures piece { result ≡ copies.is_wanted (wanted (continued capture.now [])) read.now }
    ensures follows { (parts : List PartValue) (answers : List (Result (List ℕ) ℕ)) → Follows parts answers capture.now
        → result ≡ copies.is_wanted (wanted (progress parts answers)) read.now }
{
    match capture.next() {
        Some((addr, len)) => read.addr() == addr && read.len() == len,
        None => false,
    }
}

/// Takes a read into a copy, if it is of the piece that is wanted.
fn take_read(capture: &mut Capture, read: &SeatRead) -> Result<(), NoMemory>
    requires piece { WantsSome (continued capture.old []) }
    requires answered { IsAnswered read.now }
    ensures { (parts : List PartValue) (answers : List (Result (List ℕ) ℕ)) → Follows parts answers capture.old
        → OnOk result (Follows parts (copies.with_piece parts answers read.now) capture.new) }
{
    if !is_wanted(capture, read) {
        return Ok(());
    }
    match read.answer() {
        Ok(bytes) => capture.feed(Ok(bytes.items())),
        Err(_) => capture.feed(Err(Fault)),
    }
}

/// Takes a read into a copy, if it is of this worth, and of the piece that is wanted.
fn take_worth(capture: &mut Capture, read: &SeatRead, least: Worth) -> Result<(), NoMemory>
    requires piece { WantsSome (continued capture.old []) }
    requires answered { IsAnswered read.now }
    ensures { (parts : List PartValue) (answers : List (Result (List ℕ) ℕ)) → Follows parts answers capture.old
        → OnOk result (Follows parts (with_read least parts answers read.now) capture.new) }
{
    if read.is_worth(least) {
        take_read(capture, read)?;
    }
    Ok(())
}

/// The copy to which a capture has come.
fn copied_by(capture: Capture) -> Copied
    ensures { (parts : List PartValue) (answers : List (Result (List ℕ) ℕ)) → Follows parts answers capture
        → Comes (progress parts answers) result }
{
    if capture.next().is_some() {
        return Copied::Missing;
    }
    match capture.finish() {
        Ok(copy) => Copied::Whole(copy.texts.into_items()),
        Err(errno) => Copied::Faulty(errno),
    }
}

/// The copy in the plan's order, by the reads of this worth, given with the oldest first.
fn planned_copy(
    alloc: Global,
    reads: &[SeatRead],
    least: Worth,
    plan: Plan,
) -> Result<Copied, NoMemory>
    requires pieces { HasPieces plan }
    requires answered { All IsAnswered reads.now }
    ensures { IfOk result (λ copied. Comes (copies.planned_from plan [] (reverse (worth_so least reads.now))) copied) }
{
    let mut capture = Capture::new(alloc, plan)?;
    let mut rest = reads;
    while let Some((read, later)) = rest.split_first() {
        take_worth(&mut capture, read, least)?;
        rest = later;
    }
    Ok(copied_by(capture))
}

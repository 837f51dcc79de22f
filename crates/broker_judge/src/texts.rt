//! Texts that are given: whether a call can have them, and how far the reads can be relied on that give them.

ghost use Rattle.std.specs.Prelude.{◌≡◌, ◌<◌, ◌≤◌, ◌||◌, ℕ, length, get_or, nat_le, true, IfOk};
ghost use Rattle.std.specs.List.{list_all};
ghost use Rattle.broker_verdict.specs.SeatCopies.{fit_parts, fits_part, gives_byte, gives_bytes, gives_text, gives_texts};
ghost use Rattle.broker_verdict.specs.Seats.{rank};
ghost use Rattle.arg_capture.specs.Plans.{IsSound};
ghost use Rattle.hist_model.specs.Copies.{further, has_zero};
ghost use Rattle.broker_judge.specs.declared.reads.Worth.{Worth};
ghost use Rattle.broker_judge.specs.Copied.{worth_so};
ghost use Rattle.broker_judge.specs.Reads.{worth_of};
ghost use Rattle.broker_judge.specs.Texts.{better};

use crate::copies::MOST_BYTES;
use crate::reads::{SeatRead, Seen};
use arg_capture::{Part, Plan};
use hist_model::text::Text;
use std::alloc::Global;
use sys_abi::memory::NoMemory;

/// The rank of reads that can be relied on in full.
pub const FULL_RANK: u8 = 4;

/// Whether a part can have this text: it ends within its limit, or has the value's size.
pub fn fits_part(part: &Part, text: &[u8]) -> bool
    ensures { result ≡ fits_part part.now text.now }
{
    match *part {
        Part::Text { limit, .. } => !has_zero(text) && (text.len() as u64) < limit,
        Part::Value { size, .. } => text.len() as u64 == size && size <= MOST_BYTES,
    }
}

/// Whether there is a zero byte.
fn has_zero(bytes: &[u8]) -> bool
    ensures { result ≡ has_zero bytes.now }
{
    let mut rest = bytes;
    while let Some((byte, behind)) = rest.split_first() {
        if *byte == 0 {
            return true;
        }
        rest = behind;
    }
    false
}

/// Whether a call can have these texts.
pub fn fit_parts(plan: Plan, texts: &[Text]) -> bool
    ensures { result ≡ fit_parts plan texts.now }
{
    let mut parts = plan;
    let mut rest = texts;
    while let Some(part) = parts.first() {
        let Some((text, behind)) = rest.split_first() else {
            return false;
        };
        if !fits_part(&part, text.items()) {
            return false;
        }
        parts.drop_first();
        rest = behind;
    }
    rest.is_empty()
}

/// Notes for each of these bytes, which stand from an address on, the best read that gives it.
fn note_read(best: &mut [u8], wanted: &[u8], addr: u64, read: &SeatRead)
    requires few { length best.old ≤ 4096 }
    requires size { length wanted.now ≡ length best.old }
    ensures size { length best.new ≡ length best.old }
    ensures noted { (i : ℕ) → i < length best.old
        → get_or best.new i 0 ≡ better read.now (further addr i) (get_or wanted.now i 0) (get_or best.old i 0) }
{
    let rank = read.rank();
    let (from, to) = read.places(addr, best.len());
    for place in from..to {
        if read.told(addr.wrapping_add(place as u64)) == Seen::Byte(wanted[place]) {
            best[place] = best[place].max(rank);
        }
    }
}

/// Notes for each of these bytes, which stand from an address on, the best of the reads that give it, if one is better than what
/// is noted.
fn note_reads(best: &mut [u8], wanted: &[u8], addr: u64, reads: &[SeatRead])
    requires few { length best.old ≤ 4096 }
    requires size { length wanted.now ≡ length best.old }
    ensures size { length best.new ≡ length best.old }
    ensures noted { (i : ℕ) → i < length best.old → (least : Worth) → nat_le (rank (worth_of least)) (get_or best.new i 0)
        ≡ (gives_byte (worth_so least reads.now) (further addr i) (get_or wanted.now i 0)
        || nat_le (rank (worth_of least)) (get_or best.old i 0)) }
{
    let mut rest = reads;
    while let Some((read, later)) = rest.split_first() {
        note_read(best, wanted, addr, read);
        rest = later;
    }
}

/// The least of these ranks; that of full reliance where there is none.
fn least(ranks: &[u8]) -> u8
    ensures { (k : ℕ) → k ≤ 4 → nat_le k result ≡ list_all (nat_le k) ranks.now }
{
    let mut least = FULL_RANK;
    let mut rest = ranks;
    while let Some((rank, behind)) = rest.split_first() {
        least = least.min(*rank);
        rest = behind;
    }
    least
}

/// How far these bytes, which stand from an address on, rest on reads: the rank of the worst of the best reads that give each; 0 where
/// no read gives one.
fn rank_of_bytes(
    alloc: Global,
    reads: &[SeatRead],
    addr: u64,
    wanted: &[u8],
) -> Result<u8, NoMemory>
    requires { length wanted.now ≤ 4096 }
    ensures { IfOk result (λ found. (least : Worth)
        → gives_bytes (worth_so least reads.now) addr wanted.now ≡ nat_le (rank (worth_of least)) found) }
{
    let mut best = vec![in alloc; 0; wanted.len()]?;
    note_reads(best.as_mut_slice(), wanted, addr, reads);
    Ok(least(best.as_slice()))
}

/// The same of the text of a part, with the zero that ends it.
fn rank_of_text(alloc: Global, reads: &[SeatRead], part: &Part, text: &[u8]) -> Result<u8, NoMemory>
    requires sound { IsSound part.now }
    requires fits { fits_part part.now text.now ≡ true }
    ensures { IfOk result (λ found. (least : Worth)
        → gives_text (worth_so least reads.now) part.now text.now ≡ nat_le (rank (worth_of least)) found) }
{
    match *part {
        Part::Text { addr, .. } => {
            let mut wanted = Vec::from_slice(alloc, text)?;
            wanted.push(0)?;
            rank_of_bytes(alloc, reads, addr, wanted.as_slice())
        }
        Part::Value { addr, .. } => rank_of_bytes(alloc, reads, addr, text),
    }
}

/// The same of the texts of a plan, which can have them.
pub fn rank_of_texts(
    alloc: Global,
    reads: &[SeatRead],
    plan: Plan,
    texts: &[Text],
) -> Result<u8, NoMemory>
    requires { fit_parts plan texts.now ≡ true }
    ensures { IfOk result (λ found. (least : Worth)
        → gives_texts (worth_so least reads.now) plan texts.now ≡ nat_le (rank (worth_of least)) found) }
{
    let mut parts = plan;
    let mut rest = texts;
    let mut found = FULL_RANK;
    while let Some(part) = parts.first() {
        let Some((text, behind)) = rest.split_first() else {
            return Ok(found);
        };
        found = found.min(rank_of_text(alloc, reads, &part, text.items())?);
        parts.drop_first();
        rest = behind;
    }
    Ok(found)
}

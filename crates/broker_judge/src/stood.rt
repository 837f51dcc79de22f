//! Whether texts stood so in a caller's memory, as far as a seat's reads tell: at some moment the newest read of each byte gave it.

ghost use Rattle.std.specs.Prelude.{◌≡◌, ◌≤◌, ◌<◌, ℕ, length, get_or, set, true, false, IfOk};
ghost use Rattle.arg_capture.specs.Plans.{IsSound};
ghost use Rattle.broker_verdict.specs.SeatCopies.{fit_parts, fits_part, stood, stood_all};
ghost use Rattle.hist_model.specs.Copies.{further};
ghost use Rattle.broker_judge.specs.Copied.{told_by, told_so, worth_so};
ghost use Rattle.broker_judge.specs.Reads.{seen_of};
ghost use Rattle.broker_judge.specs.Stood.{given, stood_from, wrong_in};

use crate::reads::{SeatRead, Seen, Worth};
use arg_capture::{Part, Plan};
use hist_model::text::Text;
use std::alloc::Global;
use sys_abi::memory::NoMemory;

/// Whether a byte is given now that is wanted, and was given before or not, where one more read tells this of it.
fn is_given(told: Seen, wanted: u8, was: bool) -> bool
    ensures { result ≡ given (seen_of told) wanted was }
{
    match told {
        Seen::Byte(byte) => byte == wanted,
        Seen::Unmapped => false,
        Seen::Unread => was,
    }
}

/// Notes at a place whether its byte is given now, and returns how many bytes aren't, of which there were so many.
fn note_at(right: &mut [bool], wrong: usize, place: usize, is: bool) -> usize
    requires few { length right.old ≤ 4096 }
    requires place { place < length right.old }
    requires wrong { wrong ≡ wrong_in right.old }
    ensures noted { right.new ≡ set right.old place is }
    ensures wrong { result ≡ wrong_in right.new }
{
    let was = right[place];
    right[place] = is;
    if was {
        if is { wrong } else { wrong + 1 }
    } else {
        if is { wrong - 1 } else { wrong }
    }
}

/// Notes for each of these bytes, which stand from an address on, whether it is given when one more read was made; returns how many
/// aren't, of which there were so many.
fn note_read(right: &mut [bool], wrong: usize, wanted: &[u8], addr: u64, read: &SeatRead) -> usize
    requires few { length right.old ≤ 4096 }
    requires size { length wanted.now ≡ length right.old }
    requires wrong { wrong ≡ wrong_in right.old }
    ensures size { length right.new ≡ length right.old }
    ensures noted { (i : ℕ) → i < length right.old
        → get_or right.new i false ≡ given (told_by read.now (further addr i)) (get_or wanted.now i 0) (get_or right.old i false) }
    ensures wrong { result ≡ wrong_in right.new }
{
    let mut wrong = wrong;
    let (from, to) = read.places(addr, right.len());
    for place in from..to {
        let told = read.told(addr.wrapping_add(place as u64));
        let is = is_given(told, wanted[place], right[place]);
        wrong = note_at(right, wrong, place, is);
    }
    wrong
}

/// The same of a read if it is of this worth; any other tells nothing.
fn note_worth(
    right: &mut [bool],
    wrong: usize,
    wanted: &[u8],
    addr: u64,
    read: &SeatRead,
    least: Worth,
) -> usize
    requires few { length right.old ≤ 4096 }
    requires size { length wanted.now ≡ length right.old }
    requires wrong { wrong ≡ wrong_in right.old }
    ensures size { length right.new ≡ length right.old }
    ensures noted { (i : ℕ) → i < length right.old
        → get_or right.new i false ≡ given (told_so least read.now (further addr i)) (get_or wanted.now i 0) (get_or right.old i false) }
    ensures wrong { result ≡ wrong_in right.new }
{
    if read.is_worth(least) {
        note_read(right, wrong, wanted, addr, read)
    } else {
        wrong
    }
}

/// Whether these bytes, which stand from an address on, were all given at some moment by the newest of the reads of this worth until
/// then, which are given with the oldest first.
fn stood_bytes(
    alloc: Global,
    reads: &[SeatRead],
    least: Worth,
    addr: u64,
    wanted: &[u8],
) -> Result<bool, NoMemory>
    requires { length wanted.now ≤ 4096 }
    ensures { IfOk result (λ b. b ≡ stood_from (worth_so least reads.now) addr wanted.now) }
{
    if wanted.is_empty() {
        return Ok(true);
    }
    let mut right = vec![in alloc; false; wanted.len()]?;
    let mut wrong = wanted.len();
    let mut rest = reads;
    while let Some((read, later)) = rest.split_first() {
        wrong = note_worth(right.as_mut_slice(), wrong, wanted, addr, read, least);
        if wrong == 0 {
            return Ok(true);
        }
        rest = later;
    }
    Ok(false)
}

/// Whether a text of a part, with the zero that ends it, stood so at some moment.
pub fn stood_text(
    alloc: Global,
    reads: &[SeatRead],
    least: Worth,
    part: &Part,
    text: &[u8],
) -> Result<bool, NoMemory>
    requires sound { IsSound part.now }
    requires fits { fits_part part.now text.now ≡ true }
    ensures { IfOk result (λ b. b ≡ stood (worth_so least reads.now) part.now text.now) }
{
    match *part {
        Part::Text { addr, .. } => {
            let mut wanted = Vec::from_slice(alloc, text)?;
            wanted.push(0)?;
            stood_bytes(alloc, reads, least, addr, wanted.as_slice())
        }
        Part::Value { addr, .. } => stood_bytes(alloc, reads, least, addr, text),
    }
}

/// The same of each of the texts of a plan, which can have them: each stood so at some moment of its own.
pub fn stood_all(
    alloc: Global,
    reads: &[SeatRead],
    least: Worth,
    plan: Plan,
    texts: &[Text],
) -> Result<bool, NoMemory>
    requires { fit_parts plan texts.now ≡ true }
    ensures { IfOk result (λ b. b ≡ stood_all (worth_so least reads.now) plan texts.now) }
{
    let mut parts = plan;
    let mut rest = texts;
    while let Some(part) = parts.first() {
        let Some((text, behind)) = rest.split_first() else {
            return Ok(false);
        };
        if !stood_text(alloc, reads, least, &part, text.items())? {
            return Ok(false);
        }
        parts.drop_first();
        rest = behind;
    }
    Ok(true)
}

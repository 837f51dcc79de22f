//! Which byte of the texts that an effect rests on is known worst, and by which read.

use crate::calls::Call;
use crate::reasons::Case;
use crate::words::text_name;
use arg_capture::{Part, Plan};
use audit_log::line::LineBuffer;
use broker_judge::called::texts_of;
use broker_judge::copies::{Copied, newest_copy};
use broker_judge::reads::{SeatRead, Seen, Worth};
use hist_model::event::What;
use hist_model::text::Text;
use sys_abi::memory::NoMemory;

/// A byte of a text, by the places of the text and of the byte, and the best read that has it, with its rank.
#[derive(Clone, Copy)]
pub(crate) struct Weak {
    rank: u8,
    pub(crate) part: usize,
    pub(crate) byte: usize,
    pub(crate) read: Option<usize>,
}

/// Nothing is weak.
fn no_weak() -> Weak {
    Weak {
        rank: 4,
        part: 0,
        byte: 0,
        read: None,
    }
}

/// The plan of a call.
pub(crate) fn plan_of(call: &Call) -> Plan {
    Plan::of(call.called.nr, &call.called.args)
}

/// The address of a part.
pub(crate) fn address_of(part: &Part) -> u64 {
    match *part {
        Part::Text { addr, .. } | Part::Value { addr, .. } => addr,
    }
}

/// How many bytes of a text are read: a value has no zero behind it.
pub(crate) fn count_of(part: &Part, text: &[u8]) -> usize {
    match part {
        Part::Text { .. } => text.len() + 1,
        Part::Value { .. } => text.len(),
    }
}

/// The byte of a text at a place: zero behind its end.
pub(crate) fn byte_at(text: &[u8], place: usize) -> u8 {
    match text.get(place) {
        Some(byte) => *byte,
        None => 0,
    }
}

/// Adds the byte of a text.
pub(crate) fn push_byte(
    line: &mut LineBuffer,
    call: &Call,
    part: usize,
    byte: usize,
) -> Result<(), NoMemory> {
    line.push("byte ")?;
    line.push_number(byte as u64)?;
    line.push(" of the ")?;
    line.push(text_name(call.called.nr, part))
}

/// The best read that gives a byte, the earliest of those, with its rank; 0 where none gives it.
fn best_read(reads: &[SeatRead], addr: u64, wanted: u8) -> (u8, Option<usize>) {
    let mut rank = 0;
    let mut best = None;
    for place in 0..reads.len() {
        let read = &reads[place];
        if rank < read.rank() && read.told(addr) == Seen::Byte(wanted) {
            rank = read.rank();
            best = Some(place);
        }
    }
    (rank, best)
}

/// The weaker of what was found so far and the weakest byte of a text at a place of its plan.
fn weaker(found: Weak, reads: &[SeatRead], part: &Part, at: usize, text: &[u8]) -> Weak {
    let mut weak = found;
    for byte in 0..count_of(part, text) {
        let addr = address_of(part).wrapping_add(byte as u64);
        let (rank, read) = best_read(reads, addr, byte_at(text, byte));
        if rank < weak.rank {
            weak = Weak {
                rank,
                part: at,
                byte,
                read,
            };
        }
    }
    weak
}

/// The weakest of the bytes of texts: the first of those with the worst reads.
fn weakest_of_texts(reads: &[SeatRead], plan: Plan, texts: &[Text]) -> Weak {
    let mut parts = plan;
    let mut weak = no_weak();
    for at in 0..texts.len() {
        if let Some(part) = parts.first() {
            weak = weaker(weak, reads, &part, at, texts[at].items());
            parts.drop_first();
        }
    }
    weak
}

/// What the newest of the reads of this worth tell of an address.
fn newest_at(reads: &[SeatRead], least: Worth, addr: u64) -> Seen {
    let mut newest = Seen::Unread;
    for read in reads {
        let told = read.told(addr);
        if read.is_worth(least) && told != Seen::Unread {
            newest = told;
        }
    }
    newest
}

/// The most bytes of a part.
fn most_of(part: &Part) -> u64 {
    match *part {
        Part::Text { limit, .. } => limit,
        Part::Value { size, .. } => size,
    }
}

/// The first byte that the reads of this worth lack of a part.
fn missing_in(reads: &[SeatRead], least: Worth, part: &Part) -> Option<usize> {
    for byte in 0..most_of(part) {
        match newest_at(reads, least, address_of(part).wrapping_add(byte)) {
            Seen::Byte(0) => {
                if matches!(part, Part::Text { .. }) {
                    return None;
                }
            }
            Seen::Byte(_) => {}
            Seen::Unmapped => return None,
            Seen::Unread => return Some(byte as usize),
        }
    }
    None
}

/// The first part and byte that the reads of this worth lack.
pub(crate) fn missing(reads: &[SeatRead], least: Worth, plan: Plan) -> (usize, usize) {
    let mut parts = plan;
    for at in 0..4 {
        if let Some(part) = parts.first() {
            if let Some(byte) = missing_in(reads, least, &part) {
                return (at, byte);
            }
            parts.drop_first();
        }
    }
    (0, 0)
}

/// The newest copy by the reads of this worth.
pub(crate) fn copy_by(case: &Case<'_>, least: Worth) -> Result<Copied, NoMemory> {
    newest_copy(
        case.judge.alloc,
        case.seat.reads.as_slice(),
        least,
        plan_of(case.call),
    )
}

/// The last read that is worth so much.
fn last_worth(reads: &[SeatRead], rank: u8) -> Option<usize> {
    let mut found = None;
    for place in 0..reads.len() {
        if rank <= reads[place].rank() {
            found = Some(place);
        }
    }
    found
}

/// The first byte that the copy by the reads of this worth lacks, with the last read of the worth below; none where it is whole.
fn lack(case: &Case<'_>, least: Worth, below: u8) -> Result<Option<Weak>, NoMemory> {
    let reads = case.seat.reads.as_slice();
    let (part, byte) = match copy_by(case, least)? {
        Copied::Whole(_) => return Ok(None),
        Copied::Faulty(_) => (0, 0),
        Copied::Missing => missing(reads, least, plan_of(case.call)),
    };
    Ok(Some(Weak {
        rank: below,
        part,
        byte,
        read: last_worth(reads, below),
    }))
}

/// The first lack of the copies by reads of each worth, the least first.
fn first_lack(case: &Case<'_>) -> Result<Weak, NoMemory> {
    if let Some(weak) = lack(case, Worth::Foreign, 0)? {
        return Ok(weak);
    }
    if let Some(weak) = lack(case, Worth::Stale, 1)? {
        return Ok(weak);
    }
    if let Some(weak) = lack(case, Worth::Fresh, 2)? {
        return Ok(weak);
    }
    Ok(match lack(case, Worth::Valid, 3)? {
        Some(weak) => weak,
        None => no_weak(),
    })
}

/// The weakest byte of what the event rests on.
pub(crate) fn weakest(case: &Case<'_>) -> Result<Weak, NoMemory> {
    match case.what {
        What::Act { request, .. } => {
            let texts = texts_of(case.judge.alloc, request.get())?;
            Ok(weakest_of_texts(
                case.seat.reads.as_slice(),
                plan_of(case.call),
                texts.as_slice(),
            ))
        }
        What::AddfdPut { .. } => first_lack(case),
        _ => Ok(no_weak()),
    }
}

//! The session of each call.

ghost use Rattle.std.specs.Prelude.{◌≡◌, IfOk, None, get_or, replicate};
ghost use Rattle.audit_log.specs.Places.{call_in};
ghost use Rattle.audit_log.specs.Served.{TellsSessions, noted};

use crate::kept_calls::CallTable;
use crate::session::SessionRecord;
use std::alloc::Global;
use sys_abi::memory::NoMemory;

/// Notes a number for a call, if it is for one.
pub fn note(found: &mut Vec<Option<usize>>, call: Option<usize>, number: usize)
    ensures { found.new.items ≡ noted call number found.old.items }
{
    let Some(place) = call else {
        return;
    };
    if place < found.len() {
        found[place] = Some(number);
    }
}

/// Nothing for so many calls.
pub fn none_found(alloc: Global, room: usize) -> Result<Vec<Option<usize>>, NoMemory>
    ensures { IfOk result (λ found. found.items ≡ replicate room None) }
{
    let mut found = Vec::new(alloc);
    for _ in 0..room {
        found.push(None)?;
    }
    Ok(found)
}

/// Of each place below `room`, the row of the last session for the call there, by what is kept of the calls.
pub fn served_calls(
    alloc: Global,
    room: usize,
    calls: &CallTable,
    sessions: &[SessionRecord],
) -> Result<Vec<Option<usize>>, NoMemory>
    ensures { IfOk result (λ found. TellsSessions (call_in calls.now.received) sessions.now room found.items) }
{
    let mut found = none_found(alloc, room)?;
    for row in 0..sessions.len() {
        let call = calls.received_near(sessions[row].place, row);
        note(&mut found, call, row);
    }
    Ok(found)
}

/// What is kept for a place; none past the end.
pub fn place_at(places: &[Option<usize>], place: usize) -> Option<usize>
    ensures { result ≡ get_or places.now place None }
{
    match places.get(place) {
        Some(found) => *found,
        None => None,
    }
}

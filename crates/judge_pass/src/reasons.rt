//! The lines of events that show why a clause is broken.

ghost use Rattle.std.specs.Prelude.{◌≡◌, ◌++◌, OnOk};
ghost use Rattle.hist_model.specs.ReportJournal.{event_line};

use crate::calls::Call;
use crate::judge::Judge;
use crate::seats::Seat;
use audit_log::event::push_what;
use audit_log::line::LineBuffer;
use audit_log::words::push_actor;
use hist_model::event::{Actor, Event, What};
use hist_model::policy::Policy;
use model_kernel::Kernel;
use sys_abi::memory::NoMemory;

/// A worker's event that breaks a clause, by what was kept before it: what it did, the events before it, the worker's seat, and the
/// call that it has in hand, with its number.
#[derive(Clone, Copy)]
pub(crate) struct Case<'a> {
    pub(crate) judge: &'a Judge,
    pub(crate) policy: &'a Policy,
    pub(crate) kernel: &'a Kernel,
    pub(crate) before: &'a [Event],
    pub(crate) what: &'a What,
    pub(crate) worker: usize,
    pub(crate) seat: &'a Seat,
    pub(crate) number: usize,
    pub(crate) call: &'a Call,
}

/// Adds the journal's line of the event at a place, without its end.
fn push_event(line: &mut LineBuffer, place: u64, event: &Event) -> Result<(), NoMemory> {
    line.push_number(place)?;
    line.push(" ")?;
    push_actor(line, &event.who)?;
    line.push(" ")?;
    push_what(line, &event.what)
}

/// Adds the journal's line of the event at a place.
pub(crate) fn push_event_line(
    line: &mut LineBuffer,
    place: u64,
    event: &Event,
) -> Result<(), NoMemory>
    ensures { OnOk result (line.new ≡ line.old ++ event_line place event.now) }
{
    line.push_number(place)?;
    line.push(" ")?;
    push_actor(line, &event.who)?;
    line.push(" ")?;
    push_what(line, &event.what)?;
    line.push("\n")
}

/// Adds the journal's line of one of these events, without its end; nothing where there is none at the place.
pub(crate) fn push_event_at(
    line: &mut LineBuffer,
    events: &[Event],
    place: usize,
) -> Result<(), NoMemory> {
    match events.get(place) {
        Some(event) => push_event(line, place as u64, event),
        None => Ok(()),
    }
}

/// Begins a reason that an event shows.
pub(crate) fn begin_at(
    line: &mut LineBuffer,
    case: &Case<'_>,
    place: usize,
) -> Result<(), NoMemory> {
    line.push("  ")?;
    push_event_at(line, case.before, place)?;
    line.push(": ")
}

/// Adds a reason that an event shows.
pub(crate) fn push_at(
    line: &mut LineBuffer,
    case: &Case<'_>,
    place: usize,
    text: &str,
) -> Result<(), NoMemory> {
    begin_at(line, case, place)?;
    line.push(text)?;
    line.push("\n")
}

/// Adds a reason that no event shows.
pub(crate) fn push_plain(line: &mut LineBuffer, text: &str) -> Result<(), NoMemory> {
    line.push("  ")?;
    line.push(text)?;
    line.push("\n")
}

/// Adds a reason that the seat's effect shows.
pub(crate) fn push_effect(
    line: &mut LineBuffer,
    case: &Case<'_>,
    text: &str,
) -> Result<(), NoMemory> {
    let Some(effect) = case.seat.effect else {
        return Ok(());
    };
    match case.judge.done.get(effect) {
        Some(done) => push_at(line, case, done.place, text),
        None => Ok(()),
    }
}

/// Whether an actor is a worker of this number.
pub(crate) fn is_worker(who: &Actor, worker: usize) -> bool {
    match who {
        Actor::Worker(number) => usize::from(*number) == worker,
        _ => false,
    }
}

/// Whether it is a good check of an id.
fn is_good_check(what: &What, wanted: u64) -> bool {
    match what {
        What::Check { id, answer: Ok(()) } => *id == wanted,
        _ => false,
    }
}

/// Where the call's id was last found valid.
fn checked_at(case: &Case<'_>) -> Option<usize> {
    let mut found = None;
    for place in case.seat.received_at..case.before.len() {
        let event = &case.before[place];
        if is_worker(&event.who, case.worker) && is_good_check(&event.what, case.call.called.id) {
            found = Some(place);
        }
    }
    found
}

/// Adds where the last good check was, or that there was none.
pub(crate) fn push_check(
    line: &mut LineBuffer,
    case: &Case<'_>,
    none: &str,
) -> Result<(), NoMemory> {
    match checked_at(case) {
        Some(place) => push_at(line, case, place, "the last good check of this call"),
        None => push_at(line, case, case.seat.received_at, none),
    }
}

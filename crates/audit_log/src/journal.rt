//! The journal: a line for each event.

ghost use Rattle.std.specs.Prelude.{◌≡◌, ◌+◌, ◌<◌, ◌^◌, ◌++◌, OnOk, reverse};
ghost use Rattle.hist_model.specs.ReportJournal.{event_line, journal, journal_line, lines_of};
ghost use Rattle.audit_log.specs.Journal.{event_rest};
ghost use Rattle.audit_log.specs.Written.{Wrote};

use crate::error::ReportError;
use crate::event::push_what;
use crate::line::LineBuffer;
use crate::numbering::Numbering;
use crate::part::{write_if_many, write_line, write_title};
use crate::words::push_actor;
use hist_model::event::Event;
use hist_model::history::History;
use io_edge::sink::Sink;
use std::alloc::Global;
use sys_abi::memory::NoMemory;

/// Writes the journal of a history: `journal N` and a line for each of its N events, from the oldest on.
///
/// `WriteFault` comes only where the sink's count of faults rose. After an error the sink took a prefix of the journal.
pub fn write_journal<O: Sink>(
    alloc: Global,
    history: &History,
    out: &mut O,
) -> Result<(), ReportError>
    ensures { Wrote (O.state out.old) (journal history.now.events) result (O.state out.new) }
{
    let mut line = LineBuffer::new(alloc);
    write_title(&mut line, "journal", history.len(), out)?;
    write_events(history.events(), &mut line, out)
}

/// Writes the lines of the events, from the oldest on, many lines at a time.
fn write_events<O: Sink>(
    events: &[Event],
    line: &mut LineBuffer,
    out: &mut O,
) -> Result<(), ReportError>
    ensures { Wrote (O.state out.old) (lines_of journal_line (reverse events.now)) result (O.state out.new) }
{
    line.clear();
    let mut number = Numbering::of(0);
    for place in 0..events.len() {
        push_counted(line, &mut number, &events[place])?;
        write_if_many(line, out)?;
    }
    write_line(line, out)
}

/// Adds the line of the event at a place, and counts on to the next place.
#[inline(always)]
fn push_counted(line: &mut LineBuffer, place: &mut Numbering, event: &Event) -> Result<(), NoMemory>
    requires { place.old + 1 < 2 ^ 64 }
    ensures line { OnOk result (line.new ≡ line.old ++ event_line place.old event.now) }
    ensures next { OnOk result (place.new ≡ place.old + 1) }
{
    place.push_to(line)?;
    push_rest(line, event)?;
    place.advance();
    Ok(())
}

/// Adds what the line of an event has after the event's place.
#[inline(always)]
fn push_rest(line: &mut LineBuffer, event: &Event) -> Result<(), NoMemory>
    ensures { OnOk result (line.new ≡ line.old ++ event_rest event.now) }
{
    line.push(" ")?;
    push_actor(line, &event.who)?;
    line.push(" ")?;
    push_what(line, &event.what)?;
    line.push("\n")
}

/// Adds the line of the event at a place.
pub fn push_event(line: &mut LineBuffer, place: usize, event: &Event) -> Result<(), NoMemory>
    ensures { OnOk result (line.new ≡ line.old ++ event_line place event.now) }
{
    line.push_number(place as u64)?;
    push_rest(line, event)
}

//! The calls: a line for each call that a task entered.

ghost use Rattle.std.specs.Prelude.{◌≡◌, ◌<◌, ◌++◌, OnOk, get_or, length};
ghost use Rattle.std.specs.List.{flat_map};
ghost use Rattle.hist_model.specs.ReportCalls.{call_line_of, calls, outcome_text};
ghost use Rattle.audit_log.specs.Places.{Rise};
ghost use Rattle.audit_log.specs.Records.{line_at, recorded_by};
ghost use Rattle.audit_log.specs.Written.{Wrote};

use crate::error::ReportError;
use crate::line::LineBuffer;
use crate::part::{write_if_many, write_line, write_title};
use crate::records::{CallRecord, CallRecords};
use crate::report::Report;
use crate::words::{push_actor, push_call, push_errno};
use hist_model::event::{Actor, Event, What};
use hist_model::history::History;
use hist_model::report::Outcome;
use io_edge::sink::Sink;
use std::alloc::Global;
use sys_abi::memory::NoMemory;

impl Report<'_> {
    /// Writes the calls.
    pub(crate) fn write_calls<O: Sink>(&self, alloc: Global, out: &mut O) -> Result<(), ReportError>
        ensures { Wrote (O.state out.old) (calls self.now.history.now.events) result (O.state out.new) }
    {
        let entered = &self.tables.calls.entered;
        let mut line = LineBuffer::new(alloc);
        write_title(&mut line, "calls", entered.places.len(), out)?;
        write_entered(entered, self.history, &mut line, out)
    }
}

/// Writes the lines of the calls that were entered, from the oldest on. The other events have none, and aren't looked at.
fn write_entered<O: Sink>(
    entered: &CallRecords,
    history: &History,
    line: &mut LineBuffer,
    out: &mut O,
) -> Result<(), ReportError>
    requires { Rise entered.now.places.items }
    ensures { Wrote (O.state out.old) (flat_map (line_at entered.now history.now.events) entered.now.places.items) result (O.state out.new) }
{
    line.clear();
    for row in 0..entered.places.len() {
        push_row(line, entered, history, row)?;
        write_if_many(line, out)?;
    }
    write_line(line, out)
}

/// Adds the line of the call in a row.
fn push_row(
    line: &mut LineBuffer,
    entered: &CallRecords,
    history: &History,
    row: usize,
) -> Result<(), NoMemory>
    requires within { row < length entered.now.places.items }
    requires rise { Rise entered.now.places.items }
    ensures { OnOk result (line.new ≡ line.old ++ line_at entered.now history.now.events (get_or entered.now.places.items row 0)) }
{
    let place = entered.places[row];
    match history.get(place) {
        Some(event) => push_recorded(line, place, event, entered.record_of(Some(row))),
        None => Ok(()),
    }
}

/// Adds the line of the call that an event enters, by what is kept of it; nothing where it enters none.
fn push_recorded(
    line: &mut LineBuffer,
    place: usize,
    event: &Event,
    kept: CallRecord,
) -> Result<(), NoMemory>
    ensures { OnOk result (line.new ≡ line.old ++ recorded_by kept place event.now.who event.now.what) }
{
    match &event.what {
        What::Enter { nr, .. } => push_call_line(
            line,
            place,
            &event.who,
            kept.pid.unwrap_or(0),
            *nr,
            kept.outcome,
        ),
        _ => Ok(()),
    }
}

/// Adds the line of a call. Apart from the loop, which asks this of few events.
#[inline(never)]
fn push_call_line(
    line: &mut LineBuffer,
    place: usize,
    who: &Actor,
    pid: u32,
    nr: i32,
    outcome: Outcome,
) -> Result<(), NoMemory>
    ensures { OnOk result (line.new ≡ line.old ++ call_line_of place who.now pid nr outcome) }
{
    line.push_number(place as u64)?;
    line.push(" ")?;
    push_actor(line, who)?;
    line.push(" pid=")?;
    line.push_number(u64::from(pid))?;
    line.push(" ")?;
    push_call(line, nr)?;
    line.push(" ")?;
    push_outcome(line, outcome)?;
    line.push("\n")
}

/// Adds the outcome of a call.
pub fn push_outcome(line: &mut LineBuffer, outcome: Outcome) -> Result<(), NoMemory>
    ensures { OnOk result (line.new ≡ line.old ++ outcome_text outcome) }
{
    match outcome {
        Outcome::Open => line.push("open"),
        Outcome::Returned(value) => line.push_signed(value),
        Outcome::Failed(error) => push_errno(line, error),
        Outcome::Restarted => line.push("restarted"),
        Outcome::Ended => line.push("ended"),
    }
}

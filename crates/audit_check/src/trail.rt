//! The trail: a line for each call of a history.

ghost use Rattle.std.specs.Prelude.{◌≡◌, ◌<◌, ℕ, List, IfOk, None, OnOk, get_or, length, option_copied, reverse};
ghost use Rattle.hist_model.specs.ReportAudit.{judging_by};
ghost use Rattle.hist_model.specs.declared.event.Event.{Event};
ghost use Rattle.audit_log.specs.Places.{call_in};
ghost use Rattle.audit_log.specs.Requests.{TellsInstalled};
ghost use Rattle.audit_log.specs.Tables.{TellsTables};
ghost use Rattle.audit_log.specs.Written.{Wrote};
ghost use Rattle.audit_check.specs.Trail.{trail};
ghost use Rattle.audit_log.specs.Served.{row_at};
ghost use Rattle.audit_check.specs.Traced.{TellsAnswers};

use crate::trace::{push_trace, trace_of};
use audit_log::error::ReportError;
use audit_log::kept_calls::CallTable;
use audit_log::line::LineBuffer;
use audit_log::part::{Part, write_lines};
use audit_log::served::{none_found, note, place_at, served_calls};
use audit_log::session::SessionRecord;
use audit_log::tables::Tables;
use hist_model::event::{Entered, Event, What};
use hist_model::history::History;
use hist_model::policy::Policy;
use io_edge::sink::Sink;
use std::alloc::Global;
use sys_abi::memory::NoMemory;

/// Writes the trail of a history, by its tables: for each call, from the oldest on, the places of its entry, of its session's receive,
/// second good check and effect that was done, and of the answer, and the rule that decided; `-` for what isn't there.
///
/// `WriteFault` comes only where the sink's count of faults rose. After an error the sink took a prefix of the trail.
pub fn write_trail<O: Sink>(
    alloc: Global,
    policy: &Policy,
    history: &History,
    tables: &Tables,
    out: &mut O,
) -> Result<(), ReportError>
    requires { TellsTables policy.now.rules history.now.events tables.now }
    ensures { Wrote (O.state out.old) (trail (judging_by policy.now.rules) history.now.events) result (O.state out.new) }
{
    let events = history.events();
    let sessions = tables.sessions.as_slice();
    let served = served_calls(alloc, events.len(), &tables.calls, sessions)?;
    let installed = answered_calls(alloc, events.len(), &tables.calls)?;
    let part = Trail {
        policy,
        sessions,
        served: served.as_slice(),
        installed: installed.as_slice(),
    };
    let mut line = LineBuffer::new(alloc);
    write_lines(&part, &mut line, events, out)
}

/// Of each place below `room`, the newest event that answered the call there by an installation, by what is kept of
/// the calls.
fn answered_calls(
    alloc: Global,
    room: usize,
    calls: &CallTable,
) -> Result<Vec<Option<usize>>, NoMemory>
    ensures { IfOk result (λ found. (H : List Event) → length H ≡ room → TellsInstalled H (call_in calls.now.answered) → TellsAnswers H room found.items) }
{
    let mut found = none_found(alloc, room)?;
    for place in 0..room {
        note(&mut found, calls.answered(place), place);
    }
    Ok(found)
}

/// The trail as a part that has a line for each call.
#[derive(Drop)]
struct Trail<'a> {
    policy: &'a Policy,
    /// What is kept of each session, from the oldest on.
    sessions: &'a [SessionRecord],
    /// Of each call, by its place, the row of its session.
    served: &'a [Option<usize>],
    /// Of each call, by its place, the event that answered it by an installation.
    installed: &'a [Option<usize>],
}

impl Trail<'_> {
    /// What is kept of the session of the call at a place.
    fn session_of(&self, place: usize) -> Option<&SessionRecord>
        ensures { option_copied result ≡ row_at self.now.sessions.now (get_or self.now.served.now place None) }
    {
        self.sessions.get(place_at(self.served, place)?)
    }
}

impl Part for Trail<'_> {
    ghost use Rattle.audit_check.specs.Traced.{traced_line};

    ghost text = { λ t. traced_line (judging_by t.policy.now.rules) t.sessions.now t.served.now t.installed.now };

    fn push_line(
        &self,
        line: &mut LineBuffer,
        before: &[Event],
        event: &Event,
    ) -> Result<(), NoMemory> {
        match &event.what {
            What::Enter {
                verdict: Entered::Notify { .. },
                ..
            } => {
                let place = before.len();
                let trace = trace_of(self.session_of(place), place_at(self.installed, place));
                push_trace(line, self.policy, place, &trace)
            }
            _ => Ok(()),
        }
    }
}

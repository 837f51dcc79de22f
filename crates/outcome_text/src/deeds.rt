//! What a session did for its call.

ghost use Rattle.std.specs.Prelude.{◌≡◌, ◌++◌, ◌&&◌, ◌||◌, [], IfOk, OnOk, codes, if◌then◌else◌, not, reverse};
ghost use Rattle.hist_model.specs.Kinds.{is_letgo, skips, starts};
ghost use Rattle.hist_model.specs.Look.{is_worker};
ghost use Rattle.hist_model.specs.ReportAudit.{session_at};
ghost use Rattle.hist_model.specs.ReportJournal.{request_text, what_text};
ghost use Rattle.hist_model.specs.ReportWords.{result_text};
ghost use Rattle.outcome_text.specs.Outcomes.{did, did_by, fate_of, fate_text};

use audit_log::event::push_what;
use audit_log::line::LineBuffer;
use audit_log::request::push_request;
use audit_log::session_facts::{is_letgo, starts};
use audit_log::words::push_result;
use hist_model::event::{Actor, Event, What};
use hist_model::request::Request;
use sys_abi::errno::Errno;
use sys_abi::memory::NoMemory;

/// What became of an effect that a later one took from sight.
fn fate_text(request: &Request) -> &'static str
    ensures { result.now ≡ fate_text request.now }
{
    match request {
        Request::Mount { .. } => " covered",
        Request::SetXattr { .. } => " replaced",
        _ => "",
    }
}

/// What became of the effect of a request with this answer, where it is out of sight.
fn fate_of(is_hidden: bool, request: &Request, answer: &Result<(), Errno>) -> &'static str
    ensures { result.now ≡ fate_of is_hidden request.now answer.now }
{
    match (is_hidden, answer) {
        (true, Ok(())) => fate_text(request),
        _ => "",
    }
}

/// Adds a line with what a worker did for a call.
fn push_act(
    line: &mut LineBuffer,
    is_hidden: bool,
    request: &Request,
    answer: &Result<(), Errno>,
) -> Result<(), NoMemory>
    ensures { OnOk result (line.new ≡ line.old ++ (codes " did " ++ request_text request.now ++ codes " " ++ result_text answer.now ++ fate_of is_hidden request.now answer.now ++ codes "\n")) }
{
    line.push(" did ")?;
    push_request(line, request)?;
    line.push(" ")?;
    push_result(line, answer)?;
    line.push(fate_of(is_hidden, request, answer))?;
    line.push("\n")
}

/// Adds a line with a step.
fn push_step(line: &mut LineBuffer, what: &What) -> Result<(), NoMemory>
    ensures { OnOk result (line.new ≡ line.old ++ (codes " did " ++ what_text what.now ++ codes "\n")) }
{
    line.push(" did ")?;
    push_what(line, what)?;
    line.push("\n")
}

/// Adds what a step did for the call, where that is out of sight or isn't.
fn push_deed(line: &mut LineBuffer, what: &What, is_hidden: bool) -> Result<(), NoMemory>
    ensures { OnOk result (line.new ≡ line.old ++ did_by is_hidden what.now) }
{
    match what {
        What::Act {
            request,
            answer,
            ..
        } => push_act(line, is_hidden, request.get(), answer),
        What::Plant { .. } => push_step(line, what),
        _ => Ok(()),
    }
}

/// Whether the event is a step of this worker, and no `Skip`.
fn is_step_of(event: &Event, worker: u8) -> bool
    ensures { result ≡ is_worker event.now.who worker && not (skips event.now.what) }
{
    match event.who {
        Actor::Worker(number) => number == worker && !matches!(event.what, What::Skip),
        _ => false,
    }
}

/// Adds what an event did for the call of the worker's session, and says whether it ends that session.
fn push_later(
    line: &mut LineBuffer,
    event: &Event,
    worker: u8,
    is_hidden: bool,
) -> Result<bool, NoMemory>
    ensures line { IfOk result (λ over. line.new ≡ line.old ++ (if is_worker event.now.who worker && not (skips event.now.what) then did_by is_hidden event.now.what else [])) }
    ensures over { IfOk result (λ over. over ≡ (is_worker event.now.who worker && not (skips event.now.what)) && (is_letgo event.now.what || starts event.now.what)) }
{
    if !is_step_of(event, worker) {
        return Ok(false);
    }
    push_deed(line, &event.what, is_hidden)?;
    Ok(is_letgo(&event.what) || starts(&event.what))
}

/// Adds what the session did that the worker began at a place, and whose effect is out of sight or isn't. Of any list of events, its
/// first step may be of any kind.
pub fn push_deeds(
    line: &mut LineBuffer,
    events: &[Event],
    place: usize,
    worker: u8,
    is_hidden: bool,
) -> Result<(), NoMemory>
    ensures { OnOk result (line.new ≡ line.old ++ did is_hidden (session_at worker place (reverse events.now))) }
{
    if place >= events.len() {
        return Ok(());
    }
    let first = &events[place].what;
    push_deed(line, first, is_hidden)?;
    if is_letgo(first) {
        return Ok(());
    }
    for later in place + 1..events.len() {
        if push_later(line, &events[later], worker, is_hidden)? {
            return Ok(());
        }
    }
    Ok(())
}

//! The checking of a report: the journal's lines, each with the step of the actor that it names, and then what stands behind
//! the journal.

ghost use Rattle.std.specs.Prelude.{◌≡◌, ◌+◌, ◌-◌, ◌^◌, ◌↔◌, ◌<◌, ◌≤◌, ℕ, List, ◌∷◌, [], true, length, IfOk, Some, bytes_eq};
ghost use Rattle.hist_model.specs.Legal.{Finished};
ghost use Rattle.hist_model.specs.PolicyRules.{IsPolicy};
ghost use Rattle.hist_model.specs.Look.{ev};
ghost use Rattle.hist_model.specs.ReportJournal.{event_line};
ghost use Rattle.hist_model.specs.declared.event.Actor.TheVariants.{Listener};
ghost use Rattle.hist_model.specs.declared.event.Event.{Event as EventValue};
ghost use Rattle.hist_model.specs.declared.event.What.TheVariants.{Close};
ghost use Rattle.hist_model.specs.declared.policy.Policy.{Policy as PolicyValue};
ghost use Rattle.hist_model.specs.declared.script.Script.{Script as ScriptValue};
ghost use Rattle.mediation.specs.Scheduled.{IsScheduled};
ghost use Rattle.model_kernel.specs.Kernels.{past};
ghost use Rattle.broker_machine.specs.Serving.{IsServed};
ghost use Rattle.audit_check.specs.Actors.{actor_in};
ghost use Rattle.audit_check.specs.Checked.{HasEnded, HasStepped, Serves, Tells, without_close};
ghost use Rattle.audit_check.specs.Lines.{lines};
ghost use Rattle.audit_check.specs.Pass.{HasRead};
ghost use Rattle.audit_check.specs.Reading.{Rest, behind, rest_of};

use crate::actor::actor_in;
use crate::compare::compared;
use crate::found::Checked;
use crate::line_ends::{count_in, split_line};
use crate::stages::{Ended, Left, Stepped};
use audit_log::journal::push_event;
use audit_log::line::LineBuffer;
use audit_log::tables::Tables;
use broker_machine::Machine;
use hist_model::event::{Actor, Event, What};
use hist_model::history::History;
use hist_model::policy::Policy;
use hist_model::script::Script;
use std::alloc::Global;
use sys_abi::memory::NoMemory;

/// Whether a line is that of an event at a place.
fn is_line_of(
    scratch: &mut LineBuffer,
    place: usize,
    event: &Event,
    line: &[u8],
) -> Result<bool, NoMemory>
    ensures { IfOk result (λ b. b ≡ bytes_eq (event_line place event.now) line.now) }
{
    scratch.clear();
    push_event(scratch, place, event)?;
    Ok(scratch.bytes() == line)
}

/// Whether a line is that of the listener's close at a place.
fn is_close_line(scratch: &mut LineBuffer, place: usize, line: &[u8]) -> Result<bool, NoMemory>
    ensures { IfOk result (λ b. b ≡ bytes_eq (event_line place (ev Listener Close)) line.now) }
{
    let event = Event {
        who: Actor::Listener,
        what: What::Close,
    };
    is_line_of(scratch, place, &event, line)
}

/// Whether a line is that of the newest event.
fn is_newest_line(
    history: &History,
    scratch: &mut LineBuffer,
    line: &[u8],
) -> Result<bool, NoMemory>
    requires { 0 < length history.now.events }
    ensures { IfOk result (λ b. (e : EventValue) (K : List EventValue) → history.now.events ≡ e ∷ K → b ≡ bytes_eq (event_line (length K) e) line.now) }
{
    let place = history.len() - 1;
    match history.get(place) {
        Some(event) => is_line_of(scratch, place, event, line),
        None => unreachable!(),
    }
}

/// The line of a task or a worker, which takes its turn.
fn turn(
    alloc: Global,
    policy: &Policy,
    machine: &mut Machine,
    scratch: &mut LineBuffer,
    who: &Actor,
    line: &[u8],
) -> Result<Stepped, NoMemory>
    requires served { IsServed policy.now machine.old }
    requires scheduled { IsScheduled who.now }
    ensures { IfOk result (λ s. (more : ℕ) → actor_in line.now ≡ Some who.now → HasStepped policy.now machine.old line.now more s machine.new) }
{
    machine.turn(alloc, policy, who)?;
    let same = is_newest_line(machine.history(), scratch, line)?;
    if same {
        Ok(Stepped::Went)
    } else {
        Ok(Stepped::Faulty)
    }
}

/// The line of the listener, which is closed where no more events are to come.
fn close(
    machine: &Machine,
    scratch: &mut LineBuffer,
    line: &[u8],
    more: u64,
) -> Result<Stepped, NoMemory>
    ensures { IfOk result (λ s. (P : PolicyValue) → IsServed P machine.now → actor_in line.now ≡ Some Listener → HasStepped P machine.now line.now more s machine.now) }
{
    if more > 0 {
        return Ok(Stepped::Faulty);
    }
    let same = is_close_line(scratch, machine.history().len(), line)?;
    if same {
        Ok(Stepped::Closed)
    } else {
        Ok(Stepped::Faulty)
    }
}

/// The line of an actor.
fn named(
    alloc: Global,
    policy: &Policy,
    machine: &mut Machine,
    scratch: &mut LineBuffer,
    who: &Actor,
    line: &[u8],
    more: u64,
) -> Result<Stepped, NoMemory>
    requires served { IsServed policy.now machine.old }
    requires named { actor_in line.now ≡ Some who.now }
    ensures { IfOk result (λ s. HasStepped policy.now machine.old line.now more s machine.new) }
{
    match who {
        Actor::Start => Ok(Stepped::Faulty),
        Actor::Listener => close(machine, scratch, line, more),
        Actor::Task(_) | Actor::Worker(_) => turn(alloc, policy, machine, scratch, who, line),
    }
}

/// A line behind that of the start, where so many more events are to come.
fn step(
    alloc: Global,
    policy: &Policy,
    machine: &mut Machine,
    scratch: &mut LineBuffer,
    line: &[u8],
    more: u64,
) -> Result<Stepped, NoMemory>
    requires served { IsServed policy.now machine.old }
    ensures { IfOk result (λ s. HasStepped policy.now machine.old line.now more s machine.new) }
{
    let Some(who) = actor_in(alloc, line)? else {
        return Ok(Stepped::Faulty);
    };
    named(alloc, policy, machine, scratch, &who, line, more)
}

/// The rules keep their format.
fn rules_hold(policy: &Policy)
    ensures { IsPolicy policy.now }
{
    let _rules = &policy.rules;
}

/// The lines of the journal behind that of the start, of which there are to be so many.
fn events<'a>(
    alloc: Global,
    policy: &Policy,
    machine: &mut Machine,
    scratch: &mut LineBuffer,
    start: Left<'a>,
    count: u64,
) -> Result<Ended<'a>, NoMemory>
    requires policy { IsPolicy policy.now }
    requires served { IsServed policy.now machine.old }
    requires room { start.number + length start.text.now < 2 ^ 32 - 1 }
    ensures serves { IfOk result (λ ended. Serves policy.now machine.old.kernel.script ended machine.new) }
    ensures ended { IfOk result (λ ended. (bytes : List ℕ) → HasRead policy.now machine.old.kernel.script bytes start.entry.number (lines start.entry.text.now) (behind policy.now (past machine.old.kernel) count) → HasEnded policy.now machine.old.kernel.script bytes ended (past machine.new.kernel)) }
{
    let mut text = start.text;
    let mut number = start.number;
    let mut more = count;
    while more > 0 {
        number += 1;
        if text.is_empty() {
            return Ok(Ended::Faulty(number));
        }
        let (line, rest) = split_line(text);
        more -= 1;
        let stepped = step(alloc, policy, machine, scratch, line, more)?;
        text = rest;
        match stepped {
            Stepped::Went => {}
            Stepped::Closed => return Ok(Ended::Closed(Left { text, number })),
            Stepped::Faulty => return Ok(Ended::Faulty(number)),
        }
    }
    Ok(Ended::Open(Left { text, number }))
}

/// What stands behind the journal of this history.
fn rest(
    alloc: Global,
    policy: &Policy,
    history: History,
    finished: bool,
    left: Left<'_>,
) -> Result<Checked, NoMemory>
    requires policy { IsPolicy policy.now }
    requires room { left.number + length left.text.now < 2 ^ 32 - 1 }
    requires finished { (finished ≡ true) ↔ Finished (without_close history.events) }
    ensures { IfOk result (λ found. (S : ScriptValue) (bytes : List ℕ) → HasRead policy.now S bytes left.entry.number (lines left.entry.text.now) (Rest history.events (lines (rest_of policy.now history.events))) → Tells policy.now S bytes found) }
{
    let tables = Tables::of(alloc, policy, &history)?;
    match compared(alloc, policy, &history, &tables, left.text)? {
        None => Ok(Checked::Yes {
            history,
            finished,
            tables,
        }),
        Some(ends) => Ok(Checked::No {
            line: left.number + ends as u32 + 1,
        }),
    }
}

/// What stands behind a journal that ended so.
fn ended_at(
    alloc: Global,
    policy: &Policy,
    machine: Machine,
    ended: Ended<'_>,
) -> Result<Checked, NoMemory>
    requires policy { IsPolicy policy.now }
    requires serves { Serves policy.now machine.kernel.script ended machine }
    ensures { IfOk result (λ found. (S : ScriptValue) (bytes : List ℕ) → HasEnded policy.now S bytes ended.entry (past machine.kernel) → Tells policy.now S bytes found) }
{
    match ended {
        Ended::Open(left) => {
            let finished = machine.finished();
            rest(alloc, policy, machine.into_history(), finished, left)
        }
        Ended::Closed(left) => {
            let finished = machine.finished();
            let (_script, history) = machine.closed()?;
            rest(alloc, policy, history, finished, left)
        }
        Ended::Faulty(line) => Ok(Checked::No { line }),
    }
}

/// A journal whose title tells so many events, and what stands behind it.
fn journal(
    alloc: Global,
    policy: &Policy,
    script: Script,
    left: Left<'_>,
    count: u64,
) -> Result<Checked, NoMemory>
    requires policy { IsPolicy policy.now }
    requires some { 0 < count }
    requires room { left.number + length left.text.now < 2 ^ 32 - 1 }
    ensures { IfOk result (λ found. (bytes : List ℕ) → HasRead policy.now script bytes left.entry.number (lines left.entry.text.now) (behind policy.now [] count) → Tells policy.now script bytes found) }
{
    let number = left.number + 1;
    if left.text.is_empty() {
        return Ok(Checked::No { line: number });
    }
    let (line, text) = split_line(left.text);
    let mut machine = Machine::new(alloc, script)?;
    let mut scratch = LineBuffer::new(alloc);
    let same = is_newest_line(machine.history(), &mut scratch, line)?;
    if !same {
        return Ok(Checked::No { line: number });
    }
    let start = Left { text, number };
    let ended = events(alloc, policy, &mut machine, &mut scratch, start, count - 1)?;
    ended_at(alloc, policy, machine, ended)
}

/// Checks a report of at most 33,554,432 bytes: it is that of one legal history of the policy and the script, whichever schedule
/// made it, or there is a first line, counted from 1, with which it begins no such report (`IsFaultLine`). A piece behind the
/// last line's end is a line too, and where all lines begin a report, and more should follow, the fault is behind the last.
///
/// `NoMemory` comes only for want of memory.
pub fn check_report(
    alloc: Global,
    policy: &Policy,
    script: Script,
    report: &[u8],
) -> Result<Checked, NoMemory>
    requires { length report.now ≤ 33554432 }
    ensures { IfOk result (λ found. Tells policy.now script report.now found) }
{
    rules_hold(policy);
    if report.is_empty() {
        return Ok(Checked::No { line: 1 });
    }
    let (title, text) = split_line(report);
    match count_in(alloc, title)? {
        Some(count) => journal(alloc, policy, script, Left { text, number: 1 }, count),
        None => Ok(Checked::No { line: 1 }),
    }
}

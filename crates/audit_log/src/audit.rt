//! The audit: a line for each session.

ghost use Rattle.std.specs.Prelude.{◌≡◌, ◌++◌, ◌||◌, OnOk, codes, decimal, is_some, length};
ghost use Rattle.std.specs.List.{flat_map};
ghost use Rattle.hist_model.specs.Decisions.{rule_name};
ghost use Rattle.hist_model.specs.ReportJournal.{title};
ghost use Rattle.hist_model.specs.ReportWords.{call_text};
ghost use Rattle.hist_model.specs.ReportAudit.{answer_of, answer_text, arrival_of, arrival_text, audit, audit_line_of, finding_text, judging_by, rule_of, rule_text};
ghost use Rattle.audit_log.specs.Audited.{audited, named, session_line};
ghost use Rattle.audit_log.specs.Written.{Wrote};

use crate::error::ReportError;
use crate::kept_calls::CallTable;
use crate::line::LineBuffer;
use crate::part::{write_if_many, write_line, write_title};
use crate::report::Report;
use crate::session::SessionRecord;
use crate::session_facts::Facts;
use crate::words::{push_back, push_call};
use hist_model::event::Back;
use hist_model::policy::Policy;
use hist_model::report::{Arrival, Finding};
use io_edge::sink::Sink;
use policy_eval::rule_name;
use std::alloc::Global;
use sys_abi::memory::NoMemory;

impl Report<'_> {
    /// Writes the audit.
    pub(crate) fn write_audit<O: Sink>(&self, alloc: Global, out: &mut O) -> Result<(), ReportError>
        ensures { Wrote (O.state out.old) (audit (judging_by self.now.policy.now.rules) self.now.history.now.events) result (O.state out.new) }
    {
        let mut line = LineBuffer::new(alloc);
        write_titled(
            self.policy,
            &self.tables.calls,
            self.tables.sessions.as_slice(),
            &mut line,
            out,
        )
    }
}

/// Writes the title, with the number of sessions, and their lines.
fn write_titled<O: Sink>(
    policy: &Policy,
    calls: &CallTable,
    sessions: &[SessionRecord],
    line: &mut LineBuffer,
    out: &mut O,
) -> Result<(), ReportError>
    ensures { Wrote (O.state out.old) (title (codes "audit") (length sessions.now) ++ flat_map (session_line (judging_by policy.now.rules) calls.now) sessions.now) result (O.state out.new) }
{
    write_title(line, "audit", sessions.len(), out)?;
    write_sessions(policy, calls, sessions, line, out)
}

/// Writes the lines of the sessions, from the oldest on.
fn write_sessions<O: Sink>(
    policy: &Policy,
    calls: &CallTable,
    sessions: &[SessionRecord],
    line: &mut LineBuffer,
    out: &mut O,
) -> Result<(), ReportError>
    ensures { Wrote (O.state out.old) (flat_map (session_line (judging_by policy.now.rules) calls.now) sessions.now) result (O.state out.new) }
{
    line.clear();
    for row in 0..sessions.len() {
        push_row(line, policy, calls, &sessions[row], row)?;
        write_if_many(line, out)?;
    }
    write_line(line, out)
}

/// Adds the line of a session, which has this row.
fn push_row(
    line: &mut LineBuffer,
    policy: &Policy,
    calls: &CallTable,
    session: &SessionRecord,
    row: usize,
) -> Result<(), NoMemory>
    ensures { OnOk result (line.new ≡ line.old ++ session_line (judging_by policy.now.rules) calls.now session.now) }
{
    let number = calls.number_received(session.place, row);
    push_session(line, policy, session, number)
}

/// What was sent, else the number that was installed.
pub(crate) fn answer(back: Option<Back>, number: Option<u32>) -> Option<Back>
    ensures { result ≡ answer_of back number }
{
    match (back, number) {
        (Some(back), _) => Some(back),
        (None, Some(number)) => Some(Back::Value(i64::from(number))),
        (None, None) => None,
    }
}

/// Whether the answer arrived: one was sent, or a descriptor was installed.
pub fn arrival(facts: &Facts, number: Option<u32>) -> Arrival
    ensures { result ≡ arrival_of (facts.now.sent || is_some number) facts.now.lost }
{
    if facts.sent || number.is_some() {
        Arrival::Sent
    } else if facts.lost {
        Arrival::Lost
    } else {
        Arrival::Unsent
    }
}

/// Adds the line of a session for whose call this number was installed.
fn push_session(
    line: &mut LineBuffer,
    policy: &Policy,
    session: &SessionRecord,
    number: Option<u32>,
) -> Result<(), NoMemory>
    ensures { OnOk result (line.new ≡ line.old ++ audit_line_of (judging_by policy.now.rules) session.now.place session.now.worker (named session.now.id session.now.nr) (audited number session.now)) }
{
    push_notified(line, session.place, session.worker, session.id, session.nr)?;
    push_finding(line, policy, session.finding())?;
    push_reply(
        line,
        answer(session.back, number),
        arrival(&session.facts, number),
    )
}

/// Adds the rule that decided, and the verdict.
pub fn push_finding(
    line: &mut LineBuffer,
    policy: &Policy,
    finding: Finding,
) -> Result<(), NoMemory>
    ensures { OnOk result (line.new ≡ line.old ++ (codes " rule=" ++ rule_text (judging_by policy.now.rules) (rule_of finding) ++ codes " verdict=" ++ finding_text finding)) }
{
    line.push(" rule=")?;
    push_rule(line, policy, rule_of(finding))?;
    line.push(" verdict=")?;
    line.push(finding_word(finding))
}

/// Adds what was answered, and whether it arrived, and ends the line.
fn push_reply(line: &mut LineBuffer, answer: Option<Back>, arrival: Arrival) -> Result<(), NoMemory>
    ensures { OnOk result (line.new ≡ line.old ++ (codes " answer=" ++ answer_text answer ++ codes " reply=" ++ arrival_text arrival ++ codes "\n")) }
{
    line.push(" answer=")?;
    push_answer(line, answer)?;
    line.push(" reply=")?;
    line.push(arrival_word(arrival))?;
    line.push("\n")
}

/// Adds the place of a session, its worker, and its notification's id and call.
fn push_notified(
    line: &mut LineBuffer,
    place: usize,
    worker: u8,
    id: u64,
    nr: i32,
) -> Result<(), NoMemory>
    ensures { OnOk result (line.new ≡ line.old ++ (decimal place ++ codes " w" ++ decimal worker ++ codes " id=" ++ decimal id ++ codes " " ++ call_text nr)) }
{
    line.push_number(place as u64)?;
    line.push(" w")?;
    line.push_number(u64::from(worker))?;
    line.push(" id=")?;
    line.push_number(id)?;
    line.push(" ")?;
    push_call(line, nr)
}

/// The place of the rule that decided.
pub fn rule_of(finding: Finding) -> Option<usize>
    ensures { result ≡ rule_of finding }
{
    match finding {
        Finding::Spent(rule)
        | Finding::Granted(rule)
        | Finding::Denied(rule)
        | Finding::Passed(rule)
        | Finding::Injected(rule) => Some(rule),
        Finding::Gone | Finding::Open | Finding::Fault => None,
    }
}

/// The name of the rule at a place; empty where there is none.
fn name_of(policy: &Policy, place: usize) -> &[u8]
    ensures { result.now ≡ rule_name policy.now.rules place }
{
    if place < policy.rules.items().len() {
        rule_name(policy, place)
    } else {
        &[]
    }
}

/// Adds a rule's name, or `-` where there is none.
pub fn push_rule(
    line: &mut LineBuffer,
    policy: &Policy,
    rule: Option<usize>,
) -> Result<(), NoMemory>
    ensures { OnOk result (line.new ≡ line.old ++ rule_text (judging_by policy.now.rules) rule) }
{
    match rule {
        Some(place) => line.push_bytes(name_of(policy, place)),
        None => line.push("-"),
    }
}

/// The word for what a session came to.
fn finding_word(finding: Finding) -> &'static str
    ensures { result.now ≡ finding_text finding }
{
    match finding {
        Finding::Gone => "gone",
        Finding::Open => "open",
        Finding::Fault => "fault",
        Finding::Spent(_) => "spent",
        Finding::Granted(_) => "grant",
        Finding::Denied(_) => "deny",
        Finding::Passed(_) => "pass",
        Finding::Injected(_) => "inject",
    }
}

/// Adds what was answered, or `-`.
fn push_answer(line: &mut LineBuffer, answer: Option<Back>) -> Result<(), NoMemory>
    ensures { OnOk result (line.new ≡ line.old ++ answer_text answer) }
{
    match answer {
        Some(back) => push_back(line, back),
        None => line.push("-"),
    }
}

/// The word for whether an answer arrived.
pub fn arrival_word(arrival: Arrival) -> &'static str
    ensures { result.now ≡ arrival_text arrival }
{
    match arrival {
        Arrival::Sent => "sent",
        Arrival::Lost => "lost",
        Arrival::Unsent => "none",
    }
}

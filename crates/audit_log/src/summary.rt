//! The summary: one line of counts.

ghost use Rattle.std.specs.Prelude.{◌≡◌, ◌+◌, ◌++◌, ◌∷◌, [], IfOk, OnOk, decimal, map};
ghost use Rattle.hist_model.specs.ReportAudit.{judging_by};
ghost use Rattle.hist_model.specs.Report.{audits, summary};
ghost use Rattle.audit_log.specs.Audited.{audited};
ghost use Rattle.audit_log.specs.CallTable.{number_in};
ghost use Rattle.audit_log.specs.Counts.{counted, counts_of, counts_words, event_words, finding_words, no_counts, plus, summary_words};
ghost use Rattle.audit_log.specs.Written.{Wrote};

use crate::audit::{answer, arrival};
use crate::count::{denied, faulty, gone, granted, injected, lost, passed};
use crate::error::ReportError;
use crate::kept_calls::CallTable;
use crate::line::LineBuffer;
use crate::part::write_line;
use crate::report::Report;
use crate::session::SessionRecord;
use hist_model::event::Back;
use hist_model::report::Audit;
use io_edge::sink::Sink;
use std::alloc::Global;
use sys_abi::memory::NoMemory;

/// What a summary tells: how many events, calls and answers a history has, and how many of its sessions came to what.
#[derive(Clone, Copy, PartialEq, Eq, Debug)]
pub struct Counts {
    pub events: u64,
    /// The calls that tasks entered.
    pub calls: u64,
    /// Those of them that were listed for the broker.
    pub notified: u64,
    pub answered: u64,
    pub granted: u64,
    /// The sessions that were denied what they asked, among them those whose rule's times were spent.
    pub denied: u64,
    pub passed: u64,
    /// The sessions that got a descriptor of the broker's.
    pub injected: u64,
    /// The sessions that couldn't read the arguments.
    pub faults: u64,
    /// The sessions that found their caller or its call gone.
    pub gone: u64,
    /// The answers that reached no call.
    pub lost: u64,
}

/// The sum of two counts, if it is below 2^64. Nothing of which there is more has room in memory.
fn sum(one: u64, more: u64) -> Result<u64, NoMemory>
    ensures { IfOk result (λ n. n ≡ one + more) }
{
    one.checked_add(more).ok_or(NoMemory)
}

impl Counts {
    /// Those of no history.
    pub fn none() -> Counts
        ensures { result ≡ no_counts }
    {
        Counts {
            events: 0,
            calls: 0,
            notified: 0,
            answered: 0,
            granted: 0,
            denied: 0,
            passed: 0,
            injected: 0,
            faults: 0,
            gone: 0,
            lost: 0,
        }
    }

    /// These and those of another history together.
    pub fn plus(&self, more: &Counts) -> Result<Counts, NoMemory>
        ensures { IfOk result (λ c. c ≡ plus self.now more.now) }
    {
        Ok(Counts {
            events: sum(self.events, more.events)?,
            calls: sum(self.calls, more.calls)?,
            notified: sum(self.notified, more.notified)?,
            answered: sum(self.answered, more.answered)?,
            granted: sum(self.granted, more.granted)?,
            denied: sum(self.denied, more.denied)?,
            passed: sum(self.passed, more.passed)?,
            injected: sum(self.injected, more.injected)?,
            faults: sum(self.faults, more.faults)?,
            gone: sum(self.gone, more.gone)?,
            lost: sum(self.lost, more.lost)?,
        })
    }
}

impl Report<'_> {
    /// Writes the summary, and tells the counts in it.
    pub(crate) fn write_summary<O: Sink>(
        &self,
        alloc: Global,
        counts: &mut Counts,
        out: &mut O,
    ) -> Result<(), ReportError>
        ensures wrote { Wrote (O.state out.old) (summary (judging_by self.now.policy.now.rules) self.now.history.now.events) result (O.state out.new) }
        ensures counts { OnOk result (counts.new ≡ counts_of (judging_by self.now.policy.now.rules) self.now.history.now.events) }
    {
        *counts = self.counts(alloc)?;
        write_counts(alloc, counts, out)
    }

    /// The counts of the history.
    fn counts(&self, alloc: Global) -> Result<Counts, NoMemory>
        ensures { IfOk result (λ c. c ≡ counts_of (judging_by self.now.policy.now.rules) self.now.history.now.events) }
    {
        let found = self.audits(alloc)?;
        Ok(self.counted(found.as_slice()))
    }

    /// The counts of the history, whose sessions came to these.
    fn counted(&self, found: &[Audit]) -> Counts
        ensures { result ≡ counted self.now.history.now.events found.now }
    {
        let calls = &self.tables.calls;
        let counts = self.tables.counts;
        let events = self.history.len();
        let entered = calls.entered.places.len();
        let installed = calls.answered.places.len();
        let answered = counts.sent + installed;
        Counts {
            events: events as u64,
            calls: entered as u64,
            notified: counts.notified as u64,
            answered: answered as u64,
            granted: granted(found) as u64,
            denied: denied(found) as u64,
            passed: passed(found) as u64,
            injected: injected(found) as u64,
            faults: faulty(found) as u64,
            gone: gone(found) as u64,
            lost: lost(found) as u64,
        }
    }

    /// The outcome of each session, the oldest first.
    fn audits(&self, alloc: Global) -> Result<Vec<Audit>, NoMemory>
        ensures { IfOk result (λ found. found.items ≡ audits (judging_by self.now.policy.now.rules) self.now.history.now.events self.now.history.now.events) }
    {
        audits_of(alloc, &self.tables.calls, self.tables.sessions.as_slice())
    }
}

/// The outcomes of these sessions.
fn audits_of(
    alloc: Global,
    calls: &CallTable,
    sessions: &[SessionRecord],
) -> Result<Vec<Audit>, NoMemory>
    ensures { IfOk result (λ found. found.items ≡ map (λ s. audited (number_in calls.now s.place) s) sessions.now) }
{
    let mut found = Vec::new(alloc);
    for row in 0..sessions.len() {
        let session = &sessions[row];
        let number = calls.number_received(session.place, row);
        push_audit(&mut found, session, number)?;
    }
    Ok(found)
}

/// Adds what came of a session for whose call this number was installed.
fn push_audit(
    found: &mut Vec<Audit>,
    session: &SessionRecord,
    number: Option<u32>,
) -> Result<(), NoMemory>
    ensures { OnOk result (found.new.items ≡ found.old.items ++ audited number session.now ∷ []) }
{
    let answer: Option<Back> = answer(session.back, number);
    found.push(Audit {
        finding: session.finding(),
        answer,
        arrival: arrival(&session.facts, number),
    })?;
    Ok(())
}

/// Adds a word and a count.
fn push_count(line: &mut LineBuffer, word: &str, count: u64) -> Result<(), NoMemory>
    ensures { OnOk result (line.new ≡ line.old ++ (word.now ++ decimal count)) }
{
    line.push(word)?;
    line.push_number(count)
}

/// Adds the numbers of events, calls, listed calls and answers.
#[tactic(auto, unfolding(crate::specs::Counts::event_words))]
fn push_events(line: &mut LineBuffer, counts: &Counts) -> Result<(), NoMemory>
    ensures { OnOk result (line.new ≡ line.old ++ event_words counts.now) }
{
    push_count(line, " events=", counts.events)?;
    push_count(line, " calls=", counts.calls)?;
    push_count(line, " notified=", counts.notified)?;
    push_count(line, " answered=", counts.answered)
}

/// Adds how many sessions came to what, and ends the line.
#[tactic(auto, unfolding(crate::specs::Counts::finding_words))]
fn push_findings(line: &mut LineBuffer, counts: &Counts) -> Result<(), NoMemory>
    ensures { OnOk result (line.new ≡ line.old ++ finding_words counts.now) }
{
    push_count(line, " granted=", counts.granted)?;
    push_count(line, " denied=", counts.denied)?;
    push_count(line, " passed=", counts.passed)?;
    push_count(line, " injected=", counts.injected)?;
    push_count(line, " faults=", counts.faults)?;
    push_count(line, " gone=", counts.gone)?;
    push_count(line, " lost=", counts.lost)?;
    line.push("\n")
}

/// Adds what a summary has behind its first word: each count with its name, and the byte that ends the line.
pub fn push_counts(line: &mut LineBuffer, counts: &Counts) -> Result<(), NoMemory>
    ensures { OnOk result (line.new ≡ line.old ++ counts_words counts.now) }
{
    push_events(line, counts)?;
    push_findings(line, counts)
}

/// The line of a summary with these counts.
fn summary_line(alloc: Global, counts: &Counts) -> Result<LineBuffer, NoMemory>
    ensures { IfOk result (λ line. line ≡ summary_words counts.now) }
{
    let mut line = LineBuffer::new(alloc);
    line.push("summary")?;
    push_counts(&mut line, counts)?;
    Ok(line)
}

/// Writes the line of a summary with these counts.
fn write_counts<O: Sink>(alloc: Global, counts: &Counts, out: &mut O) -> Result<(), ReportError>
    ensures { Wrote (O.state out.old) (summary_words counts.now) result (O.state out.new) }
{
    let line = summary_line(alloc, counts)?;
    write_line(&line, out)
}

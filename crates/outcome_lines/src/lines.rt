//! The lines of a history, by what is kept of its calls and its sessions.

ghost use Rattle.std.specs.List.{flat_map};
ghost use Rattle.std.specs.Prelude.{◌≡◌, ◌<◌, ◌+◌, ◌-◌, ◌^◌, ◌++◌, IfOk, OnOk, None, find, get_or, if◌then◌else◌, option_copied};
ghost use Rattle.hist_model.specs.ReportAudit.{judging_by, session_at};
ghost use Rattle.outcome_text.specs.Outcomes.{did, is_call_of};
ghost use Rattle.audit_log.specs.Served.{row_at};
ghost use Rattle.outcome_lines.specs.Lines.{gathered, has_place, lines_with, sight_in, sight_of, unnamed};
ghost use Rattle.outcome_lines.specs.Tables.{kept_at, kept_by, kept_line, kept_told, kept_told_if};

use crate::line::{Line, Sight, Told};
use audit_log::kept_calls::CallTable;
use audit_log::line::LineBuffer;
use audit_log::served::{place_at, served_calls};
use audit_log::session::SessionRecord;
use audit_log::tables::Tables;
use hist_model::event::{Entered, Event, What};
use hist_model::history::History;
use hist_model::policy::Policy;
use hist_model::request::{NodeRef, Request};
use hist_model::text::{TaskName, Text};
use outcome_text::calls::is_call_of;
use outcome_text::deeds::push_deeds;
use outcome_text::mark::Mark;
use outcome_text::names::task_names;
use std::alloc::Global;
use sys_abi::memory::NoMemory;

/// A history, its marks, and what is kept of its calls and its sessions.
#[derive(Clone, Copy, Drop)]
struct Kept<'a> {
    history: &'a History,
    marks: &'a [Mark],
    calls: &'a CallTable,
    /// What is kept of each session, from the oldest on.
    sessions: &'a [SessionRecord],
    /// Of each call, by its place, the row of its session.
    served: &'a [Option<usize>],
}

/// What would take from sight what a step did on a node.
fn sight_of(alloc: Global, what: &What, node: NodeRef) -> Result<Option<Sight>, NoMemory>
    ensures { IfOk result (λ sight. sight ≡ sight_of what.now node.ordinal) }
{
    let What::Act { request, .. } = what else {
        return Ok(None);
    };
    match request.get() {
        Request::Mount { .. } => Ok(Some(Sight::OnRoot(node))),
        Request::SetXattr { name, value, .. } => {
            let name = name.copied(alloc)?;
            let value = value.copied(alloc)?;
            Ok(Some(Sight::OnAttr { node, name, value }))
        }
        _ => Ok(None),
    }
}

/// What the filters say of a call, without the id of its notification.
fn unnamed(verdict: Entered) -> Entered
    ensures { result ≡ unnamed verdict }
{
    match verdict {
        Entered::Notify { .. } => Entered::Notify { id: 0 },
        _ => verdict,
    }
}

/// The worker that has a session in hand.
fn in_hand_by(session: &SessionRecord) -> Option<u8>
    ensures { result ≡ (if session.now.facts.shut then None else Some session.now.worker) }
{
    if session.facts.shut {
        None
    } else {
        Some(session.worker)
    }
}

/// The mark of the effect at a place.
fn mark_of(marks: &[Mark], place: usize) -> Option<&Mark>
    ensures { option_copied result ≡ find (has_place place) marks.now }
{
    marks.iter().find(|mark| mark.place == place)
}

impl Kept<'_> {
    /// What would take the effect at a place from sight, if there is one and it is marked.
    fn sight_at(&self, alloc: Global, place: Option<usize>) -> Result<Option<Sight>, NoMemory>
        ensures { IfOk result (λ sight. sight ≡ sight_in self.now.history.now.events self.now.marks.now place) }
    {
        let Some(place) = place else {
            return Ok(None);
        };
        let Some(mark) = mark_of(self.marks, place) else {
            return Ok(None);
        };
        match self.history.get(mark.place) {
            Some(event) => sight_of(alloc, &event.what, mark.node),
            None => Ok(None),
        }
    }

    /// What a session did, in the words of an outcome.
    fn deeds(
        &self,
        alloc: Global,
        session: &SessionRecord,
        is_hidden: bool,
    ) -> Result<Text, NoMemory>
        ensures { IfOk result (λ text. text ≡ did is_hidden (session_at session.now.worker session.now.place self.now.history.now.events)) }
    {
        let mut line = LineBuffer::new(alloc);
        push_deeds(
            &mut line,
            self.history.events(),
            session.place,
            session.worker,
            is_hidden,
        )?;
        Ok(Text::new(line.into_bytes()))
    }

    /// What is told of a session.
    fn told(&self, alloc: Global, session: &SessionRecord) -> Result<Told, NoMemory>
        ensures { IfOk result (λ told. told ≡ kept_told self.now.marks.now self.now.history.now.events session.now) }
    {
        let did = self.deeds(alloc, session, false)?;
        let did_unseen = self.deeds(alloc, session, true)?;
        let sight = self.sight_at(alloc, session.stages.effect)?;
        Ok(Told {
            worker: in_hand_by(session),
            finding: session.finding(),
            sent: session.facts.sent,
            lost: session.facts.lost,
            did,
            did_unseen,
            sight,
        })
    }

    /// What is told of the session of the call at a place, if it has one.
    fn told_at(&self, alloc: Global, place: usize) -> Result<Option<Told>, NoMemory>
        ensures { IfOk result (λ told. told ≡ kept_told_if self.now.marks.now self.now.history.now.events (row_at self.now.sessions.now (get_or self.now.served.now place None))) }
    {
        let Some(row) = place_at(self.served, place) else {
            return Ok(None);
        };
        match self.sessions.get(row) {
            Some(session) => Ok(Some(self.told(alloc, session)?)),
            None => Ok(None),
        }
    }

    /// Adds the line of the step at a place by which a task enters a call, behind so many calls of its own.
    fn push_entry(
        &self,
        alloc: Global,
        lines: &mut Vec<Line>,
        name: &TaskName,
        place: usize,
        before: u64,
        what: &What,
    ) -> Result<(), NoMemory>
        requires { before < 2 ^ 64 - 1 }
        ensures { OnOk result (lines.new.items ≡ lines.old.items ++ kept_line self.now.marks.now self.now.history.now.events self.now.calls.now (row_at self.now.sessions.now (get_or self.now.served.now place None)) name.now place before what.now) }
    {
        let What::Enter { nr, verdict, .. } = what else {
            return Ok(());
        };
        let name = name.copied(alloc)?;
        let session = self.told_at(alloc, place)?;
        lines.push(Line {
            name,
            number: before + 1,
            nr: *nr,
            verdict: unnamed(*verdict),
            came: self.calls.outcome(place),
            installed: self.calls.number(place).is_some(),
            session,
        })?;
        Ok(())
    }

    /// Adds the line of the event at a place, behind so many calls of the task, where it is a call that the task enters. Gives the
    /// number of the task's calls up to it.
    fn push_event(
        &self,
        alloc: Global,
        lines: &mut Vec<Line>,
        name: &TaskName,
        place: usize,
        before: u64,
        event: &Event,
    ) -> Result<u64, NoMemory>
        requires { before < 2 ^ 64 - 1 }
        ensures lines { IfOk result (λ after. lines.new.items ≡ lines.old.items ++ kept_at self.now.marks.now self.now.history.now.events self.now.calls.now self.now.sessions.now self.now.served.now name.now place before event.now) }
        ensures after { IfOk result (λ after. after ≡ before + (if is_call_of name.now event.now then 1 else 0)) }
    {
        if !is_call_of(event, name) {
            return Ok(before);
        }
        self.push_entry(alloc, lines, name, place, before, &event.what)?;
        Ok(before + 1)
    }

    /// Adds the lines of the calls of a task, from the oldest on.
    fn push_calls(
        &self,
        alloc: Global,
        lines: &mut Vec<Line>,
        name: &TaskName,
    ) -> Result<(), NoMemory>
        ensures { OnOk result (lines.new.items ≡ lines.old.items ++ gathered (kept_by self.now.marks.now self.now.history.now.events self.now.calls.now self.now.sessions.now self.now.served.now name.now) self.now.history.now.events) }
    {
        let events = self.history.events();
        let mut number = 0;
        for place in 0..events.len() {
            number = self.push_event(alloc, lines, name, place, number, &events[place])?;
        }
        Ok(())
    }

    /// Adds the lines of the calls of these tasks, one after another.
    fn push_all(
        &self,
        alloc: Global,
        lines: &mut Vec<Line>,
        names: &[TaskName],
    ) -> Result<(), NoMemory>
        ensures { OnOk result (lines.new.items ≡ lines.old.items ++ flat_map (λ n. gathered (kept_by self.now.marks.now self.now.history.now.events self.now.calls.now self.now.sessions.now self.now.served.now n) self.now.history.now.events) names.now) }
    {
        for name in names {
            self.push_calls(alloc, lines, name)?;
        }
        Ok(())
    }
}

/// The lines of a history by the policy that its workers had, and by the marks of what they did: the tasks in the order of their
/// names, and of each its calls, from the oldest on. Fails for want of memory alone.
pub fn lines_of(
    alloc: Global,
    policy: &Policy,
    history: &History,
    marks: &[Mark],
) -> Result<Vec<Line>, NoMemory>
    ensures { IfOk result (λ lines. lines.items ≡ lines_with (judging_by policy.now.rules) marks.now history.now.events) }
{
    let events = history.events();
    let tables = Tables::of(alloc, policy, history)?;
    let calls = &tables.calls;
    let sessions = tables.sessions.as_slice();
    let served = served_calls(alloc, events.len(), calls, sessions)?;
    let names = task_names(alloc, events)?;
    let kept = Kept {
        history,
        marks,
        calls,
        sessions,
        served: served.as_slice(),
    };
    let mut lines = Vec::new(alloc);
    kept.push_all(alloc, &mut lines, names.as_slice())?;
    Ok(lines)
}

//! The lines of a task's calls.

ghost use Rattle.std.specs.List.{flat_map};
ghost use Rattle.std.specs.Prelude.{◌≡◌, ◌<◌, ◌+◌, ◌-◌, ◌^◌, ◌++◌, IfOk, OnOk, None, get_or, if◌then◌else◌, length, option_copied, reverse};
ghost use Rattle.hist_model.specs.ReportAudit.{judging_by};
ghost use Rattle.hist_model.specs.ReportJournal.{lines_of};
ghost use Rattle.audit_log.specs.Served.{row_at};
ghost use Rattle.outcome_text.specs.Outcomes.{is_among, is_call_of};
ghost use Rattle.outcome_text.specs.Tables.{kept_text, lines_at, lines_by};

use crate::deeds::push_deeds;
use crate::words::{push_audit, push_entry};
use audit_log::kept_calls::CallTable;
use audit_log::line::LineBuffer;
use audit_log::served::place_at;
use audit_log::session::SessionRecord;
use hist_model::event::{Actor, Event, What};
use hist_model::policy::Policy;
use hist_model::text::TaskName;
use sys_abi::memory::NoMemory;

/// A history, and what is kept of its calls and its sessions.
#[derive(Clone, Copy, Drop)]
pub(crate) struct Kept<'a> {
    pub(crate) policy: &'a Policy,
    pub(crate) events: &'a [Event],
    pub(crate) calls: &'a CallTable,
    /// What is kept of each session, from the oldest on.
    pub(crate) sessions: &'a [SessionRecord],
    /// Of each call, by its place, the row of its session.
    pub(crate) served: &'a [Option<usize>],
    /// The places of the effects that a later one took from sight.
    pub(crate) hidden: &'a [usize],
}

/// Whether the event is a call that the task with this name enters.
pub fn is_call_of(event: &Event, name: &TaskName) -> bool
    ensures { result ≡ is_call_of name.now event.now }
{
    match (&event.who, &event.what) {
        (Actor::Task(task), What::Enter { .. }) => task == name,
        _ => false,
    }
}

impl Kept<'_> {
    /// What is kept of the session of the call at a place.
    fn session_of(&self, place: usize) -> Option<&SessionRecord>
        ensures { option_copied result ≡ row_at self.now.sessions.now (get_or self.now.served.now place None) }
    {
        self.sessions.get(place_at(self.served, place)?)
    }

    /// Whether the effect at a place, if there is one, is out of sight.
    fn is_hidden(&self, effect: Option<usize>) -> bool
        ensures { result ≡ is_among self.now.hidden.now effect }
    {
        match effect {
            Some(effect) => self.hidden.contains(&effect),
            None => false,
        }
    }

    /// Adds the words of the session that received a call, for which this number was installed, and what it did.
    fn push_session(
        &self,
        line: &mut LineBuffer,
        session: Option<&SessionRecord>,
        number: Option<u32>,
    ) -> Result<(), NoMemory>
        ensures { OnOk result (line.new ≡ line.old ++ kept_text (judging_by self.now.policy.now.rules) self.now.hidden.now (reverse self.now.events.now) number (option_copied session.entry)) }
    {
        match session {
            Some(session) => {
                push_audit(line, self.policy, session, number)?;
                let is_hidden = self.is_hidden(session.stages.effect);
                push_deeds(line, self.events, session.place, session.worker, is_hidden)
            }
            None => line.push(" rule=- verdict=- reply=-\n"),
        }
    }

    /// Adds the lines of the event at a place, behind so many calls of the task, where it is a call that the task enters. Gives the
    /// number of the task's calls up to it.
    fn push_event(
        &self,
        line: &mut LineBuffer,
        name: &TaskName,
        place: usize,
        before: u64,
        event: &Event,
    ) -> Result<u64, NoMemory>
        requires { before < 2 ^ 64 - 1 }
        ensures line { IfOk result (λ after. line.new ≡ line.old ++ lines_at (judging_by self.now.policy.now.rules) self.now.hidden.now (reverse self.now.events.now) self.now.calls.now self.now.sessions.now self.now.served.now name.now place before event.now) }
        ensures after { IfOk result (λ after. after ≡ before + (if is_call_of name.now event.now then 1 else 0)) }
    {
        if !is_call_of(event, name) {
            return Ok(before);
        }
        push_entry(
            line,
            name,
            before + 1,
            &event.what,
            self.calls.outcome(place),
        )?;
        self.push_session(line, self.session_of(place), self.calls.number(place))?;
        Ok(before + 1)
    }

    /// Adds the lines of the calls of a task, from the oldest on.
    pub(crate) fn push_calls(&self, line: &mut LineBuffer, name: &TaskName) -> Result<(), NoMemory>
        ensures { OnOk result (line.new ≡ line.old ++ lines_of (lines_by (judging_by self.now.policy.now.rules) self.now.hidden.now (reverse self.now.events.now) self.now.calls.now self.now.sessions.now self.now.served.now name.now) (reverse self.now.events.now)) }
    {
        let mut number = 0;
        for place in 0..self.events.len() {
            number = self.push_event(line, name, place, number, &self.events[place])?;
        }
        Ok(())
    }

    /// Adds the lines of the calls of these tasks, one after another.
    pub(crate) fn push_all(&self, line: &mut LineBuffer, names: &[TaskName]) -> Result<(), NoMemory>
        ensures { OnOk result (line.new ≡ line.old ++ flat_map (λ n. lines_of (lines_by (judging_by self.now.policy.now.rules) self.now.hidden.now (reverse self.now.events.now) self.now.calls.now self.now.sessions.now self.now.served.now n) (reverse self.now.events.now)) names.now) }
    {
        for name in names {
            self.push_calls(line, name)?;
        }
        Ok(())
    }
}

//! What the parts of a report have in common.

ghost use Rattle.std.specs.Prelude.{◌≡◌, ◌<◌, ◌∷◌, [], List, length, IfOk, OnOk, reverse};
ghost use Rattle.hist_model.specs.declared.event.Event.{Event};
ghost use Rattle.hist_model.specs.declared.policy.Rule.{Rule};
ghost use Rattle.audit_log.specs.Pass.{HasPast};
ghost use Rattle.audit_log.specs.Tables.{TellsTables};

use crate::call_pass::CallPass;
use crate::count::EventCounts;
use crate::kept_calls::CallTable;
use crate::session::SessionRecord;
use crate::session_table::SessionTable;
use hist_model::event::Event;
use hist_model::history::History;
use hist_model::policy::Policy;
use std::alloc::Global;
use sys_abi::memory::NoMemory;

/// What is kept of the calls and of the sessions of a history. Whoever writes several texts of one history makes it once.
#[derive(Drop)]
pub struct Tables {
    /// Of the calls.
    pub calls: CallTable,
    /// Of the sessions, the oldest first.
    pub sessions: Vec<SessionRecord>,
    /// Of the events.
    pub(crate) counts: EventCounts,
}

/// The calls and the sessions while the events are gone through, so that each event is looked at once.
#[derive(Drop)]
struct Pass {
    calls: CallPass,
    sessions: SessionTable,
    counts: EventCounts,
}

impl Pass {
    /// Before all events.
    fn new(alloc: Global) -> Pass
        ensures { (rules : List Rule) → HasPast rules [] result }
    {
        Pass {
            calls: CallPass::new(alloc),
            sessions: SessionTable::new(alloc),
            counts: EventCounts::none(),
        }
    }

    /// One more event, which has this place.
    fn note(&mut self, policy: &Policy, place: usize, event: &Event) -> Result<(), NoMemory>
        requires { place < usize.MAX }
        ensures { (K : List Event) → length K ≡ place → HasPast policy.now.rules K self.old → OnOk result (HasPast policy.now.rules (event.now ∷ K) self.new) }
    {
        self.counts.add(event);
        self.calls.note(place, event)?;
        self.sessions.note(policy, place, event)
    }

    /// All events, from the oldest on.
    fn note_all(&mut self, policy: &Policy, events: &[Event]) -> Result<(), NoMemory>
        ensures { HasPast policy.now.rules [] self.old → OnOk result (HasPast policy.now.rules (reverse events.now) self.new) }
    {
        for place in 0..events.len() {
            self.note(policy, place, &events[place])?;
        }
        Ok(())
    }
}

impl Tables {
    /// Of a history, by the policy that its workers had.
    pub fn of(alloc: Global, policy: &Policy, history: &History) -> Result<Tables, NoMemory>
        ensures { IfOk result (TellsTables policy.now.rules history.now.events) }
    {
        let mut pass = Pass::new(alloc);
        pass.note_all(policy, history.events())?;
        let Pass {
            calls,
            sessions,
            counts,
        } = pass;
        Ok(Tables {
            calls: calls.table(),
            sessions: sessions.rows,
            counts,
        })
    }
}

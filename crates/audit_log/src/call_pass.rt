//! What is kept of the calls while the events are gone through.

ghost use Rattle.std.specs.Prelude.{◌≡◌, ◌∷◌, [], List, length, OnOk};
ghost use Rattle.hist_model.specs.declared.event.Event.{Event};
ghost use Rattle.audit_log.specs.CallPass.{TellsPast, concerns_calls};
ghost use Rattle.audit_log.specs.Places.{Rise};
ghost use Rattle.audit_log.specs.Records.{record_in};
ghost use Rattle.audit_log.specs.Requests.{for_install, pending_call};

use crate::answer::{answered_call, installs, pending_call};
use crate::kept_calls::CallTable;
use crate::places::CallPlaces;
use crate::received::Ids;
use crate::records::CallRecords;
use crate::requests::PendingRequests;
use crate::tasks::TaskRecords;
use hist_model::event::{Event, What};
use std::alloc::Global;
use sys_abi::memory::NoMemory;

/// The calls while the events are gone through.
#[derive(Drop)]
pub(crate) struct CallPass {
    tasks: TaskRecords,
    ids: Ids,
    requests: PendingRequests,
    entered: CallRecords,
    received: CallPlaces,
    answered: CallPlaces,
}

/// Whether a step may tell something of a call.
fn concerns_calls(what: &What) -> bool
    ensures { result ≡ concerns_calls what.now }
{
    matches!(
        what,
        What::Spawn { answer: Ok(_), .. }
            | What::Enter { .. }
            | What::Native { .. }
            | What::Install { .. }
            | What::Resume { .. }
            | What::Deliver { .. }
            | What::Recv { answer: Ok(_) }
            | What::AddfdPut { answer: Ok(()), .. }
    )
}

impl CallPass {
    /// Before all events.
    pub(crate) fn new(alloc: Global) -> CallPass
        ensures { TellsPast [] result }
    {
        CallPass {
            tasks: TaskRecords::new(alloc),
            ids: Ids::new(alloc),
            requests: PendingRequests::new(alloc),
            entered: CallRecords::new(alloc),
            received: CallPlaces::new(alloc),
            answered: CallPlaces::new(alloc),
        }
    }

    /// The call for which a step of its task installs, if it does: the newest one, while nothing came of it.
    fn installs_for(&self, newest: Option<usize>, what: &What) -> Option<usize>
        ensures { Rise self.now.entered.places.items → result ≡ for_install what.now (pending_call newest (record_in self.now.entered)) }
    {
        if installs(what) {
            pending_call(&self.entered, newest)
        } else {
            None
        }
    }

    /// One more event, which has this place.
    pub(crate) fn note(&mut self, place: usize, event: &Event) -> Result<(), NoMemory>
        ensures { (K : List Event) → length K ≡ place → TellsPast K self.old → OnOk result (TellsPast (event.now ∷ K) self.new) }
    {
        if !concerns_calls(&event.what) {
            return Ok(());
        }
        let facts = self.tasks.of_actor(&event.who);
        let call = self.installs_for(facts.newest, &event.what);
        let answered = answered_call(&self.requests, call, &event.what);
        self.answered.note(place, answered)?;
        self.received.note(place, self.ids.received(&event.what))?;
        self.requests.note(call, &self.ids, &event.what)?;
        self.entered.note(place, facts, &event.what)?;
        self.tasks.note(place, event, facts)?;
        self.ids.note(place, &event.what)
    }

    /// What is kept when all events are past, where the places of the rows rise.
    pub(crate) fn table(self) -> CallTable
        requires entered { Rise self.entered.places.items }
        requires received { Rise self.received.places.items }
        requires answered { Rise self.answered.places.items }
        ensures entered { result.entered ≡ self.entered }
        ensures received { result.received ≡ self.received }
        ensures answered { result.answered ≡ self.answered }
    {
        CallTable {
            entered: self.entered,
            received: self.received,
            answered: self.answered,
        }
    }
}

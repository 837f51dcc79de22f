//! The requests for descriptors that have no installation yet, while the events are gone through.

ghost use Rattle.std.specs.Prelude.{◌≡◌, ◌++◌, ◌∷◌, ◌==◌, [], ℕ, OnOk, Option, if◌then◌else◌};
ghost use Rattle.hist_model.specs.Look.{is_place};
ghost use Rattle.hist_model.specs.ReportRequests.{without_first};
ghost use Rattle.audit_log.specs.Received.{place_in};
ghost use Rattle.audit_log.specs.Requests.{first_at, queue_in, queued};

use crate::received::Ids;
use hist_model::event::What;
use std::alloc::Global;
use std::collections::{BTreeMap, VecDeque};
use sys_abi::memory::NoMemory;

/// The requests of each call that have no installation yet, by the place of the call: the oldest first, each by whether it has SEND.
#[derive(Drop)]
pub(crate) struct PendingRequests {
    alloc: Global,
    queues: BTreeMap<usize, VecDeque<bool>>,
}

impl PendingRequests {
    /// The state before any event.
    pub(crate) fn new(alloc: Global) -> PendingRequests
        ensures { (c : ℕ) → queue_in result c ≡ [] }
    {
        PendingRequests {
            alloc,
            queues: BTreeMap::new(alloc),
        }
    }

    /// Whether the first request of a call has SEND, if there is a call.
    pub(crate) fn first_has_send(&self, call: Option<usize>) -> bool
        ensures { result ≡ first_at call (queue_in self.now) }
    {
        let Some(place) = call else {
            return false;
        };
        match self.queues.get(&place) {
            Some(queue) => queue.front().copied().unwrap_or(false),
            None => false,
        }
    }

    /// Takes the first request of a call away, if there is a call: it has its installation.
    fn take_first(&mut self, call: Option<usize>)
        ensures { (c : ℕ) → queue_in self.new c ≡ (if is_place call c then without_first (queue_in self.old c) else queue_in self.old c) }
    {
        let Some(place) = call else {
            return;
        };
        if let Some(queue) = self.queues.get_mut(&place) {
            queue.pop_front();
        }
    }

    /// Adds a request to those of a call.
    fn push(&mut self, call: Option<usize>, sends: bool) -> Result<(), NoMemory>
        ensures { OnOk result ((c : ℕ) → queue_in self.new c ≡ (if is_place call c then queue_in self.old c ++ sends ∷ [] else queue_in self.old c)) }
    {
        let Some(place) = call else {
            return Ok(());
        };
        if let Some(queue) = self.queues.get_mut(&place) {
            queue.push_back(sends)?;
            return Ok(());
        }
        let mut queue = VecDeque::new(self.alloc);
        queue.push_back(sends)?;
        self.queues.insert(place, queue)?;
        Ok(())
    }

    /// With one more step: whose call it is where it installs, and which calls the ids name before it.
    pub(crate) fn note(
        &mut self,
        call: Option<usize>,
        ids: &Ids,
        what: &What,
    ) -> Result<(), NoMemory>
        ensures { OnOk result ((c : ℕ) → queue_in self.new c ≡ queued what.now call (place_in ids.now) c (queue_in self.old c)) }
    {
        match what {
            What::Install { .. } => {
                self.take_first(call);
                Ok(())
            }
            What::AddfdPut {
                asked,
                answer: Ok(()),
            } => self.push(ids.named(asked.id), asked.has_send_flag()),
            _ => Ok(()),
        }
    }
}

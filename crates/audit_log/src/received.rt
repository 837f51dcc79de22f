//! The call of each received notification.

ghost use Rattle.std.specs.Prelude.{◌≡◌, ℕ, OnOk, None, Some, if◌then◌else◌, nat_eq};
ghost use Rattle.std.specs.HashMap.{get};
ghost use Rattle.hist_model.specs.ReportAudit.{is_notified};
ghost use Rattle.audit_log.specs.Received.{place_in, received_by};

use hist_model::event::{Entered, What};
use std::alloc::Global;
use std::collections::HashMap;
use sys_abi::memory::NoMemory;

/// The newest call with each id.
#[derive(Drop)]
pub(crate) struct Ids {
    /// The id of the last call that was listed, and its place. It is mostly this one that is received next.
    last: Option<(u64, usize)>,
    /// The places of those before, by their ids.
    places: HashMap<u64, usize>,
}

impl Ids {
    /// The state before any event.
    pub(crate) fn new(alloc: Global) -> Ids
        ensures { (x : ℕ) → place_in result x ≡ None }
    {
        Ids {
            last: None,
            places: HashMap::new(alloc),
        }
    }

    /// With one more step, which has this place.
    pub(crate) fn note(&mut self, place: usize, what: &What) -> Result<(), NoMemory>
        ensures { OnOk result ((x : ℕ) → place_in self.new x ≡ (if is_notified what.now x then Some place else place_in self.old x)) }
    {
        if let What::Enter {
            verdict: Entered::Notify { id },
            ..
        } = what
        {
            self.put_last()?;
            self.last = Some((*id, place));
        }
        Ok(())
    }

    /// Puts the last call that was listed to those before.
    fn put_last(&mut self) -> Result<(), NoMemory>
        ensures { OnOk result ((x : ℕ) → get nat_eq self.new.places x ≡ place_in self.old x) }
    {
        if let Some((id, place)) = self.last {
            self.places.insert(id, place)?;
        }
        Ok(())
    }

    /// The newest call with this id.
    pub(crate) fn named(&self, id: u64) -> Option<usize>
        ensures { result ≡ place_in self.now id }
    {
        match self.last {
            Some((last, place)) if last == id => Some(place),
            _ => self.places.get(&id).copied(),
        }
    }

    /// The call of the notification that a step receives.
    pub(crate) fn received(&self, what: &What) -> Option<usize>
        ensures { result ≡ received_by (place_in self.now) what.now }
    {
        match what {
            What::Recv { answer: Ok(notif) } => self.named(notif.id),
            _ => None,
        }
    }
}

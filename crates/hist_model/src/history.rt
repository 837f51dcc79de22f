//! The history: the events so far.

ghost use Rattle.std.specs.Prelude.{◌≡◌, ◌<◌, ◌≤◌, ◌-◌, ℕ, List, [], ◌∷◌, length, IfSome, IfNone, Some, OnOk, ◌==◌};

use crate::event::Event;
use crate::policy::Policy;
use crate::script::Script;
use std::alloc::Global;
use std::marker::Model;
use sys_abi::memory::NoMemory;

/// Where no event stands: a history has fewer than 2^64 events.
pub const NO_PLACE: usize = usize::MAX;

/// The events so far. Contracts see them as a list, the newest first, beside the room that is made for more.
pub struct History {
    events: Vec<Event>,
}

impl Model for History {
    ghost use Rattle.std.specs.Prelude.{reverse, vec_capacity, length, ◌-◌};
    ghost use Rattle.hist_model.specs.Histories.{Seen};

    ghost Value = { Seen };

    ghost view = { λ h. record { events = reverse h.events.items; spare = vec_capacity h.events - length h.events.items } };
}

// (written out, so that what letting one go comes to is proved here once, and not in each crate that owns one)
impl Drop for History {
    fn drop(self) {
        let History { events: _events } = self;
    }
}

impl History {
    ghost use Rattle.std.specs.Prelude.{reverse};
    ghost use Rattle.hist_model.specs.Look.{event_at};

    /// A history without events.
    pub fn new(alloc: Global) -> History
        ensures { result.events ≡ [] }
    {
        History {
            events: Vec::new(alloc),
        }
    }

    /// Makes room for n more events.
    pub fn ready(&mut self, n: usize) -> Result<(), NoMemory>
        ensures kept { self.new.events ≡ self.old.events }
        ensures room { OnOk result (n ≤ self.new.spare) }
    {
        self.events.reserve(n)?;
        Ok(())
    }

    /// Adds an event, for which there is room.
    #[tactic(auto, using(crate::proofs::Scans::reverse_push))]
    pub fn push(&mut self, event: Event)
        requires { 0 < self.old.spare }
        ensures events { self.new.events ≡ event ∷ self.old.events }
        ensures room { self.new.spare ≡ self.old.spare - 1 }
    {
        self.events.push_reserved(event);
    }

    /// The number of events.
    pub fn len(&self) -> usize
        ensures { result ≡ length self.now.events }
    {
        self.events.len()
    }

    /// Whether there is no event.
    pub fn is_empty(&self) -> bool
        ensures { result ≡ (length self.now.events == 0) }
    {
        self.events.is_empty()
    }

    /// The event at a place, counted from 0; none exactly from the length on.
    #[tactic(auto, using(crate::proofs::Scans::event_at_past))]
    pub fn get(&self, i: usize) -> Option<&Event>
        ensures some { IfSome result (λ e. event_at self.now.events i ≡ Some e.now) }
        ensures none { IfNone result (length self.now.events ≤ i) }
    {
        if i < self.events.len() {
            Some(&self.events[i])
        } else {
            None
        }
    }

    /// The events, the oldest first.
    pub fn events(&self) -> &[Event]
        ensures { self.now.events ≡ reverse result.now }
    {
        self.events.as_slice()
    }
}

/// What a state was set up with, and never changes: the policy, the container's script, where not all may work the number of the
/// last worker that may, and where workers are replaced after how many of their steps the one that took the last is. Clauses speak
/// of it; no value of it is made.
pub struct Setup {
    pub policy: Policy,
    pub script: Script,
    pub limit: Option<u8>,
    pub every: Option<u32>,
}

/// A state that keeps a history, and says what it was set up with.
pub trait Journalled {
    ghost use Rattle.hist_model.specs.Histories.{Seen};
    ghost use Rattle.hist_model.specs.declared.history.Setup.{Setup};

    ghost history: { Self → Seen };

    ghost setup: { Self → Setup };

    /// The history that it keeps.
    fn journal(&self) -> &History
        ensures { result.now ≡ history self.now };
}

//! What is told of histories.

ghost use Rattle.std.specs.Prelude.{◌≡◌, ◌≤◌, ◌<◌, ◌^◌, ◌+◌, ◌++◌, ◌∷◌, [], List, length, nat_le, OnOk};
ghost use Rattle.hist_model.specs.declared.event.Event.{Event};
ghost use Rattle.hist_model.specs.declared.policy.Policy.{Policy as PolicyValue};
ghost use Rattle.hist_model.specs.declared.script.Script.{Script as ScriptValue};
ghost use Rattle.outcome_text.specs.Sight as sight;
ghost use Rattle.explorer.specs.Taken.{event_limit};

use crate::found::{FoundOutcome, add_all, add_history};
use crate::one_by_one::Explored;
use hist_model::history::History;
use hist_model::policy::Policy;
use std::alloc::Global;
use sys_abi::memory::NoMemory;

/// So many events are explored at least, where a history is left.
pub(crate) const EVENT_LIMIT: u64 = 100_000_000;

/// How many histories there are, how many events they have together, and how many the longest; and what they come to.
#[derive(Drop, Debug)]
pub(crate) struct Tally {
    histories: u64,
    events: u64,
    longest: u64,
    outcomes: Vec<FoundOutcome>,
}

impl Tally {
    ghost use Rattle.explorer.specs.Telling.{TellsOf};

    /// Of no history.
    pub(crate) fn none(alloc: Global) -> Tally
        ensures { (P : PolicyValue) (S : ScriptValue) → TellsOf P S [] result }
    {
        Tally {
            histories: 0,
            events: 0,
            longest: 0,
            outcomes: Vec::new(alloc),
        }
    }

    /// How many histories there are.
    pub(crate) fn histories(&self) -> u64
        ensures { result ≡ self.now.histories }
    {
        self.histories
    }

    /// How many events they have.
    pub(crate) fn events(&self) -> u64
        ensures { result ≡ self.now.events }
    {
        self.events
    }

    /// Whether there are as many events as are explored at least.
    pub(crate) fn is_full(&self) -> bool
        ensures { result ≡ nat_le event_limit self.now.events }
    {
        EVENT_LIMIT <= self.events
    }

    /// With a history more, in which the effects at the `hidden` places are out of sight.
    pub(crate) fn note(
        &mut self,
        alloc: Global,
        policy: &Policy,
        history: &History,
        hidden: &[usize],
    ) -> Result<(), NoMemory>
        requires told { (S : ScriptValue) × (L : List (List Event)) × TellsOf policy.now S L self.old }
        requires room { self.old.events < event_limit }
        requires begun { 0 < length history.now.events }
        requires few { length history.now.events < 2 ^ 63 }
        ensures tells { OnOk result ((S : ScriptValue) (L : List (List Event)) → hidden.now ≡ sight.hidden S history.now.events → TellsOf policy.now S L self.old → TellsOf policy.now S (L ++ history.now.events ∷ []) self.new) }
        ensures events { OnOk result (self.new.events ≡ self.old.events + length history.now.events) }
    {
        add_history(alloc, &mut self.outcomes, policy, history, hidden)?;
        let events = history.len() as u64;
        self.histories += 1;
        self.events += events;
        self.longest = self.longest.max(events);
        Ok(())
    }

    /// With the histories of another one behind its own.
    pub(crate) fn join(&mut self, other: Tally) -> Result<(), NoMemory>
        requires told { (P : PolicyValue) × (S : ScriptValue) × (L M : List (List Event)) × TellsOf P S L self.old × TellsOf P S M other }
        requires few { self.old.events + other.events < 2 ^ 64 }
        ensures tells { OnOk result ((P : PolicyValue) (S : ScriptValue) (L M : List (List Event)) → TellsOf P S L self.old → TellsOf P S M other → TellsOf P S (L ++ M) self.new) }
        ensures events { OnOk result (self.new.events ≡ self.old.events + other.events) }
    {
        let Tally {
            histories,
            events,
            longest,
            outcomes,
        } = other;
        add_all(&mut self.outcomes, outcomes)?;
        self.histories += histories;
        self.events += events;
        self.longest = self.longest.max(longest);
        Ok(())
    }

    /// What exploring these came to, and whether no history is left.
    pub(crate) fn told(self, whole: bool) -> Explored
        ensures histories { result.histories ≡ self.histories }
        ensures events { result.events ≡ self.events }
        ensures longest { result.longest ≡ self.longest }
        ensures whole { result.whole ≡ whole }
        ensures outcomes { result.outcomes ≡ self.outcomes }
    {
        let Tally {
            histories,
            events,
            longest,
            outcomes,
        } = self;
        Explored {
            histories,
            events,
            longest,
            whole,
            outcomes,
        }
    }
}

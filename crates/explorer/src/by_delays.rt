//! The histories of one walk after another, told apart by their delays.

ghost use Rattle.std.specs.Prelude.{◌≡◌, ◌≤◌, ◌<◌, ◌^◌, ◌++◌, ◌∷◌, [], ℕ, List, length, nat_le, IfOk, OnOk};
ghost use Rattle.hist_model.specs.declared.policy.Policy.{Policy};
ghost use Rattle.hist_model.specs.declared.script.Script.{Script};
ghost use Rattle.delay_bounded.specs.Explored.{Walk, closed, explored, walks_of};
ghost use Rattle.explorer.specs.Taken.{event_limit};
ghost use Rattle.explorer.specs.Telling.{TellsOf};
ghost use Rattle.outcome_text.specs.Sight as sight;

use crate::tally::{EVENT_LIMIT, Tally};
use hist_model::history::History;
use hist_model::policy::Policy as BrokerPolicy;
use std::alloc::Global;
use sys_abi::memory::NoMemory;

/// What is told of the histories with each number of delays, up to a bound.
#[derive(Drop)]
pub(crate) struct ByDelays {
    bound: u64,
    // at a number of delays: of the histories that have so many
    tallies: Vec<Tally>,
    events: u64,
}

impl ByDelays {
    ghost use Rattle.explorer.specs.Telling.{IsReady, TellsBy};

    /// Of no history.
    pub(crate) fn none(alloc: Global, bound: u64) -> ByDelays
        ensures tells { (P : Policy) (S : Script) → TellsBy P S [] result }
        ensures bound { result.bound ≡ bound }
        ensures events { result.events ≡ 0 }
    {
        ByDelays {
            bound,
            tallies: Vec::new(alloc),
            events: 0,
        }
    }

    /// Whether there are as many events as are explored at least.
    pub(crate) fn is_full(&self) -> bool
        ensures { result ≡ nat_le event_limit self.now.events }
    {
        EVENT_LIMIT <= self.events
    }

    /// With a place for the histories of a number of delays.
    fn ready(&mut self, alloc: Global, delays: usize) -> Result<(), NoMemory>
        requires { delays ≤ self.old.bound }
        ensures { OnOk result (IsReady delays self.old self.new) }
    {
        'places: while self.tallies.len() <= delays {
            self.tallies.push(Tally::none(alloc))?;
        }
        Ok(())
    }

    /// With the history of a walk more, which has so many delays left, and in which the effects at the `hidden` places are out of sight.
    pub(crate) fn note(
        &mut self,
        alloc: Global,
        policy: &BrokerPolicy,
        left: u64,
        history: &History,
        hidden: &[usize],
    ) -> Result<(), NoMemory>
        requires told { (S : Script) × (ws : List Walk) × TellsBy policy.now S ws self.old }
        requires within { left ≤ self.old.bound }
        requires room { self.old.events < event_limit }
        requires begun { 0 < length history.now.events }
        requires few { length history.now.events < 2 ^ 63 }
        ensures tells { OnOk result ((S : Script) (ws : List Walk) (w : Walk) → w.left ≡ left → closed policy.now S w ≡ history.now.events → hidden.now ≡ sight.hidden S history.now.events → TellsBy policy.now S ws self.old → TellsBy policy.now S (ws ++ w ∷ []) self.new) }
        ensures bound { OnOk result (self.new.bound ≡ self.old.bound) }
    {
        let delays = (self.bound - left) as usize;
        self.ready(alloc, delays)?;
        self.tallies[delays].note(alloc, policy, history, hidden)?;
        self.events += history.len() as u64;
        Ok(())
    }

    /// What is told of them all, those with the fewest delays first.
    pub(crate) fn joined(self, alloc: Global) -> Result<Tally, NoMemory>
        requires told { (P : Policy) × (S : Script) × (ws : List Walk) × TellsBy P S ws self }
        requires few { self.events < event_limit }
        ensures tells { IfOk result (λ all. (P : Policy) (S : Script) (W : ℕ) → TellsBy P S (walks_of P S W self.bound) self → TellsOf P S (explored P S W self.bound) all) }
        ensures events { IfOk result (λ all. all.events ≡ self.events) }
    {
        let ByDelays { tallies, .. } = self;
        let mut all = Tally::none(alloc);
        for tally in tallies {
            all.join(tally)?;
        }
        Ok(all)
    }
}

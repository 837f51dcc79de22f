//! How a script is played: its schedule in turns of the listener's lock, or without a lock.

ghost use Rattle.std.specs.Prelude.{◌≡◌, IfOk};
ghost use Rattle.hist_model.specs.Legal.{played};
ghost use Rattle.play_words.specs.Handovers.{IsAfterSteps};
ghost use Rattle.worker_gate.specs.Replacing.{handed_if, handed_in};

use hist_model::policy::Policy;
use hist_model::script::Script;
use std::alloc::Global;
use std::mem;
use std::sync::Wait;
use sys_abi::memory::NoMemory;
use worker_gate::{Played, play, play_in_turns};

/// Who plays the schedule of a script.
pub trait Player {
    /// Plays the schedule of a script under a policy, and closes the listener. Where a number of steps is given, the worker that took the
    /// last of each so many steps of workers is replaced, by turns from its ledger before that step and from the one after it.
    fn play(
        &self,
        alloc: Global,
        policy: Policy,
        script: Script,
        every: Option<u32>,
    ) -> Result<Played, NoMemory>
        requires { IsAfterSteps every }
        ensures events { IfOk result (λ p. p.history.events ≡ played policy script) }
        ensures policy { IfOk result (λ p. p.policy ≡ policy) }
        ensures script { IfOk result (λ p. p.script ≡ script) }
        ensures handed { IfOk result (λ p. handed_in p.handed ≡ handed_if every p.history.events) };

    /// Lets go of what was printed: its memory is given back, or left to the process where that is about to end.
    fn let_go<T: Drop>(&self, printed: T);
}

/// Plays with no lock, for a caller that may not wait.
#[derive(Clone, Copy, Debug)]
pub struct LoneThread;

impl Player for LoneThread {
    fn play(
        &self,
        alloc: Global,
        policy: Policy,
        script: Script,
        every: Option<u32>,
    ) -> Result<Played, NoMemory> {
        play(alloc, policy, script, every)
    }

    fn let_go<T: Drop>(&self, printed: T) {
        mem::drop(printed)
    }
}

/// Plays each step in a turn of the listener's lock, for a process that ends behind what it prints.
#[derive(Drop)]
pub struct TurnTaker<'a, R: Wait> {
    pub rt: &'a R,
}

impl<'a, R: Wait> Player for TurnTaker<'a, R> {
    fn play(
        &self,
        alloc: Global,
        policy: Policy,
        script: Script,
        every: Option<u32>,
    ) -> Result<Played, NoMemory> {
        play_in_turns(self.rt, alloc, policy, script, every)
    }

    fn let_go<T: Drop>(&self, printed: T) {
        mem::forget(printed)
    }
}

//! The state behind the listener's lock.

ghost use Rattle.std.specs.Prelude.{◌≡◌, ◌+◌, ◌<◌, ◌≤◌, ◌∷◌, [], length, None, OnOk, OnErr, IfOk, IfSome};
ghost use Rattle.hist_model.specs.Legal.{started, with_step};
ghost use Rattle.hist_model.specs.Look.{ev};
ghost use Rattle.hist_model.specs.declared.event.Actor.TheVariants.{Listener};
ghost use Rattle.hist_model.specs.declared.event.What.TheVariants.{Close};
ghost use Rattle.mediation.specs.Scheduled.{IsScheduled, IsUnclosed};
ghost use Rattle.model_kernel.specs.Kernels.{past};
ghost use Rattle.turn_lock.specs.Lists.{Begins};
ghost use Rattle.worker_gate.specs.Endings.{ClosesBehind};
ghost use Rattle.worker_gate.specs.Keeping.{HasSetup, IsKept};
ghost use Rattle.worker_gate.specs.Replacing.{KeepsUp, every_of, handed_if, handed_in};
ghost use Rattle.worker_gate.specs.Scheduling.{IsLineAt, MayStep};
ghost use Rattle.broker_machine.specs.Serving.{IsFound, Reaches, after_step};

use crate::keeper::LedgerKeeper;
use crate::runnable::Runnable;
use crate::schedule::{Line, line_at};
use crate::sessions::Sessions;
use broker_machine::Machine;
use handover::Handover;
use hist_model::event::Actor;
use hist_model::history::{History, Journalled};
use hist_model::policy::Policy;
use hist_model::script::Script;
use std::alloc::Global;
use std::marker::Model;
use sys_abi::memory::NoMemory;

/// What was played or served: the history, with the policy and the script of which it is one.
#[derive(Drop)]
pub struct Played {
    pub policy: Policy,
    pub script: Script,
    pub history: History,
    /// The ledgers from which workers were replaced, in the history's order, where they were to be replaced.
    pub handed: Option<Vec<Handover>>,
}

/// A machine, the policy by which its workers serve, and the number of the last worker that may, where not all may.
pub(crate) struct Serving {
    pub(crate) machine: Machine,
    pub(crate) policy: Policy,
    pub(crate) limit: Option<u8>,
    /// The ledgers of the workers, where they are replaced.
    pub(crate) keeper: LedgerKeeper,
    /// The tasks that threads try.
    pub(crate) runnable: Runnable,
    /// What threads know of the workers' sessions.
    pub(crate) sessions: Sessions,
    /// Whether a thread found no memory, so that all of them end.
    pub(crate) lacks_memory: bool,
}

// (written out, so that what letting one go comes to is proved once, and not at each place that lets one go)
impl Drop for Serving {
    fn drop(self) {
        let Serving {
            machine: _machine,
            policy: _policy,
            limit: _limit,
            keeper: _keeper,
            runnable: _runnable,
            sessions: _sessions,
            lacks_memory: _lacks_memory,
        } = self;
    }
}

impl Serving {
    /// An actor's step, or a `Skip` where it can't step.
    fn step(&mut self, alloc: Global, who: &Actor, task: Option<u32>) -> Result<(), NoMemory>
        requires kept { IsKept self.old.policy self.old.limit self.old.machine }
        requires keeps { KeepsUp (past self.old.machine.kernel) self.old.keeper }
        requires unlimited { self.old.limit ≡ None }
        requires scheduled { IsScheduled who.now }
        requires found { IsFound (past self.old.machine.kernel) who.now task }
        ensures done { OnOk result (Reaches self.old.policy self.old.machine (after_step self.old.policy self.old.machine who.now) self.new.machine) }
        ensures same { OnErr result (Reaches self.old.policy self.old.machine (past self.old.machine.kernel) self.new.machine) }
        ensures kept { IsKept self.new.policy self.new.limit self.new.machine }
        ensures keeps { KeepsUp (past self.new.machine.kernel) self.new.keeper }
        ensures setup { HasSetup self.old self.new }
    {
        self.keeper
            .turn(alloc, &self.policy, &mut self.machine, who, task)
    }

    /// Closes the listener, and gives the history with the policy and the script, and the ledgers.
    fn finish(self) -> Result<Played, NoMemory>
        requires { KeepsUp (past self.machine.kernel) self.keeper }
        ensures policy { IfOk result (λ p. p.policy ≡ self.policy) }
        ensures script { IfOk result (λ p. p.script ≡ self.machine.kernel.script) }
        ensures events { IfOk result (λ p. p.history.events ≡ ev Listener Close ∷ past self.machine.kernel) }
        ensures handed { IfOk result (λ p. handed_in p.handed ≡ handed_if (every_of self.keeper) p.history.events) }
    {
        let Serving {
            machine,
            policy,
            limit: _limit,
            keeper,
            runnable: _runnable,
            sessions: _sessions,
            lacks_memory: _lacks_memory,
        } = self;
        let handed = keeper.into_handed()?;
        let (script, history) = machine.closed()?;
        Ok(Played {
            policy,
            script,
            history,
            handed,
        })
    }
}

/// The state behind the listener's lock: a kernel, the workers that serve it, and a policy, whose history is legal and still
/// goes on. Where it has a limit, the history has no `Skip` and no step of a worker above it. Where its workers are replaced after each
/// so many of their steps, it keeps the ledgers of its history.
///
/// It is one box, so that a turn moves a pointer out of the lock and back.
#[derive(Drop)]
pub struct Served {
    pub(crate) serving: Box<Serving>,
}

impl Model for Served {
    ghost use Rattle.worker_gate.specs.Keeping.{IsServing, ServedFacts};
    ghost use Rattle.worker_gate.specs.Replacing.{every_of};

    ghost Value = { ServedFacts };

    ghost view = { λ s. record { setup = record { policy = s.serving.value.policy; script = s.serving.value.machine.kernel.script; limit = s.serving.value.limit; every = every_of s.serving.value.keeper }; history = s.serving.value.machine.kernel.history } };

    ghost invariant = { λ s. IsServing s.serving.value };
}

impl Journalled for Served {
    ghost history = { λ s. s.history };

    ghost setup = { λ s. s.setup };

    fn journal(&self) -> &History {
        self.serving.machine.history()
    }
}

impl Served {
    /// The kernel of a script after its start, with workers without a session. A limit is the number of the last worker that may
    /// serve; where there is none, all may, and an actor that can't step gives a `Skip`. Where a number of steps is given, the worker
    /// that took the last of each so many steps of workers is replaced, by turns from its ledger before that step and from the one after
    /// it.
    pub fn new(
        alloc: Global,
        policy: Policy,
        script: Script,
        limit: Option<u8>,
        every: Option<u32>,
    ) -> Result<Served, NoMemory>
        requires { IfSome every (λ n. 0 < n) }
        ensures setup { IfOk result (λ s. s.setup ≡ record { policy = policy; script = script; limit = limit; every = every }) }
        ensures events { IfOk result (λ s. s.history.events ≡ started script) }
    {
        let keeper = LedgerKeeper::new(alloc, every)?;
        let machine = Machine::new(alloc, script)?;
        let serving = Box::new(
            alloc,
            Serving {
                machine,
                policy,
                limit,
                keeper,
                runnable: Runnable::new(alloc),
                sessions: Sessions::none(),
                lacks_memory: false,
            },
        )?;
        Ok(Served { serving })
    }

    /// The line at an index of the schedule; none after the last one.
    pub(crate) fn line(&self, alloc: Global, index: usize) -> Result<Option<Line>, NoMemory>
        ensures { IfOk result (λ line. IsLineAt self.now.setup.script self.now.history.events index line) }
    {
        line_at(alloc, &self.serving.machine, index)
    }

    /// An actor's step, or a `Skip` where it can't step. A task that was made has this ordinal.
    pub(crate) fn step(
        &mut self,
        alloc: Global,
        who: &Actor,
        task: Option<u32>,
    ) -> Result<(), NoMemory>
        requires { MayStep self.old.setup self.old.history.events who.now task }
        ensures done { OnOk result (self.new.history.events ≡ with_step self.old.setup.policy self.old.setup.script who.now self.old.history.events) }
        ensures setup { self.new.setup ≡ self.old.setup }
        ensures history { Begins self.new.history.events self.old.history.events }
        ensures one { length self.new.history.events ≤ length self.old.history.events + 1 }
    {
        self.serving.step(alloc, who, task)
    }

    /// Closes the listener, and gives the history with the policy and the script, and the ledgers from which workers were replaced, where
    /// they were to be. Where there was no memory to keep the ledgers up, there is none now.
    pub fn finish(self) -> Result<Played, NoMemory>
        ensures policy { IfOk result (λ p. p.policy ≡ self.setup.policy) }
        ensures script { IfOk result (λ p. p.script ≡ self.setup.script) }
        ensures events { IfOk result (λ p. p.history.events ≡ ev Listener Close ∷ self.history.events) }
        ensures handed { IfOk result (λ p. handed_in p.handed ≡ handed_if self.setup.every p.history.events) }
    {
        Box::into_inner(self.serving).finish()
    }

    /// Closes the listener after a history that isn't closed, and gives the same.
    pub fn close_listener(self) -> Result<Played, NoMemory>
        requires { IsUnclosed self.history.events }
        ensures policy { IfOk result (λ p. p.policy ≡ self.setup.policy) }
        ensures script { IfOk result (λ p. p.script ≡ self.setup.script) }
        ensures closed { IfOk result (λ p. ClosesBehind self.history.events p.history.events) }
        ensures handed { IfOk result (λ p. handed_in p.handed ≡ handed_if self.setup.every p.history.events) }
    {
        let played = self.finish()?;
        // There are fewer than 2^64 events, as a legal history has.
        let _events = played.history.len();
        Ok(played)
    }
}

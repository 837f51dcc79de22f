//! The ledgers of workers that are replaced while the state is served.

ghost use Rattle.std.specs.Prelude.{◌≡◌, ◌<◌, ◌≤◌, List, IfOk, IfSome, OnErr, OnOk, true};
ghost use Rattle.broker_machine.specs.Serving.{IsFound, IsServed, Reaches, Tries, after_step};
ghost use Rattle.handover.specs.Handing.{worker_number};
ghost use Rattle.hist_model.specs.Legal.{started};
ghost use Rattle.hist_model.specs.Names.{is_task_name};
ghost use Rattle.hist_model.specs.declared.event.Actor.TheVariants.{Task, Worker};
ghost use Rattle.hist_model.specs.declared.event.Event.{Event};
ghost use Rattle.hist_model.specs.declared.script.Script.{Script as ScriptValue};
ghost use Rattle.history_frames.specs.Ordinals.{task_name_of, tasks_made};
ghost use Rattle.mediation.specs.Scheduled.{IsScheduled};
ghost use Rattle.model_kernel.specs.Kernels.{past};
ghost use Rattle.worker_gate.specs.Replacing.{AreKeptBehind, KeepsUp, every_of, handed_if, handed_in};

use broker_machine::Machine;
use handover::{Handover, Ledgers};
use hist_model::event::Actor;
use hist_model::policy::Policy;
use std::alloc::Global;
use sys_abi::memory::NoMemory;
use worker_ledger::successor::Heirs;

/// Makes the turns of a machine, and keeps the ledgers of its history up with them, where workers are replaced.
#[derive(Drop)]
pub(crate) struct LedgerKeeper {
    pub(crate) ledgers: Option<Ledgers>,
    /// Whether there was no memory to keep them up, so that no worker takes a turn any more.
    pub(crate) is_lost: bool,
}

/// The number of the worker that an actor is, if it is one.
fn worker_number(who: &Actor) -> Option<u8>
    ensures { result ≡ worker_number who.now }
{
    match who {
        Actor::Worker(number) => Some(*number),
        _ => None,
    }
}

impl LedgerKeeper {
    /// The ledgers of the history of a script's start, where workers are replaced after each so many of their steps.
    pub(crate) fn new(alloc: Global, every: Option<u32>) -> Result<LedgerKeeper, NoMemory>
        requires { IfSome every (λ n. 0 < n) }
        ensures keeps { IfOk result (λ k. (S : ScriptValue) → KeepsUp (started S) k) }
        ensures every { IfOk result (λ k. every_of k ≡ every) }
    {
        let ledgers = match every {
            Some(every) => Some(Ledgers::new(alloc, every)?),
            None => None,
        };
        Ok(LedgerKeeper {
            ledgers,
            is_lost: false,
        })
    }

    /// Keeps the ledgers up after the newest event, which is this worker's, and replaces the worker where that is due.
    fn keep_up(&mut self, alloc: Global, policy: &Policy, machine: &mut Machine, number: u8)
        requires served { IsServed policy.now machine.old }
        requires number { number ≤ 16 }
        requires behind { AreKeptBehind number (past machine.old.kernel) self.old.ledgers }
        ensures keeps { KeepsUp (past machine.new.kernel) self.new }
        ensures served { IsServed policy.now machine.new }
        ensures kernel { machine.new.kernel ≡ machine.old.kernel }
        ensures every { every_of self.new ≡ every_of self.old }
    {
        if let Some(ledgers) = &mut self.ledgers {
            let kept = ledgers.keep_up(alloc, policy, machine, number, &mut Heirs);
            self.is_lost = kept.is_err();
        }
    }

    /// A worker's step, unless it waits; says whether it made one. It is replaced after it where that is due.
    pub(crate) fn try_worker(
        &mut self,
        alloc: Global,
        policy: &Policy,
        machine: &mut Machine,
        number: u8,
    ) -> Result<bool, NoMemory>
        requires served { IsServed policy.now machine.old }
        requires number { number ≤ 16 }
        requires keeps { KeepsUp (past machine.old.kernel) self.old }
        ensures done { IfOk result (λ stepped. Tries policy.now machine.old (Worker number) stepped machine.new) }
        ensures same { OnErr result (Reaches policy.now machine.old (past machine.old.kernel) machine.new) }
        ensures keeps { KeepsUp (past machine.new.kernel) self.new }
        ensures every { every_of self.new ≡ every_of self.old }
    {
        if self.is_lost {
            return Err(NoMemory);
        }
        if !machine.try_worker(alloc, policy, number)? {
            return Ok(false);
        }
        self.keep_up(alloc, policy, machine, number);
        Ok(true)
    }

    /// A step of the task of an ordinal, unless it can't step; says whether it made one. The ledgers have nothing of it.
    pub(crate) fn try_task(
        &self,
        alloc: Global,
        policy: &Policy,
        machine: &mut Machine,
        task: u32,
    ) -> Result<bool, NoMemory>
        requires served { IsServed policy.now machine.old }
        requires made { task < tasks_made (past machine.old.kernel) }
        requires named { is_task_name (task_name_of (past machine.old.kernel) task) ≡ true }
        requires keeps { KeepsUp (past machine.old.kernel) self.now }
        ensures done { IfOk result (λ stepped. Tries policy.now machine.old (Task (task_name_of (past machine.old.kernel) task)) stepped machine.new) }
        ensures same { OnErr result (Reaches policy.now machine.old (past machine.old.kernel) machine.new) }
        ensures keeps { KeepsUp (past machine.new.kernel) self.now }
    {
        machine.try_task(alloc, policy, task)
    }

    /// A turn of an actor, which has this ordinal if it is a task that was made: its step, or a `Skip` where it can't step. A worker that
    /// stepped is replaced after it where that is due.
    pub(crate) fn turn(
        &mut self,
        alloc: Global,
        policy: &Policy,
        machine: &mut Machine,
        who: &Actor,
        task: Option<u32>,
    ) -> Result<(), NoMemory>
        requires served { IsServed policy.now machine.old }
        requires scheduled { IsScheduled who.now }
        requires found { IsFound (past machine.old.kernel) who.now task }
        requires keeps { KeepsUp (past machine.old.kernel) self.old }
        ensures done { OnOk result (Reaches policy.now machine.old (after_step policy.now machine.old who.now) machine.new) }
        ensures same { OnErr result (Reaches policy.now machine.old (past machine.old.kernel) machine.new) }
        ensures keeps { KeepsUp (past machine.new.kernel) self.new }
        ensures every { every_of self.new ≡ every_of self.old }
    {
        if self.is_lost {
            return Err(NoMemory);
        }
        machine.found_turn(alloc, policy, who, task)?;
        if let Some(number) = worker_number(who) {
            self.keep_up(alloc, policy, machine, number);
        }
        Ok(())
    }

    /// The ledgers from which workers were replaced, where they were to be; want of memory where there was none to keep them up.
    pub(crate) fn into_handed(self) -> Result<Option<Vec<Handover>>, NoMemory>
        ensures { (K : List Event) → KeepsUp K self → IfOk result (λ h. handed_in h ≡ handed_if (every_of self) K) }
    {
        let LedgerKeeper { ledgers, is_lost } = self;
        if is_lost {
            return Err(NoMemory);
        }
        match ledgers {
            Some(ledgers) => Ok(Some(ledgers.into_handed())),
            None => Ok(None),
        }
    }
}

//! The steps of workers and of tasks that are worth a try, on the machine, and what they leave.

ghost use Rattle.std.specs.Prelude.{◌≡◌, ◌<◌, ◌^◌, IfOk, OnErr, Some, false, length, true};
ghost use Rattle.hist_model.specs.Legal.{Finished};
ghost use Rattle.hist_model.specs.declared.event.Actor.TheVariants.{Worker};
ghost use Rattle.model_kernel.specs.Kernels.{past};
ghost use Rattle.crew.specs.Duties.{MayServe};
ghost use Rattle.worker_gate.specs.Keeping.{Adds, AddsTask, Continues, HasSetup, IsKept};
ghost use Rattle.worker_gate.specs.Replacing.{KeepsUp};

use crate::served::Serving;
use crew::{Point, Work};
use std::alloc::Global;
use sys_abi::memory::NoMemory;

impl Serving {
    /// A worker's step, unless it waits; says whether it made one.
    pub(crate) fn step_worker(&mut self, alloc: Global, number: u8) -> Result<bool, NoMemory>
        requires kept { IsKept self.old.policy self.old.limit self.old.machine }
        requires keeps { KeepsUp (past self.old.machine.kernel) self.old.keeper }
        requires may { MayServe self.old.limit (Some number) }
        ensures goes_on { Continues self.new.policy self.new.limit self.old.machine self.new.machine }
        ensures keeps { KeepsUp (past self.new.machine.kernel) self.new.keeper }
        ensures step { IfOk result (λ stepped. Adds (Worker number) stepped (past self.old.machine.kernel) (past self.new.machine.kernel)) }
        ensures none { OnErr result (past self.new.machine.kernel ≡ past self.old.machine.kernel) }
        ensures setup { HasSetup self.old self.new }
    {
        self.keeper
            .try_worker(alloc, &self.policy, &mut self.machine, number)
    }

    /// A step of a task, unless it can't step; says whether it made one.
    fn step_task(&mut self, alloc: Global, task: u32) -> Result<bool, NoMemory>
        requires kept { IsKept self.old.policy self.old.limit self.old.machine }
        requires keeps { KeepsUp (past self.old.machine.kernel) self.old.keeper }
        ensures goes_on { Continues self.new.policy self.new.limit self.old.machine self.new.machine }
        ensures keeps { KeepsUp (past self.new.machine.kernel) self.new.keeper }
        ensures step { AddsTask (past self.old.machine.kernel) (past self.new.machine.kernel) }
        ensures setup { HasSetup self.old self.new }
    {
        if self.machine.is_task(task) {
            self.keeper
                .try_task(alloc, &self.policy, &mut self.machine, task)
        } else {
            Ok(false)
        }
    }

    /// A step of a task, if it can step, which is then tried again after the others.
    fn try_task(&mut self, alloc: Global, task: u32) -> Result<(), NoMemory>
        requires kept { IsKept self.old.policy self.old.limit self.old.machine }
        requires keeps { KeepsUp (past self.old.machine.kernel) self.old.keeper }
        ensures goes_on { Continues self.new.policy self.new.limit self.old.machine self.new.machine }
        ensures keeps { KeepsUp (past self.new.machine.kernel) self.new.keeper }
        ensures step { AddsTask (past self.old.machine.kernel) (past self.new.machine.kernel) }
        ensures setup { HasSetup self.old self.new }
    {
        if self.step_task(alloc, task)? {
            self.runnable.put(task)?;
        }
        Ok(())
    }

    /// A step of the task that is tried next, if it can step; says whether a task was worth a try.
    pub(crate) fn try_next(&mut self, alloc: Global) -> Result<bool, NoMemory>
        requires kept { IsKept self.old.policy self.old.limit self.old.machine }
        requires keeps { KeepsUp (past self.old.machine.kernel) self.old.keeper }
        ensures goes_on { Continues self.new.policy self.new.limit self.old.machine self.new.machine }
        ensures keeps { KeepsUp (past self.new.machine.kernel) self.new.keeper }
        ensures step { AddsTask (past self.old.machine.kernel) (past self.new.machine.kernel) }
        ensures setup { HasSetup self.old self.new }
    {
        match self.runnable.take() {
            Some(task) => {
                self.try_task(alloc, task)?;
                Ok(true)
            }
            None => Ok(false),
        }
    }

    /// Reads the history's new events, and tells whether a worker's request may have come to something by them.
    pub(crate) fn catch_up(&mut self) -> Result<bool, NoMemory>
        ensures machine { self.new.machine ≡ self.old.machine }
        ensures keeper { self.new.keeper ≡ self.old.keeper }
        ensures setup { HasSetup self.old self.new }
    {
        self.runnable.catch_up(self.machine.kernel())
    }

    /// The work that is worth a try: a call can be received exactly where requests are counted.
    pub(crate) fn left(&self) -> Work {
        let mut left = Work::NONE;
        if self.machine.kernel().request_count() != 0 {
            left = left.with(Work::CALLS);
        }
        if self.runnable.has_tasks() {
            left = left.with(Work::TASKS);
        }
        left
    }

    /// The point that this worker came to by the newest step, which is its own, if it came to one.
    pub(crate) fn point(&mut self, number: u8) -> Option<(Point, u64)>
        ensures machine { self.new.machine ≡ self.old.machine }
        ensures keeper { self.new.keeper ≡ self.old.keeper }
        ensures setup { HasSetup self.old self.new }
    {
        match self.machine.history().events().last() {
            Some(event) => self.sessions.note(number, &event.what),
            None => None,
        }
    }

    /// Whether threads are done: nothing is left to do, or one of them found no memory.
    pub(crate) fn is_over(&self) -> bool
        requires { IsKept self.now.policy self.now.limit self.now.machine }
    {
        self.lacks_memory || self.machine.finished()
    }

    /// Whether nothing is left to do: every task has ended, no call is listed, and each worker has let go.
    pub(crate) fn is_served(&self) -> bool
        requires { IsKept self.now.policy self.now.limit self.now.machine }
        ensures few { length (past self.now.machine.kernel) < 2 ^ 64 }
        ensures finished { result ≡ true → Finished (past self.now.machine.kernel) }
    {
        self.machine.kernel().has_few_events();
        self.machine.finished()
    }
}

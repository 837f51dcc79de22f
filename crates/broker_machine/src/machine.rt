//! A kernel and the workers that serve it, which take turns.

ghost use Rattle.std.specs.Prelude.{◌≡◌, ◌<◌, ◌≤◌, ◌↔◌, ◌∷◌, [], length, true, OnOk, OnErr, IfOk, Some};
ghost use Rattle.hist_model.specs.Legal.{Finished, started};
ghost use Rattle.hist_model.specs.Names.{is_task_name};
ghost use Rattle.history_frames.specs.Ordinals.{task_name_of, tasks_made};
ghost use Rattle.hist_model.specs.Look.{ev};
ghost use Rattle.hist_model.specs.Steps.{task_step};
ghost use Rattle.hist_model.specs.declared.event.Actor.TheVariants.{Listener, Task, Worker as WorkerActor};
ghost use Rattle.hist_model.specs.declared.event.What.TheVariants.{Close, Skip};
ghost use Rattle.hist_model.specs.declared.policy.Policy.{Policy as PolicyValue};
ghost use Rattle.mediation.specs.Scheduled.{IsScheduled};
ghost use Rattle.model_kernel.specs.Kernels.{IsKernel, past, system};
ghost use Rattle.broker_machine.specs.Workers.{AllRemember, is_step};

use crate::deeds::{WorkerStep, worker_turn};
use crate::names::is_task_name;
use broker_core::worker::Worker;
use hist_model::event::{Actor, WORKERS};
use hist_model::history::History;
use hist_model::policy::Policy;
use hist_model::script::{Figures, Script};
use hist_model::text::TaskName;
use model_kernel::{CannotStep, Kernel};
use std::alloc::Global;
use sys_abi::memory::NoMemory;

/// A kernel and its broker's workers 0 to 16, each with what it remembers of its session. The policy by which they serve is given
/// to each turn, and is the same in all.
pub struct Machine {
    pub(crate) kernel: Kernel,
    pub(crate) workers: Vec<Worker>,
}

// (written out, so that what letting one go comes to is proved here once, and not in each crate that owns one)
impl Drop for Machine {
    fn drop(self) {
        let Machine {
            kernel: _kernel,
            workers: _workers,
        } = self;
    }
}

/// As many workers as a history may have, each without a session.
fn idle_workers(alloc: Global, figures: Figures) -> Result<Vec<Worker>, NoMemory>
    ensures number { IfOk result (λ v. length v.items ≡ 17) }
    ensures idle { IfOk result (λ v. (P : PolicyValue) → AllRemember P figures [] v.items) }
{
    // (room for all comes first, so that want of memory leaves none to let go)
    let mut workers = Vec::with_capacity(alloc, usize::from(WORKERS))?;
    for _ in 0..WORKERS {
        workers.push_reserved(Worker::new(alloc, figures));
    }
    Ok(workers)
}

impl Machine {
    ghost use Rattle.broker_core.specs.Remembered.{Remembers};
    ghost use Rattle.broker_machine.specs.Serving.{IsAt, IsFound, IsServed, IsStopped, Reaches, Tries, after_step, step_of};
    ghost use Rattle.hist_model.specs.Sessions.{session};

    /// The kernel of a script after its start, and workers without a session, for whichever policy.
    pub fn new(alloc: Global, script: Script) -> Result<Machine, NoMemory>
        ensures { IfOk result (λ m. (P : PolicyValue) → IsAt P script (started script) m) }
    {
        let figures = script.figures;
        Ok(Machine {
            kernel: Kernel::new(alloc, script)?,
            workers: idle_workers(alloc, figures)?,
        })
    }

    /// A worker's step, unless it waits; says what came of it.
    pub fn serve(
        &mut self,
        alloc: Global,
        policy: &Policy,
        number: u8,
    ) -> Result<WorkerStep, NoMemory>
        requires served { IsServed policy.now self.old }
        requires number { number ≤ 16 }
        ensures done { IfOk result (λ came. Tries policy.now self.old (WorkerActor number) (is_step came) self.new) }
        ensures same { OnErr result (Reaches policy.now self.old (past self.old.kernel) self.new) }
    {
        let worker = &mut self.workers[number as usize];
        worker_turn(alloc, policy, &mut self.kernel, number, worker)
    }

    /// A worker's step, unless it waits; says whether it made one.
    pub fn try_worker(
        &mut self,
        alloc: Global,
        policy: &Policy,
        number: u8,
    ) -> Result<bool, NoMemory>
        requires served { IsServed policy.now self.old }
        requires number { number ≤ 16 }
        ensures done { IfOk result (λ stepped. Tries policy.now self.old (WorkerActor number) stepped self.new) }
        ensures same { OnErr result (Reaches policy.now self.old (past self.old.kernel) self.new) }
    {
        Ok(self.serve(alloc, policy, number)?.is_step())
    }

    /// A turn of a worker that waits.
    fn skip_worker(&mut self, policy: &Policy, number: u8) -> Result<(), NoMemory>
        requires served { IsServed policy.now self.old }
        requires number { number ≤ 16 }
        requires due { step_of policy.now self.old (WorkerActor number) ≡ Skip }
        ensures done { OnOk result (Reaches policy.now self.old (after_step policy.now self.old (WorkerActor number)) self.new) }
        ensures same { OnErr result (Reaches policy.now self.old (past self.old.kernel) self.new) }
    {
        self.kernel.ready_event()?;
        self.kernel.skip_worker(number);
        Ok(())
    }

    /// A worker's turn: its step, or a `Skip` where it waits.
    fn worker_turn(&mut self, alloc: Global, policy: &Policy, number: u8) -> Result<(), NoMemory>
        requires served { IsServed policy.now self.old }
        requires number { number ≤ 16 }
        ensures done { OnOk result (Reaches policy.now self.old (after_step policy.now self.old (WorkerActor number)) self.new) }
        ensures same { OnErr result (Reaches policy.now self.old (past self.old.kernel) self.new) }
    {
        if self.try_worker(alloc, policy, number)? {
            Ok(())
        } else {
            self.skip_worker(policy, number)
        }
    }

    /// A turn of a name that no task has.
    fn skip_turn(&mut self, alloc: Global, policy: &Policy, name: &TaskName) -> Result<(), NoMemory>
        requires served { IsServed policy.now self.old }
        requires named { is_task_name name.now ≡ true }
        requires due { task_step (system self.old.kernel) (past self.old.kernel) name.now ≡ Skip }
        ensures done { OnOk result (Reaches policy.now self.old (after_step policy.now self.old (Task name.now)) self.new) }
        ensures same { OnErr result (Reaches policy.now self.old (past self.old.kernel) self.new) }
    {
        self.kernel.ready_event()?;
        let name = name.copied(alloc)?;
        self.kernel.skip_task(name);
        Ok(())
    }

    /// Whether a task of this ordinal was made, and has a name that a scheduled task may have.
    pub fn is_task(&self, task: u32) -> bool
        requires { IsKernel self.now.kernel }
        ensures made { result ≡ true → task < tasks_made (past self.now.kernel) }
        ensures named { result ≡ true → is_task_name (task_name_of (past self.now.kernel) task) ≡ true }
    {
        (task as usize) < self.kernel.tasks() && is_task_name(self.kernel.name_of(task))
    }

    /// A step of the task of an ordinal, unless it can't step; says whether it made one.
    pub fn try_task(&mut self, alloc: Global, policy: &Policy, task: u32) -> Result<bool, NoMemory>
        requires served { IsServed policy.now self.old }
        requires made { task < tasks_made (past self.old.kernel) }
        requires named { is_task_name (task_name_of (past self.old.kernel) task) ≡ true }
        ensures done { IfOk result (λ stepped. Tries policy.now self.old (Task (task_name_of (past self.old.kernel) task)) stepped self.new) }
        ensures same { OnErr result (Reaches policy.now self.old (past self.old.kernel) self.new) }
    {
        let ready = self.kernel.ready_task(alloc, task)?;
        match self.kernel.task_step(task, ready) {
            Ok(()) => Ok(true),
            Err(CannotStep) => Ok(false),
        }
    }

    /// A turn of the task of an ordinal: its step, or a `Skip` where it can't step.
    fn task_turn(&mut self, alloc: Global, policy: &Policy, task: u32) -> Result<(), NoMemory>
        requires served { IsServed policy.now self.old }
        requires made { task < tasks_made (past self.old.kernel) }
        requires named { is_task_name (task_name_of (past self.old.kernel) task) ≡ true }
        ensures done { OnOk result (Reaches policy.now self.old (after_step policy.now self.old (Task (task_name_of (past self.old.kernel) task))) self.new) }
        ensures same { OnErr result (Reaches policy.now self.old (past self.old.kernel) self.new) }
    {
        let ready = self.kernel.ready_task(alloc, task)?;
        self.kernel.task_turn(task, ready);
        Ok(())
    }

    /// A turn of the task of a name, which has this ordinal, if one was made.
    fn named_turn(
        &mut self,
        alloc: Global,
        policy: &Policy,
        name: &TaskName,
        task: Option<u32>,
    ) -> Result<(), NoMemory>
        requires served { IsServed policy.now self.old }
        requires named { is_task_name name.now ≡ true }
        requires found { IsFound (past self.old.kernel) (Task name.now) task }
        ensures done { OnOk result (Reaches policy.now self.old (after_step policy.now self.old (Task name.now)) self.new) }
        ensures same { OnErr result (Reaches policy.now self.old (past self.old.kernel) self.new) }
    {
        match task {
            Some(task) => self.task_turn(alloc, policy, task),
            None => self.skip_turn(alloc, policy, name),
        }
    }

    /// The ordinal of the task that an actor is, if it is one and was made.
    pub fn task_of(&self, who: &Actor) -> Option<u32>
        requires { IsKernel self.now.kernel }
        ensures { IsFound (past self.now.kernel) who.now result }
    {
        match who {
            Actor::Task(name) => self.kernel.find(name.items()),
            _ => None,
        }
    }

    /// A turn of an actor; of a task its ordinal is found.
    pub fn found_turn(
        &mut self,
        alloc: Global,
        policy: &Policy,
        who: &Actor,
        task: Option<u32>,
    ) -> Result<(), NoMemory>
        requires served { IsServed policy.now self.old }
        requires scheduled { IsScheduled who.now }
        requires found { IsFound (past self.old.kernel) who.now task }
        ensures done { OnOk result (Reaches policy.now self.old (after_step policy.now self.old who.now) self.new) }
        ensures same { OnErr result (Reaches policy.now self.old (past self.old.kernel) self.new) }
    {
        match who {
            Actor::Task(name) => self.named_turn(alloc, policy, name, task),
            Actor::Worker(number) => self.worker_turn(alloc, policy, *number),
            Actor::Start | Actor::Listener => unreachable!(),
        }
    }

    /// An actor's turn: its next step, or a `Skip` where it can't step. Want of memory leaves the history as it was.
    pub fn turn(&mut self, alloc: Global, policy: &Policy, who: &Actor) -> Result<(), NoMemory>
        requires served { IsServed policy.now self.old }
        requires scheduled { IsScheduled who.now }
        ensures done { OnOk result (Reaches policy.now self.old (after_step policy.now self.old who.now) self.new) }
        ensures same { OnErr result (Reaches policy.now self.old (past self.old.kernel) self.new) }
    {
        let task = self.task_of(who);
        self.found_turn(alloc, policy, who, task)
    }

    /// Stops a worker, which is let go of with all that it remembers. One without a session stands in its place until
    /// another one is seated, and no turn is taken before that.
    #[tactic(auto, using(crate::proofs::Turns::worker_stopped))]
    pub fn stop_worker(&mut self, alloc: Global, number: u8)
        requires number { number ≤ 16 }
        requires workers { length self.old.workers.items ≡ 17 }
        ensures stopped { (P : PolicyValue) → IsServed P self.old → IsStopped P number self.new }
        ensures workers { length self.new.workers.items ≡ 17 }
        ensures kernel { self.new.kernel ≡ self.old.kernel }
    {
        let figures = self.kernel.script().figures;
        self.workers[number as usize] = Worker::new(alloc, figures);
    }

    /// Seats a worker in place of the one that was stopped: it goes on from what it remembers, which is that one's session.
    #[tactic(auto, using(crate::proofs::Turns::worker_seated))]
    pub fn seat_worker(&mut self, number: u8, worker: Worker)
        requires number { number ≤ 16 }
        requires workers { length self.old.workers.items ≡ 17 }
        ensures kernel { self.new.kernel ≡ self.old.kernel }
        ensures seated { (P : PolicyValue) → IsStopped P number self.old → Remembers P (session (past self.old.kernel) number) worker → worker.figures ≡ self.old.kernel.script.figures → Reaches P self.old (past self.old.kernel) self.new }
    {
        self.workers[number as usize] = worker;
    }

    /// The kernel.
    pub fn kernel(&self) -> &Kernel
        ensures { result.now ≡ self.now.kernel }
    {
        &self.kernel
    }

    /// The script, which states the container.
    pub fn script(&self) -> &Script
        ensures { result.now ≡ self.now.kernel.script }
    {
        self.kernel.script()
    }

    /// What has happened so far.
    pub fn history(&self) -> &History
        ensures { result.now ≡ self.now.kernel.history }
    {
        self.kernel.history()
    }

    /// Whether nothing is left to do: every task has ended, no call is listed, and each worker has let go.
    pub fn finished(&self) -> bool
        requires { IsKernel self.now.kernel }
        ensures { 0 < length (past self.now.kernel) → (result ≡ true) ↔ Finished (past self.now.kernel) }
    {
        self.kernel.finished()
    }

    /// The kernel, without the workers.
    fn into_kernel(self) -> Kernel
        ensures { result ≡ self.kernel }
    {
        let Machine {
            kernel,
            workers: _workers,
        } = self;
        kernel
    }

    /// Closes the listener, which ends the history, and gives the script back with it.
    pub fn closed(self) -> Result<(Script, History), NoMemory>
        ensures script { IfOk result (λ ended. ended.0 ≡ self.kernel.script) }
        ensures events { IfOk result (λ ended. ended.1.events ≡ ev Listener Close ∷ past self.kernel) }
    {
        let mut kernel = self.into_kernel();
        kernel.ready_event()?;
        Ok(kernel.closed())
    }

    /// What has happened, where the listener stays open.
    pub fn into_history(self) -> History
        ensures { result ≡ self.kernel.history }
    {
        self.into_kernel().into_history()
    }
}

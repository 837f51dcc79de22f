//! A kernel's start, and what it says of its tasks and workers.

ghost use Rattle.std.specs.Prelude.{◌≡◌, ◌↔◌, ◌+◌, is_some, ℕ, ◌<◌, [], ◌∷◌, length, Ok, IfOk, IfSome, IfNone, None, true, false};
ghost use Rattle.hist_model.specs.Files.{files};
ghost use Rattle.hist_model.specs.Legal.{started, Finished, tree};
ghost use Rattle.hist_model.specs.Memory.{group_named};
ghost use Rattle.hist_model.specs.Natives.{base_of};
ghost use Rattle.hist_model.specs.Steps.{mem, request_of};
ghost use Rattle.hist_model.specs.Calls.{count, named};
ghost use Rattle.hist_model.specs.Tasks.{ended, holder, is_made};
ghost use Rattle.hist_model.specs.Trees.{ordinal_of};
ghost use Rattle.hist_model.specs.declared.event.What.TheVariants.{Spawn};
ghost use Rattle.hist_model.specs.declared.event.SpawnKind.TheVariants.{New};
ghost use Rattle.history_frames.specs.Ordinals.{tasks_made, task_name_of};
ghost use Rattle.tasks.specs.Stands.{IsHolder};
ghost use Rattle.listener.specs.Stands.{IsCaller};
ghost use Rattle.model_kernel.specs.Kernels.{HasFirst, IsBegun, IsKernel, past};

use crate::kernel::Kernel;
use crate::resources::Resources;
use hist_model::event::{Actor, Event, SpawnKind, What};
use hist_model::history::History;
use hist_model::request::NodeRef;
use hist_model::script::Script;
use hist_model::text::TaskName;
use mount_tree::tree::Tree;
use std::alloc::Global;
use sys_abi::memory::{NoMemory, OrNoMemory};
use tasks::Tasks;

/// The script's start: the first task gets the first PID, and memory and descriptors of its own.
fn first_step(alloc: Global, script: &Script) -> Result<What, NoMemory>
    ensures { IfOk result (λ w. w ≡ Spawn (0 ∷ []) (Ok (script.now.pidbase + 1, New))) }
{
    let mut name = Vec::new(alloc);
    name.push(0)?;
    Ok(What::Spawn {
        child: TaskName::new(name),
        answer: Ok((script.pidbase + 1, SpawnKind::New)),
    })
}

/// The history of a script's start alone.
fn first_history(alloc: Global, script: &Script) -> Result<History, NoMemory>
    ensures { IfOk result (λ h. h.events ≡ started script.now) }
{
    let what = first_step(alloc, script)?;
    let mut history = History::new(alloc);
    history.ready(1)?;
    history.push(Event {
        who: Actor::Start,
        what,
    });
    Ok(history)
}

/// The tasks after a script's start: the first one, with the script's last program.
fn first_tasks(alloc: Global, script: &Script) -> Result<Tasks, NoMemory>
    ensures { IfOk result (λ tasks. HasFirst script.now tasks) }
{
    let program = script.programs.items().len() - 1;
    let tasks = Tasks::new(alloc, script.pidbase, script.pidmax);
    match tasks.first(program as u32) {
        Ok(tasks) => Ok(tasks),
        Err(OrNoMemory::NoMemory) => Err(NoMemory),
        Err(OrNoMemory::Refused(_)) => unreachable!(),
    }
}

impl Kernel {
    /// The kernel of a script, after its start, which makes the first task.
    pub fn new(alloc: Global, script: Script) -> Result<Kernel, NoMemory>
        ensures { IfOk result (λ k. IsBegun script k) }
    {
        let history = first_history(alloc, &script)?;
        let tasks = first_tasks(alloc, &script)?;
        let resources = Resources::new(alloc, &script)?;
        Ok(Kernel {
            script,
            history,
            tasks,
            resources,
        })
    }

    /// How many tasks were made.
    pub fn tasks(&self) -> usize
        ensures { IsKernel self.now → result ≡ tasks_made (past self.now) }
    {
        self.tasks.made()
    }

    /// The ordinal of the task of a name, if one was made.
    pub fn find(&self, name: &[u32]) -> Option<u32>
        ensures some { IfSome result (λ o. IsKernel self.now → (o < tasks_made (past self.now)) × (task_name_of (past self.now) o ≡ name.now)) }
        ensures none { IfNone result (IsKernel self.now → is_made (past self.now) name.now ≡ false) }
    {
        self.tasks.find(name)
    }

    /// The task that holds a PID. None exactly where nobody was given it who isn't reaped.
    pub fn holder(&self, pid: u32) -> Option<u32>
        ensures some { IfSome result (λ o. IsKernel self.now → IsHolder (past self.now) pid o) }
        ensures none { IfNone result (IsKernel self.now → holder (past self.now) pid ≡ None) }
    {
        self.tasks.holder(pid)
    }

    /// The task in the listed call that an id names. None exactly where it names no listed call.
    pub fn caller(&self, id: u64) -> Option<u32>
        ensures some { IfSome result (λ o. IsKernel self.now → IsCaller (past self.now) id o) }
        ensures none { IfNone result (IsKernel self.now → named (past self.now) id ≡ None) }
    {
        self.resources.listener.caller(id)
    }

    /// The count of the listener's requests: how many more calls were listed than receives were answered. While it isn't 0, no
    /// receive waits.
    pub fn request_count(&self) -> u64
        ensures { IsKernel self.now → result ≡ count (past self.now) }
    {
        self.resources.listener.count()
    }

    /// The container's tree.
    pub fn tree(&self) -> &Tree
        ensures { IsKernel self.now → result.now.tree ≡ tree self.now.script (past self.now) }
    {
        &self.resources.tree
    }

    /// The directory that a worker has opened for relative paths; none where it has opened none since it last let go.
    pub fn base(&self, worker: u8) -> Option<NodeRef>
        ensures { IsKernel self.now → (files self.now.script (past self.now)).base worker ≡ ordinal_of result }
    {
        self.resources.workers.base(worker)
    }

    /// The directory to which a descriptor of a task leads, or the container's root for AT_FDCWD. None where it leads to none, and of a
    /// task that has ended.
    pub fn directory(&self, task: u32, dirfd: i32) -> Option<NodeRef>
        requires { IsKernel self.now }
        ensures { (g : ℕ) → task < tasks_made (past self.now) → ended (past self.now) (task_name_of (past self.now) task) ≡ false → group_named (past self.now) (task_name_of (past self.now) task) ≡ Some g → ordinal_of result ≡ base_of self.now.script (files self.now.script (past self.now)) g dirfd }
    {
        self.has_few_events();
        if self.tasks.has_ended(task) {
            return None;
        }
        self.resources.base_in(self.tasks.group(task), dirfd)
    }

    /// The name of the task of an ordinal; empty where no task has it.
    pub fn name_of(&self, task: u32) -> &[u32]
        ensures { IsKernel self.now → result.now ≡ task_name_of (past self.now) task }
    {
        self.tasks.name(task)
    }

    /// Whether a worker has a group's memory open.
    pub fn holds_mem(&self, worker: u8) -> bool
        ensures { IsKernel self.now → result ≡ is_some (mem (past self.now) worker) }
    {
        self.resources.workers.memory(worker).is_some()
    }

    /// Whether a worker has a request for a descriptor: one that was put and not taken.
    pub fn has_request(&self, worker: u8) -> bool
        ensures some { IsKernel self.now → result ≡ true → request_of (past self.now) worker ≡ None → ⊥ }
        ensures none { IsKernel self.now → result ≡ false → request_of (past self.now) worker ≡ None }
    {
        self.resources.listener.has_request(worker)
    }

    /// Whether nothing is left to do: every task has ended, no call is listed, and each worker has let go.
    pub fn finished(&self) -> bool
        requires { IsKernel self.now }
        ensures { 0 < length (past self.now) → (result ≡ true) ↔ Finished (past self.now) }
    {
        self.tasks.living() == 0
            && self.resources.listener.is_idle()
            && self.resources.workers.open_sessions() == 0
    }
}

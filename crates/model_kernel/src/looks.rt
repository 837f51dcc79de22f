//! How tasks, calls and descriptors stand, told without a step.

ghost use Rattle.std.specs.Prelude.{◌≡◌, ℕ, ◌<◌, true, false, None, MatchResult};
ghost use Rattle.hist_model.specs.Calls.{state, state_at};
ghost use Rattle.hist_model.specs.Files.{files};
ghost use Rattle.hist_model.specs.Natives.{base_of};
ghost use Rattle.hist_model.specs.Signals.{call_of};
ghost use Rattle.hist_model.specs.Steps.{lives, opened, pid_named, place_or};
ghost use Rattle.hist_model.specs.Tasks.{ended, holder};
ghost use Rattle.hist_model.specs.Trees.{ordinal_of};
ghost use Rattle.history_frames.specs.Ordinals.{tasks_made};
ghost use Rattle.listener.specs.Stands.{IsListedAs};
ghost use Rattle.sys_abi.specs.Errnos.{esrch};
ghost use Rattle.model_kernel.specs.Kernels.{IsKernel, past};
ghost use Rattle.model_kernel.specs.Steps.{named};

use crate::kernel::Kernel;
use hist_model::notification::State;
use hist_model::request::{NodeRef, Obj};
use sys_abi::errno::Errno;

impl Kernel {
    /// The PID that a task was given; 0 where no task has the ordinal.
    pub fn pid(&self, task: u32) -> u32
        ensures { IsKernel self.now → result ≡ pid_named (past self.now) (named self.now task) }
    {
        self.tasks.pid(task)
    }

    /// Whether a task has ended; one that wasn't made counts as ended.
    pub fn has_ended(&self, task: u32) -> bool
        ensures { IsKernel self.now → task < tasks_made (past self.now) → result ≡ ended (past self.now) (named self.now task) }
    {
        self.tasks.has_ended(task)
    }

    /// How far the listed call with this id has come.
    fn state_of(&self, id: u64) -> State
        requires { IsKernel self.now }
        ensures { (c : ℕ) → IsListedAs (past self.now) c id → result ≡ state (past self.now) c }
    {
        if !self.resources.listener.was_received(id) {
            return State::Unfetched;
        }
        match self.resources.listener.check(id) {
            Ok(()) => State::Fetched,
            Err(_) => State::Answered,
        }
    }

    /// How far the listed call has come in which a task waits. None exactly where it waits in none.
    pub fn call_state(&self, task: u32) -> Option<State>
        requires kernel { IsKernel self.now }
        requires made { task < tasks_made (past self.now) }
        ensures { result ≡ state_at (past self.now) (call_of (past self.now) (named self.now task)) }
    {
        let id = self.tasks.call(task)?;
        Some(self.state_of(id))
    }

    /// What a descriptor of the living task that holds a PID leads to. None where it isn't open, and where no living task holds
    /// the PID.
    pub fn descriptor(&self, pid: u32, number: u32) -> Option<Obj>
        requires { IsKernel self.now }
        ensures open { lives (past self.now) (holder (past self.now) pid) ≡ true → result ≡ (files self.now.script (past self.now)).slot (place_or (opened (past self.now) (holder (past self.now) pid))) number }
        ensures gone { lives (past self.now) (holder (past self.now) pid) ≡ false → result ≡ None }
    {
        self.resources.groups.get(self.living_group(pid)?, number)
    }

    /// The directory from which relative paths of the task that holds a PID go, as `open_base` looks it up; none where the
    /// descriptor leads to no directory. ESRCH exactly where no living task holds the PID.
    pub fn base_for(&self, pid: u32, dirfd: i32) -> Result<Option<NodeRef>, Errno>
        requires { IsKernel self.now }
        ensures { MatchResult result
            (λ base. (lives (past self.now) (holder (past self.now) pid) ≡ true) × (ordinal_of base ≡ base_of self.now.script (files self.now.script (past self.now)) (place_or (opened (past self.now) (holder (past self.now) pid))) dirfd))
            (λ error. (lives (past self.now) (holder (past self.now) pid) ≡ false) × (error ≡ esrch)) }
    {
        match self.living_group(pid) {
            Some(group) => Ok(self.resources.base_in(group, dirfd)),
            None => Err(Errno::ESRCH),
        }
    }
}

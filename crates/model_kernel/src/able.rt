//! Which tasks are able to step, told without a step.

ghost use Rattle.std.specs.Prelude.{◌≡◌, ℕ, ◌<◌, None, not};
ghost use Rattle.std.specs.Option.{option_copied};
ghost use Rattle.hist_model.specs.Kinds.{skips};
ghost use Rattle.hist_model.specs.Signals.{call_of};
ghost use Rattle.history_frames.specs.Ordinals.{tasks_made};
ghost use Rattle.model_kernel.specs.Kernels.{IsKernel, past};
ghost use Rattle.model_kernel.specs.Ready.{is_wait, own_step};
ghost use Rattle.model_kernel.specs.Steps.{MayStep, WaitsIn, due_step, named};

use crate::kernel::Kernel;
use hist_model::script::Instr;

/// Whether an instruction waits for a child.
fn is_wait(instr: Option<&Instr>) -> bool
    ensures { result ≡ is_wait (option_copied instr.entry) }
{
    matches!(instr, Some(Instr::Wait))
}

impl Kernel {
    /// Whether a task that waits in the listed call with this id is able to step: the call was answered, a signal is due, or a
    /// descriptor is to be installed.
    fn can_end_wait(&self, task: u32, id: u64) -> bool
        requires may { MayStep self.now task }
        requires waits { (c : ℕ) × WaitsIn self.now task c id }
        ensures { result ≡ not (skips (due_step self.now task)) }
    {
        if self.resources.listener.settled_back(id).is_some() {
            return true;
        }
        if self.tasks.is_due(task, self.holds_back(id)) {
            return true;
        }
        self.resources.listener.next_request(id).is_some()
    }

    /// Whether the next instruction of a task can be executed: it is no wait for children of which none has ended.
    fn can_execute(&self, task: u32) -> bool
        requires may { MayStep self.now task }
        ensures { result ≡ not (skips (own_step self.now task)) }
    {
        !is_wait(self.tasks.next_instr(&self.script, task)) || self.tasks.wait_answers(task)
    }

    /// Whether a task that waits in no listed call is able to step.
    fn can_go_on(&self, task: u32) -> bool
        requires may { MayStep self.now task }
        requires outside { call_of (past self.now) (named self.now task) ≡ None }
        ensures { result ≡ not (skips (due_step self.now task)) }
    {
        if self.tasks.owes(task) {
            return true;
        }
        if self.tasks.is_due(task, false) {
            return true;
        }
        self.can_execute(task)
    }

    /// Whether the task of an ordinal is able to step: it is alive, and doesn't wait.
    pub fn can_step(&self, task: u32) -> bool
        requires kernel { IsKernel self.now }
        requires made { task < tasks_made (past self.now) }
        ensures { result ≡ not (skips (due_step self.now task)) }
    {
        self.has_few_events();
        if self.tasks.has_ended(task) {
            return false;
        }
        match self.tasks.call(task) {
            Some(id) => self.can_end_wait(task, id),
            None => self.can_go_on(task),
        }
    }
}

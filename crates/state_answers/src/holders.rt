//! Tasks, by their PIDs.

ghost use Rattle.std.specs.Prelude.{◌≡◌, ◌<◌, ◌++◌, OnOk};
ghost use Rattle.hist_model.specs.Signals.{held};
ghost use Rattle.hist_model.specs.Tasks.{parent};
ghost use Rattle.history_frames.specs.Ordinals.{task_name_of, tasks_made};
ghost use Rattle.model_kernel.specs.Kernels.{IsKernel, past};
ghost use Rattle.state_answers.specs.Looks.{is_received, parent_pid, pid_text, state_text, task_state, task_text};

use audit_log::line::LineBuffer;
use audit_log::words::push_name;
use hist_model::notification::State;
use hist_model::text::TaskName;
use model_kernel::Kernel;
use std::alloc::Global;
use sys_abi::memory::NoMemory;

/// The name of a task's parent: its own without the last number.
fn parent(name: &[u32]) -> &[u32]
    ensures { result.now ≡ parent name.now }
{
    &name[..name.len().saturating_sub(1)]
}

/// The PID of the parent of a task; 0 where that has ended, and where there is none.
fn parent_pid(kernel: &Kernel, name: &[u32]) -> u32
    requires { IsKernel kernel.now }
    ensures { result ≡ parent_pid (past kernel.now) name.now }
{
    let Some(task) = kernel.find(parent(name)) else {
        return 0;
    };
    if kernel.has_ended(task) {
        0
    } else {
        kernel.pid(task)
    }
}

/// Whether a task waits in a call that was received.
fn is_received(state: Option<State>) -> bool
    ensures { result ≡ is_received state }
{
    matches!(state, Some(State::Fetched | State::Answered))
}

/// Whether only fatal signals end the wait of a task.
#[tactic(auto, using(crate::proofs::Held::received_is))]
fn is_held(kernel: &Kernel, task: u32) -> bool
    requires kernel { IsKernel kernel.now }
    requires made { task < tasks_made (past kernel.now) }
    ensures { result ≡ held kernel.now.script.killable (past kernel.now) (task_name_of (past kernel.now) task) }
{
    kernel.script().killable && is_received(kernel.call_state(task))
}

/// The word of how a task is.
fn state_word(gone: bool, able: bool, held: bool) -> &'static str
    ensures { result.now ≡ state_text gone able held }
{
    if gone {
        "zombie"
    } else if able {
        "running"
    } else if held {
        "disk-sleep"
    } else {
        "sleeping"
    }
}

/// The word of how the task of an ordinal is.
fn task_state(kernel: &Kernel, task: u32) -> &'static str
    requires kernel { IsKernel kernel.now }
    requires made { task < tasks_made (past kernel.now) }
    ensures { result.now ≡ task_state kernel.now.script (past kernel.now) (task_name_of (past kernel.now) task) }
{
    state_word(
        kernel.has_ended(task),
        kernel.can_step(task),
        is_held(kernel, task),
    )
}

/// Adds the line of the task of an ordinal.
fn push_task(
    alloc: Global,
    line: &mut LineBuffer,
    kernel: &Kernel,
    task: u32,
) -> Result<(), NoMemory>
    requires kernel { IsKernel kernel.now }
    requires made { task < tasks_made (past kernel.now) }
    ensures { OnOk result (line.new ≡ line.old ++ task_text kernel.now.script (past kernel.now) (task_name_of (past kernel.now) task)) }
{
    let name = kernel.name_of(task);
    line.push("look task ")?;
    push_name(line, &TaskName::of(alloc, name)?)?;
    line.push(" ppid ")?;
    line.push_number(u64::from(parent_pid(kernel, name)))?;
    line.push(" state ")?;
    line.push(task_state(kernel, task))?;
    line.push("\n")
}

/// Adds the line of the task that holds a PID.
pub(crate) fn push_holder(
    alloc: Global,
    line: &mut LineBuffer,
    kernel: &Kernel,
    pid: u32,
) -> Result<(), NoMemory>
    requires { IsKernel kernel.now }
    ensures { OnOk result (line.new ≡ line.old ++ pid_text kernel.now.script (past kernel.now) pid) }
{
    match kernel.holder(pid) {
        Some(task) => push_task(alloc, line, kernel, task),
        None => line.push("look none\n"),
    }
}

//! Who is able to step.

ghost use Rattle.std.specs.Prelude.{◌≡◌, ◌++◌, OnOk};
ghost use Rattle.model_kernel.specs.Kernels.{IsKernel, past};
ghost use Rattle.state_answers.specs.Able.{able_tasks, able_text};
ghost use Rattle.state_answers.specs.Able.{able_name, able_recv};
ghost use Rattle.history_frames.specs.Ordinals.{tasks_made};

use audit_log::line::LineBuffer;
use audit_log::words::push_name;
use hist_model::text::TaskName;
use model_kernel::Kernel;
use std::alloc::Global;
use sys_abi::memory::NoMemory;

/// Adds the name of a task, where it is able to step.
fn push_able(alloc: Global, line: &mut LineBuffer, able: bool, name: &[u32]) -> Result<(), NoMemory>
    ensures { OnOk result (line.new ≡ line.old ++ able_name able name.now) }
{
    if !able {
        return Ok(());
    }
    line.push(" ")?;
    push_name(line, &TaskName::of(alloc, name)?)
}

/// Adds the names of the tasks that are able to step, in the order in which they were made.
fn push_tasks(alloc: Global, line: &mut LineBuffer, kernel: &Kernel) -> Result<(), NoMemory>
    requires { IsKernel kernel.now }
    ensures { OnOk result (line.new ≡ line.old ++ able_tasks kernel.now.script (past kernel.now) (tasks_made (past kernel.now))) }
{
    let made = kernel.tasks() as u32;
    for task in 0..made {
        push_able(alloc, line, kernel.can_step(task), kernel.name_of(task))?;
    }
    Ok(())
}

/// Adds that a receive wouldn't wait, where it wouldn't.
fn push_receive(line: &mut LineBuffer, able: bool) -> Result<(), NoMemory>
    ensures { OnOk result (line.new ≡ line.old ++ able_recv able) }
{
    if able { line.push(" recv") } else { Ok(()) }
}

/// Adds the line of those who are able to step.
pub fn push_who_is_able(
    alloc: Global,
    line: &mut LineBuffer,
    kernel: &Kernel,
) -> Result<(), NoMemory>
    requires { IsKernel kernel.now }
    ensures { OnOk result (line.new ≡ line.old ++ able_text kernel.now.script (past kernel.now)) }
{
    line.push("able")?;
    push_tasks(alloc, line, kernel)?;
    push_receive(line, kernel.request_count() != 0)?;
    line.push("\n")
}

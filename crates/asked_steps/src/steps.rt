//! The steps of tasks and of workers, without what they came to.

ghost use Rattle.std.specs.Prelude.{◌≤◌, OnOk};
ghost use Rattle.model_kernel.specs.Kernels.{IsKernel, past};
ghost use Rattle.asked_steps.specs.Stands.{CameTo};
ghost use Rattle.asked_steps.specs.Steps.{after_asked, after_task};

use crate::asking::ask;
use hist_model::text::TaskName;
use model_kernel::{CannotStep, Kernel};
use std::alloc::Global;
use step_requests::Asked;
use sys_abi::memory::NoMemory;

/// Lets the task of a name step, if it can. After want of memory nothing is said of the kernel.
pub fn step_task(alloc: Global, kernel: &mut Kernel, name: &TaskName) -> Result<(), NoMemory>
    requires { IsKernel kernel.old }
    ensures { OnOk result (CameTo kernel.old (after_task kernel.old.script (past kernel.old) name.now) kernel.new) }
{
    let Some(task) = kernel.find(name.items()) else {
        return Ok(());
    };
    let ready = kernel.ready_task(alloc, task)?;
    match kernel.task_step(task, ready) {
        Ok(()) => Ok(()),
        Err(CannotStep) => Ok(()),
    }
}

/// Does what a worker asks for, if it can be done. After want of memory nothing is said of the kernel.
#[tactic(auto, using(crate::proofs::Stepping::worker_came))]
pub fn do_asked(
    alloc: Global,
    kernel: &mut Kernel,
    worker: u8,
    asked: &Asked,
) -> Result<(), NoMemory>
    requires kernel { IsKernel kernel.old }
    requires worker { worker ≤ 16 }
    ensures { OnOk result (CameTo kernel.old (after_asked kernel.old.script (past kernel.old) worker asked.now) kernel.new) }
{
    let _came = ask(alloc, kernel, worker, asked)?;
    Ok(())
}

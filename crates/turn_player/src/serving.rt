//! The steps of this project's workers.

ghost use Rattle.std.specs.Prelude.{◌≡◌, ◌≤◌, [], length, IfOk, OnOk};
ghost use Rattle.broker_machine.specs.Workers.{AllRemember};
ghost use Rattle.hist_model.specs.declared.policy.Policy.{Policy as PolicyValue};
ghost use Rattle.model_kernel.specs.Kernels.{IsKernel, past};
ghost use Rattle.asked_steps.specs.Stands.{CameTo};
ghost use Rattle.turn_player.specs.Serving.{Knows};
ghost use Rattle.turn_player.specs.Turns.{after_times, is_allowed, served};

use broker_core::deed::Deed;
use broker_core::worker::Worker;
use broker_machine::worker_turn;
use hist_model::policy::Policy;
use hist_model::script::Figures;
use model_kernel::Kernel;
use std::alloc::Global;
use sys_abi::memory::NoMemory;

/// How many workers a schedule may have: 0 to 15.
const WORKERS: usize = 16;

/// As many workers as a schedule may have, each without a session.
pub(crate) fn idle_workers(alloc: Global, figures: Figures) -> Result<Vec<Worker>, NoMemory>
    ensures number { IfOk result (λ v. length v.items ≡ 16) }
    ensures idle { IfOk result (λ v. (P : PolicyValue) → AllRemember P figures [] v.items) }
{
    // (room for all comes first, so that want of memory leaves none to let go)
    let mut workers = Vec::with_capacity(alloc, WORKERS)?;
    for _ in 0..WORKERS {
        workers.push_reserved(Worker::new(alloc, figures));
    }
    Ok(workers)
}

/// Whether what a worker has open, and whether it has a request for a descriptor, allow what it does next.
fn is_allowed(kernel: &Kernel, number: u8, next: &Deed) -> bool
    requires { IsKernel kernel.now }
    ensures { result ≡ is_allowed (past kernel.now) number next.now }
{
    match next {
        Deed::Plant { .. } => kernel.holds_mem(number),
        Deed::AddfdPut(_) => !kernel.has_request(number),
        Deed::AddfdTake => kernel.has_request(number),
        Deed::Recv
        | Deed::OpenMem { .. }
        | Deed::OpenBase { .. }
        | Deed::Check { .. }
        | Deed::Read { .. }
        | Deed::Act { .. }
        | Deed::Send { .. }
        | Deed::LetGo => true,
    }
}

/// Lets a worker make the step that it has next, if it can.
pub(crate) fn serve(
    alloc: Global,
    policy: &Policy,
    kernel: &mut Kernel,
    number: u8,
    worker: &mut Worker,
) -> Result<(), NoMemory>
    requires kernel { IsKernel kernel.old }
    requires number { number ≤ 15 }
    requires knows { Knows policy.now kernel.old number worker.old }
    ensures came { OnOk result (CameTo kernel.old (served policy.now kernel.old.script number (past kernel.old)) kernel.new) }
    ensures knows { OnOk result (Knows policy.now kernel.new number worker.new) }
{
    // (in a legal history this holds; beside the workers of another broker it is looked at)
    if !is_allowed(kernel, number, &worker.next()) {
        return Ok(());
    }
    let _came = worker_turn(alloc, policy, kernel, number, worker)?;
    Ok(())
}

/// Lets a worker make so many steps, each if it can.
pub(crate) fn serve_often(
    alloc: Global,
    policy: &Policy,
    kernel: &mut Kernel,
    number: u8,
    worker: &mut Worker,
    count: u32,
) -> Result<(), NoMemory>
    requires kernel { IsKernel kernel.old }
    requires number { number ≤ 15 }
    requires knows { Knows policy.now kernel.old number worker.old }
    ensures came { OnOk result (CameTo kernel.old (after_times (served policy.now kernel.old.script number) (past kernel.old) count) kernel.new) }
    ensures knows { OnOk result (Knows policy.now kernel.new number worker.new) }
{
    for _ in 0..count {
        serve(alloc, policy, kernel, number, worker)?;
    }
    Ok(())
}

//! What workers ask of the kernel.

ghost use Rattle.std.specs.Prelude.{◌≡◌, ◌<◌, ◌≤◌, Err, if◌then◌else◌};
ghost use Rattle.hist_model.specs.Calls.{named};
ghost use Rattle.hist_model.specs.Deeds as deed;
ghost use Rattle.hist_model.specs.Effects.{effect};
ghost use Rattle.hist_model.specs.Steps.{check_answer, is_spent};
ghost use Rattle.path_walk.specs.Performed.{room_wanted};
ghost use Rattle.sys_abi.specs.Errnos.{edquot};
ghost use Rattle.model_kernel.specs.Kernels.{DoesDeed, IsKernel, past, system};
ghost use Rattle.model_kernel.specs.Spent.{HasRoom as HasSpentRoom};

use hist_model::boxed::Boxed;
use hist_model::policy::Cap;
use hist_model::request::Request;
use model_kernel::Kernel;
use sys_abi::errno::Errno;

/// A worker asks whether an id is valid.
pub fn check(kernel: &mut Kernel, worker: u8, id: u64) -> Result<(), Errno>
    requires kernel { IsKernel kernel.old }
    requires room { 0 < kernel.old.history.spare }
    ensures answer { result ≡ check_answer (past kernel.old) (named (past kernel.old) id) }
    ensures done { DoesDeed kernel.old worker (deed.Check id) kernel.new }
{
    kernel.check(worker, id)
}

/// A worker does what a request asks for, as often as the cap allows.
pub fn act(
    kernel: &mut Kernel,
    worker: u8,
    request: Boxed<Request>,
    cap: Option<Cap>,
) -> Result<(), Errno>
    requires kernel { IsKernel kernel.old }
    requires room { 0 < kernel.old.history.spare }
    requires spent { HasSpentRoom kernel.old.resources.spent cap }
    requires tree { room_wanted (effect request) ≤ kernel.old.resources.tree.spare }
    ensures deed { DoesDeed kernel.old worker (deed.Act request cap) kernel.new }
    ensures answer { result ≡ (if is_spent (past kernel.old) cap then Err edquot else (system kernel.old).outcome (past kernel.old) worker request) }
{
    kernel.act(worker, request, cap)
}

/// A worker closes what it opened for a notification.
pub fn let_go(kernel: &mut Kernel, worker: u8)
    requires kernel { IsKernel kernel.old }
    requires worker { worker ≤ 16 }
    requires room { 0 < kernel.old.history.spare }
    ensures { DoesDeed kernel.old worker deed.LetGo kernel.new }
{
    kernel.let_go(worker);
}

//! What a look sees.

ghost use Rattle.std.specs.Prelude.{◌≡◌, ◌++◌, OnOk};
ghost use Rattle.model_kernel.specs.Kernels.{IsKernel, past};
ghost use Rattle.state_answers.specs.Looks.{look_text};

use crate::descriptors::push_descriptor;
use crate::holders::push_holder;
use crate::listeners::push_listener;
use crate::paths::push_path;
use audit_log::line::LineBuffer;
use model_kernel::Kernel;
use std::alloc::Global;
use step_requests::Look;
use sys_abi::memory::NoMemory;

/// Adds the line of what a look sees.
pub fn push_look(
    alloc: Global,
    line: &mut LineBuffer,
    kernel: &Kernel,
    look: &Look,
) -> Result<(), NoMemory>
    requires { IsKernel kernel.now }
    ensures { OnOk result (line.new ≡ line.old ++ look_text kernel.now.script (past kernel.now) look.now) }
{
    match look {
        Look::Pid { pid } => push_holder(alloc, line, kernel, *pid),
        Look::Fd { pid, number } => push_descriptor(line, kernel, *pid, *number),
        Look::Path {
            pid,
            dirfd,
            path,
            follows,
        } => push_path(alloc, line, kernel, *pid, *dirfd, path.items(), *follows),
        Look::Listener => push_listener(line, kernel),
    }
}

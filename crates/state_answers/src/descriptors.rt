//! What descriptors lead to.

ghost use Rattle.std.specs.Prelude.{◌≡◌, ◌++◌, OnOk};
ghost use Rattle.hist_model.specs.Legal.{tree};
ghost use Rattle.model_kernel.specs.Kernels.{IsKernel, past};
ghost use Rattle.state_answers.specs.Looks.{fd_text, object_of, object_text};

use crate::nodes::push_node;
use audit_log::line::LineBuffer;
use hist_model::request::Obj;
use model_kernel::Kernel;
use mount_tree::tree::Tree;
use sys_abi::memory::NoMemory;

/// Adds the line of what a descriptor leads to, if it is open.
fn push_object(line: &mut LineBuffer, tree: &Tree, object: Option<Obj>) -> Result<(), NoMemory>
    ensures { OnOk result (line.new ≡ line.old ++ object_text tree.now.tree object) }
{
    match object {
        None => line.push("look none\n"),
        Some(Obj::Console) => line.push("look console\n"),
        Some(Obj::Broker(number)) => {
            line.push("look file ")?;
            line.push_number(u64::from(number))?;
            line.push("\n")
        }
        Some(Obj::Node(node)) => push_node(line, tree, node),
    }
}

/// What a descriptor of the living task that holds a PID leads to.
fn object_of(kernel: &Kernel, pid: u32, number: u32) -> Option<Obj>
    requires { IsKernel kernel.now }
    ensures { result ≡ object_of kernel.now.script (past kernel.now) pid number }
{
    kernel.descriptor(pid, number)
}

/// Adds the line of what a descriptor of the task that holds a PID leads to.
pub(crate) fn push_descriptor(
    line: &mut LineBuffer,
    kernel: &Kernel,
    pid: u32,
    number: u32,
) -> Result<(), NoMemory>
    requires { IsKernel kernel.now }
    ensures { OnOk result (line.new ≡ line.old ++ fd_text kernel.now.script (past kernel.now) pid number) }
{
    push_object(line, kernel.tree(), object_of(kernel, pid, number))
}

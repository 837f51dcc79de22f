//! The act of a native call.

ghost use Rattle.std.specs.Prelude.{◌≡◌, ℕ, List, ◌∷◌, IfOk, OnErr};
ghost use Rattle.hist_model.specs.Look.{Name, ev};
ghost use Rattle.hist_model.specs.Files.{files};
ghost use Rattle.hist_model.specs.Natives.{native_step, native_answer};
ghost use Rattle.hist_model.specs.declared.event.Actor.TheVariants.{Task};
ghost use Rattle.hist_model.specs.declared.event.Event.{Event};
ghost use Rattle.hist_model.specs.declared.event.What.TheVariants.{Native};
ghost use Rattle.hist_model.specs.declared.script.Script.{Script};
ghost use Rattle.task_groups.specs.Groups.{IsLive};
ghost use Rattle.native_calls.specs.Stands.{StandFor, IsDue, IsRun, MarksDone, IsReady};

use crate::call::NativeCall;
use crate::files::close;
use crate::memory::write_sysinfo;
use crate::requests::run_request;
use hist_model::request::NodeRef;
use hist_model::script::Figures;
use mount_tree::tree::Tree;
use path_walk::resolution::Walk;
use sys_abi::errno::Errno;
use task_groups::Groups;

/// What native calls ask of a container: its root, and the figures of sysinfo(2).
#[derive(Clone, Copy, Debug)]
pub struct Container {
    pub root: NodeRef,
    pub figures: Figures,
}

/// The task that makes a call: the ordinal of its group, and its PID.
#[derive(Clone, Copy, Debug)]
pub struct Caller {
    pub group: u32,
    pub pid: u32,
}

/// Does the step of a call, and answers it.
fn act(
    call: NativeCall,
    container: &Container,
    caller: Caller,
    tree: &mut Tree,
    walk: &mut Walk,
    groups: &mut Groups,
) -> Result<u32, Errno>
    requires live { IsLive groups.old caller.group }
    requires room { IsReady call caller.group tree.old.spare groups.old }
    ensures run { IsRun container.now caller call result tree.old.tree tree.new.tree groups.old groups.new }
    ensures marks { IfOk result (λ m. MarksDone call caller.group m groups.old groups.new) }
    ensures refused { OnErr result ((tree.new ≡ tree.old) × (groups.new ≡ groups.old)) }
{
    let group = caller.group;
    match call {
        NativeCall::Close { number } => close(groups, group, number),
        NativeCall::GetPid => Ok(caller.pid),
        NativeCall::Sysinfo { addr } => write_sysinfo(groups, group, &container.figures, addr),
        NativeCall::Request {
            dirfd,
            request: Ok(request),
        } => run_request(tree, walk, groups, container.root, group, dirfd, &request),
        NativeCall::Request {
            request: Err(errno),
            ..
        } => Err(errno),
        NativeCall::Unknown => Err(Errno::ENOSYS),
    }
}

/// Runs a prepared call of a task, for which `ready` made room: answers it, and applies it to what it changes, in one walk of
/// its path. It takes no memory, and after an errno all is as it was.
///
/// close(2) answers EBADF for a number that isn't open. getpid(2) gives the task's number. sysinfo(2) stores the host's figures,
/// and answers EFAULT where they don't fit in mapped memory. A call with paths answers the fault of its arguments first, and
/// a relative path from a number that leads to no directory EBADF; then mknod(2) and setxattr(2) answer what the tree does, but
/// EPERM for a device that the tree would take and for an attribute that isn't the user's own; mount(2) answers EPERM; and
/// openat(2) gives the lowest free number, and answers EMFILE where none below the limit is free. Every other call is ENOSYS.
pub fn run(
    call: NativeCall,
    container: &Container,
    caller: Caller,
    tree: &mut Tree,
    walk: &mut Walk,
    groups: &mut Groups,
) -> Result<u32, Errno>
    requires live { IsLive groups.old caller.group }
    requires room { IsReady call caller.group tree.old.spare groups.old }
    ensures answer { (S : Script) (K : List Event) (living handles : ℕ → ℕ) (n : Name) → IsDue S K living handles n container.now caller call tree.old.tree groups.old
        → result ≡ native_answer (native_step S K (files S K) n) }
    ensures step { (S : Script) (K : List Event) (living handles : ℕ → ℕ) (n : Name) → IsDue S K living handles n container.now caller call tree.old.tree groups.old
        → StandFor S (ev (Task n) (Native result) ∷ K) living handles tree.new.tree groups.new }
    ensures marks { IfOk result (λ m. MarksDone call caller.group m groups.old groups.new) }
    ensures refused { OnErr result ((tree.new ≡ tree.old) × (groups.new ≡ groups.old)) }
{
    act(call, container, caller, tree, walk, groups)
}

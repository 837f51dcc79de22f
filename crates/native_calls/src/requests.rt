//! Requests that a task makes natively: without rights it makes no device, mounts nothing, and sets attributes of the user's
//! own names alone (mknod(2), mount(2), setxattr(2), openat(2), xattr(7)).

ghost use Rattle.std.specs.Prelude.{◌≡◌, ◌≤◌, ℕ, IfOk, OnErr};
ghost use Rattle.task_groups.specs.Groups.{IsLive};
ghost use Rattle.task_groups.specs.Rows.{HasDescriptorRoom};
ghost use Rattle.native_calls.specs.Done.{RequestRun, RequestMarks, room_natively};

use crate::changes::{change, device_errno, makes_device, may_set};
use crate::files::{base_of, open};
use hist_model::request::{NodeRef, Request};
use mount_tree::tree::Tree;
use path_walk::effects::follow;
use path_walk::resolution::Walk;
use sys_abi::errno::Errno;
use sys_abi::wire::is_cloexec;
use task_groups::Groups;

/// Runs a request of a group with its arguments read, whose relative paths go from a descriptor. There is room for it.
pub(crate) fn run_request(
    tree: &mut Tree,
    walk: &mut Walk,
    groups: &mut Groups,
    root: NodeRef,
    group: u32,
    dirfd: i32,
    request: &Request,
) -> Result<u32, Errno>
    requires live { IsLive groups.old group }
    requires tree { room_natively request.now ≤ tree.old.spare }
    requires room { HasDescriptorRoom groups.old group }
    ensures run { RequestRun root.ordinal group dirfd request.now result tree.old.tree tree.new.tree groups.old groups.new }
    ensures marks { IfOk result (λ n. RequestMarks group request.now n groups.old groups.new) }
    ensures refused { OnErr result ((tree.new ≡ tree.old) × (groups.new ≡ groups.old)) }
{
    let base = base_of(tree, groups, root, group, dirfd);
    match request {
        Request::Mknod { path, mode, .. } => {
            if makes_device(*mode) {
                return Err(device_errno(tree, walk, root, base, path.items()));
            }
            change(tree, walk, root, base, request)
        }
        Request::SetXattr { name, flags, .. } => {
            if !may_set(name.items(), *flags) {
                return Err(Errno::EPERM);
            }
            change(tree, walk, root, base, request)
        }
        Request::OpenAt { path, flags, .. } => {
            let node = follow(tree, root, base, path.items(), walk)?;
            open(groups, group, node, is_cloexec(*flags))
        }
        _ => Err(Errno::EPERM),
    }
}

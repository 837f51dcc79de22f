//! Numbers of a descriptor table, as native calls use them (close(2), openat(2)).

ghost use Rattle.std.specs.Prelude.{◌≡◌, ℕ, List, Some, None, IfOk, OnOk, OnErr};
ghost use Rattle.hist_model.specs.Trees.{ordinal_of};
ghost use Rattle.hist_model.specs.Natives as natives;
ghost use Rattle.hist_model.specs.Natives.{root, directory_in, close_natively, open_at_number};
ghost use Rattle.hist_model.specs.Files.{files};
ghost use Rattle.hist_model.specs.declared.event.Event.{Event};
ghost use Rattle.hist_model.specs.declared.script.Script.{Script};
ghost use Rattle.history_frames.specs.Ordinals.{group_of};
ghost use Rattle.task_groups.specs.Groups.{Holds, IsLive};
ghost use Rattle.task_groups.specs.Rows.{IsSound, SetsMark, HasDescriptorRoom};
ghost use Rattle.task_groups.specs.Stands.{StandsFor};
ghost use Rattle.task_groups.specs.State.{State, free_of};
ghost use Rattle.native_calls.specs.Done.{GroupsRun};

use hist_model::request::{NodeRef, Obj};
use mount_tree::tree::Tree;
use sys_abi::errno::Errno;
use sys_abi::wire::AT_FDCWD;
use task_groups::{Groups, NotOpen, OverLimit};

/// The directory to which a number of a group leads.
fn open_directory(tree: &Tree, groups: &Groups, group: u32, number: u32) -> Option<NodeRef>
    requires { IsLive groups.now group }
    ensures { (s : State) → Holds s groups.now → ordinal_of result ≡ directory_in tree.now.tree ((s.contents group).slot number) }
{
    match groups.get(group, number) {
        Some(Obj::Node(node)) if tree.is_dir(node) => Some(node),
        _ => None,
    }
}

/// The directory from which relative paths of a group go: the container's root for AT_FDCWD, and an open directory for another
/// number. None for a number that isn't open, or that leads to something else.
pub fn base_of(
    tree: &Tree,
    groups: &Groups,
    root: NodeRef,
    group: u32,
    dirfd: i32,
) -> Option<NodeRef>
    requires { IsLive groups.now group }
    ensures { (S : Script) (K : List Event) (living handles : ℕ → ℕ) (g : ℕ) → StandsFor S K living handles groups.now → group_of K group ≡ Some g → tree.now.tree ≡ (files S K).tree → root.ordinal ≡ natives.root S
        → ordinal_of result ≡ natives.base_of S (files S K) g dirfd }
{
    match u32::try_from(dirfd) {
        Ok(number) => open_directory(tree, groups, group, number),
        Err(_) if dirfd == AT_FDCWD => Some(root),
        Err(_) => None,
    }
}

/// Closes a number of a group: EBADF where it isn't open.
pub(crate) fn close(groups: &mut Groups, group: u32, number: u32) -> Result<u32, Errno>
    requires { IsLive groups.old group }
    ensures run { (s : State) → Holds s groups.old → GroupsRun s group None (close_natively number ((s.contents group).slot number)) result groups.new }
    ensures marks { OnOk result (IsSound groups.old → SetsMark groups.old group number None groups.new) }
    ensures refused { OnErr result (groups.new ≡ groups.old) }
{
    match groups.close(group, number) {
        Ok(()) => Ok(0),
        Err(NotOpen) => Err(Errno::EBADF),
    }
}

/// Opens the lowest free number of a group for a node, for which there is room: EMFILE where none below the limit is free.
pub(crate) fn open(
    groups: &mut Groups,
    group: u32,
    node: NodeRef,
    cloexec: bool,
) -> Result<u32, Errno>
    requires live { IsLive groups.old group }
    requires room { HasDescriptorRoom groups.old group }
    ensures run { (s : State) → Holds s groups.old → GroupsRun s group None (open_at_number node.ordinal (free_of s group)) result groups.new }
    ensures marks { IfOk result (λ n. IsSound groups.old → SetsMark groups.old group n (Some cloexec) groups.new) }
    ensures refused { OnErr result (groups.new ≡ groups.old) }
{
    match groups.open(group, Obj::Node(node), cloexec) {
        Ok(number) => Ok(number),
        Err(OverLimit) => Err(Errno::EMFILE),
    }
}

//! Changes of the tree, as native calls answer them (mknod(2), setxattr(2)).

ghost use Rattle.std.specs.Prelude.{◌≡◌, ◌≤◌, ◌||◌, ℕ, List, true, nat_eq, codes, OnErr};
ghost use Rattle.std.specs.List.{starts_with};
ghost use Rattle.hist_model.specs.Trees.{ordinal_of};
ghost use Rattle.hist_model.specs.Paths.{Create, reaches};
ghost use Rattle.hist_model.specs.Effects.{effect, making, made, perform};
ghost use Rattle.hist_model.specs.Requests.{kind_of};
ghost use Rattle.hist_model.specs.Natives as natives;
ghost use Rattle.hist_model.specs.Natives.{changed, is_device, is_refused, make_natively};
ghost use Rattle.hist_model.specs.declared.request.Node.{Node};
ghost use Rattle.path_walk.specs.Performed.{room_wanted};
ghost use Rattle.native_calls.specs.Done.{TreeRun};

use hist_model::request::{Kind, NodeRef, Request};
use mount_tree::attr_flags::are_attr_flags;
use mount_tree::tree::Tree;
use path_walk::effects::perform_request;
use path_walk::places::{Last, Place};
use path_walk::resolution::{Walk, resolve};
use sys_abi::errno::Errno;
use sys_abi::memory::OrNoMemory;

/// Does what a request asks for, for which there is room in the tree.
#[tactic(auto, using(crate::proofs::Runs::change_made, crate::proofs::Runs::change_refused))]
pub(crate) fn change(
    tree: &mut Tree,
    walk: &mut Walk,
    root: NodeRef,
    base: Option<NodeRef>,
    request: &Request,
) -> Result<u32, Errno>
    requires { room_wanted (effect request.now) ≤ tree.old.spare }
    ensures run { TreeRun (changed (perform tree.old.tree root.ordinal (ordinal_of base) (effect request.now))) result tree.old.tree tree.new.tree }
    ensures refused { OnErr result (tree.new ≡ tree.old) }
{
    match perform_request(tree, root, base, request, walk) {
        Ok(()) => Ok(0),
        Err(OrNoMemory::Refused(errno)) => Err(errno),
        Err(OrNoMemory::NoMemory) => unreachable!(),
    }
}

/// Whether a mode asks for a device.
pub(crate) fn makes_device(mode: u16) -> bool
    ensures { (path : List ℕ) (dev : ℕ) → result ≡ is_device (making path dev (kind_of mode)) }
{
    matches!(Kind::of_mode(mode), Kind::Chr | Kind::Blk)
}

/// Why no device is made at a path: EPERM where the tree would take the node. The tree stays as it is.
pub(crate) fn device_errno(
    tree: &Tree,
    walk: &mut Walk,
    root: NodeRef,
    base: Option<NodeRef>,
    path: &[u8],
) -> Errno
    ensures { (node : Node) → make_natively true (made tree.now.tree node (reaches tree.now.tree root.ordinal (ordinal_of base) path.now Create)) ≡ natives.Fails result }
{
    match resolve(tree, root, base, path, Last::Create, walk) {
        Ok(Place::New { dir }) => match tree.entry(dir, walk.name()) {
            Some(_) => Errno::EEXIST,
            None => Errno::EPERM,
        },
        Ok(Place::At(_)) => Errno::EEXIST,
        Err(error) => error.errno(),
    }
}

/// Whether setting an attribute is left to the tree: for a name of the user's own, and for flags that the tree refuses.
pub(crate) fn may_set(name: &[u8], flags: u32) -> bool
    ensures { (path : List ℕ) (value : List ℕ) → result ≡ (is_refused (effect (Request.SetXattr path name.now value flags)) || starts_with nat_eq name.now (codes "user.")) }
{
    !are_attr_flags(flags) || name.starts_with(b"user.")
}

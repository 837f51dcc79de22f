//! What requests do to the tree.

ghost use Rattle.std.specs.Prelude.{◌≡◌, ◌+◌, ℕ, false, List, length, MatchResult};
ghost use Rattle.hist_model.specs.Trees.{ordinal_of};
ghost use Rattle.hist_model.specs.Paths.{Follow, At, reaches};
ghost use Rattle.hist_model.specs.Effects.{effect, making, mounting, perform};
ghost use Rattle.hist_model.specs.Requests.{kind_of};
ghost use Rattle.hist_model.specs.TreeOps.{TreeOp};
ghost use Rattle.mount_tree.specs.Changes.{row_of, row_length};
ghost use Rattle.path_walk.specs.Performed.{IsPerformed, IsNotFollowed, making_of, room_wanted};

use crate::places::{Last, Place};
use crate::resolution::{Walk, resolve};
use hist_model::request::{Kind, Node, NodeRef, Request, node_device};
use mount_tree::attr_flags::are_attr_flags;
use mount_tree::errors::AttrError;
use mount_tree::mounts::NewMount;
use mount_tree::tree::Tree;
use sys_abi::device::split_dev;
use sys_abi::errno::Errno;
use sys_abi::memory::{NoMemory, OrNoMemory};

/// An attribute that is to be set, with the flags of setxattr(2).
#[derive(Clone, Copy, Debug)]
pub struct AttrChange<'a> {
    pub name: &'a [u8],
    pub value: &'a [u8],
    pub flags: u32,
}

/// The node at a path, or the errno of the walk.
pub fn follow(
    tree: &Tree,
    root: NodeRef,
    base: Option<NodeRef>,
    path: &[u8],
    walk: &mut Walk,
) -> Result<NodeRef, Errno>
    ensures { MatchResult result
        (λ n. reaches tree.now.tree root.ordinal (ordinal_of base) path.now Follow ≡ At n.ordinal)
        (λ e. IsNotFollowed (reaches tree.now.tree root.ordinal (ordinal_of base) path.now Follow) e) }
{
    match resolve(tree, root, base, path, Last::Follow, walk) {
        Ok(Place::At(node)) => Ok(node),
        Ok(Place::New { .. }) => Err(Errno::ENOENT),
        Err(error) => Err(error.errno()),
    }
}

/// Makes a node at a path (mknod(2)), as `perform` does. `NoMemory` comes only where the tree isn't ready for 255 bytes.
pub fn make(
    tree: &mut Tree,
    root: NodeRef,
    base: Option<NodeRef>,
    path: &[u8],
    node: Node,
    walk: &mut Walk,
) -> Result<(), OrNoMemory<Errno>>
    ensures { IsPerformed 256 tree.old tree.new (perform tree.old.tree root.ordinal (ordinal_of base) (TreeOp.Make path.now node)) result }
{
    let dir = match resolve(tree, root, base, path, Last::Create, walk) {
        Ok(Place::New { dir }) => dir,
        Ok(Place::At(_)) => return Err(OrNoMemory::Refused(Errno::EEXIST)),
        Err(error) => return Err(OrNoMemory::Refused(error.errno())),
    };
    match tree.make_node(dir, walk.name(), node) {
        Ok(_) => Ok(()),
        Err(OrNoMemory::Refused(_)) => Err(OrNoMemory::Refused(Errno::EEXIST)),
        Err(OrNoMemory::NoMemory) => Err(OrNoMemory::NoMemory),
    }
}

/// Mounts something on the directory at a path (mount(2)), as `perform` does. `NoMemory` comes only where the tree isn't ready
/// for the texts of the row.
pub fn mount(
    tree: &mut Tree,
    root: NodeRef,
    base: Option<NodeRef>,
    target: &[u8],
    row: NewMount<'_>,
    walk: &mut Walk,
) -> Result<(), OrNoMemory<Errno>>
    ensures { IsPerformed (row_length (row_of row.entry) + 1) tree.old tree.new
        (perform tree.old.tree root.ordinal (ordinal_of base) (TreeOp.Mount target.now (row_of row.entry))) result }
{
    let dir = match follow(tree, root, base, target, walk) {
        Ok(dir) => dir,
        Err(errno) => return Err(OrNoMemory::Refused(errno)),
    };
    if !tree.is_dir(dir) {
        return Err(OrNoMemory::Refused(Errno::ENOTDIR));
    }
    match tree.mount_at(dir, row) {
        Ok(_) => Ok(()),
        Err(NoMemory) => Err(OrNoMemory::NoMemory),
    }
}

/// Sets an attribute of the node at a path (setxattr(2)), as `perform` does. `NoMemory` comes only where the tree isn't ready for
/// the name and the value.
pub fn set_attr(
    tree: &mut Tree,
    root: NodeRef,
    base: Option<NodeRef>,
    path: &[u8],
    change: AttrChange<'_>,
    walk: &mut Walk,
) -> Result<(), OrNoMemory<Errno>>
    ensures { IsPerformed (length change.entry.name.now + length change.entry.value.now + 1) tree.old tree.new
        (perform tree.old.tree root.ordinal (ordinal_of base)
        (TreeOp.SetAttr path.now change.entry.name.now change.entry.value.now change.entry.flags)) result }
{
    if !are_attr_flags(change.flags) {
        return Err(OrNoMemory::Refused(Errno::EINVAL));
    }
    let node = match follow(tree, root, base, path, walk) {
        Ok(node) => node,
        Err(errno) => return Err(OrNoMemory::Refused(errno)),
    };
    match tree.set_attr(node, change.name, change.value, change.flags) {
        Ok(()) => Ok(()),
        Err(AttrError::BadFlags) => Err(OrNoMemory::Refused(Errno::EINVAL)),
        Err(AttrError::Exists) => Err(OrNoMemory::Refused(Errno::EEXIST)),
        Err(AttrError::Absent) => Err(OrNoMemory::Refused(Errno::ENODATA)),
        Err(AttrError::NoMemory) => Err(OrNoMemory::NoMemory),
    }
}

/// The node at a path is there (openat(2)); the tree stays as it is.
fn open(
    tree: &mut Tree,
    root: NodeRef,
    base: Option<NodeRef>,
    path: &[u8],
    walk: &mut Walk,
) -> Result<(), OrNoMemory<Errno>>
    ensures { IsPerformed 0 tree.old tree.new (perform tree.old.tree root.ordinal (ordinal_of base) (TreeOp.Open path.now false)) result }
{
    match follow(tree, root, base, path, walk) {
        Ok(_) => Ok(()),
        Err(errno) => Err(OrNoMemory::Refused(errno)),
    }
}

/// Makes the node that a mode and a device ask for, if they ask for one.
fn make_asked(
    tree: &mut Tree,
    root: NodeRef,
    base: Option<NodeRef>,
    path: &[u8],
    node: Result<Node, Errno>,
    walk: &mut Walk,
) -> Result<(), OrNoMemory<Errno>>
    ensures { IsPerformed (room_wanted (making_of path.now node)) tree.old tree.new (perform tree.old.tree root.ordinal (ordinal_of base) (making_of path.now node)) result }
{
    match node {
        Ok(node) => make(tree, root, base, path, node, walk),
        Err(errno) => Err(OrNoMemory::Refused(errno)),
    }
}

/// Mounts a file system of a type: EINVAL where it has none.
fn mount_typed(
    tree: &mut Tree,
    root: NodeRef,
    base: Option<NodeRef>,
    target: &[u8],
    row: NewMount<'_>,
    walk: &mut Walk,
) -> Result<(), OrNoMemory<Errno>>
    ensures { IsPerformed (room_wanted (mounting target.now (row_of row.entry) row.entry.fstype.now)) tree.old tree.new
        (perform tree.old.tree root.ordinal (ordinal_of base) (mounting target.now (row_of row.entry) row.entry.fstype.now)) result }
{
    if row.fstype.is_empty() {
        return Err(OrNoMemory::Refused(Errno::EINVAL));
    }
    mount(tree, root, base, target, row, walk)
}

/// The node that a mode and a device ask for (mknod(2)): EPERM for a directory, and EINVAL for a mode without a kind.
fn asked_node(mode: u16, dev: u32) -> Result<Node, Errno>
    ensures { (path : List ℕ) → making_of path result ≡ making path dev (kind_of mode) }
{
    let (major, minor) = split_dev(dev);
    match Kind::of_mode(mode) {
        Kind::Reg => Ok(Node::Reg),
        Kind::Chr => Ok(Node::Chr(major, minor)),
        Kind::Blk => Ok(Node::Blk(major, minor)),
        Kind::Fifo => Ok(Node::Fifo),
        Kind::Sock => Ok(Node::Sock),
        Kind::Dir => Err(Errno::EPERM),
        Kind::Bad => Err(Errno::EINVAL),
    }
}

/// Does what a request asks for, with paths from a container's root and from a base, as `perform` does its effect. The path is
/// walked once: what was resolved is changed. The request is only read.
///
/// Each errno comes exactly as the definitions have it, and leaves the tree as it is. It takes no memory. `NoMemory` comes only
/// where the tree isn't ready for the request's texts.
pub fn perform_request(
    tree: &mut Tree,
    root: NodeRef,
    base: Option<NodeRef>,
    request: &Request,
    walk: &mut Walk,
) -> Result<(), OrNoMemory<Errno>>
    ensures { IsPerformed (room_wanted (effect request.now)) tree.old tree.new (perform tree.old.tree root.ordinal (ordinal_of base) (effect request.now)) result }
{
    match request {
        Request::Mknod {
            path,
            mode,
            dev,
            ..
        } => make_asked(
            tree,
            root,
            base,
            path.items(),
            asked_node(*mode, node_device(*dev)),
            walk,
        ),
        Request::Mount {
            source,
            target,
            fstype,
            options,
            via,
            flags,
            shift,
        } => {
            let row = NewMount {
                source: source.items(),
                fstype: fstype.items(),
                flags: *flags,
                options: options.items(),
                via: via.items(),
                shift: *shift,
            };
            mount_typed(tree, root, base, target.items(), row, walk)
        }
        Request::SetXattr {
            path,
            name,
            value,
            flags,
        } => {
            let change = AttrChange {
                name: name.items(),
                value: value.items(),
                flags: *flags,
            };
            set_attr(tree, root, base, path.items(), change, walk)
        }
        Request::OpenAt { path, .. } => open(tree, root, base, path.items(), walk),
        _ => Err(OrNoMemory::Refused(Errno::ENOSYS)),
    }
}

//! Where paths lead.

ghost use Rattle.std.specs.Prelude.{◌≡◌, ◌++◌, false, IfOk, MatchResult, OnOk};
ghost use Rattle.hist_model.specs.Legal.{tree};
ghost use Rattle.hist_model.specs.Natives.{root};
ghost use Rattle.hist_model.specs.Paths.{At};
ghost use Rattle.hist_model.specs.Trees.{entry, node_at, ordinal_of};
ghost use Rattle.path_walk.specs.Performed.{IsNotFollowed};
ghost use Rattle.model_kernel.specs.Kernels.{IsKernel, past};
ghost use Rattle.state_answers.specs.Looks.{error_text, is_link, path_text, place_of, place_text, unfollowed_entry};

use crate::nodes::push_node;
use audit_log::line::LineBuffer;
use audit_log::words::push_errno;
use hist_model::request::{Node, NodeRef};
use model_kernel::Kernel;
use mount_tree::tree::Tree;
use path_walk::effects::follow;
use path_walk::places::{Last, Place, WalkError};
use path_walk::resolution::{Walk, resolve};
use std::alloc::Global;
use sys_abi::errno::Errno;
use sys_abi::memory::NoMemory;

/// Whether a node is a link.
fn is_link(tree: &Tree, node: NodeRef) -> bool
    ensures { result ≡ is_link (node_at tree.now.tree node.ordinal) }
{
    matches!(tree.get(node), Some(Node::Link(_)))
}

/// The entry of a directory under a name, which isn't followed.
fn entry_in(tree: &Tree, dir: NodeRef, name: &[u8]) -> Result<NodeRef, Errno>
    ensures { MatchResult result
        (λ n. unfollowed_entry tree.now.tree (entry tree.now.tree dir.ordinal name.now) ≡ At n.ordinal)
        (λ e. IsNotFollowed (unfollowed_entry tree.now.tree (entry tree.now.tree dir.ordinal name.now)) e) }
{
    match tree.entry(dir, name) {
        None => Err(Errno::ENOENT),
        Some(node) if is_link(tree, node) => Ok(node),
        Some(node) => Ok(tree.top(node)),
    }
}

/// The node to which a path leads whose last component isn't followed.
fn unfollowed(
    tree: &Tree,
    root: NodeRef,
    base: Option<NodeRef>,
    path: &[u8],
    walk: &mut Walk,
) -> Result<NodeRef, Errno>
    ensures { MatchResult result
        (λ n. place_of tree.now.tree root.ordinal (ordinal_of base) path.now false ≡ At n.ordinal)
        (λ e. IsNotFollowed (place_of tree.now.tree root.ordinal (ordinal_of base) path.now false) e) }
{
    match resolve(tree, root, base, path, Last::Create, walk) {
        Ok(Place::New { dir }) => entry_in(tree, dir, walk.name()),
        Ok(Place::At(node)) => Ok(node),
        // There is no name at the end that could be a link's.
        Err(WalkError::Exists) => follow(tree, root, base, path, walk),
        Err(error) => Err(error.errno()),
    }
}

/// The node to which a path leads.
fn node_of(
    alloc: Global,
    tree: &Tree,
    root: NodeRef,
    base: Option<NodeRef>,
    path: &[u8],
    follows: bool,
) -> Result<Result<NodeRef, Errno>, NoMemory>
    ensures { IfOk result (λ found. MatchResult found
        (λ n. place_of tree.now.tree root.ordinal (ordinal_of base) path.now follows ≡ At n.ordinal)
        (λ e. IsNotFollowed (place_of tree.now.tree root.ordinal (ordinal_of base) path.now follows) e)) }
{
    let mut walk = Walk::new(alloc)?;
    if follows {
        Ok(follow(tree, root, base, path, &mut walk))
    } else {
        Ok(unfollowed(tree, root, base, path, &mut walk))
    }
}

/// Adds the line of an error.
fn push_error(line: &mut LineBuffer, error: Errno) -> Result<(), NoMemory>
    ensures { OnOk result (line.new ≡ line.old ++ error_text error) }
{
    line.push("look error ")?;
    push_errno(line, error)?;
    line.push("\n")
}

/// Adds the line of where a path leads, from a base.
fn push_place(
    alloc: Global,
    line: &mut LineBuffer,
    kernel: &Kernel,
    base: Option<NodeRef>,
    path: &[u8],
    follows: bool,
) -> Result<(), NoMemory>
    requires { IsKernel kernel.now }
    ensures { OnOk result (line.new ≡ line.old ++ place_text (tree kernel.now.script (past kernel.now)) (place_of (tree kernel.now.script (past kernel.now)) (root kernel.now.script) (ordinal_of base) path.now follows)) }
{
    let tree = kernel.tree();
    match node_of(alloc, tree, kernel.script().root, base, path, follows)? {
        Ok(node) => push_node(line, tree, node),
        Err(error) => push_error(line, error),
    }
}

/// Adds the line of where a path leads that the task which holds a PID would walk from a descriptor.
pub(crate) fn push_path(
    alloc: Global,
    line: &mut LineBuffer,
    kernel: &Kernel,
    pid: u32,
    dirfd: i32,
    path: &[u8],
    follows: bool,
) -> Result<(), NoMemory>
    requires { IsKernel kernel.now }
    ensures { OnOk result (line.new ≡ line.old ++ path_text kernel.now.script (past kernel.now) pid dirfd path.now follows) }
{
    match kernel.base_for(pid, dirfd) {
        Ok(base) => push_place(alloc, line, kernel, base, path, follows),
        Err(error) => push_error(line, error),
    }
}

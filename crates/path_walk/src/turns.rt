//! What one component of a path says.

ghost use Rattle.std.specs.Prelude.{◌≡◌, ◌≤◌, length};
ghost use Rattle.hist_model.specs.Paths.{is_dot, is_dot_dot, looked_up, named, stepped, turn, creates};
ghost use Rattle.hist_model.specs.Trees.{entry};
ghost use Rattle.path_walk.specs.Places.{last_of};
ghost use Rattle.path_walk.specs.Turns.{turn_of, ending_of, IsShort, IsShortTurn};

use crate::places::{Last, WalkError};
use hist_model::request::{Node, NodeRef};
use mount_tree::tree::Tree;

/// How a walk ends before its components do.
#[derive(Debug, Drop)]
pub enum Ending<'a> {
    /// At the name of a new node.
    Named { dir: NodeRef, name: &'a [u8] },
    Failed(WalkError),
}

/// What one component says.
#[derive(Debug, Drop)]
pub enum Turn<'a> {
    Ends(Ending<'a>),
    /// The walk goes on from this node.
    Goes(NodeRef),
    /// The entry is a link with this target.
    Follows(&'a [u8]),
}

/// Whether the last component is the name of a new node.
pub fn creates(last: Last) -> bool
    ensures { result ≡ creates (last_of last) }
{
    matches!(last, Last::Create)
}

/// The component `.`, the directory itself.
fn is_dot(component: &[u8]) -> bool
    ensures { result ≡ is_dot component.now }
{
    component == b".".as_slice()
}

/// The component `..`, the directory above.
fn is_dot_dot(component: &[u8]) -> bool
    ensures { result ≡ is_dot_dot component.now }
{
    component == b"..".as_slice()
}

/// A component that names an entry.
fn looked_up<'a>(tree: &'a Tree, dir: NodeRef, name: &[u8]) -> Turn<'a>
    ensures turn { turn_of result ≡ looked_up tree.now.tree (entry tree.now.tree dir.ordinal name.now) }
    ensures short { IsShortTurn result }
{
    let Some(found) = tree.entry(dir, name) else {
        return Turn::Ends(Ending::Failed(WalkError::NoEntry));
    };
    match tree.node(found) {
        Node::Link(target) => Turn::Follows(target.items()),
        _ => Turn::Goes(tree.top(found)),
    }
}

/// A component that isn't the name of a new node.
fn stepped<'a>(tree: &'a Tree, root: NodeRef, n: NodeRef, component: &[u8]) -> Turn<'a>
    ensures turn { turn_of result ≡ stepped tree.now.tree root.ordinal n.ordinal component.now }
    ensures short { IsShortTurn result }
{
    if is_dot(component) {
        Turn::Goes(n)
    } else if is_dot_dot(component) {
        Turn::Goes(tree.up(root, n))
    } else {
        looked_up(tree, n, component)
    }
}

/// The name of a new node, of at most 255 bytes.
fn named(dir: NodeRef, name: &[u8]) -> Ending<'_>
    requires { length name.now ≤ 255 }
    ensures ending { ending_of result ≡ named dir.ordinal name.now }
    ensures short { IsShort result }
{
    if is_dot(name) || is_dot_dot(name) {
        Ending::Failed(WalkError::Exists)
    } else {
        Ending::Named { dir, name }
    }
}

/// One component at a node; `names` where it is the name of a new node.
pub fn take_component<'a>(
    tree: &'a Tree,
    root: NodeRef,
    names: bool,
    n: NodeRef,
    component: &'a [u8],
) -> Turn<'a>
    ensures turn { turn_of result ≡ turn tree.now.tree root.ordinal names n.ordinal component.now }
    ensures short { IsShortTurn result }
{
    if !tree.is_dir(n) {
        Turn::Ends(Ending::Failed(WalkError::NotDir))
    } else if component.len() > 255 {
        Turn::Ends(Ending::Failed(WalkError::NameTooLong))
    } else if names {
        Turn::Ends(named(n, component))
    } else {
        stepped(tree, root, n, component)
    }
}

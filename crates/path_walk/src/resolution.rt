//! Walks of whole paths.

ghost use Rattle.std.specs.Prelude.{◌≡◌, [], ℕ, ◌≤◌, not, ◌&&◌, ◌||◌, if◌then◌else◌, Some, List, ◌++◌, length, Option, IfOk, IfErr};
ghost use Rattle.hist_model.specs.Trees.{ordinal_of};
ghost use Rattle.hist_model.specs.Paths.{components, none_left, creates, is_absolute, link_start, arrived, walk, reaches};
ghost use Rattle.path_walk.specs.Places.{last_of, place_of};
ghost use Rattle.path_walk.specs.Turns.{IsShort, ending_of};

use crate::components::{has_none, next_component};
use crate::places::{Last, Place, WalkError};
use crate::turns::{Ending, Turn, creates, take_component};
use hist_model::request::NodeRef;
use mount_tree::tree::Tree;
use std::alloc::Global;
use std::marker::Model;
use sys_abi::memory::NoMemory;

/// As many links as one walk follows.
const MAX_LINKS: u32 = 40;

/// The bytes of a name, at most (path_resolution(7)).
const MAX_NAME: usize = 255;

/// The room of walks. Contracts see it as the name that the last walk to a new node left.
#[derive(Drop)]
pub struct Walk {
    name: Vec<u8>,
}

impl Model for Walk {
    ghost use Rattle.std.specs.Prelude.{ℕ, List, ◌≤◌, vec_capacity, vec_len};

    ghost Value = { List ℕ };

    ghost view = { λ w. w.name.items };

    ghost invariant = { λ w. (vec_len w.name ≤ 255) × (255 ≤ vec_capacity w.name) };
}

impl Walk {
    /// Takes the memory of every later walk.
    pub fn new(alloc: Global) -> Result<Walk, NoMemory>
        ensures { IfOk result (λ w. w ≡ []) }
    {
        Ok(Walk {
            name: Vec::with_capacity(alloc, MAX_NAME)?,
        })
    }

    /// The name of the new node to which the last walk led; at most 255 bytes.
    pub fn name(&self) -> &[u8]
        ensures name { result.now ≡ self.now }
        ensures short { length result.now ≤ 255 }
    {
        self.name.as_slice()
    }

    /// Keeps a name.
    fn keep(&mut self, name: &[u8])
        requires { length name.now ≤ 255 }
        ensures { self.new ≡ name.now }
    {
        self.name.clear();
        let _ = self.name.extend_from_slice(name);
    }
}

/// Where a text led, and how many links may still be followed.
#[derive(Clone, Copy)]
pub struct Reached {
    node: NodeRef,
    links: u32,
}

/// Whether a path goes from the root.
fn is_absolute(path: &[u8]) -> bool
    ensures { result ≡ is_absolute path.now }
{
    !path.is_empty() && path[0] == b'/'
}

/// Where a link's target is walked from.
fn link_start(root: NodeRef, n: NodeRef, target: &[u8]) -> NodeRef
    ensures { result.ordinal ≡ link_start root.ordinal n.ordinal target.now }
{
    if is_absolute(target) { root } else { n }
}

/// Whether components come after a text of which this is left.
fn has_more(more: bool, rest: &[u8]) -> bool
    ensures { result ≡ (more || not (none_left (components rest.now))) }
{
    more || !has_none(rest)
}

/// Whether a component is the name of a new node.
fn names_node(last: Last, more: bool) -> bool
    ensures { result ≡ (creates (last_of last) && not more) }
{
    creates(last) && !more
}

impl Reached {
    ghost use Rattle.path_walk.specs.Walks.{place_after};

    /// Walks one text, after which `more` components come or none, following at most `links` links.
    fn by_text<'a>(
        tree: &'a Tree,
        root: NodeRef,
        last: Last,
        more: bool,
        links: u32,
        start: NodeRef,
        text: &'a [u8],
    ) -> Result<Reached, Ending<'a>>
        ensures place { (cs : List (List ℕ)) → none_left cs ≡ not more
            → walk links tree.now.tree root.ordinal (last_of last) start.ordinal (components text.now ++ cs)
            ≡ place_after tree.now.tree root.ordinal (last_of last) cs result }
        ensures links { IfOk result (λ r. r.links ≤ links) }
        ensures short { IfErr result IsShort }
    {
        let mut here = Reached { node: start, links };
        let mut unread = text;
        while let Some((component, rest)) = next_component(unread) {
            let more = has_more(more, rest);
            let names = names_node(last, more);
            match take_component(tree, root, names, here.node, component) {
                Turn::Ends(ending) => return Err(ending),
                Turn::Goes(node) => here.node = node,
                Turn::Follows(target) => {
                    if here.links == 0 {
                        return Err(Ending::Failed(WalkError::Loop));
                    }
                    let from = link_start(root, here.node, target);
                    match Reached::by_text(tree, root, last, more, here.links - 1, from, target) {
                        Ok(reached) => here = reached,
                        Err(ending) => return Err(ending),
                    }
                }
            }
            unread = rest;
        }
        Ok(here)
    }
}

/// Where a path that isn't empty is walked from.
fn start(root: NodeRef, base: Option<NodeRef>, path: &[u8]) -> Option<NodeRef>
    ensures { ordinal_of result ≡ (if is_absolute path.now then Some root.ordinal else ordinal_of base) }
{
    if is_absolute(path) { Some(root) } else { base }
}

/// No component is left at a node.
fn arrived(last: Last, node: NodeRef) -> Result<Place, WalkError>
    ensures { (name : List ℕ) → place_of result name ≡ arrived (last_of last) node.ordinal }
{
    match last {
        Last::Follow => Ok(Place::At(node)),
        Last::Create => Err(WalkError::Exists),
    }
}

/// The walk ended before the components did.
fn ended(ending: Ending<'_>, walk: &mut Walk) -> Result<Place, WalkError>
    requires { IsShort ending }
    ensures { place_of result walk.new ≡ ending_of ending.entry }
{
    match ending {
        Ending::Named { dir, name } => {
            walk.keep(name);
            Ok(Place::New { dir })
        }
        Ending::Failed(error) => Err(error),
    }
}

/// Where a path of a container leads: from the container's root where it begins with `/`, and from a base otherwise.
/// It takes no memory. After `New` the walk keeps the name.
///
/// `NoEntry` comes for the empty path and for a missing entry; `NoBase` for a relative path without a base; and for a component, in this order,
/// `NotDir` where it is sought in what isn't a directory, and `NameTooLong` where it has more than 255 bytes. `Exists` comes for a path
/// whose last component can't be a name, and `Loop` at the 41st link.
pub fn resolve(
    tree: &Tree,
    root: NodeRef,
    base: Option<NodeRef>,
    path: &[u8],
    last: Last,
    walk: &mut Walk,
) -> Result<Place, WalkError>
    ensures { place_of result walk.new ≡ reaches tree.now.tree root.ordinal (ordinal_of base) path.now (last_of last) }
{
    if path.is_empty() {
        return Err(WalkError::NoEntry);
    }
    let Some(start) = start(root, base, path) else {
        return Err(WalkError::NoBase);
    };
    match Reached::by_text(tree, root, last, false, MAX_LINKS, start, path) {
        Ok(reached) => arrived(last, reached.node),
        Err(ending) => ended(ending, walk),
    }
}

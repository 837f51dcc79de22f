//! The rows that a tree of nodes is made of.

use crate::request::{MountRow, Node};
use crate::text::Text;

/// A node, with its place in the tree. Its own ordinal is the number of nodes made before it.
#[derive(Debug, Drop)]
pub struct NodeRow {
    /// The ordinal of the directory in which it lies; none for the root of a mount. `/` lies in itself.
    pub parent: Option<u32>,
    /// Its name there; empty for `/` and for the root of a mount.
    pub name: Text,
    pub node: Node,
}

/// An extended attribute (xattr(7)).
#[derive(Debug, Drop)]
pub struct AttrRow {
    /// The ordinal of the node that has it.
    pub on: u32,
    pub name: Text,
    pub value: Text,
}

/// A mount: the ordinals of the directory that it covers and of its own root (mount(2)).
#[derive(Debug, Drop)]
pub struct Mounted {
    pub target: u32,
    pub root: u32,
    pub row: MountRow,
}

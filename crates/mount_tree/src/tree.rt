//! The tree, with its changes.

ghost use Rattle.std.specs.Prelude.{◌≡◌, ◌++◌, true, false, ◌<◌, ◌≤◌, ◌+◌, length, Some, IfOk, IfNone, IfSome, OnOk, OnErr, None, is_some};
ghost use Rattle.hist_model.specs.Trees.{bare_tree, stated, with_line, with_node, with_mount, with_attr, ordinal_of, entry, node_at, is_dir_at, attr, up, top, mount_on, target_of, parent_of, row_in};
ghost use Rattle.mount_tree.specs.Looks.{has_value, newest_root};
ghost use Rattle.mount_tree.specs.Stacks.{IsApart};
ghost use Rattle.mount_tree.specs.Written.{tree_part};

use crate::attr_flags::{are_attr_flags, creates_attr, replaces_attr};
use crate::copies::copy_node;
use crate::errors::{AttrError, Exists};
use crate::mounts::{Mounts, NewMount};
use crate::rooms::Rooms;
use crate::search::row;
use crate::table::Table;
use crate::written::{push_attrs, push_mounts, push_rows};
use hist_model::request::{Node, NodeRef};
use hist_model::script::TreeLine;
use hist_model::text::Text;
use hist_model::tree::{AttrRow, Mounted, NodeRow};
use std::alloc::Global;
use std::marker::Model;
use sys_abi::memory::{NoMemory, OrNoMemory};

/// A tree: its nodes, their attributes and its mounts. Contracts see it as `hist_model`'s definitions do, beside `spare`,
/// which is one more than the bytes for which `ready` made room, or 0.
pub struct Tree {
    nodes: Table<NodeRow>,
    attrs: Table<AttrRow>,
    mounts: Mounts,
    rooms: Rooms,
}

impl Model for Tree {
    ghost use Rattle.std.specs.Prelude.{◌≡◌, ◌<◌, true};
    ghost use Rattle.mount_tree.specs.Changes.{Seen};
    ghost use Rattle.mount_tree.specs.Stacks.{AreRooted};

    ghost Value = { Seen };

    ghost view = { λ t. record { tree = record { nodes = t.nodes.rows; attrs = t.attrs.rows; mounts = t.mounts.rows }; spare = t.rooms } };

    ghost invariant = { λ t. (0 < t.rooms → t.nodes.roomy ≡ true) × (0 < t.rooms → t.attrs.roomy ≡ true) × (0 < t.rooms → t.mounts.roomy ≡ true)
        × AreRooted t.nodes.rows t.mounts.rows };
}

// (written out, so that what letting one go comes to is proved here once, and not in each crate that owns one)
impl Drop for Tree {
    fn drop(self) {
        let Tree {
            nodes: _nodes,
            attrs: _attrs,
            mounts: _mounts,
            rooms: _rooms,
        } = self;
    }
}

impl Tree {
    ghost use Rattle.mount_tree.specs.Changes.{NodeMade, AttrSet, row_of, row_length};

    /// The tree of `/` alone.
    #[tactic(auto, using(crate::proofs::Under::none_rooted))]
    pub fn new(alloc: Global) -> Result<Tree, NoMemory>
        ensures { IfOk result (λ t. t ≡ record { tree = bare_tree; spare = 0 }) }
    {
        let mut nodes = Table::new(alloc);
        nodes.reserve()?;
        nodes.push(NodeRow {
            parent: Some(0),
            name: Text::new(Vec::new(alloc)),
            node: Node::Dir,
        });
        Ok(Tree {
            nodes,
            attrs: Table::new(alloc),
            mounts: Mounts::new(alloc),
            rooms: Rooms::new(alloc),
        })
    }

    /// Adds the key of this tree, by which equal ones are found. Fails for want of memory alone; then a front of the key was added.
    #[tactic(auto, using(crate::proofs::WrittenParts::turned_back))]
    pub fn write_key(&self, key: &mut Vec<u8>) -> Result<(), NoMemory>
        ensures { OnOk result (key.new.items ≡ key.old.items ++ tree_part self.now.tree) }
    {
        push_rows(key, self.nodes.rows())?;
        push_attrs(key, self.attrs.rows())?;
        push_mounts(key, self.mounts.rows())
    }

    /// Makes room for one change whose texts have at most `len` bytes together. After `NoMemory` the tree is as it was.
    pub fn ready(&mut self, len: u32) -> Result<(), NoMemory>
        ensures kept { self.new.tree ≡ self.old.tree }
        ensures room { OnOk result (len < self.new.spare) }
        ensures unchanged { OnErr result (self.new ≡ self.old) }
    {
        self.make_room(len as usize)
    }

    /// Makes room for one change whose texts have at most `len` bytes together. What the last change took beyond its need
    /// is given back.
    fn make_room(&mut self, len: usize) -> Result<(), NoMemory>
        ensures kept { self.new.tree ≡ self.old.tree }
        ensures room { OnOk result (len < self.new.spare) }
        ensures unchanged { OnErr result (self.new ≡ self.old) }
    {
        self.nodes.make_exact()?;
        self.attrs.make_exact()?;
        self.mounts.make_exact()?;
        self.nodes.reserve()?;
        self.attrs.reserve()?;
        self.mounts.reserve()?;
        self.rooms.reserve(len)
    }

    /// The directory's entry under a name; none exactly where it has no such entry.
    pub fn entry(&self, dir: NodeRef, name: &[u8]) -> Option<NodeRef>
        ensures entry { ordinal_of result ≡ entry self.now.tree dir.ordinal name.now }
        ensures made { IfSome result (λ n. n.ordinal < length self.now.tree.nodes) }
    {
        match self.nodes.entry(dir.ordinal, name) {
            Some(ordinal) => Some(NodeRef { ordinal }),
            None => None,
        }
    }

    /// A node that was made.
    #[tactic(auto, using(crate::proofs::Places::row_in_past))]
    pub fn node(&self, n: NodeRef) -> &Node
        requires { n.ordinal < length self.now.tree.nodes }
        ensures { node_at self.now.tree n.ordinal ≡ Some result.now }
    {
        &self.nodes.rows()[n.ordinal as usize].node
    }

    /// The node of an ordinal; none where no such node was made.
    pub fn get(&self, n: NodeRef) -> Option<&Node>
        ensures some { IfSome result (λ node. node_at self.now.tree n.ordinal ≡ Some node.now) }
        ensures none { IfNone result (node_at self.now.tree n.ordinal ≡ None) }
    {
        match row(self.nodes.rows(), n.ordinal) {
            Some(row) => Some(&row.node),
            None => None,
        }
    }

    /// Whether there is such a node, and it is a directory.
    pub fn is_dir(&self, n: NodeRef) -> bool
        ensures dir { result ≡ is_dir_at self.now.tree n.ordinal }
        ensures made { result ≡ true → n.ordinal < length self.now.tree.nodes }
    {
        match row(self.nodes.rows(), n.ordinal) {
            Some(row) => matches!(row.node, Node::Dir),
            None => false,
        }
    }

    /// What is seen at a node: the root of the newest mount on it, repeatedly, or the node itself (mount(2)).
    #[tactic(auto, using(crate::proofs::Walks::top_step), unfolding(hist_model::specs::Trees::top_through))]
    pub fn top(&self, n: NodeRef) -> NodeRef
        ensures { result.ordinal ≡ top self.now.tree n.ordinal }
    {
        let mut ordinal = self.mounts.near_top(n.ordinal);
        let mut left = self.mounts.len();
        while left > 0 {
            match self.mounts.mount_on(ordinal) {
                Some(root) => ordinal = root,
                None => return NodeRef { ordinal },
            }
            left -= 1;
        }
        NodeRef { ordinal }
    }

    /// Whether something is mounted on a node.
    pub fn has_mount(&self, n: NodeRef) -> bool
        ensures { result ≡ is_some (mount_on self.now.tree.mounts n.ordinal) }
    {
        self.mounts.mount_on(n.ordinal).is_some()
    }

    /// The root of the newest mount; none where nothing is mounted.
    pub fn newest_mount(&self) -> Option<NodeRef>
        ensures { ordinal_of result ≡ newest_root self.now.tree.mounts }
    {
        match self.mounts.newest() {
            Some(ordinal) => Some(NodeRef { ordinal }),
            None => None,
        }
    }

    /// The parent of a node; none for the root of a mount.
    fn parent(&self, n: u32) -> Option<u32>
        ensures { result ≡ parent_of (row_in self.now.tree.nodes n) }
    {
        match row(self.nodes.rows(), n) {
            Some(row) => row.parent,
            None => None,
        }
    }

    /// Whether the container's root may lie among the mounts over a bottom.
    #[tactic(auto, using(crate::proofs::Under::apart_bottoms, crate::proofs::Under::apart_itself))]
    fn may_lie_over(&self, root: u32, bottom: u32) -> bool
        ensures { result ≡ false → target_of self.now.tree.mounts bottom ≡ None → IsApart self.now.tree.mounts root bottom }
    {
        if root == bottom {
            return false;
        }
        match self.mounts.bottom(root) {
            Some(other) => other == bottom,
            None => true,
        }
    }

    /// A node from which `..` leads to the same: the one under all mounts of a stack, unless the container's root may lie among them.
    #[tactic(auto, using(crate::proofs::Under::bottom_up))]
    fn near_up(&self, root: u32, n: u32) -> u32
        ensures { up self.now.tree root result ≡ up self.now.tree root n }
    {
        let Some(bottom) = self.mounts.bottom(n) else {
            return n;
        };
        if self.may_lie_over(root, bottom) {
            n
        } else {
            bottom
        }
    }

    /// What `..` leads to (path_resolution(7)): the container's root at itself, the parent of another node,
    /// and at the root of a mount what it leads to from the directory that the mount covers.
    #[tactic(auto, using(crate::proofs::Walks::up_step), unfolding(hist_model::specs::Trees::up_through))]
    pub fn up(&self, root: NodeRef, n: NodeRef) -> NodeRef
        ensures { result.ordinal ≡ up self.now.tree root.ordinal n.ordinal }
    {
        let mut ordinal = self.near_up(root.ordinal, n.ordinal);
        let mut left = self.mounts.len() + 1;
        while left > 0 {
            if ordinal == root.ordinal {
                return root;
            }
            match self.parent(ordinal) {
                Some(parent) => return NodeRef { ordinal: parent },
                None => match self.mounts.target_of(ordinal) {
                    Some(target) => ordinal = target,
                    None => return NodeRef { ordinal },
                },
            }
            left -= 1;
        }
        NodeRef { ordinal }
    }

    /// Adds a node to a directory.
    #[tactic(auto, using(crate::proofs::Under::rooted_more))]
    fn add_node(&mut self, dir: u32, name: &[u8], node: Node) -> Result<NodeRef, NoMemory>
        ensures made { IfOk result (λ n. n.ordinal ≡ length self.old.tree.nodes) }
        ensures tree { OnOk result (self.new.tree ≡ with_node self.old.tree dir name.now node) }
        ensures kept { OnErr result (self.new ≡ self.old) }
        ensures covered { OnErr result (self.old.spare ≤ length name.now) }
    {
        if !self.rooms.holds(name.len() as u128) {
            return Err(NoMemory);
        }
        let name = self.rooms.text(name);
        let ordinal = self.nodes.push(NodeRow {
            parent: Some(dir),
            name,
            node,
        });
        Ok(NodeRef { ordinal })
    }

    /// Makes a node in a directory (mknod(2)). `Exists` comes exactly where the directory has an entry of that name;
    /// all else succeeds where `ready` made room for the name. It takes no memory.
    pub fn make_node(
        &mut self,
        dir: NodeRef,
        name: &[u8],
        node: Node,
    ) -> Result<NodeRef, OrNoMemory<Exists>>
        ensures { NodeMade self.old self.new dir.ordinal name.now node result }
    {
        if self.entry(dir, name).is_some() {
            return Err(OrNoMemory::Refused(Exists));
        }
        match self.add_node(dir.ordinal, name, node) {
            Ok(made) => Ok(made),
            Err(NoMemory) => Err(OrNoMemory::NoMemory),
        }
    }

    /// Mounts something on a directory (mount(2)): its root is a new, empty directory. It succeeds where `ready` made room for
    /// the texts of the row, and takes no memory.
    #[tactic(auto, using(crate::proofs::Under::rooted_with))]
    pub fn mount_at(&mut self, dir: NodeRef, row: NewMount<'_>) -> Result<NodeRef, NoMemory>
        requires { dir.ordinal < length self.old.tree.nodes }
        ensures made { IfOk result (λ n. n.ordinal ≡ length self.old.tree.nodes) }
        ensures tree { OnOk result (self.new.tree ≡ with_mount self.old.tree dir.ordinal (row_of row.entry)) }
        ensures kept { OnErr result (self.new ≡ self.old) }
        ensures covered { OnErr result (self.old.spare ≤ row_length (row_of row.entry)) }
    {
        if !self.rooms.holds(row.len()) {
            return Err(NoMemory);
        }
        let alloc = self.nodes.allocator();
        let row = self.rooms.mount_row(row);
        let root = self.nodes.push(NodeRow {
            parent: None,
            name: Text::new(Vec::new(alloc)),
            node: Node::Dir,
        });
        self.mounts.push(Mounted {
            target: dir.ordinal,
            root,
            row,
        });
        Ok(NodeRef { ordinal: root })
    }

    /// Adds a row for an attribute that the node doesn't have.
    fn add_attr(&mut self, on: u32, name: &[u8], value: &[u8]) -> Result<(), NoMemory>
        requires { attr self.old.tree on name.now ≡ None }
        ensures tree { OnOk result (self.new.tree ≡ with_attr self.old.tree on name.now value.now) }
        ensures kept { OnErr result (self.new ≡ self.old) }
        ensures covered { OnErr result (self.old.spare ≤ length name.now + length value.now) }
    {
        if !self.rooms.holds(name.len() as u128 + value.len() as u128) {
            return Err(NoMemory);
        }
        let (name, value) = self.rooms.name_and_value(name, value);
        self.attrs.push(AttrRow { on, name, value });
        Ok(())
    }

    /// Gives an attribute a value.
    fn put_attr(&mut self, on: u32, name: &[u8], value: &[u8]) -> Result<(), NoMemory>
        ensures tree { OnOk result (self.new.tree ≡ with_attr self.old.tree on name.now value.now) }
        ensures kept { OnErr result (self.new ≡ self.old) }
        ensures covered { OnErr result (self.old.spare ≤ length name.now + length value.now) }
    {
        let Some(place) = self.attrs.attr(on, name) else {
            return self.add_attr(on, name, value);
        };
        if !self.rooms.holds(value.len() as u128) {
            return Err(NoMemory);
        }
        let value = self.rooms.text(value);
        self.attrs.set_value(place, value);
        Ok(())
    }

    /// Whether the node has the attribute.
    pub fn has_attr(&self, n: NodeRef, name: &[u8]) -> bool
        ensures { result ≡ is_some (attr self.now.tree n.ordinal name.now) }
    {
        self.attrs.attr(n.ordinal, name).is_some()
    }

    /// Whether the node has an attribute of this name with this value.
    #[tactic(auto, using(crate::proofs::Found::value_found, crate::proofs::Found::value_absent))]
    pub fn has_value(&self, n: NodeRef, name: &[u8], value: &[u8]) -> bool
        ensures { result ≡ has_value (attr self.now.tree n.ordinal name.now) value.now }
    {
        match self.attrs.find_row(n.ordinal, name) {
            Some(row) => row.value.items() == value,
            None => false,
        }
    }

    /// Sets an attribute of a node (setxattr(2)): `BadFlags` for a flag other than XATTR_CREATE and XATTR_REPLACE;
    /// then `Exists` for XATTR_CREATE where the node has the attribute, and `Absent` for XATTR_REPLACE where it doesn't.
    /// All else succeeds where `ready` made room for the name and the value. It takes no memory.
    pub fn set_attr(
        &mut self,
        n: NodeRef,
        name: &[u8],
        value: &[u8],
        flags: u32,
    ) -> Result<(), AttrError>
        ensures { AttrSet self.old self.new n.ordinal name.now value.now flags result }
    {
        if !are_attr_flags(flags) {
            return Err(AttrError::BadFlags);
        }
        if self.has_attr(n, name) {
            if creates_attr(flags) {
                return Err(AttrError::Exists);
            }
        } else if replaces_attr(flags) {
            return Err(AttrError::Absent);
        }
        match self.put_attr(n.ordinal, name, value) {
            Ok(()) => Ok(()),
            Err(NoMemory) => Err(AttrError::NoMemory),
        }
    }

    /// Adds what a line of a script states.
    fn add_line(&mut self, alloc: Global, line: &TreeLine) -> Result<(), NoMemory>
        ensures { OnOk result (self.new.tree ≡ with_line self.old.tree line.now) }
    {
        match line {
            TreeLine::Made { parent, name, node } => {
                let node = copy_node(alloc, node)?;
                self.make_room(name.items().len())?;
                self.add_node(parent.ordinal, name.items(), node)?;
                Ok(())
            }
            TreeLine::Attr { on, name, value } => {
                let Some(len) = name.items().len().checked_add(value.items().len()) else {
                    return Err(NoMemory);
                };
                self.make_room(len)?;
                self.put_attr(on.ordinal, name.items(), value.items())
            }
        }
    }

    /// The tree that a script states: `/`, and what its lines add, in order.
    pub fn stated(alloc: Global, lines: &[TreeLine]) -> Result<Tree, NoMemory>
        ensures { IfOk result (λ t. t.tree ≡ stated lines.now) }
    {
        let mut tree = Tree::new(alloc)?;
        for line in lines {
            tree.add_line(alloc, line)?;
        }
        Ok(tree)
    }
}

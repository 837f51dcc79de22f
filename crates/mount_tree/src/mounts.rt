//! The mounts of a tree.

ghost use Rattle.std.specs.Prelude.{◌≡◌, ◌∷◌, ◌+◌, ◌^◌, ◌<◌, [], true, false, None, length, reverse, IfSome, OnOk, OnErr};
ghost use Rattle.hist_model.specs.Trees as trees;
ghost use Rattle.mount_tree.specs.Changes.{row_of, row_length};
ghost use Rattle.mount_tree.specs.Looks.{newest_root};
ghost use Rattle.mount_tree.specs.Stacks.{IsBottom, IsFresh, seen};

use crate::rows::Covered;
use crate::stacks::Stacks;
use crate::table::Table;
use hist_model::tree::Mounted;
use std::alloc::Global;
use std::marker::Model;
use sys_abi::memory::NoMemory;

/// What a mount is made of (mount(2)).
#[derive(Clone, Copy, Debug)]
pub struct NewMount<'a> {
    pub source: &'a [u8],
    pub fstype: &'a [u8],
    pub flags: u64,
    /// The data that the call passed.
    pub options: &'a [u8],
    /// The program that serves the file system; empty for none.
    pub via: &'a [u8],
    /// Whether owners are shifted into the container's range.
    pub shift: bool,
}

impl<'a> NewMount<'a> {
    /// The bytes of its texts together.
    pub fn len(&self) -> u128
        ensures { result ≡ row_length (row_of self.now) }
    {
        self.source.len() as u128
            + self.fstype.len() as u128
            + self.options.len() as u128
            + self.via.len() as u128
    }
}

/// The mounts, which are found by the directories that they cover and by their roots. Contracts see them the newest first.
#[derive(Drop)]
pub struct Mounts {
    rows: Table<Mounted>,
    /// The directories that they cover, by the roots.
    roots: Table<Covered>,
    stacks: Stacks,
}

impl Model for Mounts {
    ghost use Rattle.std.specs.Prelude.{◌≡◌, true, map};
    ghost use Rattle.hist_model.specs.declared.tree.Mounted.{Mounted};
    ghost use Rattle.mount_tree.specs.Keys.{Kept, covered_by};
    ghost use Rattle.mount_tree.specs.Stacks.{Follow, HasRoom};

    ghost Value = { Kept Mounted };

    ghost view = { λ t. t.rows };

    ghost invariant = { λ t. (t.roots.rows ≡ map covered_by t.rows.rows) × (t.rows.roomy ≡ true → t.roots.roomy ≡ true) × (t.rows.roomy ≡ true → HasRoom t.stacks) × Follow t.rows.rows t.stacks };
}

impl Mounts {
    /// The mounts, the oldest first.
    pub fn rows(&self) -> &[Mounted]
        ensures { reverse result.now ≡ self.now.rows }
    {
        self.rows.rows()
    }

    /// No mount, and no room.
    pub fn new(alloc: Global) -> Mounts
        ensures { result ≡ record { rows = []; roomy = false } }
    {
        Mounts {
            rows: Table::new(alloc),
            roots: Table::new(alloc),
            stacks: Stacks::new(alloc),
        }
    }

    /// Makes room for one more.
    pub fn reserve(&mut self) -> Result<(), NoMemory>
        ensures kept { self.new.rows ≡ self.old.rows }
        ensures room { OnOk result (self.new.roomy ≡ true) }
        ensures unchanged { OnErr result (self.new ≡ self.old) }
    {
        self.roots.reserve()?;
        self.stacks.reserve()?;
        self.rows.reserve()
    }

    /// Gives the newest one memory for its texts and no more.
    pub fn make_exact(&mut self) -> Result<(), NoMemory>
        ensures { self.new ≡ self.old }
    {
        self.rows.make_exact()
    }

    /// How many there are.
    pub fn len(&self) -> usize
        ensures count { result ≡ length self.now.rows }
        ensures small { result < 2 ^ 63 }
    {
        self.rows.len()
    }

    /// The root of the newest one.
    pub fn newest(&self) -> Option<u32>
        ensures { result ≡ newest_root self.now.rows }
    {
        match self.rows.rows().last() {
            Some(mount) => Some(mount.root),
            None => None,
        }
    }

    /// The root of the newest mount on a node.
    #[tactic(auto, using(crate::proofs::Found::mount_found, crate::proofs::Found::mount_absent))]
    pub fn mount_on(&self, node: u32) -> Option<u32>
        ensures { result ≡ trees.mount_on self.now.rows node }
    {
        match self.rows.find_row(node, &[]) {
            Some(mount) => Some(mount.root),
            None => None,
        }
    }

    /// The directory that the mount with this root covers.
    #[tactic(auto, using(crate::proofs::Found::target_found, crate::proofs::Found::target_absent))]
    pub fn target_of(&self, root: u32) -> Option<u32>
        ensures { result ≡ trees.target_of self.now.rows root }
    {
        match self.roots.find_row(root, &[]) {
            Some(covered) => Some(covered.target),
            None => None,
        }
    }

    /// A node at which the same is seen, with no mount on it as long as each was put on what is seen at its place.
    pub fn near_top(&self, node: u32) -> u32
        ensures { seen self.now.rows result ≡ seen self.now.rows node }
    {
        self.stacks.near_top(node)
    }

    /// The node under all mounts of a node's stack, or the node itself; none where something was mounted on a root before it was one.
    pub fn bottom(&self, node: u32) -> Option<u32>
        ensures { IfSome result (IsBottom self.now.rows node) }
    {
        self.stacks.bottom(node)
    }

    /// Whether a mount's root is another node than the mount covers, and nothing is mounted on it.
    #[tactic(auto, using(crate::proofs::Piled::is_fresh))]
    fn is_fresh(&self, target: u32, root: u32) -> bool
        ensures { result ≡ true → IsFresh self.now.rows target root }
    {
        if target == root {
            return false;
        }
        self.mount_on(root).is_none()
    }

    /// Whether nothing is mounted on a node.
    fn is_free(&self, node: u32) -> bool
        ensures { result ≡ true → trees.mount_on self.now.rows node ≡ None }
    {
        self.mount_on(node).is_none()
    }

    /// Adds a mount. There is room for it.
    pub fn push(&mut self, mount: Mounted)
        requires { self.old.roomy ≡ true }
        ensures { self.new ≡ record { rows = mount ∷ self.old.rows; roomy = false } }
    {
        let is_fresh = self.is_fresh(mount.target, mount.root);
        let is_free = self.is_free(mount.target);
        self.stacks
            .push(mount.target, mount.root, is_fresh, is_free);
        self.roots.push(Covered {
            root: mount.root,
            target: mount.target,
        });
        self.rows.push(mount);
    }
}

//! Stacks of mounts, one on the root of another.

ghost use Rattle.std.specs.Prelude.{◌≡◌, List, [], ◌∷◌, true, false, None, IfSome, OnOk, OnErr};
ghost use Rattle.hist_model.specs.Trees.{mount_on};
ghost use Rattle.hist_model.specs.declared.tree.Mounted.{Mounted};
ghost use Rattle.mount_tree.specs.Stacks.{Follow, HasRoom, IsBottom, IsFresh, IsOnTop, other_in, seen};

use crate::rows::Alike;
use crate::table::Table;
use std::alloc::Global;
use sys_abi::memory::NoMemory;

/// What is seen at a node with a stack of mounts on it is found in two steps, however high the stack is: from the root of one of
/// its mounts to the node under all of them, and from there to the root of the newest. That is kept as long as each mount is put
/// on what is seen at its place. The first of the two steps is right for each mount whose root is new, so the node under a stack
/// is found also where its mounts form a tree.
#[derive(Drop)]
pub struct Stacks {
    /// The nodes under the stacks, by the roots of the mounts.
    bottoms: Table<Alike>,
    /// The newest roots of the stacks, by the nodes under them.
    tops: Table<Alike>,
    /// Nothing was mounted before on the root of a mount.
    fresh: bool,
    /// Each mount so far was put on top.
    piled: bool,
}

/// The other node of a node's newest row, or the node itself.
#[tactic(auto, using(crate::proofs::Found::other_found, crate::proofs::Found::other_absent))]
fn other(rows: &Table<Alike>, node: u32) -> u32
    ensures { result ≡ other_in rows.now.rows node }
{
    match rows.find_row(node, &[]) {
        Some(alike) => alike.other,
        None => node,
    }
}

impl Stacks {
    /// The stacks of a tree without mounts, without room for any.
    #[tactic(auto, using(crate::proofs::Piled::none_follow))]
    pub fn new(alloc: Global) -> Stacks
        ensures { Follow [] result }
    {
        Stacks {
            bottoms: Table::new(alloc),
            tops: Table::new(alloc),
            fresh: true,
            piled: true,
        }
    }

    /// Makes room for one more mount.
    pub fn reserve(&mut self) -> Result<(), NoMemory>
        ensures follow { (ms : List Mounted) → Follow ms self.old → Follow ms self.new }
        ensures had_room { HasRoom self.old → HasRoom self.new }
        ensures room { OnOk result (HasRoom self.new) }
    {
        self.bottoms.reserve()?;
        self.tops.reserve()
    }

    /// A node at which the same is seen: the root of the newest mount over it, as long as each was put on top.
    pub fn near_top(&self, node: u32) -> u32
        ensures { (ms : List Mounted) → Follow ms self.now → seen ms result ≡ seen ms node }
    {
        if !self.piled {
            return node;
        }
        let bottom = other(&self.bottoms, node);
        other(&self.tops, bottom)
    }

    /// The node under all mounts of a node's stack, or the node itself; none where the root of a mount wasn't fresh.
    pub fn bottom(&self, node: u32) -> Option<u32>
        ensures { (ms : List Mounted) → Follow ms self.now → IfSome result (IsBottom ms node) }
    {
        if self.fresh {
            Some(other(&self.bottoms, node))
        } else {
            None
        }
    }

    /// The root of one more mount leads to the node under its stack, which is given. There is room for the row.
    fn add_bottom(&mut self, target: u32, root: u32) -> u32
        requires { self.old.bottoms.roomy ≡ true }
        ensures bottom { result ≡ other_in self.old.bottoms.rows target }
        ensures rows { self.new.bottoms.rows ≡ record { node = root; other = other_in self.old.bottoms.rows target } ∷ self.old.bottoms.rows }
        ensures tops { self.new.tops ≡ self.old.tops }
        ensures fresh { self.new.fresh ≡ self.old.fresh }
        ensures piled { self.new.piled ≡ self.old.piled }
    {
        let bottom = other(&self.bottoms, target);
        self.bottoms.push(Alike {
            node: root,
            other: bottom,
        });
        bottom
    }

    /// A mount is put on top, as each one before it was. There is room for it.
    fn put_on_top(&mut self, target: u32, root: u32)
        requires piled { self.old.piled ≡ true }
        requires room { HasRoom self.old }
        ensures { (ms : List Mounted) (m : Mounted) → m.target ≡ target → m.root ≡ root → IsOnTop ms target root → Follow ms self.old → Follow (m ∷ ms) self.new }
    {
        let bottom = self.add_bottom(target, root);
        self.tops.push(Alike {
            node: bottom,
            other: root,
        });
    }

    /// A mount with a fresh root isn't put on top. There is room for it.
    fn put_aside(&mut self, target: u32, root: u32)
        requires { HasRoom self.old }
        ensures { (ms : List Mounted) (m : Mounted) → m.target ≡ target → m.root ≡ root → IsFresh ms target root → Follow ms self.old → Follow (m ∷ ms) self.new }
    {
        self.add_bottom(target, root);
        self.piled = false;
    }

    /// A mount with a fresh root is added. There is room for it.
    #[tactic(auto, using(crate::proofs::Piled::is_on_top))]
    fn put(&mut self, target: u32, root: u32, is_free: bool)
        requires { HasRoom self.old }
        ensures { (ms : List Mounted) (m : Mounted) → m.target ≡ target → m.root ≡ root → IsFresh ms target root → (is_free ≡ true → mount_on ms target ≡ None)
            → Follow ms self.old → Follow (m ∷ ms) self.new }
    {
        if self.piled && is_free {
            self.put_on_top(target, root);
        } else {
            self.put_aside(target, root);
        }
    }

    /// A mount is added, whose root is fresh or isn't, on a node that is free or isn't. There is room for it.
    #[tactic(auto, using(crate::proofs::Piled::unkept_follow))]
    pub fn push(&mut self, target: u32, root: u32, is_fresh: bool, is_free: bool)
        requires { HasRoom self.old }
        ensures { (ms : List Mounted) (m : Mounted) → m.target ≡ target → m.root ≡ root → (is_fresh ≡ true → IsFresh ms target root)
            → (is_free ≡ true → mount_on ms target ≡ None) → Follow ms self.old → Follow (m ∷ ms) self.new }
    {
        if is_fresh {
            self.put(target, root, is_free);
        } else {
            self.fresh = false;
            self.piled = false;
        }
    }
}

//! The tree that lines state.

ghost use Rattle.std.specs.Prelude.{◌≡◌};
ghost use Rattle.hist_model.specs.TreeLines.{is_directory};

use crate::error::Fault;
use crate::fault::{full, wrong_if};
use crate::paths::{ROOT, name_of, parent_of};
use crate::settings::PathTarget;
use hist_model::request::{Node, NodeRef};
use hist_model::script::TreeLine;
use hist_model::text::Text;
use lex_core::Reason;
use std::alloc::Global;
use std::collections::BTreeMap;
use sys_abi::memory::{NoMemory, OrNoMemory};

/// The most lines that make a tree.
const MOST_LINES: usize = 10_000;

/// The tree that the lines above state: what each path leads to, how many nodes there are, and the lines.
#[derive(Drop)]
pub struct StatedTree {
    paths: BTreeMap<Vec<u8>, PathTarget>,
    nodes: u32,
    lines: Vec<TreeLine>,
}

/// Whether a node is a directory.
fn is_directory(node: &Node) -> bool
    ensures { result ≡ is_directory node.now }
{
    matches!(node, Node::Dir)
}

impl StatedTree {
    ghost use Rattle.std.specs.Prelude.{length, IfOk, OnOk};
    ghost use Rattle.script_reader.specs.Faults.{Admits, Judges};
    ghost use Rattle.script_reader.specs.Tree as definitions;
    ghost use Rattle.script_reader.specs.Views.{tree_in};

    /// `/` alone.
    pub fn new(alloc: Global) -> Result<StatedTree, NoMemory>
        ensures { IfOk result (λ t. tree_in t ≡ definitions.bare_tree) }
    {
        let mut paths = BTreeMap::new(alloc);
        let root = PathTarget {
            node: NodeRef { ordinal: 0 },
            directory: true,
        };
        paths.insert(Vec::from_slice(alloc, ROOT)?, root)?;
        Ok(StatedTree {
            paths,
            nodes: 1,
            lines: Vec::new(alloc),
        })
    }

    /// What a path leads to.
    fn find(&self, path: &[u8]) -> Option<PathTarget>
        ensures { result ≡ (tree_in self.now).found path.now }
    {
        self.paths.get(path).copied()
    }

    /// Whether a path leads to a directory that is stated.
    pub fn leads_to_directory(&self, path: &[u8]) -> bool
        ensures { result ≡ definitions.leads_to_directory (tree_in self.now) path.now }
    {
        match self.find(path) {
            Some(found) => found.directory,
            None => false,
        }
    }

    /// Whether a path is stated.
    fn is_stated(&self, path: &[u8]) -> bool
        ensures { result ≡ definitions.is_stated (tree_in self.now) path.now }
    {
        self.find(path).is_some()
    }

    /// The node that a path leads to; `/` where it leads to none.
    pub fn node_at(&self, path: &[u8]) -> NodeRef
        ensures { result ≡ definitions.node_at (tree_in self.now) path.now }
    {
        match self.find(path) {
            Some(found) => found.node,
            None => NodeRef { ordinal: 0 },
        }
    }

    fn len(&self) -> usize
        ensures { result ≡ length self.now.lines.items }
    {
        self.lines.len()
    }

    fn refuse_node(&self, path: &[u8]) -> Result<(), Fault>
        ensures { Judges (definitions.node_fault (tree_in self.now) path.now) result }
    {
        wrong_if(
            !self.leads_to_directory(parent_of(path)) || self.is_stated(path),
            Reason::BadPath,
        )?;
        full(MOST_LINES, self.len())
    }

    fn refuse_attr(&self, path: &[u8]) -> Result<(), Fault>
        ensures { Judges (definitions.attr_fault (tree_in self.now) path.now) result }
    {
        wrong_if(!self.is_stated(path), Reason::BadPath)?;
        full(MOST_LINES, self.len())
    }

    fn push(&mut self, line: TreeLine) -> Result<(), NoMemory>
        ensures { OnOk result (tree_in self.new ≡ definitions.with_tree_line line (tree_in self.old)) }
    {
        self.lines.push(line)?;
        Ok(())
    }

    /// One more node, at this path.
    fn lead(&mut self, path: Vec<u8>, directory: bool) -> Result<(), NoMemory>
        ensures { OnOk result (tree_in self.new ≡ definitions.with_path path.items directory (tree_in self.old)) }
    {
        let found = PathTarget {
            node: NodeRef {
                ordinal: self.nodes,
            },
            directory,
        };
        self.nodes = self.nodes.checked_add(1).ok_or(NoMemory)?;
        self.paths.insert(path, found)?;
        Ok(())
    }

    /// The line of a node.
    fn made(&self, alloc: Global, path: &[u8], node: Node) -> Result<TreeLine, NoMemory>
        ensures { IfOk result (λ l. l ≡ definitions.made_line path.now node (tree_in self.now)) }
    {
        let parent = self.node_at(parent_of(path));
        let name = Text::new(Vec::from_slice(alloc, name_of(path))?);
        Ok(TreeLine::Made { parent, name, node })
    }

    /// One more node, and its line.
    fn state_node(&mut self, path: Vec<u8>, directory: bool, line: TreeLine) -> Result<(), NoMemory>
        ensures { OnOk result (tree_in self.new ≡ definitions.with_tree_line line (definitions.with_path path.items directory (tree_in self.old))) }
    {
        self.lead(path, directory)?;
        self.push(line)
    }

    /// States a node. `BadPath` comes where the parent isn't a directory that is stated, or the path is stated.
    pub fn add_node(
        &mut self,
        alloc: Global,
        path: &[u8],
        node: Node,
    ) -> Result<(), OrNoMemory<Fault>>
        ensures { Admits (definitions.node_fault (tree_in self.old) path.now) (definitions.with_node path.now node (tree_in self.old)) result (tree_in self.new) }
    {
        match self.refuse_node(path) {
            Ok(()) => {
                let directory = is_directory(&node);
                let line = self.made(alloc, path, node)?;
                self.state_node(Vec::from_slice(alloc, path)?, directory, line)?;
                Ok(())
            }
            Err(fault) => Err(OrNoMemory::Refused(fault)),
        }
    }

    /// States an attribute. `BadPath` comes where the path isn't stated.
    pub fn add_attr(
        &mut self,
        path: &[u8],
        name: Text,
        value: Text,
    ) -> Result<(), OrNoMemory<Fault>>
        ensures { Admits (definitions.attr_fault (tree_in self.old) path.now) (definitions.with_attr path.now name value (tree_in self.old)) result (tree_in self.new) }
    {
        self.refuse_attr(path).map_err(OrNoMemory::Refused)?;
        let on = self.node_at(path);
        self.push(TreeLine::Attr { on, name, value })?;
        Ok(())
    }

    /// The lines of the tree.
    pub fn into_lines(self) -> Vec<TreeLine>
        ensures { result.items ≡ (tree_in self).lines }
    {
        let StatedTree { lines, .. } = self;
        lines
    }
}

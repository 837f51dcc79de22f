//! Nodes of the tree.

ghost use Rattle.std.specs.Prelude.{◌≡◌, ◌++◌, OnOk};
ghost use Rattle.std.specs.Option.{option_copied};
ghost use Rattle.state_answers.specs.Looks.{device_text, kind_of_text, kind_text, node_text};

use audit_log::line::LineBuffer;
use hist_model::request::{Node, NodeRef};
use mount_tree::tree::Tree;
use sys_abi::memory::NoMemory;

/// Adds the kind of a device, with its numbers.
fn push_device(line: &mut LineBuffer, kind: &str, major: u32, minor: u32) -> Result<(), NoMemory>
    ensures { OnOk result (line.new ≡ line.old ++ device_text kind.now major minor) }
{
    line.push(kind)?;
    line.push_number(u64::from(major))?;
    line.push(":")?;
    line.push_number(u64::from(minor))
}

/// Adds the kind of a node.
fn push_kind(line: &mut LineBuffer, node: &Node) -> Result<(), NoMemory>
    ensures { OnOk result (line.new ≡ line.old ++ kind_text node.now) }
{
    match node {
        Node::Dir => line.push(" dir"),
        Node::Reg => line.push(" reg"),
        Node::Link(target) => {
            line.push(" link ")?;
            line.push_quoted(target.items())
        }
        Node::Fifo => line.push(" fifo"),
        Node::Sock => line.push(" sock"),
        Node::Chr(major, minor) => push_device(line, " chr ", *major, *minor),
        Node::Blk(major, minor) => push_device(line, " blk ", *major, *minor),
    }
}

/// Adds the kind of the node of an ordinal, if there is one.
fn push_kind_of(line: &mut LineBuffer, node: Option<&Node>) -> Result<(), NoMemory>
    ensures { OnOk result (line.new ≡ line.old ++ kind_of_text (option_copied node.entry)) }
{
    match node {
        Some(node) => push_kind(line, node),
        None => Ok(()),
    }
}

/// Adds the line of a node: its ordinal and its kind.
pub(crate) fn push_node(line: &mut LineBuffer, tree: &Tree, node: NodeRef) -> Result<(), NoMemory>
    ensures { OnOk result (line.new ≡ line.old ++ node_text tree.now.tree node.ordinal) }
{
    line.push("look node ")?;
    line.push_number(u64::from(node.ordinal))?;
    push_kind_of(line, tree.get(node))?;
    line.push("\n")
}

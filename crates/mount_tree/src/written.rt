//! The parts of a tree's key.

ghost use Rattle.std.specs.Prelude.{◌≡◌, ◌++◌, OnOk};
ghost use Rattle.key_bytes.specs.Parts.{list_part, number_part, option_part};
ghost use Rattle.mount_tree.specs.Written.{attr_part, kind_of, major_of, minor_of, mounted_part, node_part, row_part, target_of};

use hist_model::request::Node;
use hist_model::tree::{AttrRow, Mounted, NodeRow};
use key_bytes::{push_flag, push_number, push_option, push_text};
use sys_abi::memory::NoMemory;

/// The number of a node's kind.
fn kind_of(node: &Node) -> u64
    ensures { result ≡ kind_of node.now }
{
    match node {
        Node::Dir => 0,
        Node::Reg => 1,
        Node::Fifo => 2,
        Node::Sock => 3,
        Node::Link(_) => 4,
        Node::Chr(..) => 5,
        Node::Blk(..) => 6,
    }
}

/// The numbers of a device; 0 of any other node.
fn device_of(node: &Node) -> (u32, u32)
    ensures { result ≡ (major_of node.now, minor_of node.now) }
{
    match node {
        Node::Chr(major, minor) | Node::Blk(major, minor) => (*major, *minor),
        _ => (0, 0),
    }
}

/// The target of a symbolic link; nothing of any other node.
fn target_of(node: &Node) -> &[u8]
    ensures { result.now ≡ target_of node.now }
{
    match node {
        Node::Link(target) => target.items(),
        _ => b"",
    }
}

/// Adds what a node is.
fn push_node(key: &mut Vec<u8>, node: &Node) -> Result<(), NoMemory>
    ensures { OnOk result (key.new.items ≡ key.old.items ++ node_part node.now) }
{
    let (major, minor) = device_of(node);
    push_number(key, kind_of(node))?;
    push_number(key, u64::from(major))?;
    push_number(key, u64::from(minor))?;
    push_text(key, target_of(node))
}

/// Adds the directory in which a node lies, if it lies in one.
fn push_parent(key: &mut Vec<u8>, parent: Option<u32>) -> Result<(), NoMemory>
    ensures { OnOk result (key.new.items ≡ key.old.items ++ option_part number_part parent) }
{
    match parent {
        None => push_option(key, None),
        Some(parent) => push_option(key, Some(u64::from(parent))),
    }
}

/// Adds a node with its place.
fn push_row(key: &mut Vec<u8>, row: &NodeRow) -> Result<(), NoMemory>
    ensures { OnOk result (key.new.items ≡ key.old.items ++ row_part row.now) }
{
    push_parent(key, row.parent)?;
    push_text(key, row.name.items())?;
    push_node(key, &row.node)
}

/// Adds an attribute.
fn push_attr(key: &mut Vec<u8>, row: &AttrRow) -> Result<(), NoMemory>
    ensures { OnOk result (key.new.items ≡ key.old.items ++ attr_part row.now) }
{
    push_number(key, u64::from(row.on))?;
    push_text(key, row.name.items())?;
    push_text(key, row.value.items())
}

/// Adds a mount.
fn push_mounted(key: &mut Vec<u8>, mounted: &Mounted) -> Result<(), NoMemory>
    ensures { OnOk result (key.new.items ≡ key.old.items ++ mounted_part mounted.now) }
{
    push_number(key, u64::from(mounted.target))?;
    push_number(key, u64::from(mounted.root))?;
    push_text(key, mounted.row.source.items())?;
    push_text(key, mounted.row.fstype.items())?;
    push_number(key, mounted.row.flags)?;
    push_text(key, mounted.row.options.items())?;
    push_text(key, mounted.row.via.items())?;
    push_flag(key, mounted.row.shift)
}

/// Adds nodes, with how many there are before them.
pub(crate) fn push_rows(key: &mut Vec<u8>, rows: &[NodeRow]) -> Result<(), NoMemory>
    ensures { OnOk result (key.new.items ≡ key.old.items ++ list_part row_part rows.now) }
{
    push_number(key, rows.len() as u64)?;
    for row in rows {
        push_row(key, row)?;
    }
    Ok(())
}

/// Adds attributes, with how many there are before them.
pub(crate) fn push_attrs(key: &mut Vec<u8>, rows: &[AttrRow]) -> Result<(), NoMemory>
    ensures { OnOk result (key.new.items ≡ key.old.items ++ list_part attr_part rows.now) }
{
    push_number(key, rows.len() as u64)?;
    for row in rows {
        push_attr(key, row)?;
    }
    Ok(())
}

/// Adds mounts, with how many there are before them.
pub(crate) fn push_mounts(key: &mut Vec<u8>, rows: &[Mounted]) -> Result<(), NoMemory>
    ensures { OnOk result (key.new.items ≡ key.old.items ++ list_part mounted_part rows.now) }
{
    push_number(key, rows.len() as u64)?;
    for row in rows {
        push_mounted(key, row)?;
    }
    Ok(())
}

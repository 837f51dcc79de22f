//! Copies of nodes.

ghost use Rattle.std.specs.Prelude.{◌≡◌, IfOk};

use hist_model::request::Node;
use std::alloc::Global;
use sys_abi::memory::NoMemory;

/// A copy of a node.
pub fn copy_node(alloc: Global, node: &Node) -> Result<Node, NoMemory>
    ensures { IfOk result (λ n. n ≡ node.now) }
{
    Ok(match node {
        Node::Dir => Node::Dir,
        Node::Reg => Node::Reg,
        Node::Link(target) => Node::Link(target.copied(alloc)?),
        Node::Fifo => Node::Fifo,
        Node::Sock => Node::Sock,
        Node::Chr(major, minor) => Node::Chr(*major, *minor),
        Node::Blk(major, minor) => Node::Blk(*major, *minor),
    })
}

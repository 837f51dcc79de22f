//! The tree of a container: its nodes, their extended attributes and the mounts on them.
//!
//! Contracts see a `Tree` as the tree of `hist_model`'s definitions, three lists of rows, beside the room that `ready`
//! made for the next change. Each change is one of the definitions' own: one more node, one more mount, one attribute set.
//! The rows are kept the oldest first, and are found by a hash of their keys.
//! Below stand `sys_abi` and `hist_model`; `path_walk` walks paths over this tree, and the kernel keeps one of them.
#![tactic(auto)]

pub mod attr_flags;
mod copies;
pub mod errors;
mod index;
mod keys;
pub mod laws;
pub mod mounts;
pub mod rooms;
mod rows;
mod search;
mod stacks;
pub mod table;
pub mod tree;
mod written;

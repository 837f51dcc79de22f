//! The walk of a path over a container's tree (path_resolution(7)), and the requests that go by it.
//!
//! `resolve` answers where a path leads exactly as `hist_model`'s definition says, and `perform_request` does what a request does to the tree.
//! A walk takes no memory: a link's target is walked by itself, and then the rest of the path; a `Walk` keeps the room for the
//! one name that it may leave.
//! Below stand `sys_abi`, `hist_model` and `mount_tree`; the kernel above opens, makes, mounts and sets by these two calls.
#![tactic(auto)]

mod components;
pub mod effects;
pub mod places;
pub mod resolution;
mod turns;

//! Calls that the kernel runs natively, without rights (close(2), getpid(2), sysinfo(2), mknod(2), setxattr(2), openat(2)).
//!
//! A call is run in stages. `NativeCall::prepare` reads its arguments out of the memory of its caller's group, and `ready`
//! makes room for it, which both may take memory; `run` then answers the call and applies it in one walk, and takes none. The
//! model is a history: the tree and the groups stand for one before the call (`StandFor`), and after it for the one with the
//! call's event, whose answer is that of `native_step`, in the file `Natives` of `hist_model`'s specs. `base_of` is the
//! directory from which relative paths go, for workers too.
//!
//! Below stand the tables on which calls work (`mount_tree` and `path_walk`, `task_groups`), and what makes
//! requests and answers of bytes (`arg_capture`, `emu_request`, `emu_sysinfo`); the kernel stands above.
#![tactic(auto)]

mod call;
mod changes;
mod copies;
mod files;
pub mod laws;
mod memory;
mod requests;
mod rooms;
mod running;

pub use call::NativeCall;
pub use copies::copy_arguments;
pub use files::base_of;
pub use rooms::ready;
pub use running::{Caller, Container, run};

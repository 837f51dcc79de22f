//! A container's kernel: its tasks, what they and the workers of its broker use, and the history of what has happened.
//!
//! Its model is a history of a script: `IsKernel` says that all tables stand for the kernel's own. Each act is one event, with
//! the answer that the definitions of `hist_model` give after the history before it (`IsAfter`, `DoesDeed`); what appends none
//! says so. What workers ask of the listener is asked by values (`receive`, `send`, `put`), and by the structures of
//! seccomp_unotify(2) as they lie in memory (`recv`, `notif_send`, `addfd_put`).
//!
//! Below stand the tables: `tasks`, `task_groups`, `listener`, and the tree with its walk and the native calls. What the
//! workers have open and how often the caps were spent are rows of the kernel's own.
#![tactic(auto)]

mod able;
mod deeds;
mod kernel;
mod keys;
pub mod laws;
mod listening;
mod looks;
mod natives;
mod reads;
mod ready;
mod resources;
mod rooms;
mod rows;
mod spent;
mod start;
mod steps;
mod wire;

pub use kernel::Kernel;
pub use ready::ReadyTask;
pub use steps::CannotStep;
pub use wire::RecvError;

//! The answers that tell how a container stands, and by which nothing happens: who is able to step, and what is looked at.
//!
//! [`push_who_is_able`] adds the names of the tasks that are able to step. [`push_look`] adds what a look sees: the task that holds
//! a PID, what a descriptor leads to, where a path leads, or whether the listener can be read and written. So a broker's own calls
//! can be answered that ask and change nothing, as a read of `/proc/PID/status` or a poll.
//!
//! The definitions stand in `specs/`, in those of `hist_model`: `Able.antt` has the line of the tasks, and `Looks.antt` has each
//! look, from the history alone.
//!
//! Below stand the kernel (`model_kernel`), the walk of a path (`path_walk`), the requests (`step_requests`), and the words of reports
//! (`audit_log`). Above, `step_session` gives these answers.
#![tactic(auto)]

mod able;
mod descriptors;
mod holders;
mod listeners;
mod looks;
mod nodes;
mod paths;

pub use able::push_who_is_able;
pub use looks::push_look;

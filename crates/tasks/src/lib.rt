//! The tasks of a kernel: their names, PIDs, signals, children and programs, one row a task.
//!
//! A `Tasks` keeps a row for each task that was made, by its ordinal, also for those that are reaped: a name stays its
//! task's own. Contracts see the rows as a value of the definitions, `State`, of which `laws::states_follow_events` says
//! that it follows the events of a history: after a step it is what the step makes of the value before. `StandsFor` says
//! which histories the tasks stand for. Each call that is an event takes every history that they stood for to the longer
//! one, and each answer is what the definitions of `hist_model` answer by looking back over it. Nothing is assumed of the
//! workers' events; a task's are its steps.
//!
//! Below stand the definitions (`hist_model`) and what one more event changes of them (`history_frames`); the kernel stands
//! above, with what the groups of the tasks have and the listener.
#![tactic(auto)]

mod index;
mod keys;
pub mod laws;
mod row;
mod signals;
mod table;

pub use row::EnteredCall;
pub use table::{NoPid, Tasks};

//! The player of schedules, and the state that threads serve.
//!
//! A line of the schedule names an actor and a number of turns, which `Machine` of `broker_machine` takes. The lines are read one at
//! a time (`schedule`), and their steps are made on a state: one after another, or each in a turn of the listener's lock
//! (`scheduled`). That state is `Served`, a machine, of which `play` and `play_in_turns` play a script to the listener's close.
//!
//! A crew of threads serves the same state instead of a schedule (`crew`), each of its turns a step of a worker or of a task (`steps`,
//! `serving`). Which task is tried is a hint (`runnable`).
//!
//! Either way the workers may be replaced after each so many of their steps. The ledgers that this needs are kept up step by step,
//! as a daemon keeps them on its disk (`keeper`).
//!
//! Its model is the history that `Legal` of `hist_model` plays from a policy and a script; what the state behind the lock keeps of
//! it is `specs/Keeping.antt`, and of ledgers `specs/Replacing.antt`.
//!
//! Below stand the machine (`broker_machine`), the ledgers and the replacement (`handover`), the lock (`turn_lock`) and the crew
//! (`crew`). Above stands the program.
#![tactic(auto)]

mod keeper;
mod runnable;
mod schedule;
mod scheduled;
mod served;
mod serving;
mod sessions;
mod steps;

pub use scheduled::{play, play_in_turns, play_schedule};
pub use served::{Played, Served};

//! A crew: threads that serve containers side by side.
//!
//! `serve_locked` is lent the locks behind which the states of its containers lie (`locks`), and the threads of a crew take turns of
//! them (`hands`), in each one step. `serve` puts states behind locks for that. What a state is, and what a step of it does, its
//! type says (`Crewed`); what a thread does is a value (`Duty`): it serves as a worker, receives calls for others, serves a lane of
//! them, or steps tasks. All threads meet at one door, and sleep there; which containers have work of which kind stands on a board
//! behind it (`door`). There lie the queues, too, from which notifications are handed to those that serve lanes (`lanes`).
//!
//! A thread that can't be created begins once another one has ended. So the calling one does all kinds of work: no thread sleeps while
//! work is left that only threads which haven't begun would do.
//!
//! Its model is that of the states, whose types say what each turn keeps of a history. Below stand the lock (`turn_lock`) and a
//! lane's queue (`lane_queue`). The states stand above.
#![tactic(auto)]

mod beside;
mod crewed;
mod door;
mod duty;
mod gate;
mod hands;
mod lanes;
mod locks;
mod serving;
mod work;

pub use crewed::{Came, Crewed, Errand, Turned};
pub use duty::{Crew, Duty};
pub use gate::{Gate, OpenGate, Point};
pub use serving::{serve, serve_locked};
pub use work::Work;

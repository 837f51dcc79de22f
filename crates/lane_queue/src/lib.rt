//! A lane's queue: from the thread that receives notifications to the one that serves a kind of call.
//!
//! A `Handoff` is the id of a received notification with the seat that received it. `LaneQueue` has room for 16 of them, one for
//! each seat. One thread puts by the queue's `PutPass`, another takes by its `TakePass`, and neither waits for the other: `put`
//! answers `Full`, and `take` answers `None`.
//!
//! Contracts see of a `PutPass` all items that were put by it, and of a `TakePass` all that were taken by it, each in order. What was
//! taken, followed by what `close` gives, is what was put.
//!
//! The queue is the bounded one of `crossbeam_queue`, under a rule in `specs/Handing.antt`. The crew stands above.
#![tactic(auto)]

mod queue;
mod view;

pub use queue::{Full, Handoff, LaneQueue, PLACES, PutPass, TakePass};

//! The state of a container that is served by kinds of calls: one thread receives all notifications, and one for each lane finishes them.
//!
//! `LaneServed` is the state behind the listener's lock: that of `worker_gate` with a table of seats. By its type its history is
//! legal and laned. What a thread of a crew does in one turn is in `served`: it receives a notification at the lowest free seat, takes
//! a step in the session of a notification that it was handed, if that is its lane's next, or steps a task. A call that takes long
//! holds up no call of another kind, since a thread serves one lane alone.
//!
//! Below stand the crew (`crew`), what it hands over (`lane_queue`), the state of `worker_gate` and the seats (`lane_seats`). Above
//! stands the program.
#![tactic(auto)]

mod served;

pub use served::LaneServed;

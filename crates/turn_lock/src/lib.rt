//! The listener's lock: whatever a thread adds to the one history, it adds inside a turn of this lock.
//!
//! A `TurnLock` holds a state that is `Journalled`: it was set up with a policy, a script and a limit of workers, which never
//! change, and it keeps a history, which only grows. A caller has a `Pass`, and gives a `Turn` to `TurnLock::turn`, which waits
//! until no other turn runs and plays it on the state. A turn adds one event at most. Contracts see a lock as the setup and the history that it began with,
//! and a pass as the history that it has seen and the places of the events that its own turns appended. So a caller learns of
//! its turn: it was played on one state, whose history begins with all that the pass had seen. Passes are split from the first
//! pass and joined to it again, and with none out the lock is closed and gives the state back.
//!
//! The lock is one table of `atomic_table`, with a rule in `specs/Rule.antt` that each step of each thread keeps. Below stand
//! that crate and `hist_model`, with histories and `Journalled`. The state and the threads that take turns stand above.
#![tactic(auto)]

mod lock;
mod turn;
mod view;

pub use hist_model::history::{Journalled, Setup};
pub use lock::{Pass, TurnLock};
pub use turn::Turn;

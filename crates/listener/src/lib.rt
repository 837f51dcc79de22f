//! The listener: what it answers a broker, and what it keeps for the calls that wait (seccomp_unotify(2)).
//!
//! A `Listener` has the listed calls in the order of entry, which are found by binary search, and the requests for descriptors, one
//! at most for each worker. A broker receives, checks, sends, and puts and takes requests by it; a task enters a call, leaves
//! it, and installs what was asked for it. What a caller hands over is tested first by itself (`check_recv`, `parse_send`,
//! `parse_put`). Its model is a state, a value of the definitions, beside Linux's list of `struct seccomp_knotif`: each
//! table's call says what becomes of that state, and each event what it makes of the state of a history. `StandsFor` says of
//! which histories a listener is the state; each answer is what the definitions of `hist_model` answer by looking back.
//!
//! Below stand the definitions (`hist_model`) and what one more event changes of them (`history_frames`); the kernel stands
//! above.
#![tactic(auto)]

mod flags;
mod ioctl;
mod keys;
pub mod laws;
mod listener;
mod order;
mod put;
mod queue;
mod requests;

pub use flags::AddfdFlags;
pub use ioctl::{back_of, check_recv, parse_send, response};
pub use listener::{Listener, TakeError};
pub use put::parse_put;
pub use queue::FetchError;

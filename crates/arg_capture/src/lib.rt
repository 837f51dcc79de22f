//! Copies of a call's arguments out of its caller's memory, in pieces.
//!
//! A `Plan` is what a call has there: its texts and values, in order. A `Capture` reads them: `next` names the piece of memory
//! to read, `feed` takes what the read answered, and `finish` gives the texts or the first fault. Contracts see a plan as the
//! list of its parts, and a capture as its texts so far and the parts that are left: what a capture comes to, whatever the later
//! answers, is what `progress` says of all its answers. That definition, and the copy that all reads at one moment make, stand
//! in `hist_model`, in `specs/Copies.antt`.
//!
//! Below stand `sys_abi`, with the errors, and `hist_model`. The kernel, which reads for native calls, and the worker, which
//! reads through a memory handle, stand above.
#![tactic(auto)]

mod buffers;
mod capture;
pub mod laws;
mod plan;
mod reading;

pub use capture::Capture;
pub use hist_model::copy::Part;
pub use hist_model::request::{ArgCopy, Fault};
pub use plan::Plan;

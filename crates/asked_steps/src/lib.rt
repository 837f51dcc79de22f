//! The steps of a container that somebody asks for: the next step of a task, and what a worker asks of the kernel.
//!
//! [`step_task`] lets the task of a name step. [`ask`] does what a worker asks for, and says what that came to (`Came`);
//! [`do_asked`] is the same without an answer. Each is one event at most. The workers are whoever asks: what each of them does
//! next is not looked at, so the history is one of the kernel, and need not be one of this project's broker.
//!
//! The definitions stand in `specs/`: `Asking.antt` says which deed a worker asks for and why it may be none, `Steps.antt` has the
//! history after a step, and `Stands.antt` what a request came to.
//!
//! Below stand the kernel (`model_kernel`) and the requests (`step_requests`). Above, `step_session` answers requests by these steps, and
//! `turn_player` plays schedules by them. Nothing here writes an answer, and nothing judges.
#![tactic(auto)]

mod asking;
mod refusal;
mod steps;

pub use asking::{Came, ask};
pub use refusal::Refusal;
pub use steps::{do_asked, step_task};

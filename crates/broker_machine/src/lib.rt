//! A kernel and the workers of its broker: a machine that steps when it is told who is next.
//!
//! In a turn a task takes the kernel's step for it, and a worker does the deed that is due and takes the kernel's answer to it; an
//! actor that can't step gives a `Skip`. `Machine` is what is kept between two turns, and takes a turn of any task and worker that a
//! history may have. At the end the listener is closed. Who steps when is not said here: a schedule and threads say it
//! (`worker_gate`), or the lines of a report (`audit_check`).
//!
//! Its model is a history of a policy and a script that is legal and goes on. What stands for it (the kernel after the events so
//! far, each worker's session) is `specs/Serving.antt`. The kernel asks of a deed what an order of deeds gives it, as that a worker
//! opens no second memory: the history is legal, so it holds (`proofs/Held.antt`).
//!
//! `worker_turn` is a worker's turn alone, on a kernel whose other workers may be another broker's.
//!
//! Below stand the workers (`broker_core`) and the kernel (`model_kernel`).
#![tactic(auto)]

mod deeds;
mod machine;
mod names;

pub use deeds::{WorkerStep, worker_turn};
pub use machine::Machine;
pub use names::is_task_name;

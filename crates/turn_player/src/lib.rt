//! The player of a schedule in which a worker of another broker has requests.
//!
//! [`play_turns`] plays a script by the lines of such a schedule, under a policy. A task takes as many steps as its line says. So does
//! a worker of this project, each time the step that it has next by the policy. A worker of another broker asks the kernel for what
//! its line says. A worker's number belongs to one of the two in all lines. A step that can't be made leaves no event. So a broker
//! can be tried beside this project's workers. The history is one of the kernel ([`laws`]), and need not be legal.
//!
//! Before a step of a worker of this project it is tested whether what the worker has open, and whether it has a request for a
//! descriptor, allow the step. In a legal history they always do; of other histories that isn't known.
//!
//! [`play_judged`] plays the same with a judge beside the kernel, which hears each event. It finds the event that breaks a
//! clause first, and the play stops there.
//!
//! The definitions stand in `specs/`: `Turns.antt` has the history that lines come to, `Serving.antt` what the workers of this
//! project remember on the way, and `Judged.antt` how far a play goes that is judged.
//!
//! Below stand the kernel (`model_kernel`), this project's workers (`broker_core`) with their turns (`broker_machine`), and the steps
//! of tasks and of other brokers' workers (`asked_steps`). The judge (`judge_pass`) serves `play_judged` alone.
#![tactic(auto)]

mod judged;
pub mod laws;
mod schedule;
mod serving;
mod turns;

pub use judged::{Judgement, play_judged};
pub use schedule::turns_of;
pub use turns::play_turns;

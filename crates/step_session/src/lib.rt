//! The session of `step`: requests are read from a file, line by line, and their answers are written to a sink.
//!
//! A container is a kernel after a script's start. Each method of it does what one kind of request asks for, which is one event at
//! most, and adds the answer to a line. The workers are whoever asks: what each of them does next is not looked at, so the history
//! is one of the kernel, and need not be one of this project's broker ([`laws`]). Beside the container stands a judge, which hears
//! each event and tells the first that breaks a clause of what a broker owes.
//!
//! [`serve`] answers all requests of a file. It reads pieces of bytes, answers the lines that end in a piece, and writes the
//! answers, which are flushed before more is read. So a program may write one request and wait for its answer, or send many at
//! once. Of a line that is too long nothing is kept, so memory stays bounded by what the container takes.
//!
//! The definitions stand in `specs/`: `Texts.antt` has the lines of answers, and `Answers.antt` all answers, each with the history
//! after it; `Judged.antt` says when a container and its judge stand for a history, `Lines.antt` has the lines of the input and their
//! answers, `Owing.antt` what a session has still to say, and `Serving.antt` what came of serving.
//!
//! Below stand the kernel (`model_kernel`), the steps that are asked for (`asked_steps`), what is told without a step
//! (`state_answers`), the judge (`judge_pass`), the reader of a line (`step_requests`), the writers of the report (`audit_log`), and
//! files and sinks (`io_edge`).
#![tactic(auto)]

mod answering;
mod begun;
mod container;
pub mod fault;
mod judged;
pub mod laws;
mod lines;
pub mod origin;
pub mod reasons;
mod refusal;
mod reports;
mod scripts;
mod serving;
mod session;
mod texts;

pub use fault::StepFault;
pub use origin::Origin;
pub use serving::serve;

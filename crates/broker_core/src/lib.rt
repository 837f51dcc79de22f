//! A worker of the broker: what it remembers of its notification, and what it does next (seccomp_unotify(2)).
//!
//! A worker receives a notification, opens its caller's memory and base, checks that the id is still valid, reads one
//! copy of the arguments, judges the request by the policy, checks the id again, and only then acts and answers. It
//! makes no call itself: `Worker::next` says which deed is due, `Worker::ready` makes room for the answer to it, and
//! `Worker::took` takes the answer, which needs no memory and can't fail.
//!
//! Its model is the list of the session's own steps, the newest first (`specs/Remembered.antt`): `next` is the deed that
//! `Sessions` of `hist_model` gives after these steps, and nothing else of the history is seen. Which answers a deed can
//! have, and which step the history records of a deed and its answer, stands in `specs/Answers.antt`.
//!
//! Below stand the copy of the arguments (`arg_capture`), the requests and figures (`emu_request`, `emu_sysinfo`) and the
//! decision (`policy_eval`). Above stands whoever lets workers step in turn with tasks.
#![tactic(auto)]

pub mod deed;
pub mod judgement;
pub mod session;
mod steps;
mod taking;
pub mod worker;

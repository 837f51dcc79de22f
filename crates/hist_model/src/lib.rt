//! Histories of a kernel and its broker: the plain types, and the definitions of everything that the program promises.
//!
//! An event says who did what, and what came of it (`event`). A history is all events so far (`history`), which contracts
//! see as a list, the newest first. Policies, scripts, filters, trees and requests are plain types beside it.
//!
//! `specs/` has the definitions, one file a subject and each after its manual page: what a task, a call and a session
//! are after a history, the step of each actor, which histories are legal and which mediated, what a policy and a script
//! play, and the report of it. They compute, and the worked cases in `proofs/` evaluate them.
//!
//! Below stand the numbers and structures of system calls (`sys_abi`). Every other crate but `io_edge` stands on this one.
#![tactic(auto)]

pub mod boxed;
pub mod copy;
pub mod event;
pub mod filter;
pub mod history;
pub mod notification;
pub mod policy;
pub mod report;
pub mod request;
pub mod script;
pub mod text;
pub mod tree;

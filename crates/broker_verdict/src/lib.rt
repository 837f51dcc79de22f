//! Whether a broker mediated, whoever it is: the clauses that it may not break, and of each history the first event that breaks one,
//! and the first clause that it breaks (seccomp_unotify(2)).
//!
//! A worker's number is its seat, which holds one notification from its receive to its let-go. By what a seat has read and checked
//! each of its effects and answers is judged: by the policy, for one copy of its call's arguments. The clauses are tests that compute,
//! so each is shown to be broken by a small history of the kernel, and each thing that is allowed to break none.
//!
//! Nothing here runs but the words: each law is the contract of a function without a body. Below stand the definitions of
//! `hist_model`, and what `mediation` says of the kernel whoever its workers are; a program that judges stands above.
#![tactic(auto)]

pub mod allowed;
pub mod clause;
pub mod laws;
pub mod mistakes;
pub mod words;

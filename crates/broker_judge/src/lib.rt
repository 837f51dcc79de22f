//! What a judge of brokers finds out of one event of a history of the kernel.
//!
//! Which copies a seat's reads make of a call's arguments (`copies`), how far texts rest on these reads (`texts`), whether they
//! stood so (`stood`), whether an effect asks
//! for what its call asks for, and a rule grants just it (`granting`), and what a policy says of an answer (`said`).
//!
//! This layer keeps no history. It is told the call that a seat has in hand, the seat's reads, and how often effects of each rule were
//! done, and its contracts hold, by the definitions of `broker_verdict`, for every history in which these are so. Below stand that
//! crate, and those by which a worker decides: `policy_eval`, `arg_capture`, `emu_request` and `emu_sysinfo`. The pass over a history
//! stands above.
#![tactic(auto)]

pub mod called;
pub mod copies;
pub mod effects;
pub mod granting;
pub mod laws;
pub mod reads;
pub mod registers;
pub mod said;
pub mod stood;
pub mod texts;

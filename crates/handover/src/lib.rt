//! Workers that are replaced while their calls wait.
//!
//! A worker is stopped between two of its steps, or after a step that its ledger hasn't yet. Its successor has the ledger's bytes,
//! the number of the worker's steps, and the answer of the last one, and nothing else of the worker, which is stopped before it sits down.
//!
//! Its model is the ledger of each worker of a history (`specs/Ledgers.antt`), and the ledgers from which workers were replaced
//! (`specs/Handing.antt`). The law (`laws`) says that whatever a legal history a successor goes on as the worker: so a session of a
//! worker that is replaced at each of its steps is one session, that of the history that is played without it.
//!
//! Below stand the ledger (`worker_ledger`) and the machine of kernel and workers (`broker_machine`).
#![tactic(auto)]

pub mod laws;
mod ledgers;
mod replacing;

pub use ledgers::{Handover, Ledgers};

//! The ledger of a worker: what a broker writes down so that a worker can be replaced while its call waits.
//!
//! A ledger has a worker's number, how many answers the worker has taken, and what it was told in its session. It is kept
//! beside the worker, so that a worker that nobody replaces pays nothing for it: `Ledger::note` takes each answer that the
//! worker took, `Ledger::text` writes one line of JSON, and `Ledger::read` gives the ledger back exactly where the bytes are
//! the text of one of this worker; one byte more, or a number written otherwise, is no ledger.
//!
//! `take_over` makes a worker of a ledger, of the kernel's count of what the worker has taken, and of the last answer: it goes
//! on where the other one stopped, between two deeds or after a deed that its ledger hasn't.
//!
//! Its model is the number, the count and the list of the answers (`specs/Ledgers.antt`, which has the text too). What is read
//! is compared with the text that is written of it, so a reader has to be right on the texts of ledgers alone.
//!
//! Below stands the worker's machine (`broker_core`), which names deeds and answers. Above stands
//! whoever replaces workers.
#![tactic(auto)]

pub mod heard;
pub mod ledger;
mod reading;
pub mod successor;

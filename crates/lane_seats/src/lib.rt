//! Who may take the next turn where each kind of call is served in order: lanes, and the seats of workers.
//!
//! A worker's number, 0 to 15, is a seat. It is taken when its worker receives a notification, and free again once the worker let
//! go. A lane is a kind of call: a later session of a lane takes no turn, but for its receive, until each earlier one is over. A
//! notification is received at the lowest free seat. A history in which each turn keeps this is laned (`specs/Lanes.antt`).
//!
//! `Seats` is a table of who sits where, since when, in which lane, and with which notification. It tells whether a seat's turn would
//! keep a history laned.
//!
//! Its model is the table's entries, and `StandsFor` says for which histories they stand. Below stand the events and definitions
//! of `hist_model`. The state that is served by lanes stands above.
#![tactic(auto)]

pub mod laws;
mod seats;

pub use seats::{LANES, SEATS, Seats, Sitting};

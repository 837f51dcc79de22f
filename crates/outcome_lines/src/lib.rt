//! What each call of a history came to so far, without places and ids.
//!
//! Histories of a script that differ in their order alone have the same lines. Where nothing more happens, the lines and the tree
//! tell the text of what the history comes to (`outcome_text`); so of histories after which all goes on alike, and which have the same
//! lines, each outcome is the same.
//!
//! Equal lines have equal keys, and only they (`keys.rt`).
//!
//! A line is a plain value (`line.rt`), and the lines of a history are a list of them (`specs/Lines.antt`), for any list of events. They
//! are read off the tables of `audit_log` in one pass over the events (`lines.rt`), and off the marks of what workers did. Below stand
//! these tables, and the words of outcomes; above stands the explorer, which joins histories.
#![tactic(auto)]

mod keys;
pub mod laws;
pub mod line;
mod lines;

pub use keys::write_key;
pub use lines::lines_of;

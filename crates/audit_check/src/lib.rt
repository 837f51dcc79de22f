//! Checks a report, and traces its calls.
//!
//! A report fixes the history that it tells of, so whoever has the policy and the script can check it: the actor that a line of
//! the journal names takes its step on the kernel, and the line that the step gives is compared. Nothing is read from a line
//! but its actor; all else is computed.
//!
//! The model is one pass over the lines (`specs/Reading.antt`), which finds a fault exactly at the first line that no legal
//! history's report has there (`specs/Reported.antt`), and the trail of a history (`specs/Trail.antt`). `check_report` makes
//! that pass with one machine, and compares what stands behind the journal as it is written: neither the report nor a line of it
//! is kept.
//!
//! Below stand the machine that takes the steps (`broker_machine`), the report's writers (`audit_log`) and the facts of legal
//! histories (`mediation`). Above stands the program.
#![tactic(auto)]

mod actor;
pub mod check;
mod compare;
pub mod found;
pub mod laws;
mod line_ends;
mod stages;
pub mod trace;
pub mod trail;

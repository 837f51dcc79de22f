//! What one more event changes of a history, as far as several tables need it.
//!
//! A table stands for a history: each of its calls is an event, after which the table stands for the longer history. So
//! each table needs to know, of every definition that it answers by, what an event changes. What is said of one table
//! alone stands with that table; here stands what several of them share: the ordinals of tasks, by which tables know
//! tasks where events know names, who holds a PID after an event, which calls are listed and fetched, and whose the requests
//! for descriptors are.
//!
//! Below stand the events and definitions of `hist_model`; the tables stand above. There is no code here, so the crate
//! costs the tables nothing but the check of its lemmas, and `hist_model` nothing at all.
#![tactic(auto)]

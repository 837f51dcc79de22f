//! The report of a history: its journal, its calls, the audit of its sessions, and a summary.
//!
//! The writers' model is the text that `hist_model` defines for any list of events. Each writes its part to a sink, and gathers
//! lines until a write is worth its cost (`part`); after any error the sink took a prefix of that part. What the calls, the audit
//! and the summary have in common is found once (`tables`), also for who writes more of the same history: in one pass over the
//! events, which counts them (`count`), and keeps what came of the calls (`kept_calls`) and of the sessions (`session_table`).
//! Which session a call had is told by both (`served`).
//!
//! A worker is in one session at most, so one more event changes what is kept of one session at most (`session`): what its
//! steps tell (`session_facts`), where they stand (`session_stages`), and what the policy makes of what was read in it
//! (`session_judgement`), by the broker's own code.
//!
//! Below stand the captures (`arg_capture`), the judgement (`broker_core`), the rules' names (`policy_eval`), the plain types
//! and the definitions (`hist_model`) and the sinks (`io_edge`). Above stands the program, which writes the report of what it played, and
//! the checker of reports (`audit_check`), which writes and traces by the same lines and passes.
#![tactic(auto)]

mod answer;
pub mod audit;
mod call_pass;
pub mod calls;
mod count;
mod digits;
pub mod error;
pub mod event;
pub mod journal;
pub mod kept_calls;
pub mod laws;
pub mod line;
mod numbering;
mod outcome;
pub mod part;
mod places;
mod received;
mod records;
pub mod report;
pub mod request;
mod requests;
pub mod served;
pub mod session;
pub mod session_facts;
mod session_judgement;
mod session_stages;
mod session_table;
mod step;
pub mod summary;
pub mod tables;
mod tasks;
pub mod words;

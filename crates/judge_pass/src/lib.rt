//! Judges a broker while its schedule is played: event after event, by what the events before it came to.
#![tactic(auto)]

mod answer_reasons;
mod answers;
mod calls;
mod copy_reasons;
mod directories;
mod done;
mod effect_events;
mod effects;
mod entered_again;
pub mod heads;
mod hearing;
pub mod judge;
pub mod laws;
mod made_texts;
mod opened;
mod other_request;
mod outcomes;
mod policy_reasons;
mod reasons;
mod rests;
mod seats;
mod send_events;
mod task_events;
mod task_table;
mod told;
mod waiting;
pub mod watch;
mod weak_bytes;
pub mod why;
mod words;
mod worker_events;

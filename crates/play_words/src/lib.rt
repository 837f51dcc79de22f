//! The words that play in one thread: `stress`, `handover` and `audit-check`, and what `play` prints of a schedule.
//!
//! A script is played (`players`), in turns of the listener's lock or without a lock. Its report, the ledgers of replaced workers, its
//! summary or what was found of a report is printed (`printing`), many lines a write. No judge stands below. `specs` says what each
//! answer means: `Generated`, `Handovers` and `Checks`. Whoever plays in turns may have to wait.
//!
//! Below stand the files (`program_files`), the plays (`worker_gate`), the report (`audit_log`), its check (`audit_check`) and the law
//! (`mediation`). Above stand `run_words`, which prints what was served, `step_words`, which prints plays with requests, and the top call.
#![tactic(auto)]

pub mod checking;
pub mod generated;
pub mod handing_over;
pub mod players;
pub mod plays;
pub mod printing;

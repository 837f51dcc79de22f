//! The words that run with threads: `run`, `lanes` and `pod`.
//!
//! One container, or several side by side, are served to their ends by one crew (`serving`), and their reports are printed, with the
//! ledgers of replaced workers and, of a pod, the sums of all (`pod_printing`). Two containers whose ranges of PIDs overlap are refused
//! (`pods`). No judge stands below. `specs/Runs.antt` and `specs/Pods.antt` say what each answer means.
//!
//! Below stand the files (`program_files`), the containers (`pod_broker`) and the printing of a history (`play_words`); above the top call.
#![tactic(auto)]

mod pod_printing;
mod pods;
pub mod running;
mod serving;

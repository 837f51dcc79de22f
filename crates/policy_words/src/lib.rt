//! The words that tell something of policies: `explain`, `compare`, `check` and `lint`.
//!
//! Each reads its files, has a text made, prints it, and ends by what the text tells. No kernel stands below. `specs/Explanations.antt`
//! and `specs/Tellings.antt` say what each answer means.
//!
//! Below stand the files (`program_files`) and what is told (`policy_explain`, `policy_compare`, `policy_claims`, `policy_lint`); above
//! the top call and the word `judge`, which tells in the same way.
#![tactic(auto)]

pub mod explaining;
pub mod telling;

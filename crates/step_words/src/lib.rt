//! The words whose workers are whoever asks: `step` and `judge`, and `play` where a schedule has requests.
//!
//! `stepping` answers requests on the standard input, `judging` tells whether the workers of a schedule mediate, and `playing` plays what
//! a script's file states. `specs/Stepping.antt`, `specs/Judgements.antt` and `specs/Plays.antt` say what each answer means.
//!
//! Below stand the files (`program_files`), the printing (`play_words`, `policy_words`), the session (`step_session`), the player of
//! requests (`turn_player`) and the judge (`judge_pass`); above the top call.
#![tactic(auto)]

pub mod judging;
pub mod playing;
pub mod stepping;

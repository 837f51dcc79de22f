//! The top call of the program: from words and files to a report, an exit status and a line on standard error.
//!
//! `broker::broker` reads the words (`words`), has the word's crate do what it asks for, and says on standard error why it didn't
//! (`lines`). It works over the traits of `io_edge`, so its contract tells for any files and outputs what each answer means: with
//! status 0 the output took the report of the history that the policy and the script play, its summary where they were
//! generated, the trail of the history that a report tells, or what the explored histories come to, and these are mediated; each
//! other status has its cause. `specs/Answers.antt` states it by the definitions of the crates below. Who calls `broker` may have to
//! wait for a turn of the listener's lock; `carry_out` is given the player, and waits only if that one does.
//!
//! Below stand the words: of policies (`policy_words`), plays (`play_words`), runs (`run_words`), steps and judgements (`step_words`) and
//! explorations (`explore_words`), over the files that they name (`program_files`). Above stands `main`, which hands the machine's
//! files and outputs over.
#![tactic(auto)]

pub mod broker;
mod lines;
pub mod words;

//! What a history comes to, as text: each call of its tasks, what came of it, and what was done for it.
//!
//! The text has no place and no id, so that histories that differ in their order alone have one text where all their calls came
//! to the same. Its model is `result_with` (`specs/Outcomes.antt`), for any list of events. The tasks stand in the order of their
//! names (`names`). What came of each call and of each session, and which session a call had, are the tables of `audit_log`, which
//! take a pass over the events each; for each task one more pass writes its calls (`calls`). What a session did is read off its own
//! steps (`deeds`). Which effects a later one took from sight is told by the tree at the history's end (`sight`), for marks that say
//! on which node each was done (`mark`, `specs/Sight.antt`).
//!
//! Below stand the report's writers and tables (`audit_log`), the tree (`mount_tree`), and the plain types and the definitions
//! (`hist_model`).
#![tactic(auto)]

pub mod calls;
pub mod deeds;
pub mod mark;
pub mod names;
mod outcome;
mod sight;
pub mod words;

pub use outcome::outcome_of;
pub use sight::hidden_places;

//! Claims about all calls that a policy decides.
//!
//! A claim is a rule: of each call that fits it, it says that the policy answers so, or that the policy never does. [`read_claims`]
//! reads claims from the bytes of a file, by the reader of a policy's rules. [`check`] decides each claim by the classes of calls
//! (`policy_classes`), and tells of each that it holds, or a call that refutes it with the rule that decides the call.
//!
//! `specs/Claims.antt` says what bytes mean, `specs/Standings.antt` what a claim comes to, and `specs/Told.antt` has the text.
//!
//! Below stand `policy_reader`, with the rules, `policy_classes`, and `policy_explain`, with the text of a call. The program stands
//! above.
#![tactic(auto)]

pub mod claims;
mod finding;
mod lists;
mod reading;
pub mod standing;
mod telling;

pub use reading::read_claims;
pub use telling::check;

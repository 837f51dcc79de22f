//! The mediation law, and the facts of legal histories that it rests on.
//!
//! A history is legal where each event is the step of its actor after those before it. The law says that every legal
//! history of any policy and script, whatever the order in which tasks and workers stepped, is mediated: each notification
//! is answered at most once, each reply or descriptor reaches the waiting call that it was meant for, each effect is what
//! the policy grants on one copy of its call's arguments found valid afterwards, and each denial names its rule.
//!
//! What the kernel keeps doesn't depend on who its workers are: it holds of every history in which they ask for anything, in
//! any order, and a legal one is such a history.
//!
//! Nothing here runs: each law is the contract of a function without a body, so that whoever calls it may use it. The
//! facts are proved by induction over the events, most of them of any `System` and any `Rules`, which hold just what the
//! order of steps needs of a script and of a policy. Below stand the types and definitions of `hist_model`, and the lemmas
//! on one more event of `history_frames`; the program's call that prints a history stands above.
#![tactic(auto)]

pub mod kernel;
pub mod laws;
pub mod misled;
pub mod refused;
pub mod refused_acts;

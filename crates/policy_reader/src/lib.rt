//! The reader of policies: from the bytes of a file to a policy's rules, or to the first refusal and the path of its place.
//!
//! A policy is a JSON object. Its `config` has the keys by which LXD intercepts system calls (LXD's "System call
//! interception"), and its `rules` are tried before those that the keys switch on. [`read_policy`] reads it with
//! `serde_json`. An object is read by its keys in rising byte order, each value whole before the next key, and the first
//! fault refuses the policy: so the same file always has the same refusal.
//!
//! `specs/` says what each part of a policy has to be, over the value that a text is by `serde_json`'s own definition;
//! `policy` in `specs/Policies.antt` is the whole. Reading takes time in the order of the bytes, but for the logarithm of
//! looking a name up among those before it.
//!
//! Below stand the plain types of `hist_model`, and `policy_eval` with the rules of the switches. The program stands above.
#![tactic(auto)]

mod conditions;
pub mod error;
mod flags;
mod lxd_lists;
mod names;
mod policies;
mod readings;
mod rules;
mod settings;
mod switches;
pub mod texts;
mod verdicts;

pub use conditions::{device_of, kind_named};
pub use error::PolicyError;
pub use flags::{FLAGS, flag_named};
pub use policies::read_policy;
pub use rules::{Format, Version, read_rules};

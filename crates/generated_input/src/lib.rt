//! Generated input: a policy and a script of any size, as plain data.
//!
//! The script's first task starts one task after another, each of which makes one call, and a worker answers them. Calls
//! come with five fates in turn (`fate`): granted, denied, passed, granted in the caller's memory, and cut short by a signal.
//! There are two PIDs, so all calls' tasks have the same one, each after the other.
//!
//! `specs/GeneratedPolicy.antt` and `specs/GeneratedScript.antt` say which policy and which script it is; the layer has no
//! state. Making them takes time and memory in the order of the number of calls.
//!
//! Below stand the plain types of `hist_model`, the reader of policies (`policy_reader`), which reads the policy's text, and
//! the filter that notifies (`bpf_filter`). The program stands above.
#![tactic(auto)]

pub mod fate;
mod input_policy;
mod input_script;

pub use input_policy::generated_policy;
pub use input_script::generated_script;

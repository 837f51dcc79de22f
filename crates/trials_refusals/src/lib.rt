//! Calls whose contracts are relations, each called once more: so that wrong callers are refused where a change of the call itself
//! would cost its crate's whole check.
//!
//! Each function has the clauses of the call that is its body. A must-fail edit calls with other arguments, or gives another answer
//! than the one that was told. So it is the contract that is tried, and not the body below: what private functions promise is out
//! of reach here. There is no code but these calls, and no model.
//!
//! Below stand the kernel (`model_kernel`) and what is told of policies (`policy_compare`, `policy_claims`, `policy_lint`); nothing
//! stands above.
#![tactic(auto)]

pub mod kernel;
pub mod policies;

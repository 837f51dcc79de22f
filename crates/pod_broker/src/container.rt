//! What is served: a policy and a script.

use hist_model::policy::Policy;
use hist_model::script::Script;

/// A container: the policy by which its notifications are answered, and the script of what its tasks do.
#[derive(Drop)]
pub struct Container {
    pub policy: Policy,
    pub script: Script,
}

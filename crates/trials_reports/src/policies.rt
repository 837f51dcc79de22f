//! Policies that are read from their texts.

use hist_model::policy::Policy;
use policy_reader::read_policy;
use std::alloc::Global;
use std::test::Fail;

/// The policy that a text states. It fails if the text is longer than any of the trials.
pub(crate) fn policy_of(alloc: Global, text: &str) -> Result<Policy, Fail> {
    if text.len() > 1024 {
        return Err(Fail::new("a long text"));
    }
    Ok(read_policy(alloc, text.as_bytes())?)
}

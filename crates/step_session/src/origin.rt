//! What a container's report, script and judgement are told by.

ghost use Rattle.std.specs.Prelude.{◌≡◌, IfOk};
ghost use Rattle.step_session.specs.Scripts.{before_schedule};

use crate::scripts::before_schedule;
use hist_model::policy::Policy;
use hist_model::text::Text;
use std::alloc::Global;
use sys_abi::memory::NoMemory;

/// What a container's report, script and judgement are told by.
#[derive(Drop)]
pub struct Origin {
    /// The policy by which the audit of the report and the judge judge what workers did.
    pub(crate) policy: Policy,
    /// The lines of the script before its schedule.
    pub(crate) front: Text,
}

impl Origin {
    /// That of a policy and of the bytes that state a script.
    pub fn new(alloc: Global, policy: Policy, script: &[u8]) -> Result<Origin, NoMemory>
        ensures policy { IfOk result (λ o. o.policy ≡ policy) }
        ensures front { IfOk result (λ o. o.front ≡ before_schedule script.now) }
    {
        Ok(Origin {
            policy,
            front: before_schedule(alloc, script)?,
        })
    }
}

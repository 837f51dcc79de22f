//! The policy of generated input.

ghost use Rattle.std.specs.Prelude.{◌≡◌, IfOk};
ghost use Rattle.generated_input.specs.GeneratedPolicy.{generated_policy, policy_text};

use hist_model::policy::Policy;
use policy_reader::read_policy;
use std::alloc::Global;
use sys_abi::memory::{NoMemory, OrNoMemory};

/// The policy of generated input, as a file would have it: mknod and sysinfo are intercepted, and mknod of 1:1 is denied.
fn policy_text() -> &'static [u8]
    ensures { result.now ≡ policy_text }
{
    b"{\"config\":{\"security.syscalls.intercept.mknod\":\"true\",\"security.syscalls.intercept.sysinfo\":\"true\"},\"rules\":[{\"name\":\"no-mem\",\"call\":\"mknod\",\"when\":{\"dev\":\"1:1\"},\"then\":{\"deny\":\"EPERM\"}}]}"
}

/// The policy of generated input.
pub fn generated_policy(alloc: Global) -> Result<Policy, NoMemory>
    ensures { IfOk result (λ p. p ≡ generated_policy) }
{
    match read_policy(alloc, policy_text()) {
        Ok(policy) => Ok(policy),
        Err(OrNoMemory::NoMemory) => Err(NoMemory),
        Err(OrNoMemory::Refused(_)) => unreachable!(),
    }
}

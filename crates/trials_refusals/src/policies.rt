//! What is told of policies.

ghost use Rattle.std.specs.Prelude.{◌≡◌, ◌≤◌, ◌^◌, length, IfOk};
ghost use Rattle.std.specs.Option.{option_copied};
ghost use Rattle.policy_claims.specs.Told.{IsToldOf};
ghost use Rattle.policy_compare.specs.Compared.{IsComparison};
ghost use Rattle.policy_lint.specs.Found.{Tells};

use hist_model::policy::Policy;
use hist_model::script::FilterLine;
use hist_model::text::Sequence;
use policy_claims::claims::Claims;
use policy_classes::ending::Told;
use std::alloc::Global;
use sys_abi::memory::NoMemory;

/// What is told of an old and a new policy.
pub fn compare(
    alloc: Global,
    old: &Policy,
    new: &Policy,
    filters: Option<&Sequence<FilterLine>>,
) -> Result<Told, NoMemory>
    ensures { IfOk result (IsComparison old.now.rules new.now.rules (option_copied filters.entry)) }
{
    policy_compare::compare(alloc, old, new, filters)
}

/// What is told of claims under a policy.
pub fn check(alloc: Global, policy: &Policy, claims: &Claims) -> Result<Told, NoMemory>
    ensures { IfOk result (λ told. IsToldOf policy.now.rules claims.now told) }
{
    let told = policy_claims::check(alloc, policy, claims)?;
    Ok(told)
}

/// What is told of the policy that a file's bytes are.
pub fn lint(alloc: Global, bytes: &[u8]) -> Result<Told, NoMemory>
    requires { length bytes.now ≤ 2 ^ 20 }
    ensures { IfOk result (Tells bytes.now) }
{
    policy_lint::lint(alloc, bytes)
}

//! What is found of the claims of a list.

ghost use Rattle.std.specs.Prelude.{IfOk};
ghost use Rattle.policy_claims.specs.Told.{AreFindings, IsFinding};

use crate::claims::Sense;
use crate::standing::{Standing, standing_of};
use hist_model::policy::{Policy, Rule};
use hist_model::text::Text;
use policy_classes::classes::{MOST_LOOKED, classes};
use std::alloc::Global;
use std::slice;
use sys_abi::memory::NoMemory;

/// A claim, by its name, and what it comes to.
#[derive(Debug, Drop)]
pub struct Finding {
    pub name: Text,
    pub standing: Standing,
}

/// What is found of a claim.
fn finding_of(
    alloc: Global,
    sense: Sense,
    policy: &Policy,
    claim: &Rule,
) -> Result<Finding, NoMemory>
    ensures { IfOk result (λ f. IsFinding sense policy.now.rules claim.now f) }
{
    let found = classes(
        alloc,
        policy.rules.items(),
        slice::from_ref(claim),
        MOST_LOOKED,
    )?;
    let standing = standing_of(alloc, sense, policy, claim, &found)?;
    Ok(Finding {
        name: claim.name.copied(alloc)?,
        standing,
    })
}

/// What is found of each claim of a list.
pub(crate) fn findings(
    alloc: Global,
    sense: Sense,
    policy: &Policy,
    claims: &[Rule],
) -> Result<Vec<Finding>, NoMemory>
    ensures { IfOk result (λ found. AreFindings sense policy.now.rules claims.now found.items) }
{
    let mut found = Vec::new(alloc);
    for claim in claims {
        found.push(finding_of(alloc, sense, policy, claim)?)?;
    }
    Ok(found)
}

//! What a claim comes to.

ghost use Rattle.std.specs.Prelude.{◌≡◌, All, Any, IfOk, IfSome, IsTrue, [], ◌∷◌, false, true, None};
ghost use Rattle.std.specs.List.{list_any};
ghost use Rattle.hist_model.specs.Decisions.{fits};
ghost use Rattle.policy_claims.specs.Standings.{AreClassesOf, Bears, BearsClaim, IsAsClaimed, IsSo, Refutes, unrefuted};
ghost use Rattle.policy_claims.specs.declared.standing.Standing.TheVariants.{Refuted, Undecided};
ghost use Rattle.policy_classes.specs.Classes.{HasWitness};
ghost use Rattle.policy_classes.specs.declared.found.Class.{Class};

use crate::claims::Sense;
use hist_model::policy::{Policy, Rule, Verdict};
use hist_model::request::Request;
use policy_classes::found::{Class, Classes};
use policy_eval::conditions::fits;
use policy_eval::decide;
use std::alloc::Global;
use sys_abi::memory::NoMemory;

/// What is known of a claim.
#[derive(Debug, Drop)]
pub enum Standing {
    /// It holds, and some call fits it.
    Held,
    /// It holds, since no call fits it.
    Vacuous,
    /// This call fits it, and isn't answered as it has it.
    Refuted { witness: Request },
    /// Not all classes of calls were found, and none of those that were refutes it.
    Undecided,
}

/// Whether an answer is as a claim has it.
fn is_as_claimed(sense: Sense, found: Verdict, claimed: Verdict) -> bool
    ensures yes { IsTrue result → IsAsClaimed sense found claimed }
    ensures no { result ≡ false → ¬ (IsAsClaimed sense found claimed) }
{
    match sense {
        Sense::Expect => found == claimed,
        Sense::Never => found != claimed,
    }
}

/// Whether a call refutes a claim: it fits it, and the policy doesn't answer it as the claim has it.
fn refutes(sense: Sense, policy: &Policy, claim: &Rule, call: &Request) -> bool
    ensures yes { IsTrue result → Refutes sense policy.now.rules claim.now call.now }
    ensures no { result ≡ false → Bears sense policy.now.rules claim.now call.now }
{
    if !fits(claim, call) {
        return false;
    }
    let (_place, found) = decide(policy, call);
    !is_as_claimed(sense, found, claim.verdict)
}

/// The witness of the first class that refutes a claim.
fn refuting(
    alloc: Global,
    sense: Sense,
    policy: &Policy,
    claim: &Rule,
    classes: &[Class],
) -> Result<Option<Request>, NoMemory>
    requires { All (HasWitness policy.now.rules (claim.now ∷ [])) classes.now }
    ensures some { IfOk result (λ found. IfSome found (λ q. IsSo sense policy.now.rules claim.now (Refuted q))) }
    ensures none { IfOk result (λ found. found ≡ None → All (BearsClaim sense policy.now.rules claim.now) classes.now) }
{
    for class in classes {
        if refutes(sense, policy, claim, &class.witness) {
            return Ok(Some(class.witness.copied(alloc)?));
        }
    }
    Ok(None)
}

/// Whether a call of these classes fits the claim.
fn is_met(claim: &Rule, classes: &[Class]) -> bool
    ensures { result ≡ list_any (λ (c : Class). fits claim.now c.witness) classes.now }
{
    classes.iter().any(|class| fits(claim, &class.witness))
}

/// What a claim that no class refutes comes to.
fn unrefuted(claim: &Rule, found: &Classes) -> Standing
    ensures { result ≡ unrefuted claim.now found.now }
{
    if !found.whole {
        return Standing::Undecided;
    }
    if is_met(claim, found.classes.items()) {
        Standing::Held
    } else {
        Standing::Vacuous
    }
}

/// What a claim comes to by the classes of calls of the policy's rules and of the claim, as a rule.
pub fn standing_of(
    alloc: Global,
    sense: Sense,
    policy: &Policy,
    claim: &Rule,
    found: &Classes,
) -> Result<Standing, NoMemory>
    requires { AreClassesOf policy.now.rules claim.now found.now }
    ensures so { IfOk result (λ s. IsSo sense policy.now.rules claim.now s) }
    ensures undecided { IfOk result (λ s. s ≡ Undecided → found.now.whole ≡ false) }
{
    match refuting(alloc, sense, policy, claim, found.classes.items())? {
        Some(witness) => Ok(Standing::Refuted { witness }),
        None => Ok(unrefuted(claim, found)),
    }
}

//! Hints: grants that are likely more than was meant. What was meant, only people know; that the call is granted by the rule is exact.

ghost use Rattle.std.specs.Prelude.{◌≡◌, IfOk, IfSome};
ghost use Rattle.policy_lint.specs.Found.{AreSaid, IsSo};

use crate::candidates::{Candidate, candidates, is_of_lxd, key_of};
use crate::finding::{Fault, Finding, Hint};
use crate::positions::Position;
use crate::scanner::Scanned;
use hist_model::policy::{Cond, Policy, Rule, Verdict};
use hist_model::text::Text;
use policy_classes::found::Class;
use policy_eval::conditions::fits;
use policy_eval::decide;
use std::alloc::Global;
use sys_abi::memory::NoMemory;

/// Whether a rule has a condition on a path.
fn has_path(rule: &Rule) -> bool {
    rule.conds
        .items()
        .iter()
        .any(|cond| matches!(cond, Cond::Path(_)))
}

/// Whether it has one on a device.
fn has_device(rule: &Rule) -> bool {
    rule.conds
        .items()
        .iter()
        .any(|cond| matches!(cond, Cond::Dev(_, _)))
}

/// Whether it has one on a type of file system.
fn has_type(rule: &Rule) -> bool {
    rule.conds
        .items()
        .iter()
        .any(|cond| matches!(cond, Cond::Fstype(_)))
}

/// What of a rule a hint is about.
fn part_of(rule: &Rule, hint: Hint) -> &'static str {
    match hint {
        Hint::GoneAround if has_path(rule) => ".when.path",
        Hint::GoneAround => ".when.under",
        Hint::WideDevice | Hint::BothKinds if has_device(rule) => ".when.dev",
        Hint::RiskyType if has_type(rule) => ".when.fstype",
        _ => "",
    }
}

/// The path of what a hint is about.
fn path_of_hint(alloc: Global, place: usize, rule: &Rule, hint: Hint) -> Result<Text, NoMemory> {
    let path = if is_of_lxd(rule) {
        let key = key_of(rule.name.items());
        format!(in alloc; "config.\"security.syscalls.intercept.{key}\"")?
    } else {
        let part = part_of(rule, hint);
        format!(in alloc; "rules[{place}]{part}")?
    };
    Ok(Text::new(path.into_bytes()))
}

/// What is told of a call, where it is granted.
fn granted(alloc: Global, policy: &Policy, candidate: &Candidate) -> Result<Option<Fault>, NoMemory>
    ensures { IfOk result (λ found. IfSome found (IsSo policy.now.rules)) }
{
    let Some(rule) = policy.rules.items().get(candidate.rule) else {
        return Ok(None);
    };
    if candidate.same && !fits(rule, &candidate.request) {
        return Ok(None);
    }
    let place = path_of_hint(alloc, candidate.rule, rule, candidate.hint)?;
    let call = candidate.request.copied(alloc)?;
    let (by, verdict) = decide(policy, &call);
    if verdict != Verdict::Grant || (candidate.same && by != candidate.rule) {
        return Ok(None);
    }
    Ok(Some(Fault::Granted {
        hint: candidate.hint,
        place,
        by,
        call,
    }))
}

/// Where in the text a hint is.
fn begin_of(bytes: &[u8], scanned: &Scanned, fault: &Fault) -> usize {
    match fault {
        Fault::Granted { place, .. } | Fault::Passed { place, .. } | Fault::Unsure { place, .. } =>
            scanned.begin_of(scanned.at_path(bytes, place.items())),
        _ => 0,
    }
}

/// What is found at its place.
pub fn placed(bytes: &[u8], scanned: &Scanned, position: &mut Position<'_>, fault: Fault) -> Finding
    ensures { result.fault ≡ fault }
{
    let at = begin_of(bytes, scanned, &fault);
    position.found(at, fault)
}

/// The hints of a policy, of each rule one of a kind at most. Of the rules these classes have calls.
#[tactic(auto, using(crate::proofs::Said::nothing_said, crate::proofs::Said::more_said))]
pub fn find_hints(
    alloc: Global,
    bytes: &[u8],
    scanned: &Scanned,
    policy: &Policy,
    classes: &[Class],
) -> Result<Vec<Finding>, NoMemory>
    ensures { IfOk result (λ hints. AreSaid policy.now.rules hints.items) }
{
    let mut position = Position::new(bytes);
    let mut hints = Vec::new(alloc);
    let mut told = None;
    let all = candidates(alloc, policy.rules.items(), classes)?;
    for candidate in all.as_slice() {
        let kind = Some((candidate.hint, candidate.rule));
        if told != kind {
            if let Some(fault) = granted(alloc, policy, candidate)? {
                told = kind;
                hints.push(placed(bytes, scanned, &mut position, fault))?;
            }
        }
    }
    Ok(hints)
}

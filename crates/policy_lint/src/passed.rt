//! Calls that are passed, and would be denied if other bytes stood behind the same registers.

ghost use Rattle.std.specs.List.{list_all, list_any};
ghost use Rattle.std.specs.Prelude.{◌≡◌, IfOk, IfSome, IsTrue, List, OnOk};
ghost use Rattle.hist_model.specs.declared.policy.Rule.{Rule as AnyRule};
ghost use Rattle.policy_lint.specs.Found.{AreAllTold, AreSaid, IsSo, is_heeded, tells_of_passing};
ghost use Rattle.policy_lint.specs.Passed.{HaveSameRegisters, IsOpen, denies, is_suspect};
ghost use Rattle.policy_lint.specs.declared.finding.Finding.{Finding as AnyFinding};

use crate::any_text::{denies, of_any_text, passes, verdict_at};
use crate::candidates::{is_of_lxd, key_of};
use crate::finding::{Fault, Finding};
use crate::hints::placed;
use crate::judging::looked;
use crate::made_calls::is_call;
use crate::other_texts::{Pairs, pairs_of};
use crate::own::own_number;
use crate::positions::Position;
use crate::scanner::Scanned;
use hist_model::policy::{Policy, Rule};
use hist_model::request::Request;
use hist_model::text::Text;
use policy_classes::found::Class;
use policy_eval::decide;
use std::alloc::Global;
use sys_abi::memory::NoMemory;

/// How many pairs of calls are tried for one policy.
const MOST_TRIES: usize = 20_000;

/// Whether two calls have the same registers.
fn have_same_registers(call: &Request, other: &Request) -> bool
    ensures { IsTrue result → HaveSameRegisters call.now other.now }
{
    match (call, other) {
        (
            Request::Mknod {
                dirfd: None,
                mode,
                dev,
                ..
            },
            Request::Mknod {
                dirfd: None,
                mode: m,
                dev: d,
                ..
            },
        ) => mode == m && dev == d,
        (
            Request::Mknod {
                dirfd: Some(fd),
                mode,
                dev,
                ..
            },
            Request::Mknod {
                dirfd: Some(f),
                mode: m,
                dev: d,
                ..
            },
        ) => fd == f && mode == m && dev == d,
        (Request::Mount { flags, .. }, Request::Mount { flags: n, .. }) => flags == n,
        (
            Request::SetXattr { value, flags, .. },
            Request::SetXattr {
                value: u,
                flags: n,
                ..
            },
        ) => flags == n && value.items().len() == u.items().len(),
        (
            Request::OpenAt { dirfd, flags, .. },
            Request::OpenAt {
                dirfd: d,
                flags: n,
                ..
            },
        ) => dirfd == d && flags == n,
        _ => false,
    }
}

/// The rule that denies the second call, if the rule at a place passes the first one and both have the same registers.
fn denied_beside(policy: &Policy, by: usize, call: &Request, other: &Request) -> Option<usize>
    ensures { IfSome result (λ against. IsOpen policy.now.rules call.now by other.now against) }
{
    if !is_call(call) || !is_call(other) {
        return None;
    }
    if !have_same_registers(call, other) {
        return None;
    }
    let (place, verdict) = decide(policy, call);
    if place != by || !passes(verdict) {
        return None;
    }
    let (against, verdict) = decide(policy, other);
    if !denies(verdict) {
        return None;
    }
    Some(against)
}

/// Where a policy has the rule at a place.
fn place_of_rule(alloc: Global, rules: &[Rule], place: usize) -> Result<Text, NoMemory> {
    if place < own_number(rules) {
        let path = format!(in alloc; "rules[{place}]")?;
        return Ok(Text::new(path.into_bytes()));
    }
    match rules.get(place) {
        Some(rule) if is_of_lxd(rule) => {
            let key = key_of(rule.name.items());
            let path = format!(in alloc; "config.\"security.syscalls.intercept.{key}\"")?;
            Ok(Text::new(path.into_bytes()))
        }
        _ => Ok(Text::new(Vec::from_slice(alloc, b"rules")?)),
    }
}

/// What is told of a rule if a pair of calls shows it.
fn shown(
    alloc: Global,
    policy: &Policy,
    by: usize,
    call: &Request,
    other: &Request,
) -> Result<Option<Fault>, NoMemory>
    ensures { IfOk result (λ found. IfSome found (IsSo policy.now.rules)) }
{
    let Some(against) = denied_beside(policy, by, call, other) else {
        return Ok(None);
    };
    Ok(Some(Fault::Passed {
        place: place_of_rule(alloc, policy.rules.items(), by)?,
        by,
        call: call.copied(alloc)?,
        against,
        other: other.copied(alloc)?,
    }))
}

/// What is told of a rule by the first of these pairs that shows it.
fn first_shown(
    alloc: Global,
    policy: &Policy,
    by: usize,
    pairs: &Pairs,
    tries: &mut usize,
) -> Result<Option<Fault>, NoMemory>
    ensures { IfOk result (λ found. IfSome found (IsSo policy.now.rules)) }
{
    for call in pairs.calls.as_slice() {
        for other in pairs.others.as_slice() {
            if *tries == 0 {
                return Ok(None);
            }
            *tries -= 1;
            let found = shown(alloc, policy, by, call, other)?;
            if found.is_some() {
                return Ok(found);
            }
        }
    }
    Ok(None)
}

/// What is told of the rule of a class.
fn told(
    alloc: Global,
    policy: &Policy,
    class: &Class,
    tries: &mut usize,
) -> Result<Option<Fault>, NoMemory>
    ensures { IfOk result (λ found. IfSome found (IsSo policy.now.rules)) }
{
    let pairs = pairs_of(alloc, policy.rules.items(), &class.witness)?;
    first_shown(alloc, policy, class.old_place, &pairs, tries)
}

/// Whether a call of the class is passed, and may be denied for other texts.
fn is_suspect(rules: &[Rule], any: &[Rule], class: &Class) -> bool
    ensures { result ≡ is_suspect rules.now any.now class.now }
{
    passes(verdict_at(rules, class.old_place)) && denies(verdict_at(any, class.new_place))
}

/// Whether it is told of the rule at a place.
fn is_of(fault: &Fault, place: usize) -> bool
    ensures { result ≡ tells_of_passing place fault.now }
{
    match fault {
        Fault::Passed { by, .. } => *by == place,
        Fault::Unsure { .. } => true,
        _ => false,
    }
}

/// Whether something was told of it.
fn is_told(findings: &[Finding], place: usize) -> bool
    ensures { result ≡ list_any (λ (f : AnyFinding). tells_of_passing place f.fault) findings.now }
{
    findings.iter().any(|finding| is_of(&finding.fault, place))
}

/// Whether it is told of the rule of a class, if that has such calls.
fn is_heeded(rules: &[Rule], any: &[Rule], findings: &[Finding], class: &Class) -> bool
    ensures { result ≡ is_heeded rules.now any.now findings.now class.now }
{
    !is_suspect(rules, any, class) || is_told(findings, class.old_place)
}

/// Whether it is told of each of these.
fn are_heeded(rules: &[Rule], any: &[Rule], findings: &[Finding], classes: &[Class]) -> bool
    ensures { result ≡ list_all (is_heeded rules.now any.now findings.now) classes.now }
{
    classes
        .iter()
        .all(|class| is_heeded(rules, any, findings, class))
}

/// The rules of which it is shown that they pass calls which other texts would deny.
#[tactic(auto, using(crate::proofs::Said::nothing_said, crate::proofs::Said::more_said))]
fn find_shown(
    alloc: Global,
    bytes: &[u8],
    scanned: &Scanned,
    policy: &Policy,
    any: &[Rule],
    classes: &[Class],
) -> Result<Vec<Finding>, NoMemory>
    ensures { IfOk result (λ findings. AreSaid policy.now.rules findings.items) }
{
    let mut position = Position::new(bytes);
    let mut findings = Vec::new(alloc);
    let mut tries = MOST_TRIES;
    for class in classes {
        if !is_heeded(policy.rules.items(), any, findings.as_slice(), class) {
            if let Some(fault) = told(alloc, policy, class, &mut tries)? {
                findings.push(placed(bytes, scanned, &mut position, fault))?;
            }
        }
    }
    Ok(findings)
}

/// Adds that it wasn't found out of the other rules.
#[tactic(auto, using(crate::proofs::Passing::unsure_told, crate::proofs::Passing::unsure_said))]
fn push_unsure(
    alloc: Global,
    bytes: &[u8],
    scanned: &Scanned,
    findings: &mut Vec<Finding>,
) -> Result<(), NoMemory>
    ensures said { OnOk result ((rules : List AnyRule) → AreSaid rules findings.old.items → AreSaid rules findings.new.items) }
    ensures all { OnOk result ((rules : List AnyRule) → AreAllTold rules findings.new.items) }
{
    let mut position = Position::new(bytes);
    let fault = Fault::Unsure {
        place: Text::new(Vec::from_slice(alloc, b"rules")?),
    };
    findings.push(placed(bytes, scanned, &mut position, fault))?;
    Ok(())
}

/// Whether a rule denies calls.
fn has_denial(rules: &[Rule]) -> bool
    ensures { result ≡ list_any (λ (rule : AnyRule). denies rule.verdict) rules.now }
{
    rules.iter().any(|rule| denies(rule.verdict))
}

/// The rules that pass calls of which other texts would be denied.
#[tactic(auto, using(crate::proofs::Said::nothing_said))]
pub fn find_passed(
    alloc: Global,
    bytes: &[u8],
    scanned: &Scanned,
    policy: &Policy,
) -> Result<Vec<Finding>, NoMemory>
    ensures said { IfOk result (λ findings. AreSaid policy.now.rules findings.items) }
    ensures all { IfOk result (λ findings. AreAllTold policy.now.rules findings.items) }
{
    let rules = policy.rules.items();
    if !has_denial(rules) {
        return Ok(Vec::new(alloc));
    }
    let any = of_any_text(alloc, rules)?;
    let found = looked(alloc, rules, any.as_slice())?;
    let classes = found.classes.items();
    let mut findings = find_shown(alloc, bytes, scanned, policy, any.as_slice(), classes)?;
    if found.whole && are_heeded(rules, any.as_slice(), findings.as_slice(), classes) {
        return Ok(findings);
    }
    push_unsure(alloc, bytes, scanned, &mut findings)?;
    Ok(findings)
}

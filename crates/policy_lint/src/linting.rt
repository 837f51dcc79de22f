//! What is found of a policy that is read, and of one that is refused.

ghost use Rattle.std.specs.Prelude.{◌≡◌, ◌≢◌, ◌+◌, ◌<◌, ◌≤◌, [], ◌∷◌, IfOk, IsTrue, OnOk, List, ◌↔◌, length};
ghost use Rattle.hist_model.specs.declared.policy.Rule.{Rule as AnyRule};
ghost use Rattle.policy_lint.specs.Found.{AreAllTold, AreFindings, AreSaid, FoundUpTo, IsRefusal};
ghost use Rattle.policy_lint.specs.Judged.{IsJudged};
ghost use Rattle.policy_lint.specs.Own.{own_number};
ghost use Rattle.policy_lint.specs.Looked.{AreClasses};
ghost use Rattle.policy_lint.specs.declared.judgement.Judgement.TheVariants as said;

use crate::cures::cure_of;
use crate::finding::{Fault, Finding};
use crate::hints::find_hints;
use crate::judgement::Judgement;
use crate::judging::{Looks, judge, looked};
use crate::notes::find_notes;
use crate::own::own_number;
use crate::passed::find_passed;
use crate::places::Places;
use crate::positions::Position;
use crate::scanner::Scanned;
use hist_model::policy::{Policy, Rule};
use policy_classes::found::Classes;
use policy_reader::PolicyError;
use std::alloc::Global;
use sys_abi::memory::NoMemory;

/// Whether a rule is useful.
fn is_useful(judgement: &Judgement) -> bool
    ensures { IsTrue result ↔ (judgement.now ≡ said.Useful) }
{
    match judgement {
        Judgement::Useful => true,
        Judgement::Never | Judgement::Shadowed(_) | Judgement::Needless(_) | Judgement::Undecided =>
            false,
    }
}

/// Where in the text what is said of a rule stands.
fn place_of(
    bytes: &[u8],
    scanned: &Scanned,
    places: &Places,
    rule: usize,
    judgement: &Judgement,
) -> usize {
    match judgement {
        Judgement::Never => places.of_conditions(bytes, scanned, rule),
        _ => places.of_rule(scanned, rule),
    }
}

/// Adds what is said of a rule, unless a call needs it.
fn push_fault(
    findings: &mut Vec<Finding>,
    position: &mut Position<'_>,
    at: usize,
    place: usize,
    judgement: Judgement,
) -> Result<(), NoMemory>
    ensures { OnOk result ((rules : List AnyRule) → place < own_number rules → IsJudged rules place judgement
        → FoundUpTo rules place findings.old.items → FoundUpTo rules (place + 1) findings.new.items) }
{
    if is_useful(&judgement) {
        return Ok(());
    }
    findings.push(position.found(at, Fault::Judged { place, judgement }))?;
    Ok(())
}

/// What is found of the rules of a policy, where a look at all calls found these classes.
#[tactic(auto, using(crate::proofs::Faults::none_yet))]
fn find_faults(
    alloc: Global,
    bytes: &[u8],
    scanned: &Scanned,
    rules: &[Rule],
    all: &Classes,
) -> Result<Vec<Finding>, NoMemory>
    requires { AreClasses rules.now [] all.now }
    ensures { IfOk result (λ findings. FoundUpTo rules.now (own_number rules.now) findings.items) }
{
    let places = Places::new(alloc, bytes, scanned)?;
    let mut looks = Looks::new();
    let mut position = Position::new(bytes);
    let mut findings = Vec::new(alloc);
    for place in 0..own_number(rules) {
        let judgement = judge(alloc, &mut looks, rules, all, place)?;
        let at = place_of(bytes, scanned, &places, place, &judgement);
        push_fault(&mut findings, &mut position, at, place, judgement)?;
    }
    Ok(findings)
}

/// All findings in the order of the text.
#[tactic(auto, using(crate::proofs::Said::all_in_order))]
fn in_order(
    mut findings: Vec<Finding>,
    mut hints: Vec<Finding>,
    mut passed: Vec<Finding>,
    mut notes: Vec<Finding>,
) -> Result<Vec<Finding>, NoMemory>
    ensures { (rules : List AnyRule) → FoundUpTo rules (own_number rules) findings.items → AreSaid rules hints.items
        → AreSaid rules passed.items → AreAllTold rules passed.items → AreSaid rules notes.items
        → IfOk result (λ all. AreFindings rules all.items) }
{
    findings.append(&mut hints)?;
    findings.append(&mut passed)?;
    findings.append(&mut notes)?;
    findings.sort_by_key(|finding| finding.at)?;
    Ok(findings)
}

/// What is found of a policy that is read.
pub fn find_all(
    alloc: Global,
    bytes: &[u8],
    scanned: &Scanned,
    policy: &Policy,
) -> Result<Vec<Finding>, NoMemory>
    ensures { IfOk result (λ findings. AreFindings policy.now.rules findings.items) }
{
    let rules = policy.rules.items();
    let all = looked(alloc, rules, &[])?;
    let findings = find_faults(alloc, bytes, scanned, rules, &all)?;
    let hints = find_hints(alloc, bytes, scanned, policy, all.classes.items())?;
    let passed = find_passed(alloc, bytes, scanned, policy)?;
    let notes = find_notes(alloc, bytes, scanned, rules)?;
    in_order(findings, hints, passed, notes)
}

/// What is found of a policy that is refused.
pub fn find_refusal(
    alloc: Global,
    bytes: &[u8],
    scanned: &Scanned,
    error: PolicyError,
) -> Result<Finding, NoMemory>
    ensures { IfOk result (λ f. IsRefusal error f.fault) }
{
    let (at, cure) = cure_of(alloc, bytes, scanned, &error)?;
    let mut position = Position::new(bytes);
    Ok(position.found(at, Fault::Refused { error, cure }))
}

//! What is said of a rule, by looks at all calls.

ghost use Rattle.std.specs.Prelude.{◌≡◌, ◌==◌, ◌<◌, [], false, find, All, Any, IfOk, IsTrue, length, slice_get};
ghost use Rattle.std.specs.Option.{option_copied};
ghost use Rattle.hist_model.specs.declared.request.Request.{Request as AnyRequest};
ghost use Rattle.policy_lint.specs.Alike.{IsAlike};
ghost use Rattle.policy_lint.specs.Judged.{Decides, IsJudged, IsSameWithout, IsShadowed, behind};
ghost use Rattle.policy_lint.specs.Looked.{AreClasses, partners};

use crate::alike::{behind, deciding_place, is_alike};
use crate::judgement::Judgement;
use hist_model::policy::Rule;
use hist_model::request::Request;
use hist_model::text::Sequence;
use policy_classes::classes::classes;
use policy_classes::found::{Class, Classes};
use std::alloc::Global;
use sys_abi::memory::NoMemory;

/// How many requests are looked at before a look is given up.
const MOST_LOOKED: u32 = 100_000;

/// How much is looked at for one policy: the sum of the squares of the numbers of rules of its looks.
const MOST_LOOKS: u64 = 1 << 25;

/// The classes of two lists of rules.
pub fn looked(alloc: Global, old: &[Rule], new: &[Rule]) -> Result<Classes, NoMemory>
    ensures { IfOk result (AreClasses old.now new.now) }
{
    classes(alloc, old, new, MOST_LOOKED)
}

/// The places of the second rules of the classes whose first rule is at a place.
#[tactic(auto, using(crate::proofs::Partners::partner_kept, crate::proofs::Partners::partner_left, crate::proofs::Partners::partners_past))]
fn partners(alloc: Global, classes: &[Class], place: usize) -> Result<Sequence<usize>, NoMemory>
    ensures { IfOk result (λ places. places ≡ partners place classes.now) }
{
    let mut places = Vec::new(alloc);
    for class in classes {
        if class.old_place == place {
            places.push(class.new_place)?;
        }
    }
    Ok(Sequence::new(places))
}

/// The first class whose first rule is at a place.
pub fn class_at(classes: &[Class], place: usize) -> Option<&Class>
    ensures { option_copied result ≡ find (λ class. class.old_place == place) classes.now }
{
    classes.iter().find(|class| class.old_place == place)
}

/// Whether the second rules of the classes whose first rule is at a place all answer as this rule.
fn are_all_alike(rule: &Rule, rules: &[Rule], classes: &[Class], place: usize) -> bool
    ensures yes { IsTrue result → All (λ c. c.old_place ≡ place → IsAlike rule.now (slice_get rules.now c.new_place)) classes.now }
    ensures no { result ≡ false
        → Any (λ c. (c.old_place ≡ place) × ¬ IsAlike rule.now (slice_get rules.now c.new_place)) classes.now }
{
    for class in classes {
        if class.old_place == place && !is_alike(rule, rules, class.new_place) {
            return false;
        }
    }
    true
}

/// What is said of a rule that decides no call.
fn judge_shadowed(alloc: Global, rules: &[Rule], place: usize) -> Result<Judgement, NoMemory>
    requires place { place < length rules.now }
    requires shadowed { IsShadowed rules.now place }
    ensures { IfOk result (IsJudged rules.now place) }
{
    let found = looked(alloc, &rules[place..place + 1], rules)?;
    if !found.whole {
        return Ok(Judgement::Undecided);
    }
    let by = partners(alloc, found.classes.items(), 0)?;
    if by.items().is_empty() {
        return Ok(Judgement::Never);
    }
    Ok(Judgement::Shadowed(by))
}

/// What is said of a rule that decides some call.
fn judge_deciding(alloc: Global, rules: &[Rule], place: usize) -> Result<Judgement, NoMemory>
    requires place { place < length rules.now }
    requires decides { (q : AnyRequest) × Decides rules.now place q }
    ensures { IfOk result (IsJudged rules.now place) }
{
    let rest = behind(rules, place);
    let found = looked(alloc, rules, rest)?;
    if !are_all_alike(&rules[place], rest, found.classes.items(), place) {
        return Ok(Judgement::Useful);
    }
    if !found.whole {
        return Ok(Judgement::Undecided);
    }
    let by = partners(alloc, found.classes.items(), place)?;
    Ok(Judgement::Needless(by))
}

/// Whether this call, which the rule decides, would have another answer without it.
fn is_useful_for(rules: &[Rule], place: usize, witness: &Request) -> bool
    requires { place < length rules.now }
    ensures { IsTrue result → ¬ IsSameWithout rules.now place witness.now }
{
    let rest = &rules[place + 1..];
    !is_alike(&rules[place], rest, deciding_place(rest, witness))
}

/// How much a look at so many rules is.
fn size_of_look(rules: usize) -> u64 {
    let rules = rules as u64;
    rules.saturating_mul(rules)
}

/// How much may still be looked at.
#[derive(Drop)]
pub struct Looks {
    left: u64,
}

impl Looks {
    /// As much as is looked at for one policy.
    pub fn new() -> Looks {
        Looks { left: MOST_LOOKS }
    }

    /// Whether a look at so many rules may still be taken, which it then is.
    fn takes(&mut self, rules: usize) -> bool {
        let size = size_of_look(rules);
        if self.left < size {
            return false;
        }
        self.left -= size;
        true
    }
}

/// What is said of the rule at a place, where a look at all calls found these classes.
pub fn judge(
    alloc: Global,
    looks: &mut Looks,
    rules: &[Rule],
    all: &Classes,
    place: usize,
) -> Result<Judgement, NoMemory>
    requires place { place < length rules.now }
    requires all { AreClasses rules.now [] all.now }
    ensures { IfOk result (IsJudged rules.now place) }
{
    match class_at(all.classes.items(), place) {
        Some(class) => {
            if is_useful_for(rules, place, &class.witness) {
                return Ok(Judgement::Useful);
            }
            if !looks.takes(rules.len()) {
                return Ok(Judgement::Undecided);
            }
            judge_deciding(alloc, rules, place)
        }
        None => {
            if !all.whole {
                return Ok(Judgement::Undecided);
            }
            if !looks.takes(rules.len()) {
                return Ok(Judgement::Undecided);
            }
            judge_shadowed(alloc, rules, place)
        }
    }
}

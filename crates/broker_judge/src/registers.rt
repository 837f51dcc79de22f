//! What a policy says of a call by its registers alone.

ghost use Rattle.std.specs.Prelude.{◌≡◌, ◌&&◌, ◌||◌};
ghost use Rattle.std.specs.List.{list_all, list_any};
ghost use Rattle.broker_verdict.specs.Choices.{by_registers_from, injects, is_of_texts, looks_at_texts, may_fit, place_eq, says_alike};
ghost use Rattle.hist_model.specs.Decisions.{meets};
ghost use Rattle.broker_judge.specs.Registers.{joined, led};

use hist_model::policy::{Cond, Policy, Rule, Verdict};
use hist_model::request::Request;
use policy_eval::conditions::{covers, meets};
use sys_abi::errno::Errno;

/// What the rules that were seen say of a call, of those that some texts may make decide it.
#[derive(Clone, Copy, Debug)]
enum Said {
    Nothing,
    /// All of them say the like.
    Alike(Verdict),
    Unlike,
}

/// The place of the last rule that may decide the request whatever its texts are, and its verdict, where all that may decide it
/// say the same. The request's texts are not looked at.
#[tactic(auto, using(crate::proofs::Choosing::decides_here, crate::proofs::Choosing::asks_on, crate::proofs::Choosing::goes_on, crate::proofs::Choosing::past))]
pub fn by_registers(policy: &Policy, request: &Request) -> Option<(usize, Verdict)>
    ensures { result ≡ by_registers_from 0 policy.now.rules request.now }
{
    let rules = policy.rules.items();
    let mut said = Said::Nothing;
    for i in 0..rules.len() {
        let rule = &rules[i];
        if may_fit(rule, request) {
            if !looks_at_texts(rule) {
                return led(&said, i, &rule.verdict);
            }
            join(&mut said, &rule.verdict);
        }
    }
    led(&said, rules.len(), &Verdict::Pass)
}

/// Whether the policy has one descriptor put in whatever the texts of the call are, whose request is given without them.
pub fn injects_by_registers(policy: &Policy, request: &Request) -> bool
    ensures { result ≡ injects (by_registers_from 0 policy.now.rules request.now) }
{
    match by_registers(policy, request) {
        Some((_, Verdict::Inject { .. })) => true,
        _ => false,
    }
}

/// Whether some texts may make the rule fit the request.
fn may_fit(rule: &Rule, request: &Request) -> bool
    ensures { result ≡ may_fit rule.now request.now }
{
    covers(&rule.calls, request.call()) && may_meet_all(rule.conds.items(), request)
}

/// Whether the request meets all of these conditions that look at registers.
fn may_meet_all(conds: &[Cond], request: &Request) -> bool
    ensures { result ≡ list_all (λ c. is_of_texts c || meets c request.now) conds.now }
{
    conds.iter().all(|c| is_of_texts(c) || meets(c, request))
}

/// Whether one of the rule's conditions looks at a text.
fn looks_at_texts(rule: &Rule) -> bool
    ensures { result ≡ looks_at_texts rule.now }
{
    rule.conds.items().iter().any(|c| is_of_texts(c))
}

/// Whether the condition looks at a text, and not at registers.
fn is_of_texts(cond: &Cond) -> bool
    ensures { result ≡ is_of_texts cond.now }
{
    match cond {
        Cond::Path(_)
        | Cond::Under(_)
        | Cond::Fstype(_)
        | Cond::Source(_)
        | Cond::Name(_)
        | Cond::Value(_) => true,
        Cond::Kind(_)
        | Cond::Dev(..)
        | Cond::Dirfd(_)
        | Cond::Flags { .. }
        | Cond::ShortDevice
        | Cond::PlainFlags => false,
    }
}

/// Whether two verdicts answer a call alike.
fn says_alike(a: &Verdict, b: &Verdict) -> bool
    ensures { result ≡ says_alike a.now b.now }
{
    match a {
        Verdict::Grant => matches!(b, Verdict::Grant),
        Verdict::Deny(error) => denies_with(b, error),
        Verdict::Pass => matches!(b, Verdict::Pass),
        Verdict::Inject { src, at } => puts_in(b, *src, *at),
    }
}

/// Whether the verdict is a denial with this error.
fn denies_with(verdict: &Verdict, error: &Errno) -> bool
    ensures { result ≡ says_alike (Verdict.Deny error.now) verdict.now }
{
    match verdict {
        Verdict::Deny(other) => error == other,
        _ => false,
    }
}

/// Whether the verdict has this file of the broker's put in, at the same number or at whichever is free.
fn puts_in(verdict: &Verdict, src: u32, at: Option<u32>) -> bool
    ensures { result ≡ says_alike (Verdict.Inject src at) verdict.now }
{
    match verdict {
        Verdict::Inject {
            src: other,
            at: place,
        } => src == *other && is_place(at, *place),
        _ => false,
    }
}

/// Whether two numbers that may be left out are one.
fn is_place(at: Option<u32>, place: Option<u32>) -> bool
    ensures { result ≡ place_eq at place }
{
    match (at, place) {
        (Some(at), Some(place)) => at == place,
        (None, None) => true,
        _ => false,
    }
}

/// Adds one more rule that may decide.
fn join(said: &mut Said, verdict: &Verdict)
    ensures { said.new ≡ joined said.old verdict.now }
{
    match said {
        Said::Nothing => *said = Said::Alike(*verdict),
        Said::Alike(first) => {
            if !says_alike(first, verdict) {
                *said = Said::Unlike;
            }
        }
        Said::Unlike => {}
    }
}

/// The last rule, by its place, where it says what those before it say.
fn led(said: &Said, place: usize, verdict: &Verdict) -> Option<(usize, Verdict)>
    ensures { result ≡ led said.now (Some (record { 0 = place; 1 = verdict.now })) }
{
    match said {
        Said::Nothing => Some((place, *verdict)),
        Said::Alike(first) => {
            if says_alike(first, verdict) {
                Some((place, *verdict))
            } else {
                None
            }
        }
        Said::Unlike => None,
    }
}

//! What rules answer, and which of two answers grants more.

ghost use Rattle.std.specs.Prelude.{◌≡◌};
ghost use Rattle.std.specs.Option.{option_copied};
ghost use Rattle.policy_compare.specs.Answers.{answer_of, grants_less, is_fewer, is_same, is_same_once, rank, verdict_eq, way_of};

use hist_model::policy::{Rule, Verdict};
use sys_abi::errno::Errno;

/// Which way an answer changed.
#[derive(Clone, Copy, PartialEq, Eq, Debug)]
pub enum Way {
    /// The new one grants more.
    Wider,
    /// It grants less.
    Narrower,
    /// It is another one, and neither.
    Other,
}

/// The verdict of a rule; where there is none, the call is passed.
pub(crate) fn verdict_of(rule: Option<&Rule>) -> Verdict
    ensures { result ≡ (answer_of (option_copied rule.entry)).verdict }
{
    match rule {
        Some(rule) => rule.verdict,
        None => Verdict::Pass,
    }
}

/// The program that serves a mount that the rule grants; empty for none.
pub(crate) fn via_of(rule: Option<&Rule>) -> &[u8]
    ensures { result.now ≡ (answer_of (option_copied rule.entry)).via }
{
    match rule {
        Some(rule) => rule.via.items(),
        None => &[],
    }
}

/// Whether a mount that the rule grants shifts owners.
pub(crate) fn shifts(rule: Option<&Rule>) -> bool
    ensures { result ≡ (answer_of (option_copied rule.entry)).shift }
{
    match rule {
        Some(rule) => rule.shift,
        None => false,
    }
}

/// How often the rule grants, if that is limited.
pub(crate) fn times_of(rule: Option<&Rule>) -> Option<u32>
    ensures { result ≡ (answer_of (option_copied rule.entry)).times }
{
    match rule {
        Some(rule) => rule.times,
        None => None,
    }
}

/// Whether the verdict is a denial with this error.
fn is_denial(verdict: Verdict, error: Errno) -> bool
    ensures { result ≡ verdict_eq (Verdict.Deny error) verdict }
{
    match verdict {
        Verdict::Deny(other) => error.number() == other.number(),
        Verdict::Grant | Verdict::Pass | Verdict::Inject { .. } => false,
    }
}

/// Whether the verdict gives this file at this number.
fn is_injection(verdict: Verdict, src: u32, at: Option<u32>) -> bool
    ensures { result ≡ verdict_eq (Verdict.Inject src at) verdict }
{
    match verdict {
        Verdict::Inject {
            src: other,
            at: place,
        } => src == other && at == place,
        Verdict::Grant | Verdict::Deny(_) | Verdict::Pass => false,
    }
}

/// Whether two verdicts are one.
fn is_same_verdict(a: Verdict, b: Verdict) -> bool
    ensures { result ≡ verdict_eq a b }
{
    match a {
        Verdict::Grant => matches!(b, Verdict::Grant),
        Verdict::Deny(error) => is_denial(b, error),
        Verdict::Pass => matches!(b, Verdict::Pass),
        Verdict::Inject { src, at } => is_injection(b, src, at),
    }
}

/// Whether two rules answer the same, but for how often.
fn is_same_once(a: Option<&Rule>, b: Option<&Rule>) -> bool
    ensures { result ≡ is_same_once (answer_of (option_copied a.entry)) (answer_of (option_copied b.entry)) }
{
    is_same_verdict(verdict_of(a), verdict_of(b))
        && via_of(a) == via_of(b)
        && shifts(a) == shifts(b)
}

/// Whether two rules answer the same.
pub(crate) fn is_same(a: Option<&Rule>, b: Option<&Rule>) -> bool
    ensures { result ≡ is_same (answer_of (option_copied a.entry)) (answer_of (option_copied b.entry)) }
{
    is_same_once(a, b) && times_of(a) == times_of(b)
}

/// How much a verdict grants: a denial less than a pass, and a pass less than a grant.
fn rank(verdict: Verdict) -> u8
    ensures { result ≡ rank verdict }
{
    match verdict {
        Verdict::Deny(_) => 0,
        Verdict::Pass => 1,
        Verdict::Grant | Verdict::Inject { .. } => 2,
    }
}

/// Whether the first is a limit, and the second is none or a greater one.
fn is_fewer(a: Option<u32>, b: Option<u32>) -> bool
    ensures { result ≡ is_fewer a b }
{
    match (a, b) {
        (Some(a), Some(b)) => a < b,
        (Some(_), None) => true,
        (None, _) => false,
    }
}

/// Whether the first rule grants less than the second.
fn grants_less(a: Option<&Rule>, b: Option<&Rule>) -> bool
    ensures { result ≡ grants_less (answer_of (option_copied a.entry)) (answer_of (option_copied b.entry)) }
{
    if rank(verdict_of(a)) < rank(verdict_of(b)) {
        return true;
    }
    is_same_once(a, b) && is_fewer(times_of(a), times_of(b))
}

/// Which way an answer changed from the old rule to the new one.
pub(crate) fn way_of(old: Option<&Rule>, new: Option<&Rule>) -> Way
    ensures { result ≡ way_of (answer_of (option_copied old.entry)) (answer_of (option_copied new.entry)) }
{
    if grants_less(old, new) {
        Way::Wider
    } else if grants_less(new, old) {
        Way::Narrower
    } else {
        Way::Other
    }
}

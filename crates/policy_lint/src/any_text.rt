//! Rules that deny whatever is denied for some texts, whichever texts a call has.

ghost use Rattle.std.specs.Prelude.{◌≡◌, IfOk, map};
ghost use Rattle.std.specs.List.{list_any};
ghost use Rattle.policy_lint.specs.Passed.{calls_unless, cond_of_any_text, denies, is_on_text, may_be_missed, not_denies, of_any_text, passes, rule_of_any_text, verdict_at};

use hist_model::policy::{Calls, Cond, Flag, Rule, Verdict};
use hist_model::text::{Sequence, Text};
use std::alloc::Global;
use sys_abi::memory::NoMemory;

/// Whether a verdict passes calls.
pub fn passes(verdict: Verdict) -> bool
    ensures { result ≡ passes verdict }
{
    match verdict {
        Verdict::Pass => true,
        Verdict::Grant | Verdict::Deny(_) | Verdict::Inject { .. } => false,
    }
}

/// Whether it denies them.
pub fn denies(verdict: Verdict) -> bool
    ensures { result ≡ denies verdict }
{
    match verdict {
        Verdict::Deny(_) => true,
        Verdict::Grant | Verdict::Pass | Verdict::Inject { .. } => false,
    }
}

/// What the rule at a place answers; past the end calls are passed.
pub fn verdict_at(rules: &[Rule], place: usize) -> Verdict
    ensures { result ≡ verdict_at rules.now place }
{
    match rules.get(place) {
        Some(rule) => rule.verdict,
        None => Verdict::Pass,
    }
}

/// Whether a condition looks at a text.
fn is_on_text(cond: &Cond) -> bool
    ensures { result ≡ is_on_text cond.now }
{
    match cond {
        Cond::Path(_)
        | Cond::Under(_)
        | Cond::Fstype(_)
        | Cond::Source(_)
        | Cond::Name(_)
        | Cond::Value(_) => true,
        Cond::Kind(_)
        | Cond::Dev(_, _)
        | Cond::Dirfd(_)
        | Cond::Flags { .. }
        | Cond::ShortDevice
        | Cond::PlainFlags => false,
    }
}

/// Copies of flags.
fn flags_of(alloc: Global, flags: &[Flag]) -> Result<Sequence<Flag>, NoMemory>
    ensures { IfOk result (λ made. made ≡ flags.now) }
{
    Ok(Sequence::new(Vec::from_slice(alloc, flags)?))
}

/// What is left of a condition if the texts may be any.
fn cond_of_any_text(alloc: Global, cond: &Cond) -> Result<Cond, NoMemory>
    ensures { IfOk result (λ made. made ≡ cond_of_any_text cond.now) }
{
    Ok(match cond {
        Cond::Kind(kind) => Cond::Kind(*kind),
        Cond::Dev(major, minor) => Cond::Dev(*major, *minor),
        Cond::Dirfd(number) => Cond::Dirfd(*number),
        Cond::Flags { all, none } => Cond::Flags {
            all: flags_of(alloc, all.items())?,
            none: flags_of(alloc, none.items())?,
        },
        Cond::ShortDevice => Cond::ShortDevice,
        Cond::PlainFlags => Cond::PlainFlags,
        Cond::Path(_)
        | Cond::Under(_)
        | Cond::Fstype(_)
        | Cond::Source(_)
        | Cond::Name(_)
        | Cond::Value(_) => Cond::Flags {
            all: flags_of(alloc, &[])?,
            none: flags_of(alloc, &[])?,
        },
    })
}

/// What is left of all these conditions.
fn conds_of_any_text(alloc: Global, conds: &[Cond]) -> Result<Sequence<Cond>, NoMemory>
    ensures { IfOk result (λ made. made ≡ map cond_of_any_text conds.now) }
{
    let mut made = Vec::new(alloc);
    for cond in conds {
        made.push(cond_of_any_text(alloc, cond)?)?;
    }
    Ok(Sequence::new(made))
}

/// Whether a verdict isn't a denial.
fn not_denies(verdict: Verdict) -> bool
    ensures { result ≡ not_denies verdict }
{
    match verdict {
        Verdict::Deny(_) => false,
        Verdict::Grant | Verdict::Pass | Verdict::Inject { .. } => true,
    }
}

/// Whether one of these conditions looks at a text.
fn are_on_texts(conds: &[Cond]) -> bool
    ensures { result ≡ list_any is_on_text conds.now }
{
    conds.iter().any(|cond| is_on_text(cond))
}

/// Whether some texts don't meet a rule, which doesn't deny.
fn may_be_missed(rule: &Rule) -> bool
    ensures { result ≡ may_be_missed rule.now }
{
    are_on_texts(rule.conds.items()) && not_denies(rule.verdict)
}

/// No calls, or these.
fn calls_unless(alloc: Global, missed: bool, calls: &Calls) -> Result<Calls, NoMemory>
    ensures { IfOk result (λ made. made ≡ calls_unless missed calls.now) }
{
    if missed {
        return Ok(Calls::Named(Sequence::new(Vec::new(alloc))));
    }
    Ok(match calls {
        Calls::Named(numbers) => Calls::Named(Sequence::new(Vec::from_slice(
            alloc,
            numbers.items(),
        )?)),
        Calls::Other => Calls::Other,
    })
}

/// What is left of a rule if the texts may be any.
fn rule_of_any_text(alloc: Global, rule: &Rule) -> Result<Rule, NoMemory>
    ensures { IfOk result (λ made. made ≡ rule_of_any_text rule.now) }
{
    Ok(Rule {
        name: Text::new(Vec::new(alloc)),
        calls: calls_unless(alloc, may_be_missed(rule), &rule.calls)?,
        conds: conds_of_any_text(alloc, rule.conds.items())?,
        verdict: rule.verdict,
        via: Text::new(Vec::new(alloc)),
        shift: false,
        times: None,
    })
}

/// What is left of all rules.
pub fn of_any_text(alloc: Global, rules: &[Rule]) -> Result<Vec<Rule>, NoMemory>
    ensures { IfOk result (λ made. made.items ≡ of_any_text rules.now) }
{
    let mut made = Vec::new(alloc);
    for rule in rules {
        made.push(rule_of_any_text(alloc, rule)?)?;
    }
    Ok(made)
}

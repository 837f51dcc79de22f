//! The rules that a policy states of its own.

ghost use Rattle.std.specs.Prelude.{◌≡◌, IfOk, option_and_then};
ghost use Rattle.std.specs.Option.{option_copied};
ghost use Rattle.hist_model.specs.RuleParts.{is_grant};
ghost use Rattle.serde_json.specs.Find.{as_str};
ghost use Rattle.policy_reader.specs.NameSets.{holds};
ghost use Rattle.policy_reader.specs.Readings.{Gives, call_place, good, named, walk};
ghost use Rattle.policy_reader.specs.Rules.{call_of, calls_of, condition_fault, fault_of, in_version, listed_calls, nothing_stated, own_conditions, rule_at, rule_from, rule_keys, rule_member, rules_in, rules_of, state, unless_faulty};
ghost use Rattle.policy_reader.specs.Texts.{rule_name};
ghost use Rattle.serde_json.specs.View.{view, items_view, members_view};

use crate::conditions::{condition_place, misfit, read_conditions};
use crate::error::PolicyError;
use crate::names::Names;
use crate::readings::{Reading, bad_in_rule, bad_value, good_in_rule, unknown_in_rule};
use crate::texts::{is_rule_name, named, whole_from};
use crate::verdicts::{may_answer_all, read_verdict};
use hist_model::policy::{Calls, Cond, Profile, Rule, Verdict};
use hist_model::text::{Sequence, Text};
use serde_json::{Map, Value};
use std::alloc::Global;
use sys_abi::calls;
use sys_abi::calls::call_number;
use sys_abi::memory::{NoMemory, OrNoMemory};

/// The versions of a policy's format. In the second one rules may say how often they grant.
#[derive(Clone, Copy)]
pub enum Version {
    First,
    Second,
}

/// How a policy is read: the version of its format, and by whose rules its keys are.
#[derive(Clone, Copy)]
pub struct Format {
    pub version: Version,
    pub profile: Profile,
}

/// A key of a rule.
#[derive(Clone, Copy)]
pub(crate) enum RuleKey {
    Call,
    Name,
    Then,
    Times,
    When,
}

/// What the keys of a rule state so far.
#[derive(Drop)]
pub(crate) struct Stated {
    name: Option<Text>,
    calls: Option<Sequence<i32>>,
    conds: Sequence<Cond>,
    verdict: Option<Verdict>,
    times: Option<u32>,
}

/// The keys of a rule.
const KEYS: [(&'static str, RuleKey); 5] = [
    ("call", RuleKey::Call),
    ("name", RuleKey::Name),
    ("then", RuleKey::Then),
    ("times", RuleKey::Times),
    ("when", RuleKey::When),
];

/// The most rules that a policy may state.
const RULES_MAX: usize = 1024;

/// The number of the call that a value names.
fn call_of(value: &Value) -> Option<i32>
    ensures { result ≡ call_of (view value.now) }
{
    match value.as_str() {
        Some(name) => call_number(name.as_bytes()),
        None => None,
    }
}

/// The call at a place in a rule's list, or the refusal of its value.
fn good_call(alloc: Global, rule: usize, place: usize, found: Option<i32>) -> Reading<i32>
    ensures { Gives result (good (call_place rule place) found) }
{
    match found {
        Some(nr) => Ok(nr),
        None => {
            let rest = format!(in alloc; ".call[{place}]")?;
            bad_in_rule(alloc, rule, rest.as_str())
        }
    }
}

/// The calls of an array of one or more.
fn read_listed_calls(alloc: Global, rule: usize, items: &[Value]) -> Reading<Sequence<i32>>
    ensures { Gives result (listed_calls rule (items_view items.now)) }
{
    if items.is_empty() {
        return bad_in_rule(alloc, rule, ".call");
    }
    let mut found = Vec::new(alloc);
    for item in items {
        let nr = good_call(alloc, rule, found.len(), call_of(item))?;
        found.push(nr)?;
    }
    Ok(Sequence::new(found))
}

/// The calls of a rule: the name of one, or an array of one or more.
fn read_calls(alloc: Global, rule: usize, value: &Value) -> Reading<Sequence<i32>>
    ensures { Gives result (calls_of rule (view value.now)) }
{
    match value {
        Value::String(name) => {
            let nr = good_in_rule(alloc, rule, ".call", call_number(name.as_str().as_bytes()))?;
            Ok(Sequence::new(vec![in alloc; nr]?))
        }
        Value::Array(items) => read_listed_calls(alloc, rule, items.as_slice()),
        _ => bad_in_rule(alloc, rule, ".call"),
    }
}

/// The key of this name.
fn key_named(name: &str) -> Option<RuleKey>
    ensures { result ≡ named rule_keys name.now }
{
    named(&KEYS, name.as_bytes())
}

/// The key, unless it is one of the second version alone in a policy of the first.
fn in_version(version: Version, key: Option<RuleKey>) -> Option<RuleKey>
    ensures { result ≡ in_version version key }
{
    match (version, key) {
        (Version::First, Some(RuleKey::Times)) => None,
        (_, key) => key,
    }
}

/// The text, where a rule may have it as its name.
fn rule_name(alloc: Global, text: &str) -> Result<Option<Text>, NoMemory>
    ensures { IfOk result (λ name. name ≡ rule_name text.now) }
{
    if is_rule_name(text.as_bytes()) {
        Ok(Some(Text::new(Vec::from_slice(alloc, text.as_bytes())?)))
    } else {
        Ok(None)
    }
}

/// The name of a rule that a value is.
fn read_name(alloc: Global, value: &Value) -> Result<Option<Text>, NoMemory>
    ensures { IfOk result (λ name. name ≡ option_and_then rule_name (as_str (view value.now))) }
{
    match value.as_str() {
        Some(text) => rule_name(alloc, text),
        None => Ok(None),
    }
}

impl Stated {
    /// No key yet.
    fn nothing(alloc: Global) -> Stated
        ensures { result ≡ nothing_stated }
    {
        Stated {
            name: None,
            calls: None,
            conds: Sequence::new(Vec::new(alloc)),
            verdict: None,
            times: None,
        }
    }

    /// Adds what a member with this key states.
    fn read_key(
        mut self,
        alloc: Global,
        profile: Profile,
        rule: usize,
        key: Option<RuleKey>,
        name: &str,
        value: &Value,
    ) -> Reading<Stated>
        ensures { Gives result (state profile rule key name.now (view value.now) self) }
    {
        match key {
            Some(RuleKey::Call) => self.calls = Some(read_calls(alloc, rule, value)?),
            Some(RuleKey::Name) => {
                let found = read_name(alloc, value)?;
                self.name = Some(good_in_rule(alloc, rule, ".name", found)?);
            }
            Some(RuleKey::Then) => self.verdict = Some(read_verdict(alloc, rule, value)?),
            Some(RuleKey::Times) => {
                let found = whole_from(1, value);
                self.times = Some(good_in_rule(alloc, rule, ".times", found)?);
            }
            Some(RuleKey::When) => self.conds = read_conditions(alloc, profile, rule, value)?,
            None => return unknown_in_rule(alloc, rule, ".", name),
        }
        Ok(self)
    }

    /// Adds what one member of a rule states.
    fn read_member(
        self,
        alloc: Global,
        format: Format,
        rule: usize,
        name: &str,
        value: &Value,
    ) -> Reading<Stated>
        ensures { Gives result (rule_member format rule name.now (view value.now) self) }
    {
        let key = in_version(format.version, key_named(name));
        self.read_key(alloc, format.profile, rule, key, name, value)
    }
}

/// What the members of a rule state.
fn read_members(
    alloc: Global,
    format: Format,
    rule: usize,
    members: &Map<String, Value>,
) -> Reading<Stated>
    ensures { Gives result (walk (rule_member format rule) (members_view members.now.entries) nothing_stated) }
{
    let mut stated = Stated::nothing(alloc);
    for (name, member) in members.iter() {
        stated = stated.read_member(alloc, format, rule, name.as_str(), member)?;
    }
    Ok(stated)
}

/// Whether the answer is a grant.
fn is_grant(verdict: &Verdict) -> bool
    ensures { result ≡ is_grant verdict.now }
{
    match verdict {
        Verdict::Grant => true,
        _ => false,
    }
}

/// Where a condition that isn't for one of the calls stands, and then a name that is used.
fn condition_fault(misfit: Option<&Cond>, used: bool) -> Option<&'static str>
    ensures { option_copied result ≡ condition_fault (option_copied misfit.entry) used }
{
    match misfit {
        Some(cond) => Some(condition_place(cond)),
        None if used => Some(".name"),
        None => None,
    }
}

/// Where the first fault of a rule with these keys stands.
fn fault_of(
    calls: &[i32],
    verdict: &Verdict,
    times: Option<u32>,
    conds: &[Cond],
    used: bool,
) -> Option<&'static str>
    ensures { option_copied result ≡ fault_of calls.now verdict.now times conds.now used }
{
    if !may_answer_all(verdict, calls) {
        Some(".then")
    } else if times.is_some() && !is_grant(verdict) {
        Some(".times")
    } else {
        condition_fault(misfit(calls, conds), used)
    }
}

/// The conditions of a rule: a grant of a mount holds only where it doesn't remount, bind or move.
fn own_conditions(
    calls: &[i32],
    conds: Sequence<Cond>,
    verdict: &Verdict,
) -> Result<Sequence<Cond>, NoMemory>
    ensures { IfOk result (λ own. own ≡ own_conditions calls.now conds verdict.now) }
{
    if is_grant(verdict) && calls.contains(&calls::MOUNT) {
        let mut own = conds.into_items();
        own.push(Cond::PlainFlags)?;
        Ok(Sequence::new(own))
    } else {
        Ok(conds)
    }
}

/// The rule, unless it has a fault at this place.
fn unless_faulty(
    alloc: Global,
    rule: usize,
    fault: Option<&'static str>,
    made: Rule,
) -> Reading<Rule>
    ensures { Gives result (unless_faulty rule (option_copied fault.entry) made) }
{
    match fault {
        Some(rest) => bad_in_rule(alloc, rule, rest),
        None => Ok(made),
    }
}

/// The rule whose keys state this. A name, calls and an answer have to be there.
fn finish_rule(alloc: Global, names: &Names, rule: usize, stated: Stated) -> Reading<Rule>
    ensures { Gives result (rule_from rule (holds names.now) stated) }
{
    let Stated {
        name,
        calls,
        conds,
        verdict,
        times,
    } = stated;
    let name = good_in_rule(alloc, rule, ".name", name)?;
    let calls = good_in_rule(alloc, rule, ".call", calls)?;
    let verdict = good_in_rule(alloc, rule, ".then", verdict)?;
    let used = names.holds(name.items());
    let fault = fault_of(calls.items(), &verdict, times, conds.items(), used);
    let conds = own_conditions(calls.items(), conds, &verdict)?;
    let made = Rule {
        name,
        calls: Calls::Named(calls),
        conds,
        verdict,
        via: Text::new(Vec::new(alloc)),
        shift: false,
        times,
    };
    unless_faulty(alloc, rule, fault, made)
}

/// A rule, where the earlier ones have these names.
fn read_rule(
    alloc: Global,
    format: Format,
    names: &Names,
    rule: usize,
    value: &Value,
) -> Reading<Rule>
    ensures { Gives result (rule_at format rule (holds names.now) (view value.now)) }
{
    let Some(members) = value.as_object() else {
        return bad_in_rule(alloc, rule, "");
    };
    let stated = read_members(alloc, format, rule, members)?;
    finish_rule(alloc, names, rule, stated)
}

/// The rules of an array of at most 1,024.
fn read_listed_rules(alloc: Global, format: Format, items: &[Value]) -> Reading<Sequence<Rule>>
    ensures { Gives result (rules_in format (items_view items.now)) }
{
    if items.len() > RULES_MAX {
        return Err(OrNoMemory::Refused(PolicyError::TooMany));
    }
    let mut names = Names::new(alloc);
    let mut rules = Vec::new(alloc);
    for item in items {
        let rule = read_rule(alloc, format, &names, rules.len(), item)?;
        names.add(alloc, rule.name.items())?;
        rules.push(rule)?;
    }
    Ok(Sequence::new(rules))
}

/// The rules of an array of at most 1,024, as a policy states its own, or the refusal that comes first: its place begins with `rules`.
pub fn read_rules(alloc: Global, format: Format, value: &Value) -> Reading<Sequence<Rule>>
    ensures { Gives result (rules_of format (view value.now)) }
{
    match value.as_array() {
        Some(items) => read_listed_rules(alloc, format, items.as_slice()),
        None => bad_value(alloc, "rules"),
    }
}

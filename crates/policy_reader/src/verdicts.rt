//! What a rule answers, and the calls that it may answer so.

ghost use Rattle.std.specs.Prelude.{◌≡◌, option_and_then};
ghost use Rattle.std.specs.List.{list_all};
ghost use Rattle.policy_reader.specs.Readings.{Gives, named, walk};
ghost use Rattle.hist_model.specs.RuleParts.{may_answer};
ghost use Rattle.policy_reader.specs.Verdicts.{answer_at, answer_keys, answer_member, no_answer, verdict_from, verdict_of, verdict_words};
ghost use Rattle.serde_json.specs.Find.{as_str};
ghost use Rattle.serde_json.specs.View.{view, members_view};
ghost use Rattle.sys_abi.specs.Errnos.{errno_of_name};

use crate::readings::{Reading, bad_in_rule, good_in_rule, unknown_in_rule};
use crate::texts::{named, whole_from};
use call_table::rows::may_be_granted;
use hist_model::policy::Verdict;
use serde_json::{Map, Value};
use std::alloc::Global;
use sys_abi::calls;
use sys_abi::errno::Errno;

/// A key of an answer that is an object.
#[derive(Clone, Copy)]
pub(crate) enum AnswerKey {
    At,
    Deny,
    Inject,
}

/// What the keys of an answer state so far.
#[derive(Clone, Copy)]
pub(crate) struct Answer {
    /// The number that an injected file gets.
    at: Option<u32>,
    deny: Option<Errno>,
    /// The broker's number of the file that is injected.
    inject: Option<u32>,
}

/// The answers that are one word.
const WORDS: [(&'static str, Verdict); 2] = [("grant", Verdict::Grant), ("pass", Verdict::Pass)];

/// The keys of the others.
const KEYS: [(&'static str, AnswerKey); 3] = [
    ("at", AnswerKey::At),
    ("deny", AnswerKey::Deny),
    ("inject", AnswerKey::Inject),
];

/// The answer of this word.
fn word_named(word: &str) -> Option<Verdict>
    ensures { result ≡ named verdict_words word.now }
{
    named(&WORDS, word.as_bytes())
}

/// The key of this name.
fn key_named(name: &str) -> Option<AnswerKey>
    ensures { result ≡ named answer_keys name.now }
{
    named(&KEYS, name.as_bytes())
}

/// The error that a value names.
fn error_of(value: &Value) -> Option<Errno>
    ensures { result ≡ option_and_then errno_of_name (as_str (view value.now)) }
{
    match value.as_str() {
        Some(name) => Errno::from_name(name.as_bytes()),
        None => None,
    }
}

/// Adds what a member with this key states.
fn read_key(
    alloc: Global,
    rule: usize,
    key: Option<AnswerKey>,
    name: &str,
    value: &Value,
    answer: Answer,
) -> Reading<Answer>
    ensures { Gives result (answer_at rule key name.now (view value.now) answer) }
{
    match key {
        Some(AnswerKey::At) => {
            let at = good_in_rule(alloc, rule, ".then.at", whole_from(0, value))?;
            Ok(Answer {
                at: Some(at),
                ..answer
            })
        }
        Some(AnswerKey::Deny) => {
            let error = good_in_rule(alloc, rule, ".then.deny", error_of(value))?;
            Ok(Answer {
                deny: Some(error),
                ..answer
            })
        }
        Some(AnswerKey::Inject) => {
            let src = good_in_rule(alloc, rule, ".then.inject", whole_from(0, value))?;
            Ok(Answer {
                inject: Some(src),
                ..answer
            })
        }
        None => unknown_in_rule(alloc, rule, ".then.", name),
    }
}

/// Adds what one member of a rule's answer states.
fn read_member(
    alloc: Global,
    rule: usize,
    name: &str,
    value: &Value,
    answer: Answer,
) -> Reading<Answer>
    ensures { Gives result (answer_member rule name.now (view value.now) answer) }
{
    read_key(alloc, rule, key_named(name), name, value, answer)
}

/// What the members of a rule's answer state.
fn read_answer(alloc: Global, rule: usize, members: &Map<String, Value>) -> Reading<Answer>
    ensures { Gives result (walk (answer_member rule) (members_view members.now.entries) no_answer) }
{
    let mut answer = Answer {
        at: None,
        deny: None,
        inject: None,
    };
    for (name, member) in members.iter() {
        answer = read_member(alloc, rule, name.as_str(), member, answer)?;
    }
    Ok(answer)
}

/// Exactly one of an error and a file; only a file gets a number.
fn verdict_from(deny: Option<Errno>, inject: Option<u32>, at: Option<u32>) -> Option<Verdict>
    ensures { result ≡ verdict_from deny inject at }
{
    match (deny, inject, at) {
        (Some(error), None, None) => Some(Verdict::Deny(error)),
        (None, Some(src), at) => Some(Verdict::Inject { src, at }),
        _ => None,
    }
}

/// The answer of a rule.
pub(crate) fn read_verdict(alloc: Global, rule: usize, value: &Value) -> Reading<Verdict>
    ensures { Gives result (verdict_of rule (view value.now)) }
{
    match value {
        Value::String(text) => { good_in_rule(alloc, rule, ".then", word_named(text.as_str())) }
        Value::Object(members) => {
            let answer = read_answer(alloc, rule, members)?;
            let found = verdict_from(answer.deny, answer.inject, answer.at);
            good_in_rule(alloc, rule, ".then", found)
        }
        _ => bad_in_rule(alloc, rule, ".then"),
    }
}

/// Whether a call may be answered so.
fn may_answer(verdict: &Verdict, nr: i32) -> bool
    ensures { result ≡ may_answer verdict.now nr }
{
    match verdict {
        Verdict::Grant => may_be_granted(nr),
        Verdict::Inject { .. } => nr == calls::OPENAT,
        Verdict::Deny(_) | Verdict::Pass => true,
    }
}

/// Whether all these calls may be answered so.
pub(crate) fn may_answer_all(verdict: &Verdict, calls: &[i32]) -> bool
    ensures { result ≡ list_all (may_answer verdict.now) calls.now }
{
    calls.iter().all(|nr| may_answer(verdict, *nr))
}

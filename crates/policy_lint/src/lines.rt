//! The lines of what is found.

ghost use Rattle.std.specs.Prelude.{◌≡◌, ◌++◌, ◌||◌, OnOk, IfOk, codes};
ghost use Rattle.std.specs.List.{flat_map, list_all};
ghost use Rattle.policy_lint.specs.declared.finding.Finding.{Finding as AnyFinding};
ghost use Rattle.hist_model.specs.Decisions.{rule_name};
ghost use Rattle.policy_lint.specs.Lines.{denied_text, is_aside, passed_front, passed_text, unsure_words};
ghost use Rattle.policy_lint.specs.Lines.{ending_of, fault_place, fault_word, fault_words, is_undecided, judgement_front, judgement_names, judgement_word, judgement_words, no_effect_front};
ghost use Rattle.policy_explain.specs.Asked.{asked_text};
ghost use Rattle.policy_lint.specs.Lines.{hint_word, hint_words, note_word};
ghost use Rattle.policy_lint.specs.Lines.{line_text, names, refusal_place, refusal_word, report, within_rule};

use crate::alike::behind;
use crate::finding::{Fault, Finding, Hint, Note};
use crate::judgement::Judgement;
use audit_log::line::LineBuffer;
use hist_model::policy::Rule;
use hist_model::request::Request;
use hist_model::text::Text;
use policy_classes::ending::Ending;
use policy_explain::asked::push_asked;
use policy_reader::PolicyError;
use std::alloc::Global;
use sys_abi::memory::NoMemory;

/// Adds the name of the rule at a place, if there is one.
fn push_name(line: &mut LineBuffer, rules: &[Rule], place: usize) -> Result<(), NoMemory>
    ensures { OnOk result (line.new ≡ line.old ++ rule_name rules.now place) }
{
    match rules.get(place) {
        Some(rule) => line.push_bytes(rule.name.items()),
        None => Ok(()),
    }
}

/// Adds the names of rules, each behind a comma.
fn push_more_names(line: &mut LineBuffer, rules: &[Rule], places: &[usize]) -> Result<(), NoMemory>
    ensures { OnOk result (line.new ≡ line.old ++ flat_map (λ p. codes "," ++ rule_name rules.now p) places.now) }
{
    for place in places {
        line.push(",")?;
        push_name(line, rules, *place)?;
    }
    Ok(())
}

/// Adds the names of rules between commas.
fn push_names(line: &mut LineBuffer, rules: &[Rule], places: &[usize]) -> Result<(), NoMemory>
    ensures { OnOk result (line.new ≡ line.old ++ names rules.now places.now) }
{
    match places.split_first() {
        Some((place, more)) => {
            push_name(line, rules, *place)?;
            push_more_names(line, rules, more)
        }
        None => Ok(()),
    }
}

/// The word for what is said of a rule.
fn judgement_word(judgement: &Judgement) -> &'static str
    ensures { result.now ≡ judgement_word judgement.now }
{
    match judgement {
        Judgement::Useful => "useful",
        Judgement::Never => "never",
        Judgement::Shadowed(_) => "shadowed",
        Judgement::Needless(_) => "needless",
        Judgement::Undecided => "undecided",
    }
}

/// Where in a rule it is.
fn within_rule(judgement: &Judgement) -> &'static str
    ensures { result.now ≡ within_rule judgement.now }
{
    match judgement {
        Judgement::Never => ".when",
        Judgement::Useful
        | Judgement::Shadowed(_)
        | Judgement::Needless(_)
        | Judgement::Undecided => "",
    }
}

/// What is said of a rule, before the names of other rules.
fn judgement_front(judgement: &Judgement) -> &'static str
    ensures { result.now ≡ judgement_front judgement.now }
{
    match judgement {
        Judgement::Useful => "a call needs this rule",
        Judgement::Never => "no call meets these conditions",
        Judgement::Shadowed(_) => "this rule decides no call by=",
        Judgement::Needless(_) => "without this rule every call has the same answer by=",
        Judgement::Undecided => "it wasn't found whether a call needs this rule",
    }
}

/// Adds the names of the rules that take a rule's calls, or would have its answer.
fn push_judged_names(
    line: &mut LineBuffer,
    rules: &[Rule],
    place: usize,
    judgement: &Judgement,
) -> Result<(), NoMemory>
    ensures { OnOk result (line.new ≡ line.old ++ judgement_names rules.now place judgement.now) }
{
    match judgement {
        Judgement::Shadowed(by) => push_names(line, rules, by.items()),
        Judgement::Needless(by) => push_names(line, behind(rules, place), by.items()),
        Judgement::Useful | Judgement::Never | Judgement::Undecided => Ok(()),
    }
}

/// Adds what is said of a rule.
fn push_judgement(
    line: &mut LineBuffer,
    rules: &[Rule],
    place: usize,
    judgement: &Judgement,
) -> Result<(), NoMemory>
    ensures { OnOk result (line.new ≡ line.old ++ judgement_words rules.now place judgement.now) }
{
    line.push(judgement_front(judgement))?;
    push_judged_names(line, rules, place, judgement)
}

/// The word for a refusal.
fn refusal_word(error: &PolicyError) -> &'static str
    ensures { result.now ≡ refusal_word error.now }
{
    match error {
        PolicyError::NotJson => "not-json",
        PolicyError::BadKey { .. } => "unknown-key",
        PolicyError::BadValue { .. } => "bad-value",
        PolicyError::TooMany => "too-many-rules",
    }
}

/// The path of a refusal's place.
pub fn refusal_place(error: &PolicyError) -> &[u8]
    ensures { result.now ≡ refusal_place error.now }
{
    match error {
        PolicyError::NotJson => b"(top)",
        PolicyError::BadKey { path } | PolicyError::BadValue { path } => path.items(),
        PolicyError::TooMany => b"rules",
    }
}

/// The word for a hint.
fn hint_word(hint: Hint) -> &'static str
    ensures { result.now ≡ hint_word hint }
{
    match hint {
        Hint::GoneAround => "gone-around",
        Hint::WideDevice | Hint::BothKinds => "wide-device",
        Hint::NotAsLxd => "not-as-lxd",
        Hint::RiskyType => "risky-type",
    }
}

/// What it says.
fn hint_words(hint: Hint) -> &'static str
    ensures { result.now ≡ hint_words hint }
{
    match hint {
        Hint::GoneAround => "what this denies is granted under another path",
        Hint::WideDevice => "this grants a device that gives the machine away",
        Hint::BothKinds => "without a kind this grants both devices of these numbers",
        Hint::NotAsLxd => "without the profile this grants what LXD doesn't",
        Hint::RiskyType => "this grants a mount that reads an image whose maker isn't trusted",
    }
}

/// The word for what is said of a key.
fn note_word(note: Note) -> &'static str
    ensures { result.now ≡ note_word note }
{
    match note {
        Note::RepeatedKey => "repeated-key",
        Note::MisspeltKey => "misspelt-key",
    }
}

/// The word for what is found.
fn fault_word(fault: &Fault) -> &'static str
    ensures { result.now ≡ fault_word fault.now }
{
    match fault {
        Fault::Refused { error, .. } => refusal_word(error),
        Fault::Judged { judgement, .. } => judgement_word(judgement),
        Fault::Granted { hint, .. } => hint_word(*hint),
        Fault::Passed { .. } => "pass-by-memory",
        Fault::Unsure { .. } => "undecided",
        Fault::Noted { note, .. } => note_word(*note),
        Fault::NoEffect { .. } => "no-effect",
    }
}

/// Adds the path of its place.
fn push_place(line: &mut LineBuffer, fault: &Fault) -> Result<(), NoMemory>
    ensures { OnOk result (line.new ≡ line.old ++ fault_place fault.now) }
{
    match fault {
        Fault::Refused { error, .. } => line.push_bytes(refusal_place(error)),
        Fault::Judged { place, judgement } => {
            line.push("rules[")?;
            line.push_number(*place as u64)?;
            line.push("]")?;
            line.push(within_rule(judgement))
        }
        Fault::Granted { place, .. }
        | Fault::Passed { place, .. }
        | Fault::Unsure { place, .. }
        | Fault::Noted { place, .. }
        | Fault::NoEffect { place, .. } => line.push_bytes(place.items()),
    }
}

/// Adds what a hint says, and the call that the rule at a place grants.
fn push_hint(
    alloc: Global,
    line: &mut LineBuffer,
    rules: &[Rule],
    hint: Hint,
    by: usize,
    call: &Request,
) -> Result<(), NoMemory>
    ensures { OnOk result (line.new ≡ line.old
        ++ (hint_words hint ++ codes " by=" ++ rule_name rules.now by ++ codes " call=" ++ asked_text call.now)) }
{
    line.push(hint_words(hint))?;
    line.push(" by=")?;
    push_name(line, rules, by)?;
    line.push(" call=")?;
    push_asked(alloc, line, call)
}

/// What is said of a rule that passes a call of which other texts would be denied.
fn passed_front() -> &'static str
    ensures { result.now ≡ passed_front }
{
    "this passes a call that is denied if other bytes stand in its memory by="
}

/// Adds the rule that denies the other call, and that call.
fn push_denied(
    alloc: Global,
    line: &mut LineBuffer,
    rules: &[Rule],
    against: usize,
    other: &Request,
) -> Result<(), NoMemory>
    ensures { OnOk result (line.new ≡ line.old ++ denied_text rules.now against other.now) }
{
    line.push(" denied=")?;
    push_name(line, rules, against)?;
    line.push(" other=")?;
    push_asked(alloc, line, other)
}

/// Adds that a rule passes a call, with the call.
fn push_by(
    alloc: Global,
    line: &mut LineBuffer,
    rules: &[Rule],
    by: usize,
    call: &Request,
) -> Result<(), NoMemory>
    ensures { OnOk result (line.new ≡ line.old ++ passed_text rules.now by call.now) }
{
    line.push(passed_front())?;
    push_name(line, rules, by)?;
    line.push(" call=")?;
    push_asked(alloc, line, call)
}

/// What is said where this wasn't found out.
fn unsure_words() -> &'static str
    ensures { result.now ≡ unsure_words }
{
    "it wasn't found whether another passed call is denied if other bytes stand in its memory"
}

/// What is said of a key that makes no rule, before the front of its rules' names.
fn no_effect_front() -> &'static str
    ensures { result.now ≡ no_effect_front }
{
    "no rule has a name that begins with "
}

/// Adds that no rule has a name that begins so.
fn push_no_effect(line: &mut LineBuffer, front: &Text) -> Result<(), NoMemory>
    ensures { OnOk result (line.new ≡ line.old ++ (no_effect_front ++ front.now)) }
{
    line.push(no_effect_front())?;
    line.push_bytes(front.items())
}

/// Adds the words for it.
fn push_words(
    alloc: Global,
    line: &mut LineBuffer,
    rules: &[Rule],
    fault: &Fault,
) -> Result<(), NoMemory>
    ensures { OnOk result (line.new ≡ line.old ++ fault_words rules.now fault.now) }
{
    match fault {
        Fault::Refused { cure, .. } | Fault::Noted { cure, .. } => line.push_bytes(cure.items()),
        Fault::Judged { place, judgement } => push_judgement(line, rules, *place, judgement),
        Fault::Granted { hint, by, call, .. } => push_hint(alloc, line, rules, *hint, *by, call),
        Fault::Passed {
            by,
            call,
            against,
            other,
            ..
        } => {
            push_by(alloc, line, rules, *by, call)?;
            push_denied(alloc, line, rules, *against, other)
        }
        Fault::Unsure { .. } => line.push(unsure_words()),
        Fault::NoEffect { front, .. } => push_no_effect(line, front),
    }
}

/// Adds the line of a finding.
fn push_line(
    alloc: Global,
    line: &mut LineBuffer,
    rules: &[Rule],
    finding: &Finding,
) -> Result<(), NoMemory>
    ensures { OnOk result (line.new ≡ line.old ++ line_text rules.now finding.now) }
{
    line.push(fault_word(&finding.fault))?;
    line.push(" ")?;
    push_place(line, &finding.fault)?;
    line.push(" ")?;
    line.push_number(finding.line as u64)?;
    line.push(":")?;
    line.push_number(finding.column as u64)?;
    line.push(" ")?;
    push_words(alloc, line, rules, &finding.fault)?;
    line.push("\n")
}

/// Adds the lines of findings.
fn push_lines(
    alloc: Global,
    line: &mut LineBuffer,
    rules: &[Rule],
    findings: &[Finding],
) -> Result<(), NoMemory>
    ensures { OnOk result (line.new ≡ line.old ++ flat_map (line_text rules.now) findings.now) }
{
    for finding in findings {
        push_line(alloc, line, rules, finding)?;
    }
    Ok(())
}

/// The text of all findings.
pub fn report(alloc: Global, rules: &[Rule], findings: &[Finding]) -> Result<LineBuffer, NoMemory>
    ensures { IfOk result (λ text. text ≡ report rules.now findings.now) }
{
    let mut text = LineBuffer::new(alloc);
    if findings.is_empty() {
        text.push("clean\n")?;
        return Ok(text);
    }
    text.push("findings=")?;
    text.push_number(findings.len() as u64)?;
    text.push("\n")?;
    push_lines(alloc, &mut text, rules, findings)?;
    Ok(text)
}

/// Whether nothing was found out.
fn is_undecided(fault: &Fault) -> bool
    ensures { result ≡ is_undecided fault.now }
{
    match fault {
        Fault::Judged {
            judgement: Judgement::Undecided,
            ..
        }
        | Fault::Unsure { .. } => true,
        _ => false,
    }
}

/// Whether it leaves the status as it is.
fn is_aside(fault: &Fault) -> bool
    ensures { result ≡ is_aside fault.now }
{
    match fault {
        Fault::Passed { .. } => true,
        _ => false,
    }
}

/// Whether all of these do.
fn are_aside(findings: &[Finding]) -> bool
    ensures { result ≡ list_all (λ (f : AnyFinding). is_aside f.fault) findings.now }
{
    findings.iter().all(|finding| is_aside(&finding.fault))
}

/// Whether nothing was found out in any of the others.
fn are_undecided(findings: &[Finding]) -> bool
    ensures { result ≡ list_all (λ (f : AnyFinding). is_aside f.fault || is_undecided f.fault) findings.now }
{
    findings.iter().all(|finding| is_aside(&finding.fault) || is_undecided(&finding.fault))
}

/// How it ends.
pub fn ending_of(findings: &[Finding]) -> Ending
    ensures { result ≡ ending_of findings.now }
{
    if are_aside(findings) {
        Ending::Alike
    } else if are_undecided(findings) {
        Ending::Undecided
    } else {
        Ending::Otherwise
    }
}

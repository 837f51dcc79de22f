//! What is told of claims.

ghost use Rattle.std.specs.Prelude.{◌≡◌, ◌++◌, IfOk, OnOk, codes, decimal};
ghost use Rattle.policy_claims.specs.Told.{AreFound, IsToldOf, claims_text, counts_text, deciding_name, ending_of, held_count, holds, is_refuted, is_undecided, line_text, lines_text, refuted_count, standing_text, told_text, undecided_count, undecided_text, witness_text};

use crate::claims::{Claims, Sense};
use crate::finding::{Finding, findings};
use crate::standing::Standing;
use audit_log::line::LineBuffer;
use hist_model::policy::Policy;
use hist_model::request::Request;
use hist_model::text::Text;
use policy_classes::ending::{Ending, Told};
use policy_eval::decide;
use policy_explain::asked::push_asked;
use std::alloc::Global;
use sys_abi::memory::NoMemory;

/// Adds the name of the rule that decides a call.
fn push_deciding(line: &mut LineBuffer, policy: &Policy, call: &Request) -> Result<(), NoMemory>
    ensures { OnOk result (line.new ≡ line.old ++ deciding_name policy.now.rules call.now) }
{
    let (place, _answer) = decide(policy, call);
    match policy.rules.items().get(place) {
        Some(rule) => line.push_bytes(rule.name.items()),
        None => line.push("-"),
    }
}

/// Adds the call that refutes a claim, and the rule that decides it.
fn push_witness(
    alloc: Global,
    line: &mut LineBuffer,
    policy: &Policy,
    call: &Request,
) -> Result<(), NoMemory>
    ensures { OnOk result (line.new ≡ line.old ++ witness_text policy.now.rules call.now) }
{
    line.push(" ")?;
    push_asked(alloc, line, call)?;
    line.push(" rule=")?;
    push_deciding(line, policy, call)
}

/// Adds a word, and the name of a claim.
fn push_named(line: &mut LineBuffer, word: &str, name: &[u8]) -> Result<(), NoMemory>
    ensures { OnOk result (line.new ≡ line.old ++ (word.now ++ name.now)) }
{
    line.push(word)?;
    line.push_bytes(name)
}

/// Adds what a claim of this name comes to.
fn push_standing(
    alloc: Global,
    line: &mut LineBuffer,
    policy: &Policy,
    name: &[u8],
    standing: &Standing,
) -> Result<(), NoMemory>
    ensures { OnOk result (line.new ≡ line.old ++ standing_text policy.now.rules name.now standing.now) }
{
    match standing {
        Standing::Held => push_named(line, "held ", name),
        Standing::Vacuous => {
            push_named(line, "held ", name)?;
            line.push(" vacuous")
        }
        Standing::Refuted { witness } => {
            push_named(line, "refuted ", name)?;
            push_witness(alloc, line, policy, witness)
        }
        Standing::Undecided => push_named(line, "undecided ", name),
    }
}

/// Adds the line of a claim.
fn push_line(
    alloc: Global,
    line: &mut LineBuffer,
    policy: &Policy,
    finding: &Finding,
) -> Result<(), NoMemory>
    ensures { OnOk result (line.new ≡ line.old ++ line_text policy.now.rules finding.now) }
{
    push_standing(alloc, line, policy, finding.name.items(), &finding.standing)?;
    line.push("\n")
}

/// Adds the lines of claims.
fn push_lines(
    alloc: Global,
    text: &mut LineBuffer,
    policy: &Policy,
    findings: &[Finding],
) -> Result<(), NoMemory>
    ensures { OnOk result (text.new ≡ text.old ++ lines_text policy.now.rules findings.now) }
{
    for finding in findings {
        push_line(alloc, text, policy, finding)?;
    }
    Ok(())
}

impl Standing {
    /// Whether the claim holds.
    fn holds(&self) -> bool
        ensures { result ≡ holds self.now }
    {
        match self {
            Standing::Held | Standing::Vacuous => true,
            Standing::Refuted { .. } | Standing::Undecided => false,
        }
    }

    /// Whether a call refutes it.
    fn is_refuted(&self) -> bool
        ensures { result ≡ is_refuted self.now }
    {
        match self {
            Standing::Refuted { .. } => true,
            _ => false,
        }
    }

    /// Whether it isn't decided.
    fn is_undecided(&self) -> bool
        ensures { result ≡ is_undecided self.now }
    {
        match self {
            Standing::Undecided => true,
            _ => false,
        }
    }
}

/// How many claims hold.
fn held_count(findings: &[Finding]) -> usize
    ensures { result ≡ held_count findings.now }
{
    findings
        .iter()
        .filter(|finding| finding.standing.holds())
        .count()
}

/// How many are refuted.
fn refuted_count(findings: &[Finding]) -> usize
    ensures { result ≡ refuted_count findings.now }
{
    findings
        .iter()
        .filter(|finding| finding.standing.is_refuted())
        .count()
}

/// How many aren't decided.
fn undecided_count(findings: &[Finding]) -> usize
    ensures { result ≡ undecided_count findings.now }
{
    findings
        .iter()
        .filter(|finding| finding.standing.is_undecided())
        .count()
}

/// Adds a word and a count.
fn push_count(text: &mut LineBuffer, word: &str, count: usize) -> Result<(), NoMemory>
    ensures { OnOk result (text.new ≡ text.old ++ (word.now ++ decimal count)) }
{
    text.push(word)?;
    text.push_number(count as u64)
}

/// Adds how many claims aren't decided, where some aren't.
fn push_undecided(text: &mut LineBuffer, count: usize) -> Result<(), NoMemory>
    ensures { OnOk result (text.new ≡ text.old ++ undecided_text count) }
{
    if count == 0 {
        return Ok(());
    }
    push_count(text, " undecided=", count)
}

/// Adds how many claims there are, and how many of them are held and refuted.
fn push_claims(
    text: &mut LineBuffer,
    claims: usize,
    held: usize,
    refuted: usize,
) -> Result<(), NoMemory>
    ensures { OnOk result (text.new ≡ text.old ++ claims_text claims held refuted) }
{
    push_count(text, "claims=", claims)?;
    push_count(text, " held=", held)?;
    push_count(text, " refuted=", refuted)
}

/// Adds how many claims there are, and what they come to.
fn push_counts(text: &mut LineBuffer, findings: &[Finding]) -> Result<(), NoMemory>
    ensures { OnOk result (text.new ≡ text.old ++ counts_text findings.now) }
{
    push_claims(
        text,
        findings.len(),
        held_count(findings),
        refuted_count(findings),
    )?;
    push_undecided(text, undecided_count(findings))?;
    text.push("\n")
}

/// What is told of claims of which this is found.
fn told_text(alloc: Global, policy: &Policy, findings: &[Finding]) -> Result<Text, NoMemory>
    ensures { IfOk result (λ text. text ≡ told_text policy.now.rules findings.now) }
{
    let mut text = LineBuffer::new(alloc);
    push_lines(alloc, &mut text, policy, findings)?;
    push_counts(&mut text, findings)?;
    Ok(Text::new(text.into_bytes()))
}

/// What claims come to of which this is found.
fn ending_of(findings: &[Finding]) -> Ending
    ensures { result ≡ ending_of findings.now }
{
    if refuted_count(findings) > 0 {
        Ending::Otherwise
    } else if undecided_count(findings) > 0 {
        Ending::Undecided
    } else {
        Ending::Alike
    }
}

/// What is found of the claims of both lists.
fn found_of(alloc: Global, policy: &Policy, claims: &Claims) -> Result<Vec<Finding>, NoMemory>
    ensures { IfOk result (λ found. AreFound policy.now.rules claims.now found.items) }
{
    let mut found = findings(alloc, Sense::Expect, policy, claims.expect.items())?;
    let mut never = findings(alloc, Sense::Never, policy, claims.never.items())?;
    found.append(&mut never)?;
    Ok(found)
}

/// What is told of claims about a policy: a line for each, whether it holds, or a call that refutes it with the rule that decides the
/// call; and then how many of them held and were refuted. One refuted claim makes the ending `Otherwise`; without one, a claim that
/// isn't decided makes it `Undecided`.
pub fn check(alloc: Global, policy: &Policy, claims: &Claims) -> Result<Told, NoMemory>
    ensures { IfOk result (λ told. IsToldOf policy.now.rules claims.now told) }
{
    let found = found_of(alloc, policy, claims)?;
    Ok(Told {
        text: told_text(alloc, policy, found.as_slice())?,
        ending: ending_of(found.as_slice()),
    })
}

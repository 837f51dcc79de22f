//! What is likely a mistake in a policy.
//!
//! [`lint`] reads a policy, and tells of each rule that it states whether calls need it: whether any call meets its conditions,
//! whether it decides one, and whether one would have another answer without it (`specs/Judged.antt`). Of a policy that is refused it
//! tells the refusal with its line and column and, as far as that can be told, what would be right.
//!
//! It tells as well which rules pass a call that is denied if other bytes stand in its memory (`specs/Passed.antt`): `passed` looks at
//! all calls by the rules that are left if texts may be any (`any_text`), and tries other texts (`other_texts`) until two calls show it.
//!
//! `judging` looks at all calls by `policy_classes`. A look at many rules takes long, so the looks of one policy are limited; where
//! they end, it is told of which rules nothing was found. `scanner` and `places` find where things stand in the text, and `cures` what
//! may have been meant: nothing that is decided rests on them. `lines` writes what is found.
//!
//! Below stand `policy_reader`, `policy_classes` and, with the lines, `audit_log`.
#![tactic(auto)]

ghost use Rattle.std.specs.Prelude.{◌≡◌, ◌≤◌, ◌^◌, length, IfOk, Ok, Err};
ghost use Rattle.policy_lint.specs.Found.{IsToldOf, Tells};
ghost use Rattle.policy_reader.specs.Policies.{policy};

mod alike;
mod any_text;
mod calls;
mod candidates;
mod cures;
pub mod finding;
mod hints;
pub mod judgement;
mod judging;
mod lines;
mod linting;
mod made_calls;
mod nearest;
mod notes;
mod other_texts;
mod own;
mod passed;
mod places;
mod positions;
mod risks;
mod scanner;
mod words;

use finding::Finding;
use hist_model::policy::{Policy, Rule};
use hist_model::text::Text;
use lines::{ending_of, report};
use linting::{find_all, find_refusal};
use policy_classes::ending::Told;
use policy_reader::{PolicyError, read_policy};
use scanner::{Scanned, scan};
use std::alloc::Global;
use sys_abi::memory::{NoMemory, OrNoMemory};

/// What is told of these findings.
fn told_of(alloc: Global, rules: &[Rule], findings: &[Finding]) -> Result<Told, NoMemory>
    ensures { IfOk result (IsToldOf rules.now findings.now) }
{
    let text = report(alloc, rules, findings)?;
    Ok(Told {
        text: Text::new(text.into_bytes()),
        ending: ending_of(findings),
    })
}

/// What is told of the findings on a policy.
fn told_on(alloc: Global, policy: &Policy, findings: &[Finding]) -> Result<Told, NoMemory>
    ensures { IfOk result (IsToldOf policy.now.rules findings.now) }
{
    told_of(alloc, policy.rules.items(), findings)
}

/// What is told of a policy that is read.
fn lint_read(
    alloc: Global,
    bytes: &[u8],
    scanned: &Scanned,
    read: &Policy,
) -> Result<Told, NoMemory>
    requires { policy bytes.now ≡ Ok read.now }
    ensures { IfOk result (Tells bytes.now) }
{
    let findings = find_all(alloc, bytes, scanned, read)?;
    let told = told_on(alloc, read, findings.as_slice())?;
    Ok(told)
}

/// What is told of a policy that is refused.
fn lint_refused(
    alloc: Global,
    bytes: &[u8],
    scanned: &Scanned,
    error: PolicyError,
) -> Result<Told, NoMemory>
    requires { policy bytes.now ≡ Err error }
    ensures { IfOk result (Tells bytes.now) }
{
    let finding = find_refusal(alloc, bytes, scanned, error)?;
    let mut findings = Vec::new(alloc);
    findings.push(finding)?;
    let told = told_of(alloc, &[], findings.as_slice())?;
    Ok(told)
}

/// What is likely a mistake in the policy that a file's bytes are, of which there are at most 1,048,576.
pub fn lint(alloc: Global, bytes: &[u8]) -> Result<Told, NoMemory>
    requires { length bytes.now ≤ 2 ^ 20 }
    ensures { IfOk result (Tells bytes.now) }
{
    let scanned = scan(alloc, bytes)?;
    match read_policy(alloc, bytes) {
        Ok(policy) => lint_read(alloc, bytes, &scanned, &policy),
        Err(OrNoMemory::Refused(error)) => lint_refused(alloc, bytes, &scanned, error),
        Err(OrNoMemory::NoMemory) => Err(NoMemory),
    }
}

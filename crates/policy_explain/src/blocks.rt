//! The lines of a call: the rule that decides it, and those before.

ghost use Rattle.std.specs.Prelude.{◌≡◌, ◌++◌, ◌≤◌, OnOk, length, slice_get};
ghost use Rattle.std.specs.List.{flat_map};
ghost use Rattle.std.specs.Option.{option_copied};
ghost use Rattle.policy_explain.specs.Blocks.{block_at, block_text, explained, head_text, miss_text, place_text, rule_text, times_text, verdict_text};

use crate::asked::push_asked;
use crate::missed::push_miss;
use crate::reasons::push_pass;
use audit_log::line::LineBuffer;
use audit_log::words::push_errno;
use call_lines::Call;
use hist_model::policy::{Policy, Rule, Verdict};
use hist_model::request::Request;
use policy_eval::decide;
use std::alloc::Global;
use sys_abi::errno::Errno;
use sys_abi::memory::NoMemory;

/// Adds a number, or `-`.
fn push_place(line: &mut LineBuffer, number: Option<u32>) -> Result<(), NoMemory>
    ensures { OnOk result (line.new ≡ line.old ++ place_text number) }
{
    match number {
        Some(number) => line.push_number(u64::from(number)),
        None => line.push("-"),
    }
}

/// Adds a denial, with its error.
fn push_denial(line: &mut LineBuffer, error: Errno) -> Result<(), NoMemory>
    ensures { OnOk result (line.new ≡ line.old ++ verdict_text (Verdict.Deny error)) }
{
    line.push("deny error=")?;
    push_errno(line, error)
}

/// Adds the giving of a file, with its numbers in the broker and in the caller.
fn push_injection(line: &mut LineBuffer, src: u32, at: Option<u32>) -> Result<(), NoMemory>
    ensures { OnOk result (line.new ≡ line.old ++ verdict_text (Verdict.Inject src at)) }
{
    line.push("inject src=")?;
    line.push_number(u64::from(src))?;
    line.push(" at=")?;
    push_place(line, at)
}

/// Adds what a rule answers.
fn push_verdict(line: &mut LineBuffer, verdict: Verdict) -> Result<(), NoMemory>
    ensures { OnOk result (line.new ≡ line.old ++ verdict_text verdict) }
{
    match verdict {
        Verdict::Grant => line.push("grant"),
        Verdict::Deny(error) => push_denial(line, error),
        Verdict::Pass => line.push("pass"),
        Verdict::Inject { src, at } => push_injection(line, src, at),
    }
}

/// Adds how often a rule grants, where that is limited.
fn push_times(line: &mut LineBuffer, times: Option<u32>) -> Result<(), NoMemory>
    ensures { OnOk result (line.new ≡ line.old ++ times_text times) }
{
    match times {
        Some(times) => {
            line.push(" times=")?;
            line.push_number(u64::from(times))
        }
        None => Ok(()),
    }
}

/// Adds a rule with its verdict, and how often it grants or why it passes; where there is none, the call is passed.
fn push_rule(line: &mut LineBuffer, rule: Option<&Rule>) -> Result<(), NoMemory>
    ensures { OnOk result (line.new ≡ line.old ++ rule_text (option_copied rule.entry)) }
{
    match rule {
        Some(rule) => {
            line.push(" rule=")?;
            line.push_bytes(rule.name.items())?;
            line.push(" verdict=")?;
            push_verdict(line, rule.verdict)?;
            push_times(line, rule.times)?;
            push_pass(line, rule.verdict, rule.name.items())
        }
        None => line.push(" rule=- verdict=pass"),
    }
}

/// Adds a call, the line where it stands, and the rule that decides it.
fn push_head(
    alloc: Global,
    line: &mut LineBuffer,
    call: &Call,
    rule: Option<&Rule>,
) -> Result<(), NoMemory>
    ensures { OnOk result (line.new ≡ line.old ++ head_text call.now (option_copied rule.entry)) }
{
    line.push_number(u64::from(call.line))?;
    line.push(" ")?;
    push_asked(alloc, line, &call.request)?;
    push_rule(line, rule)?;
    line.push("\n")
}

/// Adds the lines of rules of each of which the request misses something.
fn push_misses(line: &mut LineBuffer, request: &Request, rules: &[Rule]) -> Result<(), NoMemory>
    ensures { OnOk result (line.new ≡ line.old ++ flat_map (miss_text request.now) rules.now) }
{
    for rule in rules {
        push_miss(line, request, rule)?;
    }
    Ok(())
}

/// Adds the lines of a call that the rule at a place decides.
fn push_block_at(
    alloc: Global,
    line: &mut LineBuffer,
    rules: &[Rule],
    call: &Call,
    place: usize,
) -> Result<(), NoMemory>
    requires { place ≤ length rules.now }
    ensures { OnOk result (line.new ≡ line.old ++ block_at rules.now call.now place) }
{
    push_head(alloc, line, call, rules.get(place))?;
    push_misses(line, &call.request, &rules[..place])
}

/// Adds the lines of a call: the rule that decides it, and what it misses of each rule before that one.
#[tactic(auto, using(crate::proofs::Deciding::place_within))]
pub fn push_block(
    alloc: Global,
    line: &mut LineBuffer,
    policy: &Policy,
    call: &Call,
) -> Result<(), NoMemory>
    ensures { OnOk result (line.new ≡ line.old ++ block_text policy.now.rules call.now) }
{
    let (place, _) = decide(policy, &call.request);
    push_block_at(alloc, line, policy.rules.items(), call, place)
}

/// Adds the lines of all calls.
pub fn push_blocks(
    alloc: Global,
    line: &mut LineBuffer,
    policy: &Policy,
    calls: &[Call],
) -> Result<(), NoMemory>
    ensures { OnOk result (line.new ≡ line.old ++ explained policy.now.rules calls.now) }
{
    for call in calls {
        push_block(alloc, line, policy, call)?;
    }
    Ok(())
}

//! What a request misses of a rule.

ghost use Rattle.std.specs.Prelude.{◌≡◌, ◌++◌, OnOk};
ghost use Rattle.std.specs.Option.{option_copied};
ghost use Rattle.policy_explain.specs.Blocks.{miss_text, missed_text};
ghost use Rattle.policy_explain.specs.Missed.{missed, unmet};

use crate::words::{push_call_missed, push_unmet};
use audit_log::line::LineBuffer;
use hist_model::policy::{Cond, Rule};
use hist_model::request::Request;
use policy_eval::conditions::{covers, meets};
use sys_abi::memory::NoMemory;

/// The first of the conditions that the request doesn't meet.
fn unmet<'c>(conds: &'c [Cond], request: &Request) -> Option<&'c Cond>
    ensures { option_copied result ≡ unmet conds.now request.now }
{
    conds.iter().find(|cond| !meets(cond, request))
}

/// Adds what the request misses first of the rule.
fn push_missed(line: &mut LineBuffer, rule: &Rule, request: &Request) -> Result<(), NoMemory>
    ensures { OnOk result (line.new ≡ line.old ++ missed_text (missed rule.now request.now) rule.now request.now) }
{
    if !covers(&rule.calls, request.call()) {
        return push_call_missed(line, &rule.calls, request);
    }
    match unmet(rule.conds.items(), request) {
        Some(cond) => push_unmet(line, cond, request),
        None => line.push("nothing"),
    }
}

/// Adds the line of a rule, with what the request misses first of it.
pub fn push_miss(line: &mut LineBuffer, request: &Request, rule: &Rule) -> Result<(), NoMemory>
    ensures { OnOk result (line.new ≡ line.old ++ miss_text request.now rule.now) }
{
    line.push("  ")?;
    line.push_bytes(rule.name.items())?;
    line.push(" misses ")?;
    push_missed(line, rule, request)?;
    line.push("\n")
}

//! Names of what a call has, and of what rules say.

use audit_log::line::LineBuffer;
use hist_model::policy::{Policy, Verdict};
use sys_abi::calls::{MKNOD, MKNODAT, MOUNT, OPENAT, SETXATTR};
use sys_abi::memory::NoMemory;

/// What the text of a call at a place of its plan is called.
pub(crate) fn text_name(nr: i32, part: usize) -> &'static str {
    match (nr, part) {
        (MKNOD, 0) | (MKNODAT, 0) | (OPENAT, 0) | (SETXATTR, 0) => "path",
        (MOUNT, 0) => "source",
        (MOUNT, 1) => "target",
        (MOUNT, 2) => "type",
        (MOUNT, 3) => "data",
        (SETXATTR, 1) => "name",
        (SETXATTR, 2) => "value",
        _ => "text",
    }
}

/// The name of the rule at a place; `-` where none stands there.
pub(crate) fn name_of_rule(policy: &Policy, rule: usize) -> &[u8] {
    match policy.rules.items().get(rule) {
        Some(rule) => rule.name.items(),
        None => b"-",
    }
}

/// Adds a rule's name, and what it says.
pub(crate) fn push_rule(
    line: &mut LineBuffer,
    policy: &Policy,
    rule: usize,
    verdict: &Verdict,
) -> Result<(), NoMemory> {
    line.push("rule ")?;
    line.push_bytes(name_of_rule(policy, rule))?;
    line.push(" says ")?;
    match verdict {
        Verdict::Grant => line.push("grant"),
        Verdict::Deny(_) => line.push("deny"),
        Verdict::Pass => line.push("pass"),
        Verdict::Inject { .. } => line.push("inject"),
    }
}

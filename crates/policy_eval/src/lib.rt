//! Which rule of a policy decides a request, and what it grants (seccomp_unotify(2); LXD's "System call interception").
//!
//! The rules are tried in their order, and the first one whose calls and conditions all fit decides. Conditions look
//! at the copied arguments alone, and follow no links. What a rule has granted before doesn't change a decision.
//!
//! The definitions that the contracts cite stand in the files `Decisions` and `Requests` of `hist_model`'s specs; the
//! layer has no state of its own. Below stand the plain types of `hist_model`; above stand the worker's machine, which
//! answers notifications by `decide`, and the report, which names the deciding rules.
#![tactic(auto)]

ghost use Rattle.std.specs.Prelude.{◌≡◌, ◌<◌, ◌^◌, ℕ, length, OnOk, OnErr};
ghost use Rattle.hist_model.specs.Decisions.{decide, rule_name, granted_by, cap_of};

pub mod conditions;
mod defaults;
mod reasons;

use conditions::fits;
pub use defaults::{push_default_rules, push_mknod_rules};
use hist_model::policy::{Cap, Policy, Verdict};
use hist_model::request::Request;
use hist_model::text::Text;
pub use reasons::{push_mknod_reasons, push_mount_reasons, push_setxattr_reasons};
use std::alloc::Global;
use sys_abi::memory::NoMemory;

/// The place of the first rule that fits the request, counted from 0, and its verdict. Where none fits, which no
/// policy with the defaults allows, the place is the number of rules, and the request passes.
#[tactic(auto, using(crate::proofs::Places::decided_here, crate::proofs::Places::decided_later, crate::proofs::Places::decided_past), unfolding(hist_model::specs::Decisions::decide))]
pub fn decide(p: &Policy, r: &Request) -> (usize, Verdict)
    ensures { result ≡ decide p.now.rules r.now }
{
    let rules = p.rules.items();
    for i in 0..rules.len() {
        let rule = &rules[i];
        if fits(rule, r) {
            return (i, rule.verdict);
        }
    }
    (rules.len(), Verdict::Pass)
}

/// The name of the rule at place i.
pub fn rule_name(p: &Policy, i: usize) -> &[u8]
    requires { i < length p.now.rules }
    ensures { result.now ≡ rule_name p.now.rules i }
{
    p.rules.items()[i].name.items()
}

/// Makes the request the one that rule i grants: a mount gets the rule's program and shift, and any other request stays.
/// After want of memory it is as it was.
pub fn grant(alloc: Global, p: &Policy, i: usize, r: &mut Request) -> Result<(), NoMemory>
    requires { i < length p.now.rules }
    ensures granted { OnOk result (r.new ≡ granted_by p.now.rules i r.old) }
    ensures kept { OnErr result (r.new ≡ r.old) }
{
    let rule = &p.rules.items()[i];
    if let Request::Mount { via, shift, .. } = r {
        *via = Text::new(Vec::from_slice(alloc, rule.via.items())?);
        *shift = rule.shift;
    }
    Ok(())
}

/// How many effects rule i allows, if that is limited.
pub fn cap(p: &Policy, i: usize) -> Option<Cap>
    requires place { i < length p.now.rules }
    requires small { i < 2 ^ 32 }
    ensures { result ≡ cap_of p.now.rules i }
{
    let times = p.rules.items()[i].times?;
    Some(Cap {
        rule: i as u32,
        times,
    })
}

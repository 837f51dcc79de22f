//! The rules of the devices that LXD's switch lets a container make, and the defaults behind all rules.

ghost use Rattle.std.specs.Prelude.{◌≡◌, ◌++◌, ◌∷◌, [], codes, string_bytes, IfOk, OnOk};
ghost use Rattle.hist_model.specs.Decisions.{device_conditions, lxd_mknod_rules, lxd_mknod_rule, default_rule, default_rules, plain_rule};

use hist_model::policy::{Calls, Cond, Profile, Rule, Verdict};
use hist_model::request::Kind;
use hist_model::text::{Sequence, Text};
use std::alloc::Global;
use sys_abi::calls;
use sys_abi::memory::NoMemory;
use sys_abi::wire::AT_FDCWD;

/// The devices that a container may make, by major and minor number. 0:0 is the whiteout of an overlay.
const SAFE_DEVICES: [(u32, u32); 8] = [
    (0, 0),
    (5, 1),
    (1, 7),
    (1, 3),
    (1, 8),
    (5, 0),
    (1, 9),
    (1, 5),
];

/// The calls that have a default of their own, by name and number.
const CALLS: &[(&str, i32)] = &[
    ("close", calls::CLOSE),
    ("getpid", calls::GETPID),
    ("sysinfo", calls::SYSINFO),
    ("mknod", calls::MKNOD),
    ("mount", calls::MOUNT),
    ("setxattr", calls::SETXATTR),
    ("openat", calls::OPENAT),
    ("mknodat", calls::MKNODAT),
];

/// Adds the rules of the safe devices.
pub fn push_mknod_rules(rules: &mut Vec<Rule>, profile: Profile) -> Result<(), NoMemory>
    ensures { OnOk result (rules.new.items ≡ rules.old.items ++ lxd_mknod_rules profile) }
{
    let alloc = *rules.allocator();
    for (major, minor) in SAFE_DEVICES {
        rules.push(mknod_rule(alloc, profile, major, minor)?)?;
    }
    Ok(())
}

/// The conditions of a character device. LXD grants none from the directory of a descriptor, and reads 64 bits of its number.
fn device_conditions(
    alloc: Global,
    profile: Profile,
    major: u32,
    minor: u32,
) -> Result<Vec<Cond>, NoMemory>
    ensures { IfOk result (λ conds. conds.items ≡ device_conditions profile major minor) }
{
    let kind = Cond::Kind(Kind::Chr);
    let dev = Cond::Dev(major, minor);
    Ok(match profile {
        Profile::Plain => vec![in alloc; kind, dev]?,
        Profile::Lxd => vec![in alloc; kind, dev, Cond::Dirfd(AT_FDCWD), Cond::ShortDevice]?,
    })
}

/// The rule that grants a character device, by mknod and mknodat.
fn mknod_rule(alloc: Global, profile: Profile, major: u32, minor: u32) -> Result<Rule, NoMemory>
    ensures { IfOk result (λ r. r ≡ lxd_mknod_rule profile (major, minor)) }
{
    let name = format!(in alloc; "lxd.mknod.{major}:{minor}")?;
    let calls = vec![in alloc; calls::MKNOD, calls::MKNODAT]?;
    let conds = device_conditions(alloc, profile, major, minor)?;
    Ok(plain_rule(
        name,
        Calls::Named(Sequence::new(calls)),
        conds,
        Verdict::Grant,
    ))
}

/// Adds the rules that pass what no other rule decides.
pub fn push_default_rules(rules: &mut Vec<Rule>) -> Result<(), NoMemory>
    ensures { OnOk result (rules.new.items ≡ rules.old.items ++ default_rules) }
{
    for (name, nr) in CALLS {
        push_call_rule(rules, name, *nr)?;
    }
    push_default_rule(rules, "other", Calls::Other)
}

/// Adds the rule that passes this call.
fn push_call_rule(rules: &mut Vec<Rule>, name: &str, nr: i32) -> Result<(), NoMemory>
    ensures { OnOk result (rules.new.items ≡ rules.old.items ++ default_rule name.now nr ∷ []) }
{
    let calls = vec![in *rules.allocator(); nr]?;
    push_default_rule(rules, name, Calls::Named(Sequence::new(calls)))
}

/// Adds the rule that passes these calls.
fn push_default_rule(rules: &mut Vec<Rule>, name: &str, calls: Calls) -> Result<(), NoMemory>
    ensures { OnOk result (rules.new.items ≡ rules.old.items ++ plain_rule (codes "default." ++ name.now) calls [] Verdict.Pass ∷ []) }
{
    let alloc = *rules.allocator();
    let name = format!(in alloc; "default.{name}")?;
    rules.push(plain_rule(name, calls, Vec::new(alloc), Verdict::Pass))?;
    Ok(())
}

/// A rule without a program, a shift or a limit.
pub(crate) fn plain_rule(name: String, calls: Calls, conds: Vec<Cond>, verdict: Verdict) -> Rule
    ensures { result ≡ plain_rule (string_bytes name) calls conds.items verdict }
{
    let via = Vec::new(*conds.allocator());
    Rule {
        name: Text::new(name.into_bytes()),
        calls,
        conds: Sequence::new(conds),
        verdict,
        via: Text::new(via),
        shift: false,
        times: None,
    }
}

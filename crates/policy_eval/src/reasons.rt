//! The rules that name why LXD passes a call. They stand behind the grants, so that each has what these and the rules before it
//! leave.

ghost use Rattle.std.specs.Prelude.{◌≡◌, ◌++◌, ◌∷◌, [], map, IfOk, OnOk};
ghost use Rattle.hist_model.specs.Decisions.{flag_reason, flag_reasons, mknod_reasons, mount_reasons, opaque_conditions, reason, setxattr_reasons};

use crate::defaults::plain_rule;
use hist_model::policy::{Calls, Cond, Flag, Profile, Rule, Verdict};
use hist_model::text::{Sequence, Text};
use std::alloc::Global;
use sys_abi::calls;
use sys_abi::memory::NoMemory;
use sys_abi::wire::AT_FDCWD;

/// The flags that make mount(2) another operation, each with the reason's name: REMOUNT, BIND and MOVE, and those that change how
/// an existing mount propagates: UNBINDABLE, PRIVATE, SLAVE and SHARED.
const FLAG_REASONS: &[(&str, u64)] = &[
    ("lxd.mount.remount", 32),
    ("lxd.mount.bind", 4096),
    ("lxd.mount.move", 8192),
    ("lxd.mount.propagation", 131_072),
    ("lxd.mount.propagation", 262_144),
    ("lxd.mount.propagation", 524_288),
    ("lxd.mount.propagation", 1_048_576),
];

/// A rule that passes calls, named for the cause.
fn reason(alloc: Global, name: &str, calls: Vec<i32>, conds: Vec<Cond>) -> Result<Rule, NoMemory>
    ensures { IfOk result (λ rule. rule ≡ reason name.now calls.items conds.items) }
{
    let name = format!(in alloc; "{name}")?;
    let calls = Calls::Named(Sequence::new(calls));
    Ok(plain_rule(name, calls, conds, Verdict::Pass))
}

/// Adds such a rule.
fn push_reason(
    rules: &mut Vec<Rule>,
    name: &str,
    calls: Vec<i32>,
    conds: Vec<Cond>,
) -> Result<(), NoMemory>
    ensures { OnOk result (rules.new.items ≡ rules.old.items ++ reason name.now calls.items conds.items ∷ []) }
{
    let alloc = *rules.allocator();
    rules.push(reason(alloc, name, calls, conds)?)?;
    Ok(())
}

/// Adds the reasons of mknod and mknodat: a device that isn't known, and a directory's descriptor.
pub fn push_mknod_reasons(rules: &mut Vec<Rule>) -> Result<(), NoMemory>
    ensures { OnOk result (rules.new.items ≡ rules.old.items ++ mknod_reasons) }
{
    let alloc = *rules.allocator();
    let both = vec![in alloc; calls::MKNOD, calls::MKNODAT]?;
    let from_root = vec![in alloc; Cond::Dirfd(AT_FDCWD)]?;
    push_reason(rules, "lxd.mknod.not-a-known-device", both, from_root)?;
    let mknodat = vec![in alloc; calls::MKNODAT]?;
    push_reason(
        rules,
        "lxd.mknodat.directory-descriptor",
        mknodat,
        Vec::new(alloc),
    )
}

/// The reason of a flag of mount(2).
fn flag_reason(alloc: Global, name: &str, bit: u64) -> Result<Rule, NoMemory>
    ensures { IfOk result (λ rule. rule ≡ flag_reason (name.now, bit)) }
{
    let flags = Cond::Flags {
        all: Sequence::new(vec![in alloc; Flag::Mount(bit)]?),
        none: Sequence::new(Vec::new(alloc)),
    };
    let conds = vec![in alloc; flags]?;
    reason(alloc, name, vec![in alloc; calls::MOUNT]?, conds)
}

/// Adds the reasons that are flags of mount(2).
fn push_flag_reasons(rules: &mut Vec<Rule>) -> Result<(), NoMemory>
    ensures { OnOk result (rules.new.items ≡ rules.old.items ++ map flag_reason flag_reasons) }
{
    let alloc = *rules.allocator();
    for (name, bit) in FLAG_REASONS {
        rules.push(flag_reason(alloc, name, *bit)?)?;
    }
    Ok(())
}

/// Adds the reasons of mount: its flags, and then a type that isn't mounted.
pub fn push_mount_reasons(rules: &mut Vec<Rule>) -> Result<(), NoMemory>
    ensures { OnOk result (rules.new.items ≡ rules.old.items ++ mount_reasons) }
{
    push_flag_reasons(rules)?;
    let alloc = *rules.allocator();
    let mount = vec![in alloc; calls::MOUNT]?;
    push_reason(rules, "lxd.mount.type", mount, Vec::new(alloc))
}

/// The condition that an attribute is the mark of an opaque directory of an overlay.
fn mark_conditions(alloc: Global) -> Result<Vec<Cond>, NoMemory>
    ensures { IfOk result (λ conds. conds.items ≡ opaque_conditions Profile.Plain) }
{
    let name = Text::new(Vec::from_slice(alloc, b"trusted.overlay.opaque")?);
    Ok(vec![in alloc; Cond::Name(name)]?)
}

/// Adds the reasons of setxattr: another value of that mark, and another name.
pub fn push_setxattr_reasons(rules: &mut Vec<Rule>) -> Result<(), NoMemory>
    ensures { OnOk result (rules.new.items ≡ rules.old.items ++ setxattr_reasons) }
{
    let alloc = *rules.allocator();
    let marks = mark_conditions(alloc)?;
    let of_marks = vec![in alloc; calls::SETXATTR]?;
    push_reason(rules, "lxd.setxattr.value", of_marks, marks)?;
    let of_others = vec![in alloc; calls::SETXATTR]?;
    push_reason(rules, "lxd.setxattr.name", of_others, Vec::new(alloc))
}

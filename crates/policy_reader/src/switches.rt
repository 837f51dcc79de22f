//! The rules that the switches of the configuration make.

ghost use Rattle.std.specs.Prelude.{◌≡◌, ◌++◌, ◌∷◌, [], IfOk, OnOk};
ghost use Rattle.std.specs.List.{flat_map};
ghost use Rattle.hist_model.specs.Decisions.{fuse_conditions, in_profile, mknod_reasons, mount_conditions, mount_reasons, mount_rule, opaque_conditions, pair_rules, propagation_flags, lxd_fuse_rule, lxd_grants, lxd_mknod_rules, lxd_mount_rule, lxd_rules, lxd_setxattr_rule, lxd_sysinfo_rule, setxattr_reasons, type_rules, where_on};

use crate::settings::Settings;
use crate::texts::is_short_name;
use hist_model::policy::{Calls, Cond, Flag, Profile, Rule, Verdict};
use hist_model::text::{Sequence, Text};
use plain_words::push_escaped;
use policy_eval::{
    push_mknod_reasons, push_mknod_rules, push_mount_reasons, push_setxattr_reasons,
};
use std::alloc::Global;
use sys_abi::calls;
use sys_abi::memory::NoMemory;

/// The flags by which mount(2) changes how an existing mount propagates: UNBINDABLE, PRIVATE, SLAVE and SHARED.
fn propagation_flags(alloc: Global) -> Result<Sequence<Flag>, NoMemory>
    ensures { IfOk result (λ flags. flags ≡ propagation_flags) }
{
    Ok(Sequence::new(vec![in alloc;
        Flag::Mount(131_072),
        Flag::Mount(262_144),
        Flag::Mount(524_288),
        Flag::Mount(1_048_576),
    ]?))
}

/// The conditions of a mount of one type of file system by a program, which LXD runs whatever flags of propagation there are.
fn fuse_conditions(alloc: Global, fstype: &Text) -> Result<Vec<Cond>, NoMemory>
    ensures { IfOk result (λ conds. conds.items ≡ fuse_conditions fstype.now) }
{
    Ok(vec![in alloc; Cond::Fstype(fstype.copied(alloc)?), Cond::PlainFlags]?)
}

/// The conditions of a mount by the kernel: with flags of propagation it mounts nothing for LXD.
fn mount_conditions(alloc: Global, profile: Profile, fstype: &Text) -> Result<Vec<Cond>, NoMemory>
    ensures { IfOk result (λ conds. conds.items ≡ mount_conditions profile fstype.now) }
{
    let mut conds = vec![in alloc; Cond::Fstype(fstype.copied(alloc)?), Cond::PlainFlags]?;
    match profile {
        Profile::Plain => {}
        Profile::Lxd => conds.push(Cond::Flags {
            all: Sequence::new(Vec::new(alloc)),
            none: propagation_flags(alloc)?,
        })?,
    }
    Ok(conds)
}

/// The rule that grants mounts of one type of file system, by a program or by none; its name has a front and the type.
fn mount_rule(
    alloc: Global,
    front: &[u8],
    fstype: &Text,
    conds: Vec<Cond>,
    program: &[u8],
    shift: bool,
) -> Result<Rule, NoMemory>
    ensures { IfOk result (λ rule. rule ≡ mount_rule front.now fstype.now conds.items program.now shift) }
{
    let mut name = Vec::from_slice(alloc, front)?;
    push_escaped(&mut name, fstype.items())?;
    let calls = vec![in alloc; calls::MOUNT]?;
    Ok(Rule {
        name: Text::new(name),
        calls: Calls::Named(Sequence::new(calls)),
        conds: Sequence::new(conds),
        verdict: Verdict::Grant,
        via: Text::new(Vec::from_slice(alloc, program)?),
        shift,
        times: None,
    })
}

/// The rule that grants a mount of one type of file system by a program.
fn fuse_rule(alloc: Global, shift: bool, fstype: &Text, program: &Text) -> Result<Rule, NoMemory>
    ensures { IfOk result (λ rule. rule ≡ lxd_fuse_rule shift fstype.now program.now) }
{
    let conds = fuse_conditions(alloc, fstype)?;
    let front = b"lxd.mount.fuse.";
    mount_rule(alloc, front, fstype, conds, program.items(), shift)
}

/// The rule that grants a mount of one type of file system by the kernel.
fn kernel_rule(
    alloc: Global,
    profile: Profile,
    shift: bool,
    fstype: &Text,
) -> Result<Rule, NoMemory>
    ensures { IfOk result (λ rule. rule ≡ lxd_mount_rule profile shift fstype.now) }
{
    let conds = mount_conditions(alloc, profile, fstype)?;
    mount_rule(alloc, b"lxd.mount.", fstype, conds, b"", shift)
}

/// Adds the rules of a type that the kernel mounts. A text that is no name is the type of no file system, and makes none.
fn push_type_rules(
    rules: &mut Vec<Rule>,
    profile: Profile,
    shift: bool,
    fstype: &Text,
) -> Result<(), NoMemory>
    ensures { OnOk result (rules.new.items ≡ rules.old.items ++ type_rules profile shift fstype.now) }
{
    if is_short_name(fstype.items()) {
        let alloc = *rules.allocator();
        rules.push(kernel_rule(alloc, profile, shift, fstype)?)?;
    }
    Ok(())
}

/// Adds the rules of a type with a program. With an empty one the kernel mounts it.
fn push_pair_rules(
    rules: &mut Vec<Rule>,
    profile: Profile,
    shift: bool,
    pair: &(Text, Text),
) -> Result<(), NoMemory>
    ensures { OnOk result (rules.new.items ≡ rules.old.items ++ pair_rules profile shift pair.now) }
{
    let (fstype, program) = pair;
    if program.items().is_empty() {
        return push_type_rules(rules, profile, shift, fstype);
    }
    let alloc = *rules.allocator();
    rules.push(fuse_rule(alloc, shift, fstype, program)?)?;
    Ok(())
}

/// Adds the rules of the file systems that have programs.
fn push_fuse_rules(
    rules: &mut Vec<Rule>,
    profile: Profile,
    shift: bool,
    fuse: &[(Text, Text)],
) -> Result<(), NoMemory>
    ensures { OnOk result (rules.new.items ≡ rules.old.items ++ flat_map (pair_rules profile shift) fuse.now) }
{
    for pair in fuse {
        push_pair_rules(rules, profile, shift, pair)?;
    }
    Ok(())
}

/// Adds the rules of the file systems that may be mounted.
fn push_allowed_rules(
    rules: &mut Vec<Rule>,
    profile: Profile,
    shift: bool,
    allowed: &[Text],
) -> Result<(), NoMemory>
    ensures { OnOk result (rules.new.items ≡ rules.old.items ++ flat_map (type_rules profile shift) allowed.now) }
{
    for fstype in allowed {
        push_type_rules(rules, profile, shift, fstype)?;
    }
    Ok(())
}

/// Adds the rules of mounts, where they are on.
fn push_mount_rules(
    rules: &mut Vec<Rule>,
    on: bool,
    profile: Profile,
    shift: bool,
    fuse: &[(Text, Text)],
    allowed: &[Text],
) -> Result<(), NoMemory>
    ensures { OnOk result (rules.new.items ≡ rules.old.items ++ where_on on (flat_map (pair_rules profile shift) fuse.now ++ flat_map (type_rules profile shift) allowed.now)) }
{
    if !on {
        return Ok(());
    }
    push_fuse_rules(rules, profile, shift, fuse)?;
    push_allowed_rules(rules, profile, shift, allowed)
}

/// Adds the rules of the safe devices, where they are on.
fn push_device_rules(rules: &mut Vec<Rule>, on: bool, profile: Profile) -> Result<(), NoMemory>
    ensures { OnOk result (rules.new.items ≡ rules.old.items ++ where_on on (lxd_mknod_rules profile)) }
{
    if on {
        push_mknod_rules(rules, profile)
    } else {
        Ok(())
    }
}

/// The conditions of the mark of an opaque directory of an overlay; LXD sets it to the value y alone.
fn opaque_conditions(alloc: Global, profile: Profile) -> Result<Vec<Cond>, NoMemory>
    ensures { IfOk result (λ conds. conds.items ≡ opaque_conditions profile) }
{
    let name = Text::new(Vec::from_slice(alloc, b"trusted.overlay.opaque")?);
    let mut conds = vec![in alloc; Cond::Name(name)]?;
    match profile {
        Profile::Plain => {}
        Profile::Lxd => conds.push(Cond::Value(Text::new(Vec::from_slice(alloc, b"y")?)))?,
    }
    Ok(conds)
}

/// The rule that grants the mark of an opaque directory of an overlay.
fn setxattr_rule(alloc: Global, profile: Profile) -> Result<Rule, NoMemory>
    ensures { IfOk result (λ rule. rule ≡ lxd_setxattr_rule profile) }
{
    let calls = vec![in alloc; calls::SETXATTR]?;
    let conds = opaque_conditions(alloc, profile)?;
    Ok(Rule {
        name: Text::new(Vec::from_slice(alloc, b"lxd.setxattr.opaque")?),
        calls: Calls::Named(Sequence::new(calls)),
        conds: Sequence::new(conds),
        verdict: Verdict::Grant,
        via: Text::new(Vec::new(alloc)),
        shift: false,
        times: None,
    })
}

/// The rule that grants sysinfo.
fn sysinfo_rule(alloc: Global) -> Result<Rule, NoMemory>
    ensures { IfOk result (λ rule. rule ≡ lxd_sysinfo_rule) }
{
    let calls = vec![in alloc; calls::SYSINFO]?;
    Ok(Rule {
        name: Text::new(Vec::from_slice(alloc, b"lxd.sysinfo")?),
        calls: Calls::Named(Sequence::new(calls)),
        conds: Sequence::new(Vec::new(alloc)),
        verdict: Verdict::Grant,
        via: Text::new(Vec::new(alloc)),
        shift: false,
        times: None,
    })
}

/// Adds the rule of setxattr, where it is on.
fn push_setxattr_rule(rules: &mut Vec<Rule>, on: bool, profile: Profile) -> Result<(), NoMemory>
    ensures { OnOk result (rules.new.items ≡ rules.old.items ++ where_on on (lxd_setxattr_rule profile ∷ [])) }
{
    if on {
        let alloc = *rules.allocator();
        rules.push(setxattr_rule(alloc, profile)?)?;
    }
    Ok(())
}

/// Adds the rule of sysinfo, where it is on.
fn push_sysinfo_rule(rules: &mut Vec<Rule>, on: bool) -> Result<(), NoMemory>
    ensures { OnOk result (rules.new.items ≡ rules.old.items ++ where_on on (lxd_sysinfo_rule ∷ [])) }
{
    if on {
        let alloc = *rules.allocator();
        rules.push(sysinfo_rule(alloc)?)?;
    }
    Ok(())
}

/// Adds the reasons for which LXD passes calls of mknod, where that is on.
fn push_device_reasons(rules: &mut Vec<Rule>, on: bool) -> Result<(), NoMemory>
    ensures { OnOk result (rules.new.items ≡ rules.old.items ++ where_on on mknod_reasons) }
{
    if on {
        push_mknod_reasons(rules)
    } else {
        Ok(())
    }
}

/// Adds those of mount, where that is on.
fn push_type_reasons(rules: &mut Vec<Rule>, on: bool) -> Result<(), NoMemory>
    ensures { OnOk result (rules.new.items ≡ rules.old.items ++ where_on on mount_reasons) }
{
    if on {
        push_mount_reasons(rules)
    } else {
        Ok(())
    }
}

/// Adds those of setxattr, where that is on.
fn push_mark_reasons(rules: &mut Vec<Rule>, on: bool) -> Result<(), NoMemory>
    ensures { OnOk result (rules.new.items ≡ rules.old.items ++ where_on on setxattr_reasons) }
{
    if on {
        push_setxattr_reasons(rules)
    } else {
        Ok(())
    }
}

/// Adds the reasons for which LXD passes calls, under its profile alone.
fn push_reasons(
    rules: &mut Vec<Rule>,
    profile: Profile,
    mknod: bool,
    mount: bool,
    set_xattr: bool,
) -> Result<(), NoMemory>
    ensures { OnOk result (rules.new.items ≡ rules.old.items ++ in_profile profile (where_on mknod mknod_reasons ++ (where_on mount mount_reasons ++ where_on set_xattr setxattr_reasons))) }
{
    match profile {
        Profile::Plain => Ok(()),
        Profile::Lxd => {
            push_device_reasons(rules, mknod)?;
            push_type_reasons(rules, mount)?;
            push_mark_reasons(rules, set_xattr)
        }
    }
}

/// Adds the rules by which the switches grant, in the order in which they are tried.
fn push_grants(rules: &mut Vec<Rule>, settings: &Settings) -> Result<(), NoMemory>
    ensures { OnOk result (rules.new.items ≡ rules.old.items ++ lxd_grants settings.now) }
{
    let profile = settings.profile;
    push_device_rules(rules, settings.mknod, profile)?;
    push_mount_rules(
        rules,
        settings.mount,
        profile,
        settings.shift,
        settings.fuse.as_slice(),
        settings.allowed.as_slice(),
    )?;
    push_setxattr_rule(rules, settings.set_xattr, profile)?;
    push_sysinfo_rule(rules, settings.sysinfo)
}

/// Adds the rules that the switches make: those that grant, and behind them the reasons of LXD.
pub(crate) fn push_switched_rules(rules: &mut Vec<Rule>, settings: Settings) -> Result<(), NoMemory>
    ensures { OnOk result (rules.new.items ≡ rules.old.items ++ lxd_rules settings) }
{
    push_grants(rules, &settings)?;
    push_reasons(
        rules,
        settings.profile,
        settings.mknod,
        settings.mount,
        settings.set_xattr,
    )
}

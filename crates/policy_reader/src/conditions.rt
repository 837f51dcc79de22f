//! The conditions of a rule: their keys, the values that they have, and the calls that they are for.

ghost use Rattle.std.specs.Prelude.{◌≡◌, ◌++◌, codes, IfOk, IfSome, option_and_then, option_map};
ghost use Rattle.std.specs.List.{list_all};
ghost use Rattle.std.specs.Option.{option_copied};
ghost use Rattle.hist_model.specs.RuleParts.{are_flags_of, call_of_flag, is_directory, is_for};
ghost use Rattle.hist_model.specs.declared.policy.Cond.TheVariants as cond;
ghost use Rattle.policy_reader.specs.declared.conditions.CondKey.TheVariants as key;
ghost use Rattle.policy_reader.specs.declared.conditions.TextKey.TheVariants as text_key;
ghost use Rattle.policy_reader.specs.Conditions.{HasSmallNumbers, condition, condition_at, condition_key, condition_keys, condition_of, condition_place, conditions_of, descriptor, descriptor_of, device_parts, kinds, misfit, profile_keys};
ghost use Rattle.policy_reader.specs.Readings.{Gives, good, named, rule_place};
ghost use Rattle.policy_reader.specs.Texts.{cut_at};
ghost use Rattle.serde_json.specs.View.{view};

use crate::flags::read_flags;
use crate::readings::{Reading, bad_in_rule, unknown_in_rule};
use crate::texts::{cut_at, decimal_up_to, named};
use call_table::rows::{has_path, makes_node};
use hist_model::policy::{Cond, Flag, Profile};
use hist_model::request::Kind;
use hist_model::text::{Sequence, Text};
use serde_json::Value;
use std::alloc::Global;
use sys_abi::calls;
use sys_abi::memory::NoMemory;
use sys_abi::wire::AT_FDCWD;

/// A key of a condition.
#[derive(Clone, Copy)]
pub(crate) enum CondKey {
    Text(TextKey),
    Dirfd,
    Flags,
}

/// A key of a condition whose value is a text.
#[derive(Clone, Copy)]
pub(crate) enum TextKey {
    Dev,
    Fstype,
    Kind,
    Name,
    Path,
    Source,
    Under,
    Value,
}

/// The keys of conditions.
const KEYS: [(&'static str, TextKey); 7] = [
    ("dev", TextKey::Dev),
    ("fstype", TextKey::Fstype),
    ("kind", TextKey::Kind),
    ("name", TextKey::Name),
    ("path", TextKey::Path),
    ("source", TextKey::Source),
    ("under", TextKey::Under),
];

/// Those that a policy with a profile has besides.
const PROFILE_KEYS: [(&'static str, CondKey); 3] = [
    ("dirfd", CondKey::Dirfd),
    ("flags", CondKey::Flags),
    ("value", CondKey::Text(TextKey::Value)),
];

/// The kinds of nodes that mknod makes.
const KINDS: [(&'static str, Kind); 5] = [
    ("reg", Kind::Reg),
    ("chr", Kind::Chr),
    ("blk", Kind::Blk),
    ("fifo", Kind::Fifo),
    ("sock", Kind::Sock),
];

/// The greatest major and minor number of a device (makedev(3)).
const MAJOR_MAX: u32 = 4095;

const MINOR_MAX: u32 = 1_048_575;

/// The calls with the descriptor of a directory; mknod's is always AT_FDCWD.
const DIRFD_CALLS: [i32; 3] = [calls::MKNOD, calls::MKNODAT, calls::OPENAT];

/// The calls with flags that conditions name.
const FLAG_CALLS: [i32; 2] = [calls::MOUNT, calls::SETXATTR];

/// The key of this name whose value is a text, in every policy.
fn text_key_named(name: &str) -> Option<TextKey>
    ensures { result ≡ named condition_keys name.now }
{
    named(&KEYS, name.as_bytes())
}

/// The key of this name that a policy with a profile has besides.
fn profile_key_named(name: &str) -> Option<CondKey>
    ensures { result ≡ named profile_keys name.now }
{
    named(&PROFILE_KEYS, name.as_bytes())
}

/// The key of this name.
fn key_named(profile: Profile, name: &str) -> Option<CondKey>
    ensures { result ≡ condition_key profile name.now }
{
    let text_key = text_key_named(name).map(CondKey::Text);
    match profile {
        Profile::Plain => text_key,
        Profile::Lxd => match profile_key_named(name) {
            Some(key) => Some(key),
            None => text_key,
        },
    }
}

/// The kind of this name.
pub fn kind_named(name: &[u8]) -> Option<Kind>
    ensures { result ≡ named kinds name.now }
{
    named(&KINDS, name)
}

/// A device as `MAJOR:MINOR`.
pub fn device_of(text: &[u8]) -> Option<Cond>
    ensures value { result ≡ device_parts (cut_at 58 text.now) }
    ensures numbers { IfSome result HasSmallNumbers }
{
    let (major, minor) = cut_at(text, b':');
    let minor = minor?;
    let major = decimal_up_to(major, MAJOR_MAX)?;
    let minor = decimal_up_to(minor, MINOR_MAX)?;
    Some(Cond::Dev(major, minor))
}

/// Whether paths may lie under the text: it begins with a slash and doesn't end with one.
fn is_directory(text: &[u8]) -> bool
    ensures { result ≡ is_directory text.now }
{
    text.starts_with(b"/") && !text.ends_with(b"/")
}

/// A copy of a text.
fn copied(alloc: Global, text: &str) -> Result<Text, NoMemory>
    ensures { IfOk result (λ copy. copy ≡ text.now) }
{
    Ok(Text::new(Vec::from_slice(alloc, text.as_bytes())?))
}

/// The directory that paths may lie under.
fn under(alloc: Global, text: &str) -> Result<Option<Cond>, NoMemory>
    ensures { IfOk result (λ cond. cond ≡ condition_of text_key.Under text.now) }
{
    if is_directory(text.as_bytes()) {
        Ok(Some(Cond::Under(copied(alloc, text)?)))
    } else {
        Ok(None)
    }
}

/// The condition of a key and its text.
fn condition_of(alloc: Global, key: TextKey, text: &str) -> Result<Option<Cond>, NoMemory>
    ensures { IfOk result (λ cond. cond ≡ condition_of key text.now) }
{
    match key {
        TextKey::Dev => Ok(device_of(text.as_bytes())),
        TextKey::Fstype => Ok(Some(Cond::Fstype(copied(alloc, text)?))),
        TextKey::Kind => Ok(kind_named(text.as_bytes()).map(Cond::Kind)),
        TextKey::Name => Ok(Some(Cond::Name(copied(alloc, text)?))),
        TextKey::Path => Ok(Some(Cond::Path(copied(alloc, text)?))),
        TextKey::Source => Ok(Some(Cond::Source(copied(alloc, text)?))),
        TextKey::Under => under(alloc, text),
        TextKey::Value => Ok(Some(Cond::Value(copied(alloc, text)?))),
    }
}

/// The condition of a key and its value, if the value is such a text.
fn condition_in(alloc: Global, key: TextKey, text: Option<&str>) -> Result<Option<Cond>, NoMemory>
    ensures { IfOk result (λ cond. cond ≡ option_and_then (condition_of key) (option_copied text.entry)) }
{
    match text {
        Some(text) => condition_of(alloc, key, text),
        None => Ok(None),
    }
}

/// The number of a descriptor, from 0 to 2^31 - 1, or -100.
fn descriptor(number: i64) -> Option<i32>
    ensures { result ≡ descriptor number }
{
    if number == i64::from(AT_FDCWD) || (0 <= number && number <= i64::from(i32::MAX)) {
        Some(number as i32)
    } else {
        None
    }
}

/// The number of a descriptor that a value is.
fn descriptor_of(value: &Value) -> Option<i32>
    ensures { result ≡ descriptor_of (view value.now) }
{
    match value.as_i64() {
        Some(number) => descriptor(number),
        None => None,
    }
}

/// The condition on a descriptor that a value states.
fn dirfd_of(value: &Value) -> Option<Cond>
    ensures { result ≡ option_map cond.Dirfd (descriptor_of (view value.now)) }
{
    descriptor_of(value).map(Cond::Dirfd)
}

/// The condition that stands at a key of a rule's conditions, or the refusal of its value.
fn good_condition(alloc: Global, rule: usize, name: &str, found: Option<Cond>) -> Reading<Cond>
    ensures { Gives result (good (rule_place rule (codes ".when." ++ name.now)) found) }
{
    match found {
        Some(cond) => Ok(cond),
        None => {
            let rest = format!(in alloc; ".when.{name}")?;
            bad_in_rule(alloc, rule, rest.as_str())
        }
    }
}

/// The condition of a member with this key.
fn read_key(
    alloc: Global,
    rule: usize,
    key: Option<CondKey>,
    name: &str,
    value: &Value,
) -> Reading<Cond>
    ensures { Gives result (condition_at rule key name.now (view value.now)) }
{
    match key {
        Some(CondKey::Text(key)) => {
            let found = condition_in(alloc, key, value.as_str())?;
            good_condition(alloc, rule, name, found)
        }
        Some(CondKey::Dirfd) => good_condition(alloc, rule, name, dirfd_of(value)),
        Some(CondKey::Flags) => read_flags(alloc, rule, value),
        None => unknown_in_rule(alloc, rule, ".when.", name),
    }
}

/// The condition of one member of a rule's conditions.
fn read_condition(
    alloc: Global,
    profile: Profile,
    rule: usize,
    name: &str,
    value: &Value,
) -> Reading<Cond>
    ensures { Gives result (condition profile rule name.now (view value.now)) }
{
    read_key(alloc, rule, key_named(profile, name), name, value)
}

/// The conditions of a rule, in the rising order of their keys.
pub(crate) fn read_conditions(
    alloc: Global,
    profile: Profile,
    rule: usize,
    value: &Value,
) -> Reading<Sequence<Cond>>
    ensures { Gives result (conditions_of profile rule (view value.now)) }
{
    let Some(members) = value.as_object() else {
        return bad_in_rule(alloc, rule, ".when");
    };
    let mut conds = Vec::new(alloc);
    for (name, member) in members.iter() {
        let cond = read_condition(alloc, profile, rule, name.as_str(), member)?;
        conds.push(cond)?;
    }
    Ok(Sequence::new(conds))
}

/// The call that a flag is of.
fn call_of_flag(flag: Flag) -> i32
    ensures { result ≡ call_of_flag flag }
{
    match flag {
        Flag::Mount(_) => calls::MOUNT,
        Flag::Attribute(_) => calls::SETXATTR,
    }
}

/// Whether the flags are of this call.
fn are_flags_of(nr: i32, flags: &[Flag]) -> bool
    ensures { result ≡ are_flags_of nr flags.now }
{
    flags.iter().all(|flag| call_of_flag(*flag) == nr)
}

/// Whether the condition is for this call.
fn is_for(cond: &Cond, nr: i32) -> bool
    ensures { result ≡ is_for cond.now nr }
{
    match cond {
        Cond::Path(_) | Cond::Under(_) => has_path(nr),
        Cond::Kind(_) | Cond::Dev(_, _) | Cond::ShortDevice => makes_node(nr),
        Cond::Dirfd(_) => DIRFD_CALLS.contains(&nr),
        Cond::Fstype(_) | Cond::Source(_) => nr == calls::MOUNT,
        Cond::Name(_) | Cond::Value(_) => nr == calls::SETXATTR,
        Cond::Flags { all, none } => FLAG_CALLS.contains(&nr)
            && are_flags_of(nr, all.items())
            && are_flags_of(nr, none.items()),
        Cond::PlainFlags => true,
    }
}

/// Whether the condition is for all these calls.
fn is_for_all(cond: &Cond, calls: &[i32]) -> bool
    ensures { result ≡ list_all (is_for cond.now) calls.now }
{
    calls.iter().all(|nr| is_for(cond, *nr))
}

/// The first condition that isn't for all of the calls.
pub(crate) fn misfit<'c>(calls: &[i32], conds: &'c [Cond]) -> Option<&'c Cond>
    ensures { option_copied result ≡ misfit calls.now conds.now }
{
    conds.iter().find(|cond| !is_for_all(cond, calls))
}

/// Where a condition stands in its rule.
pub(crate) fn condition_place(cond: &Cond) -> &'static str
    ensures { result.now ≡ condition_place cond.now }
{
    match cond {
        Cond::Path(_) => ".when.path",
        Cond::Under(_) => ".when.under",
        Cond::Kind(_) => ".when.kind",
        Cond::Dev(_, _) => ".when.dev",
        Cond::Fstype(_) => ".when.fstype",
        Cond::Source(_) => ".when.source",
        Cond::Name(_) => ".when.name",
        Cond::Value(_) => ".when.value",
        Cond::Dirfd(_) => ".when.dirfd",
        Cond::Flags { .. } => ".when.flags",
        Cond::ShortDevice | Cond::PlainFlags => ".when",
    }
}

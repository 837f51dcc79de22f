//! The condition on a call's flags: names of flags that are set, and of flags that aren't.

ghost use Rattle.std.specs.Prelude.{◌≡◌, [], None};
ghost use Rattle.policy_reader.specs.Flags.{flag_names, flag_of, flag_place, flags_at, flags_keys, flags_member, flags_of, flags_place, listed_flag, listed_flags, no_flags};
ghost use Rattle.policy_reader.specs.Readings.{Gives, good, named, walk, walk_items};
ghost use Rattle.serde_json.specs.View.{view, items_view, members_view};

use crate::readings::{Reading, bad_in_rule, unknown_in_rule};
use crate::texts::named;
use hist_model::policy::{Cond, Flag};
use hist_model::text::Sequence;
use serde_json::{Map, Value};
use std::alloc::Global;

/// A key of the condition: one of its two lists.
#[derive(Clone, Copy)]
pub(crate) enum FlagsKey {
    Set,
    Unset,
}

/// What the keys of the condition state so far.
#[derive(Drop)]
pub(crate) struct FlagLists {
    all: Sequence<Flag>,
    none: Sequence<Flag>,
}

/// The flags that have names.
pub const FLAGS: [(&'static str, Flag); 24] = [
    ("RDONLY", Flag::Mount(1)),
    ("NOSUID", Flag::Mount(2)),
    ("NODEV", Flag::Mount(4)),
    ("NOEXEC", Flag::Mount(8)),
    ("SYNCHRONOUS", Flag::Mount(16)),
    ("REMOUNT", Flag::Mount(32)),
    ("MANDLOCK", Flag::Mount(64)),
    ("DIRSYNC", Flag::Mount(128)),
    ("NOSYMFOLLOW", Flag::Mount(256)),
    ("NOATIME", Flag::Mount(1024)),
    ("NODIRATIME", Flag::Mount(2048)),
    ("BIND", Flag::Mount(4096)),
    ("MOVE", Flag::Mount(8192)),
    ("REC", Flag::Mount(16384)),
    ("SILENT", Flag::Mount(32768)),
    ("UNBINDABLE", Flag::Mount(131_072)),
    ("PRIVATE", Flag::Mount(262_144)),
    ("SLAVE", Flag::Mount(524_288)),
    ("SHARED", Flag::Mount(1_048_576)),
    ("RELATIME", Flag::Mount(2_097_152)),
    ("STRICTATIME", Flag::Mount(16_777_216)),
    ("LAZYTIME", Flag::Mount(33_554_432)),
    ("CREATE", Flag::Attribute(1)),
    ("REPLACE", Flag::Attribute(2)),
];

/// The keys of the two lists.
const KEYS: [(&'static str, FlagsKey); 2] = [("all", FlagsKey::Set), ("none", FlagsKey::Unset)];

/// The flag of this name.
pub fn flag_named(name: &[u8]) -> Option<Flag>
    ensures { result ≡ named flag_names name.now }
{
    named(&FLAGS, name)
}

/// The key of this name.
fn key_named(name: &str) -> Option<FlagsKey>
    ensures { result ≡ named flags_keys name.now }
{
    named(&KEYS, name.as_bytes())
}

/// The flag that a value names.
fn flag_of(value: &Value) -> Option<Flag>
    ensures { result ≡ flag_of (view value.now) }
{
    match value.as_str() {
        Some(name) => flag_named(name.as_bytes()),
        None => None,
    }
}

/// The flag at a place in a rule's list of this name, or the refusal of its value.
fn good_flag(
    alloc: Global,
    rule: usize,
    list: &str,
    place: usize,
    found: Option<Flag>,
) -> Reading<Flag>
    ensures { Gives result (good (flag_place rule list.now place) found) }
{
    match found {
        Some(flag) => Ok(flag),
        None => {
            let rest = format!(in alloc; ".when.flags.{list}[{place}]")?;
            bad_in_rule(alloc, rule, rest.as_str())
        }
    }
}

/// The refusal of a list that is no array.
fn bad_list<T>(alloc: Global, rule: usize, list: &str) -> Reading<T>
    ensures { Gives result (good (flags_place rule list.now) None) }
{
    let rest = format!(in alloc; ".when.flags.{list}")?;
    bad_in_rule(alloc, rule, rest.as_str())
}

/// The flags of an array.
fn read_items(alloc: Global, rule: usize, list: &str, items: &[Value]) -> Reading<Sequence<Flag>>
    ensures { Gives result (walk_items (listed_flag rule list.now) [] (items_view items.now)) }
{
    let mut found = Vec::new(alloc);
    for item in items {
        let flag = good_flag(alloc, rule, list, found.len(), flag_of(item))?;
        found.push(flag)?;
    }
    Ok(Sequence::new(found))
}

/// The flags of one of the lists.
fn read_list(alloc: Global, rule: usize, list: &str, value: &Value) -> Reading<Sequence<Flag>>
    ensures { Gives result (listed_flags rule list.now (view value.now)) }
{
    match value.as_array() {
        Some(items) => read_items(alloc, rule, list, items.as_slice()),
        None => bad_list(alloc, rule, list),
    }
}

impl FlagLists {
    /// No list yet.
    fn nothing(alloc: Global) -> FlagLists
        ensures { result ≡ no_flags }
    {
        FlagLists {
            all: Sequence::new(Vec::new(alloc)),
            none: Sequence::new(Vec::new(alloc)),
        }
    }

    /// Adds what a member with this key states.
    fn read_key(
        mut self,
        alloc: Global,
        rule: usize,
        key: Option<FlagsKey>,
        name: &str,
        value: &Value,
    ) -> Reading<FlagLists>
        ensures { Gives result (flags_at rule key name.now (view value.now) self) }
    {
        match key {
            Some(FlagsKey::Set) => self.all = read_list(alloc, rule, name, value)?,
            Some(FlagsKey::Unset) => self.none = read_list(alloc, rule, name, value)?,
            None => return unknown_in_rule(alloc, rule, ".when.flags.", name),
        }
        Ok(self)
    }

    /// Adds what one member of the condition states.
    fn read_member(
        self,
        alloc: Global,
        rule: usize,
        name: &str,
        value: &Value,
    ) -> Reading<FlagLists>
        ensures { Gives result (flags_member rule name.now (view value.now) self) }
    {
        self.read_key(alloc, rule, key_named(name), name, value)
    }
}

/// What the members of the condition state.
fn read_lists(alloc: Global, rule: usize, members: &Map<String, Value>) -> Reading<FlagLists>
    ensures { Gives result (walk (flags_member rule) (members_view members.now.entries) no_flags) }
{
    let mut lists = FlagLists::nothing(alloc);
    for (name, member) in members.iter() {
        lists = lists.read_member(alloc, rule, name.as_str(), member)?;
    }
    Ok(lists)
}

/// The condition on the flags of a rule's calls.
pub(crate) fn read_flags(alloc: Global, rule: usize, value: &Value) -> Reading<Cond>
    ensures { Gives result (flags_of rule (view value.now)) }
{
    let Some(members) = value.as_object() else {
        return bad_in_rule(alloc, rule, ".when.flags");
    };
    let FlagLists { all, none } = read_lists(alloc, rule, members)?;
    Ok(Cond::Flags { all, none })
}

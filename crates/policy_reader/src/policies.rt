//! The whole of a policy: its version and its profile, and the members of its top object.

ghost use Rattle.std.specs.Prelude.{◌≡◌, ◌≤◌, ◌^◌, IfErr, IfOk, Ok, Some, codes, length, option_and_then};
ghost use Rattle.hist_model.specs.Decisions.{all_rules};
ghost use Rattle.policy_reader.specs.Kept.{AreParts};
ghost use Rattle.policy_reader.specs.Policies.{format_of, no_parts, part_at, policy, policy_in, policy_of, profile_at, profile_names, top_keys, top_member, version_at, version_numbered};
ghost use Rattle.policy_reader.specs.Readings.{Gives, Refuses, good, named, walk};
ghost use Rattle.serde_json.specs.Find.{as_number, as_str, as_u64, get};
ghost use Rattle.serde_json.specs.View.{members_view, view};

use crate::error::PolicyError;
use crate::readings::{Reading, bad_value, unknown_at_top};
use crate::rules::{Format, Version, read_rules};
use crate::settings::{Settings, read_config};
use crate::switches::push_switched_rules;
use crate::texts::named;
use hist_model::policy::{Policy, Profile, Rule};
use hist_model::text::Sequence;
use policy_eval::push_default_rules;
use serde_json::{Map, Value};
use std::alloc::Global;
use sys_abi::memory::{NoMemory, OrNoMemory};

/// A key of the top object.
#[derive(Clone, Copy)]
pub(crate) enum TopKey {
    Config,
    Profile,
    Rules,
    Version,
}

/// What the keys of the top object state so far.
#[derive(Drop)]
pub(crate) struct Parts {
    settings: Settings,
    own: Sequence<Rule>,
}

/// The keys of the top object.
const KEYS: [(&'static str, TopKey); 4] = [
    ("config", TopKey::Config),
    ("profile", TopKey::Profile),
    ("rules", TopKey::Rules),
    ("version", TopKey::Version),
];

/// The names of profiles.
const PROFILES: [(&'static str, Profile); 1] = [("lxd", Profile::Lxd)];

/// The key of this name.
fn key_named(name: &str) -> Option<TopKey>
    ensures { result ≡ named top_keys name.now }
{
    named(&KEYS, name.as_bytes())
}

/// The version of this number.
fn version_numbered(number: u64) -> Option<Version>
    ensures { result ≡ version_numbered number }
{
    match number {
        1 => Some(Version::First),
        2 => Some(Version::Second),
        _ => None,
    }
}

/// The version that a value is.
fn version_of(value: &Value) -> Option<Version>
    ensures { result ≡ option_and_then version_numbered (option_and_then as_u64 (as_number (view value.now))) }
{
    match value.as_u64() {
        Some(number) => version_numbered(number),
        None => None,
    }
}

/// The version that a value is, or the refusal of it.
fn good_version(alloc: Global, found: Option<Version>) -> Reading<Version>
    ensures { Gives result (good (codes "version") found) }
{
    match found {
        Some(version) => Ok(version),
        None => bad_value(alloc, "version"),
    }
}

/// The version of a policy; the first one, where none is named.
fn read_version(alloc: Global, value: &Value) -> Reading<Version>
    ensures { Gives result (version_at (get (codes "version") (view value.now))) }
{
    match value.get("version") {
        Some(named) => good_version(alloc, version_of(named)),
        None => Ok(Version::First),
    }
}

/// The profile of this name.
fn profile_named(name: &str) -> Option<Profile>
    ensures { result ≡ named profile_names name.now }
{
    named(&PROFILES, name.as_bytes())
}

/// The profile that a value names.
fn profile_of(value: &Value) -> Option<Profile>
    ensures { result ≡ option_and_then (named profile_names) (as_str (view value.now)) }
{
    match value.as_str() {
        Some(name) => profile_named(name),
        None => None,
    }
}

/// The profile that a value names, or the refusal of it.
fn good_profile(alloc: Global, found: Option<Profile>) -> Reading<Profile>
    ensures { Gives result (good (codes "profile") found) }
{
    match found {
        Some(profile) => Ok(profile),
        None => bad_value(alloc, "profile"),
    }
}

/// The profile of a policy; this program's own rules, where none is named.
fn read_profile(alloc: Global, value: &Value) -> Reading<Profile>
    ensures { Gives result (profile_at (get (codes "profile") (view value.now))) }
{
    match value.get("profile") {
        Some(named) => good_profile(alloc, profile_of(named)),
        None => Ok(Profile::Plain),
    }
}

/// The version of a policy, and its profile.
fn read_format(alloc: Global, value: &Value) -> Reading<Format>
    ensures { Gives result (format_of (view value.now)) }
{
    let version = read_version(alloc, value)?;
    let profile = read_profile(alloc, value)?;
    Ok(Format { version, profile })
}

impl Parts {
    /// No switch is on, and there is no rule.
    fn nothing(alloc: Global, profile: Profile) -> Parts
        ensures { result ≡ no_parts profile }
    {
        Parts {
            settings: Settings::new(alloc, profile),
            own: Sequence::new(Vec::new(alloc)),
        }
    }

    /// Adds what a member with this key says.
    fn read_key(
        mut self,
        alloc: Global,
        format: Format,
        key: Option<TopKey>,
        name: &str,
        value: &Value,
    ) -> Reading<Parts>
        ensures { Gives result (part_at format key name.now (view value.now) self) }
    {
        match key {
            Some(TopKey::Config) => self.settings = read_config(alloc, format.profile, value)?,
            Some(TopKey::Rules) => self.own = read_rules(alloc, format, value)?,
            Some(TopKey::Profile) | Some(TopKey::Version) => {}
            None => return unknown_at_top(alloc, name),
        }
        Ok(self)
    }

    /// Adds what one member of the top object says.
    fn read_member(self, alloc: Global, format: Format, name: &str, value: &Value) -> Reading<Parts>
        ensures { Gives result (top_member format name.now (view value.now) self) }
    {
        self.read_key(alloc, format, key_named(name), name, value)
    }
}

/// What the members of the top object say.
fn read_parts(alloc: Global, format: Format, members: &Map<String, Value>) -> Reading<Parts>
    ensures { Gives result (walk (top_member format) (members_view members.now.entries) (no_parts format.profile)) }
{
    let mut parts = Parts::nothing(alloc, format.profile);
    for (name, member) in members.iter() {
        parts = parts.read_member(alloc, format, name.as_str(), member)?;
    }
    Ok(parts)
}

/// The rules of a policy: its own, those that the switches make, and the defaults.
fn all_rules(parts: Parts) -> Result<Vec<Rule>, NoMemory>
    ensures { IfOk result (λ rules. rules.items ≡ all_rules parts.own parts.settings) }
{
    let Parts { settings, own } = parts;
    let mut rules = own.into_items();
    push_switched_rules(&mut rules, settings)?;
    push_default_rules(&mut rules)?;
    Ok(rules)
}

/// The policy of these parts. There are never 2^32 rules: so many find no memory.
#[tactic(auto, using(crate::proofs::KeptPolicies::policy_kept))]
fn made_of(parts: Parts) -> Result<Policy, NoMemory>
    requires { AreParts parts }
    ensures { IfOk result (λ p. p.rules ≡ all_rules parts.own parts.settings) }
{
    let rules = all_rules(parts)?;
    if rules.len() > u32::MAX as usize {
        return Err(NoMemory);
    }
    Ok(Policy {
        rules: Sequence::new(rules),
    })
}

/// The policy of a top object with these members.
fn read_top(alloc: Global, value: &Value, members: &Map<String, Value>) -> Reading<Policy>
    ensures { Gives result (policy_in (view value.now) (members_view members.now.entries)) }
{
    let format = read_format(alloc, value)?;
    let parts = read_parts(alloc, format, members)?;
    Ok(made_of(parts)?)
}

/// The policy of a JSON value.
fn read_value(alloc: Global, value: &Value) -> Reading<Policy>
    ensures { Gives result (policy_of (Some (view value.now))) }
{
    match value.as_object() {
        Some(members) => read_top(alloc, value, members),
        None => bad_value(alloc, "(top)"),
    }
}

/// The policy that a file's bytes are, of which there are at most 1,048,576, or the refusal that comes first.
pub fn read_policy(alloc: Global, bytes: &[u8]) -> Result<Policy, OrNoMemory<PolicyError>>
    requires { length bytes.now ≤ 2 ^ 20 }
    ensures accepted { IfOk result (λ p. policy bytes.now ≡ Ok p) }
    ensures refused { IfErr result (λ e. Refuses e (policy bytes.now)) }
{
    match Value::from_slice(alloc, bytes) {
        Ok(value) => read_value(alloc, &value),
        Err(error) if error.is_memory() => Err(OrNoMemory::NoMemory),
        Err(_) => Err(OrNoMemory::Refused(PolicyError::NotJson)),
    }
}

//! The configuration: the keys by which LXD intercepts system calls, and what they switch on.

ghost use Rattle.std.specs.Prelude.{◌≡◌, map, option_and_then, option_map, IfOk, Ok};
ghost use Rattle.std.specs.Str.{str_eq_ignore_ascii_case};
ghost use Rattle.hist_model.specs.Decisions.{Switches};
ghost use Rattle.hist_model.specs.PolicyRules.{is_name_in};
ghost use Rattle.policy_reader.specs.Readings.{named, Gives};
ghost use Rattle.policy_reader.specs.Settings.{all_off, config_key, config_member, config_member_of, config_of, file_systems, fuse_pair, fuse_pairs, intercept_key, is_ignored, is_judged, is_pair_in, is_word_of, items_in, known_or_not, pairs_beside, plain_key, set, setting_names, switch_of};
ghost use Rattle.serde_json.specs.Find.{as_str};
ghost use Rattle.policy_reader.specs.Tables.{texts_of};
ghost use Rattle.serde_json.specs.View.{view};

use crate::lxd_lists::{is_one_pair, lxd_items, unless_shared};
use crate::names::{Names, keep};
use crate::readings::{Reading, bad_value, good_in_config, unknown_in_config};
use crate::texts::{behind, cut_at, is_among, is_short_name, items_of, named};
use hist_model::policy::Profile;
use hist_model::text::Text;
use serde_json::Value;
use std::alloc::Global;
use std::marker::Model;
use sys_abi::memory::NoMemory;

/// What a key of the configuration says.
#[derive(Clone, Copy)]
pub(crate) enum ConfigKey {
    /// Nothing: it is of another matter, or a kind of interception that this program doesn't do.
    Ignored,
    /// Nothing, but its value is a switch.
    Judged,
    /// It begins as a key of interception does, and is none.
    Unknown,
    /// This setting.
    Known(Setting),
}

/// A setting of the configuration.
#[derive(Clone, Copy)]
pub(crate) enum Setting {
    Mknod,
    Mount,
    /// Whether granted mounts shift owners.
    Shift,
    /// The file systems that may be mounted.
    Allowed,
    /// The file systems that a program serves.
    Fuse,
    SetXattr,
    Sysinfo,
}

/// What keys of interception begin with.
const PREFIX: &[u8] = b"security.syscalls.intercept.";

/// The settings that are read, by what stands behind that.
const SETTINGS: [(&'static str, Setting); 7] = [
    ("mknod", Setting::Mknod),
    ("mount", Setting::Mount),
    ("mount.shift", Setting::Shift),
    ("mount.allowed", Setting::Allowed),
    ("mount.fuse", Setting::Fuse),
    ("setxattr", Setting::SetXattr),
    ("sysinfo", Setting::Sysinfo),
];

/// Settings that are known and say nothing here.
const IGNORED: [&'static str; 3] = ["bpf", "bpf.devices", "sched_setscheduler"];

/// Those whose values LXD takes as switches.
const JUDGED: [&'static str; 3] = ["bpf", "bpf.devices", "sched_setscheduler"];

/// The words of a switch that is on, and of one that is off, with letters of either case.
const ON: [&'static str; 4] = ["true", "1", "yes", "on"];

const OFF: [&'static str; 5] = ["false", "0", "no", "off", ""];

/// The switches and lists of file systems of the configuration. Contracts see them as the definition of the rules that they
/// make does.
#[derive(Drop)]
pub(crate) struct Settings {
    /// By whose rules the keys are read.
    pub(crate) profile: Profile,
    pub(crate) mknod: bool,
    pub(crate) mount: bool,
    pub(crate) shift: bool,
    pub(crate) set_xattr: bool,
    pub(crate) sysinfo: bool,
    /// The file systems that a program serves, each with its program. Under LXD's profile both are any texts, and the program may
    /// be empty.
    pub(crate) fuse: Vec<(Text, Text)>,
    pub(crate) allowed: Vec<Text>,
}

impl Model for Settings {
    ghost use Rattle.std.specs.Str.{str_eq_ignore_ascii_case};
    ghost use Rattle.hist_model.specs.Decisions.{Switches};

    ghost Value = { Switches };

    ghost view = { λ s. record { profile = s.profile; mknod = s.mknod; mount = s.mount; shift = s.shift; setxattr = s.set_xattr; sysinfo = s.sysinfo; fuse = s.fuse.items; allowed = s.allowed.items } };
}

/// Whether a text is this word, with letters of either case.
fn is_word(word: &str, text: &str) -> bool
    ensures { result ≡ str_eq_ignore_ascii_case word.now text.now }
{
    word.eq_ignore_ascii_case(text)
}

/// Whether the text is one of these words, with letters of either case.
fn is_word_of(words: &[&'static str], text: &str) -> bool
    ensures { result ≡ is_word_of (texts_of words.now) text.now }
{
    words.iter().any(|word| is_word(word, text))
}

/// Whether a switch with this text is on.
fn switch_of(text: &str) -> Option<bool>
    ensures { result ≡ switch_of text.now }
{
    if is_word_of(&ON, text) {
        Some(true)
    } else if is_word_of(&OFF, text) {
        Some(false)
    } else {
        None
    }
}

/// The items of a list.
fn items_in(alloc: Global, profile: Profile, text: &[u8]) -> Result<Vec<&[u8]>, NoMemory>
    ensures { IfOk result (λ items. map (λ item. item.now) items.items ≡ items_in profile text.now) }
{
    match profile {
        Profile::Plain => items_of(alloc, text),
        Profile::Lxd => lxd_items(alloc, text),
    }
}

/// Whether a list may name this file system. LXD takes any text.
fn is_name_in(profile: Profile, name: &[u8]) -> bool
    ensures { result ≡ is_name_in profile name.now }
{
    match profile {
        Profile::Plain => is_short_name(name),
        Profile::Lxd => true,
    }
}

/// File systems between commas, each named once.
fn file_systems(alloc: Global, profile: Profile, text: &str) -> Result<Option<Vec<Text>>, NoMemory>
    ensures { IfOk result (λ found. option_map (λ v. v.items) found ≡ file_systems profile text.now) }
{
    let items = items_in(alloc, profile, text.as_bytes())?;
    let mut names = Names::new(alloc);
    let mut found = Vec::new(alloc);
    for item in &items {
        if !is_name_in(profile, item) {
            return Ok(None);
        }
        let copy = Text::new(Vec::from_slice(alloc, item)?);
        keep(alloc, &mut names, &mut found, item, copy)?;
    }
    Ok(Some(found))
}

/// Whether an item may have this file system and this program. LXD takes any texts, but for a second `=`.
fn is_pair_in(profile: Profile, name: &[u8], program: &[u8]) -> bool
    ensures { result ≡ is_pair_in profile name.now program.now }
{
    match profile {
        Profile::Plain => is_short_name(name) && is_short_name(program),
        Profile::Lxd => is_one_pair(program),
    }
}

/// A file system and its program, which stand before and behind the first `=`.
fn fuse_pair(profile: Profile, item: &[u8]) -> Option<(&[u8], &[u8])>
    ensures { option_map (λ pair. (pair.0.now, pair.1.now)) result ≡ fuse_pair profile item.now }
{
    match cut_at(item, b'=') {
        (name, Some(program)) if is_pair_in(profile, name, program) => Some((name, program)),
        _ => None,
    }
}

/// File systems with their programs between commas, each file system once.
fn fuse_pairs(
    alloc: Global,
    profile: Profile,
    text: &str,
) -> Result<Option<Vec<(Text, Text)>>, NoMemory>
    ensures { IfOk result (λ found. option_map (λ v. v.items) found ≡ fuse_pairs profile text.now) }
{
    let items = items_in(alloc, profile, text.as_bytes())?;
    let mut names = Names::new(alloc);
    let mut found = Vec::new(alloc);
    for item in &items {
        let Some((name, program)) = fuse_pair(profile, item) else {
            return Ok(None);
        };
        let copy = copied_pair(alloc, name, program)?;
        keep(alloc, &mut names, &mut found, name, copy)?;
    }
    Ok(Some(found))
}

/// Copies of a file system's name and its program's.
fn copied_pair(alloc: Global, name: &[u8], program: &[u8]) -> Result<(Text, Text), NoMemory>
    ensures { IfOk result (λ pair. pair ≡ (name.now, program.now)) }
{
    let name = Text::new(Vec::from_slice(alloc, name)?);
    let program = Text::new(Vec::from_slice(alloc, program)?);
    Ok((name, program))
}

/// File systems with their programs, beside those that may be mounted without one, where mounts are on.
fn pairs_beside(
    alloc: Global,
    profile: Profile,
    mount: bool,
    allowed: &[Text],
    text: &str,
) -> Result<Option<Vec<(Text, Text)>>, NoMemory>
    ensures { IfOk result (λ found. option_map (λ v. v.items) found ≡ pairs_beside profile mount allowed.now text.now) }
{
    let found = fuse_pairs(alloc, profile, text)?;
    match (profile, found) {
        (Profile::Lxd, Some(pairs)) => unless_shared(alloc, mount, allowed, pairs),
        (_, found) => Ok(found),
    }
}

/// Whether LXD takes the value of a setting of this name as a switch, which says nothing here.
fn is_judged(name: &[u8]) -> bool
    ensures { result ≡ is_judged name.now }
{
    is_among(&JUDGED, name)
}

/// Whether a setting of this name says nothing here.
fn is_ignored(name: &[u8]) -> bool
    ensures { result ≡ is_ignored name.now }
{
    is_among(&IGNORED, name)
}

/// The setting of this name.
fn setting_named(name: &[u8]) -> Option<Setting>
    ensures { result ≡ named setting_names name.now }
{
    named(&SETTINGS, name)
}

/// What a key of interception is, by its setting.
fn known_or_not(found: Option<Setting>) -> ConfigKey
    ensures { result ≡ known_or_not found }
{
    match found {
        Some(setting) => ConfigKey::Known(setting),
        None => ConfigKey::Unknown,
    }
}

/// What a name behind the prefix is by this program's own rules.
fn plain_key(name: &[u8]) -> ConfigKey
    ensures { result ≡ plain_key name.now }
{
    if is_ignored(name) {
        ConfigKey::Ignored
    } else {
        known_or_not(setting_named(name))
    }
}

/// What a name behind the prefix is.
fn intercept_key(profile: Profile, name: &[u8]) -> ConfigKey
    ensures { result ≡ intercept_key profile name.now }
{
    match profile {
        Profile::Lxd if is_judged(name) => ConfigKey::Judged,
        _ => plain_key(name),
    }
}

/// What a key is: those of other matters are ignored.
fn config_key(profile: Profile, key: &[u8]) -> ConfigKey
    ensures { result ≡ config_key profile key.now }
{
    match behind(PREFIX, key) {
        Some(name) => intercept_key(profile, name),
        None => ConfigKey::Ignored,
    }
}

/// The switch that a value is.
fn switch_in(value: &Value) -> Option<bool>
    ensures { result ≡ option_and_then switch_of (as_str (view value.now)) }
{
    match value.as_str() {
        Some(text) => switch_of(text),
        None => None,
    }
}

impl Settings {
    /// All switches off, and no file system.
    pub(crate) fn new(alloc: Global, profile: Profile) -> Settings
        ensures { result ≡ all_off profile }
    {
        Settings {
            profile,
            mknod: false,
            mount: false,
            shift: false,
            set_xattr: false,
            sysinfo: false,
            fuse: Vec::new(alloc),
            allowed: Vec::new(alloc),
        }
    }

    /// Sets what the text at a key says.
    fn set(mut self, alloc: Global, key: &str, setting: Setting, text: &str) -> Reading<Settings>
        ensures { Gives result (set key.now setting text.now self) }
    {
        match setting {
            Setting::Mknod => self.mknod = good_in_config(alloc, key, switch_of(text))?,
            Setting::Mount => self.mount = good_in_config(alloc, key, switch_of(text))?,
            Setting::Shift => self.shift = good_in_config(alloc, key, switch_of(text))?,
            Setting::SetXattr => self.set_xattr = good_in_config(alloc, key, switch_of(text))?,
            Setting::Sysinfo => self.sysinfo = good_in_config(alloc, key, switch_of(text))?,
            Setting::Allowed => {
                let found = file_systems(alloc, self.profile, text)?;
                self.allowed = good_in_config(alloc, key, found)?;
            }
            Setting::Fuse => {
                let allowed = self.allowed.as_slice();
                let found = pairs_beside(alloc, self.profile, self.mount, allowed, text)?;
                self.fuse = good_in_config(alloc, key, found)?;
            }
        }
        Ok(self)
    }

    /// Adds what the member of a key of this kind says.
    fn read_kind(
        self,
        alloc: Global,
        kind: ConfigKey,
        key: &str,
        value: &Value,
    ) -> Reading<Settings>
        ensures { Gives result (config_member_of kind key.now (view value.now) self) }
    {
        match kind {
            ConfigKey::Ignored => Ok(self),
            ConfigKey::Judged => {
                good_in_config(alloc, key, switch_in(value))?;
                Ok(self)
            }
            ConfigKey::Unknown => unknown_in_config(alloc, key),
            ConfigKey::Known(setting) => {
                let text = good_in_config(alloc, key, value.as_str())?;
                self.set(alloc, key, setting, text)
            }
        }
    }

    /// Adds what one member of the configuration says.
    fn read_member(self, alloc: Global, key: &str, value: &Value) -> Reading<Settings>
        ensures { Gives result (config_member key.now (view value.now) self) }
    {
        let kind = config_key(self.profile, key.as_bytes());
        self.read_kind(alloc, kind, key, value)
    }
}

/// What the configuration switches on.
pub(crate) fn read_config(alloc: Global, profile: Profile, value: &Value) -> Reading<Settings>
    ensures { Gives result (config_of profile (view value.now)) }
{
    let Some(members) = value.as_object() else {
        return bad_value(alloc, "config");
    };
    let mut settings = Settings::new(alloc, profile);
    for (key, member) in members.iter() {
        settings = settings.read_member(alloc, key.as_str(), member)?;
    }
    Ok(settings)
}

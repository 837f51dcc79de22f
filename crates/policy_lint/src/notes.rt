//! Keys that say less than they seem to.

ghost use Rattle.std.specs.Prelude.{◌≡◌, false, nat_eq, IfOk, OnOk};
ghost use Rattle.std.specs.List.{list_any, starts_with};
ghost use Rattle.hist_model.specs.declared.policy.Rule.{Rule as AnyRule};
ghost use Rattle.policy_lint.specs.Found.{AreSaid, IsSo};

use crate::finding::{Fault, Finding, Note};
use crate::nearest::nearest;
use crate::positions::Position;
use crate::scanner::Scanned;
use crate::words::CONFIG_KEYS;
use hist_model::policy::Rule;
use hist_model::text::Text;
use std::alloc::Global;
use sys_abi::memory::NoMemory;

/// What LXD's keys of interception begin with.
const INTERCEPT: &'static str = "security.syscalls.intercept.";

/// What the names of the rules of LXD's mounts begin with.
const MOUNT_RULES: &'static str = "lxd.mount.";

/// The values whose keys stand before in the same object.
fn repeated(alloc: Global, bytes: &[u8], scanned: &Scanned) -> Result<Vec<usize>, NoMemory> {
    let mut keyed = Vec::new(alloc);
    for number in 0..scanned.nodes.len() {
        if let Some(key) = scanned.key(bytes, number) {
            keyed.push((scanned.nodes[number].parent, key, number))?;
        }
    }
    keyed.sort()?;
    let mut found = Vec::new(alloc);
    for place in 1..keyed.len() {
        let (parent, key, number) = keyed[place];
        let (parent_before, key_before, _) = keyed[place - 1];
        if parent == parent_before && key == key_before {
            found.push(number)?;
        }
    }
    found.sort()?;
    Ok(found)
}

/// Whether a rule's name begins so.
fn is_made(rules: &[Rule], front: &[u8]) -> bool
    ensures { result ≡ list_any (λ (rule : AnyRule). starts_with nat_eq rule.name front.now) rules.now }
{
    rules
        .iter()
        .any(|rule| rule.name.items().starts_with(front))
}

/// The front of the names of the rules that an item of a list makes.
fn front_of(alloc: Global, fuse: bool, item: &[u8]) -> Result<Vec<u8>, NoMemory> {
    let mut front = Vec::from_slice(alloc, MOUNT_RULES.as_bytes())?;
    let mut name = item;
    if fuse {
        let (before, program) = crate::places::cut(item, b'=');
        name = before;
        if let Some([_, ..]) = program {
            front.extend_from_slice(b"fuse.")?;
        }
    }
    front.extend_from_slice(name)?;
    Ok(front)
}

/// A key, and what is noted of it.
#[derive(Drop)]
struct Noted {
    node: usize,
    note: Note,
    cure: Text,
}

/// A key, and the front of the names of rules that it or an item of its list makes.
#[derive(Drop)]
struct Front {
    node: usize,
    front: Text,
}

/// Adds what is noted of the keys of the configuration that are almost LXD's.
fn push_misspelt(
    alloc: Global,
    noted: &mut Vec<Noted>,
    bytes: &[u8],
    scanned: &Scanned,
    config: usize,
) -> Result<(), NoMemory> {
    for node in scanned.items(alloc, config)? {
        let key = scanned.key(bytes, node).unwrap_or(&[]);
        if !key.starts_with(INTERCEPT.as_bytes()) {
            if let Some(word) = nearest(alloc, key, CONFIG_KEYS)? {
                let cure = format!(in alloc; "this key says nothing: did you mean {word}?")?;
                noted.push(Noted {
                    node,
                    note: Note::MisspeltKey,
                    cure: Text::new(cure.into_bytes()),
                })?;
            }
        }
    }
    Ok(())
}

/// What is noted of keys.
fn noted_keys(alloc: Global, bytes: &[u8], scanned: &Scanned) -> Result<Vec<Noted>, NoMemory> {
    let mut noted = Vec::new(alloc);
    if let Some(config) = scanned.member(bytes, 0, b"config") {
        push_misspelt(alloc, &mut noted, bytes, scanned, config)?;
    }
    for node in repeated(alloc, bytes, scanned)? {
        let cure = Vec::from_slice(
            alloc,
            b"the key stands twice in its object, and the last one counts",
        )?;
        noted.push(Noted {
            node,
            note: Note::RepeatedKey,
            cure: Text::new(cure),
        })?;
    }
    Ok(noted)
}

/// Whether a switch with this text is on.
fn is_on(text: &[u8]) -> bool {
    text.eq_ignore_ascii_case(b"true")
        || text.eq_ignore_ascii_case(b"yes")
        || text.eq_ignore_ascii_case(b"on")
        || text == b"1".as_slice()
}

/// Adds the fronts of a list of types.
fn push_items(
    alloc: Global,
    fronts: &mut Vec<Front>,
    node: usize,
    fuse: bool,
    text: &[u8],
) -> Result<(), NoMemory> {
    for item in text.split(|byte| *byte == b',') {
        if !item.is_empty() {
            fronts.push(Front {
                node,
                front: Text::new(front_of(alloc, fuse, item)?),
            })?;
        }
    }
    Ok(())
}

/// The fronts of LXD's keys of mounts. Under the profile the items of lists are taken as they stand.
fn fronts(alloc: Global, bytes: &[u8], scanned: &Scanned) -> Result<Vec<Front>, NoMemory> {
    let mut fronts = Vec::new(alloc);
    let Some(config) = scanned.member(bytes, 0, b"config") else {
        return Ok(fronts);
    };
    let by_lxd = scanned.member(bytes, 0, b"profile").is_some();
    for node in scanned.items(alloc, config)? {
        let key = scanned.key(bytes, node).unwrap_or(&[]);
        let text = scanned.text(bytes, node);
        let shift = key == b"security.syscalls.intercept.mount.shift".as_slice();
        let allowed = key == b"security.syscalls.intercept.mount.allowed".as_slice();
        let fuse = key == b"security.syscalls.intercept.mount.fuse".as_slice();
        if (shift && is_on(text)) || ((allowed || fuse) && !text.is_empty()) {
            let front = Vec::from_slice(alloc, MOUNT_RULES.as_bytes())?;
            fronts.push(Front {
                node,
                front: Text::new(front),
            })?;
        }
        if by_lxd && (allowed || fuse) {
            push_items(alloc, &mut fronts, node, fuse, text)?;
        }
    }
    Ok(fronts)
}

/// Adds what is noted of keys.
#[tactic(auto, using(crate::proofs::Said::more_said))]
fn push_noted(
    alloc: Global,
    notes: &mut Vec<Finding>,
    bytes: &[u8],
    scanned: &Scanned,
    rules: &[Rule],
) -> Result<(), NoMemory>
    ensures { OnOk result (AreSaid rules.now notes.old.items → AreSaid rules.now notes.new.items) }
{
    let mut position = Position::new(bytes);
    let noted = noted_keys(alloc, bytes, scanned)?;
    for one in noted.as_slice() {
        let fault = Fault::Noted {
            note: one.note,
            place: scanned.path_of(alloc, bytes, one.node)?,
            cure: one.cure.copied(alloc)?,
        };
        notes.push(position.found(scanned.key_begin_of(one.node), fault))?;
    }
    Ok(())
}

/// That a key makes no rule with this front.
fn no_effect_of(
    alloc: Global,
    bytes: &[u8],
    scanned: &Scanned,
    rules: &[Rule],
    one: &Front,
) -> Result<Fault, NoMemory>
    requires { list_any (λ (rule : AnyRule). starts_with nat_eq rule.name one.now.front) rules.now ≡ false }
    ensures { IfOk result (IsSo rules.now) }
{
    Ok(Fault::NoEffect {
        place: scanned.path_of(alloc, bytes, one.node)?,
        front: one.front.copied(alloc)?,
    })
}

/// Adds that a key makes no rule with this front.
#[tactic(auto, using(crate::proofs::Said::more_said))]
fn push_one(
    alloc: Global,
    notes: &mut Vec<Finding>,
    position: &mut Position,
    scanned: &Scanned,
    bytes: &[u8],
    rules: &[Rule],
    one: &Front,
) -> Result<(), NoMemory>
    requires { list_any (λ (rule : AnyRule). starts_with nat_eq rule.name one.now.front) rules.now ≡ false }
    ensures { OnOk result (AreSaid rules.now notes.old.items → AreSaid rules.now notes.new.items) }
{
    let fault = no_effect_of(alloc, bytes, scanned, rules, one)?;
    notes.push(position.found(scanned.key_begin_of(one.node), fault))?;
    Ok(())
}

/// Adds that a key makes no rule with this front, unless it makes one or was told before. Answers which key was told last.
fn push_once(
    alloc: Global,
    notes: &mut Vec<Finding>,
    position: &mut Position,
    scanned: &Scanned,
    bytes: &[u8],
    rules: &[Rule],
    one: &Front,
    told: Option<usize>,
) -> Result<Option<usize>, NoMemory>
    ensures { OnOk result (AreSaid rules.now notes.old.items → AreSaid rules.now notes.new.items) }
{
    if told == Some(one.node) {
        return Ok(told);
    }
    if is_made(rules, one.front.items()) {
        return Ok(told);
    }
    push_one(alloc, notes, position, scanned, bytes, rules, one)?;
    Ok(Some(one.node))
}

/// Adds the keys that make no rule, each once.
fn push_without_effect(
    alloc: Global,
    notes: &mut Vec<Finding>,
    bytes: &[u8],
    scanned: &Scanned,
    rules: &[Rule],
) -> Result<(), NoMemory>
    ensures { OnOk result (AreSaid rules.now notes.old.items → AreSaid rules.now notes.new.items) }
{
    let mut position = Position::new(bytes);
    let mut told = None;
    let fronts = fronts(alloc, bytes, scanned)?;
    for one in fronts.as_slice() {
        told = push_once(
            alloc,
            notes,
            &mut position,
            scanned,
            bytes,
            rules,
            one,
            told,
        )?;
    }
    Ok(())
}

/// What is found of the keys of a policy with these rules.
#[tactic(auto, using(crate::proofs::Said::nothing_said))]
pub fn find_notes(
    alloc: Global,
    bytes: &[u8],
    scanned: &Scanned,
    rules: &[Rule],
) -> Result<Vec<Finding>, NoMemory>
    ensures { IfOk result (λ notes. AreSaid rules.now notes.items) }
{
    let mut notes = Vec::new(alloc);
    push_noted(alloc, &mut notes, bytes, scanned, rules)?;
    push_without_effect(alloc, &mut notes, bytes, scanned, rules)?;
    Ok(notes)
}

//! Calls that a rule may grant where that is likely more than was meant.

use crate::alike::deciding_place;
use crate::calls::{text_of, with_fstype, with_node, with_path};
use crate::finding::Hint;
use crate::judging::class_at;
use crate::risks::{DEVICES, DISKS, IMAGES};
use hist_model::policy::{Cond, Rule, Verdict};
use hist_model::request::{Kind, Request, node_device};
use policy_classes::found::Class;
use policy_eval::conditions::path_of;
use std::alloc::Global;
use sys_abi::device::{makedev, split_dev};
use sys_abi::memory::NoMemory;

/// A call, and what is told of a rule if the call is granted.
#[derive(Drop)]
pub struct Candidate {
    pub hint: Hint,
    /// The rule's place.
    pub rule: usize,
    /// Whether that rule has to be the one that grants it.
    pub same: bool,
    pub request: Request,
}

/// What stands before a path that leads to the same file.
const PREFIXES: &[&'static str] = &["/", "/.", "/.."];

/// The mode of a character device, and of a block device.
const CHARACTER: u16 = 0o020_666;

const BLOCK: u16 = 0o060_666;

/// MS_PRIVATE: a flag by which mount(2) changes how a mount propagates.
const PRIVATE: u64 = 1 << 18;

/// The longest path that a call has.
const LONGEST_PATH: usize = 4095;

/// How many calls are put together with a path that is denied, for one policy.
const MOST_TRIES: usize = 20_000;

/// How many more.
#[derive(Drop)]
struct Tries {
    left: usize,
}

impl Tries {
    /// Whether there may be one more, which is then counted.
    fn takes(&mut self) -> bool {
        if self.left == 0 {
            return false;
        }
        self.left -= 1;
        true
    }
}

/// The key of LXD by which a rule was made.
pub fn key_of(name: &[u8]) -> &'static str {
    if name.starts_with(b"lxd.mknod") {
        "mknod"
    } else if name.starts_with(b"lxd.mount.fuse.") {
        "mount.fuse"
    } else if name.starts_with(b"lxd.mount.") {
        "mount.allowed"
    } else if name.starts_with(b"lxd.setxattr") {
        "setxattr"
    } else {
        "sysinfo"
    }
}

/// Whether a rule asks for a path or a directory.
fn asks_path(rule: &Rule) -> bool {
    rule.conds.items().iter().any(|cond| match cond {
        Cond::Path(_) | Cond::Under(_) => true,
        _ => false,
    })
}

/// Whether a rule asks for a device, whatever its kind.
fn asks_device_alone(rule: &Rule) -> bool {
    let conds = rule.conds.items();
    conds.iter().any(|cond| matches!(cond, Cond::Dev(_, _)))
        && !conds.iter().any(|cond| matches!(cond, Cond::Kind(_)))
}

/// Whether the policy's keys made the rule.
pub fn is_of_lxd(rule: &Rule) -> bool {
    rule.name.items().starts_with(b"lxd.")
}

/// Adds a call with other spellings of its path.
fn push_spellings(
    alloc: Global,
    found: &mut Vec<Candidate>,
    rule: usize,
    denied: &Request,
    path: &[u8],
) -> Result<(), NoMemory> {
    for prefix in PREFIXES {
        let mut spelling = Vec::from_slice(alloc, prefix.as_bytes())?;
        spelling.extend_from_slice(path)?;
        push_spelling(alloc, found, rule, denied, spelling.as_slice())?;
    }
    match path.split_first() {
        Some((_, relative)) => push_spelling(alloc, found, rule, denied, relative),
        None => Ok(()),
    }
}

/// Adds a call with this path, which any rule may grant.
fn push_spelling(
    alloc: Global,
    found: &mut Vec<Candidate>,
    rule: usize,
    denied: &Request,
    path: &[u8],
) -> Result<(), NoMemory> {
    if path.len() <= LONGEST_PATH {
        let request = with_path(alloc, denied, path)?;
        found.push(Candidate {
            hint: Hint::GoneAround,
            rule,
            same: false,
            request,
        })?;
    }
    Ok(())
}

/// Adds the calls that a rule denies by their path, as other rules grant them: what these decide, with the path that is denied.
fn push_denied(
    alloc: Global,
    found: &mut Vec<Candidate>,
    rules: &[Rule],
    classes: &[Class],
    tries: &mut Tries,
    place: usize,
    witness: &Request,
) -> Result<(), NoMemory> {
    let Some(path) = path_of(witness) else {
        return Ok(());
    };
    for class in classes {
        if class.witness.call() == witness.call()
            && grants(rules, class.old_place)
            && tries.takes()
        {
            let denied = with_path(alloc, &class.witness, path)?;
            if deciding_place(rules, &denied) == place {
                push_spellings(alloc, found, place, &denied, path)?;
            }
        }
    }
    Ok(())
}

/// Whether the rule at a place grants.
fn grants(rules: &[Rule], place: usize) -> bool {
    match rules.get(place) {
        Some(rule) => rule.verdict == Verdict::Grant,
        None => false,
    }
}

/// The mode of the other kind of device.
fn other_mode(mode: u16) -> Option<u16> {
    match Kind::of_mode(mode) {
        Kind::Chr => Some(BLOCK),
        Kind::Blk => Some(CHARACTER),
        _ => None,
    }
}

/// Whether a call makes a node of a disk.
fn is_disk(mode: u16, dev: u64) -> bool {
    let (major, _) = split_dev(node_device(dev));
    Kind::of_mode(mode) == Kind::Blk && DISKS.iter().any(|disk| *disk == major)
}

/// Adds nodes that the rule may grant: those that give the machine away, and the other kind of the device that it names.
fn push_nodes(
    alloc: Global,
    found: &mut Vec<Candidate>,
    place: usize,
    rule: &Rule,
    witness: &Request,
) -> Result<(), NoMemory> {
    let Request::Mknod { mode, dev, .. } = witness else {
        return Ok(());
    };
    if is_disk(*mode, *dev) {
        let request = witness.copied(alloc)?;
        push(found, Hint::WideDevice, place, request)?;
    }
    for device in DEVICES {
        let mode = if device.kind == Kind::Blk {
            BLOCK
        } else {
            CHARACTER
        };
        let dev = u64::from(makedev(device.major, device.minor));
        let request = with_node(alloc, witness, mode, dev)?;
        push(found, Hint::WideDevice, place, request)?;
    }
    match other_mode(*mode) {
        Some(other) if asks_device_alone(rule) => {
            let request = with_node(alloc, witness, other, *dev)?;
            push(found, Hint::BothKinds, place, request)
        }
        _ => Ok(()),
    }
}

/// Adds mounts of file systems on block devices.
fn push_images(
    alloc: Global,
    found: &mut Vec<Candidate>,
    place: usize,
    rule: &Rule,
    witness: &Request,
) -> Result<(), NoMemory> {
    match witness {
        Request::Mount { .. } if rule.via.items().is_empty() => {
            for image in IMAGES {
                let request = with_fstype(alloc, witness, image.as_bytes())?;
                push(found, Hint::RiskyType, place, request)?;
            }
            Ok(())
        }
        _ => Ok(()),
    }
}

/// Adds what LXD passes of the calls that a rule of its keys grants where no profile is named. A mount by a program is granted by
/// LXD too, whatever flags of propagation it has.
fn push_unlike(
    alloc: Global,
    found: &mut Vec<Candidate>,
    place: usize,
    rule: &Rule,
    witness: &Request,
) -> Result<(), NoMemory> {
    let mut other = witness.copied(alloc)?;
    match &mut other {
        Request::Mknod { dirfd, .. } => *dirfd = Some(3),
        Request::Mount { flags, .. } if rule.via.items().is_empty() => *flags |= PRIVATE,
        Request::SetXattr { value, .. } => *value = text_of(alloc, b"n")?,
        _ => return Ok(()),
    }
    push(found, Hint::NotAsLxd, place, other)
}

/// Adds a call that the rule itself has to grant.
fn push(
    found: &mut Vec<Candidate>,
    hint: Hint,
    rule: usize,
    request: Request,
) -> Result<(), NoMemory> {
    found.push(Candidate {
        hint,
        rule,
        same: true,
        request,
    })?;
    Ok(())
}

/// Adds the calls that a rule grants, which decides the witness.
fn push_granted(
    alloc: Global,
    found: &mut Vec<Candidate>,
    place: usize,
    rule: &Rule,
    witness: &Request,
) -> Result<(), NoMemory> {
    if !is_of_lxd(rule) {
        push_nodes(alloc, found, place, rule, witness)?;
    }
    push_images(alloc, found, place, rule, witness)
}

/// Adds, for each of LXD's keys, what LXD passes of the calls that its first rule grants.
fn push_all_unlike(
    alloc: Global,
    found: &mut Vec<Candidate>,
    rules: &[Rule],
    classes: &[Class],
) -> Result<(), NoMemory> {
    let mut key = "";
    for place in 0..rules.len() {
        let rule = &rules[place];
        if is_of_lxd(rule) && rule.verdict == Verdict::Grant && key_of(rule.name.items()) != key {
            if let Some(class) = class_at(classes, place) {
                key = key_of(rule.name.items());
                push_unlike(alloc, found, place, rule, &class.witness)?;
            }
        }
    }
    Ok(())
}

/// The calls to ask of a policy. Of each rule one call that it decides is known, if it decides any.
pub fn candidates(
    alloc: Global,
    rules: &[Rule],
    classes: &[Class],
) -> Result<Vec<Candidate>, NoMemory> {
    let mut found = Vec::new(alloc);
    push_all_unlike(alloc, &mut found, rules, classes)?;
    let mut tries = Tries { left: MOST_TRIES };
    for place in 0..rules.len() {
        let rule = &rules[place];
        if let Some(class) = class_at(classes, place) {
            let witness = &class.witness;
            match rule.verdict {
                Verdict::Deny(_) if asks_path(rule) => push_denied(
                    alloc, &mut found, rules, classes, &mut tries, place, witness,
                )?,
                Verdict::Grant => push_granted(alloc, &mut found, place, rule, witness)?,
                _ => {}
            }
        }
    }
    Ok(found)
}

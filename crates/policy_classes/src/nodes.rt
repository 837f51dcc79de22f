//! Modes and device numbers that atoms tell apart.

ghost use Rattle.std.specs.Prelude.{◌≡◌, ◌+◌, ◌==◌, [], ◌∷◌, ◌++◌, IfOk, OnOk, nat_lt};
ghost use Rattle.std.specs.List.{filter_map, list_any};
ghost use Rattle.policy_classes.specs.Chosen.{added, once_behind};
ghost use Rattle.policy_classes.specs.Fresh.{lesser};
ghost use Rattle.policy_classes.specs.Nodes.{device_asked, devices_asked, fresh_device, is_fresh_device, node_values, nodes_for, nodes_of, number_of};
ghost use Rattle.policy_classes.specs.Pending.{atoms_seen};

use crate::atoms::Atom;
use std::alloc::Global;
use sys_abi::device::makedev;
use sys_abi::memory::NoMemory;

/// The least modes of the kinds of nodes that have no devices: regular files, pipes, directories, those without a kind, and sockets
/// (inode(7)).
const PLAIN_MODES: [u16; 5] = [0, 0o010000, 0o040000, 0o030000, 0o140000];

/// Those of the kinds that have devices.
const DEVICE_MODES: [u16; 2] = [0o020000, 0o060000];

/// How many major and minor numbers there are.
const MAJORS: u32 = 4096;

const MINORS: u32 = 1_048_576;

/// The number of a device, if one of 32 bits stands for it.
fn number_of(major: u32, minor: u32) -> Option<u32>
    ensures { result ≡ number_of major minor }
{
    if major >= MAJORS {
        return None;
    }
    if minor >= MINORS {
        return None;
    }
    Some(makedev(major, minor))
}

/// The number of the device for which the atom asks.
fn device_asked(atom: &Atom) -> Option<u32>
    ensures { result ≡ device_asked atom.now }
{
    match atom {
        Atom::Dev(major, minor) => number_of(*major, *minor),
        _ => None,
    }
}

/// Whether the device number is one of these.
fn is_asked(asked: &[u32], dev: u32) -> bool
    ensures { result ≡ list_any (λ m. dev == m) asked.now }
{
    asked.iter().any(|other| dev == *other)
}

/// Adds the device number, unless it is there.
fn push_once(devices: &mut Vec<u32>, dev: u32) -> Result<(), NoMemory>
    ensures { OnOk result (devices.new.items ≡ added (λ m n. m == n) devices.old.items dev) }
{
    if is_asked(devices.as_slice(), dev) {
        return Ok(());
    }
    devices.push(dev)?;
    Ok(())
}

/// Adds the number of the device for which the atom asks, unless it is there.
fn push_device(devices: &mut Vec<u32>, atom: &Atom) -> Result<(), NoMemory>
    ensures { OnOk result (devices.new.items ≡ once_behind (λ m n. m == n) devices.old.items (filter_map device_asked (atom.now ∷ []))) }
{
    if let Some(dev) = device_asked(atom) {
        push_once(devices, dev)?;
    }
    Ok(())
}

/// The numbers of the devices for which atoms ask, each once.
fn devices_asked(alloc: Global, atoms: &[&Atom]) -> Result<Vec<u32>, NoMemory>
    ensures { IfOk result (λ devices. devices.items ≡ devices_asked (atoms_seen atoms.now)) }
{
    let mut devices = Vec::new(alloc);
    for atom in atoms {
        push_device(&mut devices, *atom)?;
    }
    Ok(devices)
}

/// The lesser of two device numbers, if no atom asks for the second.
fn lesser(asked: &[u32], best: Option<u32>, dev: u32) -> Option<u32>
    ensures { result ≡ lesser nat_lt (is_fresh_device asked.now) best dev }
{
    if is_asked(asked, dev) {
        return best;
    }
    match best {
        Some(best) if dev >= best => Some(best),
        _ => Some(dev),
    }
}

/// The lesser of a device number and the one behind another, if no atom asks for that.
fn lesser_next(asked: &[u32], best: Option<u32>, dev: u32) -> Option<u32>
    ensures { result ≡ lesser nat_lt (is_fresh_device asked.now) best (dev + 1) }
{
    match dev.checked_add(1) {
        Some(next) => lesser(asked, best, next),
        None => best,
    }
}

/// The least device number for which no atom asks.
fn fresh_device(asked: &[u32]) -> Option<u32>
    ensures { result ≡ fresh_device asked.now }
{
    let mut best = lesser(asked, None, 0);
    for dev in asked {
        best = lesser_next(asked, best, *dev);
    }
    best
}

/// Adds nodes of a mode with each of these device numbers, with and without a bit above the 32nd.
fn push_nodes(nodes: &mut Vec<(u16, u64)>, mode: u16, devices: &[u32]) -> Result<(), NoMemory>
    ensures { OnOk result (nodes.new.items ≡ nodes.old.items ++ nodes_for mode devices.now) }
{
    for dev in devices {
        nodes.push((mode, u64::from(*dev)))?;
        nodes.push((mode, u64::from(*dev) + 0x1_0000_0000))?;
    }
    Ok(())
}

/// Nodes of each kind: where the kind has no devices with the least device number, and else with each of these.
fn nodes_of(alloc: Global, devices: &[u32]) -> Result<Vec<(u16, u64)>, NoMemory>
    ensures { IfOk result (λ nodes. nodes.items ≡ nodes_of devices.now) }
{
    let mut nodes = Vec::new(alloc);
    for mode in PLAIN_MODES {
        push_nodes(&mut nodes, mode, &[0])?;
    }
    for mode in DEVICE_MODES {
        push_nodes(&mut nodes, mode, devices)?;
    }
    Ok(nodes)
}

/// The modes and device numbers that atoms tell apart.
pub(crate) fn node_values(alloc: Global, atoms: &[&Atom]) -> Result<Vec<(u16, u64)>, NoMemory>
    ensures { IfOk result (λ nodes. nodes.items ≡ node_values (atoms_seen atoms.now)) }
{
    let mut devices = devices_asked(alloc, atoms)?;
    if let Some(dev) = fresh_device(devices.as_slice()) {
        devices.push(dev)?;
    }
    nodes_of(alloc, devices.as_slice())
}

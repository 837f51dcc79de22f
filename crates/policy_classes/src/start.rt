//! The calls that stand for all.

ghost use Rattle.std.specs.Prelude.{◌≡◌, [], IfOk, false, map, None};
ghost use Rattle.policy_classes.specs.Atoms.{atoms_in};
ghost use Rattle.policy_classes.specs.Classes.{start_of};
ghost use Rattle.policy_classes.specs.Frames.{frame_seen, frames_seen};
ghost use Rattle.policy_classes.specs.Looked.{start_frame};
ghost use Rattle.policy_classes.specs.Order.{plain_path, plain_word};
ghost use Rattle.policy_classes.specs.Plain.{standing_calls};

use crate::atoms::Atom;
use crate::frames::Frame;
use crate::order::{PLAIN_PATH, PLAIN_WORD};
use crate::pending::waiting;
use hist_model::policy::Rule;
use hist_model::request::Request;
use hist_model::text::{Sequence, Text};
use std::alloc::Global;
use sys_abi::calls;
use sys_abi::memory::NoMemory;
use sys_abi::wire::AT_FDCWD;

/// The number of read(2), which stands for the calls without names.
const READ: i32 = 0;

/// The numbers of the calls that stand for all.
const STANDING: [i32; 9] = [
    READ,
    calls::CLOSE,
    calls::GETPID,
    calls::SYSINFO,
    calls::MKNOD,
    calls::MOUNT,
    calls::SETXATTR,
    calls::OPENAT,
    calls::MKNODAT,
];

/// A text of these bytes.
fn text(alloc: Global, bytes: &[u8]) -> Result<Text, NoMemory>
    ensures { IfOk result (λ t. t ≡ bytes.now) }
{
    Ok(Text::new(Vec::from_slice(alloc, bytes)?))
}

/// A node that is made.
fn start_of_node(alloc: Global, dirfd: Option<i32>) -> Result<Request, NoMemory>
    ensures { IfOk result (λ q. q ≡ Request.Mknod dirfd plain_path 0 0) }
{
    Ok(Request::Mknod {
        dirfd,
        path: text(alloc, PLAIN_PATH)?,
        mode: 0,
        dev: 0,
    })
}

/// A mount.
fn start_of_mount(alloc: Global) -> Result<Request, NoMemory>
    ensures { IfOk result (λ q. q ≡ Request.Mount plain_word plain_path plain_word [] [] 0 false) }
{
    Ok(Request::Mount {
        source: text(alloc, PLAIN_WORD)?,
        target: text(alloc, PLAIN_PATH)?,
        fstype: text(alloc, PLAIN_WORD)?,
        options: text(alloc, b"")?,
        via: text(alloc, b"")?,
        flags: 0,
        shift: false,
    })
}

/// A call of a number, before its fields are given values.
fn start_of(alloc: Global, nr: i32) -> Result<Request, NoMemory>
    ensures { IfOk result (λ q. q ≡ start_of nr) }
{
    if nr == calls::MKNOD {
        start_of_node(alloc, None)
    } else if nr == calls::MKNODAT {
        start_of_node(alloc, Some(AT_FDCWD))
    } else if nr == calls::MOUNT {
        start_of_mount(alloc)
    } else if nr == calls::SETXATTR {
        Ok(Request::SetXattr {
            path: text(alloc, PLAIN_PATH)?,
            name: text(alloc, PLAIN_WORD)?,
            value: text(alloc, b"")?,
            flags: 0,
        })
    } else if nr == calls::OPENAT {
        Ok(Request::OpenAt {
            dirfd: AT_FDCWD,
            path: text(alloc, PLAIN_PATH)?,
            flags: 0,
        })
    } else if nr == calls::SYSINFO {
        Ok(Request::Sysinfo { addr: 0 })
    } else {
        Ok(Request::Other { nr })
    }
}

/// The frame of a call of a number.
fn start_frame<'a>(
    alloc: Global,
    old: &[Rule],
    new: &[Rule],
    old_atoms: &'a [Sequence<Atom>],
    new_atoms: &'a [Sequence<Atom>],
    nr: i32,
) -> Result<Frame<'a>, NoMemory>
    requires old_atoms { old_atoms.now ≡ map atoms_in old.now }
    requires new_atoms { new_atoms.now ≡ map atoms_in new.now }
    ensures { IfOk result (λ frame. frame_seen frame ≡ start_frame old.now new.now nr) }
{
    Ok(Frame {
        request: start_of(alloc, nr)?,
        old: waiting(alloc, old, old_atoms, nr)?,
        new: waiting(alloc, new, new_atoms, nr)?,
    })
}

/// The frames of the calls that stand for all.
pub fn start_frames<'a>(
    alloc: Global,
    old: &[Rule],
    new: &[Rule],
    old_atoms: &'a [Sequence<Atom>],
    new_atoms: &'a [Sequence<Atom>],
) -> Result<Vec<Frame<'a>>, NoMemory>
    requires old_atoms { old_atoms.now ≡ map atoms_in old.now }
    requires new_atoms { new_atoms.now ≡ map atoms_in new.now }
    ensures { IfOk result (λ frames. frames_seen frames.items ≡ map (start_frame old.now new.now) standing_calls) }
{
    let mut frames = Vec::new(alloc);
    for nr in &STANDING {
        frames.push(start_frame(alloc, old, new, old_atoms, new_atoms, *nr)?)?;
    }
    Ok(frames)
}

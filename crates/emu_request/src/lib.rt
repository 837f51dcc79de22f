//! The request of a call, from its number, its arguments and the texts that were read for it (mknod(2), mount(2),
//! setxattr(2), openat(2), sysinfo(2)).
//!
//! The kernel reads a native call's texts at one moment, and a worker reads a notification's through the caller's memory;
//! from then on both work on the request alone, and nothing is read again. The definition `request` stands in the file
//! `Requests` of `hist_model`'s specs, and this layer has no state. Below stand the plain types of `hist_model` and the
//! numbers of `sys_abi`; above stand the kernel and the worker's machine.
#![tactic(auto)]

ghost use Rattle.std.specs.Prelude.{◌≡◌, get_or, drop, []};
ghost use Rattle.std.specs.Vec.Iter.{into_iter_items};
ghost use Rattle.hist_model.specs.Requests.{argument, request, base_dirfd, low_16, low_32, signed_32};

use call_table::kinds::PathBase;
use call_table::rows::base_of;
use hist_model::request::{ArgCopy, Request};
use hist_model::text::Text;
use std::alloc::Global;
use std::vec::IntoIter;
use sys_abi::calls;
use sys_abi::wire::AT_FDCWD;

/// The request of the call `nr` with these arguments. The copy has the texts of the call's plan, in its order, and is
/// moved; a text that it lacks is empty. A call that has no request of its own gives `Request::Other`.
#[tactic(auto, using(crate::proofs::Numbers::of_sysinfo, crate::proofs::Numbers::of_mknod, crate::proofs::Numbers::of_mount, crate::proofs::Numbers::of_setxattr, crate::proofs::Numbers::of_openat, crate::proofs::Numbers::of_mknodat, crate::proofs::Numbers::of_other, crate::proofs::Numbers::second, crate::proofs::Numbers::third, crate::proofs::Numbers::fourth))]
pub fn request(nr: i32, args: &[u64; 6], copy: ArgCopy) -> Request
    ensures { result ≡ request nr args.now copy.texts }
{
    let texts = copy.texts.into_items();
    let alloc = *texts.allocator();
    let mut texts = texts.into_iter();
    match nr {
        calls::SYSINFO => Request::Sysinfo { addr: args[0] },
        calls::MKNOD => Request::Mknod {
            dirfd: None,
            path: next_text(alloc, &mut texts),
            mode: low_16(args[1]),
            dev: args[2],
        },
        calls::MOUNT => Request::Mount {
            source: next_text(alloc, &mut texts),
            target: next_text(alloc, &mut texts),
            fstype: next_text(alloc, &mut texts),
            options: next_text(alloc, &mut texts),
            via: Text::new(Vec::new(alloc)),
            flags: args[3],
            shift: false,
        },
        calls::SETXATTR => Request::SetXattr {
            path: next_text(alloc, &mut texts),
            name: next_text(alloc, &mut texts),
            value: next_text(alloc, &mut texts),
            flags: low_32(args[4]),
        },
        calls::OPENAT => Request::OpenAt {
            dirfd: signed_32(args[0]),
            path: next_text(alloc, &mut texts),
            flags: low_32(args[2]),
        },
        calls::MKNODAT => Request::Mknod {
            dirfd: Some(signed_32(args[0])),
            path: next_text(alloc, &mut texts),
            mode: low_16(args[2]),
            dev: args[3],
        },
        _ => Request::Other { nr },
    }
}

/// The descriptor from which the relative paths of the call `nr` go: AT_FDCWD, which is the container's root, for a call
/// that has none; nothing for a call without paths.
#[tactic(auto, unfolding(hist_model::specs::Requests::base_dirfd))]
pub fn base_dirfd(nr: i32, args: &[u64; 6]) -> Option<i32>
    ensures { result ≡ base_dirfd nr args.now }
{
    match base_of(nr) {
        PathBase::Nowhere => None,
        PathBase::WorkingDirectory => Some(AT_FDCWD),
        PathBase::Register(register) => Some(signed_32(argument(args, register))),
    }
}

/// What stands in a register of a call, counted from 0; 0 in one that isn't there.
fn argument(args: &[u64; 6], register: u8) -> u64
    ensures { result ≡ argument args.now register }
{
    args.get(usize::from(register)).copied().unwrap_or(0)
}

/// The next text, or an empty one where none is left.
fn next_text(alloc: Global, texts: &mut IntoIter<Text>) -> Text
    ensures first { result ≡ get_or (into_iter_items texts.old) 0 [] }
    ensures rest { into_iter_items texts.new ≡ drop 1 (into_iter_items texts.old) }
{
    match texts.next() {
        Some(text) => text,
        None => Text::new(Vec::new(alloc)),
    }
}

/// The low 16 bits.
fn low_16(n: u64) -> u16
    ensures { result ≡ low_16 n }
{
    (n % 0x1_0000) as u16
}

/// The low 32 bits.
fn low_32(n: u64) -> u32
    ensures { result ≡ low_32 n }
{
    (n % 0x1_0000_0000) as u32
}

/// The low 32 bits, read as a signed number.
fn signed_32(n: u64) -> i32
    ensures { result ≡ signed_32 n }
{
    low_32(n).cast_signed()
}

//! Whether an effect asks for what its call asks for, and is made as its rule says.

ghost use Rattle.std.specs.Prelude.{◌≡◌, ◌*◌, ◌/◌, ◌%◌};
ghost use Rattle.broker_verdict.specs.Effects.{has_numbers, is_made_so, is_put_of, opens_with};

use hist_model::request::{Request, node_device};
use policy_eval::conditions::dirfd_of;
use sys_abi::wire::{Addfd, O_CLOEXEC, SECCOMP_ADDFD_FLAG_SEND, SECCOMP_ADDFD_FLAG_SETFD};

/// Whether two requests have the same numbers, and differ in their texts, or in a mount's program and shift, alone. mknod(2) is
/// mknodat(2) from AT_FDCWD, and takes 32 bits of a device.
pub fn has_numbers(asked: &Request, done: &Request) -> bool
    ensures { result ≡ has_numbers asked.now done.now }
{
    match (asked, done) {
        (
            Request::Mknod { mode, dev, .. },
            Request::Mknod {
                mode: other_mode,
                dev: other_dev,
                ..
            },
        ) => {
            dirfd_of(asked) == dirfd_of(done)
                && mode == other_mode
                && node_device(*dev) == node_device(*other_dev)
        }
        (Request::Mount { flags, .. }, Request::Mount { flags: other, .. }) => flags == other,
        (Request::SetXattr { flags, .. }, Request::SetXattr { flags: other, .. }) => flags == other,
        (
            Request::OpenAt { dirfd, flags, .. },
            Request::OpenAt {
                dirfd: other_dirfd,
                flags: other,
                ..
            },
        ) => dirfd == other_dirfd && flags == other,
        (Request::Sysinfo { addr }, Request::Sysinfo { addr: other }) => addr == other,
        (Request::Other { nr }, Request::Other { nr: other }) => nr == other,
        _ => false,
    }
}

/// Whether the request is openat(2) with this flag O_CLOEXEC, or 0 for none.
pub fn opens_with(request: &Request, cloexec: u32) -> bool
    ensures { result ≡ opens_with request.now cloexec }
{
    match request {
        Request::OpenAt { flags, .. } => cloexec_among(*flags) == cloexec,
        _ => false,
    }
}

/// The flag O_CLOEXEC among these, or 0 for none.
fn cloexec_among(flags: u32) -> u32
    ensures { result ≡ flags / 524288 % 2 * 524288 }
{
    flags & O_CLOEXEC
}

/// Whether a mount is made by the program, and with the shift, of the request that is granted; other effects have no such choice.
pub fn is_made_so(granted: &Request, done: &Request) -> bool
    ensures { result ≡ is_made_so granted.now done.now }
{
    match (granted, done) {
        (
            Request::Mount { via, shift, .. },
            Request::Mount {
                via: other_via,
                shift: other_shift,
                ..
            },
        ) => via.items() == other_via.items() && shift == other_shift,
        _ => true,
    }
}

/// Whether a request for a descriptor is for this file of the broker's, and at this number where there is one; with SEND, or
/// without it.
pub fn is_put_of(src: u32, at: Option<u32>, asked: &Addfd) -> bool
    ensures { result ≡ is_put_of src at asked.now }
{
    match at {
        None => {
            asked.srcfd == src
                && (asked.flags == 0 || asked.flags == SECCOMP_ADDFD_FLAG_SEND)
                && asked.newfd == 0
        }
        Some(at) => {
            asked.srcfd == src
                && (asked.flags == SECCOMP_ADDFD_FLAG_SETFD
                    || asked.flags == SECCOMP_ADDFD_FLAG_SETFD | SECCOMP_ADDFD_FLAG_SEND)
                && asked.newfd == at
        }
    }
}

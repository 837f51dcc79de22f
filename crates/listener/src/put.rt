//! The tests of a request for a descriptor.

ghost use Rattle.std.specs.Prelude.{◌≡◌};
ghost use Rattle.listener.specs.Puts.{reading, may_be_put, has_known_newfd_flags};

use crate::flags::AddfdFlags;
use bitflags::Flags;
use sys_abi::errno::Errno;
use sys_abi::wire::{Addfd, O_CLOEXEC};

/// Reads the structure of SECCOMP_IOCTL_NOTIF_ADDFD; `src_open` says whether its `srcfd` is open in the caller. EINVAL
/// exactly for a flag that isn't defined, for a `newfd_flags` other than 0 and `O_CLOEXEC`, and for a `newfd` other than 0
/// without `SECCOMP_ADDFD_FLAG_SETFD`; else EBADF exactly where `srcfd` isn't open.
pub fn parse_put(bytes: &[u8; 24], src_open: bool) -> Result<Addfd, Errno>
    ensures { result ≡ reading bytes.now src_open }
{
    let asked = Addfd::from_bytes(bytes);
    if !may_be_put(&asked) {
        Err(Errno::EINVAL)
    } else if src_open {
        Ok(asked)
    } else {
        Err(Errno::EBADF)
    }
}

/// The structure is one that can be asked for.
fn may_be_put(asked: &Addfd) -> bool
    ensures { result ≡ may_be_put asked.now }
{
    let Some(flags) = AddfdFlags::from_bits(asked.flags) else {
        return false;
    };
    has_known_newfd_flags(asked) && (asked.newfd == 0 || flags.contains(AddfdFlags::SETFD))
}

/// The descriptor is closed on execve(2), or not.
fn has_known_newfd_flags(asked: &Addfd) -> bool
    ensures { result ≡ has_known_newfd_flags asked.now }
{
    asked.newfd_flags == 0 || asked.newfd_flags == O_CLOEXEC
}

//! In which number an effect differs from what its call asks for.

use crate::reasons::{Case, begin_at};
use audit_log::line::LineBuffer;
use audit_log::words::push_call;
use broker_judge::called::request_without;
use hist_model::event::What;
use hist_model::request::Request;
use sys_abi::calls::{MKNODAT, MOUNT, OPENAT, SETXATTR, SYSINFO};
use sys_abi::memory::NoMemory;
use sys_abi::wire::{AT_FDCWD, O_CLOEXEC};

/// What registers say of an effect, as the call that makes it, and numbers with their names.
#[derive(Clone, Copy)]
struct Numbers {
    call: i32,
    descriptor: Option<i32>,
    mode: Option<u64>,
    device: Option<u64>,
    flags: Option<u64>,
}

/// No numbers but the call's own.
fn no_numbers(call: i32) -> Numbers {
    Numbers {
        call,
        descriptor: None,
        mode: None,
        device: None,
        flags: None,
    }
}

fn numbers_of(request: &Request) -> Numbers {
    match request {
        Request::Mknod {
            dirfd,
            mode,
            dev,
            ..
        } => Numbers {
            call: MKNODAT,
            descriptor: Some(dirfd.unwrap_or(AT_FDCWD)),
            mode: Some(u64::from(*mode)),
            device: Some(*dev % 0x1_0000_0000),
            flags: None,
        },
        Request::Mount { flags, .. } => Numbers {
            flags: Some(*flags),
            ..no_numbers(MOUNT)
        },
        Request::SetXattr { flags, .. } => Numbers {
            flags: Some(u64::from(*flags)),
            ..no_numbers(SETXATTR)
        },
        Request::OpenAt { flags, .. } => Numbers {
            flags: Some(u64::from(flags & O_CLOEXEC)),
            ..no_numbers(request.call())
        },
        Request::Sysinfo { .. } => no_numbers(SYSINFO),
        Request::Other { nr } => no_numbers(*nr),
    }
}

/// The numbers of an effect; none of another event.
fn numbers_done(what: &What) -> Option<Numbers> {
    match what {
        What::Act { request, .. } => Some(numbers_of(request.get())),
        What::Plant { .. } => Some(no_numbers(SYSINFO)),
        What::AddfdPut { asked, .. } => Some(Numbers {
            flags: Some(u64::from(asked.newfd_flags & O_CLOEXEC)),
            ..no_numbers(OPENAT)
        }),
        _ => None,
    }
}

/// Whether it is a request for a descriptor with another id than this.
fn has_other_id(what: &What, id: u64) -> bool {
    match what {
        What::AddfdPut { asked, .. } => asked.id != id,
        _ => false,
    }
}

/// The name of the first number in which two effects differ.
fn difference(mine: &Numbers, other: &Numbers) -> &'static str {
    if mine.descriptor != other.descriptor {
        "descriptor"
    } else if mine.mode != other.mode {
        "mode"
    } else if mine.device != other.device {
        "device"
    } else if mine.flags != other.flags {
        "flags"
    } else {
        "address"
    }
}

/// Adds the number in which the event differs, by the entry of its call.
pub(crate) fn push_other_request(line: &mut LineBuffer, case: &Case<'_>) -> Result<(), NoMemory> {
    let called = &case.call.called;
    let mine = numbers_of(&request_without(case.judge.alloc, called));
    let Some(other) = numbers_done(case.what) else {
        return Ok(());
    };
    begin_at(line, case, case.call.place)?;
    if mine.call != other.call {
        line.push("the call is ")?;
        push_call(line, called.nr)?;
    } else {
        line.push("another ")?;
        line.push(if has_other_id(case.what, called.id) {
            "id"
        } else {
            difference(&mine, &other)
        })?;
    }
    line.push("\n")
}

//! Descriptors that workers put into callers (SECCOMP_IOCTL_NOTIF_ADDFD).

use crate::steps::Step::{Events, First, Put, Recv, Send, Take};
use crate::steps::Told::{Count, Done, Fails, Number, Received, Returned, Waits};
use crate::steps::play;
use hist_model::event::Back;
use std::test::Fail;
use sys_abi::calls::GETPID;
use sys_abi::errno::Errno;
use sys_abi::wire::{Addfd, O_CLOEXEC, SECCOMP_ADDFD_FLAG_SEND, SECCOMP_ADDFD_FLAG_SETFD};

/// A task with a call, which may have 8 descriptors open, beside a broker that has descriptor 5 open.
const CALLER: &str = "notify getpid\nrlimit 8\nbroker 5\nprog main\ncall getpid\nend\n";

/// A request for descriptor 5 in the caller of the first call, at the lowest free number.
const ASKED: Addfd = Addfd {
    id: 1,
    flags: 0,
    srcfd: 5,
    newfd: 0,
    newfd_flags: 0,
};

/// The same, which answers the call too.
const SENT: Addfd = Addfd {
    flags: SECCOMP_ADDFD_FLAG_SEND,
    ..ASKED
};

#[test]
fn a_structure_that_says_nothing_is_no_request(rt: HostRuntime) -> Result<(), Fail> {
    let unknown = Addfd { flags: 4, ..ASKED };
    let marked = Addfd {
        newfd_flags: O_CLOEXEC + 1,
        ..ASKED
    };
    let numbered = Addfd { newfd: 7, ..ASKED };
    let steps = [
        (First, Done),
        (Recv(0), Received(1, 1, GETPID)),
        (Put(0, unknown), Fails(Errno::EINVAL)),
        (Put(0, marked), Fails(Errno::EINVAL)),
        (Put(0, numbered), Fails(Errno::EINVAL)),
        (Events, Count(3)),
    ];
    play(&rt, rt.alloc(), CALLER, &steps)
}

#[test]
fn a_source_is_open_in_the_broker(rt: HostRuntime) -> Result<(), Fail> {
    let closed = Addfd { srcfd: 6, ..ASKED };
    let steps = [
        (First, Done),
        (Recv(0), Received(1, 1, GETPID)),
        (Put(0, closed), Fails(Errno::EBADF)),
    ];
    play(&rt, rt.alloc(), CALLER, &steps)
}

#[test]
fn a_descriptor_is_for_a_call_that_was_received(rt: HostRuntime) -> Result<(), Fail> {
    let other = Addfd { id: 2, ..ASKED };
    let steps = [
        (First, Done),
        (Put(0, ASKED), Fails(Errno::EINPROGRESS)),
        (Put(0, other), Fails(Errno::ENOENT)),
    ];
    play(&rt, rt.alloc(), CALLER, &steps)
}

/// A request for this number.
fn at(newfd: u32) -> Addfd {
    Addfd {
        flags: SECCOMP_ADDFD_FLAG_SETFD,
        newfd,
        ..ASKED
    }
}

#[test]
fn a_number_is_below_the_limits(rt: HostRuntime) -> Result<(), Fail> {
    let steps = [
        (First, Done),
        (Recv(0), Received(1, 1, GETPID)),
        (Put(0, at(7)), Done),
        (First, Done),
        (Take(0), Number(7)),
        (Put(0, at(8)), Done),
        (First, Done),
        (Take(0), Fails(Errno::EBADF)),
        (Put(0, at(1048575)), Done),
        (First, Done),
        (Take(0), Fails(Errno::EBADF)),
        (Put(0, at(1048576)), Done),
        (First, Done),
        (Take(0), Fails(Errno::EMFILE)),
    ];
    play(&rt, rt.alloc(), CALLER, &steps)
}

#[test]
fn a_call_is_not_answered_beside_another_request(rt: HostRuntime) -> Result<(), Fail> {
    let steps = [
        (First, Done),
        (Recv(0), Received(1, 1, GETPID)),
        (Put(0, ASKED), Done),
        (Put(1, SENT), Fails(Errno::EBUSY)),
        (Put(1, ASKED), Done),
    ];
    play(&rt, rt.alloc(), CALLER, &steps)
}

#[test]
fn a_request_that_answers_is_the_only_answer(rt: HostRuntime) -> Result<(), Fail> {
    let steps = [
        (First, Done),
        (Recv(0), Received(1, 1, GETPID)),
        (Put(0, SENT), Done),
        (Send(0, 1, Back::Continue), Fails(Errno::EINPROGRESS)),
        (Put(1, SENT), Fails(Errno::EINPROGRESS)),
        (Take(0), Waits),
        (First, Done),
        (Take(0), Number(3)),
        (First, Returned(Back::Value(3))),
    ];
    play(&rt, rt.alloc(), CALLER, &steps)
}

#[test]
fn a_call_is_answered_again_after_a_failed_installation(rt: HostRuntime) -> Result<(), Fail> {
    let over = Addfd {
        newfd: 8,
        flags: SECCOMP_ADDFD_FLAG_SETFD + SECCOMP_ADDFD_FLAG_SEND,
        ..ASKED
    };
    let steps = [
        (First, Done),
        (Recv(0), Received(1, 1, GETPID)),
        (Put(0, over), Done),
        (First, Done),
        (Take(0), Fails(Errno::EBADF)),
        (Send(0, 1, Back::Value(7)), Done),
        (First, Returned(Back::Value(7))),
    ];
    play(&rt, rt.alloc(), CALLER, &steps)
}

//! What a receive gives (SECCOMP_IOCTL_NOTIF_RECV), and what a worker has open after it.

use crate::steps::Step::{
    Child, Events, First, HasMemory, LetGo, Open, Read, Recv, RecvUncleared, Send,
};
use crate::steps::Told::{Bytes, Count, Done, Fails, Is, Received, Waits};
use crate::steps::play;
use hist_model::event::Back;
use std::test::Fail;
use sys_abi::calls::GETPID;
use sys_abi::errno::Errno;

/// A parent and its child, each with a call.
const CALLERS: &str =
    "notify getpid\nprog child\ncall getpid\nend\nprog main\nspawn child\ncall getpid\nend\n";

#[test]
fn a_buffer_that_is_not_zero_receives_nothing(rt: HostRuntime) -> Result<(), Fail> {
    let steps = [
        (First, Done),
        (First, Done),
        (Events, Count(3)),
        (RecvUncleared(0), Fails(Errno::EINVAL)),
        (Events, Count(3)),
        (Send(0, 1, Back::Continue), Fails(Errno::EINPROGRESS)),
        (Recv(0), Received(1, 1, GETPID)),
    ];
    play(&rt, rt.alloc(), CALLERS, &steps)
}

#[test]
fn the_call_that_was_entered_first_is_received_first(rt: HostRuntime) -> Result<(), Fail> {
    let steps = [
        (First, Done),
        (Child, Done),
        (First, Done),
        (Recv(0), Received(1, 2, GETPID)),
        (Recv(0), Received(2, 1, GETPID)),
        (Recv(0), Waits),
    ];
    play(&rt, rt.alloc(), CALLERS, &steps)
}

#[test]
fn the_next_session_has_nothing_open(rt: HostRuntime) -> Result<(), Fail> {
    let steps = [
        (First, Done),
        (Child, Done),
        (First, Done),
        (Recv(0), Received(1, 2, GETPID)),
        (Open(0, 2), Done),
        (HasMemory(0), Is(true)),
        (Read(0, 0x10000, 1), Bytes(1, [0; 8])),
        (Send(0, 1, Back::Value(7)), Done),
        (LetGo(0), Done),
        (Recv(0), Received(2, 1, GETPID)),
        (HasMemory(0), Is(false)),
        (Read(0, 0x10000, 1), Fails(Errno::EFAULT)),
    ];
    play(&rt, rt.alloc(), CALLERS, &steps)
}

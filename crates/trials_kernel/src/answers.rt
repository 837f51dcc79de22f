//! Which ids are valid, and which answers are taken (SECCOMP_IOCTL_NOTIF_ID_VALID, SECCOMP_IOCTL_NOTIF_SEND).

use crate::steps::Step::{Check, First, Recv, Send};
use crate::steps::Told::{Done, Fails, Received, Returned};
use crate::steps::play;
use hist_model::event::Back;
use std::test::Fail;
use sys_abi::calls::GETPID;
use sys_abi::errno::Errno;

/// A task with a call.
const CALLER: &str = "notify getpid\nprog main\ncall getpid\nend\n";

#[test]
fn an_id_is_valid_from_the_receive_to_the_answer(rt: HostRuntime) -> Result<(), Fail> {
    let steps = [
        (First, Done),
        (Check(0, 1), Fails(Errno::ENOENT)),
        (Recv(0), Received(1, 1, GETPID)),
        (Check(0, 1), Done),
        (Send(0, 1, Back::Value(7)), Done),
        (Check(0, 1), Fails(Errno::ENOENT)),
    ];
    play(&rt, rt.alloc(), CALLER, &steps)
}

#[test]
fn no_answer_is_taken_before_the_receive(rt: HostRuntime) -> Result<(), Fail> {
    let steps = [
        (First, Done),
        (Send(0, 1, Back::Value(7)), Fails(Errno::EINPROGRESS)),
    ];
    play(&rt, rt.alloc(), CALLER, &steps)
}

#[test]
fn no_answer_is_taken_for_an_unknown_id(rt: HostRuntime) -> Result<(), Fail> {
    let steps = [
        (First, Done),
        (Recv(0), Received(1, 1, GETPID)),
        (Send(0, 0, Back::Value(7)), Fails(Errno::ENOENT)),
        (Send(0, 2, Back::Value(7)), Fails(Errno::ENOENT)),
        (Send(0, u64::MAX, Back::Value(7)), Fails(Errno::ENOENT)),
    ];
    play(&rt, rt.alloc(), CALLER, &steps)
}

#[test]
fn one_answer_is_taken(rt: HostRuntime) -> Result<(), Fail> {
    let steps = [
        (First, Done),
        (Recv(0), Received(1, 1, GETPID)),
        (Send(0, 1, Back::Value(7)), Done),
        (Send(1, 1, Back::Value(8)), Fails(Errno::EINPROGRESS)),
        (First, Returned(Back::Value(7))),
    ];
    play(&rt, rt.alloc(), CALLER, &steps)
}

//! Walks through one container, in which a call is served, and in which a task waits for its child
//! (seccomp_unotify(2), wait(2)).

use crate::steps::Step::{
    Act, Check, Child, Events, First, IsFinished, LetGo, Open, Plant, Put, Read, Recv,
    RecvUncleared, Send, SendStructure,
};
use crate::steps::Told::{Bytes, Count, Done, Fails, Is, Received, Returned, Waits};
use crate::steps::play;
use hist_model::event::Back;
use std::test::Fail;
use sys_abi::calls::{GETPID, MKNOD};
use sys_abi::errno::Errno;
use sys_abi::wire::{Addfd, Resp, SECCOMP_ADDFD_FLAG_SEND};

/// A task with a path in its memory, and a call.
const CALLER: &str = "notify getpid\nprog main\npoke 0x10000 \"/null\"\ncall getpid\nend\n";

#[test]
fn a_call_is_received_and_answered(rt: HostRuntime) -> Result<(), Fail> {
    let steps = [
        (First, Done),
        (Recv(0), Waits),
        (First, Done),
        (Recv(0), Received(1, 1, GETPID)),
        (Recv(0), Waits),
        (First, Waits),
        (Check(0, 1), Done),
        (Send(0, 1, Back::Value(7)), Done),
        (LetGo(0), Done),
        (First, Returned(Back::Value(7))),
        (IsFinished, Is(false)),
        (First, Done),
        (IsFinished, Is(true)),
        (Events, Count(9)),
    ];
    play(&rt, rt.alloc(), CALLER, &steps)
}

#[test]
fn memory_is_read_and_written(rt: HostRuntime) -> Result<(), Fail> {
    let steps = [
        (First, Done),
        (First, Done),
        (Recv(0), Received(1, 1, GETPID)),
        (Open(0, 1), Done),
        (Read(0, 0x10000, 16), Bytes(16, *b"/null\0\0\0")),
        (Read(0, 0x10001, 3), Bytes(3, *b"nul\0\0\0\0\0")),
        (Read(0, 0x1fff0, 256), Bytes(16, [0; 8])),
        (Plant(0, 0x10002), Done),
        (Read(0, 0x10000, 8), Bytes(8, *b"/n\0\0\0\0\0\0")),
    ];
    play(&rt, rt.alloc(), CALLER, &steps)
}

#[test]
fn an_effect_is_done_as_often_as_its_cap_allows(rt: HostRuntime) -> Result<(), Fail> {
    let steps = [
        (First, Done),
        (First, Done),
        (Recv(0), Received(1, 1, GETPID)),
        (Act(0), Done),
        (Act(0), Fails(Errno::EDQUOT)),
    ];
    play(&rt, rt.alloc(), CALLER, &steps)
}

/// A task that makes a node.
const DEVICE: &str =
    "notify mknod\nprog main\npoke 0x10000 \"/null\"\ncall mknod 0x10000 0o020666 259\nend\n";

/// An answer to the first call, with which it returns 0.
const ANSWER: Resp = Resp {
    id: 1,
    val: 0,
    error: 0,
    flags: 0,
};

#[test]
fn a_call_is_asked_about_in_each_of_its_states(rt: HostRuntime) -> Result<(), Fail> {
    let continued = Resp {
        val: 3,
        flags: 1,
        ..ANSWER
    };
    let unknown = Resp { flags: 2, ..ANSWER };
    let descriptor = Addfd {
        id: 1,
        flags: SECCOMP_ADDFD_FLAG_SEND,
        srcfd: 5,
        newfd: 0,
        newfd_flags: 0,
    };
    let steps = [
        (First, Done),
        (First, Done),
        (Check(0, 1), Fails(Errno::ENOENT)),
        (SendStructure(0, ANSWER), Fails(Errno::EINPROGRESS)),
        (Events, Count(5)),
        (RecvUncleared(0), Fails(Errno::EINVAL)),
        (Events, Count(5)),
        (Recv(0), Received(1, 1, MKNOD)),
        (Recv(1), Waits),
        (Events, Count(6)),
        (Open(0, 9), Fails(Errno::ESRCH)),
        (Put(0, descriptor), Fails(Errno::EBADF)),
        (Events, Count(8)),
        (SendStructure(0, continued), Fails(Errno::EINVAL)),
        (SendStructure(0, unknown), Fails(Errno::EINVAL)),
        (Events, Count(8)),
        (SendStructure(0, ANSWER), Done),
        (SendStructure(0, ANSWER), Fails(Errno::EINPROGRESS)),
        (Check(0, 1), Fails(Errno::ENOENT)),
        (First, Returned(Back::Value(0))),
        (SendStructure(0, ANSWER), Fails(Errno::ENOENT)),
    ];
    play(&rt, rt.alloc(), DEVICE, &steps)
}

/// A task whose child ends it.
const KILLED: &str =
    "prog child\nkill parent 9\nend\nprog main\nspawn child\nthread child\nwait\nwait\nend\n";

#[test]
fn a_task_waits_for_its_child(rt: HostRuntime) -> Result<(), Fail> {
    let steps = [
        (First, Done),
        (First, Done),
        (First, Waits),
        (Child, Done),
        (Child, Done),
        (Child, Waits),
        (First, Done),
        (First, Waits),
    ];
    play(&rt, rt.alloc(), KILLED, &steps)
}

//! Calls that end before they are answered: their task is interrupted, or killed (seccomp_unotify(2), signal(7)).

use crate::steps::Step::{Check, Child, First, Put, Recv, Send, Take};
use crate::steps::Told::{Done, Fails, Received};
use crate::steps::play;
use hist_model::event::Back;
use std::test::Fail;
use sys_abi::calls::GETPID;
use sys_abi::errno::Errno;
use sys_abi::wire::Addfd;

/// A task with a handler, whose child interrupts its call.
const INTERRUPTED: &str =
    "notify getpid\nbroker 5\nprog child\nkill parent 10\nend\nprog main\nhandler 10 plain\nspawn child\ncall getpid\nend\n";

/// A task whose child kills it in its call.
const KILLED: &str =
    "notify getpid\nprog child\nkill parent 9\nend\nprog main\nspawn child\ncall getpid\nend\n";

#[test]
fn nothing_is_installed_after_an_interruption(rt: HostRuntime) -> Result<(), Fail> {
    let asked = Addfd {
        id: 1,
        flags: 0,
        srcfd: 5,
        newfd: 0,
        newfd_flags: 0,
    };
    let steps = [
        (First, Done),
        (First, Done),
        (First, Done),
        (Recv(0), Received(1, 1, GETPID)),
        (Put(0, asked), Done),
        (Child, Done),
        (First, Done),
        (Check(0, 1), Fails(Errno::ENOENT)),
        (Take(0), Fails(Errno::ENOENT)),
    ];
    play(&rt, rt.alloc(), INTERRUPTED, &steps)
}

#[test]
fn the_call_of_a_killed_task_is_gone(rt: HostRuntime) -> Result<(), Fail> {
    let steps = [
        (First, Done),
        (First, Done),
        (Recv(0), Received(1, 1, GETPID)),
        (Child, Done),
        (Check(0, 1), Done),
        (First, Done),
        (Check(0, 1), Fails(Errno::ENOENT)),
        (Send(0, 1, Back::Value(7)), Fails(Errno::ENOENT)),
    ];
    play(&rt, rt.alloc(), KILLED, &steps)
}

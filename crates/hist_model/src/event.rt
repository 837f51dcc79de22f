//! Events, as a history lists them.

use crate::boxed::Boxed;
use crate::policy::Cap;
use crate::request::Request;
use crate::text::{TaskName, Text};
use sys_abi::errno::Errno;
use sys_abi::wire::{Addfd, Notif};

/// How many workers a history may have: 0 to 15, which a schedule names, and 16.
pub const WORKERS: u8 = 17;

/// Who takes a step.
#[derive(Debug, Drop)]
pub enum Actor {
    /// The script's start, which makes the first task.
    Start,
    Task(TaskName),
    /// A worker of the broker, from 0 to 16.
    Worker(u8),
    Listener,
}

/// How a task got its memory and descriptors (clone(2)).
#[derive(Clone, Copy, PartialEq, Eq, Debug)]
pub enum SpawnKind {
    New,
    /// A copy of its parent's.
    Copied,
    /// Its parent's own.
    Shared,
}

/// What a task does at a signal (sigaction(2)).
#[derive(Clone, Copy, PartialEq, Eq, Debug)]
pub enum Disposition {
    /// It ends.
    Default,
    /// It runs a handler with SA_RESTART.
    Restart,
    /// It runs a handler without SA_RESTART.
    Plain,
}

/// What the filters say of a call (seccomp(2)).
#[derive(Clone, Copy, PartialEq, Eq, Debug)]
pub enum Entered {
    Notify { id: u64 },
    Allow,
    Log,
    /// The call fails with this errno, at most 4095; 0 makes it answer 0.
    Fails(u16),
    NoSys,
    Kill,
}

/// What a call returns.
#[derive(Clone, Copy, PartialEq, Eq, Debug)]
pub enum Back {
    Value(i64),
    Fail(Errno),
    /// It runs natively.
    Continue,
}

/// What the delivery of a signal does (signal(7)).
#[derive(Clone, Copy, PartialEq, Eq, Debug)]
pub enum Delivered {
    End,
    Run,
    /// The interrupted call is entered again.
    Restart,
    /// The interrupted call answers EINTR.
    Eintr,
}

/// What happens in one event, with its answer.
#[derive(Debug, Drop)]
pub enum What {
    /// A task is made: its PID and how it came by its memory.
    Spawn {
        child: TaskName,
        answer: Result<(u32, SpawnKind), Errno>,
    },
    /// A task stores bytes.
    Poke {
        addr: u64,
        bytes: Text,
    },
    /// A task sets its disposition for a signal.
    Handler {
        sig: u8,
        disposition: Disposition,
    },
    /// A task enters a call.
    Enter {
        nr: i32,
        args: [u64; 6],
        verdict: Entered,
    },
    /// A call runs natively.
    Native {
        answer: Result<u32, Errno>,
    },
    /// A descriptor is installed for a listed call.
    Install {
        answer: Result<u32, Errno>,
    },
    /// A listed call returns.
    Resume {
        back: Back,
    },
    /// A task sends a signal.
    Signal {
        pid: u32,
        sig: u8,
        answer: Result<(), Errno>,
    },
    /// A signal is delivered to a task.
    Deliver {
        sig: u8,
        effect: Delivered,
    },
    /// A task waits for a child.
    Reap {
        answer: Result<TaskName, Errno>,
    },
    /// A task ends.
    Exit,
    /// A worker receives a notification.
    Recv {
        answer: Result<Notif, Errno>,
    },
    /// A worker opens the memory of the task that holds a PID.
    OpenMem {
        pid: u32,
        answer: Result<(), Errno>,
    },
    /// A worker opens the directory from which relative paths go.
    OpenBase {
        pid: u32,
        dirfd: i32,
        answer: Result<(), Errno>,
    },
    /// A worker asks whether an id is valid.
    Check {
        id: u64,
        answer: Result<(), Errno>,
    },
    /// A worker reads memory.
    Read {
        addr: u64,
        len: u16,
        answer: Result<Text, Errno>,
    },
    /// A worker does what the policy grants. The cap is the granting rule's limit, and isn't printed.
    Act {
        request: Boxed<Request>,
        cap: Option<Cap>,
        answer: Result<(), Errno>,
    },
    /// A worker writes the answer of sysinfo into the caller's memory.
    Plant {
        addr: u64,
        bytes: Boxed<[u8; 112]>,
        cap: Option<Cap>,
        answer: Result<(), Errno>,
    },
    /// A worker asks for a descriptor to be put into the caller.
    AddfdPut {
        asked: Addfd,
        answer: Result<(), Errno>,
    },
    /// A worker takes the number that the descriptor got.
    AddfdTake {
        answer: Result<u32, Errno>,
    },
    /// A worker answers a notification.
    Send {
        id: u64,
        back: Back,
        answer: Result<(), Errno>,
    },
    /// A worker closes what it opened for a notification.
    LetGo,
    /// A scheduled actor can't step.
    Skip,
    /// The listener is closed.
    Close,
}

/// One event: who took the step, and what it was.
#[derive(Debug, Drop)]
pub struct Event {
    pub who: Actor,
    pub what: What,
}

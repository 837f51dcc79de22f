//! What lines ask for.

use hist_model::boxed::Boxed;
use hist_model::request::Request;
use hist_model::text::{TaskName, Text};

/// What a line asks for.
#[derive(Debug, Drop)]
pub enum StepRequest {
    /// Which tasks and whether a receive can step.
    Able,
    /// The step of the task of this name.
    Task(TaskName),
    /// What a worker asks the kernel for.
    Worker {
        /// 0 to 15.
        number: u8,
        asked: Asked,
    },
    /// The report so far.
    Report,
    /// The script that plays the history so far again.
    Script,
    /// Whether the broker has mediated so far; where it is idle, also whether it has left a call waiting.
    Judge {
        idle: bool,
    },
    /// How something stands. Nothing happens by it.
    Look(Look),
    /// That the listener be closed.
    Close,
}

/// What is looked at.
#[derive(Debug, Drop)]
pub enum Look {
    /// The task that holds this PID (proc(5)).
    Pid {
        pid: u32,
    },
    /// What a descriptor of the task with this PID leads to.
    Fd {
        pid: u32,
        number: u32,
    },
    /// Where a path leads that the task with this PID would walk from this descriptor (openat(2)). A link at its end may not be
    /// followed (O_NOFOLLOW).
    Path {
        pid: u32,
        dirfd: i32,
        path: Text,
        follows: bool,
    },
    /// Whether the listener can be read and written (poll(2)).
    Listener,
}

/// A line of a schedule in which a worker of another broker has requests. A worker's number is 0 to 15.
#[derive(Debug, Drop)]
pub enum Turn {
    /// A task steps so often.
    Steps { task: TaskName, count: u32 },
    /// A worker of this project steps so often.
    Serves { worker: u8, count: u32 },
    /// What a worker of another broker asks the kernel for.
    Asks { worker: u8, asked: Asked },
}

/// What a worker asks the kernel for (seccomp_unotify(2)). The structures are their bytes in memory.
#[derive(Debug, Drop)]
pub enum Asked {
    /// SECCOMP_IOCTL_NOTIF_RECV, with this buffer. `recv` has one that is filled with zeros.
    Recv([u8; 80]),
    /// The memory of the task with this PID.
    OpenMem { pid: u32 },
    /// A descriptor of the task with this PID, or for AT_FDCWD its root, as the base of paths.
    OpenBase { pid: u32, dirfd: i32 },
    /// SECCOMP_IOCTL_NOTIF_ID_VALID.
    Check { id: u64 },
    /// Bytes of the memory that is open.
    Read { addr: u64, len: u16 },
    /// mknod(2), mknodat(2), mount(2) or setxattr(2).
    Act(Boxed<Request>),
    /// The answer of sysinfo(2), for the memory that is open.
    Plant { addr: u64, bytes: [u8; 112] },
    /// SECCOMP_IOCTL_NOTIF_ADDFD, with this structure.
    Addfd([u8; 24]),
    /// The result of the worker's request for a descriptor.
    AddfdResult,
    /// SECCOMP_IOCTL_NOTIF_SEND, with this structure.
    Send([u8; 24]),
    /// That the notification in hand be let go.
    LetGo,
}

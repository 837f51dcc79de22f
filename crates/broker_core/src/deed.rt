//! What a worker does next, and the answer to it.

ghost use Rattle.std.specs.Prelude.{◌≡◌};
ghost use Rattle.broker_core.specs.Answers.{answer_of, done_or_failed, is_let_go, is_not_yet, number_or_failed, told};

use hist_model::event::{Back, What};
use hist_model::policy::Cap;
use sys_abi::errno::Errno;
use sys_abi::wire::{Addfd, Notif};

/// What a worker does next (seccomp_unotify(2)).
#[derive(Clone, Copy, Debug)]
pub enum Deed {
    /// It receives a notification: SECCOMP_IOCTL_NOTIF_RECV.
    Recv,
    /// It opens the memory of the task that holds a PID.
    OpenMem { pid: u32 },
    /// It opens the directory from which the call's relative paths go.
    OpenBase { pid: u32, dirfd: i32 },
    /// It asks whether the notification is valid: SECCOMP_IOCTL_NOTIF_ID_VALID.
    Check { id: u64 },
    /// It reads from 1 to 256 bytes at an address.
    Read { addr: u64, len: u16 },
    /// It does what is granted in the container's tree, as often as the cap of the granting rule allows. The request is the
    /// worker's, by `Worker::take_effect`.
    Act { cap: Option<Cap> },
    /// It writes the answer of sysinfo at an address, as often as the cap of the granting rule allows. The bytes are the worker's,
    /// by `Worker::planted`.
    Plant { addr: u64, cap: Option<Cap> },
    /// It asks for a descriptor to be put into the caller: SECCOMP_IOCTL_NOTIF_ADDFD.
    AddfdPut(Addfd),
    /// It takes the number that the descriptor got.
    AddfdTake,
    /// It answers: SECCOMP_IOCTL_NOTIF_SEND.
    Send { id: u64, back: Back },
    /// It closes what it opened for the notification.
    LetGo,
}

impl Deed {
    /// It ends the session.
    pub(crate) fn is_let_go(&self) -> bool
        ensures { result ≡ is_let_go self.now }
    {
        matches!(self, Deed::LetGo)
    }
}

/// How the kernel answers a deed. Bytes are lent, since the worker copies them into room of its own.
#[derive(Clone, Copy, Debug)]
pub enum Got<'a> {
    /// A notification was received.
    Notif(Notif),
    /// The deed was done.
    Ok,
    /// These bytes were read, at least one and at most as many as were asked for.
    Bytes(&'a [u8]),
    /// The number that a descriptor got.
    Number(u32),
    /// There is no answer yet, and nothing has changed.
    NotYet,
    /// The deed failed. A receive fails with ENOENT, and a read with EFAULT.
    Fault(Errno),
}

impl Got<'_> {
    /// There is no answer yet.
    pub(crate) fn is_not_yet(&self) -> bool
        ensures { result ≡ is_not_yet (told self.now) }
    {
        matches!(self, Got::NotYet)
    }
}

/// The answer of a call of the kernel that gives nothing but that it was done.
fn done_or_fault<'a>(answer: Result<(), Errno>) -> Got<'a>
    ensures { told result ≡ done_or_failed answer }
{
    match answer {
        Ok(()) => Got::Ok,
        Err(error) => Got::Fault(error),
    }
}

/// The answer of a call that gives a descriptor's number.
fn number_or_fault<'a>(answer: Result<u32, Errno>) -> Got<'a>
    ensures { told result ≡ number_or_failed answer }
{
    match answer {
        Ok(number) => Got::Number(number),
        Err(error) => Got::Fault(error),
    }
}

/// The answer to a worker's step, as the history recorded it. Steps of others and skips have none.
pub fn answer_of(what: &What) -> Got<'_>
    ensures { told result ≡ answer_of what.now }
{
    match what {
        What::Recv { answer: Ok(notif) } => Got::Notif(*notif),
        What::Recv { answer: Err(error) } => Got::Fault(*error),
        What::OpenMem { answer, .. }
        | What::OpenBase { answer, .. }
        | What::Check { answer, .. }
        | What::Act { answer, .. }
        | What::Plant { answer, .. }
        | What::AddfdPut { answer, .. }
        | What::Send { answer, .. } => done_or_fault(*answer),
        What::Read {
            answer: Ok(bytes),
            ..
        } => Got::Bytes(bytes.items()),
        What::Read {
            answer: Err(error),
            ..
        } => Got::Fault(*error),
        What::AddfdTake { answer } => number_or_fault(*answer),
        What::LetGo => Got::Ok,
        _ => Got::NotYet,
    }
}

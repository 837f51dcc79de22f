//! What the listener keeps of a call that waits for a broker (seccomp_unotify(2)).

ghost use Rattle.std.specs.Prelude.{◌≡◌};

use crate::request::TaskRef;
use sys_abi::errno::Errno;

/// How far a listed call has come.
#[derive(Clone, Copy, PartialEq, Eq, Debug)]
pub enum State {
    /// No broker has received its notification.
    Unfetched,
    /// A broker has received it, and the call waits for an answer.
    Fetched,
    /// It was answered, or a descriptor with SECCOMP_ADDFD_FLAG_SEND is being installed for it.
    Answered,
}

/// How an answered call will return.
#[derive(Clone, Copy, PartialEq, Eq, Debug)]
pub enum Reply {
    Value(i64),
    Fail(Errno),
    /// It runs natively (SECCOMP_USER_NOTIF_FLAG_CONTINUE).
    Continue,
    /// It returns the number of the descriptor that its task installs (SECCOMP_ADDFD_FLAG_SEND).
    Installing,
}

/// A call whose notification was received.
#[derive(Clone, Copy, PartialEq, Eq, Debug)]
pub struct Fetched {
    pub id: u64,
    /// The task that waits in it.
    pub owner: TaskRef,
}

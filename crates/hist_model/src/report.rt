//! What a report tells of a call and of a session.

use crate::event::Back;
use crate::policy::Verdict;
use sys_abi::errno::Errno;

/// The outcome of a call.
#[derive(Clone, Copy, PartialEq, Eq, Debug)]
pub enum Outcome {
    /// Nothing yet.
    Open,
    /// It returned this number.
    Returned(i64),
    /// It failed with this error.
    Failed(Errno),
    /// A signal interrupted it, and it is entered again.
    Restarted,
    /// Its task ended in it.
    Ended,
}

/// What the policy makes of the arguments that a session read.
#[derive(Clone, Copy, PartialEq, Eq, Debug)]
pub enum Judged {
    /// The arguments aren't all read.
    Unfinished,
    /// Reading them failed with this error.
    Faulty(Errno),
    /// The rule at this place of the policy decides so.
    Decided(usize, Verdict),
}

/// What a session came to. A number is the place of the rule that decided.
#[derive(Clone, Copy, PartialEq, Eq, Debug)]
pub enum Finding {
    /// The caller, or its call, was gone before the arguments were found valid.
    Gone,
    /// The session ended, or the history did, before anything was decided.
    Open,
    /// The arguments couldn't be read.
    Fault,
    /// The rule grants, and had been used as often as it may.
    Spent(usize),
    Granted(usize),
    Denied(usize),
    Passed(usize),
    Injected(usize),
}

/// Whether a session's answer reached its call.
#[derive(Clone, Copy, PartialEq, Eq, Debug)]
pub enum Arrival {
    /// It did.
    Sent,
    /// The call had left the list.
    Lost,
    /// There was none.
    Unsent,
}

/// What a report tells of a session.
#[derive(Clone, Copy, PartialEq, Eq, Debug)]
pub struct Audit {
    pub finding: Finding,
    /// What was sent, or the number of the descriptor that was installed.
    pub answer: Option<Back>,
    pub arrival: Arrival,
}

//! Trials as data: the steps that tasks and workers take, and beside each what is told of it.

use crate::container::Container;
use hist_model::event::{Back, Event, What};
use listener::TakeError;
use model_kernel::RecvError;
use std::alloc::Global;
use std::process::Abort;
use std::test::Fail;
use sys_abi::errno::Errno;
use sys_abi::wire::{Addfd, Notif, Resp};

/// A step of a task or of a worker, or a look at the kernel. The first number of a worker's step is the worker's.
#[derive(Clone, Copy, Debug)]
pub(crate) enum Step {
    /// The first task's next step.
    First,
    /// The next step of its first child.
    Child,
    /// A notification is received into a buffer of zeros.
    Recv(u8),
    /// The same, but into a buffer whose last byte isn't zero.
    RecvUncleared(u8),
    /// An id is checked.
    Check(u8, u64),
    /// What a worker opens of the task with a PID is opened: its memory, and where its relative paths go from.
    Open(u8, u32),
    /// So many bytes are read, from an address on.
    Read(u8, u64, u16),
    /// Zeros are stored, from an address on.
    Plant(u8, u64),
    /// A pipe is made at `/pipe`, under a cap of one effect.
    Act(u8),
    /// A descriptor is asked for.
    Put(u8, Addfd),
    /// What came of that is taken.
    Take(u8),
    /// The call with an id is answered.
    Send(u8, u64, Back),
    /// A call is answered by this structure.
    SendStructure(u8, Resp),
    /// The worker is done with its notification.
    LetGo(u8),
    /// A look whether the worker has memory open.
    HasMemory(u8),
    /// A look whether nothing is left to do.
    IsFinished,
    /// A look at how many events there are.
    Events,
}

/// What is told of a step.
#[derive(Clone, Copy, PartialEq, Eq, Debug)]
pub(crate) enum Told {
    /// It is done, and nothing more is told of it.
    Done,
    /// It has to wait: nothing happened.
    Waits,
    /// It fails with this error.
    Fails(Errno),
    /// The id of the notification that was received, its caller's PID, and the number of the call.
    Received(u64, u32, i32),
    /// The task's call returned so.
    Returned(Back),
    /// So many bytes were read. The first eight of them; zeros stand for those that weren't read.
    Bytes(usize, [u8; 8]),
    /// The number that a descriptor got.
    Number(u32),
    /// Whether that is so at which was looked.
    Is(bool),
    /// How many there are.
    Count(usize),
}

impl Told {
    /// What is told of an answer that says no more than that it is done.
    pub(crate) fn of_answer(answer: Result<(), Errno>) -> Told {
        match answer {
            Ok(()) => Told::Done,
            Err(errno) => Told::Fails(errno),
        }
    }

    /// What is told of a task's step, which is the newest of these events.
    pub(crate) fn of_newest(events: &[Event]) -> Told {
        match events {
            [
                ..,
                Event {
                    what: What::Resume { back },
                    ..
                },
            ] => Told::Returned(*back),
            _ => Told::Done,
        }
    }

    /// What is told of a receive, with its buffer.
    pub(crate) fn of_received(received: &Result<(), RecvError>, buf: &[u8; 80]) -> Told {
        match received {
            Ok(()) => {
                let notif = Notif::from_bytes(buf);
                Told::Received(notif.id, notif.pid, notif.call.nr)
            }
            Err(RecvError::Fault(errno)) => Told::Fails(*errno),
            Err(RecvError::Empty) => Told::Waits,
        }
    }

    /// What is told of a take.
    pub(crate) fn of_taken(taken: &Result<u32, TakeError>) -> Told {
        match taken {
            Ok(number) => Told::Number(*number),
            Err(TakeError::Fault(errno)) => Told::Fails(*errno),
            Err(TakeError::Pending) => Told::Waits,
        }
    }

    /// What is told of bytes that were read.
    pub(crate) fn of_bytes(bytes: &[u8]) -> Told {
        let mut first = [0; 8];
        for (place, byte) in first.iter_mut().zip(bytes) {
            *place = *byte;
        }
        Told::Bytes(bytes.len(), first)
    }
}

/// So much is told of the step at this place of its list, which counts from 0.
fn is<R: Abort>(rt: &R, place: usize, step: Step, found: Told, told: Told) {
    assert_eq!(rt; found, told, "step {place}, {step:?}");
}

/// Takes these steps, of each of which so much is told.
fn each_is<R: Abort>(
    rt: &R,
    container: &mut Container,
    steps: &[(Step, Told)],
) -> Result<(), Fail> {
    for (place, (step, told)) in steps.iter().enumerate() {
        let found = container.step(*step)?;
        is(rt, place, *step, found, *told);
    }
    Ok(())
}

/// Takes these steps in the container that a script states, and closes its listener.
pub(crate) fn play<R: Abort>(
    rt: &R,
    alloc: Global,
    script: &str,
    steps: &[(Step, Told)],
) -> Result<(), Fail> {
    let mut container = Container::of(alloc, script)?;
    let taken = each_is(rt, &mut container, steps);
    container.close();
    taken
}

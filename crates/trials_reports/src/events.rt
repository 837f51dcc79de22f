//! Events that are added to a history: the first task's and the first worker's, for calls of mknod(2) and openat(2).

use crate::texts::text;
use hist_model::event::{Actor, Entered, Event, SpawnKind, What};
use hist_model::history::History;
use hist_model::text::{TaskName, Text};
use std::alloc::Global;
use std::test::Fail;
use sys_abi::calls::{MKNOD, OPENAT};
use sys_abi::errno::Errno;
use sys_abi::memory::NoMemory;
use sys_abi::wire::{Notif, SeccompData};

/// A call's arguments: the path at 65536, the mode of a character device, and the device 1:3.
const NULL_DEVICE: [u64; 6] = [65536, 8630, 259, 0, 0, 0];

/// The first task's name.
fn first(alloc: Global) -> Result<TaskName, NoMemory> {
    Ok(TaskName::new([0].to_vec(alloc)?))
}

/// Adds an event.
pub fn add(history: &mut History, who: Actor, what: What) -> Result<(), Fail> {
    history.ready(1)?;
    history.push(Event { who, what });
    Ok(())
}

/// A history in which the first task starts.
pub fn started(alloc: Global) -> Result<History, Fail> {
    let mut history = History::new(alloc);
    let spawn = What::Spawn {
        child: first(alloc)?,
        answer: Ok((1, SpawnKind::New)),
    };
    add(&mut history, Actor::Start, spawn)?;
    Ok(history)
}

/// Adds a step of the first task.
pub fn task(history: &mut History, alloc: Global, what: What) -> Result<(), Fail> {
    add(history, Actor::Task(first(alloc)?), what)
}

/// Adds a step of the first worker.
pub fn worker(history: &mut History, what: What) -> Result<(), Fail> {
    add(history, Actor::Worker(0), what)
}

/// The first task's notification for a call with this id.
fn notification(id: u64, nr: i32, args: [u64; 6]) -> Notif {
    Notif {
        id,
        pid: 1,
        flags: 0,
        call: SeccompData {
            nr,
            arch: 0xc000_003e,
            ip: 0,
            args,
        },
    }
}

/// Adds a call with an id, and that the worker receives its notification.
fn call(
    history: &mut History,
    alloc: Global,
    id: u64,
    nr: i32,
    args: [u64; 6],
) -> Result<(), Fail> {
    let verdict = Entered::Notify { id };
    task(history, alloc, What::Enter { nr, args, verdict })?;
    let answer = Ok(notification(id, nr, args));
    worker(history, What::Recv { answer })
}

/// Adds an openat of the path with this id.
pub fn open(history: &mut History, alloc: Global, id: u64) -> Result<(), Fail> {
    call(history, alloc, id, OPENAT, [0, 65536, 0, 0, 0, 0])
}

/// A task that stores a path and calls mknod, and a worker that receives the call's notification.
pub fn asked(alloc: Global) -> Result<History, Fail> {
    let mut history = started(alloc)?;
    let bytes = text(alloc, b"/null\0")?;
    task(&mut history, alloc, What::Poke { addr: 65536, bytes })?;
    call(&mut history, alloc, 1, MKNOD, NULL_DEVICE)?;
    Ok(history)
}

/// A read of the path.
pub fn read(answer: Result<Text, Errno>) -> What {
    What::Read {
        addr: 65536,
        len: 256,
        answer,
    }
}

/// Adds a check of an id, which is valid.
pub fn check(history: &mut History, id: u64) -> Result<(), Fail> {
    worker(history, What::Check { id, answer: Ok(()) })
}

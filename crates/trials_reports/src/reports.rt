//! The report of a history with injected descriptors, compared with one that was worked out by hand.

use crate::events::{check, open, read, started, task, worker};
use crate::texts::text;
use audit_log::journal::write_journal;
use audit_log::report::write_rest;
use hist_model::event::{Back, Delivered, Disposition, What};
use hist_model::history::History;
use io_edge::memory::MemSink;
use policy_reader::read_policy;
use std::alloc::Global;
use std::test::Fail;
use sys_abi::errno::Errno;
use sys_abi::wire::Addfd;

/// Asks for a descriptor, for a call that is entered and received first.
fn ask(history: &mut History, alloc: Global, id: u64) -> Result<(), Fail> {
    open(history, alloc, id)?;
    check(history, id)?;
    worker(history, read(Ok(text(alloc, b"/null\0")?)))?;
    check(history, id)?;
    let asked = Addfd {
        id,
        flags: 2,
        srcfd: 5,
        newfd: 0,
        newfd_flags: 0,
    };
    let answer = Ok(());
    worker(history, What::AddfdPut { asked, answer })
}

/// Adds a call that gets a descriptor.
fn add_injected(history: &mut History, alloc: Global) -> Result<(), Fail> {
    ask(history, alloc, 1)?;
    task(history, alloc, What::Install { answer: Ok(3) })?;
    worker(history, What::AddfdTake { answer: Ok(3) })?;
    worker(history, What::LetGo)?;
    let back = Back::Value(3);
    task(history, alloc, What::Resume { back })
}

/// Adds a call that is interrupted before it gets a descriptor.
fn add_interrupted(history: &mut History, alloc: Global) -> Result<(), Fail> {
    ask(history, alloc, 2)?;
    let signal = What::Signal {
        pid: 1,
        sig: 10,
        answer: Ok(()),
    };
    task(history, alloc, signal)?;
    let effect = Delivered::Eintr;
    task(history, alloc, What::Deliver { sig: 10, effect })?;
    let answer = Err(Errno::ENOENT);
    worker(history, What::AddfdTake { answer })?;
    worker(history, What::LetGo)
}

/// A call that gets a descriptor, one that is interrupted before, and one whose descriptor is installed before the worker took its number.
fn injected(alloc: Global) -> Result<History, Fail> {
    let mut history = started(alloc)?;
    let disposition = Disposition::Plain;
    task(
        &mut history,
        alloc,
        What::Handler {
            sig: 10,
            disposition,
        },
    )?;
    add_injected(&mut history, alloc)?;
    add_interrupted(&mut history, alloc)?;
    ask(&mut history, alloc, 3)?;
    task(&mut history, alloc, What::Install { answer: Ok(4) })?;
    Ok(history)
}

#[test]
fn tells_lost_and_installed(rt: HostRuntime) -> Result<(), Fail> {
    let alloc = rt.alloc();
    let policy = read_policy(
        alloc,
        b"{\"rules\": [{\"name\": \"feed\", \"call\": \"openat\", \"when\": {\"path\": \"/null\"}, \"then\": {\"inject\": 5}}]}",
    )?;
    let history = injected(alloc)?;
    let mut journal = MemSink::new(alloc, 4096, Vec::new(alloc))?;
    write_journal(alloc, &history, &mut journal)?;
    let mut out = MemSink::new(alloc, 4096, Vec::new(alloc))?;
    write_rest(alloc, &policy, &history, &mut out)?;
    let want = "calls 3
2 t0 pid=1 openat 3
12 t0 pid=1 openat EINTR
22 t0 pid=1 openat open
audit 3
3 w0 id=1 openat rule=feed verdict=inject answer=3 reply=sent
13 w0 id=2 openat rule=feed verdict=inject answer=- reply=lost
23 w0 id=3 openat rule=feed verdict=inject answer=4 reply=sent
summary events=29 calls=3 notified=3 answered=2 granted=0 denied=0 passed=0 injected=3 faults=0 gone=0 lost=1
";
    assert_eq!(rt; out.taken(), want.as_bytes());
    Ok(())
}

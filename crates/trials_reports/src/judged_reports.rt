//! What LXD's rules for device nodes say of a session, by what was read in it.

use crate::events::{add, asked, check, read, worker};
use crate::texts::text;
use audit_log::tables::Tables;
use hist_model::event::Actor;
use hist_model::history::History;
use hist_model::policy::Policy;
use hist_model::report::Finding;
use policy_reader::read_policy;
use std::alloc::Global;
use std::test::Fail;
use sys_abi::errno::Errno;

/// Adds a check of the first call, a read that has an error which no read has, and another worker's read: both count for nothing.
fn checked(alloc: Global) -> Result<History, Fail> {
    let mut history = asked(alloc)?;
    check(&mut history, 1)?;
    worker(&mut history, read(Err(Errno::EPERM)))?;
    add(&mut history, Actor::Worker(1), read(Err(Errno::EFAULT)))?;
    Ok(history)
}

/// What the first session came to.
fn finding(alloc: Global, policy: &Policy, history: &History) -> Result<Option<Finding>, Fail> {
    let tables = Tables::of(alloc, policy, history)?;
    match tables.sessions.first() {
        Some(session) => Ok(Some(session.finding())),
        None => Ok(None),
    }
}

#[test]
fn judges_what_was_read(rt: HostRuntime) -> Result<(), Fail> {
    let alloc = rt.alloc();
    let policy = read_policy(
        alloc,
        b"{\"config\":{\"security.syscalls.intercept.mknod\":\"true\"}}",
    )?;
    let mut unread = checked(alloc)?;
    check(&mut unread, 1)?;
    assert_eq!(rt; finding(alloc, &policy, &unread)?, Some(Finding::Open));
    let mut whole = checked(alloc)?;
    worker(&mut whole, read(Ok(text(alloc, b"/null\0")?)))?;
    check(&mut whole, 1)?;
    assert_eq!(rt; finding(alloc, &policy, &whole)?, Some(Finding::Granted(3)));
    let mut unmapped = checked(alloc)?;
    worker(&mut unmapped, read(Err(Errno::EFAULT)))?;
    check(&mut unmapped, 1)?;
    assert_eq!(rt; finding(alloc, &policy, &unmapped)?, Some(Finding::Fault));
    Ok(())
}

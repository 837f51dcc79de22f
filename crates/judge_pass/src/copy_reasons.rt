//! Why an effect rests on no good copy, or goes from another directory.

use crate::calls::Call;
use crate::reasons::{Case, begin_at, is_worker, push_at, push_check};
use crate::weak_bytes::{copy_by, plan_of, push_byte, weakest};
use crate::words::text_name;
use arg_capture::Plan;
use audit_log::line::LineBuffer;
use audit_log::words::{push_errno, push_name};
use broker_judge::called::texts_of;
use broker_judge::copies::Copied;
use broker_judge::reads::Worth;
use broker_judge::texts::fits_part;
use emu_request::base_dirfd;
use hist_model::event::{Actor, Event, What};
use hist_model::text::{TaskName, Text};
use sys_abi::memory::NoMemory;

/// The first text that its part can't have.
fn misfit(plan: Plan, texts: &[Text]) -> Option<usize> {
    let mut parts = plan;
    for at in 0..texts.len() {
        if let Some(part) = parts.first() {
            if !fits_part(&part, texts[at].items()) {
                return Some(at);
            }
            parts.drop_first();
        }
    }
    None
}

/// The first text of an act that its call can't have.
fn misfit_of_act(case: &Case<'_>) -> Result<Option<usize>, NoMemory> {
    match case.what {
        What::Act { request, .. } => {
            let texts = texts_of(case.judge.alloc, request.get())?;
            Ok(misfit(plan_of(case.call), texts.as_slice()))
        }
        _ => Ok(None),
    }
}

/// The fault of the copy of a request for a descriptor, by reads of any memory.
fn fault_of_copy(case: &Case<'_>) -> Result<Copied, NoMemory> {
    match case.what {
        What::AddfdPut { .. } => copy_by(case, Worth::Foreign),
        _ => Ok(Copied::Missing),
    }
}

/// Adds the byte that no read has, or for a descriptor the fault of the copy.
fn push_lack(line: &mut LineBuffer, case: &Case<'_>) -> Result<(), NoMemory> {
    if let Copied::Faulty(errno) = fault_of_copy(case)? {
        line.push("the copy has the fault ")?;
        return push_errno(line, errno);
    }
    let weak = weakest(case)?;
    push_byte(line, case.call, weak.part, weak.byte)
}

/// Adds what of the texts wasn't read, or the text that the call can't have.
pub(crate) fn push_unread(line: &mut LineBuffer, case: &Case<'_>) -> Result<(), NoMemory> {
    line.push("  ")?;
    match misfit_of_act(case)? {
        Some(part) => {
            line.push("the call has no such ")?;
            line.push(text_name(case.call.called.nr, part))?;
        }
        None => push_lack(line, case)?,
    }
    line.push("\n")?;
    push_at(line, case, case.seat.received_at, "since here")
}

/// Adds whose memory that of a group is.
fn push_whose(line: &mut LineBuffer, case: &Case<'_>, group: Option<u32>) -> Result<(), NoMemory> {
    let tasks = case.judge.tasks.as_slice();
    for task in 0..tasks.len() {
        if Some(tasks[task].group) == group {
            if let Ok(ordinal) = u32::try_from(task) {
                line.push("the memory of t")?;
                let name = TaskName::of(case.judge.alloc, case.kernel.name_of(ordinal))?;
                return push_name(line, &name);
            }
        }
    }
    line.push("no memory that is open")
}

/// Adds the weakest byte, by the read that has it, with whose memory that was if it is wanted.
fn push_weakest(line: &mut LineBuffer, case: &Case<'_>, tells_whose: bool) -> Result<(), NoMemory> {
    let weak = weakest(case)?;
    let Some(read) = weak.read else {
        return Ok(());
    };
    let Some((place, group)) = case.seat.read_at.get(read) else {
        return Ok(());
    };
    begin_at(line, case, *place)?;
    push_byte(line, case.call, weak.part, weak.byte)?;
    if tells_whose {
        line.push(", from ")?;
        push_whose(line, case, Some(*group))?;
    }
    line.push("\n")
}

/// Where a worker has last opened a memory.
fn memory_opened_at(case: &Case<'_>) -> usize {
    let mut found = 0;
    for place in 0..case.before.len() {
        let event = &case.before[place];
        if is_worker(&event.who, case.worker)
            && matches!(event.what, What::OpenMem { answer: Ok(()), .. })
        {
            found = place;
        }
    }
    found
}

/// Adds the byte that was read in another memory than the caller's, or the memory that a plant writes into.
pub(crate) fn push_other_memory(line: &mut LineBuffer, case: &Case<'_>) -> Result<(), NoMemory> {
    match case.what {
        What::Plant { .. } => {
            begin_at(line, case, memory_opened_at(case))?;
            push_whose(line, case, case.seat.memory)?;
            line.push("\n")
        }
        _ => push_weakest(line, case, true),
    }
}

/// Whether a task takes its call off the list.
fn leaves(event: &Event, name: &[u32]) -> bool {
    match &event.who {
        Actor::Task(who) => {
            who.items() == name && matches!(event.what, What::Resume { .. } | What::Deliver { .. })
        }
        _ => false,
    }
}

/// Where a call has left the list.
fn left_at(case: &Case<'_>, call: &Call) -> Option<usize> {
    let name = case.kernel.name_of(call.caller);
    for place in call.place..case.before.len() {
        if leaves(&case.before[place], name) {
            return Some(place);
        }
    }
    None
}

/// Adds where the call left the list, and the byte that was read behind that.
pub(crate) fn push_stale(line: &mut LineBuffer, case: &Case<'_>) -> Result<(), NoMemory> {
    push_left(line, case)?;
    push_weakest(line, case, false)
}

/// Adds where the call left the list.
fn push_left(line: &mut LineBuffer, case: &Case<'_>) -> Result<(), NoMemory> {
    match left_at(case, case.call) {
        Some(place) => push_at(line, case, place, "here the call left the list"),
        None => Ok(()),
    }
}

/// Adds the last good check, and the byte that was read behind it; or the directory that no check follows.
pub(crate) fn push_unchecked(line: &mut LineBuffer, case: &Case<'_>) -> Result<(), NoMemory> {
    let weak = weakest(case)?;
    if weak.read.is_none() && case.seat.is_checked && case.seat.base_worth == Worth::Fresh {
        return push_at(
            line,
            case,
            base_opened_at(case),
            "no check of the directory that was opened here",
        );
    }
    push_check(line, case, "no check since here")?;
    push_weakest(line, case, false)
}

/// Where a worker has last opened a base.
fn base_opened_at(case: &Case<'_>) -> usize {
    let mut found = 0;
    for place in 0..case.before.len() {
        let event = &case.before[place];
        if is_worker(&event.who, case.worker)
            && matches!(event.what, What::OpenBase { answer: Ok(()), .. })
        {
            found = place;
        }
    }
    found
}

/// Adds why the seat's directory isn't the call's: none was opened, or it was opened for another call, or when this one was no longer
/// listed, or the call's descriptor leads elsewhere.
pub(crate) fn push_other_base(line: &mut LineBuffer, case: &Case<'_>) -> Result<(), NoMemory> {
    let received_at = case.seat.received_at;
    if case.seat.base.is_none() {
        return push_at(
            line,
            case,
            received_at,
            "no directory was opened since here",
        );
    }
    let opened_at = base_opened_at(case);
    if opened_at < received_at {
        return push_at(
            line,
            case,
            received_at,
            "the directory that it has was opened for another call, before this",
        );
    }
    if case.seat.base_worth == Worth::Stale {
        push_left(line, case)?;
        return push_at(line, case, opened_at, "the directory was opened here");
    }
    push_elsewhere(line, case, opened_at)
}

/// Adds that the call's descriptor leads to another directory than the one that was opened at a place.
fn push_elsewhere(
    line: &mut LineBuffer,
    case: &Case<'_>,
    opened_at: usize,
) -> Result<(), NoMemory> {
    begin_at(line, case, opened_at)?;
    line.push("the call's descriptor ")?;
    if let Some(dirfd) = base_dirfd(case.call.called.nr, &case.call.called.args) {
        line.push_signed(i64::from(dirfd))?;
    }
    line.push(" leads elsewhere\n")
}

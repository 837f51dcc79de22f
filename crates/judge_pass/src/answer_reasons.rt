//! Why an answer isn't what the policy says, or what came of an effect.

use crate::done::Done;
use crate::made_texts::{are_answered, whole_copies};
use crate::policy_reasons::push_said;
use crate::reasons::{Case, begin_at, is_worker, push_at, push_check, push_effect};
use crate::told::{have_same_registers, is_open, shares_texts};
use crate::weak_bytes::{copy_by, missing, plan_of, push_byte};
use audit_log::line::LineBuffer;
use audit_log::words::push_errno;
use broker_judge::called::{decide_with, request_without};
use broker_judge::copies::Copied;
use broker_judge::reads::Worth;
use broker_judge::registers::by_registers;
use hist_model::event::{Back, What};
use hist_model::policy::Verdict;
use hist_model::text::{Sequence, Text};
use sys_abi::memory::NoMemory;

/// Where the worker has first sent an answer since its receive.
fn answered_at(case: &Case<'_>) -> Option<usize> {
    for place in case.seat.received_at..case.before.len() {
        let event = &case.before[place];
        if is_worker(&event.who, case.worker) && matches!(event.what, What::Send { .. }) {
            return Some(place);
        }
    }
    None
}

/// Adds the answer before an effect.
pub(crate) fn push_answer(line: &mut LineBuffer, case: &Case<'_>) -> Result<(), NoMemory> {
    match answered_at(case) {
        Some(place) => push_at(line, case, place, "the answer"),
        None => Ok(()),
    }
}

/// Adds the first answer: one that was sent, or a request for a descriptor.
pub(crate) fn push_first_answer(line: &mut LineBuffer, case: &Case<'_>) -> Result<(), NoMemory> {
    match answered_at(case) {
        Some(place) => push_at(line, case, place, "the first one"),
        None => push_effect(line, case, "the first one"),
    }
}

/// Adds the id of the call in hand.
pub(crate) fn push_own_id(line: &mut LineBuffer, case: &Case<'_>) -> Result<(), NoMemory> {
    begin_at(line, case, case.seat.received_at)?;
    line.push("the call in hand has the id ")?;
    line.push_number(case.call.called.id)?;
    line.push("\n")
}

/// Adds what a copy lacks that a good check follows.
pub(crate) fn push_uncaused(line: &mut LineBuffer, case: &Case<'_>) -> Result<(), NoMemory> {
    let (part, byte) = missing(case.seat.reads.as_slice(), Worth::Valid, plan_of(case.call));
    line.push("  ")?;
    push_byte(line, case.call, part, byte)?;
    line.push(" is missing\n")?;
    push_check(line, case, "no good check of this call since here")
}

/// Whether a rule that decides by registers says nothing of faults: it grants.
fn is_granting(said: &Option<(usize, Verdict)>) -> bool {
    match said {
        Some((_rule, verdict)) => matches!(verdict, Verdict::Grant | Verdict::Inject { .. }),
        None => true,
    }
}

/// Adds what the policy says of the call in hand.
pub(crate) fn push_says(line: &mut LineBuffer, case: &Case<'_>) -> Result<(), NoMemory> {
    let alloc = case.judge.alloc;
    let called = &case.call.called;
    let said = by_registers(case.policy, &request_without(alloc, called));
    line.push("  ")?;
    match copy_by(case, Worth::Valid)? {
        Copied::Faulty(errno) if is_granting(&said) => {
            line.push("the copy has the fault ")?;
            push_errno(line, errno)?;
        }
        Copied::Whole(texts) => {
            let decided = decide_with(alloc, case.policy, called, texts.as_slice())?;
            push_said(line, case.policy, decided.rule, &decided.verdict)?;
        }
        _ => {
            if let Some((rule, verdict)) = &said {
                push_said(line, case.policy, *rule, verdict)?;
            }
        }
    }
    line.push("\n")
}

/// Adds the effect for which the call was passed, or what the policy says of the call.
pub(crate) fn push_passed(line: &mut LineBuffer, case: &Case<'_>) -> Result<(), NoMemory> {
    match case.seat.effect {
        Some(_) => push_effect(line, case, "this was done for the call"),
        None => push_says(line, case),
    }
}

/// Adds the effect that has not succeeded, or that there was none.
pub(crate) fn push_undone(line: &mut LineBuffer, case: &Case<'_>) -> Result<(), NoMemory> {
    match case.seat.effect {
        Some(_) => push_effect(line, case, "this has not succeeded"),
        None => push_at(
            line,
            case,
            case.seat.received_at,
            "there was no effect since here",
        ),
    }
}

/// The number that an effect gave, if it is known and has succeeded.
fn number_given(case: &Case<'_>, done: &Done) -> Option<u32> {
    match &case.before.get(done.place)?.what {
        What::Act { answer: Ok(()), .. } | What::Plant { answer: Ok(()), .. } => Some(0),
        What::AddfdPut { answer: Ok(()), .. } => match done.put.as_ref()?.installed {
            Some(Ok(number)) => Some(number),
            _ => None,
        },
        _ => None,
    }
}

/// The seat's own effect and the number that it gave, if it has succeeded.
fn own_number(case: &Case<'_>) -> Option<(usize, u32)> {
    let done = case.judge.done.get(case.seat.effect?)?;
    Some((done.place, number_given(case, done)?))
}

/// The effect for an earlier call and the number that it gave, if its result may be told to the call in hand for one of these lists of
/// texts.
fn earlier_number(
    case: &Case<'_>,
    effect: usize,
    all: &[Sequence<Text>],
) -> Result<Option<(usize, u32)>, NoMemory> {
    let Some(done) = case.judge.done.get(effect) else {
        return Ok(None);
    };
    let (Some(earlier), Some(event)) = (
        case.judge.calls.rows.get(done.call),
        case.before.get(done.place),
    ) else {
        return Ok(None);
    };
    if is_open(done, earlier, case.number)
        && have_same_registers(&case.call.called, &earlier.called)
        && shares_texts(case.judge.alloc, done, &event.what, all)?
    {
        return Ok(match number_given(case, done) {
            Some(number) => Some((done.place, number)),
            None => None,
        });
    }
    Ok(None)
}

/// The oldest effect for an earlier call whose number may be told, by its place, with the number.
fn remembered_number(case: &Case<'_>) -> Result<Option<(usize, u32)>, NoMemory> {
    let Some(task) = case.judge.tasks.get(case.call.caller as usize) else {
        return Ok(None);
    };
    if !are_answered(case.seat.reads.as_slice()) {
        return Ok(None);
    }
    let all = whole_copies(case.judge.alloc, case.seat, &case.call.called, Worth::Valid)?;
    for effect in task.untold.as_slice() {
        if let Some(found) = earlier_number(case, *effect, all.as_slice())? {
            return Ok(Some(found));
        }
    }
    Ok(None)
}

/// Adds the effect whose number may be told, with that.
fn push_number(line: &mut LineBuffer, case: &Case<'_>) -> Result<(), NoMemory> {
    let found = match own_number(case) {
        Some(own) => Some(own),
        None => remembered_number(case)?,
    };
    let Some((place, number)) = found else {
        return Ok(());
    };
    begin_at(line, case, place)?;
    line.push("its result is ")?;
    line.push_number(u64::from(number))?;
    line.push("\n")
}

/// Adds the effect whose outcome is another one.
pub(crate) fn push_outcome(line: &mut LineBuffer, case: &Case<'_>) -> Result<(), NoMemory> {
    match case.what {
        What::Send {
            back: Back::Value(_),
            ..
        } => push_number(line, case),
        _ => push_effect(line, case, "its result is another one"),
    }
}

//! The part of a key that tells what a worker was told in its session.

ghost use Rattle.std.specs.Prelude.{◌≡◌, ◌++◌, ◌&&◌, OnOk, not, reverse, true};
ghost use Rattle.broker_core.specs.Answers.{answer_of, told};
ghost use Rattle.hist_model.specs.Kinds.{skips, starts};
ghost use Rattle.hist_model.specs.Legal.{is_open_session};
ghost use Rattle.hist_model.specs.Look.{is_worker};
ghost use Rattle.hist_model.specs.Sessions.{session};
ghost use Rattle.key_bytes.specs.Parts.{list_part, number_part};
ghost use Rattle.explorer.specs.SessionKeys.{answer_part, call_part, notif_part, step_part, steps_part};

use broker_core::deed::{Got, answer_of};
use hist_model::event::{Actor, Event, What};
use key_bytes::{push_flag, push_number, push_signed, push_text};
use sys_abi::memory::NoMemory;
use sys_abi::wire::{Notif, SeccompData};

/// Adds the arguments of a call.
fn push_args(key: &mut Vec<u8>, args: &[u64]) -> Result<(), NoMemory>
    ensures { OnOk result (key.new.items ≡ key.old.items ++ list_part number_part args.now) }
{
    push_number(key, args.len() as u64)?;
    for arg in args {
        push_number(key, *arg)?;
    }
    Ok(())
}

/// Adds a call.
fn push_call(key: &mut Vec<u8>, call: &SeccompData) -> Result<(), NoMemory>
    ensures { OnOk result (key.new.items ≡ key.old.items ++ call_part call.now) }
{
    push_signed(key, i64::from(call.nr))?;
    push_number(key, u64::from(call.arch))?;
    push_number(key, call.ip)?;
    push_args(key, &call.args)
}

/// Adds a notification.
fn push_notif(key: &mut Vec<u8>, notif: &Notif) -> Result<(), NoMemory>
    ensures { OnOk result (key.new.items ≡ key.old.items ++ notif_part notif.now) }
{
    push_number(key, notif.id)?;
    push_number(key, u64::from(notif.pid))?;
    push_number(key, u64::from(notif.flags))?;
    push_call(key, &notif.call)
}

/// Adds what a worker was told.
fn push_told(key: &mut Vec<u8>, got: &Got<'_>) -> Result<(), NoMemory>
    ensures { OnOk result (key.new.items ≡ key.old.items ++ answer_part (told got.now)) }
{
    match got {
        Got::Notif(notif) => {
            push_number(key, 0)?;
            push_notif(key, notif)
        }
        Got::Ok => push_number(key, 1),
        Got::Bytes(bytes) => {
            push_number(key, 2)?;
            push_text(key, bytes)
        }
        Got::Number(number) => {
            push_number(key, 3)?;
            push_number(key, u64::from(*number))
        }
        Got::NotYet => push_number(key, 4),
        Got::Fault(error) => {
            push_number(key, 5)?;
            push_number(key, u64::from(error.number()))
        }
    }
}

/// Whether an event is a step of a worker.
fn is_step_of(event: &Event, worker: u8) -> bool
    ensures { result ≡ is_worker event.now.who worker && not (skips event.now.what) }
{
    match event.who {
        Actor::Worker(number) => number == worker && !matches!(event.what, What::Skip),
        _ => false,
    }
}

/// Whether a session begins with a step.
fn starts(what: &What) -> bool
    ensures { result ≡ starts what.now }
{
    matches!(what, What::Recv { answer: Ok(_) })
}

/// Adds a step, and what the worker was told by it.
fn push_step(key: &mut Vec<u8>, what: &What) -> Result<(), NoMemory>
    ensures { OnOk result (key.new.items ≡ key.old.items ++ step_part what.now) }
{
    push_flag(key, true)?;
    push_told(key, &answer_of(what))
}

/// Adds what a worker was told in its session, which is open, the newest answer first. The events come with the oldest first.
pub(crate) fn push_session(key: &mut Vec<u8>, events: &[Event], worker: u8) -> Result<(), NoMemory>
    requires { is_open_session (session (reverse events.now) worker) ≡ true }
    ensures { OnOk result (key.new.items ≡ key.old.items ++ steps_part (session (reverse events.now) worker)) }
{
    let mut left = events.len();
    'steps: while left > 0 {
        let event = &events[left - 1];
        left -= 1;
        if !is_step_of(event, worker) {
            continue;
        }
        push_step(key, &event.what)?;
        if starts(&event.what) {
            return push_flag(key, false);
        }
    }
    push_flag(key, false)
}

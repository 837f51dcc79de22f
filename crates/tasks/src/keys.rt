//! The parts of a table's key.

ghost use Rattle.std.specs.Option.{option_copied};
ghost use Rattle.std.specs.Prelude.{◌≡◌, ◌++◌, OnOk};
ghost use Rattle.key_bytes.specs.Parts.{flag_part, list_part, number_part, option_part};
ghost use Rattle.tasks.specs.Keys.{by_signal_part, call_part, disposition_code, disposition_part, member_part, progress_part};
ghost use Rattle.tasks.specs.Table.{member};

use crate::row::{EnteredCall, Progress, Task};
use crate::signals::BySignal;
use hist_model::event::Disposition;
use key_bytes::{push_flag, push_number, push_numbers, push_option, push_signed};
use sys_abi::memory::NoMemory;

/// Adds the ordinal of a task that there may be.
fn push_ordinal(key: &mut Vec<u8>, ordinal: Option<u32>) -> Result<(), NoMemory>
    ensures { OnOk result (key.new.items ≡ key.old.items ++ option_part number_part ordinal) }
{
    match ordinal {
        None => push_option(key, None),
        Some(ordinal) => push_option(key, Some(u64::from(ordinal))),
    }
}

/// Adds the children of a task, of which some weren't made.
fn push_children(key: &mut Vec<u8>, children: &[Option<u32>]) -> Result<(), NoMemory>
    ensures { OnOk result (key.new.items ≡ key.old.items ++ list_part (option_part number_part) children.now) }
{
    push_number(key, children.len() as u64)?;
    for child in children {
        push_ordinal(key, *child)?;
    }
    Ok(())
}

/// Adds which signals are pending.
fn push_pending(key: &mut Vec<u8>, pending: &BySignal<bool>) -> Result<(), NoMemory>
    ensures { OnOk result (key.new.items ≡ key.old.items ++ by_signal_part flag_part pending.now) }
{
    push_flag(key, pending.kill)?;
    push_flag(key, pending.usr1)?;
    push_flag(key, pending.usr2)?;
    push_flag(key, pending.term)
}

/// The number of what is done at a signal.
fn disposition_code(disposition: Disposition) -> u64
    ensures { result ≡ disposition_code disposition }
{
    match disposition {
        Disposition::Default => 0,
        Disposition::Restart => 1,
        Disposition::Plain => 2,
    }
}

/// Adds what is done at each signal.
fn push_dispositions(
    key: &mut Vec<u8>,
    dispositions: &BySignal<Disposition>,
) -> Result<(), NoMemory>
    ensures { OnOk result (key.new.items ≡ key.old.items ++ by_signal_part disposition_part dispositions.now) }
{
    push_number(key, disposition_code(dispositions.kill))?;
    push_number(key, disposition_code(dispositions.usr1))?;
    push_number(key, disposition_code(dispositions.usr2))?;
    push_number(key, disposition_code(dispositions.term))
}

/// Adds the arguments of a call, with how many there are before them.
fn push_args(key: &mut Vec<u8>, args: &[u64]) -> Result<(), NoMemory>
    ensures { OnOk result (key.new.items ≡ key.old.items ++ list_part number_part args.now) }
{
    push_number(key, args.len() as u64)?;
    for arg in args {
        push_number(key, *arg)?;
    }
    Ok(())
}

/// Adds the call that a task entered last, if it entered one.
fn push_entered(key: &mut Vec<u8>, entered: Option<EnteredCall>) -> Result<(), NoMemory>
    ensures { OnOk result (key.new.items ≡ key.old.items ++ option_part call_part entered) }
{
    match entered {
        None => push_flag(key, false),
        Some(call) => {
            push_flag(key, true)?;
            push_signed(key, i64::from(call.nr))?;
            push_args(key, &call.args)
        }
    }
}

/// Adds how far a task is.
fn push_progress(key: &mut Vec<u8>, progress: &Progress) -> Result<(), NoMemory>
    ensures { OnOk result (key.new.items ≡ key.old.items ++ progress_part progress.now) }
{
    push_number(key, u64::from(progress.group))?;
    push_number(key, u64::from(progress.program))?;
    push_number(key, progress.next as u64)?;
    push_option(key, progress.call)?;
    push_entered(key, progress.entered)?;
    push_flag(key, progress.owes)?;
    push_flag(key, progress.ended)?;
    push_flag(key, progress.waited)?;
    push_pending(key, &progress.pending)?;
    push_dispositions(key, &progress.dispositions)
}

/// Adds what is kept of a task.
pub(crate) fn push_task(key: &mut Vec<u8>, task: &Task) -> Result<(), NoMemory>
    ensures { OnOk result (key.new.items ≡ key.old.items ++ member_part (member task.now)) }
{
    push_numbers(key, task.name.items())?;
    push_number(key, u64::from(task.pid))?;
    push_ordinal(key, task.parent)?;
    push_children(key, task.children.as_slice())?;
    push_numbers(key, task.waiting.as_slice())?;
    push_progress(key, &task.progress)
}

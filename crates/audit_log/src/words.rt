//! The words of a report: bytes as text, names, errors, and who takes a step.

ghost use Rattle.std.specs.Prelude.{◌≡◌, ◌++◌, OnOk, codes, decimal};
ghost use Rattle.std.specs.List.{flat_map};
ghost use Rattle.hist_model.specs.ReportWords.{hex_or_dash, program_text, name_text, errno_text, call_text, result_text, number_text, back_text, actor_text};

use crate::line::LineBuffer;
use hist_model::event::{Actor, Back};
use hist_model::text::TaskName;
use sys_abi::calls::call_name;
use sys_abi::errno::Errno;
use sys_abi::memory::NoMemory;

/// Adds bytes as digits of base 16, or `-` where there are none.
pub fn push_hex_or_dash(line: &mut LineBuffer, bytes: &[u8]) -> Result<(), NoMemory>
    ensures { OnOk result (line.new ≡ line.old ++ hex_or_dash bytes.now) }
{
    if bytes.is_empty() {
        line.push("-")
    } else {
        line.push_hex(bytes)
    }
}

/// Adds the program that serves a mount, or `-` where none does. Bytes that names of programs don't have in a policy are written in
/// base 16, and so is the name `-`.
pub(crate) fn push_program(line: &mut LineBuffer, program: &[u8]) -> Result<(), NoMemory>
    ensures { OnOk result (line.new ≡ line.old ++ program_text program.now) }
{
    if program == b"-".as_slice() {
        line.push("\\x2d")
    } else if program.is_empty() {
        line.push("-")
    } else {
        line.push_escaped(program)
    }
}

/// Adds a task's name: its numbers, with points between them.
#[inline(always)]
pub fn push_name(line: &mut LineBuffer, name: &TaskName) -> Result<(), NoMemory>
    ensures { OnOk result (line.new ≡ line.old ++ name_text name.now) }
{
    push_numbers(line, name.items())
}

/// Adds numbers with points between them.
#[inline(always)]
fn push_numbers(line: &mut LineBuffer, numbers: &[u32]) -> Result<(), NoMemory>
    ensures { OnOk result (line.new ≡ line.old ++ name_text numbers.now) }
{
    match numbers {
        [] => Ok(()),
        [first, rest @ ..] => {
            line.push_number(u64::from(*first))?;
            push_pointed(line, rest)
        }
    }
}

/// Adds numbers with a point before each.
#[inline(never)]
fn push_pointed(line: &mut LineBuffer, numbers: &[u32]) -> Result<(), NoMemory>
    ensures { OnOk result (line.new ≡ line.old ++ flat_map (λ n. codes "." ++ decimal n) numbers.now) }
{
    for n in numbers {
        line.push(".")?;
        line.push_number(u64::from(*n))?;
    }
    Ok(())
}

/// Adds an error's name, or `E` and its number.
#[inline(never)]
pub fn push_errno(line: &mut LineBuffer, error: Errno) -> Result<(), NoMemory>
    ensures { OnOk result (line.new ≡ line.old ++ errno_text error) }
{
    match error.name() {
        Some(name) => line.push(name),
        None => {
            line.push("E")?;
            line.push_number(u64::from(error.number()))
        }
    }
}

/// Adds a call's name, or its number.
pub fn push_call(line: &mut LineBuffer, nr: i32) -> Result<(), NoMemory>
    ensures { OnOk result (line.new ≡ line.old ++ call_text nr) }
{
    match call_name(nr) {
        Some(name) => line.push(name),
        None => line.push_signed(i64::from(nr)),
    }
}

/// Adds `ok`, or an error.
#[inline(always)]
pub fn push_result(line: &mut LineBuffer, answer: &Result<(), Errno>) -> Result<(), NoMemory>
    ensures { OnOk result (line.new ≡ line.old ++ result_text answer.now) }
{
    match answer {
        Ok(()) => line.push("ok"),
        Err(error) => push_errno(line, *error),
    }
}

/// Adds a number, or an error.
pub(crate) fn push_number_or_errno(
    line: &mut LineBuffer,
    answer: &Result<u32, Errno>,
) -> Result<(), NoMemory>
    ensures { OnOk result (line.new ≡ line.old ++ number_text answer.now) }
{
    match answer {
        Ok(n) => line.push_number(u64::from(*n)),
        Err(error) => push_errno(line, *error),
    }
}

/// Adds how a call returns.
pub(crate) fn push_back(line: &mut LineBuffer, back: Back) -> Result<(), NoMemory>
    ensures { OnOk result (line.new ≡ line.old ++ back_text back) }
{
    match back {
        Back::Value(value) => line.push_signed(value),
        Back::Fail(error) => push_errno(line, error),
        Back::Continue => line.push("continue"),
    }
}

/// Adds who takes a step.
#[inline(always)]
pub fn push_actor(line: &mut LineBuffer, who: &Actor) -> Result<(), NoMemory>
    ensures { OnOk result (line.new ≡ line.old ++ actor_text who.now) }
{
    match who {
        Actor::Start => line.push("-"),
        Actor::Task(name) => {
            line.push("t")?;
            push_name(line, name)
        }
        Actor::Worker(number) => {
            line.push("w")?;
            line.push_number(u64::from(*number))
        }
        Actor::Listener => line.push("listener"),
    }
}

//! The names of tasks.

ghost use Rattle.std.specs.Prelude.{◌≡◌, length, IfOk};
ghost use Rattle.std.specs.List.{list_all};
ghost use Rattle.step_requests.specs.Names as definitions;

use hist_model::text::TaskName;
use lex_core::read_number;
use std::alloc::{AllocError, Global};
use sys_abi::memory::NoMemory;

/// The number of 32 bits that a text is, and 0 where it is none.
fn number_or_zero(text: &[u8]) -> u32
    ensures { result ≡ definitions.number_or_zero text.now }
{
    u32::try_from(read_number(text).unwrap_or(0)).unwrap_or(0)
}

/// Whether a text begins with a digit that isn't 0.
fn begins_plainly(text: &[u8]) -> bool
    ensures { result ≡ definitions.begins_plainly text.now }
{
    match text.first() {
        Some(&first) => b'1' <= first && first <= b'9',
        None => false,
    }
}

/// Whether a text is the number of a child, from 1 to 100000, in decimal digits without leading zeros.
fn is_child_text(text: &[u8]) -> bool
    ensures { result ≡ definitions.is_child_text text.now }
{
    begins_plainly(text) && number_or_zero(text) >= 1 && number_or_zero(text) <= 100_000
}

/// Whether a text has the numbers of children between points.
fn are_child_texts(text: &[u8]) -> bool
    ensures { result ≡ list_all definitions.is_child_text (definitions.pieces text.now) }
{
    text.split(|byte| *byte == b'.')
        .all(|child| is_child_text(child))
}

/// How many texts stand between points.
fn pieces(text: &[u8]) -> usize
    ensures { result ≡ length (definitions.pieces text.now) }
{
    text.split(|byte| *byte == b'.').count()
}

/// Whether a text after the `0` of a task's name is empty or has the numbers of at most 64 children, each after a point.
fn is_children_tail(text: &[u8]) -> bool
    ensures { result ≡ definitions.is_children_tail text.now }
{
    match text.split_first() {
        Some((&first, children)) => {
            first == b'.' && are_child_texts(children) && pieces(children) <= 64
        }
        None => true,
    }
}

/// Whether a text is the name of a task.
pub fn is_task_text(text: &[u8]) -> bool
    ensures { result ≡ definitions.is_task_text text.now }
{
    match text.split_first() {
        Some((&first, tail)) => first == b'0' && is_children_tail(tail),
        None => false,
    }
}

/// The numbers of a task's name.
fn task_numbers(alloc: Global, text: &[u8]) -> Result<Vec<u32>, AllocError>
    ensures { IfOk result (λ numbers. numbers.items ≡ definitions.task_numbers text.now) }
{
    text.split(|byte| *byte == b'.')
        .map(|number| number_or_zero(number))
        .collect(alloc)
}

/// The name of the task that a text names. That of the first task, which most lines name, takes no memory.
#[tactic(auto, using(crate::proofs::FirstTask::first_task))]
pub fn task_name(alloc: Global, text: &[u8]) -> Result<TaskName, NoMemory>
    ensures { IfOk result (λ name. name ≡ definitions.task_numbers text.now) }
{
    if text == b"0".as_slice() {
        TaskName::of(alloc, &[0])
    } else {
        Ok(TaskName::new(task_numbers(alloc, text)?))
    }
}

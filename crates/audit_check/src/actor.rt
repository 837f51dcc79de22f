//! The actor that a line of a journal names.

ghost use Rattle.std.specs.Prelude.{◌≡◌, ◌==◌, if◌then◌else◌, None, Some, [], IfOk, bytes_eq, codes, get_or, position};
ghost use Rattle.std.specs.List.{slice_split};
ghost use Rattle.hist_model.specs.Words.{number_between};
ghost use Rattle.hist_model.specs.declared.event.Actor.TheVariants.{Listener, Start};
ghost use Rattle.audit_check.specs.Actors.{actor_in, actor_of, number_in, numbers_in, task_of, worker_of};

use broker_machine::is_task_name;
use hist_model::event::Actor;
use hist_model::text::TaskName;
use plain_words::number_between;
use std::alloc::{AllocError, Global};
use sys_abi::memory::NoMemory;

/// The place of the first space.
fn space_in(text: &[u8]) -> Option<usize>
    ensures { result ≡ position (λ b. b == 32) text.now }
{
    text.iter().position(|byte| *byte == b' ')
}

/// What stands before the first space.
#[tactic(auto, using(crate::proofs::Cut::word_ended, crate::proofs::Cut::last_word, crate::proofs::Cut::space_within))]
fn first_word(text: &[u8]) -> &[u8]
    ensures { result.now ≡ get_or (slice_split (λ b. b == 32) text.now) 0 [] }
{
    match space_in(text) {
        Some(end) => &text[..end],
        None => text,
    }
}

/// What stands behind the first space.
#[tactic(auto, using(crate::proofs::Cut::word_behind, crate::proofs::Cut::no_word_behind, crate::proofs::Cut::space_within))]
fn behind_word(text: &[u8]) -> &[u8]
    ensures { get_or (slice_split (λ b. b == 32) result.now) 0 [] ≡ get_or (slice_split (λ b. b == 32) text.now) 1 [] }
{
    match space_in(text) {
        Some(end) => &text[end + 1..],
        None => &[],
    }
}

/// The number that a word is, as one of a task's name has it; 0 where it is none.
fn number_in(word: &[u8]) -> u32
    ensures { result ≡ number_in word.now }
{
    match number_between(word, 0, 100_000) {
        Some(number) => number as u32,
        None => 0,
    }
}

/// The numbers between the points of a word.
fn numbers_in(alloc: Global, word: &[u8]) -> Result<Vec<u32>, AllocError>
    ensures { IfOk result (λ numbers. numbers.items ≡ numbers_in word.now) }
{
    word.split(|byte| *byte == b'.')
        .map(|number| number_in(number))
        .collect(alloc)
}

/// The task that a word names. Most lines name the first one, which takes no memory.
#[tactic(auto, using(crate::proofs::FirstTask::first_task))]
fn task_of(alloc: Global, word: &[u8]) -> Result<Option<Actor>, NoMemory>
    ensures { IfOk result (λ a. a ≡ task_of (numbers_in word.now)) }
{
    if word == b"0".as_slice() {
        return Ok(Some(Actor::Task(TaskName::of(alloc, &[0])?)));
    }
    let numbers = numbers_in(alloc, word)?;
    if is_task_name(numbers.as_slice()) {
        Ok(Some(Actor::Task(TaskName::new(numbers))))
    } else {
        Ok(None)
    }
}

/// The worker that a word names.
fn worker_of(word: &[u8]) -> Option<Actor>
    ensures { result ≡ worker_of (number_between 0 16 word.now) }
{
    match number_between(word, 0, 16) {
        Some(number) => Some(Actor::Worker(number as u8)),
        None => None,
    }
}

/// The start or the listener, where a word names one.
fn only_of(word: &[u8]) -> Option<Actor>
    ensures { result ≡ (if bytes_eq word.now (codes "-") then Some Start else if bytes_eq word.now (codes "listener") then Some Listener else None) }
{
    if word == b"-".as_slice() {
        Some(Actor::Start)
    } else if word == b"listener".as_slice() {
        Some(Actor::Listener)
    } else {
        None
    }
}

/// The actor that a word names.
fn actor_of(alloc: Global, word: &[u8]) -> Result<Option<Actor>, NoMemory>
    ensures { IfOk result (λ a. a ≡ actor_of word.now) }
{
    match word.split_first() {
        Some((&b't', name)) => task_of(alloc, name),
        Some((&b'w', number)) => Ok(worker_of(number)),
        Some(_) => Ok(only_of(word)),
        None => Ok(None),
    }
}

/// The actor that a line names, by its second word; none where that names none.
pub(crate) fn actor_in(alloc: Global, line: &[u8]) -> Result<Option<Actor>, NoMemory>
    ensures { IfOk result (λ a. a ≡ actor_in line.now) }
{
    actor_of(alloc, first_word(behind_word(line)))
}

//! The tasks of a history, in the order of their names.

ghost use Rattle.std.specs.Prelude.{◌≡◌, ◌≤◌, IfOk, OnOk, length, reverse};
ghost use Rattle.std.specs.List.{insert};
ghost use Rattle.outcome_text.specs.Outcomes.{names_with, stands_before, task_names, with_name};

use hist_model::event::{Event, What};
use hist_model::text::TaskName;
use std::alloc::Global;
use sys_abi::memory::NoMemory;

/// Whether a name stands before another.
fn stands_before(name: &[u32], other: &[u32]) -> bool
    ensures { result ≡ stands_before name.now other.now }
{
    name.cmp(other).is_lt()
}

/// Where a name stands among names in their order.
fn place_among(names: &[TaskName], name: &TaskName) -> usize
    ensures within { result ≤ length names.now }
    ensures inserted { insert names.now result name.now ≡ with_name name.now names.now }
{
    for place in 0..names.len() {
        if stands_before(name.items(), names[place].items()) {
            return place;
        }
    }
    names.len()
}

/// Adds a name to names in their order.
fn add_name(names: &mut Vec<TaskName>, name: TaskName) -> Result<(), NoMemory>
    ensures { OnOk result (names.new.items ≡ with_name name names.old.items) }
{
    let place = place_among(names.as_slice(), &name);
    names.insert(place, name)?;
    Ok(())
}

/// Adds the name of the task that a step makes.
fn note(alloc: Global, names: &mut Vec<TaskName>, what: &What) -> Result<(), NoMemory>
    ensures { OnOk result (names.new.items ≡ names_with what.now names.old.items) }
{
    match what {
        What::Spawn {
            child,
            answer: Ok(_),
        } => add_name(names, child.copied(alloc)?),
        _ => Ok(()),
    }
}

/// The names of the tasks that got a PID, in their order.
pub fn task_names(alloc: Global, events: &[Event]) -> Result<Vec<TaskName>, NoMemory>
    ensures { IfOk result (λ names. names.items ≡ task_names (reverse events.now)) }
{
    let mut names = Vec::new(alloc);
    for place in 0..events.len() {
        note(alloc, &mut names, &events[place].what)?;
    }
    Ok(names)
}

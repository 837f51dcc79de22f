//! The tasks, by their ordinals.

ghost use Rattle.std.specs.Prelude.{◌≡◌, [], None, ℕ};
ghost use Rattle.hist_model.specs.Memory.{argument};
ghost use Rattle.hist_model.specs.Steps.{number_entered};
ghost use Rattle.hist_model.specs.declared.event.What.{What};
ghost use Rattle.judge_pass.specs.Entries.{IsEntry};
ghost use Rattle.judge_pass.specs.declared.task_table.Entry.TheVariants.{Other};

use std::alloc::Global;
use sys_abi::calls::{CLOSE, OPENAT};

/// What a call does with the numbers of its task's group, where it runs natively and succeeds.
#[derive(Clone, Copy, PartialEq, Eq, Debug)]
pub(crate) enum Entry {
    /// It opens one.
    Opens,
    /// It closes this one.
    Closes(u32),
    Other,
}

impl Entry {
    /// That of a call with this number and this first argument.
    pub(crate) fn of(nr: i32, first: u64) -> Entry
        ensures { (call : What) → number_entered call ≡ nr → argument call 0 ≡ first → IsEntry call result }
    {
        match nr {
            OPENAT => Entry::Opens,
            CLOSE => Entry::Closes((first % 0x1_0000_0000) as u32),
            _ => Entry::Other,
        }
    }
}

/// A task.
#[derive(Debug, Drop)]
pub(crate) struct Task {
    /// The ordinal of its group, which has one memory and one table of descriptors.
    pub(crate) group: u32,
    /// The listed call in which it waits.
    pub(crate) call: Option<usize>,
    /// That of the call that it entered last.
    pub(crate) entered: Entry,
    /// Effects for its calls that have succeeded, and whose results nobody may have been told yet, the oldest first.
    pub(crate) untold: Vec<usize>,
}

impl Task {
    /// A task of a group that has entered no call.
    pub(crate) fn new(alloc: Global, group: u32) -> Task
        ensures group { result.group ≡ group }
        ensures call { result.call ≡ None }
        ensures entered { result.entered ≡ Other }
        ensures untold { result.untold.items ≡ [] }
    {
        Task {
            group,
            call: None,
            entered: Entry::Other,
            untold: Vec::new(alloc),
        }
    }
}

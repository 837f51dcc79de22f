//! What is kept of each task while the events are gone through.

ghost use Rattle.std.specs.Prelude.{◌≡◌, ◌&&◌, ◌∷◌, ℕ, List, OnOk, Some, if◌then◌else◌};
ghost use Rattle.hist_model.specs.Look.{is_task, name_eq, or_else};
ghost use Rattle.hist_model.specs.ReportCalls.{pid_given};
ghost use Rattle.audit_log.specs.Tasks.{facts_in, facts_of, no_task, row_of, task_after};

use crate::count::enters;
use hist_model::event::{Actor, Event, What};
use hist_model::text::TaskName;
use std::alloc::Global;
use std::collections::HashMap;
use sys_abi::memory::NoMemory;

/// What is kept of a task.
#[derive(Clone, Copy, PartialEq, Eq, Debug)]
pub(crate) struct TaskFacts {
    /// The first PID that it was given.
    pub(crate) pid: Option<u32>,
    /// The place of its newest call.
    pub(crate) newest: Option<usize>,
}

impl TaskFacts {
    /// Of a task of which nothing was seen.
    const NONE: TaskFacts = TaskFacts {
        pid: None,
        newest: None,
    };
}

/// The tasks of which something was seen, by their names.
///
/// Most events are of workers. What is kept under the name that has no number, as for them, stands apart, so that it is there without
/// being looked up. So does what is kept of the task that was last given a PID or entered a call, since mostly its own step is the
/// next one of a task.
#[derive(Drop)]
pub(crate) struct TaskRecords {
    alloc: Global,
    unnamed: TaskFacts,
    /// The name of that task.
    last_name: TaskName,
    /// What is kept of it; what the rows may have of it is older.
    last: TaskFacts,
    rows: HashMap<Vec<u32>, TaskFacts>,
}

impl TaskRecords {
    /// Before all events.
    pub(crate) fn new(alloc: Global) -> TaskRecords
        ensures { (n : List ℕ) → facts_in result n ≡ no_task }
    {
        TaskRecords {
            alloc,
            unnamed: TaskFacts::NONE,
            last_name: TaskName::new(Vec::new(alloc)),
            last: TaskFacts::NONE,
            rows: HashMap::new(alloc),
        }
    }

    /// Of the task with this name.
    pub(crate) fn get(&self, name: &[u32]) -> TaskFacts
        ensures { result ≡ facts_in self.now name.now }
    {
        if name.is_empty() {
            self.unnamed
        } else if name == self.last_name.items() {
            self.last
        } else {
            self.row(name)
        }
    }

    /// Of the task with this name, by the rows.
    fn row(&self, name: &[u32]) -> TaskFacts
        ensures { result ≡ row_of self.now name.now }
    {
        match self.rows.get(name) {
            Some(facts) => *facts,
            None => TaskFacts::NONE,
        }
    }

    /// Of the task that an actor is; of another actor without a newest call.
    pub(crate) fn of_actor(&self, who: &Actor) -> TaskFacts
        ensures { result ≡ facts_of who.now (facts_in self.now) }
    {
        match who {
            Actor::Task(name) => self.get(name.items()),
            _ => TaskFacts {
                newest: None,
                ..self.unnamed
            },
        }
    }

    /// Keeps this of the task with this name.
    fn put(&mut self, name: &[u32], facts: TaskFacts) -> Result<(), NoMemory>
        ensures { OnOk result ((n : List ℕ) → facts_in self.new n ≡ (if name_eq name.now n then facts else facts_in self.old n)) }
    {
        if name.is_empty() {
            self.unnamed = facts;
            return Ok(());
        }
        if name != self.last_name.items() {
            self.put_last()?;
            self.last_name = TaskName::of(self.alloc, name)?;
        }
        self.last = facts;
        Ok(())
    }

    /// Puts what stands apart of a task into its row, if there is such a task.
    fn put_last(&mut self) -> Result<(), NoMemory>
        ensures unnamed { self.new.unnamed ≡ self.old.unnamed }
        ensures row { OnOk result ((x : ℕ) (n : List ℕ) → row_of self.new (x ∷ n) ≡ facts_in self.old (x ∷ n)) }
    {
        if self.last_name.items().is_empty() {
            return Ok(());
        }
        let name = self.last_name.copied(self.alloc)?;
        self.put_row(name.items(), self.last)
    }

    /// Keeps this in the row of the task with this name.
    fn put_row(&mut self, name: &[u32], facts: TaskFacts) -> Result<(), NoMemory>
        ensures unnamed { self.new.unnamed ≡ self.old.unnamed }
        ensures row { OnOk result ((n : List ℕ) → row_of self.new n ≡ (if name_eq name.now n then facts else row_of self.old n)) }
    {
        if self.change_row(name, facts) {
            return Ok(());
        }
        self.add_row(name, facts)
    }

    /// Changes the row of the task with this name, where it has one; whether it has.
    fn change_row(&mut self, name: &[u32], facts: TaskFacts) -> bool
        ensures unnamed { self.new.unnamed ≡ self.old.unnamed }
        ensures row { (n : List ℕ) → row_of self.new n ≡ (if result && name_eq name.now n then facts else row_of self.old n) }
    {
        match self.rows.get_mut(name) {
            Some(kept) => {
                *kept = facts;
                true
            }
            None => false,
        }
    }

    /// Gives the task with this name a row.
    fn add_row(&mut self, name: &[u32], facts: TaskFacts) -> Result<(), NoMemory>
        ensures unnamed { self.new.unnamed ≡ self.old.unnamed }
        ensures row { OnOk result ((n : List ℕ) → row_of self.new n ≡ (if name_eq name.now n then facts else row_of self.old n)) }
    {
        let key = Vec::from_slice(self.alloc, name)?;
        self.rows.insert(key, facts)?;
        Ok(())
    }

    /// A task was given a PID.
    fn put_pid(&mut self, name: &[u32], pid: u32) -> Result<(), NoMemory>
        ensures { OnOk result ((n : List ℕ) → facts_in self.new n ≡ (if name_eq name.now n then record { pid = or_else (facts_in self.old name.now).pid (Some pid); newest = (facts_in self.old name.now).newest } else facts_in self.old n)) }
    {
        let before = self.get(name);
        let facts = TaskFacts {
            pid: before.pid.or(Some(pid)),
            ..before
        };
        self.put(name, facts)
    }

    /// With one more event, which has this place, by what is kept of its actor.
    pub(crate) fn note(
        &mut self,
        place: usize,
        event: &Event,
        facts: TaskFacts,
    ) -> Result<(), NoMemory>
        ensures { facts ≡ facts_of event.now.who (facts_in self.old) → OnOk result ((n : List ℕ) → facts_in self.new n ≡ task_after place event.now n (facts_in self.old n)) }
    {
        if enters(&event.what) {
            return self.note_call(place, &event.who, facts);
        }
        self.note_pid(&event.what)
    }

    /// A step may give a task its PID.
    fn note_pid(&mut self, what: &What) -> Result<(), NoMemory>
        ensures { OnOk result ((n : List ℕ) → facts_in self.new n ≡ record { pid = or_else (facts_in self.old n).pid (pid_given what.now n); newest = (facts_in self.old n).newest }) }
    {
        match what {
            What::Spawn {
                child,
                answer: Ok((pid, _)),
            } => self.put_pid(child.items(), *pid),
            _ => Ok(()),
        }
    }

    /// A task entered a call; of another actor nothing is kept.
    fn note_call(&mut self, place: usize, who: &Actor, facts: TaskFacts) -> Result<(), NoMemory>
        ensures { facts ≡ facts_of who.now (facts_in self.old) → OnOk result ((n : List ℕ) → facts_in self.new n ≡ record { pid = (facts_in self.old n).pid; newest = if is_task who.now n then Some place else (facts_in self.old n).newest }) }
    {
        match who {
            Actor::Task(name) => {
                let entered = TaskFacts {
                    newest: Some(place),
                    ..facts
                };
                self.put(name.items(), entered)
            }
            _ => Ok(()),
        }
    }
}

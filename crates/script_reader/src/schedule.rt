//! The schedule that lines state.

ghost use Rattle.std.specs.Prelude.{◌≡◌, ◌++◌, OnOk};
ghost use Rattle.std.specs.List.{filter_map};
ghost use Rattle.script_reader.specs.Schedule.{turn_of};

use crate::error::Fault;
use crate::fault::{too_large_if, wrong_if};
use hist_model::event::Actor;
use hist_model::script::Step;
use hist_model::text::TaskName;
use lex_core::Reason;
use std::alloc::Global;
use std::marker::Model;
use std::mem;
use step_requests::{Asked, Turn};
use sys_abi::memory::{NoMemory, OrNoMemory};

/// How many steps a schedule has at most, all together.
const MOST_STEPS: u64 = 200_000;

/// What the lines of a worker are.
#[derive(Clone, Copy)]
pub enum WorkerLines {
    /// Counts of its steps: it is one of this project.
    Counts,
    /// What it asks the kernel for: it is one of another broker.
    Requests,
}

/// The lines of the schedule, what those of each worker are, and how many steps these are, all together: at most 200000. Contracts
/// see all four.
#[derive(Drop)]
pub struct Schedule {
    alloc: Global,
    /// The lines, where none is a worker's request.
    lines: Vec<Step>,
    /// The lines, where one is.
    turns: Vec<Turn>,
    /// For each of the workers 0 to 15, what its lines are, where it has some.
    workers: [Option<WorkerLines>; 16],
    steps: u64,
}

impl Model for Schedule {
    ghost use Rattle.script_reader.specs.Schedule.{ScheduleState};
    ghost use Rattle.std.specs.Prelude.{◌≤◌};

    ghost Value = { ScheduleState };

    ghost view = { λ s. record { lines = s.lines.items; turns = s.turns.items; workers = s.workers; steps = s.steps } };

    ghost invariant = { λ s. s.steps ≤ 200000 };
}

/// The steps of a task or a worker as a turn; nobody else is scheduled.
fn turn_of(step: Step) -> Option<Turn>
    ensures { result ≡ turn_of step }
{
    let Step { who, count } = step;
    match who {
        Actor::Task(task) => Some(Turn::Steps { task, count }),
        Actor::Worker(worker) => Some(Turn::Serves { worker, count }),
        Actor::Start | Actor::Listener => None,
    }
}

/// Adds steps as turns.
#[tactic(auto, using(crate::proofs::Turns::turn_added, crate::proofs::Turns::none_added))]
fn add_turns(turns: &mut Vec<Turn>, lines: Vec<Step>) -> Result<(), NoMemory>
    ensures { OnOk result (turns.new.items ≡ turns.old.items ++ filter_map turn_of lines.items) }
{
    for step in lines {
        if let Some(turn) = turn_of(step) {
            turns.push(turn)?;
        }
    }
    Ok(())
}

impl Schedule {
    ghost use Rattle.std.specs.Prelude.{◌≡◌, ◌+◌, ◌<◌, OnOk};
    ghost use Rattle.script_reader.specs.Faults.{Admits, Counts};
    ghost use Rattle.script_reader.specs.Lists.{has_items};
    ghost use Rattle.script_reader.specs.Schedule as definitions;

    /// No steps.
    pub fn new(alloc: Global) -> Schedule
        ensures { result ≡ definitions.no_steps }
    {
        Schedule {
            alloc,
            lines: Vec::new(alloc),
            turns: Vec::new(alloc),
            workers: [None; 16],
            steps: 0,
        }
    }

    /// How many steps there are with more of them. More than 200000 are refused.
    fn steps_with(&self, more: u32) -> Result<u64, OrNoMemory<Fault>>
        ensures { Counts (definitions.steps_fault self.now more) (self.now.steps + more) result }
    {
        let steps = self.steps + more as u64;
        too_large_if(steps > MOST_STEPS).map_err(OrNoMemory::Refused)?;
        Ok(steps)
    }

    /// Whether a worker's request stands above.
    fn has_turns(&self) -> bool
        ensures { result ≡ has_items self.now.turns }
    {
        !self.turns.is_empty()
    }

    /// Whether a worker has counts above.
    fn has_counts(&self, worker: u8) -> bool
        requires { worker < 16 }
        ensures { result ≡ definitions.has_counts self.now worker }
    {
        let lines = self.workers[usize::from(worker)];
        matches!(lines, Some(WorkerLines::Counts))
    }

    /// Whether a worker has requests above.
    fn has_requests(&self, worker: u8) -> bool
        requires { worker < 16 }
        ensures { result ≡ definitions.has_requests self.now worker }
    {
        let lines = self.workers[usize::from(worker)];
        matches!(lines, Some(WorkerLines::Requests))
    }

    /// Adds steps: a count, and after a worker's request a turn.
    fn push_steps(&mut self, step: Step) -> Result<(), OrNoMemory<Fault>>
        ensures { Admits (definitions.steps_fault self.old step.count) (definitions.with_steps step self.old) result self.new }
    {
        let steps = self.steps_with(step.count)?;
        if !self.has_turns() {
            self.lines.push(step)?;
        } else if let Some(turn) = turn_of(step) {
            self.turns.push(turn)?;
        }
        self.steps = steps;
        Ok(())
    }

    /// Adds the steps of a task.
    pub fn push_task(&mut self, task: TaskName, count: u32) -> Result<(), OrNoMemory<Fault>>
        ensures { Admits (definitions.steps_fault self.old count) (definitions.with_task task count self.old) result self.new }
    {
        self.push_steps(Step {
            who: Actor::Task(task),
            count,
        })
    }

    /// Adds the steps of a worker, 0 to 15, that has no requests.
    pub fn push_worker(&mut self, worker: u8, count: u32) -> Result<(), OrNoMemory<Fault>>
        requires { worker < 16 }
        ensures { Admits (definitions.counts_fault self.old worker count) (definitions.with_worker worker count self.old) result self.new }
    {
        wrong_if(self.has_requests(worker), Reason::OutOfPlace).map_err(OrNoMemory::Refused)?;
        self.workers[usize::from(worker)] = Some(WorkerLines::Counts);
        self.push_steps(Step {
            who: Actor::Worker(worker),
            count,
        })
    }

    /// Makes turns of the lines.
    fn turn_over(&mut self) -> Result<(), NoMemory>
        ensures { OnOk result (self.new ≡ definitions.in_turns self.old) }
    {
        let lines = mem::replace(&mut self.lines, Vec::new(self.alloc));
        add_turns(&mut self.turns, lines)
    }

    /// Adds what a worker, 0 to 15, asks for that has no counts.
    pub fn push_request(&mut self, worker: u8, asked: Asked) -> Result<(), OrNoMemory<Fault>>
        requires { worker < 16 }
        ensures { Admits (definitions.request_fault self.old worker) (definitions.with_request worker asked self.old) result self.new }
    {
        wrong_if(self.has_counts(worker), Reason::OutOfPlace).map_err(OrNoMemory::Refused)?;
        self.workers[usize::from(worker)] = Some(WorkerLines::Requests);
        let steps = self.steps_with(1)?;
        self.turn_over()?;
        self.turns.push(Turn::Asks { worker, asked })?;
        self.steps = steps;
        Ok(())
    }

    /// The lines: counts of steps, and turns.
    pub fn into_lines(self) -> (Vec<Step>, Vec<Turn>)
        ensures counts { result.0.items ≡ self.lines }
        ensures turns { result.1.items ≡ self.turns }
    {
        let Schedule { lines, turns, .. } = self;
        (lines, turns)
    }
}

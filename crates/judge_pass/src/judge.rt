//! What is kept of the events so far.

ghost use Rattle.std.specs.Prelude.{◌≡◌, ◌<◌, [], IfOk, IfSome, get_or, length, option_map, replicate, ◌+◌};
ghost use Rattle.std.specs.Option.{option_copied};
ghost use Rattle.judge_pass.specs.declared.calls.Call.{Call as CallValue};
ghost use Rattle.judge_pass.specs.declared.task_table.Task.{Task as TaskValue};
ghost use Rattle.hist_model.specs.declared.script.Script.{Script as ScriptValue};
ghost use Rattle.hist_model.specs.ScriptRules.{IsScript};
ghost use Rattle.judge_pass.specs.Stands.{Stands};
ghost use Rattle.judge_pass.specs.Tables.{AreIdle};
ghost use Rattle.judge_pass.specs.Within.{calls_kept};

use crate::calls::{Call, Calls};
use crate::directories::Directories;
use crate::done::Done;
use crate::seats::Seat;
use crate::task_table::Task;
use broker_verdict::clause::{Class, Clause};
use hist_model::event::WORKERS;
use hist_model::policy::Policy;
use std::alloc::Global;
use sys_abi::memory::NoMemory;

/// How many calls were received, and how much was done and answered.
#[derive(Clone, Copy, PartialEq, Eq, Debug)]
pub struct Counts {
    pub calls: u64,
    pub effects: u64,
    pub answers: u64,
}

/// The first clause that an event breaks, and how grave that is.
#[derive(Clone, Copy, PartialEq, Eq, Debug)]
pub struct Fault {
    pub clause: Clause,
    pub class: Class,
    /// The number of the call that it is about, if it is about one.
    pub(crate) call: Option<usize>,
}

/// What is kept of a history in which no clause was broken so far.
#[derive(Drop)]
pub struct Judge {
    pub(crate) alloc: Global,
    pub(crate) tasks: Vec<Task>,
    pub(crate) groups: u32,
    pub(crate) calls: Calls,
    pub(crate) directories: Directories,
    pub(crate) seats: Vec<Seat>,
    pub(crate) done: Vec<Done>,
    /// How often effects of each rule were done, by its place.
    pub(crate) times: Vec<u64>,
    pub(crate) counts: Counts,
}

/// A seat for each worker's number, in which nothing has happened.
fn idle_seats(alloc: Global) -> Result<Vec<Seat>, NoMemory>
    ensures number { IfOk result (λ seats. length seats.items ≡ 17) }
    ensures idle { IfOk result (λ seats. AreIdle seats.items) }
{
    let mut seats = Vec::with_capacity(alloc, usize::from(WORKERS))?;
    for _ in 0..WORKERS {
        seats.push(Seat::new(alloc))?;
    }
    Ok(seats)
}

/// No effect was done by any rule, nor by none.
fn none_done(alloc: Global, policy: &Policy) -> Result<Vec<u64>, NoMemory>
    ensures { IfOk result (λ times. times.items ≡ replicate (length policy.now.rules + 1) 0) }
{
    Ok(vec![in alloc; 0; policy.rules.items().len() + 1]?)
}

impl Judge {
    /// Nothing has happened.
    pub fn new(alloc: Global, policy: &Policy, firstid: u64) -> Result<Judge, NoMemory>
        ensures { IfOk result (λ j. (S : ScriptValue) → IsScript S → S.firstid ≡ firstid → Stands policy.now S [] j) }
    {
        Ok(Judge {
            alloc,
            tasks: Vec::new(alloc),
            groups: 0,
            calls: Calls::new(alloc, firstid),
            directories: Directories::new(alloc),
            seats: idle_seats(alloc)?,
            done: Vec::new(alloc),
            times: none_done(alloc, policy)?,
            counts: Counts {
                calls: 0,
                effects: 0,
                answers: 0,
            },
        })
    }

    /// How many calls were received, and how much was done and answered.
    pub fn counts(&self) -> Counts
        ensures { result ≡ self.now.counts }
    {
        self.counts
    }

    /// The group of a call's task.
    pub(crate) fn caller_group(&self, call: &Call) -> u32
        requires { call.now.caller < length self.now.tasks.items }
        ensures { (d : TaskValue) → result ≡ (get_or self.now.tasks.items call.now.caller d).group }
    {
        self.tasks[call.caller as usize].group
    }

    /// The call that a seat has in hand.
    pub(crate) fn call_of(&self, seat: &Seat) -> Option<&Call>
        requires { IfSome seat.now.call (λ c. c < calls_kept self.now) }
        ensures { (d : CallValue) → option_copied result ≡ option_map (λ c. get_or self.now.calls.rows.items c d) seat.now.call }
    {
        match seat.call {
            Some(call) => Some(&self.calls.rows[call]),
            None => None,
        }
    }
}

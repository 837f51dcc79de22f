//! The lines of a script's schedule, read one at a time where the script lies.

ghost use Rattle.std.specs.Prelude.{◌≡◌, ◌<◌, length, true, IfOk, Some, slice_get};
ghost use Rattle.hist_model.specs.ScriptRules.{can_be_scheduled};
ghost use Rattle.model_kernel.specs.Kernels.{IsKernel, past};
ghost use Rattle.worker_gate.specs.Scheduling.{IsLineAt};

use broker_machine::Machine;
use hist_model::event::Actor;
use hist_model::script::{Script, Step};
use std::alloc::Global;
use sys_abi::memory::NoMemory;

/// A line of a schedule that is played: an actor, and how many of its steps are left.
#[derive(Drop)]
pub(crate) struct Line {
    pub(crate) who: Actor,
    /// The ordinal of the task that the actor is, if it is one and was made.
    pub(crate) task: Option<u32>,
    pub(crate) left: u32,
}

/// A copy of this actor.
fn copied(alloc: Global, who: &Actor) -> Result<Actor, NoMemory>
    ensures { IfOk result (λ a. a ≡ who.now) }
{
    match who {
        Actor::Start => Ok(Actor::Start),
        Actor::Task(name) => Ok(Actor::Task(name.copied(alloc)?)),
        Actor::Worker(number) => Ok(Actor::Worker(*number)),
        Actor::Listener => Ok(Actor::Listener),
    }
}

/// The number of lines of a script's schedule.
fn lines(script: &Script) -> usize
    ensures { result ≡ length script.now.schedule }
{
    script.schedule.items().len()
}

/// A line of a script's schedule, copied.
fn step_at(alloc: Global, script: &Script, index: usize) -> Result<Step, NoMemory>
    requires { index < length script.now.schedule }
    ensures line { IfOk result (λ step. slice_get script.now.schedule index ≡ Some step) }
    ensures scheduled { IfOk result (λ step. can_be_scheduled step.who ≡ true) }
{
    let step = &script.schedule.items()[index];
    Ok(Step {
        who: copied(alloc, &step.who)?,
        count: step.count,
    })
}

/// The line at an index of the schedule of a machine's script, of which no step was made yet; none behind the last one. A task
/// that was made is found once for all steps of the line.
pub(crate) fn line_at(
    alloc: Global,
    machine: &Machine,
    index: usize,
) -> Result<Option<Line>, NoMemory>
    requires { IsKernel machine.now.kernel }
    ensures { IfOk result (λ line. IsLineAt machine.now.kernel.script (past machine.now.kernel) index line) }
{
    let script = machine.script();
    if index >= lines(script) {
        return Ok(None);
    }
    let Step { who, count } = step_at(alloc, script, index)?;
    let task = machine.task_of(&who);
    Ok(Some(Line {
        who,
        task,
        left: count,
    }))
}

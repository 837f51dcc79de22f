//! The lines of a schedule in which no worker has requests.

ghost use Rattle.std.specs.Prelude.{◌≡◌, map, IfOk};
ghost use Rattle.std.specs.List.{All};
ghost use Rattle.step_requests.specs.Turns.{AreApart};
ghost use Rattle.turn_player.specs.Turns.{IsTurn, turn_of};

use hist_model::event::Actor;
use hist_model::script::{Script, Step};
use std::alloc::Global;
use step_requests::Turn;
use sys_abi::memory::NoMemory;

/// The line of so many steps of a task or a worker; nobody else is scheduled.
fn turn_of(alloc: Global, step: &Step) -> Result<Turn, NoMemory>
    ensures { IfOk result (λ t. t ≡ turn_of step.now) }
{
    match &step.who {
        Actor::Task(task) => Ok(Turn::Steps {
            task: task.copied(alloc)?,
            count: step.count,
        }),
        Actor::Worker(worker) => Ok(Turn::Serves {
            worker: *worker,
            count: step.count,
        }),
        Actor::Start | Actor::Listener => Ok(Turn::Serves {
            worker: 0,
            count: 0,
        }),
    }
}

/// The lines of the steps of a schedule.
fn lines_of(alloc: Global, schedule: &[Step]) -> Result<Vec<Turn>, NoMemory>
    ensures { IfOk result (λ turns. turns.items ≡ map turn_of schedule.now) }
{
    let mut turns = Vec::new(alloc);
    for step in schedule {
        turns.push(turn_of(alloc, step)?)?;
    }
    Ok(turns)
}

/// The lines of a script's schedule, whose workers are all of this project.
pub fn turns_of(alloc: Global, script: &Script) -> Result<Vec<Turn>, NoMemory>
    ensures are { IfOk result (λ turns. turns.items ≡ map turn_of script.now.schedule) }
    ensures turns { IfOk result (λ turns. All IsTurn turns.items) }
    ensures apart { IfOk result (λ turns. AreApart turns.items) }
{
    let schedule = script.schedule.items();
    let turns = lines_of(alloc, schedule)?;
    Ok(turns)
}

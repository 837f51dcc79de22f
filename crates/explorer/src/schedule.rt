//! The schedule with which a script plays a history.

ghost use Rattle.std.specs.Prelude.{◌≡◌, ◌<◌, ◌+◌, ◌^◌, OnOk, IfOk, option_map, reverse};
ghost use Rattle.hist_model.specs.ScriptRules.{steps_of};
ghost use Rattle.delay_bounded.specs.Schedules.{is_same, with_one};
ghost use Rattle.explorer.specs.Schedules.{is_scheduled};
ghost use Rattle.explorer.specs.Tallies.{playing};

use hist_model::event::Actor;
use hist_model::history::History;
use hist_model::script::Step;
use std::alloc::Global;
use sys_abi::memory::NoMemory;

/// The most steps that a script may schedule.
const MOST_STEPS: u32 = 200_000;

/// Whether the two are one task, or one worker.
fn is_same(one: &Actor, other: &Actor) -> bool
    ensures { result ≡ is_same one.now other.now }
{
    match (one, other) {
        (Actor::Task(one), Actor::Task(other)) => one == other,
        (Actor::Worker(one), Actor::Worker(other)) => one == other,
        _ => false,
    }
}

/// Whether the actor is a task or a worker: these alone are scheduled.
fn is_scheduled(who: &Actor) -> bool
    ensures { result ≡ is_scheduled who.now }
{
    matches!(who, Actor::Task(_) | Actor::Worker(_))
}

/// A copy of an actor.
fn copied(alloc: Global, who: &Actor) -> Result<Actor, NoMemory>
    ensures { IfOk result (λ copy. copy ≡ who.now) }
{
    match who {
        Actor::Start => Ok(Actor::Start),
        Actor::Task(name) => Ok(Actor::Task(name.copied(alloc)?)),
        Actor::Worker(number) => Ok(Actor::Worker(*number)),
        Actor::Listener => Ok(Actor::Listener),
    }
}

/// Adds a step of an actor to the lines of a schedule.
fn push_step(alloc: Global, lines: &mut Vec<Step>, who: &Actor) -> Result<(), NoMemory>
    requires { steps_of lines.old.items + 1 < 2 ^ 32 }
    ensures { OnOk result (reverse lines.new.items ≡ with_one who.now (reverse lines.old.items)) }
{
    let len = lines.len();
    if len > 0 && is_same(&lines[len - 1].who, who) {
        lines[len - 1].count += 1;
    } else {
        let who = copied(alloc, who)?;
        lines.push(Step { who, count: 1 })?;
    }
    Ok(())
}

/// The schedule of a history, the oldest line first; none where a script can't schedule so many steps.
pub(crate) fn schedule_of(alloc: Global, history: &History) -> Result<Option<Vec<Step>>, NoMemory>
    ensures { IfOk result (λ schedule. option_map (λ steps. steps.items) schedule ≡ playing history.now.events) }
{
    let events = history.events();
    let mut lines = Vec::new(alloc);
    let mut steps = 0;
    for place in 0..events.len() {
        let who = &events[place].who;
        if is_scheduled(who) {
            if steps == MOST_STEPS {
                return Ok(None);
            }
            push_step(alloc, &mut lines, who)?;
            steps += 1;
        }
    }
    Ok(Some(lines))
}

//! Calls that were interrupted, and entered anew by tasks that did nothing else.

ghost use Rattle.std.specs.Prelude.{◌≡◌, ◌<◌, ◌≤◌, ◌||◌, ℕ, length, nat_le, not, reverse, take};
ghost use Rattle.broker_verdict.specs.Answers.{enters_again, only_enters_again};
ghost use Rattle.hist_model.specs.Calls.{caller};
ghost use Rattle.hist_model.specs.Look.{before, is_task, task_name};

use broker_judge::called::Called;
use hist_model::event::{Actor, Delivered, Event, What};

/// Whether a task's step leads from an interrupted call to the same call, which is entered anew; or puts a descriptor in for it.
fn enters_again(called: &Called, what: &What) -> bool
    ensures { result ≡ enters_again called.now.nr called.now.args what.now }
{
    match what {
        What::Enter { nr, args, .. } => *nr == called.nr && *args == called.args,
        What::Deliver { effect, .. } => matches!(effect, Delivered::Restart | Delivered::Run),
        What::Install { .. } | What::Skip => true,
        _ => false,
    }
}

/// The numbers of a task's name; none of another actor.
fn name_of(who: &Actor) -> &[u32]
    ensures { result.now ≡ task_name who.now }
{
    match who {
        Actor::Task(name) => name.items(),
        Actor::Start | Actor::Worker(_) | Actor::Listener => &[],
    }
}

/// Whether the actor is the task of this name.
fn is_task(who: &Actor, name: &[u32]) -> bool
    ensures { result ≡ is_task who.now name.now }
{
    match who {
        Actor::Task(own) => own.items() == name,
        Actor::Start | Actor::Worker(_) | Actor::Listener => false,
    }
}

/// Whether an event is none of this task's, or such a step.
fn is_passed(event: &Event, name: &[u32], called: &Called) -> bool
    ensures { result ≡ (not (is_task event.now.who name.now) || enters_again called.now.nr called.now.args event.now.what) }
{
    !is_task(&event.who, name) || enters_again(called, &event.what)
}

/// From which of the events before a place on the task's own all are such steps.
fn first_passed(events: &[Event], place: usize, name: &[u32], called: &Called) -> usize
    requires { place ≤ length events.now }
    ensures { (d : ℕ) → only_enters_again (reverse (take place events.now)) d name.now called.now.nr called.now.args ≡ nat_le result d }
{
    let mut first = place;
    'events: while first > 0 {
        let event = &events[first - 1];
        if !is_passed(event, name, called) {
            return first;
        }
        first -= 1;
    }
    first
}

/// From which place on the task that entered this call, at a place among these events, took no other steps than such.
pub(crate) fn first_entered(events: &[Event], place: usize, called: &Called) -> usize
    ensures { place < length events.now
        → (d : ℕ) → only_enters_again (before (reverse events.now) place) d (caller (reverse events.now) place) called.now.nr called.now.args
        ≡ nat_le result d }
{
    match events.get(place) {
        Some(event) => first_passed(events, place, name_of(&event.who), called),
        None => place,
    }
}

//! Explores the histories of a script within a bound of delays.

ghost use Rattle.std.specs.Prelude.{◌≡◌, ◌≤◌, IfOk};
ghost use Rattle.std.specs.Prelude.{option_copied, option_map};
ghost use Rattle.delay_bounded.specs.Explored.{bound_of, explored};
ghost use Rattle.explorer.specs.Telling.{TellsEither};

use crate::by_states::{Joined, explore_by_states};
use crate::found::FoundOutcome;
use crate::one_by_one::{Explored, explore_one_by_one};
use hist_model::policy::Policy;
use hist_model::script::{Script, Step};
use long_count::LongCount;
use std::alloc::Global;
use std::marker::Model;
use sys_abi::memory::NoMemory;

/// What some of the explored histories come to.
#[derive(Debug, Drop)]
pub struct Outcome {
    text: Vec<u8>,
    histories: LongCount,
    schedule: Option<Vec<Step>>,
}

impl Model for Outcome {
    ghost use Rattle.std.specs.Prelude.{option_map};
    ghost use Rattle.explorer.specs.Tallies.{CountedOutcome};

    ghost Value = { CountedOutcome };

    ghost view = { λ o. record { text = o.text.items; histories = o.histories; schedule = option_map (λ steps. steps.items) o.schedule } };
}

impl Outcome {
    /// So many histories with a text, the first of which has this schedule.
    pub(crate) fn new(text: Vec<u8>, histories: LongCount, schedule: Option<Vec<Step>>) -> Outcome
        ensures text { result.text ≡ text.items }
        ensures histories { result.histories ≡ histories }
        ensures schedule { result.schedule ≡ option_map (λ steps. steps.items) schedule }
    {
        Outcome {
            text,
            histories,
            schedule,
        }
    }

    /// One that was found history by history.
    fn of(alloc: Global, found: FoundOutcome) -> Result<Outcome, NoMemory>
        ensures { IfOk result (λ outcome. outcome ≡ found) }
    {
        let (text, histories, schedule) = found.into_parts();
        Ok(Outcome::new(text, LongCount::of(alloc, histories)?, schedule))
    }

    /// What these histories come to: the lines of their calls (`outcome_text`). Empty where no call was entered.
    pub fn text(&self) -> &[u8]
        ensures { result.now ≡ self.now.text }
    {
        self.text.as_slice()
    }

    /// How many histories come to it.
    pub fn histories(&self) -> &LongCount
        ensures { result.now ≡ self.now.histories }
    {
        &self.histories
    }

    /// The schedule with which a script plays the first of them, the oldest line first; none where a script can't schedule so
    /// many steps.
    pub fn schedule(&self) -> Option<&[Step]>
        ensures { option_copied result ≡ self.now.schedule }
    {
        match &self.schedule {
            Some(steps) => Some(steps.as_slice()),
            None => None,
        }
    }
}

/// What exploring came to.
#[derive(Debug, Drop)]
pub struct Exploration {
    /// How many histories were explored.
    pub histories: LongCount,
    /// How many events they have together, the first spawn and the close included.
    pub events: LongCount,
    /// How many the longest of them has.
    pub longest: u64,
    /// Whether no history within the bound is left.
    pub whole: bool,
    /// What they come to, in the order in which each outcome came up first.
    pub outcomes: Vec<Outcome>,
}

/// The outcomes that were found history by history.
fn outcomes_of(alloc: Global, found: Vec<FoundOutcome>) -> Result<Vec<Outcome>, NoMemory>
    ensures { IfOk result (λ outcomes. outcomes.items ≡ found.items) }
{
    let mut outcomes = Vec::with_capacity(alloc, found.len())?;
    for outcome in found {
        outcomes.push(Outcome::of(alloc, outcome)?)?;
    }
    Ok(outcomes)
}

/// The same of what was explored one by one.
fn told(alloc: Global, explored: Explored) -> Result<Exploration, NoMemory>
    ensures histories { IfOk result (λ x. x.histories ≡ explored.histories) }
    ensures events { IfOk result (λ x. x.events ≡ explored.events) }
    ensures longest { IfOk result (λ x. x.longest ≡ explored.longest) }
    ensures whole { IfOk result (λ x. x.whole ≡ explored.whole) }
    ensures outcomes { IfOk result (λ x. x.outcomes.items ≡ explored.outcomes.items) }
{
    let Explored {
        histories,
        events,
        longest,
        whole,
        outcomes,
    } = explored;
    Ok(Exploration {
        histories: LongCount::of(alloc, histories)?,
        events: LongCount::of(alloc, events)?,
        longest,
        whole,
        outcomes: outcomes_of(alloc, outcomes)?,
    })
}

/// Explores the histories of a script with so many delays at most, or all. The script's own schedule isn't looked at.
///
/// Of histories that come to one state, one goes on for all. Where there are too many states, the histories are explored one by one, as
/// long as there are fewer events than the limit, those with the fewest delays first.
pub fn explore(
    alloc: Global,
    policy: &Policy,
    script: Script,
    workers: u8,
    delays: Option<u64>,
) -> Result<Exploration, NoMemory>
    requires workers { workers ≤ 15 }
    ensures { IfOk result (λ x. TellsEither policy.now script (explored policy.now script workers (bound_of delays)) x) }
{
    match explore_by_states(alloc, policy, workers, script, delays)? {
        Joined::Whole(found) => Ok(found),
        Joined::TooMany(script) => told(
            alloc,
            explore_one_by_one(alloc, policy, script, workers, delays)?,
        ),
    }
}

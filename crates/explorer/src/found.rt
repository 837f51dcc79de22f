//! The outcomes of histories, each with how many have it.

ghost use Rattle.std.specs.Prelude.{◌≡◌, ◌<◌, ◌+◌, ◌^◌, ◌++◌, ◌∷◌, [], if◌then◌else◌, option_map, OnOk};
ghost use Rattle.std.specs.List.{position};
ghost use Rattle.hist_model.specs.ReportAudit.{judging_by};
ghost use Rattle.hist_model.specs.declared.script.Script.{Script};
ghost use Rattle.outcome_text.specs.Sight as sight;
ghost use Rattle.explorer.specs.Tallies.{CountedOutcome, added, counted, has_text, merged, of_one, with_more};

use crate::schedule::schedule_of;
use hist_model::history::History;
use hist_model::policy::Policy;
use hist_model::script::Step;
use outcome_text::outcome_of;
use std::alloc::Global;
use std::marker::Model;
use sys_abi::memory::NoMemory;

/// What some of the explored histories come to.
#[derive(Debug, Drop)]
pub(crate) struct FoundOutcome {
    text: Vec<u8>,
    histories: u64,
    schedule: Option<Vec<Step>>,
}

impl Model for FoundOutcome {
    ghost use Rattle.std.specs.Prelude.{option_map};
    ghost use Rattle.explorer.specs.Tallies.{CountedOutcome};

    ghost Value = { CountedOutcome };

    ghost view = { λ o. record { text = o.text.items; histories = o.histories; schedule = option_map (λ steps. steps.items) o.schedule } };
}

impl FoundOutcome {
    /// What these histories come to: the lines of their calls (`outcome_text`). Empty where no call was entered.
    pub(crate) fn text(&self) -> &[u8]
        ensures { result.now ≡ self.now.text }
    {
        self.text.as_slice()
    }

    /// How many histories come to it.
    pub(crate) fn histories(&self) -> u64
        ensures { result ≡ self.now.histories }
    {
        self.histories
    }

    /// Its text, how many histories come to it, and the schedule of the first of them.
    pub(crate) fn into_parts(self) -> (Vec<u8>, u64, Option<Vec<Step>>)
        ensures text { result.0.items ≡ self.text }
        ensures histories { result.1 ≡ self.histories }
        ensures schedule { option_map (λ steps. steps.items) result.2 ≡ self.schedule }
    {
        let FoundOutcome {
            text,
            histories,
            schedule,
        } = self;
        (text, histories, schedule)
    }

    /// Counts so many histories more.
    fn count(&mut self, histories: u64)
        requires { self.old.histories + histories < 2 ^ 64 }
        ensures { self.new ≡ with_more self.old histories }
    {
        self.histories += histories;
    }
}

/// Where the outcome with a text stands, if there is one.
fn place_of(outcomes: &[FoundOutcome], text: &[u8]) -> Option<usize>
    ensures { result ≡ position (has_text text.now) outcomes.now }
{
    outcomes.iter().position(|outcome| outcome.text() == text)
}

/// Counts so many histories more for the outcome with a text; says whether there is one.
fn count(outcomes: &mut [FoundOutcome], text: &[u8], histories: u64) -> bool
    requires { counted outcomes.old + histories < 2 ^ 64 }
    ensures { (o : CountedOutcome) → o.text ≡ text.now → o.histories ≡ histories → added o outcomes.old ≡ (if result then outcomes.new else outcomes.new ++ o ∷ []) }
{
    match place_of(outcomes, text) {
        Some(place) => {
            outcomes[place].count(histories);
            true
        }
        None => false,
    }
}

/// Counts a history for its outcome, in which the effects at the `hidden` places are out of sight.
pub(crate) fn add_history(
    alloc: Global,
    outcomes: &mut Vec<FoundOutcome>,
    policy: &Policy,
    history: &History,
    hidden: &[usize],
) -> Result<(), NoMemory>
    requires { counted outcomes.old.items + 1 < 2 ^ 64 }
    ensures { OnOk result ((S : Script) → hidden.now ≡ sight.hidden S history.now.events → outcomes.new.items ≡ added (of_one S (judging_by policy.now.rules) history.now.events) outcomes.old.items) }
{
    let text = outcome_of(alloc, policy, history, hidden)?;
    if !count(outcomes.as_mut_slice(), text.as_slice(), 1) {
        let schedule = schedule_of(alloc, history)?;
        outcomes.push(FoundOutcome {
            text,
            histories: 1,
            schedule,
        })?;
    }
    Ok(())
}

/// Adds an outcome to others.
fn add(outcomes: &mut Vec<FoundOutcome>, outcome: FoundOutcome) -> Result<(), NoMemory>
    requires { counted outcomes.old.items + outcome.histories < 2 ^ 64 }
    ensures { OnOk result (outcomes.new.items ≡ added outcome outcomes.old.items) }
{
    if !count(outcomes.as_mut_slice(), outcome.text(), outcome.histories()) {
        outcomes.push(outcome)?;
    }
    Ok(())
}

/// Adds these outcomes to others, one after another.
pub(crate) fn add_all(
    outcomes: &mut Vec<FoundOutcome>,
    more: Vec<FoundOutcome>,
) -> Result<(), NoMemory>
    requires { counted outcomes.old.items + counted more.items < 2 ^ 64 }
    ensures { OnOk result (outcomes.new.items ≡ merged outcomes.old.items more.items) }
{
    for outcome in more {
        add(outcomes, outcome)?;
    }
    Ok(())
}

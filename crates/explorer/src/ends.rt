//! What joined histories come to.

ghost use Rattle.std.specs.Prelude.{◌≡◌, ◌++◌, [], ℕ, List, IfOk, OnOk, Option, map, true};
ghost use Rattle.std.specs.List.{position};
ghost use Rattle.hist_model.specs.declared.policy.Policy.{Policy};
ghost use Rattle.hist_model.specs.declared.script.Script.{Script};
ghost use Rattle.delay_bounded.specs.Explored.{bound_of, explored};
ghost use Rattle.explorer.specs.Bounds.{IsMore, bound_for};
ghost use Rattle.explorer.specs.Levels.{AddsUp, EndAsOne, IsEnd, TellsEnds};
ghost use Rattle.explorer.specs.Paths.{is_first, left_of};
ghost use Rattle.explorer.specs.Ends.{JoinsEnd, JoinsEnds, has_text};
ghost use Rattle.explorer.specs.Sorted.{IsFirstAt, IsSorted, outcome_in};
ghost use Rattle.explorer.specs.Telling.{Tells};
ghost use Rattle.explorer.specs.declared.ends.End.{End as EndValue};
ghost use Rattle.explorer.specs.declared.frames.Frame.{Frame as FrameValue};
ghost use Rattle.explorer.specs.declared.state.Bound.{Bound};

use crate::exploring::{Exploration, Outcome};
use crate::frames::Frame;
use crate::order::comes_first;
use hist_model::script::Step;
use long_count::LongCount;
use std::alloc::Global;
use sys_abi::memory::NoMemory;

/// Histories that come to one text: how many they are, and the first of them.
#[derive(Drop)]
pub(crate) struct End {
    pub(crate) text: Vec<u8>,
    pub(crate) count: LongCount,
    /// The turns of the first, how many delays are left to it, and its schedule.
    pub(crate) frames: Vec<Frame>,
    pub(crate) left: u64,
    pub(crate) schedule: Option<Vec<Step>>,
}

/// What all came to that ended so far.
#[derive(Drop)]
pub(crate) struct Ends {
    ends: Vec<End>,
    histories: LongCount,
    events: LongCount,
    longest: u64,
}

/// Whether the first history of an end comes before that of another.
fn is_earlier(end: &End, other: &End) -> bool
    ensures { result ≡ is_first end.now.left (map left_of end.now.frames.items) other.now.left (map left_of other.now.frames.items) }
{
    comes_first(
        end.left,
        end.frames.as_slice(),
        other.left,
        other.frames.as_slice(),
    )
}

/// Where the end whose first history comes first stands, if there is one.
fn first_of(ends: &[End]) -> Option<usize>
    ensures { IsFirstAt ends.now result }
{
    if ends.is_empty() {
        return None;
    }
    let mut first = 0;
    for place in 1..ends.len() {
        if is_earlier(&ends[place], &ends[first]) {
            first = place;
        }
    }
    Some(first)
}

/// The outcomes, in the order of their first histories.
fn outcomes_of(alloc: Global, mut ends: Vec<End>) -> Result<Vec<Outcome>, NoMemory>
    ensures { IfOk result (λ outcomes. (sorted : List EndValue) × IsSorted ends.items sorted × (outcomes.items ≡ map outcome_in sorted)) }
{
    let mut outcomes = Vec::new(alloc);
    'ends: while let Some(first) = first_of(ends.as_slice()) {
        let end = ends.remove(first);
        outcomes.push(end.into_outcome())?;
    }
    Ok(outcomes)
}

/// Where the end with a text stands, if there is one.
fn place_of(ends: &[End], text: &[u8]) -> Option<usize>
    ensures { result ≡ position (has_text text.now) ends.now }
{
    ends.iter().position(|end| end.text.as_slice() == text)
}

/// Joins histories to those that come to the same text, or adds them where there are none.
fn join_to(alloc: Global, ends: &mut Vec<End>, end: End) -> Result<(), NoMemory>
    ensures { OnOk result (JoinsEnds end ends.old.items ends.new.items) }
{
    match place_of(ends.as_slice(), end.text.as_slice()) {
        Some(place) => {
            ends[place].join(alloc, end)?;
            Ok(())
        }
        None => {
            ends.push(end)?;
            Ok(())
        }
    }
}

impl End {
    /// The outcome.
    fn into_outcome(self) -> Outcome
        ensures { result ≡ outcome_in self }
    {
        let End {
            text,
            count,
            frames: _frames,
            left: _left,
            schedule,
        } = self;
        Outcome::new(text, count, schedule)
    }

    /// Joins others that come to the same text.
    fn join(&mut self, alloc: Global, other: End) -> Result<(), NoMemory>
        ensures { OnOk result (JoinsEnd other self.old self.new) }
    {
        let is_first = is_earlier(&other, self);
        let End {
            text: _text,
            count,
            frames,
            left,
            schedule,
        } = other;
        self.count = self.count.plus(alloc, &count)?;
        if is_first {
            self.frames = frames;
            self.left = left;
            self.schedule = schedule;
        }
        Ok(())
    }
}

impl Ends {
    /// Nothing.
    pub(crate) fn none(alloc: Global) -> Ends
        ensures { (P : Policy) (S : Script) (W : ℕ) (b : Bound) → TellsEnds P S W b [] result }
    {
        Ends {
            ends: Vec::new(alloc),
            histories: LongCount::zero(alloc),
            events: LongCount::zero(alloc),
            longest: 0,
        }
    }

    /// Notes histories of this length that end.
    pub(crate) fn note(&mut self, alloc: Global, end: End, length: u64) -> Result<(), NoMemory>
        ensures { OnOk result ((P : Policy) (S : Script) (W : ℕ) (b : Bound) (done more : List (List FrameValue)) → TellsEnds P S W b done self.old → IsEnd P S W b more end → EndAsOne P S W b length end.text.items more → TellsEnds P S W b (done ++ more) self.new) }
    {
        self.histories = self.histories.plus(alloc, &end.count)?;
        self.events = self.events.plus_times(alloc, &end.count, length)?;
        self.longest = self.longest.max(length);
        join_to(alloc, &mut self.ends, end)?;
        Ok(())
    }

    /// What is told of them all.
    pub(crate) fn told(self, alloc: Global) -> Result<Exploration, NoMemory>
        ensures { IfOk result (λ x. (P : Policy) (S : Script) (W : ℕ) (delays : Option ℕ) (done : List (List FrameValue)) → TellsEnds P S W (bound_for delays) done self → ((k : ℕ) → IsMore (bound_for delays) k → AddsUp P S W (bound_for delays) k done []) → Tells P S (explored P S W (bound_of delays)) true x) }
    {
        let Ends {
            ends,
            histories,
            events,
            longest,
        } = self;
        Ok(Exploration {
            histories,
            events,
            longest,
            whole: true,
            outcomes: outcomes_of(alloc, ends)?,
        })
    }
}

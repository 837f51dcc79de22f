//! Histories of one length after which all goes on alike.

ghost use Rattle.std.specs.Prelude.{◌≡◌, ◌==◌, ◌+◌, ◌++◌, ◌∷◌, [], ℕ, get_or, if◌then◌else◌, sum, IfOk, OnOk};
ghost use Rattle.explorer.specs.Joining.{Begins, CountsMore, JoinsTo, place_of};
ghost use Rattle.explorer.specs.Bounds.{bound_for};

use crate::frames::{Frame, copied};
use crate::order::comes_first;
use long_count::LongCount;
use std::alloc::Global;
use sys_abi::memory::NoMemory;

/// A bound of delays, or none.
#[derive(Clone, Copy, Debug)]
pub(crate) struct Bound {
    /// So many delays may be had. Without a bound there are more than any history has that is explored.
    pub(crate) most: u64,
    /// Whether it is meant as a bound.
    pub(crate) is_meant: bool,
}

impl Bound {
    /// That of so many delays, or none.
    pub(crate) fn of(delays: Option<u64>) -> Bound
        ensures { result ≡ bound_for delays }
    {
        match delays {
            Some(most) => Bound {
                most,
                is_meant: true,
            },
            None => Bound {
                most: u64::MAX,
                is_meant: false,
            },
        }
    }

    /// Where histories are counted that had so many delays, and then some more; none where they aren't within the bound any more.
    fn place_of(self, before: u64, delays: u64) -> Option<usize>
        ensures { result ≡ place_of self before delays }
    {
        if !self.is_meant {
            return Some(before as usize);
        }
        match before.checked_add(delays) {
            Some(place) if place <= self.most => Some(place as usize),
            _ => None,
        }
    }
}

/// Joined histories: how many they are, and the first of them.
#[derive(Drop)]
pub(crate) struct State {
    /// How many have each number of delays; all of them in the first place where there is no bound.
    counts: Vec<LongCount>,
    /// The turns of the first, and how many delays are left to it.
    frames: Vec<Frame>,
    left: u64,
    /// So many are left to each of them at least.
    least: u64,
}

/// These turns, and one more.
fn with_frame(alloc: Global, frames: &[Frame], more: Frame) -> Result<Vec<Frame>, NoMemory>
    ensures { IfOk result (λ all. all.items ≡ frames.now ++ more ∷ []) }
{
    let mut all = copied(alloc, frames)?;
    all.push(more)?;
    Ok(all)
}

impl State {
    /// The start, to which one history leads.
    pub(crate) fn start(alloc: Global, bound: Bound) -> Result<State, NoMemory>
        ensures counts { IfOk result (λ s. s.counts.items ≡ 1 ∷ []) }
        ensures frames { IfOk result (λ s. s.frames.items ≡ []) }
        ensures left { IfOk result (λ s. s.left ≡ bound.most) }
        ensures least { IfOk result (λ s. s.least ≡ bound.most) }
    {
        let mut counts = Vec::new(alloc);
        counts.push(LongCount::of(alloc, 1)?)?;
        Ok(State {
            counts,
            frames: Vec::new(alloc),
            left: bound.most,
            least: bound.most,
        })
    }

    /// The histories of another state that lead by a turn to one to which nothing was joined, after so many delays more.
    pub(crate) fn after_turn(
        alloc: Global,
        from: &State,
        frame: Frame,
        delays: u64,
        bound: Bound,
    ) -> Result<State, NoMemory>
        ensures { IfOk result (λ s. Begins bound delays frame from.now s) }
    {
        let left = frame.left;
        let mut state = State {
            counts: Vec::new(alloc),
            frames: with_frame(alloc, from.frames.as_slice(), frame)?,
            left,
            least: from.least.saturating_sub(delays),
        };
        state.count_all(alloc, from, delays, bound)?;
        Ok(state)
    }

    /// The turns of the first history.
    pub(crate) fn frames(&self) -> &[Frame]
        ensures { result.now ≡ self.now.frames.items }
    {
        self.frames.as_slice()
    }

    /// How many delays are left to it.
    pub(crate) fn left(&self) -> u64
        ensures { result ≡ self.now.left }
    {
        self.left
    }

    /// How many are left to each at least.
    pub(crate) fn least(&self) -> u64
        ensures { result ≡ self.now.least }
    {
        self.least
    }

    /// Counts so many more in a place.
    fn count_more(&mut self, alloc: Global, place: usize, more: &LongCount) -> Result<(), NoMemory>
        ensures counts { OnOk result ((i : ℕ) → get_or self.new.counts.items i 0 ≡ get_or self.old.counts.items i 0 + (if i == place then more.now else 0)) }
        ensures frames { self.new.frames ≡ self.old.frames }
        ensures left { self.new.left ≡ self.old.left }
        ensures least { self.new.least ≡ self.old.least }
    {
        'places: while self.counts.len() <= place {
            self.counts.push(LongCount::zero(alloc))?;
        }
        let sum = self.counts[place].plus(alloc, more)?;
        self.counts[place] = sum;
        Ok(())
    }

    /// Counts the histories of another state that lead here after so many delays more, as far as they keep within the bound.
    fn count_all(
        &mut self,
        alloc: Global,
        from: &State,
        delays: u64,
        bound: Bound,
    ) -> Result<(), NoMemory>
        ensures counts { OnOk result (CountsMore bound delays from.now.counts.items self.old.counts.items self.new.counts.items) }
        ensures frames { self.new.frames ≡ self.old.frames }
        ensures left { self.new.left ≡ self.old.left }
        ensures least { self.new.least ≡ self.old.least }
    {
        for before in 0..from.counts.len() {
            let Some(place) = bound.place_of(before as u64, delays) else {
                continue;
            };
            self.count_more(alloc, place, &from.counts[before])?;
        }
        Ok(())
    }

    /// Joins the histories of another state that lead here by a turn, after so many delays more.
    pub(crate) fn join(
        &mut self,
        alloc: Global,
        from: &State,
        frame: Frame,
        delays: u64,
        bound: Bound,
    ) -> Result<(), NoMemory>
        ensures { OnOk result (JoinsTo bound delays frame from.now self.old self.new) }
    {
        let left = frame.left;
        let frames = with_frame(alloc, from.frames.as_slice(), frame)?;
        if comes_first(left, frames.as_slice(), self.left, self.frames.as_slice()) {
            self.frames = frames;
            self.left = left;
        }
        self.least = self.least.min(from.least.saturating_sub(delays));
        self.count_all(alloc, from, delays, bound)
    }

    /// How many histories they are.
    pub(crate) fn count(&self, alloc: Global) -> Result<LongCount, NoMemory>
        ensures { IfOk result (λ all. all ≡ sum self.now.counts.items) }
    {
        let mut all = LongCount::zero(alloc);
        for count in &self.counts {
            all = all.plus(alloc, count)?;
        }
        Ok(all)
    }
}

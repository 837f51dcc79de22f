//! Explores the histories of a script within a bound of delays, one walk after another.

ghost use Rattle.std.specs.Prelude.{◌≡◌, ◌≤◌, min, IfOk};
ghost use Rattle.delay_bounded.specs.Explored.{bound_of, explored};
ghost use Rattle.explorer.specs.Taken.{event_limit};
ghost use Rattle.explorer.specs.Telling.{TellsFirst};

use crate::found::FoundOutcome;
use crate::one_walk::{Attempt, walk_all};
use crate::passes::explore_by_passes;
use crate::tally::EVENT_LIMIT;
use hist_model::policy::Policy;
use hist_model::script::Script;
use std::alloc::Global;
use sys_abi::memory::NoMemory;

/// What exploring one by one came to, as long as there were fewer events than the limit.
#[derive(Debug, Drop)]
pub(crate) struct Explored {
    /// How many histories were explored.
    pub(crate) histories: u64,
    /// How many events they have together, the first spawn and the close included.
    pub(crate) events: u64,
    /// How many the longest of them has.
    pub(crate) longest: u64,
    /// Whether no history within the bound is left.
    pub(crate) whole: bool,
    /// What they come to, in the order in which each outcome came up first.
    pub(crate) outcomes: Vec<FoundOutcome>,
}

/// The bound, or the limit of events: before a history with so many delays there is one with each smaller number, and so there would
/// be too many events.
fn bound_within(delays: Option<u64>) -> u64
    ensures { result ≡ min (bound_of delays) event_limit }
{
    match delays {
        Some(delays) => delays.min(EVENT_LIMIT),
        None => EVENT_LIMIT,
    }
}

/// Explores the first histories of a script with so many delays at most, or of all.
///
/// One walk after another leads through them all, whatever their delays. Only where they have too many events the order decides of
/// which something is told: those with the fewest delays are explored first then, which takes a pass for each number of delays.
pub(crate) fn explore_one_by_one(
    alloc: Global,
    policy: &Policy,
    script: Script,
    workers: u8,
    delays: Option<u64>,
) -> Result<Explored, NoMemory>
    requires workers { workers ≤ 15 }
    ensures { IfOk result (λ x. TellsFirst policy.now script (explored policy.now script workers (bound_of delays)) x) }
{
    let bound = bound_within(delays);
    match walk_all(alloc, policy, workers, script, bound)? {
        Attempt::Whole(tally) => Ok(tally.told(true)),
        Attempt::TooMany(script) => explore_by_passes(alloc, policy, workers, script, bound),
    }
}

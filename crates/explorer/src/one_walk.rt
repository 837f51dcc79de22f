//! All histories of a script within a bound of delays, by one walk after another.

ghost use Rattle.std.specs.Prelude.{◌≤◌, IfOk};
ghost use Rattle.explorer.specs.Taken.{event_limit};
ghost use Rattle.explorer.specs.Telling.{TellsAll};

use crate::by_delays::ByDelays;
use crate::tally::Tally;
use crate::walker::{Walked, Walker};
use hist_model::policy::Policy;
use hist_model::script::Script;
use std::alloc::Global;
use sys_abi::memory::NoMemory;

/// What walking through all histories came to.
#[derive(Drop)]
pub(crate) enum Attempt {
    /// They have fewer events than the limit.
    Whole(Tally),
    /// They have more, or as many; the script comes back.
    TooMany(Script),
}

/// Walks through all histories with so many delays at most, as long as there are fewer events than the limit.
pub(crate) fn walk_all(
    alloc: Global,
    policy: &Policy,
    workers: u8,
    script: Script,
    bound: u64,
) -> Result<Attempt, NoMemory>
    requires workers { workers ≤ 15 }
    requires bound { bound ≤ event_limit }
    ensures { IfOk result (λ attempt. TellsAll policy.now script workers bound attempt) }
{
    let mut found = ByDelays::none(alloc, bound);
    let mut walker = Walker::begin(alloc, script, bound)?;
    'walks: loop {
        match walker.next(alloc, policy, workers)? {
            Walked::All(_script) => {
                let all = found.joined(alloc)?;
                return Ok(Attempt::Whole(all));
            }
            Walked::Ended {
                left,
                history,
                hidden,
                rest,
            } => {
                found.note(alloc, policy, left, &history, hidden.as_slice())?;
                if found.is_full() {
                    return Ok(Attempt::TooMany(rest.into_script()?));
                }
                walker = rest;
            }
        }
    }
}

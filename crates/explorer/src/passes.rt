//! The first histories of a script in their order, those with the fewest delays first: with each number of delays by a pass of its own.

ghost use Rattle.std.specs.Prelude.{◌≡◌, ◌≤◌, ◌<◌, ◌^◌, List, length, IfOk, OnOk};
ghost use Rattle.hist_model.specs.declared.event.Event.{Event};
ghost use Rattle.hist_model.specs.declared.script.Script.{Script as ScriptValue};
ghost use Rattle.delay_bounded.specs.Explored.{Walk, closed, explored, with_delays};
ghost use Rattle.explorer.specs.Taken.{event_limit};
ghost use Rattle.outcome_text.specs.Sight as sight;
ghost use Rattle.explorer.specs.Telling.{Explores, Notes, TellsFirst, TellsOf};

use crate::one_by_one::Explored;
use crate::tally::Tally;
use crate::walker::{Walked, Walker};
use hist_model::history::History;
use hist_model::policy::Policy;
use hist_model::script::Script;
use std::alloc::Global;
use sys_abi::memory::NoMemory;

/// Notes the history of a walk that has no delay left, in which the effects at the `hidden` places are out of sight. Gives false where
/// there are too many events before it.
fn note_spent(
    alloc: Global,
    policy: &Policy,
    found: &mut Tally,
    left: u64,
    history: &History,
    hidden: &[usize],
) -> Result<bool, NoMemory>
    requires told { (S : ScriptValue) × (L : List (List Event)) × TellsOf policy.now S L found.old }
    requires begun { 0 < length history.now.events }
    requires few { length history.now.events < 2 ^ 63 }
    ensures told { OnOk result ((S : ScriptValue) (L : List (List Event)) → hidden.now ≡ sight.hidden S history.now.events → TellsOf policy.now S L found.old → (M : List (List Event)) × TellsOf policy.now S M found.new) }
    ensures notes { IfOk result (λ goes_on. (S : ScriptValue) (w : Walk) → w.left ≡ left → closed policy.now S w ≡ history.now.events → hidden.now ≡ sight.hidden S history.now.events → Notes policy.now S w found.old goes_on found.new) }
{
    if left != 0 {
        return Ok(true);
    }
    if found.is_full() {
        return Ok(false);
    }
    found.note(alloc, policy, history, hidden)?;
    Ok(true)
}

/// Explores the histories with so many delays, as long as there are fewer events than the limit. Gives the script back, and says
/// whether none of them is left.
fn pass(
    alloc: Global,
    policy: &Policy,
    workers: u8,
    script: Script,
    delays: u64,
    found: &mut Tally,
) -> Result<(Script, bool), NoMemory>
    requires workers { workers ≤ 15 }
    requires told { (L : List (List Event)) × TellsOf policy.now script L found.old }
    ensures script { IfOk result (λ r. r.0 ≡ script) }
    ensures explored { IfOk result (λ r. Explores policy.now script (with_delays policy.now script workers delays) found.old r.1 found.new) }
{
    let mut walker = Walker::begin(alloc, script, delays)?;
    'walks: loop {
        match walker.next(alloc, policy, workers)? {
            Walked::All(script) => return Ok((script, true)),
            Walked::Ended {
                left,
                history,
                hidden,
                rest,
            } => {
                let goes_on = note_spent(alloc, policy, found, left, &history, hidden.as_slice())?;
                if !goes_on {
                    return Ok((rest.into_script()?, false));
                }
                walker = rest;
            }
        }
    }
}

/// Explores the histories with so many delays at most, pass by pass. Where no history has a number of delays, none has more.
pub(crate) fn explore_by_passes(
    alloc: Global,
    policy: &Policy,
    workers: u8,
    mut script: Script,
    bound: u64,
) -> Result<Explored, NoMemory>
    requires workers { workers ≤ 15 }
    requires bound { bound ≤ event_limit }
    ensures { IfOk result (λ x. TellsFirst policy.now script (explored policy.now script workers bound) x) }
{
    let mut found = Tally::none(alloc);
    for delays in 0..bound + 1 {
        let before = found.histories();
        let (back, whole) = pass(alloc, policy, workers, script, delays, &mut found)?;
        if !whole {
            return Ok(found.told(false));
        }
        if found.histories() == before {
            return Ok(found.told(true));
        }
        script = back;
    }
    Ok(found.told(true))
}

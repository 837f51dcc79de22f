//! All histories of a script within a bound of delays, by the states to which they come: of those of one length after which all goes
//! on alike, one goes on for all.

ghost use Rattle.std.specs.Prelude.{◌≡◌, ◌≤◌, ◌-◌, [], ℕ, List, IfOk, length, true};
ghost use Rattle.hist_model.specs.Legal.{started};
ghost use Rattle.delay_bounded.specs.Explored.{bound_of};
ghost use Rattle.explorer.specs.Bounds.{HasRoom};
ghost use Rattle.explorer.specs.Frames.{AreTurns};
ghost use Rattle.explorer.specs.Levels.{AreStates, EndsSo, FindsNext, GoesOn, IsState, LeadsOn, able_after, all_in, events_of};
ghost use Rattle.explorer.specs.Joining.{JoinsIn, turns_behind};
ghost use Rattle.explorer.specs.Keys.{key_of};
ghost use Rattle.explorer.specs.Runs.{IsRun, script_in};
ghost use Rattle.explorer.specs.Telling.{TellsJoined};
ghost use Rattle.explorer.specs.declared.frames.Frame.{Frame as FrameValue};

use crate::ends::{End, Ends};
use crate::exploring::Exploration;
use crate::frames::{Frame, copied, last_place};
use crate::level::Level;
use crate::run::{Run, Turn};
use crate::schedule::schedule_of;
use crate::state::{Bound, State};
use crate::walk::replay;
use hist_model::policy::Policy;
use hist_model::script::Script;
use outcome_text::outcome_of;
use std::alloc::Global;
use sys_abi::memory::NoMemory;

/// The most states that are met.
pub(crate) const STATE_LIMIT: usize = 500_000;

/// The most that joining may cost. A state costs its number of events, which are replayed for each turn after it, and a fixed part.
const COST_LIMIT: usize = 20_000_000;

/// What a state costs beside its events: a kernel of its own for each replay, and its key.
const COST_OF_STATE: usize = 32;

/// More delays than one turn can have: there are fewer places in the circle than events can be counted.
const MOST_CHOICES: u64 = 1 << 63;

/// What joining histories came to.
#[derive(Drop)]
pub(crate) enum Joined {
    /// All within the bound.
    Whole(Exploration),
    /// There are more states than the limit, or they cost more than the limit of costs; the script comes back.
    TooMany(Script),
}

/// A run with the next turn after those of a state, if there is one.
struct Found {
    run: Run,
    turn: Option<Turn>,
    /// No place from this one on is that of an actor that is able to step after the state.
    end: usize,
}

/// The next turn after these, where some places were tried.
fn next_turn(
    alloc: Global,
    policy: &Policy,
    workers: u8,
    bound: Bound,
    script: Script,
    frames: &[Frame],
    tried: usize,
) -> Result<Found, NoMemory>
    requires workers { workers ≤ 15 }
    requires turns { AreTurns policy.now script workers (started script) frames.now }
    ensures { IfOk result (λ found. FindsNext policy.now script workers bound frames.now tried found) }
{
    let mut run = replay(alloc, policy, workers, script, frames)?;
    run.has_few_events();
    let last = last_place(frames);
    let end = run.end_of_able(workers, last);
    let turn = run.next_turn(alloc, policy, workers, last, tried)?;
    Ok(Found { run, turn, end })
}

/// Notes the histories of a state after which nobody is able to step. Gives the script back.
fn note_end(
    alloc: Global,
    policy: &Policy,
    workers: u8,
    bound: Bound,
    state: &State,
    run: Run,
    ends: &mut Ends,
) -> Result<Script, NoMemory>
    requires workers { workers ≤ 15 }
    requires run { IsRun policy.now (script_in run) (events_of policy.now (script_in run) workers bound state.now.frames.items) run }
    requires over { able_after policy.now (script_in run) workers bound state.now.frames.items 0 ≡ [] }
    ensures script { IfOk result (λ back. back ≡ script_in run) }
    ensures ends { IfOk result (λ back. (n : ℕ) (key : List ℕ) (ms : List (List FrameValue)) → IsState policy.now (script_in run) workers bound n key ms state.now → EndsSo policy.now (script_in run) workers bound ms ends.old ends.new) }
{
    run.has_few_events();
    let hidden = run.hidden(alloc)?;
    let (script, history) = run.closed()?;
    let end = End {
        text: outcome_of(alloc, policy, &history, hidden.as_slice())?,
        count: state.count(alloc)?,
        frames: copied(alloc, state.frames())?,
        left: state.left(),
        schedule: schedule_of(alloc, &history)?,
    };
    ends.note(alloc, end, history.len() as u64)?;
    Ok(script)
}

/// Joins the histories of a state, after which an actor had its turn, to those of the next level. Gives the script back.
fn join_turn(
    alloc: Global,
    policy: &Policy,
    workers: u8,
    bound: Bound,
    state: &State,
    run: Run,
    frame: Frame,
    delays: u64,
    next: &mut Level,
) -> Result<Script, NoMemory>
    requires run { IsRun policy.now (script_in run) (events_of policy.now (script_in run) workers bound (turns_behind state.now frame)) run }
    requires left { frame.left ≡ state.now.left - delays }
    requires within { delays ≤ state.now.left }
    requires level { length next.old.keys.items ≡ length next.old.states.items }
    ensures script { IfOk result (λ back. back ≡ script_in run) }
    ensures level { IfOk result (λ back. (key : List ℕ) × (key ≡ key_of policy.now frame.place run) × JoinsIn bound delays frame state.now key next.old next.new) }
{
    let key = run.key(alloc, policy, frame.place)?;
    next.join(alloc, key, state, frame, delays, bound)?;
    let (script, _history) = run.closed()?;
    Ok(script)
}

/// Goes on from a state with each actor that is able to step, or to its end. Gives the script back.
fn go_on(
    alloc: Global,
    policy: &Policy,
    workers: u8,
    bound: Bound,
    mut script: Script,
    state: &State,
    next: &mut Level,
    ends: &mut Ends,
) -> Result<Script, NoMemory>
    requires workers { workers ≤ 15 }
    requires state { (n : ℕ) × (key : List ℕ) × (ms : List (List FrameValue)) × IsState policy.now script workers bound n key ms state.now }
    requires room { HasRoom bound state.now.least }
    requires level { length next.old.keys.items ≡ length next.old.states.items }
    ensures script { IfOk result (λ back. back ≡ script) }
    ensures level { IfOk result (λ back. length next.new.keys.items ≡ length next.new.states.items) }
    ensures goes_on { IfOk result (λ back. (n : ℕ) (key : List ℕ) (ms : List (List FrameValue)) → IsState policy.now script workers bound n key ms state.now → GoesOn policy.now script workers bound n ms ends.old ends.new next.old next.new) }
{
    let mut tried = 0;
    let mut delays = 0;
    'turns: while let Some(left) = state.left().checked_sub(delays) {
        let Found { run, turn, end } = next_turn(
            alloc,
            policy,
            workers,
            bound,
            script,
            state.frames(),
            tried,
        )?;
        let Some(turn) = turn else {
            if delays == 0 {
                return note_end(alloc, policy, workers, bound, state, run, ends);
            }
            let (script, _history) = run.closed()?;
            return Ok(script);
        };
        let frame = Frame {
            place: turn.place,
            next: turn.next,
            left,
        };
        script = join_turn(
            alloc, policy, workers, bound, state, run, frame, delays, next,
        )?;
        tried = turn.next;
        delays += 1;
        if end <= tried {
            return Ok(script);
        }
    }
    Ok(script)
}

/// Whether each history of a state has delays left for any turn.
fn has_room(state: &State, bound: Bound) -> bool
    ensures { result ≡ true → HasRoom bound state.now.least }
{
    bound.is_meant || MOST_CHOICES <= state.least()
}

/// The states of the next level, or none where too many delays were had. Gives the script back.
fn next_level(
    alloc: Global,
    policy: &Policy,
    workers: u8,
    bound: Bound,
    mut script: Script,
    states: &[State],
    ends: &mut Ends,
) -> Result<(Script, Option<Level>), NoMemory>
    requires workers { workers ≤ 15 }
    requires states { (n : ℕ) × (keys : List (List ℕ)) × (groups : List (List (List FrameValue))) × AreStates policy.now script workers bound n keys groups states.now }
    ensures script { IfOk result (λ back. back.0 ≡ script) }
    ensures goes_on { IfOk result (λ back. (n : ℕ) (keys : List (List ℕ)) (groups : List (List (List FrameValue))) → AreStates policy.now script workers bound n keys groups states.now → LeadsOn policy.now script workers bound n (all_in groups) ends.old ends.new back.1) }
{
    let mut next = Level::none(alloc);
    'states: for state in states {
        if !has_room(state, bound) {
            return Ok((script, None));
        }
        script = go_on(
            alloc, policy, workers, bound, script, state, &mut next, ends,
        )?;
    }
    Ok((script, Some(next)))
}

/// What the states of a level cost, whose histories have this length.
fn cost_of(states: usize, length: usize) -> usize {
    states.saturating_mul(length.saturating_add(COST_OF_STATE))
}

/// Explores the histories with so many delays at most, or all, as long as they come to fewer states than the limit, and cost no more.
///
/// Without a delay there is one history, in which nothing is joined: the script comes back at once.
pub(crate) fn explore_by_states(
    alloc: Global,
    policy: &Policy,
    workers: u8,
    mut script: Script,
    delays: Option<u64>,
) -> Result<Joined, NoMemory>
    requires { workers ≤ 15 }
    ensures { IfOk result (λ joined. TellsJoined policy.now script workers (bound_of delays) joined) }
{
    if delays == Some(0) {
        return Ok(Joined::TooMany(script));
    }
    let bound = Bound::of(delays);
    let mut ends = Ends::none(alloc);
    let mut states = Vec::new(alloc);
    states.push(State::start(alloc, bound)?)?;
    let mut room = STATE_LIMIT;
    let mut budget = COST_LIMIT;
    let mut length: usize = 0;
    'levels: while !states.is_empty() {
        let cost = cost_of(states.len(), length);
        if room < states.len() || budget < cost {
            return Ok(Joined::TooMany(script));
        }
        room -= states.len();
        budget -= cost;
        length = length.saturating_add(1);
        let (back, next) = next_level(
            alloc,
            policy,
            workers,
            bound,
            script,
            states.as_slice(),
            &mut ends,
        )?;
        script = back;
        let Some(next) = next else {
            return Ok(Joined::TooMany(script));
        };
        states = next.into_states();
    }
    Ok(Joined::Whole(ends.told(alloc)?))
}

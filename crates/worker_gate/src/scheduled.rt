//! The play of a schedule: step by step, or in a turn of the listener's lock for each step.

ghost use Rattle.std.specs.Prelude.{◌≡◌, ◌+◌, ◌<◌, ◌≤◌, false, length, List, None, IfOk, IfSome, OnOk, true};
ghost use Rattle.hist_model.specs.Legal.{played, with_schedule};
ghost use Rattle.hist_model.specs.declared.event.Event.{Event};
ghost use Rattle.hist_model.specs.declared.history.Setup.{Setup};
ghost use Rattle.turn_lock.specs.Facts.{IsAlone, IsPassOf};
ghost use Rattle.turn_lock.specs.Lists.{Begins};
ghost use Rattle.worker_gate.specs.Replacing.{handed_if, handed_in};
ghost use Rattle.worker_gate.specs.Scheduling.{IsPlace, Moves, with_rest};

use crate::schedule::Line;
use crate::served::{Played, Served};
use hist_model::event::Actor;
use hist_model::policy::Policy;
use hist_model::script::Script;
use std::alloc::Global;
use std::sync::Wait;
use sys_abi::memory::NoMemory;
use turn_lock::{Pass, Turn, TurnLock};

/// A place in a schedule.
#[derive(Drop)]
pub(crate) struct Place {
    /// The line in hand, of which no step may be left.
    pub(crate) line: Line,
    /// The index of the line after it.
    pub(crate) next: usize,
    /// Whether the schedule is over.
    pub(crate) over: bool,
}

impl Place {
    /// The place before the first line.
    fn start() -> Place
        ensures place { (made : Setup) → (K : List Event) → IsPlace made K result }
        ensures rest { (made : Setup) → (K : List Event) → with_rest made result K ≡ with_schedule made.policy made.script made.script.schedule K }
    {
        Place {
            line: Line {
                who: Actor::Worker(0),
                task: None,
                left: 0,
            },
            next: 0,
            over: false,
        }
    }

    /// Takes the next line, after one of which no step is left.
    fn take_line(&mut self, alloc: Global, state: &Served) -> Result<(), NoMemory>
        requires place { IsPlace state.now.setup state.now.history.events self.old }
        requires done { self.old.line.left ≡ 0 }
        requires goes_on { self.old.over ≡ false }
        ensures moves { OnOk result (Moves state.now.setup self.old state.now.history.events self.new state.now.history.events) }
    {
        match state.line(alloc, self.next)? {
            Some(line) => {
                self.line = line;
                self.next += 1;
            }
            None => self.over = true,
        }
        Ok(())
    }

    /// Makes the next step of the line in hand.
    fn take_step(&mut self, alloc: Global, state: &mut Served) -> Result<(), NoMemory>
        requires place { IsPlace state.old.setup state.old.history.events self.old }
        requires left { 0 < self.old.line.left }
        requires unlimited { state.old.setup.limit ≡ None }
        ensures moves { OnOk result (Moves state.old.setup self.old state.old.history.events self.new state.new.history.events) }
        ensures setup { state.new.setup ≡ state.old.setup }
        ensures history { Begins state.new.history.events state.old.history.events }
        ensures one { length state.new.history.events ≤ length state.old.history.events + 1 }
    {
        state.step(alloc, &self.line.who, self.line.task)?;
        self.line.left -= 1;
        Ok(())
    }

    /// Makes the next step of the schedule, or finds that it is over.
    fn advance(&mut self, alloc: Global, state: &mut Served) -> Result<(), NoMemory>
        requires place { IsPlace state.old.setup state.old.history.events self.old }
        requires goes_on { self.old.over ≡ false }
        requires unlimited { state.old.setup.limit ≡ None }
        ensures moves { OnOk result (Moves state.old.setup self.old state.old.history.events self.new state.new.history.events) }
        ensures setup { state.new.setup ≡ state.old.setup }
        ensures history { Begins state.new.history.events state.old.history.events }
        ensures one { length state.new.history.events ≤ length state.old.history.events + 1 }
    {
        if self.line.left != 0 {
            return self.take_step(alloc, state);
        }
        self.take_line(alloc, state)?;
        if self.line.left == 0 {
            return Ok(());
        }
        self.take_step(alloc, state)
    }
}

/// Makes the steps of the schedule of a state's script, in order. Want of memory ends it.
fn play_steps(alloc: Global, state: &mut Served) -> Result<(), NoMemory>
    requires unlimited { state.old.setup.limit ≡ None }
    ensures setup { state.new.setup ≡ state.old.setup }
    ensures played { OnOk result (state.new.history.events ≡ with_schedule state.old.setup.policy state.old.setup.script state.old.setup.script.schedule state.old.history.events) }
{
    let mut place = Place::start();
    while !place.over {
        place.advance(alloc, state)?;
    }
    Ok(())
}

/// A play of a schedule, of which each turn makes the next step.
#[derive(Drop)]
struct SchedulePlay {
    alloc: Global,
    place: Place,
    /// Whether the last turn found memory.
    done: bool,
}

impl Turn<Served> for SchedulePlay {
    ghost plays = { λ t s u e. u.done ≡ true → Moves s.setup t.place s.history.events u.place e.history.events };

    ghost asks = { λ t s. IsPlace s.setup s.history.events t.place × (t.place.over ≡ false) × (s.setup.limit ≡ None) };

    fn play(&mut self, state: &mut Served) {
        let advanced = self.place.advance(self.alloc, state);
        self.done = advanced.is_ok();
    }
}

/// One turn of the lock.
fn take_turn<W: Wait>(
    rt: &W,
    lock: &TurnLock<Served>,
    pass: &mut Pass,
    play: &mut SchedulePlay,
) -> Result<(), NoMemory>
    requires own { IsPassOf lock.now pass.old × IsAlone pass.old }
    requires unlimited { lock.now.setup.limit ≡ None }
    requires place { IsPlace lock.now.setup pass.old.seen play.old.place }
    requires goes_on { play.old.place.over ≡ false }
    ensures own { IsPassOf lock.now pass.new × IsAlone pass.new }
    ensures begins { Begins pass.new.seen pass.old.seen }
    ensures moves { OnOk result (Moves lock.now.setup play.old.place pass.old.seen play.new.place pass.new.seen) }
{
    lock.turn(rt, pass, play);
    if play.done { Ok(()) } else { Err(NoMemory) }
}

/// Makes the steps of the schedule of the script behind a lock, in order, each in a turn of the lock. It waits where another turn
/// runs.
///
/// Want of memory ends it; the turns that were made stay, and the pass has seen them.
pub fn play_schedule<W: Wait>(
    rt: &W,
    alloc: Global,
    lock: &TurnLock<Served>,
    pass: &mut Pass,
) -> Result<(), NoMemory>
    requires own { IsPassOf lock.now pass.old × IsAlone pass.old }
    requires unlimited { lock.now.setup.limit ≡ None }
    ensures own { IsPassOf lock.now pass.new × IsAlone pass.new }
    ensures begins { Begins pass.new.seen pass.old.seen }
    ensures played { OnOk result (pass.new.seen ≡ with_schedule lock.now.setup.policy lock.now.setup.script lock.now.setup.script.schedule pass.old.seen) }
{
    let mut play = SchedulePlay {
        alloc,
        place: Place::start(),
        done: true,
    };
    while !play.place.over {
        take_turn(rt, lock, pass, &mut play)?;
    }
    Ok(())
}

/// Plays the schedule of a script on a kernel and its workers, and closes the listener. Where a number of steps is given, workers are
/// replaced on the way after each so many of them.
pub fn play(
    alloc: Global,
    policy: Policy,
    script: Script,
    every: Option<u32>,
) -> Result<Played, NoMemory>
    requires { IfSome every (λ n. 0 < n) }
    ensures events { IfOk result (λ p. p.history.events ≡ played policy script) }
    ensures policy { IfOk result (λ p. p.policy ≡ policy) }
    ensures script { IfOk result (λ p. p.script ≡ script) }
    ensures handed { IfOk result (λ p. handed_in p.handed ≡ handed_if every p.history.events) }
{
    let mut served = Served::new(alloc, policy, script, None, every)?;
    play_steps(alloc, &mut served)?;
    served.finish()
}

/// The same, with each step in a turn of a lock.
pub fn play_in_turns<W: Wait>(
    rt: &W,
    alloc: Global,
    policy: Policy,
    script: Script,
    every: Option<u32>,
) -> Result<Played, NoMemory>
    requires { IfSome every (λ n. 0 < n) }
    ensures events { IfOk result (λ p. p.history.events ≡ played policy script) }
    ensures policy { IfOk result (λ p. p.policy ≡ policy) }
    ensures script { IfOk result (λ p. p.script ≡ script) }
    ensures handed { IfOk result (λ p. handed_in p.handed ≡ handed_if every p.history.events) }
{
    let served = Served::new(alloc, policy, script, None, every)?;
    let Ok((lock, mut pass)) = TurnLock::new(alloc, served) else {
        return Err(NoMemory);
    };
    play_schedule(rt, alloc, &lock, &mut pass)?;
    lock.close(pass).finish()
}

//! Callers of the lock: one on one thread, two that meet, sixteen that race, and a state whose type keeps a fact.

ghost use Rattle.std.specs.Prelude.{◌≡◌, ◌+◌, ◌≤◌, ◌∷◌, [], ◌++◌, length, true, MatchBool, IfSome, IfOk, None, All};
ghost use Rattle.hist_model.specs.declared.event.Actor.TheVariants.{Worker};
ghost use Rattle.hist_model.specs.declared.event.What.TheVariants.{Skip};
ghost use Rattle.turn_lock.specs.Lists.{Begins};
ghost use Rattle.turn_lock.specs.Facts.{IsPassOf, IsAlone};

use hist_model::event::{Actor, Event, What};
use hist_model::history::History;
use hist_model::policy::Policy;
use hist_model::request::NodeRef;
use hist_model::script::{Figures, MapRange, Script};
use hist_model::text::Sequence;
use policy_reader::read_policy;
use std::alloc::{AllocError, Global};
use std::process::Abort;
use std::sync::Wait;
use std::thread;
use std::thread::Threads;
use turn_lock::{Journalled, Pass, Turn, TurnLock};

/// A history, and what it was set up with.
#[derive(Drop)]
struct Notes {
    policy: Policy,
    script: Script,
    limit: Option<u8>,
    history: History,
}

impl Journalled for Notes {
    ghost history = { λ n. n.history };

    ghost setup = { λ n. record { policy = n.policy; script = n.script; limit = n.limit; every = None } };

    fn journal(&self) -> &History {
        &self.history
    }
}

/// A script of one program that does nothing.
fn script(alloc: Global) -> Result<Script, AllocError> {
    let page = MapRange {
        start: 0x10000,
        pages: 1,
    };
    let program = Sequence::new(Vec::new(alloc));
    Ok(Script {
        pidbase: 0,
        pidmax: 9,
        firstid: 1,
        rlimit: 4,
        killable: false,
        root: NodeRef { ordinal: 0 },
        figures: Figures::NONE,
        tree: Sequence::new(Vec::new(alloc)),
        broker: Sequence::new(Vec::new(alloc)),
        map: Sequence::new(vec![in alloc; page]?),
        filters: Sequence::new(Vec::new(alloc)),
        programs: Sequence::new(vec![in alloc; program]?),
        schedule: Sequence::new(Vec::new(alloc)),
    })
}

fn no_notes<R: Abort>(rt: &R, alloc: Global) -> Notes
    ensures { result.history.events ≡ [] }
{
    Notes {
        policy: read_policy(alloc, b"{}").expect(rt, "memory"),
        script: script(alloc).expect(rt, "memory"),
        limit: Some(15),
        history: History::new(alloc),
    }
}

fn skip(worker: u8) -> Event
    ensures { result ≡ record { who = Worker worker; what = Skip } }
{
    Event {
        who: Actor::Worker(worker),
        what: What::Skip,
    }
}

/// Adds an event of a worker, if there is memory.
fn put(history: &mut History, worker: u8) -> bool
    ensures put { MatchBool result (history.new.events ≡ record { who = Worker worker; what = Skip } ∷ history.old.events) (history.new.events ≡ history.old.events) }
    ensures begins { Begins history.new.events history.old.events }
    ensures one { length history.new.events ≤ length history.old.events + 1 }
{
    if history.ready(1).is_err() {
        return false;
    }
    history.push(skip(worker));
    true
}

/// Adds an event of a worker.
#[derive(Drop)]
struct AddEvent {
    worker: u8,
    done: bool,
}

impl Turn<Notes> for AddEvent {
    ghost plays = { λ t s u e. MatchBool u.done (e.history.events ≡ record { who = Worker t.worker; what = Skip } ∷ s.history.events) (e.history.events ≡ s.history.events) };

    ghost asks = { λ t s. Unit {0} };

    fn play(&mut self, state: &mut Notes) {
        self.done = put(&mut state.history, self.worker);
    }
}

/// An event of a worker behind all that the pass has seen. It is false where memory ran out.
fn append<W: Wait>(rt: &W, lock: &TurnLock<Notes>, pass: &mut Pass, worker: u8) -> bool
    requires own { IsPassOf lock.now pass.old }
    requires alone { IsAlone pass.old }
    ensures own { IsPassOf lock.now pass.new }
    ensures alone { IsAlone pass.new }
    ensures added { MatchBool result (pass.new.seen ≡ record { who = Worker worker; what = Skip } ∷ pass.old.seen) (pass.new.seen ≡ pass.old.seen) }
{
    let mut turn = AddEvent {
        worker,
        done: false,
    };
    lock.turn(rt, pass, &mut turn);
    turn.done
}

/// An event of worker 3 and one of worker 5 behind what stood there, and no more.
fn append_two<W: Wait>(rt: &W, alloc: Global, notes: Notes) -> Option<Notes>
    ensures setup { IfSome result (λ n. (n.policy ≡ notes.policy) × (n.script ≡ notes.script) × (n.limit ≡ notes.limit)) }
    ensures history { IfSome result (λ n. n.history.events ≡ record { who = Worker 5; what = Skip } ∷ record { who = Worker 3; what = Skip } ∷ notes.history.events) }
{
    let Ok((lock, mut pass)) = TurnLock::new(alloc, notes) else {
        return None;
    };
    let first = append(rt, &lock, &mut pass, 3);
    let second = append(rt, &lock, &mut pass, 5);
    let notes = lock.close(pass);
    if first && second { Some(notes) } else { None }
}

/// Whether an event is this worker's.
fn is_of(event: &Event, worker: u8) -> bool {
    match &event.who {
        Actor::Worker(w) => *w == worker,
        _ => false,
    }
}

fn count_of(events: &[Event], worker: u8) -> usize {
    events.iter().filter(|e| is_of(e, worker)).count()
}

/// Adds its worker's event once, and hears whether another worker's event is there.
#[derive(Drop)]
struct Greeting {
    worker: u8,
    done: bool,
    heard: bool,
}

impl Turn<Notes> for Greeting {
    ghost plays = { λ t s u e. u.worker ≡ t.worker };

    ghost asks = { λ t s. Unit {0} };

    fn play(&mut self, state: &mut Notes) {
        let events = state.history.events();
        self.heard = count_of(events, self.worker) < events.len();
        if !self.done {
            self.done = put(&mut state.history, self.worker);
        }
    }
}

/// Takes turns until the pass has seen another worker's event.
fn meet<W: Wait>(rt: &W, lock: &TurnLock<Notes>, mut pass: Pass, worker: u8) -> Pass
    requires { IsPassOf lock.now pass }
    ensures own { IsPassOf lock.now result }
    ensures same { (result.first ≡ pass.first) × (result.out ≡ pass.out) }
{
    let mut turn = Greeting {
        worker,
        done: false,
        heard: false,
    };
    for _ in rt.forever() {
        lock.turn(rt, &mut pass, &mut turn);
        if turn.heard {
            return pass;
        }
    }
    unreachable!()
}

/// What two workers leave, each with a pass and a thread of its own.
fn met<R: Threads + Wait + Sync>(rt: &R, alloc: Global, notes: Notes) -> Option<Notes>
    ensures { IfSome result (λ n. (n.policy ≡ notes.policy) × (n.script ≡ notes.script) × (n.limit ≡ notes.limit)) }
{
    let Ok((lock, mut first)) = TurnLock::new(alloc, notes) else {
        return None;
    };
    let second = lock.split(&mut first);
    let (mut first, second) = thread::join(
        rt,
        || -> Pass
            requires { IsPassOf lock first }
            ensures own { IsPassOf lock result }
            ensures same { (result.first ≡ first.first) × (result.out ≡ first.out) }
        { meet(rt, &lock, first, 1) },
        || -> Pass
            requires { IsPassOf lock second }
            ensures { IsPassOf lock result }
        { meet(rt, &lock, second, 2) },
    );
    lock.join(&mut first, second);
    Some(lock.close(first))
}

/// Adds an event of its worker at each turn, and notes the places.
#[derive(Drop)]
struct Tally {
    worker: u8,
    places: Vec<u64>,
}

impl Turn<Notes> for Tally {
    ghost plays = { λ t s u e. u.worker ≡ t.worker };

    ghost asks = { λ t s. Unit {0} };

    fn play(&mut self, state: &mut Notes) {
        let place = state.history.len() as u64;
        if self.places.reserve(1).is_ok() && put(&mut state.history, self.worker) {
            self.places.push_reserved(place);
        }
    }
}

/// A worker of the race, with its pass.
#[derive(Drop)]
struct Runner {
    pass: Pass,
    tally: Tally,
}

fn run<W: Wait>(rt: &W, lock: &TurnLock<Notes>, runner: Runner, turns: u32) -> Runner
    requires { IsPassOf lock.now runner.pass }
    ensures { IsPassOf lock.now result.pass }
{
    let Runner {
        mut pass,
        mut tally,
    } = runner;
    for _ in 0..turns {
        lock.turn(rt, &mut pass, &mut tally);
    }
    Runner { pass, tally }
}

/// So many runners, each with a pass.
fn split_all(
    alloc: Global,
    lock: &TurnLock<Notes>,
    first: &mut Pass,
    workers: u8,
) -> Result<Vec<Runner>, AllocError>
    requires own { IsPassOf lock.now first.old × IsAlone first.old }
    ensures first { IfOk result (λ v. IsPassOf lock.now first.new × (first.new.first ≡ true) × (first.new.out ≡ length v.items)) }
    ensures runners { IfOk result (λ v. All (λ r. IsPassOf lock.now r.pass) v.items) }
{
    let mut runners = Vec::with_capacity(alloc, workers as usize)?;
    for worker in 0..workers {
        let pass = lock.split(first);
        let tally = Tally {
            worker,
            places: Vec::new(alloc),
        };
        runners.push_reserved(Runner { pass, tally });
    }
    Ok(runners)
}

/// Counts at each place how often it was noted.
fn mark(marks: &mut [u32], places: &[u64]) {
    for place in places {
        if let Some(mark) = marks.get_mut(*place as usize) {
            *mark = mark.saturating_add(1);
        }
    }
}

/// Joins every pass to the first one, and marks the places that were noted.
fn join_all(lock: &TurnLock<Notes>, first: &mut Pass, mut runners: Vec<Runner>, marks: &mut [u32])
    requires own { IsPassOf lock.now first.old × (first.old.first ≡ true) × (first.old.out ≡ length runners.items) }
    requires runners { All (λ r. IsPassOf lock.now r.pass) runners.items }
    ensures { IsPassOf lock.now first.new × IsAlone first.new }
{
    while let Some(runner) = runners.pop() {
        let Runner { pass, tally } = runner;
        lock.join(first, pass);
        mark(marks, tally.places.as_slice());
    }
}

fn run_all<R: Threads + Wait + Sync>(
    rt: &R,
    lock: &TurnLock<Notes>,
    runners: Vec<Runner>,
    turns: u32,
) -> Result<Vec<Runner>, AllocError>
    requires { All (λ r. IsPassOf lock.now r.pass) runners.items }
    ensures len { IfOk result (λ v. length v.items ≡ length runners.items) }
    ensures own { IfOk result (λ v. All (λ r. IsPassOf lock.now r.pass) v.items) }
{
    thread::map_vec(
        rt,
        runners,
        &|runner: Runner| -> Runner
            requires { IsPassOf lock.now runner.pass }
            ensures { IsPassOf lock.entry.now result.pass }
        { run(rt, lock, runner, turns) },
    )
}

/// What so many workers leave after so many turns each, and how much the first pass has seen then.
fn race<R: Threads + Wait + Sync>(
    rt: &R,
    alloc: Global,
    notes: Notes,
    workers: u8,
    turns: u32,
    marks: &mut [u32],
) -> Result<(Notes, u64), AllocError>
    ensures { IfOk result (λ r. (r.0.policy ≡ notes.policy) × (r.1 ≡ length r.0.history.events)) }
{
    let Ok((lock, mut first)) = TurnLock::new(alloc, notes) else {
        return Err(AllocError);
    };
    let runners = split_all(alloc, &lock, &mut first, workers)?;
    let runners = run_all(rt, &lock, runners, turns)?;
    join_all(&lock, &mut first, runners, marks);
    let seen = first.seen();
    Ok((lock.close(first), seen))
}

/// A history of three events at most.
#[derive(Drop)]
struct Short {
    notes: Notes,
    ghost short: { length notes.history.events ≤ 3 },
}

impl Journalled for Short {
    ghost history = { λ s. s.notes.history };

    ghost setup = { λ s. record { policy = s.notes.policy; script = s.notes.script; limit = s.notes.limit; every = None } };

    fn journal(&self) -> &History {
        &self.notes.history
    }
}

impl Turn<Short> for AddEvent {
    ghost plays = { λ t s u e. u.worker ≡ t.worker };

    ghost asks = { λ t s. Unit {0} };

    fn play(&mut self, state: &mut Short) {
        self.done = state.notes.history.len() < 3 && put(&mut state.notes.history, self.worker);
    }
}

/// Whatever is added, the history that comes out is a short one.
fn append_often<W: Wait>(rt: &W, alloc: Global, short: Short) -> Option<History>
    ensures { IfSome result (λ h. length h.events ≤ 3) }
{
    let Ok((lock, mut pass)) = TurnLock::new(alloc, short) else {
        return None;
    };
    let mut turn = AddEvent {
        worker: 2,
        done: false,
    };
    lock.turn(rt, &mut pass, &mut turn);
    lock.turn(rt, &mut pass, &mut turn);
    lock.turn(rt, &mut pass, &mut turn);
    lock.turn(rt, &mut pass, &mut turn);
    let Short { notes } = lock.close(pass);
    Some(notes.history)
}

#[test]
fn one_caller_finds_the_history_that_it_left(rt: HostRuntime) {
    let notes = append_two(&rt, rt.alloc(), no_notes(&rt, rt.alloc())).expect(&rt, "memory");
    let events = notes.history.events();
    assert!(&rt; events.len() == 2);
    assert!(&rt; count_of(events, 3) == 1 && count_of(events, 5) == 1);
    assert!(&rt; matches!(notes.history.get(0), Some(event) if is_of(event, 3)));
}

#[test]
fn two_callers_see_each_others_first_event(rt: HostRuntime) {
    let notes = met(&rt, rt.alloc(), no_notes(&rt, rt.alloc())).expect(&rt, "memory");
    let events = notes.history.events();
    assert!(&rt; events.len() == 2);
    assert!(&rt; count_of(events, 1) == 1 && count_of(events, 2) == 1);
}

#[test]
fn each_of_80000_places_is_one_callers(rt: HostRuntime) {
    let alloc = rt.alloc();
    let mut marks = vec![in alloc; 0u32; 80000].expect(&rt, "memory");
    let (notes, seen) = race(
        &rt,
        alloc,
        no_notes(&rt, alloc),
        16,
        5000,
        marks.as_mut_slice(),
    )
    .expect(&rt, "memory");
    assert!(&rt; seen == 80000);
    assert!(&rt; marks.iter().all(|m| *m == 1));
    for worker in 0..16 {
        assert!(&rt; count_of(notes.history.events(), worker) == 5000);
    }
}

#[test]
fn what_a_states_type_keeps_comes_out(rt: HostRuntime) {
    let short = Short {
        notes: no_notes(&rt, rt.alloc()),
    };
    let history = append_often(&rt, rt.alloc(), short).expect(&rt, "memory");
    assert!(&rt; history.len() == 3);
}

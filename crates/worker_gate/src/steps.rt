//! The steps of the state behind the lock, one by one, and how the threads of a crew serve it.

ghost use Rattle.std.specs.Prelude.{◌≡◌, IfOk, List, OnErr, Some, true};
ghost use Rattle.crew.specs.Duties.{MayServe};
ghost use Rattle.crew.specs.Errands.{IsReceived, StepsFor};
ghost use Rattle.crew.specs.declared.crewed.Errand.{Errand as ErrandValue};
ghost use Rattle.hist_model.specs.declared.event.Actor.TheVariants.{Worker};
ghost use Rattle.hist_model.specs.declared.event.Event.{Event};
ghost use Rattle.worker_gate.specs.Hands.{Ends};

use crate::served::Served;
use crew::{Came, Crewed, Errand, Point, Turned, Work};
use std::alloc::Global;
use sys_abi::memory::NoMemory;

impl Served {
    ghost use Rattle.worker_gate.specs.Keeping.{Adds, AddsTask, TakesTurn};

    /// A worker's step, unless it waits; says whether it made one.
    pub fn step_worker(&mut self, alloc: Global, number: u8) -> Result<bool, NoMemory>
        requires may { MayServe self.old.setup.limit (Some number) }
        ensures step { IfOk result (λ stepped. Adds (Worker number) stepped self.old.history.events self.new.history.events) }
        ensures none { OnErr result (self.new.history.events ≡ self.old.history.events) }
        ensures setup { self.new.setup ≡ self.old.setup }
    {
        self.serving.step_worker(alloc, number)
    }

    /// A step of the task that is tried next, if it can step; says whether a task was worth a try.
    pub fn step_task(&mut self, alloc: Global) -> Result<bool, NoMemory>
        ensures step { AddsTask self.old.history.events self.new.history.events }
        ensures setup { self.new.setup ≡ self.old.setup }
    {
        self.serving.try_next(alloc)
    }

    /// Reads the history's new events, which tell what is worth a try, and says whether a worker's request for a descriptor may
    /// have come to something by them.
    pub fn catch_up(&mut self) -> Result<bool, NoMemory>
        ensures { self.new ≡ self.old }
    {
        self.serving.catch_up()
    }

    /// A thread found no memory, so that all of them end.
    pub fn give_up(&mut self)
        ensures { self.new ≡ self.old }
    {
        self.serving.lacks_memory = true;
    }

    /// The work that is worth a try.
    pub fn left(&self) -> Work {
        self.serving.left()
    }

    /// Whether threads are done: nothing is left to do, or one of them found no memory.
    pub fn is_over(&self) -> bool {
        self.serving.is_over()
    }

    /// Whether nothing is left to do: every task has ended, no call is listed, and each worker has let go.
    pub fn is_served(&self) -> bool
        ensures { result ≡ true → Ends self.now.setup self.now.history.events }
    {
        self.serving.is_served()
    }

    /// The point of a notification's service that this worker came to by the newest step, which is its own, if it came to one.
    pub fn point(&mut self, number: u8) -> Option<(Point, u64)>
        ensures { self.new ≡ self.old }
    {
        self.serving.point(number)
    }

    /// What a worker's step came to.
    fn came(&mut self, number: u8) -> Came
        ensures same { self.new ≡ self.old }
        ensures received { (K H : List Event) → IsReceived result K H }
    {
        match self.point(number) {
            Some((point, id)) => Came::Reached {
                point,
                server: number,
                id,
                keeps: Work::NONE,
            },
            None => Came::Stepped,
        }
    }

    /// A step of a task that is worth a try, if that is among this work.
    fn step_some_task(&mut self, alloc: Global, work: Work) -> Result<Came, NoMemory>
        ensures turn { TakesTurn self.old self.new }
        ensures errand { (errand : ErrandValue) → StepsFor errand self.old.history.events self.new.history.events }
        ensures received { IfOk result (λ came. (K H : List Event) → IsReceived came K H) }
    {
        if !work.has(Work::TASKS) {
            return Ok(Came::Idle);
        }
        if self.step_task(alloc)? {
            Ok(Came::Stepped)
        } else {
            Ok(Came::Idle)
        }
    }

    /// A step of the errand's worker, if it has one, or else of a task.
    fn take_step(&mut self, alloc: Global, errand: Errand) -> Result<Came, NoMemory>
        requires may { MayServe self.old.setup.limit errand.worker }
        ensures turn { TakesTurn self.old self.new }
        ensures errand { StepsFor errand self.old.history.events self.new.history.events }
        ensures received { IfOk result (λ came. (K H : List Event) → IsReceived came K H) }
    {
        let Some(number) = errand.worker else {
            return self.step_some_task(alloc, errand.work);
        };
        if self.step_worker(alloc, number)? {
            return Ok(self.came(number));
        }
        self.step_some_task(alloc, errand.work)
    }

    /// Whether this worker, if one is given, has a notification in hand.
    fn has_session(&self, worker: Option<u8>) -> bool {
        match worker {
            Some(number) => self.serving.sessions.has(number),
            None => false,
        }
    }

    /// A step, and what there is to do after it.
    fn try_serve(&mut self, alloc: Global, errand: Errand) -> Result<Turned, NoMemory>
        requires may { MayServe self.old.setup.limit errand.worker }
        ensures turn { TakesTurn self.old self.new }
        ensures errand { StepsFor errand self.old.history.events self.new.history.events }
        ensures received { IfOk result (λ turned. (K H : List Event) → IsReceived turned.came K H) }
    {
        // The script's start makes the first task, before any turn.
        let _ = self.catch_up()?;
        let came = self.take_step(alloc, errand)?;
        let settled = self.catch_up()?;
        Ok(Turned {
            came,
            settled,
            in_hand: self.has_session(errand.worker),
            left: self.left(),
            is_over: self.is_over(),
        })
    }
}

impl Crewed for Served {
    ghost ends = { Ends };

    fn serve(&mut self, alloc: Global, errand: Errand) -> Turned {
        match self.try_serve(alloc, errand) {
            Ok(turned) => turned,
            Err(NoMemory) => {
                self.give_up();
                Turned::NO_MEMORY
            }
        }
    }

    fn is_served(&self) -> bool {
        self.serving.is_served()
    }
}

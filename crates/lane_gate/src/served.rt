//! The state behind the listener's lock where lanes are served.

ghost use Rattle.std.specs.Prelude.{◌≡◌, ◌<◌, ◌≤◌, ◌∷◌, IfOk, IfSome, List, None, Some};
ghost use Rattle.crew.specs.Errands.{IsReceived, MayStepFor, StepsFor};
ghost use Rattle.crew.specs.declared.crewed.Errand.{Errand as ErrandValue};
ghost use Rattle.hist_model.specs.Legal.{started};
ghost use Rattle.hist_model.specs.Look.{ev};
ghost use Rattle.hist_model.specs.declared.event.Actor.TheVariants.{Worker};
ghost use Rattle.hist_model.specs.declared.event.Event.{Event};
ghost use Rattle.lane_seats.specs.Lanes.{KeepsLanes as MayStep, Laned};
ghost use Rattle.worker_gate.specs.Hands.{Ends};
ghost use Rattle.worker_gate.specs.Keeping.{TakesTurn};

use call_table::rows::lane_of;
use crew::{Came, Crewed, Errand, Turned, Work};
use hist_model::event::What;
use hist_model::history::{History, Journalled};
use hist_model::policy::Policy;
use hist_model::script::Script;
use lane_queue::Handoff;
use lane_seats::{SEATS, Seats};
use std::alloc::Global;
use std::marker::Model;
use sys_abi::memory::NoMemory;
use worker_gate::Served;

/// The state behind the lock: that of `worker_gate` for workers 0 to 15, and who sits where. Its history is legal and laned, and has
/// no `Skip`.
#[derive(Drop)]
pub struct LaneServed {
    served: Served,
    seats: Seats,
}

/// What a step of the worker at a seat came to.
fn came_to(step: &What, seat: u8) -> Came
    ensures { (K : List Event) → IsReceived result K (ev (Worker seat) step.now ∷ K) }
{
    match step {
        What::Recv { answer: Ok(notif) } => Came::Received {
            lane: lane_of(notif.call.nr),
            item: Handoff { id: notif.id, seat },
        },
        What::LetGo => Came::LetGo,
        _ => Came::Stepped,
    }
}

impl Model for LaneServed {
    ghost use Rattle.lane_gate.specs.Keeping.{KeepsLanes};
    ghost use Rattle.worker_gate.specs.Keeping.{ServedFacts};

    ghost Value = { ServedFacts };

    ghost view = { λ s. s.served };

    ghost invariant = { λ s. KeepsLanes s.served s.seats };
}

impl Journalled for LaneServed {
    ghost history = { λ s. s.history };

    ghost setup = { λ s. s.setup };

    fn journal(&self) -> &History {
        self.served.journal()
    }
}

impl LaneServed {
    /// The state after a script's start, with all seats free. Where a number of steps is given, workers are replaced after each so
    /// many of them.
    pub fn new(
        alloc: Global,
        policy: Policy,
        script: Script,
        every: Option<u32>,
    ) -> Result<LaneServed, NoMemory>
        requires { IfSome every (λ n. 0 < n) }
        ensures setup { IfOk result (λ s. s.setup ≡ record { policy = policy; script = script; limit = Some 15; every = every }) }
        ensures events { IfOk result (λ s. s.history.events ≡ started script) }
    {
        let served = Served::new(alloc, policy, script, Some(SEATS - 1), every)?;
        let seats = Seats::new();
        Ok(LaneServed { served, seats })
    }

    /// The same without the table of seats. The history is laned.
    pub fn into_served(self) -> Served
        ensures same { result ≡ self }
        ensures laned { Laned self.history.events }
    {
        let LaneServed { served, .. } = self;
        served
    }

    /// A step of the worker at a seat, unless it waits; tells what it came to.
    fn step_seat(&mut self, alloc: Global, seat: u8) -> Result<Came, NoMemory>
        requires seat { seat ≤ 15 }
        requires may { MayStep self.old.history.events (Worker seat) }
        ensures turn { TakesTurn self.old self.new }
        ensures errand { (errand : ErrandValue) → MayStepFor errand self.old.history.events seat → StepsFor errand self.old.history.events self.new.history.events }
        ensures received { IfOk result (λ came. IsReceived came self.old.history.events self.new.history.events) }
    {
        let place = self.served.journal().len();
        let stepped = self.served.step_worker(alloc, seat)?;
        if !stepped {
            return Ok(Came::Idle);
        }
        match self.served.journal().get(place) {
            Some(event) => {
                self.seats.note(seat, &event.what, place);
                Ok(came_to(&event.what, seat))
            }
            None => unreachable!(),
        }
    }

    /// A receive at the lowest free seat, if a seat is free and a call is there.
    fn receive(&mut self, alloc: Global) -> Result<Came, NoMemory>
        ensures turn { TakesTurn self.old self.new }
        ensures errand { (errand : ErrandValue) → errand.worker ≡ None → StepsFor errand self.old.history.events self.new.history.events }
        ensures received { IfOk result (λ came. IsReceived came self.old.history.events self.new.history.events) }
    {
        match self.seats.lowest_free() {
            Some(seat) => self.step_seat(alloc, seat),
            None => Ok(Came::Idle),
        }
    }

    /// The point to which the session at a seat came by a step, if it came to one, or else what the step came to.
    fn reached(&mut self, seat: u8, came: Came) -> Came
        ensures same { self.new ≡ self.old }
        ensures received { (K H : List Event) → IsReceived came K H → IsReceived result K H }
    {
        match (came, self.served.point(seat), self.seats.lane_at(seat)) {
            (Came::Stepped, Some((point, id)), Some(lane)) => Came::Reached {
                point,
                server: lane,
                id,
                keeps: Work::lane(lane),
            },
            _ => came,
        }
    }

    /// A step in the session of a notification that was handed over, if it is its lane's next.
    fn serve_handed(&mut self, alloc: Global, item: Handoff) -> Result<Came, NoMemory>
        ensures turn { TakesTurn self.old self.new }
        ensures errand { (errand : ErrandValue) → errand.handed ≡ Some item → StepsFor errand self.old.history.events self.new.history.events }
        ensures received { IfOk result (λ came. IsReceived came self.old.history.events self.new.history.events) }
    {
        let Handoff { id, seat } = item;
        if seat < SEATS && self.seats.holds(seat, id) && self.seats.is_next(seat) {
            let came = self.step_seat(alloc, seat)?;
            Ok(self.reached(seat, came))
        } else {
            Ok(Came::Idle)
        }
    }

    /// A step of a task that is worth a try.
    fn step_task(&mut self, alloc: Global) -> Result<Came, NoMemory>
        ensures turn { TakesTurn self.old self.new }
        ensures errand { (errand : ErrandValue) → StepsFor errand self.old.history.events self.new.history.events }
        ensures received { IfOk result (λ came. (K H : List Event) → IsReceived came K H) }
    {
        if self.served.step_task(alloc)? {
            Ok(Came::Stepped)
        } else {
            Ok(Came::Idle)
        }
    }

    /// A step for an errand: at the seat that was handed over, or else a receive, or a task's.
    fn take_step(&mut self, alloc: Global, errand: Errand) -> Result<Came, NoMemory>
        ensures turn { TakesTurn self.old self.new }
        ensures errand { StepsFor errand self.old.history.events self.new.history.events }
        ensures received { IfOk result (λ came. IsReceived came self.old.history.events self.new.history.events) }
    {
        if let Some(item) = errand.handed {
            return self.serve_handed(alloc, item);
        }
        let may_receive = errand.work.has(Work::CALLS) && errand.worker.is_none();
        if may_receive && self.left().has(Work::CALLS) {
            self.receive(alloc)
        } else if errand.work.has(Work::TASKS) {
            self.step_task(alloc)
        } else {
            Ok(Came::Idle)
        }
    }

    /// The work that is left beside that of lanes: a call can be received while a seat is free.
    fn left(&self) -> Work {
        let left = self.served.left();
        if self.seats.lowest_free().is_none() {
            left.without(Work::CALLS)
        } else {
            left
        }
    }

    /// A step for an errand, and what there is to do after it.
    fn try_serve(&mut self, alloc: Global, errand: Errand) -> Result<Turned, NoMemory>
        ensures turn { TakesTurn self.old self.new }
        ensures errand { StepsFor errand self.old.history.events self.new.history.events }
        ensures received { IfOk result (λ turned. IsReceived turned.came self.old.history.events self.new.history.events) }
    {
        // The script's start makes the first task, before any turn.
        let _ = self.served.catch_up()?;
        let came = self.take_step(alloc, errand)?;
        let settled = self.served.catch_up()?;
        Ok(Turned {
            came,
            settled,
            in_hand: false,
            left: self.left(),
            is_over: self.served.is_over(),
        })
    }
}

impl Crewed for LaneServed {
    ghost ends = { Ends };

    /// Its threads serve as whichever worker sits at a seat, and none as one of its own.
    fn serve(&mut self, alloc: Global, errand: Errand) -> Turned {
        match self.try_serve(alloc, errand) {
            Ok(turned) => turned,
            Err(NoMemory) => {
                self.served.give_up();
                Turned::NO_MEMORY
            }
        }
    }

    fn is_served(&self) -> bool {
        self.served.is_served()
    }
}

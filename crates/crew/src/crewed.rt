//! What a crew serves, and what comes of a thread's turn.

ghost use Rattle.std.specs.Prelude.{◌≡◌, ◌+◌, ◌≤◌, length, true};
ghost use Rattle.crew.specs.Duties.{MayServe};
ghost use Rattle.crew.specs.Errands.{IsReceived, StepsFor};
ghost use Rattle.turn_lock.specs.Lists.{Begins};

use crate::gate::Point;
use crate::work::Work;
use hist_model::history::Journalled;
use lane_queue::Handoff;
use std::alloc::Global;

/// What a turn is for.
#[derive(Clone, Copy, Debug)]
pub struct Errand {
    /// The worker of which it is a step, if the thread serves as one.
    pub worker: Option<u8>,
    /// The notification that the thread was handed, with its seat, if it serves a lane.
    pub handed: Option<Handoff>,
    /// The kinds of work of which it is a step otherwise.
    pub work: Work,
}

impl Errand {
    /// Nothing.
    pub(crate) const NONE: Errand = Errand {
        worker: None,
        handed: None,
        work: Work::NONE,
    };
}

/// What a turn came to.
#[derive(Clone, Copy, PartialEq, Eq, Debug)]
pub enum Came {
    /// No memory was found.
    NoMemory,
    /// There was nothing to do.
    Idle,
    /// A step was taken.
    Stepped,
    /// A notification was received, which is for this lane.
    Received {
        lane: u8,
        item: Handoff,
    },
    /// The notification that the thread was handed was let go.
    LetGo,
    /// A step was taken by which the service of the notification with this id came to a point.
    Reached {
        point: Point,
        /// The number of the worker, or of the lane.
        server: u8,
        id: u64,
        /// The work that nobody else does until the thread comes back from the gate.
        keeps: Work,
    },
}

/// What a thread learns from its turn: what it came to, and what is left in the container.
#[derive(Clone, Copy, Debug)]
pub struct Turned {
    pub came: Came,
    /// Whether a worker's request for a descriptor may have come to something.
    pub settled: bool,
    /// Whether the thread's worker has a notification in hand.
    pub in_hand: bool,
    /// The work that is left.
    pub left: Work,
    /// Whether nothing is left to do, or no memory was found.
    pub is_over: bool,
}

impl Turned {
    /// Before the first turn.
    pub(crate) const NONE: Turned = Turned {
        came: Came::Idle,
        settled: false,
        in_hand: false,
        left: Work::NONE,
        is_over: false,
    };

    /// No memory was found.
    pub const NO_MEMORY: Turned = Turned {
        came: Came::NoMemory,
        settled: false,
        in_hand: false,
        left: Work::NONE,
        is_over: true,
    };
}

/// A container's state, which threads serve in turns of its lock, a step at most in each.
pub trait Crewed: Journalled {
    ghost use Rattle.std.specs.Prelude.{List};
    ghost use Rattle.hist_model.specs.declared.event.Event.{Event};
    ghost use Rattle.hist_model.specs.declared.history.Setup.{Setup};

    /// What is so of the history of a state with this setup, where nothing is left to do.
    ghost ends: { Setup → List Event → Type 0 };

    /// A step of the errand's worker, if it has one, or at the seat of the notification that was handed over, or else of the errand's
    /// work; and what there is to do after it.
    fn serve(&mut self, alloc: Global, errand: Errand) -> Turned
        requires may { MayServe (Self.setup self.old).limit errand.worker }
        ensures setup { Self.setup self.new ≡ Self.setup self.old }
        ensures history { Begins (Self.history self.new).events (Self.history self.old).events }
        ensures one { length (Self.history self.new).events ≤ length (Self.history self.old).events + 1 }
        ensures errand { StepsFor errand (Self.history self.old).events (Self.history self.new).events }
        ensures received { IsReceived result.came (Self.history self.old).events (Self.history self.new).events };

    /// Whether nothing is left to do.
    fn is_served(&self) -> bool
        ensures { result ≡ true → ends (Self.setup self.now) (Self.history self.now).events };
}

//! What a pass of a queue knows, and what each call tells it. No value of these types is made.

use crate::queue::Handoff;
use crossbeam_queue::protocol::{Join, Lesson, Outcome, Protocol, Split};
use std::collections::LinkedList;

/// The items that were put by a pass, where it may put, and those that were taken by it, where it may take.
pub struct View {
    pub put: Option<LinkedList<Handoff>>,
    pub taken: Option<LinkedList<Handoff>>,
}

/// One pass may put and one may take. What was put is what was taken, and then what the queue holds.
pub struct InOrder;

impl Protocol<Handoff, View> for InOrder {
    ghost use Rattle.std.specs.Prelude.{Some, []};
    ghost use Rattle.lane_queue.specs.Handing.{IsHanded};

    ghost holds = { IsHanded };

    ghost first = { record { put = Some []; taken = Some [] } };
}

/// The pass that takes is split from the one that puts, and joined to it again.
pub struct TwoEnds;

impl Split<View> for TwoEnds {
    ghost use Rattle.std.specs.Prelude.{None};

    ghost left = { λ v. record v { taken = None } };

    ghost right = { λ v. record v { put = None } };
}

impl Join<View> for TwoEnds {
    ghost use Rattle.std.specs.Prelude.{None};

    ghost both = { λ v w. record v { taken = w.taken } };

    ghost spent = { record { put = None; taken = None } };
}

/// An item was put, or there was no room for it.
pub struct Puts;

impl Outcome<Handoff, View> for Puts {
    ghost use Rattle.lane_queue.specs.Handing.{Put};

    ghost then = { Put };
}

impl Lesson<Handoff, View> for Puts {
    ghost use Rattle.lane_queue.specs.Handing.{IsLastPut};

    ghost fact = { IsLastPut };
}

/// An item was taken, or there was none.
pub struct Takes;

impl Outcome<Handoff, View> for Takes {
    ghost use Rattle.lane_queue.specs.Handing.{Taken};

    ghost then = { Taken };
}

impl Lesson<Handoff, View> for Takes {
    ghost use Rattle.lane_queue.specs.Handing.{IsLeft};

    ghost fact = { IsLeft };
}

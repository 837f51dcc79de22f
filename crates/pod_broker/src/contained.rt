//! How a container's state is set up, and as what it ends.

ghost use Rattle.std.specs.Prelude.{◌≡◌, ◌<◌, IfOk, IfSome, Some};
ghost use Rattle.lane_seats.specs.Lanes.{Laned};
ghost use Rattle.worker_gate.specs.Replacing.{handed_if, handed_in};
ghost use Rattle.pod_broker.specs.Serving.{Any, HasEndedAs, IsLimited};

use crew::Crewed;
use hist_model::policy::Policy;
use hist_model::script::Script;
use lane_gate::LaneServed;
use std::alloc::Global;
use sys_abi::memory::NoMemory;
use worker_gate::{Played, Served};

/// The state of a container, which is set up with a policy, a script, the number of the last worker that may serve, and after how many
/// steps workers are replaced, where they are.
pub(crate) trait Contained: Crewed + Sized {
    ghost use Rattle.std.specs.Prelude.{ℕ, List};
    ghost use Rattle.hist_model.specs.declared.event.Event.{Event};

    /// Which worker may be the last one.
    ghost may: { ℕ → Type 0 };

    /// What its history keeps by the state's type, beside the law.
    ghost keeps: { List Event → Type 0 };

    fn set_up(
        alloc: Global,
        policy: Policy,
        script: Script,
        workers: u8,
        every: Option<u32>,
    ) -> Result<Self, NoMemory>
        requires may { may workers }
        requires every { IfSome every (λ n. 0 < n) }
        ensures { IfOk result (λ s. Self.setup s ≡ record { policy = policy; script = script; limit = Some workers; every = every }) };

    /// Closes the listener, where nothing is left to do.
    fn close(self) -> Result<Played, NoMemory>
        requires limited { IsLimited (Self.setup self) }
        requires done { Self.ends (Self.setup self) (Self.history self).events }
        ensures policy { IfOk result (λ p. p.policy ≡ (Self.setup self).policy) }
        ensures script { IfOk result (λ p. p.script ≡ (Self.setup self).script) }
        ensures ended { IfOk result (λ p. HasEndedAs (Self.setup self) p.history.events) }
        ensures keeps { IfOk result (λ p. keeps p.history.events) }
        ensures handed { IfOk result (λ p. handed_in p.handed ≡ handed_if (Self.setup self).every p.history.events) };
}

impl Contained for Served {
    ghost may = { λ workers. Unit {0} };

    ghost keeps = { Any };

    fn set_up(
        alloc: Global,
        policy: Policy,
        script: Script,
        workers: u8,
        every: Option<u32>,
    ) -> Result<Served, NoMemory> {
        Served::new(alloc, policy, script, Some(workers), every)
    }

    fn close(self) -> Result<Played, NoMemory> {
        self.close_listener()
    }
}

impl Contained for LaneServed {
    ghost may = { λ workers. workers ≡ 15 };

    ghost keeps = { Laned };

    fn set_up(
        alloc: Global,
        policy: Policy,
        script: Script,
        _workers: u8,
        every: Option<u32>,
    ) -> Result<LaneServed, NoMemory> {
        LaneServed::new(alloc, policy, script, every)
    }

    fn close(self) -> Result<Played, NoMemory> {
        self.into_served().close_listener()
    }
}

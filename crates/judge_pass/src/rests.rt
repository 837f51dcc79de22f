//! How far an effect rests on reads.

ghost use Rattle.std.specs.Prelude.{◌≡◌, ℕ, List, Option, Result, not, reverse, All, IfOk};
ghost use Rattle.broker_verdict.specs.Effects.{is_empty_list};
ghost use Rattle.broker_verdict.specs.SeatCopies.{copies_of, whole_in};
ghost use Rattle.broker_verdict.specs.Seats.{reads};
ghost use Rattle.hist_model.specs.declared.event.Event.{Event};
ghost use Rattle.hist_model.specs.declared.event.What.TheVariants.{Act, AddfdPut};
ghost use Rattle.hist_model.specs.declared.policy.Cap.{Cap};
ghost use Rattle.hist_model.specs.declared.policy.Policy.{Policy as PolicyValue};
ghost use Rattle.sys_abi.specs.declared.wire.Addfd.{Addfd};
ghost use Rattle.broker_judge.specs.Called.{IsCalled};
ghost use Rattle.broker_judge.specs.Copied.{IsAnswered};
ghost use Rattle.broker_judge.specs.Reads.{worth_of};
ghost use Rattle.judge_pass.specs.Rests.{AreRests};

use crate::made_texts::whole_copies;
use crate::seats::Seat;
use arg_capture::Plan;
use broker_judge::called::{Called, request_without, texts_of};
use broker_judge::reads::Worth;
use broker_judge::registers::injects_by_registers;
use broker_judge::texts::{fit_parts, rank_of_texts};
use hist_model::event::What;
use hist_model::policy::Policy;
use hist_model::request::Request;
use std::alloc::Global;
use sys_abi::memory::NoMemory;

/// Whether an effect rests on reads at all, on those of the caller's memory, on those made while the call was listed, and on those
/// that a good check follows.
#[derive(Clone, Copy, PartialEq, Eq, Debug)]
pub(crate) struct Rests {
    pub(crate) any: bool,
    pub(crate) of_caller: bool,
    pub(crate) in_time: bool,
    pub(crate) checked: bool,
}

impl Rests {
    /// Those of an effect that rests on no texts.
    const IN_FULL: Rests = Rests {
        any: true,
        of_caller: true,
        in_time: true,
        checked: true,
    };
}

/// How far an effect for this call rests on the seat's reads.
pub(crate) fn rests_of(
    alloc: Global,
    policy: &Policy,
    seat: &Seat,
    called: &Called,
    what: &What,
) -> Result<Rests, NoMemory>
    requires { All IsAnswered seat.now.reads.items }
    ensures { IfOk result (λ rests. (K : List Event) (w c : ℕ) → IsCalled K c called.now → reads K w ≡ reverse seat.now.reads.items
        → AreRests policy.now K w c what.now rests) }
{
    match what {
        What::Act { request, .. } => rests_on_texts(alloc, seat, called, request.get()),
        What::AddfdPut { .. } => rests_on_copies(alloc, policy, seat, called),
        _ => Ok(Rests::IN_FULL),
    }
}

/// How far an act rests on the reads that give its texts.
fn rests_on_texts(
    alloc: Global,
    seat: &Seat,
    called: &Called,
    request: &Request,
) -> Result<Rests, NoMemory>
    ensures { IfOk result (λ rests. (P : PolicyValue) (K : List Event) (w c : ℕ) (cap : Option Cap) (answer : Result (Unit {0}) ℕ)
        → IsCalled K c called.now → reads K w ≡ reverse seat.now.reads.items → AreRests P K w c (Act request.now cap answer) rests) }
{
    let texts = texts_of(alloc, request)?;
    let can_have = fit_parts(Plan::of(called.nr, &called.args), texts.as_slice());
    if !can_have {
        return Ok(Rests {
            any: false,
            of_caller: false,
            in_time: false,
            checked: false,
        });
    }
    let rank = rank_of_texts(
        alloc,
        seat.reads.as_slice(),
        Plan::of(called.nr, &called.args),
        texts.as_slice(),
    )?;
    Ok(Rests {
        any: 1 <= rank,
        of_caller: 2 <= rank,
        in_time: 3 <= rank,
        checked: 4 <= rank,
    })
}

/// Whether the reads of this worth make a whole copy.
fn has_copy(alloc: Global, seat: &Seat, called: &Called, least: Worth) -> Result<bool, NoMemory>
    requires { All IsAnswered seat.now.reads.items }
    ensures { IfOk result (λ b. (K : List Event) (w c : ℕ) → IsCalled K c called.now → reads K w ≡ reverse seat.now.reads.items
        → b ≡ not (is_empty_list (whole_in (copies_of (worth_of least) K w c)))) }
{
    Ok(!whole_copies(alloc, seat, called, least)?.is_empty())
}

/// How far a request for a descriptor rests on the reads that make a whole copy. It rests on none where the policy has one put in
/// whatever the texts are.
fn rests_on_copies(
    alloc: Global,
    policy: &Policy,
    seat: &Seat,
    called: &Called,
) -> Result<Rests, NoMemory>
    requires { All IsAnswered seat.now.reads.items }
    ensures { IfOk result (λ rests. (K : List Event) (w c : ℕ) (asked : Addfd) (answer : Result (Unit {0}) ℕ) → IsCalled K c called.now
        → reads K w ≡ reverse seat.now.reads.items → AreRests policy.now K w c (AddfdPut asked answer) rests) }
{
    if injects_by_registers(policy, &request_without(alloc, called)) {
        return Ok(Rests::IN_FULL);
    }
    Ok(Rests {
        any: has_copy(alloc, seat, called, Worth::Foreign)?,
        of_caller: has_copy(alloc, seat, called, Worth::Stale)?,
        in_time: has_copy(alloc, seat, called, Worth::Fresh)?,
        checked: has_copy(alloc, seat, called, Worth::Valid)?,
    })
}

//! The clauses of an effect.

ghost use Rattle.std.specs.Prelude.{◌≡◌, ◌<◌, ◌&&◌, ◌||◌, ℕ, List, Option, Result, true, not, length, reverse, All, IfOk};
ghost use Rattle.std.specs.List.{list_any};
ghost use Rattle.broker_verdict.specs.Choices.{decided};
ghost use Rattle.broker_verdict.specs.Answers.{has_failed, is_again};
ghost use Rattle.broker_verdict.specs.Effects.{base_is_unchecked, goes_elsewhere, goes_from_base, grants_just, has_base, has_none, is_granted};
ghost use Rattle.broker_verdict.specs.Effects.{is_empty_list, is_too_often, is_torn, is_ungranted, stood_so, texts_done, texts_named, writes_elsewhere};
ghost use Rattle.broker_verdict.specs.SeatCopies.{fit_parts, plan_of};
ghost use Rattle.broker_verdict.specs.Seats.{is_effect, is_checked, of_call, reads};
ghost use Rattle.broker_verdict.specs.Trusted.{breaks_by, clauses, effect_breaks, first_broken, later_clauses};
ghost use Rattle.hist_model.specs.Calls.{caller};
ghost use Rattle.hist_model.specs.Look.{is_place};
ghost use Rattle.hist_model.specs.Memory.{group_named};
ghost use Rattle.hist_model.specs.Steps.{mem};
ghost use Rattle.hist_model.specs.declared.event.Actor.TheVariants.{Worker};
ghost use Rattle.hist_model.specs.Copies.{plan};
ghost use Rattle.hist_model.specs.declared.event.Event.{Event as EventValue};
ghost use Rattle.hist_model.specs.declared.event.What.TheVariants.{Act};
ghost use Rattle.hist_model.specs.declared.policy.Cap.{Cap};
ghost use Rattle.hist_model.specs.declared.policy.Policy.{Policy as PolicyValue};
ghost use Rattle.hist_model.specs.declared.script.Script.{Script as ScriptValue};
ghost use Rattle.broker_judge.specs.Called.{IsCalled};
ghost use Rattle.broker_judge.specs.Copied.{IsAnswered};
ghost use Rattle.judge_pass.specs.Clauses.{clauses_of_effects, clauses_of_reads};
ghost use Rattle.judge_pass.specs.Stands.{IsCall, IsSeat, Stands};
ghost use Rattle.broker_judge.specs.Reads.{worth_of};
ghost use Rattle.judge_pass.specs.Within.{AreAmong, HasTimes, IsCallWithin, IsSeatWithin, IsWithin};

use crate::calls::Call;
use crate::judge::Judge;
pub(crate) use crate::made_texts::texts_copied;
use crate::made_texts::{one_list, whole_copies};
use crate::outcomes::outcome;
use crate::rests::rests_of;
use crate::seats::Seat;
use crate::told::has_texts;
use arg_capture::Plan;
use broker_judge::called::{decide_with, is_relative, texts_of};
use broker_judge::granting::{asks_other, grants_by_registers, grants_just, is_used_up};
use broker_judge::reads::Worth;
use broker_judge::stood::stood_all;
use broker_judge::texts::fit_parts;
use broker_verdict::clause::Clause;
use hist_model::event::{Event, What};
use hist_model::policy::Policy;
use hist_model::request::Request;
use hist_model::script::Script;
use hist_model::text::{Sequence, Text};
use policy_eval::conditions::path_of;
use std::alloc::Global;
use sys_abi::errno::Errno;
use sys_abi::memory::NoMemory;

/// The first clause that an effect of a worker breaks.
pub(crate) fn broken_by_effect(
    judge: &Judge,
    policy: &Policy,
    script: &Script,
    before: &[Event],
    worker: usize,
    what: &What,
) -> Result<Option<Clause>, NoMemory>
    requires within { IsWithin judge.now }
    requires among { AreAmong (length before.now) judge.now }
    requires times { HasTimes policy.now judge.now }
    requires worker { worker < 17 }
    requires effect { is_effect what.now ≡ true }
    ensures { IfOk result (λ found. Stands policy.now script.now (reverse before.now) judge.now
        → found
        ≡ first_broken (λ clause. breaks_by policy.now script.now clause (reverse before.now) (Worker worker) what.now) clauses) }
{
    let seat = &judge.seats[worker];
    let Some(call) = judge.call_of(seat) else {
        return Ok(Some(Clause::EffectWithoutCall));
    };
    broken_for_call(judge, policy, script, before, seat, call, what)
}

/// The same of an effect for the call that the seat has in hand.
fn broken_for_call(
    judge: &Judge,
    policy: &Policy,
    script: &Script,
    before: &[Event],
    seat: &Seat,
    call: &Call,
    what: &What,
) -> Result<Option<Clause>, NoMemory>
    requires within { IsWithin judge.now }
    requires among { AreAmong (length before.now) judge.now }
    requires times { HasTimes policy.now judge.now }
    requires seat { IsSeatWithin judge.now seat.now }
    requires call { IsCallWithin judge.now call.now }
    ensures { IfOk result (λ found. (w n : ℕ) → Stands policy.now script.now (reverse before.now) judge.now
        → IsSeat script.now (reverse before.now) w seat.now → IsCall script.now (reverse before.now) n call.now
        → found
        ≡ first_broken (λ clause. effect_breaks policy.now script.now clause (reverse before.now) w call.now.place what.now)
        clauses_of_effects) }
{
    if asks_other(judge.alloc, &call.called, what) {
        return Ok(Some(Clause::OtherRequest));
    }
    if let Some(clause) = broken_by_reads(judge, policy, seat, call, what)? {
        return Ok(Some(clause));
    }
    broken_of_later(judge, policy, script, before, seat, call, what)
}

/// The first clause behind an effect's check that an event of a worker breaks.
pub(crate) fn broken_later(
    judge: &Judge,
    policy: &Policy,
    script: &Script,
    before: &[Event],
    worker: usize,
    what: &What,
) -> Result<Option<Clause>, NoMemory>
    requires within { IsWithin judge.now }
    requires among { AreAmong (length before.now) judge.now }
    requires times { HasTimes policy.now judge.now }
    requires worker { worker < 17 }
    ensures { IfOk result (λ found. Stands policy.now script.now (reverse before.now) judge.now
        → found
        ≡ first_broken (λ later. breaks_by policy.now script.now later (reverse before.now) (Worker worker) what.now) later_clauses) }
{
    if !is_effect(what) {
        return Ok(None);
    }
    let seat = &judge.seats[worker];
    let Some(call) = judge.call_of(seat) else {
        return Ok(None);
    };
    broken_of_later(judge, policy, script, before, seat, call, what)
}

/// Whether it is an effect: an act, what is written as the answer of sysinfo, or a request for a descriptor.
pub(crate) fn is_effect(what: &What) -> bool
    ensures { result ≡ is_effect what.now }
{
    matches!(
        what,
        What::Act { .. } | What::Plant { .. } | What::AddfdPut { .. }
    )
}

/// The same of an effect for the call that the seat has in hand.
#[tactic(auto, using(crate::proofs::InHand::effect_known))]
fn broken_of_later(
    judge: &Judge,
    policy: &Policy,
    script: &Script,
    before: &[Event],
    seat: &Seat,
    call: &Call,
    what: &What,
) -> Result<Option<Clause>, NoMemory>
    requires within { IsWithin judge.now }
    requires among { AreAmong (length before.now) judge.now }
    requires times { HasTimes policy.now judge.now }
    requires seat { IsSeatWithin judge.now seat.now }
    requires call { IsCallWithin judge.now call.now }
    ensures { IfOk result (λ found. (w n : ℕ) → Stands policy.now script.now (reverse before.now) judge.now
        → IsSeat script.now (reverse before.now) w seat.now → IsCall script.now (reverse before.now) n call.now
        → found
        ≡ first_broken (λ clause. effect_breaks policy.now script.now clause (reverse before.now) w call.now.place what.now)
        later_clauses) }
{
    if is_torn(judge.alloc, seat, call, what)? {
        return Ok(Some(Clause::Torn));
    }
    if goes_elsewhere(seat, what) {
        return Ok(Some(Clause::OtherBase));
    }
    if is_ungranted(judge.alloc, policy, script, seat, call, what)? {
        return Ok(Some(Clause::Ungranted));
    }
    if is_too_often(judge, policy, call, what)? {
        return Ok(Some(Clause::Spent));
    }
    if is_again(judge, before, seat) {
        return Ok(Some(Clause::Again));
    }
    if seat.has_sent {
        return Ok(Some(Clause::AfterAnswer));
    }
    Ok(None)
}

/// The first clause about its reads that an effect for this call breaks.
fn broken_by_reads(
    judge: &Judge,
    policy: &Policy,
    seat: &Seat,
    call: &Call,
    what: &What,
) -> Result<Option<Clause>, NoMemory>
    requires within { IsWithin judge.now }
    requires seat { IsSeatWithin judge.now seat.now }
    requires call { IsCallWithin judge.now call.now }
    ensures { IfOk result (λ found. (S : ScriptValue) (K : List EventValue) (w n : ℕ) → Stands policy.now S K judge.now → IsSeat S K w seat.now
        → IsCall S K n call.now
        → found ≡ first_broken (λ clause. effect_breaks policy.now S clause K w call.now.place what.now) clauses_of_reads) }
{
    let rests = rests_of(judge.alloc, policy, seat, &call.called, what)?;
    if !rests.any {
        return Ok(Some(Clause::Unread));
    }
    if !rests.of_caller || writes_elsewhere(judge, seat, call, what) {
        return Ok(Some(Clause::OtherMemory));
    }
    if !rests.in_time {
        return Ok(Some(Clause::StaleCopy));
    }
    if !rests.checked || lacks_some_check(seat, call, what) {
        return Ok(Some(Clause::Unchecked));
    }
    Ok(None)
}

/// Whether no good check follows the receive of a call without texts, or the opening of the directory from which a relative path goes.
fn lacks_some_check(seat: &Seat, call: &Call, what: &What) -> bool
    ensures { (S : ScriptValue) (K : List EventValue) (w c : ℕ) → IsSeat S K w seat.now → IsCalled K c call.now.called
        → result ≡ ((is_empty_list (plan_of K c) && not (is_checked K w)) || base_is_unchecked S K w what.now) }
{
    lacks_check(seat, call) || lacks_base_check(seat, what)
}

/// Whether the call has no texts, and no check was good since the seat's receive.
fn lacks_check(seat: &Seat, call: &Call) -> bool
    ensures { (S : ScriptValue) (K : List EventValue) (w c : ℕ) → IsSeat S K w seat.now → IsCalled K c call.now.called
        → result ≡ (is_empty_list (plan_of K c) && not (is_checked K w)) }
{
    !seat.is_checked && Plan::of(call.called.nr, &call.called.args).len() == 0
}

/// Whether a plant writes into another memory than the caller's.
fn writes_elsewhere(judge: &Judge, seat: &Seat, call: &Call, what: &What) -> bool
    requires within { IsWithin judge.now }
    requires seat { IsSeatWithin judge.now seat.now }
    requires call { IsCallWithin judge.now call.now }
    ensures { (P : PolicyValue) (S : ScriptValue) (K : List EventValue) (w n : ℕ) → Stands P S K judge.now → IsSeat S K w seat.now
        → IsCall S K n call.now → result ≡ writes_elsewhere K w call.now.place what.now }
{
    match what {
        What::Plant { .. } => !has_callers_memory(judge, seat, call),
        _ => false,
    }
}

/// Whether the memory that the seat has open is the caller's.
fn has_callers_memory(judge: &Judge, seat: &Seat, call: &Call) -> bool
    requires within { IsWithin judge.now }
    requires seat { IsSeatWithin judge.now seat.now }
    requires call { IsCallWithin judge.now call.now }
    ensures { (P : PolicyValue) (S : ScriptValue) (K : List EventValue) (w n : ℕ) → Stands P S K judge.now → IsSeat S K w seat.now
        → IsCall S K n call.now → result ≡ of_call (mem K w) (is_place (group_named K (caller K call.now.place))) }
{
    match seat.memory {
        Some(group) => group == judge.caller_group(call),
        None => false,
    }
}

/// Whether it walks a relative path.
fn goes_from_base(what: &What) -> bool
    ensures { result ≡ goes_from_base what.now }
{
    match what {
        What::Act { request, .. } => is_relative(path_of(request.get())),
        _ => false,
    }
}

/// Whether the seat has a base that can be relied on so far at least.
fn has_base(seat: &Seat, least: Worth) -> bool
    ensures { (S : ScriptValue) (K : List EventValue) (w : ℕ) → IsSeat S K w seat.now → result ≡ has_base (worth_of least) S K w }
{
    seat.base.is_some() && least.rank() <= seat.base_worth.rank()
}

/// Whether a relative path goes from another directory than the caller's, or from one that was opened when the call was no longer
/// listed.
fn goes_elsewhere(seat: &Seat, what: &What) -> bool
    ensures { (S : ScriptValue) (K : List EventValue) (w : ℕ) → IsSeat S K w seat.now → result ≡ goes_elsewhere S K w what.now }
{
    goes_from_base(what) && !(has_base(seat, Worth::Fresh) || has_none(seat))
}

/// Whether the seat has no base, and was answered that its call's descriptor leads to none.
fn has_none(seat: &Seat) -> bool
    ensures { (S : ScriptValue) (K : List EventValue) (w : ℕ) → IsSeat S K w seat.now → result ≡ has_none S K w }
{
    seat.base.is_none() && seat.is_base_refused
}

/// Whether no good check follows the opening of the directory from which a relative path goes.
fn lacks_base_check(seat: &Seat, what: &What) -> bool
    ensures { (S : ScriptValue) (K : List EventValue) (w : ℕ) → IsSeat S K w seat.now → result ≡ base_is_unchecked S K w what.now }
{
    goes_from_base(what) && has_base(seat, Worth::Fresh) && !has_base(seat, Worth::Valid)
}

/// Whether the seat has an effect already that was done, or may still be.
fn is_again(judge: &Judge, before: &[Event], seat: &Seat) -> bool
    requires within { IsWithin judge.now }
    requires among { AreAmong (length before.now) judge.now }
    requires seat { IsSeatWithin judge.now seat.now }
    ensures { (P : PolicyValue) (S : ScriptValue) (w : ℕ) → Stands P S (reverse before.now) judge.now → IsSeat S (reverse before.now) w seat.now
        → result ≡ is_again (reverse before.now) w }
{
    match seat.effect {
        Some(effect) => !has_failed(outcome(judge, before, effect)),
        None => false,
    }
}

/// Whether an effect with this outcome came to nothing.
fn has_failed(outcome: Option<Result<u32, Errno>>) -> bool
    ensures { result ≡ has_failed outcome }
{
    matches!(outcome, Some(Err(_)))
}

/// Whether a text that an act names is made of the bytes of two reads, and never stood so.
fn is_torn(alloc: Global, seat: &Seat, call: &Call, what: &What) -> Result<bool, NoMemory>
    requires { All IsAnswered seat.now.reads.items }
    ensures { IfOk result (λ b. (K : List EventValue) (w c : ℕ) → IsCalled K c call.now.called → reads K w ≡ reverse seat.now.reads.items
        → b ≡ is_torn K w c what.now) }
{
    match what {
        What::Act { request, .. } => are_torn(alloc, seat, call, request.get()),
        _ => Ok(false),
    }
}

/// The same of the texts that a request names.
fn are_torn(alloc: Global, seat: &Seat, call: &Call, request: &Request) -> Result<bool, NoMemory>
    requires { All IsAnswered seat.now.reads.items }
    ensures { IfOk result (λ b. (K : List EventValue) (w c : ℕ) (cap : Option Cap) (answer : Result (Unit {0}) ℕ) → IsCalled K c call.now.called
        → reads K w ≡ reverse seat.now.reads.items → b ≡ is_torn K w c (Act request.now cap answer)) }
{
    let texts = texts_of(alloc, request)?;
    if !fit_parts(
        Plan::of(call.called.nr, &call.called.args),
        texts.as_slice(),
    ) {
        return Ok(false);
    }
    if stood_so(alloc, seat, call, texts.as_slice(), Worth::Valid)? {
        return Ok(false);
    }
    Ok(!stood_so(alloc, seat, call, texts.as_slice(), Worth::Fresh)?)
}

/// Whether texts that the call can have stood so in the caller's memory, as far as the reads of this worth tell.
fn stood_so(
    alloc: Global,
    seat: &Seat,
    call: &Call,
    texts: &[Text],
    least: Worth,
) -> Result<bool, NoMemory>
    requires answered { All IsAnswered seat.now.reads.items }
    requires fits { fit_parts (plan call.now.called.nr call.now.called.args) texts.now ≡ true }
    ensures { IfOk result (λ b. (K : List EventValue) (w c : ℕ) → IsCalled K c call.now.called → reads K w ≡ reverse seat.now.reads.items
        → b ≡ stood_so (worth_of least) K w c texts.now) }
{
    let all = whole_copies(alloc, seat, &call.called, least)?;
    if has_texts(all.as_slice(), texts) {
        return Ok(true);
    }
    stood_all(
        alloc,
        seat.reads.as_slice(),
        least,
        Plan::of(call.called.nr, &call.called.args),
        texts,
    )
}

/// The texts for which an effect is done: those that it names, or one of the copies.
fn texts_done(
    alloc: Global,
    seat: &Seat,
    call: &Call,
    what: &What,
) -> Result<Vec<Sequence<Text>>, NoMemory>
    requires { All IsAnswered seat.now.reads.items }
    ensures { IfOk result (λ all. (K : List EventValue) (w c : ℕ) → IsCalled K c call.now.called → reads K w ≡ reverse seat.now.reads.items
        → all.items ≡ texts_done K w c what.now) }
{
    match what {
        What::Act { request, .. } => one_list(alloc, texts_of(alloc, request.get())?),
        What::AddfdPut { .. } => texts_copied(alloc, seat, call),
        _ => one_list(alloc, Vec::new(alloc)),
    }
}

/// Whether the policy doesn't grant, or inject, just this.
fn is_ungranted(
    alloc: Global,
    policy: &Policy,
    script: &Script,
    seat: &Seat,
    call: &Call,
    what: &What,
) -> Result<bool, NoMemory>
    requires { All IsAnswered seat.now.reads.items }
    ensures { IfOk result (λ b. (K : List EventValue) (w c : ℕ) → IsCalled K c call.now.called → reads K w ≡ reverse seat.now.reads.items
        → b ≡ is_ungranted policy.now script.now K w c what.now) }
{
    let all = texts_done(alloc, seat, call, what)?;
    let is_granted = is_granted(alloc, policy, script, call, what, all.as_slice())?;
    Ok(!is_granted)
}

/// Whether the policy grants, or injects, just this for one of these lists of texts; where there are none, whatever the texts are.
fn is_granted(
    alloc: Global,
    policy: &Policy,
    script: &Script,
    call: &Call,
    what: &What,
    all: &[Sequence<Text>],
) -> Result<bool, NoMemory>
    ensures { IfOk result (λ b. (K : List EventValue) (c : ℕ) → IsCalled K c call.now.called
        → b ≡ is_granted policy.now script.now K c what.now all.now) }
{
    if all.is_empty() {
        grants_by_registers(alloc, policy, &script.figures, &call.called, what)
    } else {
        is_granted_for_some(alloc, policy, script, call, what, all)
    }
}

/// Whether the policy grants, or injects, just this for one of these lists of texts.
fn is_granted_for_some(
    alloc: Global,
    policy: &Policy,
    script: &Script,
    call: &Call,
    what: &What,
    all: &[Sequence<Text>],
) -> Result<bool, NoMemory>
    ensures { IfOk result (λ b. (K : List EventValue) (c : ℕ) → IsCalled K c call.now.called
        → b ≡ list_any (λ texts. grants_just policy.now script.now K c what.now texts (decided policy.now K c texts)) all.now) }
{
    let mut rest = all;
    while let Some((texts, later)) = rest.split_first() {
        if grants_just(
            alloc,
            policy,
            &script.figures,
            &call.called,
            what,
            texts.items(),
        )? {
            return Ok(true);
        }
        rest = later;
    }
    Ok(false)
}

/// The place of the rule that decides an effect, by the texts that it names.
pub(crate) fn rule_of(
    alloc: Global,
    policy: &Policy,
    call: &Call,
    what: &What,
) -> Result<usize, NoMemory>
    ensures { IfOk result (λ rule. (K : List EventValue) (c : ℕ) → IsCalled K c call.now.called
        → rule ≡ (decided policy.now K c (texts_named what.now)).0) }
{
    match what {
        What::Act { request, .. } => {
            let texts = texts_of(alloc, request.get())?;
            Ok(decide_with(alloc, policy, &call.called, texts.as_slice())?.rule)
        }
        _ => Ok(decide_with(alloc, policy, &call.called, &[])?.rule),
    }
}

/// Whether an effect was done, and its rule's times were spent.
fn is_too_often(judge: &Judge, policy: &Policy, call: &Call, what: &What) -> Result<bool, NoMemory>
    requires { HasTimes policy.now judge.now }
    ensures { IfOk result (λ b. (S : ScriptValue) (K : List EventValue) (c : ℕ) → Stands policy.now S K judge.now → IsCalled K c call.now.called
        → b ≡ is_too_often policy.now K c what.now) }
{
    match what {
        What::Act { answer: Ok(()), .. } | What::Plant { answer: Ok(()), .. } => {
            let rule = rule_of(judge.alloc, policy, call, what)?;
            Ok(is_used_up(policy, judge.times.as_slice(), rule))
        }
        _ => Ok(false),
    }
}

//! Results that nobody was told: those of effects for earlier calls, which were entered anew.

ghost use Rattle.std.specs.Prelude.{◌≡◌, ◌<◌, ◌&&◌, ◌==◌, not, bytes_eq, ℕ, ℤ, Ok, Some};
ghost use Rattle.std.specs.Prelude.{None, true, false, length, nat_le, nat_lt, reverse, find, All, IfOk, IfSome, OnOk};
ghost use Rattle.std.specs.List.{AllByRecursion, list_any};
ghost use Rattle.std.specs.Ordering.{int_eq};
ghost use Rattle.broker_verdict.specs.Answers.{gave_at, may_share_texts, place_told, remembered, share_texts, valid_texts};
ghost use Rattle.broker_verdict.specs.Effects.{texts_eq};
ghost use Rattle.broker_verdict.specs.Seats.{effect_of, reads};
ghost use Rattle.hist_model.specs.Look.{ev};
ghost use Rattle.hist_model.specs.Steps.{session_call};
ghost use Rattle.hist_model.specs.declared.event.Actor.TheVariants.{Worker};
ghost use Rattle.hist_model.specs.declared.event.Back.TheVariants.{Value};
ghost use Rattle.hist_model.specs.declared.event.What.TheVariants.{Send};
ghost use Rattle.hist_model.specs.declared.policy.Policy.{Policy};
ghost use Rattle.hist_model.specs.declared.script.Script.{Script};
ghost use Rattle.broker_judge.specs.Copied.{IsAnswered};
ghost use Rattle.judge_pass.specs.Stands.{Stands, hand_at, place_of_call, place_of_effect};
ghost use Rattle.judge_pass.specs.Told.{IsFirst, NotesTold, can_be_told, effect_is_for, may_be_told, own_told, remembered_for, texts_kept};
ghost use Rattle.judge_pass.specs.Within.{AreAmong, IsWithin, calls_kept, effects_kept};

use crate::calls::Call;
use crate::done::Done;
use crate::entered_again::first_entered;
use crate::judge::Judge;
use crate::made_texts::{one_list, whole_copies};
use crate::outcomes::gave;
use crate::seats::Seat;
use broker_judge::called::{Called, texts_of};
use broker_judge::reads::Worth;
use hist_model::event::{Event, What};
use hist_model::text::{Sequence, Text};
use std::alloc::Global;
use sys_abi::memory::NoMemory;

/// Whether two lists of texts are one.
fn are_equal(a: &[Text], b: &[Text]) -> bool
    ensures { result ≡ texts_eq a.now b.now }
{
    let mut rest = a;
    let mut others = b;
    while let Some((text, later)) = rest.split_first() {
        let Some((other, behind)) = others.split_first() else {
            return false;
        };
        if text.items() != other.items() {
            return false;
        }
        rest = later;
        others = behind;
    }
    others.is_empty()
}

/// Whether these texts are among others.
pub(crate) fn has_texts(others: &[Sequence<Text>], texts: &[Text]) -> bool
    ensures { result ≡ list_any (texts_eq texts.now) others.now }
{
    others.iter().any(|one| are_equal(texts, one.items()))
}

/// Whether two lists have a list of texts in common.
fn share_texts(all: &[Sequence<Text>], others: &[Sequence<Text>]) -> bool
    ensures { result ≡ share_texts all.now others.now }
{
    all.iter().any(|texts| has_texts(others, texts.items()))
}

/// Whether two lists have a list of texts in common, or the second one rests on no texts.
fn may_share_texts(all: &[Sequence<Text>], done: &[Sequence<Text>]) -> bool
    ensures { result ≡ may_share_texts all.now done.now }
{
    done.is_empty() || share_texts(all, done)
}

/// Whether an effect was done for one of these lists of texts, or for any.
pub(crate) fn shares_texts(
    alloc: Global,
    done: &Done,
    what: &What,
    all: &[Sequence<Text>],
) -> Result<bool, NoMemory>
    ensures { IfOk result (λ b. b ≡ may_share_texts all.now (texts_kept what.now done.now.put)) }
{
    match what {
        What::Act { request, .. } => {
            let named = one_list(alloc, texts_of(alloc, request.get())?)?;
            Ok(may_share_texts(all, named.as_slice()))
        }
        What::AddfdPut { .. } => match &done.put {
            Some(put) => Ok(may_share_texts(all, put.texts.as_slice())),
            None => Ok(true),
        },
        _ => {
            let none = one_list(alloc, Vec::new(alloc))?;
            Ok(may_share_texts(all, none.as_slice()))
        }
    }
}

/// Whether an effect gave a number, and was done for another call with the registers of this one, which has no answer; and its
/// outcome wasn't told.
fn may_be_told(judge: &Judge, before: &[Event], effect: usize, call: usize) -> bool
    requires within { IsWithin judge.now }
    requires among { AreAmong (length before.now) judge.now }
    requires effect { effect < effects_kept judge.now }
    requires call { call < calls_kept judge.now }
    ensures { (P : Policy) (S : Script) (c d p : ℕ) → Stands P S (reverse before.now) judge.now
        → place_of_effect (reverse before.now) (Some effect) ≡ Some p → place_of_call (reverse before.now) (Some call) ≡ Some c
        → hand_at (reverse before.now) p ≡ Some d → result ≡ may_be_told (reverse before.now) c d p }
{
    let done = &judge.done[effect];
    let earlier = &judge.calls.rows[done.call];
    let later = &judge.calls.rows[call];
    if !is_open(done, earlier, call) || !have_same_registers(&later.called, &earlier.called) {
        return false;
    }
    gave(judge, before, effect).is_some()
}

/// Whether an effect wasn't told, and was done for another call than this one, which has no answer.
pub(crate) fn is_open(done: &Done, earlier: &Call, call: usize) -> bool
    ensures { result ≡ (not done.now.is_told && (not (done.now.call == call) && not earlier.now.is_settled)) }
{
    !done.is_told && done.call != call && !earlier.is_settled
}

/// Whether two calls have equal registers.
pub(crate) fn have_same_registers(a: &Called, b: &Called) -> bool
    ensures { result ≡ (int_eq a.now.nr b.now.nr && bytes_eq a.now.args b.now.args) }
{
    a.nr == b.nr && a.args == b.args
}

/// Whether one of these effects may be told to a call, whatever their texts are.
fn some_may_be_told(judge: &Judge, before: &[Event], untold: &[usize], call: usize) -> bool
    requires within { IsWithin judge.now }
    requires among { AreAmong (length before.now) judge.now }
    requires effects { AllByRecursion (λ n. n < effects_kept judge.now) untold.now }
    requires call { call < calls_kept judge.now }
    ensures { (P : Policy) (S : Script) (w c : ℕ) → Stands P S (reverse before.now) judge.now
        → place_of_call (reverse before.now) (Some call) ≡ Some c → result ≡ false
        → find (can_be_told (reverse before.now) w c) untold.now ≡ None }
{
    let mut rest = untold;
    while let Some((effect, later)) = rest.split_first() {
        if may_be_told(judge, before, *effect, call) {
            return true;
        }
        rest = later;
    }
    false
}

/// Whether a call was interrupted, and is this later one, which its task entered anew. The task took no other steps from the first
/// place on until the later one.
fn is_entered_anew(first: usize, later: &Call, earlier: &Call) -> bool
    ensures { result ≡ (nat_lt earlier.now.place later.now.place && nat_le first earlier.now.place) }
{
    earlier.place < later.place && first <= earlier.place
}

/// Whether the effect can be told to a call of the same task, of which these copies are whole. The task took no other steps than those
/// that lead to this call from the first place on until it was entered.
fn can_be_told(
    judge: &Judge,
    before: &[Event],
    effect: usize,
    call: usize,
    first: usize,
    all: &[Sequence<Text>],
) -> Result<bool, NoMemory>
    requires within { IsWithin judge.now }
    requires among { AreAmong (length before.now) judge.now }
    requires effect { effect < effects_kept judge.now }
    requires call { call < calls_kept judge.now }
    ensures { IfOk result (λ b. (P : Policy) (S : Script) (w c : ℕ) → Stands P S (reverse before.now) judge.now
        → place_of_call (reverse before.now) (Some call) ≡ Some c → all.now ≡ valid_texts (reverse before.now) w c
        → IsFirst (reverse before.now) c first → effect_is_for (reverse before.now) c effect ≡ true
        → b ≡ can_be_told (reverse before.now) w c effect) }
{
    if !may_be_told(judge, before, effect, call) {
        return Ok(false);
    }
    let done = &judge.done[effect];
    let earlier = &judge.calls.rows[done.call];
    if !is_entered_anew(first, &judge.calls.rows[call], earlier) {
        return Ok(false);
    }
    shares_texts(judge.alloc, done, &before[done.place].what, all)
}

/// The first of these effects that can be told to a call.
fn first_told(
    judge: &Judge,
    before: &[Event],
    untold: &[usize],
    call: usize,
    first: usize,
    all: &[Sequence<Text>],
) -> Result<Option<usize>, NoMemory>
    requires within { IsWithin judge.now }
    requires among { AreAmong (length before.now) judge.now }
    requires effects { AllByRecursion (λ n. n < effects_kept judge.now) untold.now }
    requires call { call < calls_kept judge.now }
    ensures kept { IfOk result (λ found. IfSome found (λ n. n < effects_kept judge.now)) }
    ensures first { IfOk result (λ found. (P : Policy) (S : Script) (w c : ℕ) → Stands P S (reverse before.now) judge.now
        → place_of_call (reverse before.now) (Some call) ≡ Some c → all.now ≡ valid_texts (reverse before.now) w c
        → IsFirst (reverse before.now) c first → AllByRecursion (λ n. effect_is_for (reverse before.now) c n ≡ true) untold.now
        → found ≡ find (can_be_told (reverse before.now) w c) untold.now) }
{
    let mut rest = untold;
    while let Some((effect, later)) = rest.split_first() {
        if can_be_told(judge, before, *effect, call, first, all)? {
            return Ok(Some(*effect));
        }
        rest = later;
    }
    Ok(None)
}

/// The oldest effect for an earlier call whose result the seat may tell the call that it has in hand.
pub(crate) fn remembered(
    judge: &Judge,
    before: &[Event],
    worker: usize,
) -> Result<Option<usize>, NoMemory>
    requires within { IsWithin judge.now }
    requires among { AreAmong (length before.now) judge.now }
    requires worker { worker < 17 }
    ensures kept { IfOk result (λ found. IfSome found (λ n. n < effects_kept judge.now)) }
    ensures place { IfOk result (λ found. (P : Policy) (S : Script) → Stands P S (reverse before.now) judge.now
        → place_of_effect (reverse before.now) found
        ≡ remembered_for (reverse before.now) worker (session_call (reverse before.now) worker)) }
{
    let seat = &judge.seats[worker];
    match seat.call {
        Some(call) => remembered_for(judge, before, seat, call),
        None => Ok(None),
    }
}

/// The same for this call.
fn remembered_for(
    judge: &Judge,
    before: &[Event],
    seat: &Seat,
    call: usize,
) -> Result<Option<usize>, NoMemory>
    requires within { IsWithin judge.now }
    requires among { AreAmong (length before.now) judge.now }
    requires call { call < calls_kept judge.now }
    requires answered { All IsAnswered seat.now.reads.items }
    ensures kept { IfOk result (λ found. IfSome found (λ n. n < effects_kept judge.now)) }
    ensures place { IfOk result (λ found. (P : Policy) (S : Script) (w c : ℕ) → Stands P S (reverse before.now) judge.now
        → reads (reverse before.now) w ≡ reverse seat.now.reads.items → place_of_call (reverse before.now) (Some call) ≡ Some c
        → place_of_effect (reverse before.now) found ≡ remembered (reverse before.now) w c) }
{
    let row = &judge.calls.rows[call];
    let untold = judge.tasks[row.caller as usize].untold.as_slice();
    if !some_may_be_told(judge, before, untold, call) {
        return Ok(None);
    }
    let first = first_entered(before, row.place, &row.called);
    let all = whole_copies(judge.alloc, seat, &row.called, Worth::Valid)?;
    first_told(judge, before, untold, call, first, all.as_slice())
}

/// The seat's own effect, where it gave a number.
fn own_told(judge: &Judge, before: &[Event], worker: usize) -> Option<usize>
    requires within { IsWithin judge.now }
    requires among { AreAmong (length before.now) judge.now }
    requires worker { worker < 17 }
    ensures kept { IfSome result (λ n. n < effects_kept judge.now) }
    ensures place { (P : Policy) (S : Script) → Stands P S (reverse before.now) judge.now
        → place_of_effect (reverse before.now) result ≡ own_told (reverse before.now) worker }
{
    let own = judge.seats[worker].effect?;
    if gave(judge, before, own).is_some() {
        Some(own)
    } else {
        None
    }
}

/// The effect whose result is told by a success: the seat's own that has succeeded, else one for an earlier call.
pub(crate) fn effect_told(
    judge: &Judge,
    before: &[Event],
    worker: usize,
) -> Result<Option<usize>, NoMemory>
    requires within { IsWithin judge.now }
    requires among { AreAmong (length before.now) judge.now }
    requires worker { worker < 17 }
    ensures kept { IfOk result (λ found. IfSome found (λ n. n < effects_kept judge.now)) }
    ensures place { IfOk result (λ found. (P : Policy) (S : Script) (c : ℕ) → Stands P S (reverse before.now) judge.now
        → session_call (reverse before.now) worker ≡ Some c
        → place_of_effect (reverse before.now) found
        ≡ place_told (reverse before.now) worker c (gave_at (reverse before.now) (effect_of (reverse before.now) worker))) }
{
    match own_told(judge, before, worker) {
        Some(own) => Ok(Some(own)),
        None => remembered(judge, before, worker),
    }
}

/// A success was told, which is noted of the effect for an earlier call that it tells.
pub(crate) fn note_told(judge: &mut Judge, before: &[Event], worker: usize) -> Result<(), NoMemory>
    requires within { IsWithin judge.old }
    requires among { AreAmong (length before.now) judge.old }
    requires worker { worker < 17 }
    ensures noted { OnOk result ((P : Policy) (S : Script) (id : ℕ) (value : ℤ) → Stands P S (reverse before.now) judge.old
        → NotesTold (reverse before.now) (ev (Worker worker) (Send id (Value value) (Ok tt))) judge.old judge.new) }
    ensures rest { judge.new ≡ record judge.old { done = judge.new.done } }
{
    if own_told(judge, before, worker).is_some() {
        return Ok(());
    }
    if let Some(effect) = remembered(judge, before, worker)? {
        judge.done[effect].is_told = true;
    }
    Ok(())
}

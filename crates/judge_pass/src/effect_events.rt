//! Effects that break nothing, as they are noted.

ghost use Rattle.std.specs.Prelude.{◌≡◌, ◌+◌, ◌<◌, ◌^◌, ◌∷◌, ◌++◌, [], ℕ, List, Some, OnOk, IfOk, IfSome};
ghost use Rattle.std.specs.Prelude.{if◌then◌else◌, is_some, length, true};
ghost use Rattle.broker_judge.specs.Called.{Counts as CountsDone, IsCalled};
ghost use Rattle.broker_verdict.specs.Effects.{is_done, texts_copied};
ghost use Rattle.broker_verdict.specs.Seats.{is_effect};
ghost use Rattle.hist_model.specs.Look.{ev};
ghost use Rattle.hist_model.specs.Steps.{session_call};
ghost use Rattle.hist_model.specs.declared.event.Actor.TheVariants.{Worker};
ghost use Rattle.hist_model.specs.declared.event.Event.{Event};
ghost use Rattle.hist_model.specs.declared.policy.Policy.{Policy as PolicyValue};
ghost use Rattle.hist_model.specs.declared.script.Script.{Script as ScriptValue};
ghost use Rattle.judge_pass.specs.Counted.{AreCounted, is_answering};
ghost use Rattle.judge_pass.specs.Stands.{asks_descriptor, IsHistory, IsPutOf, IsSeat, may_give, Stands};
ghost use Rattle.judge_pass.specs.Tables.{call_put};
ghost use Rattle.judge_pass.specs.Takes.{Queues, QueuesFor};
ghost use Rattle.judge_pass.specs.Within.{calls_kept, HasTimes, IsSeatWithin, IsWithin};

use crate::calls::{Call, Calls, Queued, has_send};
use crate::done::{Done, Put};
use crate::effects::{rule_of, texts_copied};
use crate::judge::{Counts, Judge};
use crate::seats::Seat;
use crate::task_table::Task;
use hist_model::event::What;
use hist_model::policy::Policy;
use hist_model::text::{Sequence, Text};
use std::alloc::Global;
use sys_abi::memory::NoMemory;

impl Judge {
    /// Notes an effect that breaks nothing.
    pub(crate) fn note_effect(
        &mut self,
        policy: &Policy,
        place: usize,
        worker: usize,
        what: &What,
    ) -> Result<(), NoMemory>
        requires within { IsWithin self.old }
        requires worker { worker < 17 }
        requires times { HasTimes policy.now self.old }
        requires kind { is_effect what.now ≡ true }
        requires few { (self.old.counts.effects + 1 < 2 ^ 64) × (self.old.counts.answers + 1 < 2 ^ 64) }
        ensures { OnOk result ((S : ScriptValue) (K : List Event) (e : Event) → Stands policy.now S K self.old → IsHistory S (e ∷ K)
            → e ≡ ev (Worker worker) what.now → length K ≡ place → is_some (session_call K worker) ≡ true → Stands policy.now S (e ∷ K) self.new) }
    {
        let Some(call) = self.seats[worker].call else {
            return Ok(());
        };
        let put = self.put_of(&self.seats[worker], what)?;
        let effect = self.done.len();
        let row = &self.calls.rows[call];
        count_effect(&mut self.counts, what);
        count_rule(self.alloc, policy, &mut self.times, row, what)?;
        note_untold(&mut self.tasks[row.caller as usize], effect, what)?;
        queue_put(&mut self.calls, call_put(&put), effect, what)?;
        self.done.push(Done {
            place,
            call,
            put,
            is_told: false,
        })?;
        self.seats[worker].effect = Some(effect);
        Ok(())
    }

    /// What is kept of a request for a descriptor, if the effect is one.
    fn put_of(&self, seat: &Seat, what: &What) -> Result<Option<Put>, NoMemory>
        requires seat { IsSeatWithin self.now seat.now }
        ensures kept { IfOk result (λ put. asks_descriptor what.now ≡ is_some put) }
        ensures put { IfOk result (λ put. (P : PolicyValue) (S : ScriptValue) (K : List Event) (w : ℕ) → Stands P S K self.now
            → IsSeat S K w seat.now → IsPutOf (ev (Worker w) what.now ∷ K) (length K) put) }
        ensures within { IfOk result (λ put. IfSome (call_put put) (λ c. c < calls_kept self.now)) }
    {
        match what {
            What::AddfdPut { asked, answer } => Ok(Some(Put {
                call: self.calls.named(asked.id),
                installed: None,
                texts: self.texts_put(seat, answer.is_ok())?,
            })),
            _ => Ok(None),
        }
    }

    /// The texts for which a descriptor is put: those of the copies for the call that the seat has in hand.
    fn texts_put(&self, seat: &Seat, is_put: bool) -> Result<Vec<Sequence<Text>>, NoMemory>
        requires { IsSeatWithin self.now seat.now }
        ensures { IfOk result (λ all. (P : PolicyValue) (S : ScriptValue) (K : List Event) (w c : ℕ) → Stands P S K self.now
            → IsSeat S K w seat.now → is_put ≡ true → session_call K w ≡ Some c → all.items ≡ texts_copied K w c) }
    {
        match self.call_of(seat) {
            Some(call) if is_put => texts_copied(self.alloc, seat, call),
            _ => Ok(Vec::new(self.alloc)),
        }
    }
}

/// The call that a request's id named, if the effect is a request and it named one.
fn call_put(put: &Option<Put>) -> Option<usize>
    ensures { result ≡ call_put put.now }
{
    match put {
        Some(put) => put.call,
        None => None,
    }
}

/// Whether an effect answers its call.
fn is_answering(what: &What) -> bool
    requires { is_effect what.now ≡ true }
    ensures { result ≡ is_answering what.now }
{
    match what {
        What::AddfdPut { asked, .. } => has_send(asked),
        _ => false,
    }
}

/// One more effect, which may answer its call.
fn count_effect(counts: &mut Counts, what: &What)
    requires kind { is_effect what.now ≡ true }
    requires few { (counts.old.effects + 1 < 2 ^ 64) × (counts.old.answers + 1 < 2 ^ 64) }
    ensures { (K : List Event) (e : Event) → e.what ≡ what.now → AreCounted K counts.old → AreCounted (e ∷ K) counts.new }
{
    counts.effects += 1;
    if is_answering(what) {
        counts.answers += 1;
    }
}

/// Whether it was done what the policy grants.
fn is_done(what: &What) -> bool
    ensures { result ≡ is_done what.now }
{
    matches!(
        what,
        What::Act { answer: Ok(()), .. } | What::Plant { answer: Ok(()), .. }
    )
}

/// One more effect was done by the rule that decides it, if it was done. No rule is counted more often than there are events.
fn count_rule(
    alloc: Global,
    policy: &Policy,
    times: &mut Vec<u64>,
    call: &Call,
    what: &What,
) -> Result<(), NoMemory>
    ensures number { length times.new.items ≡ length times.old.items }
    ensures times { OnOk result ((K : List Event) (w c : ℕ) → CountsDone policy.now K times.old.items → length K + 1 < 2 ^ 64
        → IsCalled K c call.now.called → session_call K w ≡ Some c → CountsDone policy.now (ev (Worker w) what.now ∷ K) times.new.items) }
{
    if !is_done(what) {
        return Ok(());
    }
    let rule = rule_of(alloc, policy, call, what)?;
    if let Some(often) = times.get_mut(rule) {
        *often = often.saturating_add(1);
    }
    Ok(())
}

/// Whether an effect may give a number: it was done, or a descriptor was put.
fn may_give(what: &What) -> bool
    ensures { result ≡ may_give what.now }
{
    matches!(
        what,
        What::Act { answer: Ok(()), .. }
            | What::Plant { answer: Ok(()), .. }
            | What::AddfdPut { answer: Ok(()), .. }
    )
}

/// An effect for a call of the task: nobody was told yet what it gave, if it may give something.
fn note_untold(task: &mut Task, effect: usize, what: &What) -> Result<(), NoMemory>
    ensures untold { OnOk result (task.new.untold.items
        ≡ (if may_give what.now then task.old.untold.items ++ effect ∷ [] else task.old.untold.items)) }
    ensures rest { task.new ≡ record task.old { untold = task.new.untold } }
{
    if may_give(what) {
        task.untold.push(effect)?;
    }
    Ok(())
}

/// A request is the last that waits for an installation, of those for its call.
fn queue(calls: &mut Calls, call: usize, queued: Queued) -> Result<(), NoMemory>
    requires { call < length calls.old.rows.items }
    ensures { OnOk result (QueuesFor call queued calls.old calls.new) }
{
    calls.rows[call].queue.push(queued)?;
    Ok(())
}

/// A request for a descriptor that was put waits for its installation, if its id named a call.
fn queue_put(
    calls: &mut Calls,
    call: Option<usize>,
    effect: usize,
    what: &What,
) -> Result<(), NoMemory>
    requires { IfSome call (λ c. c < length calls.old.rows.items) }
    ensures { OnOk result (Queues call effect what.now calls.old calls.new) }
{
    match (call, what) {
        (
            Some(call),
            What::AddfdPut {
                asked,
                answer: Ok(()),
            },
        ) => queue(
            calls,
            call,
            Queued {
                effect,
                has_send: has_send(asked),
            },
        ),
        _ => Ok(()),
    }
}

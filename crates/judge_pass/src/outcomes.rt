//! What came of an effect.

ghost use Rattle.std.specs.Prelude.{◌≡◌, ◌<◌, ℕ, List, length, reverse, IfSome, Some};
ghost use Rattle.broker_verdict.specs.Answers.{gave_at, number_in, outcome_at, outcome_of, put_outcome};
ghost use Rattle.hist_model.specs.Steps.{call_at, call_listed, install_of};
ghost use Rattle.hist_model.specs.declared.event.Event.{Event};
ghost use Rattle.hist_model.specs.declared.policy.Policy.{Policy};
ghost use Rattle.hist_model.specs.declared.script.Script.{Script};
ghost use Rattle.judge_pass.specs.Stands.{IsDone, IsPut, Stands, place_of_call, place_of_effect, what_at};
ghost use Rattle.judge_pass.specs.Within.{AreAmong, IsDoneWithin, IsWithin, calls_kept, effects_kept};

use crate::done::{Done, Put};
use crate::judge::Judge;
use hist_model::event::{Event, What};
use sys_abi::errno::Errno;

/// What a call is to return of an effect, by its number: a number or an error; none where that isn't known yet.
pub(crate) fn outcome(judge: &Judge, before: &[Event], effect: usize) -> Option<Result<u32, Errno>>
    requires within { IsWithin judge.now }
    requires among { AreAmong (length before.now) judge.now }
    requires effect { effect < effects_kept judge.now }
    ensures { (P : Policy) (S : Script) → Stands P S (reverse before.now) judge.now
        → result ≡ outcome_at (reverse before.now) (place_of_effect (reverse before.now) (Some effect)) }
{
    let done = &judge.done[effect];
    outcome_of(judge, done, &before[done.place].what)
}

/// The same of what an effect did.
fn outcome_of(judge: &Judge, done: &Done, what: &What) -> Option<Result<u32, Errno>>
    requires { IsDoneWithin judge.now done.now }
    ensures { (P : Policy) (S : Script) (K : List Event) (n : ℕ) → Stands P S K judge.now → IsDone K n done.now
        → what_at K done.now.place ≡ what.now → result ≡ outcome_of K done.now.place what.now }
{
    match what {
        What::Act { answer: Ok(()), .. } | What::Plant { answer: Ok(()), .. } => Some(Ok(0)),
        What::Act {
            answer: Err(errno),
            ..
        }
        | What::Plant {
            answer: Err(errno),
            ..
        }
        | What::AddfdPut {
            answer: Err(errno),
            ..
        } => Some(Err(*errno)),
        What::AddfdPut { answer: Ok(()), .. } => match &done.put {
            Some(put) => put_outcome(judge, put),
            None => None,
        },
        _ => None,
    }
}

/// The outcome of a request for a descriptor that was put.
fn put_outcome(judge: &Judge, put: &Put) -> Option<Result<u32, Errno>>
    requires { IfSome put.now.call (λ c. c < calls_kept judge.now) }
    ensures { (P : Policy) (S : Script) (K : List Event) (p : ℕ) → Stands P S K judge.now → IsPut K p put.now
        → result ≡ put_outcome (install_of K p) (call_listed K (call_at K p)) }
{
    if let Some(answer) = &put.installed {
        return Some(*answer);
    }
    if is_listed(judge, put.call) {
        None
    } else {
        Some(Err(Errno::ENOENT))
    }
}

/// Whether there is a call, and it is listed.
fn is_listed(judge: &Judge, call: Option<usize>) -> bool
    requires { IfSome call (λ c. c < calls_kept judge.now) }
    ensures { (P : Policy) (S : Script) (K : List Event) → Stands P S K judge.now → result ≡ call_listed K (place_of_call K call) }
{
    match call {
        Some(call) => judge.calls.rows[call].is_listed,
        None => false,
    }
}

/// The number that an effect gave, where it has succeeded.
pub(crate) fn gave(judge: &Judge, before: &[Event], effect: usize) -> Option<u32>
    requires within { IsWithin judge.now }
    requires among { AreAmong (length before.now) judge.now }
    requires effect { effect < effects_kept judge.now }
    ensures { (P : Policy) (S : Script) → Stands P S (reverse before.now) judge.now
        → result ≡ gave_at (reverse before.now) (place_of_effect (reverse before.now) (Some effect)) }
{
    number_in(outcome(judge, before, effect))
}

/// The number, where there is one.
fn number_in(outcome: Option<Result<u32, Errno>>) -> Option<u32>
    ensures { result ≡ number_in outcome }
{
    match outcome {
        Some(Ok(number)) => Some(number),
        _ => None,
    }
}

//! The clauses of an answer.

ghost use Rattle.std.specs.Prelude.{◌≡◌, ◌<◌, ◌&&◌, if◌then◌else◌, ℕ, List, Ok, Some};
ghost use Rattle.std.specs.Prelude.{None, is_some, true, pos, not, length, reverse, IfOk};
ghost use Rattle.std.specs.Ordering.{int_eq};
ghost use Rattle.broker_verdict.specs.Answers.{allows_error, cannot_put, has_known, is_answering, is_second, number_told};
ghost use Rattle.broker_verdict.specs.Choices.{by_registers};
ghost use Rattle.broker_verdict.specs.Seats.{effect_of};
ghost use Rattle.broker_verdict.specs.Trusted.{answer_breaks, breaks_by, clauses, first_broken};
ghost use Rattle.hist_model.specs.Steps.{session_call};
ghost use Rattle.hist_model.specs.declared.event.Actor.TheVariants.{Worker};
ghost use Rattle.hist_model.specs.declared.event.Back.TheVariants.{Value};
ghost use Rattle.hist_model.specs.declared.event.Event.{Event};
ghost use Rattle.hist_model.specs.declared.event.What.TheVariants.{Send};
ghost use Rattle.hist_model.specs.declared.policy.Policy.{Policy};
ghost use Rattle.hist_model.specs.declared.script.Script.{Script};
ghost use Rattle.broker_judge.specs.Said.{IsSaid};
ghost use Rattle.judge_pass.specs.Clauses.{clauses_of_accepted, clauses_of_answers};
ghost use Rattle.judge_pass.specs.Clauses.{clauses_of_outcome, clauses_of_policy, clauses_of_words};
ghost use Rattle.judge_pass.specs.Outcomes.{deed_of_seat, forbids_error, outcome_of_seat};
ghost use Rattle.judge_pass.specs.Stands.{IsCall, IsSeat, Stands, is_put};
ghost use Rattle.judge_pass.specs.Within.{AreAmong, HasTimes, IsSeatWithin, IsWithin};

use crate::calls::Call;
use crate::judge::Judge;
use crate::outcomes::{gave, outcome};
use crate::seats::Seat;
use crate::told::effect_told;
use broker_judge::said::{Grounds, Said, said_of};
use broker_verdict::clause::Clause;
use hist_model::event::{Back, Event, What};
use hist_model::policy::Policy;
use sys_abi::errno::Errno;
use sys_abi::memory::NoMemory;

/// The first clause that an answer of a worker breaks.
pub(crate) fn broken_by_answer(
    judge: &Judge,
    policy: &Policy,
    before: &[Event],
    worker: usize,
    id: u64,
    back: &Back,
    answer: &Result<(), Errno>,
) -> Result<Option<Clause>, NoMemory>
    requires within { IsWithin judge.now }
    requires among { AreAmong (length before.now) judge.now }
    requires times { HasTimes policy.now judge.now }
    requires worker { worker < 17 }
    ensures { IfOk result (λ found. (S : Script) → Stands policy.now S (reverse before.now) judge.now
        → found
        ≡ first_broken (λ clause. breaks_by policy.now S clause (reverse before.now) (Worker worker) (Send id back.now answer.now))
        clauses) }
{
    let seat = &judge.seats[worker];
    let Some(call) = judge.call_of(seat) else {
        return Ok(Some(Clause::AnswerWithoutCall));
    };
    broken_for_call(judge, policy, before, worker, call, id, back, answer)
}

/// The same of an answer for the call that the seat has in hand.
fn broken_for_call(
    judge: &Judge,
    policy: &Policy,
    before: &[Event],
    worker: usize,
    call: &Call,
    id: u64,
    back: &Back,
    answer: &Result<(), Errno>,
) -> Result<Option<Clause>, NoMemory>
    requires within { IsWithin judge.now }
    requires among { AreAmong (length before.now) judge.now }
    requires times { HasTimes policy.now judge.now }
    requires worker { worker < 17 }
    ensures { IfOk result (λ found. (S : Script) (n : ℕ) → Stands policy.now S (reverse before.now) judge.now
        → IsCall S (reverse before.now) n call.now → session_call (reverse before.now) worker ≡ Some call.now.place
        → found
        ≡ first_broken
        (λ clause. answer_breaks policy.now S clause (reverse before.now) worker call.now.place (Send id back.now answer.now))
        clauses_of_answers) }
{
    if call.called.id != id {
        return Ok(Some(Clause::OtherAnswer));
    }
    match answer {
        Ok(()) => broken_by_accepted(judge, policy, before, worker, call, back),
        Err(_) => {
            let is_first = !is_second(judge, before, &judge.seats[worker], answer);
            Ok(broken_unless(is_first, Clause::AnsweredAlready))
        }
    }
}

/// The first clause that an answer breaks which its call was given.
fn broken_by_accepted(
    judge: &Judge,
    policy: &Policy,
    before: &[Event],
    worker: usize,
    call: &Call,
    back: &Back,
) -> Result<Option<Clause>, NoMemory>
    requires within { IsWithin judge.now }
    requires among { AreAmong (length before.now) judge.now }
    requires times { HasTimes policy.now judge.now }
    requires worker { worker < 17 }
    ensures { IfOk result (λ found. (S : Script) (n id : ℕ) → Stands policy.now S (reverse before.now) judge.now
        → IsCall S (reverse before.now) n call.now → session_call (reverse before.now) worker ≡ Some call.now.place
        → found
        ≡ first_broken
        (λ clause. answer_breaks policy.now S clause (reverse before.now) worker call.now.place (Send id back.now (Ok tt)))
        clauses_of_accepted) }
{
    if let Some(clause) = broken_by_policy(judge, policy, &judge.seats[worker], call, back)? {
        return Ok(Some(clause));
    }
    broken_by_outcome(judge, before, worker, back)
}

/// The first clause that an answer breaks by what the policy says.
fn broken_by_policy(
    judge: &Judge,
    policy: &Policy,
    seat: &Seat,
    call: &Call,
    back: &Back,
) -> Result<Option<Clause>, NoMemory>
    requires times { HasTimes policy.now judge.now }
    requires seat { IsSeatWithin judge.now seat.now }
    ensures { IfOk result (λ found. (S : Script) (K : List Event) (w n id : ℕ)
        → Stands policy.now S K judge.now → IsSeat S K w seat.now → IsCall S K n call.now
        → found
        ≡ first_broken (λ clause. answer_breaks policy.now S clause K w call.now.place (Send id back.now (Ok tt))) clauses_of_policy) }
{
    match seat.effect {
        Some(_) => Ok(broken_with_effect(back)),
        None => broken_without_effect(judge, policy, seat, call, back),
    }
}

/// The clause that an answer with an effect breaks by what the policy says: it lets the call run natively.
fn broken_with_effect(back: &Back) -> Option<Clause>
    ensures { (P : Policy) (S : Script) (K : List Event) (w c id : ℕ) → is_some (effect_of K w) ≡ true
        → result ≡ first_broken (λ clause. answer_breaks P S clause K w c (Send id back.now (Ok tt))) clauses_of_policy }
{
    match back {
        Back::Continue => Some(Clause::PassedOtherwise),
        Back::Value(_) | Back::Fail(_) => None,
    }
}

/// The first clause that an answer without an effect breaks by what the policy says.
fn broken_without_effect(
    judge: &Judge,
    policy: &Policy,
    seat: &Seat,
    call: &Call,
    back: &Back,
) -> Result<Option<Clause>, NoMemory>
    requires times { HasTimes policy.now judge.now }
    requires seat { IsSeatWithin judge.now seat.now }
    ensures { IfOk result (λ found. (S : Script) (K : List Event) (w n id : ℕ)
        → Stands policy.now S K judge.now → IsSeat S K w seat.now → IsCall S K n call.now → effect_of K w ≡ None
        → found
        ≡ first_broken (λ clause. answer_breaks policy.now S clause K w call.now.place (Send id back.now (Ok tt))) clauses_of_policy) }
{
    let said = said_of(judge.alloc, policy, &call.called, seat.reads.as_slice())?;
    if lacks_cause(&said) {
        return Ok(Some(Clause::Uncaused));
    }
    broken_by_words(judge, policy, seat, call, &said, back)
}

/// Whether no copy is known, and the policy says nothing by registers.
fn lacks_cause(said: &Said) -> bool
    ensures { (P : Policy) (K : List Event) (w c : ℕ) → IsSaid P K w c said.now
        → result ≡ (not (has_known K w c) && not (is_some (by_registers P K c))) }
{
    !said.has_known() && said.is_silent()
}

/// The clause that an answer without an effect breaks: it is another one than the policy says.
fn broken_by_words(
    judge: &Judge,
    policy: &Policy,
    seat: &Seat,
    call: &Call,
    said: &Said,
    back: &Back,
) -> Result<Option<Clause>, NoMemory>
    requires times { HasTimes policy.now judge.now }
    ensures { IfOk result (λ found. (S : Script) (K : List Event) (w n id : ℕ)
        → Stands policy.now S K judge.now → IsSeat S K w seat.now → IsCall S K n call.now → IsSaid policy.now K w call.now.place said.now
        → effect_of K w ≡ None
        → found
        ≡ first_broken (λ clause. answer_breaks policy.now S clause K w call.now.place (Send id back.now (Ok tt))) clauses_of_words) }
{
    match back {
        Back::Fail(errno) => {
            let grounds = Grounds {
                policy,
                times: judge.times.as_slice(),
                is_base_refused: seat.is_base_refused,
            };
            let is_said = said.says_error(judge.alloc, &grounds, &call.called, *errno)?;
            Ok(broken_unless(is_said, Clause::DeniedOtherwise))
        }
        Back::Continue => {
            let is_said = said.says_pass(judge.alloc, policy, &call.called)?;
            Ok(broken_unless(is_said, Clause::PassedOtherwise))
        }
        Back::Value(_) => Ok(None),
    }
}

/// This clause, unless it holds.
fn broken_unless(holds: bool, clause: Clause) -> Option<Clause>
    ensures { result ≡ (if holds then None else Some clause) }
{
    if holds { None } else { Some(clause) }
}

/// The clause that an answer breaks by what came of an effect.
fn broken_by_outcome(
    judge: &Judge,
    before: &[Event],
    worker: usize,
    back: &Back,
) -> Result<Option<Clause>, NoMemory>
    requires within { IsWithin judge.now }
    requires among { AreAmong (length before.now) judge.now }
    requires worker { worker < 17 }
    ensures { IfOk result (λ found. (P : Policy) (S : Script) (c id : ℕ)
        → Stands P S (reverse before.now) judge.now → session_call (reverse before.now) worker ≡ Some c
        → found
        ≡ first_broken (λ clause. answer_breaks P S clause (reverse before.now) worker c (Send id back.now (Ok tt))) clauses_of_outcome) }
{
    match back {
        Back::Value(value) => broken_by_value(judge, before, worker, *value),
        Back::Fail(errno) => Ok(broken_unless(
            allows_error(judge, before, &judge.seats[worker], *errno),
            Clause::OtherOutcome,
        )),
        Back::Continue => Ok(None),
    }
}

/// The number that may be told: of the seat's own effect that has succeeded, else of one for an earlier call.
fn number_told(judge: &Judge, before: &[Event], worker: usize) -> Result<Option<u32>, NoMemory>
    requires within { IsWithin judge.now }
    requires among { AreAmong (length before.now) judge.now }
    requires worker { worker < 17 }
    ensures { IfOk result (λ number. (P : Policy) (S : Script) (c : ℕ) → Stands P S (reverse before.now) judge.now
        → session_call (reverse before.now) worker ≡ Some c → number ≡ number_told (reverse before.now) worker c) }
{
    Ok(match effect_told(judge, before, worker)? {
        Some(effect) => gave(judge, before, effect),
        None => None,
    })
}

/// The clause that a success breaks: it reports one that there wasn't, or another number.
fn broken_by_value(
    judge: &Judge,
    before: &[Event],
    worker: usize,
    value: i64,
) -> Result<Option<Clause>, NoMemory>
    requires within { IsWithin judge.now }
    requires among { AreAmong (length before.now) judge.now }
    requires worker { worker < 17 }
    ensures { IfOk result (λ found. (P : Policy) (S : Script) (c id : ℕ)
        → Stands P S (reverse before.now) judge.now → session_call (reverse before.now) worker ≡ Some c
        → found
        ≡ first_broken (λ clause. answer_breaks P S clause (reverse before.now) worker c (Send id (Value value) (Ok tt)))
        clauses_of_outcome) }
{
    let number = number_told(judge, before, worker)?;
    Ok(match number {
        Some(number) => broken_unless(is_number(number, value), Clause::OtherOutcome),
        None => Some(Clause::GrantedNotDone),
    })
}

/// Whether a value is this number.
fn is_number(number: u32, value: i64) -> bool
    ensures { result ≡ int_eq (pos number) value }
{
    i64::from(number) == value
}

/// Whether the seat has no effect, or its effect allows this error.
fn allows_error(judge: &Judge, before: &[Event], seat: &Seat, errno: Errno) -> bool
    requires within { IsWithin judge.now }
    requires among { AreAmong (length before.now) judge.now }
    requires seat { IsSeatWithin judge.now seat.now }
    ensures { (P : Policy) (S : Script) (w : ℕ) → Stands P S (reverse before.now) judge.now → IsSeat S (reverse before.now) w seat.now
        → result ≡ not (forbids_error (reverse before.now) w errno) }
{
    match seat.effect {
        Some(effect) => error_allowed(
            outcome(judge, before, effect),
            &before[judge.done[effect].place].what,
            errno,
        ),
        None => true,
    }
}

/// Whether an effect with this outcome allows the error: it is the outcome's, or there was no room for a descriptor.
fn error_allowed(outcome: Option<Result<u32, Errno>>, what: &What, errno: Errno) -> bool
    ensures { result ≡ allows_error outcome what.now errno }
{
    match outcome {
        Some(Err(answered)) => errno == answered || (is_put(what) && errno == Errno::EMFILE),
        _ => false,
    }
}

/// Whether a request for a descriptor was put.
fn is_put(what: &What) -> bool
    ensures { result ≡ is_put what.now }
{
    matches!(what, What::AddfdPut { answer: Ok(()), .. })
}

/// Whether the descriptor couldn't be put in, by what came of its request.
fn cannot_put(outcome: Option<Result<u32, Errno>>) -> bool
    ensures { result ≡ cannot_put outcome }
{
    match outcome {
        Some(Err(errno)) => errno == Errno::EBADF || errno == Errno::EMFILE,
        _ => false,
    }
}

/// Whether the kernel refuses the answer, and it isn't the first for its call.
fn is_second(judge: &Judge, before: &[Event], seat: &Seat, answer: &Result<(), Errno>) -> bool
    requires within { IsWithin judge.now }
    requires among { AreAmong (length before.now) judge.now }
    requires seat { IsSeatWithin judge.now seat.now }
    ensures { (P : Policy) (S : Script) (w : ℕ) → Stands P S (reverse before.now) judge.now → IsSeat S (reverse before.now) w seat.now
        → result ≡ is_second (reverse before.now) w answer.now }
{
    answer.is_err() && (seat.has_sent || is_answering(judge, before, seat))
}

/// Whether the seat's effect is an answer, too: a request for a descriptor with SEND, but not one that can't be put in.
fn is_answering(judge: &Judge, before: &[Event], seat: &Seat) -> bool
    requires within { IsWithin judge.now }
    requires among { AreAmong (length before.now) judge.now }
    requires seat { IsSeatWithin judge.now seat.now }
    ensures { (P : Policy) (S : Script) (w : ℕ) → Stands P S (reverse before.now) judge.now → IsSeat S (reverse before.now) w seat.now
        → result ≡ is_answering (deed_of_seat (reverse before.now) w) (outcome_of_seat (reverse before.now) w) }
{
    match seat.effect {
        Some(effect) => answers_call(
            &before[judge.done[effect].place].what,
            outcome(judge, before, effect),
        ),
        None => false,
    }
}

/// Whether an effect with this outcome is an answer.
fn answers_call(what: &What, outcome: Option<Result<u32, Errno>>) -> bool
    ensures { result ≡ is_answering what.now outcome }
{
    match what {
        What::AddfdPut { asked, .. } => asked.has_send_flag() && !cannot_put(outcome),
        _ => false,
    }
}

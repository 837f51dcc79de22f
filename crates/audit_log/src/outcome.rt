//! The outcome of a call.

ghost use Rattle.std.specs.Prelude.{◌≡◌};
ghost use Rattle.hist_model.specs.ReportCalls.{is_pending, outcome_at_entry, outcome_by, outcome_next, outcome_of_verdict};

use hist_model::event::{Back, Delivered, Entered, What};
use hist_model::report::Outcome;
use sys_abi::errno::Errno;

/// The greatest number of an error.
const MAX_ERRNO: u16 = 4095;

/// What the filters alone make of a call.
fn outcome_of_verdict(verdict: Entered) -> Outcome
    ensures { result ≡ outcome_of_verdict verdict }
{
    match verdict {
        Entered::Fails(number) => match Errno::of(number.min(MAX_ERRNO)) {
            Some(error) => Outcome::Failed(error),
            None => Outcome::Returned(0),
        },
        Entered::NoSys => Outcome::Failed(Errno::ENOSYS),
        Entered::Kill => Outcome::Ended,
        Entered::Notify { .. } | Entered::Allow | Entered::Log => Outcome::Open,
    }
}

/// What the step that enters a call makes of it.
pub(crate) fn outcome_at_entry(what: &What) -> Outcome
    ensures { result ≡ outcome_at_entry what.now }
{
    match what {
        What::Enter { verdict, .. } => outcome_of_verdict(*verdict),
        _ => Outcome::Open,
    }
}

/// What a later step of its task makes of a call of which nothing came yet.
fn outcome_by(what: &What) -> Outcome
    ensures { result ≡ outcome_by what.now }
{
    match what {
        What::Native { answer: Ok(number) } => Outcome::Returned(i64::from(*number)),
        What::Native { answer: Err(error) } => Outcome::Failed(*error),
        What::Resume { back } => outcome_of_back(*back),
        What::Deliver { effect, .. } => outcome_of_delivery(*effect),
        _ => Outcome::Open,
    }
}

/// What a return makes of a call: it runs natively where it is to continue.
fn outcome_of_back(back: Back) -> Outcome
    ensures { result ≡ outcome_by (What.Resume back) }
{
    match back {
        Back::Value(value) => Outcome::Returned(value),
        Back::Fail(error) => Outcome::Failed(error),
        Back::Continue => Outcome::Open,
    }
}

/// What the delivery of a signal makes of a call.
fn outcome_of_delivery(effect: Delivered) -> Outcome
    ensures { result ≡ outcome_by (What.Deliver 0 effect) }
{
    match effect {
        Delivered::End => Outcome::Ended,
        Delivered::Run => Outcome::Open,
        Delivered::Restart => Outcome::Restarted,
        Delivered::Eintr => Outcome::Failed(Errno::EINTR),
    }
}

/// The outcome of a call after one more step of its task: the first step with an outcome decides.
pub(crate) fn outcome_next(before: Outcome, what: &What) -> Outcome
    ensures { result ≡ outcome_next before what.now }
{
    match before {
        Outcome::Open => outcome_by(what),
        _ => before,
    }
}

/// Whether nothing came of a call yet.
pub(crate) fn is_pending(outcome: Outcome) -> bool
    ensures { result ≡ is_pending outcome }
{
    matches!(outcome, Outcome::Open)
}

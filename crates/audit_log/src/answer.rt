//! The answers by installations for requests with SEND.

ghost use Rattle.std.specs.Prelude.{◌≡◌};
ghost use Rattle.audit_log.specs.Places.{Rise};
ghost use Rattle.audit_log.specs.Records.{record_in};
ghost use Rattle.audit_log.specs.Requests.{answered_call, installs, pending_call, queue_in};

use crate::outcome::is_pending;
use crate::records::CallRecords;
use crate::requests::PendingRequests;
use hist_model::event::What;
use hist_model::report::Outcome;

/// The call at a place, if there is one, while nothing came of it.
pub(crate) fn pending_call(records: &CallRecords, call: Option<usize>) -> Option<usize>
    ensures { Rise records.now.places.items → result ≡ pending_call call (record_in records.now) }
{
    let place = call?;
    let outcome: Outcome = records.record_at(place).outcome;
    if is_pending(outcome) {
        Some(place)
    } else {
        None
    }
}

/// Whether a step installs a descriptor for its task.
pub(crate) fn installs(what: &What) -> bool
    ensures { result ≡ installs what.now }
{
    matches!(what, What::Install { .. })
}

/// The call that a step answers by an installation: which one it would be for, and the requests before it.
pub(crate) fn answered_call(
    requests: &PendingRequests,
    call: Option<usize>,
    what: &What,
) -> Option<usize>
    ensures { result ≡ answered_call what.now call (queue_in requests.now) }
{
    match what {
        What::Install { answer: Ok(_) } if requests.first_has_send(call) => call,
        _ => None,
    }
}

//! What a step tells of a call.

ghost use Rattle.std.specs.Prelude.{◌≡◌};
ghost use Rattle.hist_model.specs.ReportAudit.{number_given};

use hist_model::event::What;

/// The number that a step gave, where it may count; else the one before.
pub(crate) fn number_given(counts: bool, what: &What, before: Option<u32>) -> Option<u32>
    ensures { result ≡ number_given counts what.now before }
{
    match what {
        What::Install { answer: Ok(number) } if counts => Some(*number),
        _ => before,
    }
}

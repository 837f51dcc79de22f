//! Where the steps of a session stand in the history.

ghost use Rattle.std.specs.Prelude.{◌≡◌};
ghost use Rattle.hist_model.specs.Kinds.{is_sent};
ghost use Rattle.hist_model.specs.Look.{or_else};
ghost use Rattle.audit_log.specs.SessionStages.{is_done, place_if};

use crate::session_facts::{Facts, is_sent};
use hist_model::event::What;

/// The places of the steps that tell how far a session came.
#[derive(Clone, Copy, PartialEq, Eq, Debug)]
pub struct Stages {
    /// Of its second good check.
    pub valid: Option<usize>,
    /// Of its first effect that was done.
    pub effect: Option<usize>,
    /// Of its first answer that was taken.
    pub sent: Option<usize>,
}

/// Whether the step is an effect that was done.
fn is_done(what: &What) -> bool
    ensures { result ≡ is_done what.now }
{
    matches!(
        what,
        What::Act { answer: Ok(()), .. } | What::Plant { answer: Ok(()), .. }
    )
}

/// The place of one of these steps, where it is the first.
#[inline(always)]
fn keep_first(kept: &mut Option<usize>, test: bool, place: usize)
    ensures { kept.new ≡ or_else kept.old (place_if test place) }
{
    if test && kept.is_none() {
        *kept = Some(place);
    }
}

impl Stages {
    /// Of a session that has just begun.
    pub const NONE: Stages = Stages {
        valid: None,
        effect: None,
        sent: None,
    };

    /// One more step of the open session, which has this place, and with which it has these facts.
    pub(crate) fn note(&mut self, place: usize, facts: &Facts, what: &What)
        ensures valid { self.new.valid ≡ or_else self.old.valid (place_if facts.now.checked_twice place) }
        ensures effect { self.new.effect ≡ or_else self.old.effect (place_if (is_done what.now) place) }
        ensures sent { self.new.sent ≡ or_else self.old.sent (place_if (is_sent what.now) place) }
    {
        keep_first(&mut self.valid, facts.checked_twice, place);
        keep_first(&mut self.effect, is_done(what), place);
        keep_first(&mut self.sent, is_sent(what), place);
    }
}

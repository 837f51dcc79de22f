//! A law of sessions, for any list of events.

ghost use Rattle.audit_log.specs.Laws.{OpenIsOwn};

/// A session that isn't over is its worker's own: its steps are the worker's since its last good receive. So a worker has one open session at most.
#[tactic(auto, using(crate::proofs::Opened::open_is_own))]
pub fn open_sessions_are_own()
    ensures { OpenIsOwn }
{}

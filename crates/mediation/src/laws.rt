//! Laws of legal histories: the mediation law, of every policy and script, and facts of any system and any rules. Each is
//! the contract of a function that does nothing.

ghost use Rattle.std.specs.Prelude.{◌≡◌, ◌<◌, ◌^◌, ℕ, List, length, reverse};
ghost use Rattle.hist_model.specs.declared.event.Event.{Event};
ghost use Rattle.hist_model.specs.Look.{before};
ghost use Rattle.hist_model.specs.Systems.{System};
ghost use Rattle.hist_model.specs.Sessions.{Rules, session};
ghost use Rattle.hist_model.specs.Steps.{IsLegal};
ghost use Rattle.hist_model.specs.Settlers.{InstallsOwn, ResumesOwn, ReturnsInstalled};
ghost use Rattle.hist_model.specs.Orders.{InOrder};
ghost use Rattle.hist_model.specs.Legal.{Legal, played};
ghost use Rattle.hist_model.specs.ScriptRules.{IsScript};
ghost use Rattle.hist_model.specs.declared.policy.Policy.{Policy};
ghost use Rattle.hist_model.specs.declared.script.Script.{Script};
ghost use Rattle.hist_model.specs.Mediated.{Mediated, Each, NamesOwn, NeverBusy, ErrorsKnown, LostIfGone, HasCause, KeepsOrder, LetsGoAtEnd, ReceivesIdle};
ghost use Rattle.mediation.specs.Journals.{actors, IsLegalByPlace, FixedByJournal};
ghost use Rattle.mediation.specs.Facts.{HandlesOwn, SessionsSettle, StaysFinished, Frame};
ghost use Rattle.mediation.specs.Scheduled.{AllScheduled};

/// Every legal history is mediated: each notification is answered at most once; each reply or descriptor reaches the
/// waiting call that it was meant for, or nobody; each effect is what the policy grants on one copy of its call's arguments
/// found valid afterwards; each answer has its cause; and a passed call runs without the broker's rights.
#[tactic(auto, using(crate::proofs::Mediation::mediated))]
pub fn legal_is_mediated()
    ensures { (P : Policy) (S : Script) (K : List Event) → Legal P S K → Mediated P S K }
{}

/// The history that a schedule of tasks and workers plays is legal, and so mediated.
pub fn played_is_legal()
    ensures { (P : Policy) (S : Script) → AllScheduled S.schedule → length (played P S) < 2 ^ 64 → Legal P S (played P S) }
{}

/// What a script plays under a policy is mediated: the schedule that a script's type keeps plays a legal history.
pub fn played_is_mediated()
    ensures { (P : Policy) (S : Script) → IsScript S → Mediated P S (played P S) }
{}

/// Two legal histories with the same actors are one.
#[tactic(auto, using(crate::proofs::Journals::determined))]
pub fn fixed_by_actors()
    ensures { (S : System) (R : Rules) (K L : List Event) → IsLegal S R K → IsLegal S R L → actors K ≡ actors L → K ≡ L }
{}

/// Two legal histories of one policy and script with the same journal are one: what a report prints tells the whole history.
#[tactic(auto, using(crate::proofs::Journals::fixed_by_journal))]
pub fn fixed_by_journal()
    ensures { (P : Policy) (S : Script) → FixedByJournal P S }
{}

/// Legality reads the same by the places of a list that begins with the oldest event.
pub fn legal_by_place()
    ensures there { (S : System) (R : Rules) (H : List Event) → IsLegal S R (reverse H) → IsLegalByPlace S R H }
    ensures back { (S : System) (R : Rules) (H : List Event) (d : Event) → IsLegalByPlace S R H → IsLegal S R (reverse H) }
{}

/// What stands before a place of a legal history is legal.
#[tactic(auto, using(crate::proofs::Calls::legal_before))]
pub fn prefixes_are_legal()
    ensures { (S : System) (R : Rules) (K : List Event) (place : ℕ) → IsLegal S R K → IsLegal S R (before K place) }
{}

/// Each answer and each request that was accepted is for the call of its own session.
#[tactic(auto, using(crate::proofs::Replies::names_own))]
pub fn names_own()
    ensures { (S : System) (R : Rules) (K : List Event) → IsLegal S R K → length K < 2 ^ 64 → Each NamesOwn K }
{}

/// A worker is told that a call or its task is gone only where its session's call isn't listed.
#[tactic(auto, using(crate::proofs::Replies::lost_if_gone))]
pub fn lost_if_gone()
    ensures { (S : System) (R : Rules) (K : List Event) → IsLegal S R K → length K < 2 ^ 64 → Each LostIfGone K }
{}

/// No worker is answered EINPROGRESS or EBUSY.
#[tactic(auto, using(crate::proofs::Replies::never_busy))]
pub fn never_busy()
    ensures { (S : System) (R : Rules) (K : List Event) → IsLegal S R K → length K < 2 ^ 64 → Each NeverBusy K }
{}

/// Each session's steps stand in order: openings, a good check, reads, a good check, uses. This holds at the end, and at
/// each step of a worker, so of each session and not of each worker's last one alone.
#[tactic(auto, using(crate::proofs::Order::in_order, crate::proofs::Order::keeps_order))]
pub fn ordered()
    ensures last { (S : System) (R : Rules) (K : List Event) → IsLegal S R K → (w : ℕ) → InOrder (session K w) }
    ensures each { (S : System) (R : Rules) (K : List Event) → IsLegal S R K → Each KeepsOrder K }
{}

/// A worker lets go only right after it answered, took the number that its request got, or found the call or its task gone;
/// and it receives only where it has let go, or has had no session.
#[tactic(auto, using(crate::proofs::Causes::lets_go_at_end, crate::proofs::Causes::receives_idle))]
pub fn ends_for_reason()
    ensures lets_go { (S : System) (R : Rules) (K : List Event) → IsLegal S R K → length K < 2 ^ 64 → Each LetsGoAtEnd K }
    ensures receives_idle { (S : System) (R : Rules) (K : List Event) → IsLegal S R K → length K < 2 ^ 64 → Each ReceivesIdle K }
{}

/// Each answer stands after two good checks and a whole copy, and has its cause in the copy and the policy.
#[tactic(auto, using(crate::proofs::Causes::has_cause))]
pub fn has_cause()
    ensures { (S : System) (R : Rules) (K : List Event) → IsLegal S R K → length K < 2 ^ 64 → Each (HasCause R) K }
{}

/// Each installation is a step of a listed call's task, for a request of that call's session.
#[tactic(auto, using(crate::proofs::Replies::installs_own))]
pub fn installs_own()
    ensures { (S : System) (R : Rules) (K : List Event) → IsLegal S R K → length K < 2 ^ 64 → Each InstallsOwn K }
{}

/// Each return of a call gives what its session sent, or the number that was installed for its session's request.
#[tactic(auto, using(crate::proofs::Replies::resumes_own))]
pub fn resumes_own()
    ensures { (S : System) (R : Rules) (K : List Event) → IsLegal S R K → length K < 2 ^ 64 → Each ResumesOwn K }
{}

/// A worker's check and answer have no error but ENOENT, its request for a descriptor none but EBADF and ENOENT, and its
/// take none but EBADF, EMFILE and ENOENT.
#[tactic(auto, using(crate::proofs::Replies::errors_known))]
pub fn errors_known()
    ensures { (S : System) (R : Rules) (K : List Event) → IsLegal S R K → length K < 2 ^ 64 → Each ErrorsKnown K }
{}

/// Each return of a call for one of whose requests a number was installed gives this number.
#[tactic(auto, using(crate::proofs::Replies::returns_installed))]
pub fn returns_installed()
    ensures { (S : System) (R : Rules) (K : List Event) → IsLegal S R K → length K < 2 ^ 64 → Each ReturnsInstalled K }
{}

/// A legal history that continues a finished one, without the close of the listener, is finished.
#[tactic(auto, using(crate::proofs::Played::stays_finished))]
pub fn stays_finished()
    ensures { (S : System) (R : Rules) → StaysFinished S R }
{}

/// Which kinds of event can change which definitions: each other kind leaves them as they are.
#[tactic(auto, using(crate::proofs::Framed::frame))]
pub fn frame()
    ensures { (K : List Event) (e : Event) → Frame K e }
{}

/// While a session's call is listed, and once a check of it was good, what the session has opened is its call's task's.
pub fn handles_own()
    ensures { (S : System) (R : Rules) (K : List Event) → IsLegal S R K → length K < 2 ^ 64 → HandlesOwn K }
{}

/// A listed call whose session has ended is settled, and one whose session goes on waits, where it asked for no descriptor,
/// was refused one, or the installation of what it asked for failed.
#[tactic(auto, using(crate::proofs::Phases::sessions_settle))]
pub fn sessions_settle()
    ensures { (S : System) (R : Rules) (K : List Event) → IsLegal S R K → length K < 2 ^ 64 → SessionsSettle K }
{}

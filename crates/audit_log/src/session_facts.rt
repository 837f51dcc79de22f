//! What is told of a session by its own steps.

ghost use Rattle.std.specs.Prelude.{◌≡◌};
ghost use Rattle.hist_model.specs.Kinds.{is_good_check, is_letgo, starts, is_gone, misses_call, is_sent, is_spent};
ghost use Rattle.hist_model.specs.ReportAudit.{back_in, or_back};
ghost use Rattle.audit_log.specs.SessionFacts.{checked_by, facts_with, gone_by, lost_by, spent_by};

use hist_model::event::{Back, What};
use sys_abi::errno::Errno;

/// What is kept of a session while its steps are gone through.
#[derive(Clone, Copy, PartialEq, Eq, Debug)]
pub struct Facts {
    /// Its worker let go, or received again.
    pub shut: bool,
    /// Its caller, or its call, was found gone.
    pub gone: bool,
    /// A check found its notification valid.
    pub checked: bool,
    /// So did another.
    pub checked_twice: bool,
    /// Its effect was refused since the rule's times were spent.
    pub spent: bool,
    /// An answer was taken.
    pub sent: bool,
    /// An answer or a descriptor found no listed call.
    pub lost: bool,
}

/// Whether the step lets go of what was opened for a notification.
pub fn is_letgo(what: &What) -> bool
    ensures { result ≡ is_letgo what.now }
{
    matches!(what, What::LetGo)
}

/// Whether the step begins a session.
pub fn starts(what: &What) -> bool
    ensures { result ≡ starts what.now }
{
    matches!(what, What::Recv { answer: Ok(_) })
}

/// Whether the step shows that the caller, or its call, is gone.
fn is_gone(what: &What) -> bool
    ensures { result ≡ is_gone what.now }
{
    match what {
        What::OpenMem {
            answer: Err(error),
            ..
        }
        | What::OpenBase {
            answer: Err(error),
            ..
        } => { *error == Errno::ESRCH }
        What::Check {
            answer: Err(error),
            ..
        } => *error == Errno::ENOENT,
        _ => false,
    }
}

/// Whether the step found the notification valid.
fn is_good_check(what: &What) -> bool
    ensures { result ≡ is_good_check what.now }
{
    matches!(what, What::Check { answer: Ok(()), .. })
}

/// Whether the step was refused since its rule's times were spent.
fn is_spent(what: &What) -> bool
    ensures { result ≡ is_spent what.now }
{
    match what {
        What::Act {
            answer: Err(error),
            ..
        }
        | What::Plant {
            answer: Err(error),
            ..
        } => { *error == Errno::EDQUOT }
        _ => false,
    }
}

/// Whether the step reached no listed call.
fn misses_call(what: &What) -> bool
    ensures { result ≡ misses_call what.now }
{
    match what {
        What::AddfdPut {
            answer: Err(error),
            ..
        }
        | What::AddfdTake { answer: Err(error) }
        | What::Send {
            answer: Err(error),
            ..
        } => *error == Errno::ENOENT,
        _ => false,
    }
}

/// Whether the step sent an answer that was taken.
pub fn is_sent(what: &What) -> bool
    ensures { result ≡ is_sent what.now }
{
    matches!(what, What::Send { answer: Ok(()), .. })
}

/// One more step, where `kept` is what was sent last.
#[inline(always)]
pub(crate) fn note_back(kept: &mut Option<Back>, what: &What)
    ensures { kept.new ≡ or_back (back_in what.now) kept.old }
{
    if let What::Send { back, .. } = what {
        *kept = Some(*back);
    }
}

impl Facts {
    /// Of a session that has just begun.
    pub const BEGUN: Facts = Facts {
        shut: false,
        gone: false,
        checked: false,
        checked_twice: false,
        spent: false,
        sent: false,
        lost: false,
    };

    /// One more step, where the session isn't shut. By its kind, as each kind tells of few of the facts.
    pub(crate) fn note(&mut self, what: &What)
        ensures { self.new ≡ facts_with self.old what.now }
    {
        self.shut = false;
        match what {
            What::Recv { .. } => self.shut = starts(what),
            What::LetGo => self.shut = true,
            What::OpenMem { .. } => self.note_gone(what),
            What::OpenBase { .. } => self.note_gone(what),
            What::Check { .. } => self.note_check(what),
            What::Act { .. } => self.note_spent(what),
            What::Plant { .. } => self.note_spent(what),
            What::AddfdPut { .. } => self.note_lost(what),
            What::AddfdTake { .. } => self.note_lost(what),
            What::Send { .. } => {
                self.sent = is_sent(what) | self.sent;
                self.note_lost(what)
            }
            _ => (),
        }
    }

    /// A step that may find the caller, or its call, gone.
    #[inline(always)]
    fn note_gone(&mut self, what: &What)
        ensures { self.new ≡ gone_by self.old what.now }
    {
        self.gone = is_gone(what) | self.gone;
    }

    /// A step that asks whether the notification is valid.
    #[inline(always)]
    fn note_check(&mut self, what: &What)
        ensures { self.new ≡ checked_by self.old what.now }
    {
        let good = is_good_check(what);
        self.checked_twice = (good & self.checked) | self.checked_twice;
        self.checked = good | self.checked;
        self.note_gone(what)
    }

    /// A step that may be refused since the rule's times were spent.
    #[inline(always)]
    fn note_spent(&mut self, what: &What)
        ensures { self.new ≡ spent_by self.old what.now }
    {
        self.spent = is_spent(what) | self.spent;
    }

    /// A step that may find no listed call.
    #[inline(always)]
    fn note_lost(&mut self, what: &What)
        ensures { self.new ≡ lost_by self.old what.now }
    {
        self.lost = misses_call(what) | self.lost;
    }
}

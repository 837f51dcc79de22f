//! What a worker remembers of the notification that it works on, and the deed that is due then.

ghost use Rattle.std.specs.Prelude.{◌≡◌, [], None};
ghost use Rattle.std.specs.Option.{option_copied};
ghost use Rattle.hist_model.specs.Deeds as definition;
ghost use Rattle.hist_model.specs.Legal.{cloexec_of};
ghost use Rattle.hist_model.specs.Sessions.{after_act, inject_deed, addfd_of, back_of_outcome};
ghost use Rattle.hist_model.specs.declared.request.Request.{Request};
ghost use Rattle.hist_model.specs.declared.script.Figures.{Figures};
ghost use Rattle.broker_core.specs.Answers.{shown};
ghost use Rattle.broker_core.specs.Deeds.{own_request, grant_deed, verdict_deed, stage_deed, session_deed};
ghost use Rattle.broker_core.specs.Taking.{Begins, confirmed_request};

use crate::deed::Deed;
use crate::judgement::Judgement;
use arg_capture::Capture;
use emu_request::base_dirfd;
use hist_model::boxed::Boxed;
use hist_model::event::Back;
use hist_model::policy::Verdict;
use hist_model::request::Request;
use sys_abi::errno::Errno;
use sys_abi::wire::{Addfd, Notif, O_CLOEXEC, SECCOMP_ADDFD_FLAG_SEND, SECCOMP_ADDFD_FLAG_SETFD};

/// How far a session has come with its checks and with the arguments of its call.
#[derive(Drop)]
pub enum Stage {
    /// No check was good yet.
    Unchecked,
    /// The first check was good, and the arguments are read.
    Reading,
    /// The arguments were read and judged, or had a fault. The second check is due.
    Judged(Result<Judgement, Errno>),
    /// The second check was good.
    Confirmed(Result<Judgement, Errno>),
}

/// An open session.
#[derive(Drop)]
pub struct Session {
    pub(crate) notif: Notif,
    /// The worker lets go next.
    pub(crate) gave_up: bool,
    /// The memory was opened.
    pub(crate) opened: bool,
    /// The base was opened, or there was none to open.
    pub(crate) based: bool,
    pub(crate) stage: Stage,
    /// The request was made the one that the deciding rule grants.
    pub(crate) granted: bool,
    /// Another of the granted request, which the event of the act keeps.
    pub(crate) effect: Option<Boxed<Request>>,
    /// The outcome of the effect.
    pub(crate) outcome: Option<Result<(), Errno>>,
    /// What came of the request for a descriptor, and of taking its number.
    pub(crate) put: Option<Result<(), Errno>>,
    pub(crate) take: Option<Result<u32, Errno>>,
}

/// What is sent after an effect.
fn back_of_outcome(outcome: Result<(), Errno>) -> Back
    ensures { result ≡ back_of_outcome outcome }
{
    match outcome {
        Ok(()) => Back::Value(0),
        Err(error) => Back::Fail(error),
    }
}

/// The descriptor flags of an open: O_CLOEXEC as its caller set it.
fn cloexec_of(request: &Request) -> u32
    ensures { result ≡ cloexec_of request.now }
{
    match request {
        Request::OpenAt { flags, .. } => *flags & O_CLOEXEC,
        _ => 0,
    }
}

/// The request of an injection: with SEND, and with SETFD where a number is asked for.
fn injection(id: u64, src: u32, at: Option<u32>, newfd_flags: u32) -> Addfd
    ensures { result ≡ addfd_of id src at newfd_flags }
{
    match at {
        None => Addfd {
            id,
            flags: SECCOMP_ADDFD_FLAG_SEND,
            srcfd: src,
            newfd: 0,
            newfd_flags,
        },
        Some(newfd) => Addfd {
            id,
            flags: SECCOMP_ADDFD_FLAG_SEND | SECCOMP_ADDFD_FLAG_SETFD,
            srcfd: src,
            newfd,
            newfd_flags,
        },
    }
}

impl Session {
    /// The start of a session.
    pub(crate) fn begun(notif: &Notif) -> Session
        ensures { Begins notif.now result }
    {
        Session {
            notif: *notif,
            gave_up: false,
            opened: false,
            based: false,
            stage: Stage::Unchecked,
            granted: false,
            effect: None,
            outcome: None,
            put: None,
            take: None,
        }
    }

    /// The steps of an injection: put, take, and an answer where one of them failed.
    fn inject(&self, asked: Addfd) -> Deed
        ensures { result ≡ shown (inject_deed self.now.notif.id asked self.now.put self.now.take) }
    {
        let id = self.notif.id;
        match (self.put, self.take) {
            (None, _) => Deed::AddfdPut(asked),
            (Some(Err(error)), _) => Deed::Send {
                id,
                back: Back::Fail(error),
            },
            (Some(Ok(())), None) => Deed::AddfdTake,
            (Some(Ok(())), Some(_)) => Deed::Send {
                id,
                back: Back::Fail(Errno::EMFILE),
            },
        }
    }

    /// The effect, or once it was tried its outcome is sent.
    fn effect_or_outcome(&self, effect: Deed) -> Deed
        ensures { (d : definition.Deed) → effect ≡ shown d → result ≡ shown (after_act self.now.notif.id self.now.outcome d) }
    {
        match self.outcome {
            None => effect,
            Some(outcome) => Deed::Send {
                id: self.notif.id,
                back: back_of_outcome(outcome),
            },
        }
    }

    /// The deed that a grant leads to: sysinfo's answer is written, and every other request is done in the tree.
    fn granted_deed(&self, judgement: &Judgement) -> Deed
        ensures { (F : Figures) (q : Request) → result ≡ shown (grant_deed F self.now judgement.now.cap q judgement.now.request) }
    {
        let cap = judgement.cap;
        match judgement.request {
            Request::Sysinfo { addr } => self.effect_or_outcome(Deed::Plant { addr, cap }),
            _ => self.effect_or_outcome(Deed::Act { cap }),
        }
    }

    /// The deed that a judgement leads to.
    fn judged_deed(&self, judgement: &Judgement) -> Deed
        ensures { (F : Figures) → result ≡ shown (verdict_deed own_request F self.now judgement.now judgement.now.verdict) }
    {
        let id = self.notif.id;
        match judgement.verdict {
            Verdict::Grant => self.granted_deed(judgement),
            Verdict::Deny(error) => Deed::Send {
                id,
                back: Back::Fail(error),
            },
            Verdict::Pass => Deed::Send {
                id,
                back: Back::Continue,
            },
            Verdict::Inject { src, at } => {
                self.inject(injection(id, src, at, cloexec_of(&judgement.request)))
            }
        }
    }

    /// The deed after the openings.
    fn checked_deed(&self, capture: &Capture) -> Deed
        ensures { (F : Figures) → result ≡ shown (stage_deed own_request F capture.now self.now self.now.stage) }
    {
        let id = self.notif.id;
        match &self.stage {
            Stage::Unchecked | Stage::Judged(_) => Deed::Check { id },
            Stage::Reading => match capture.next() {
                Some((addr, len)) => Deed::Read { addr, len },
                None => Deed::Check { id },
            },
            Stage::Confirmed(Ok(judgement)) => self.judged_deed(judgement),
            Stage::Confirmed(Err(error)) => Deed::Send {
                id,
                back: Back::Fail(*error),
            },
        }
    }

    /// The next deed.
    pub(crate) fn next(&self, capture: &Capture) -> Deed
        ensures { (F : Figures) → result ≡ shown (session_deed own_request F capture.now self.now) }
    {
        let pid = self.notif.pid;
        if self.gave_up {
            return Deed::LetGo;
        }
        if !self.opened {
            return Deed::OpenMem { pid };
        }
        match base_dirfd(self.notif.call.nr, &self.notif.call.args) {
            Some(dirfd) if !self.based => Deed::OpenBase { pid, dirfd },
            _ => self.checked_deed(capture),
        }
    }

    /// The request that is worked on, from the second good check on, where the copy had no fault.
    pub(crate) fn request(&self) -> Option<&Request>
        ensures { option_copied result ≡ confirmed_request self.now.stage }
    {
        match &self.stage {
            Stage::Confirmed(Ok(judgement)) => Some(&judgement.request),
            _ => None,
        }
    }
}

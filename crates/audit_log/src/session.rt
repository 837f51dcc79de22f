//! What is kept of a session.

ghost use Rattle.std.specs.Prelude.{◌≡◌, [], false, List, ℕ, Result, OnOk, if◌then◌else◌};
ghost use Rattle.hist_model.specs.Copies.{plan, progress};
ghost use Rattle.hist_model.specs.ReportAudit.{finding_of, finding_of_verdict, judged_by, judging_by};
ghost use Rattle.hist_model.specs.declared.report.Finding.TheVariants.{Open};
ghost use Rattle.arg_capture.specs.Captures.{Follows};
ghost use Rattle.audit_log.specs.Begun.{Begun, IsRead, finding_in, spent, told, with_step};

use crate::session_facts::{Facts, note_back};
use crate::session_judgement::{hear, judged};
use crate::session_stages::Stages;
use arg_capture::Capture;
use hist_model::event::{Back, What};
use hist_model::policy::{Policy, Verdict};
use hist_model::report::{Finding, Judged};
use sys_abi::memory::NoMemory;
use sys_abi::wire::Notif;

/// What is kept of a session.
#[derive(Clone, Copy, PartialEq, Eq, Debug)]
pub struct SessionRecord {
    /// The place of the event that begins it.
    pub place: usize,
    /// The number of its worker.
    pub worker: u8,
    /// The id of the notification that it received.
    pub id: u64,
    /// The number of the call that waits for its answer.
    pub nr: i32,
    /// What its steps tell.
    pub facts: Facts,
    /// What was sent last.
    pub back: Option<Back>,
    /// What the policy makes of it once its second check was good; open before.
    pub found: Finding,
    /// Where its steps stand.
    pub stages: Stages,
}

/// What a session came to, by the rule at a place and its verdict.
fn finding_of_verdict(rule: usize, verdict: Verdict) -> Finding
    ensures { result ≡ finding_of_verdict rule verdict }
{
    match verdict {
        Verdict::Grant => Finding::Granted(rule),
        Verdict::Deny(_) => Finding::Denied(rule),
        Verdict::Pass => Finding::Passed(rule),
        Verdict::Inject { .. } => Finding::Injected(rule),
    }
}

/// What a judged session came to.
fn finding_of(judged: Judged) -> Finding
    ensures { result ≡ finding_of judged false }
{
    match judged {
        Judged::Unfinished => Finding::Open,
        Judged::Faulty(_) => Finding::Fault,
        Judged::Decided(rule, verdict) => finding_of_verdict(rule, verdict),
    }
}

/// What a session came to whose effect was refused since the rule's times were spent.
fn spent(found: Finding) -> Finding
    ensures { result ≡ spent found }
{
    match found {
        Finding::Granted(rule)
        | Finding::Denied(rule)
        | Finding::Passed(rule)
        | Finding::Injected(rule) => Finding::Spent(rule),
        _ => found,
    }
}

/// What a session came to by what was read for its notification, where it is to be judged.
fn found_where(due: bool, policy: &Policy, notif: &Notif, capture: &mut Capture) -> Finding
    ensures found { (answers : List (Result (List ℕ) ℕ)) → Follows (plan notif.now.call.nr notif.now.call.args) answers capture.old → result ≡ (if due then finding_of (judged_by policy.now.rules notif.now (progress (plan notif.now.call.nr notif.now.call.args) answers)) false else Open) }
    ensures kept { due ≡ false → capture.new ≡ capture.old }
{
    if due {
        finding_of(judged(policy, notif, capture))
    } else {
        Finding::Open
    }
}

impl SessionRecord {
    /// One more step of its worker, which has this place, and which the capture of its reads takes too. The notification is the one that it received.
    pub(crate) fn step(
        &mut self,
        policy: &Policy,
        place: usize,
        notif: &Notif,
        capture: &mut Capture,
        what: &What,
    ) -> Result<(), NoMemory>
        ensures { OnOk result ((s : Begun) → self.old ≡ told (judging_by policy.now.rules) s → IsRead s notif.now capture.old → (self.new ≡ told (judging_by policy.now.rules) (with_step place what.now s)) × IsRead (with_step place what.now s) notif.now capture.new) }
    {
        if self.facts.shut {
            return Ok(());
        }
        let judged = self.facts.checked_twice;
        self.facts.note(what);
        self.stages.note(place, &self.facts, what);
        note_back(&mut self.back, what);
        if judged {
            return Ok(());
        }
        hear(capture, what)?;
        let found = found_where(self.facts.checked_twice, policy, notif, capture);
        self.found = found;
        Ok(())
    }

    /// What the session came to.
    pub fn finding(&self) -> Finding
        ensures { result ≡ finding_in self.now }
    {
        if self.facts.gone {
            Finding::Gone
        } else if self.facts.spent {
            spent(self.found)
        } else {
            self.found
        }
    }
}

//! What is read in a session, and what the policy makes of it.

ghost use Rattle.std.specs.Prelude.{◌≡◌, ◌++◌, [], ℕ, List, Result, OnOk, if◌then◌else◌};
ghost use Rattle.hist_model.specs.Copies.{fits_piece, heard, plan, progress, with_heard};
ghost use Rattle.hist_model.specs.ReportAudit.{judged_by, read_in};
ghost use Rattle.hist_model.specs.declared.copy.Part.{Part};
ghost use Rattle.arg_capture.specs.Captures.{Follows};

use arg_capture::{Capture, Fault};
use broker_core::judgement::judge;
use hist_model::event::What;
use hist_model::policy::Policy;
use hist_model::report::Judged;
use hist_model::text::Text;
use sys_abi::errno::Errno;
use sys_abi::memory::NoMemory;
use sys_abi::wire::Notif;

/// Whether it answers the piece: some bytes, at most as many as were asked for, or EFAULT.
fn fits_piece(piece: Option<(u64, u16)>, answer: &Result<Text, Errno>) -> bool
    ensures { result ≡ fits_piece piece answer.now }
{
    match (piece, answer) {
        (Some((_, asked)), Ok(bytes)) => {
            let len = bytes.items().len();
            1 <= len && len <= usize::from(asked)
        }
        (Some(_), Err(error)) => *error == Errno::EFAULT,
        (None, _) => false,
    }
}

/// Takes the answer of a read, where it answers the piece that is wanted.
#[tactic(auto, using(arg_capture::proofs::Answering::fit_answers))]
fn take(capture: &mut Capture, answer: &Result<Text, Errno>) -> Result<(), NoMemory>
    ensures { (parts : List Part) (answers : List (Result (List ℕ) ℕ)) → Follows parts answers capture.old → OnOk result (Follows parts (with_heard parts answers answer.now) capture.new) }
{
    if !fits_piece(capture.next(), answer) {
        return Ok(());
    }
    match answer {
        Ok(bytes) => capture.feed(Ok(bytes.items())),
        Err(_) => capture.feed(Err(Fault)),
    }
}

/// Takes what one more step of the session tells.
pub(crate) fn hear(capture: &mut Capture, what: &What) -> Result<(), NoMemory>
    ensures { (parts : List Part) (answers : List (Result (List ℕ) ℕ)) → Follows parts (heard parts [] answers) capture.old → OnOk result (Follows parts (heard parts [] (answers ++ read_in what.now)) capture.new) }
{
    match what {
        What::Read { answer, .. } => take(capture, answer),
        _ => Ok(()),
    }
}

/// What the policy makes of what was read for a notification.
pub(crate) fn judged(policy: &Policy, notif: &Notif, capture: &mut Capture) -> Judged
    ensures { (answers : List (Result (List ℕ) ℕ)) → Follows (plan notif.now.call.nr notif.now.call.args) answers capture.old → result ≡ judged_by policy.now.rules notif.now (progress (plan notif.now.call.nr notif.now.call.args) answers) }
{
    if capture.next().is_some() {
        return Judged::Unfinished;
    }
    match capture.take_copy() {
        Ok(copy) => {
            let found = judge(policy, notif.call.nr, &notif.call.args, copy);
            Judged::Decided(found.rule, found.verdict)
        }
        Err(error) => Judged::Faulty(error),
    }
}

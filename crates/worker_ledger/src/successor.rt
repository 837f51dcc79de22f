//! A worker that goes on where another one stopped.

ghost use Rattle.std.specs.Prelude.{◌≡◌, ℕ, List, IfOk, IfErr, OnOk, OnErr, true};
ghost use Rattle.std.specs.Option.{option_map};
ghost use Rattle.hist_model.specs.Legal.{rules_of};
ghost use Rattle.hist_model.specs.declared.event.What.{What};
ghost use Rattle.broker_core.specs.Answers.{Answer, is_let_go, told};
ghost use Rattle.broker_core.specs.Remembered.{Remembers};
ghost use Rattle.worker_ledger.specs.Heard.{all_heard};
ghost use Rattle.worker_ledger.specs.Successors.{Comes, Found, IsLedger, IsResumed, Replays, ReplaysOne, ResumesIf, TakesLast, caught, is_answer_to, is_done_or_failed, is_piece, may_stand, resumed};

use crate::heard::Heard;
use crate::ledger::Ledger;
use broker_core::deed::{Deed, Got};
use broker_core::worker::Worker;
use hist_model::policy::Policy;
use hist_model::script::Figures;
use std::alloc::Global;
use sys_abi::errno::Errno;
use sys_abi::memory::{NoMemory, OrNoMemory};
use thiserror::Error;

/// Why a ledger is refused.
#[derive(Clone, Copy, PartialEq, Eq, Debug, Drop, Error)]
pub enum LedgerError {
    /// The bytes aren't the text of a ledger of this worker whose answers fit the deeds that they answer.
    #[error("no ledger of this worker")]
    NotLedger,
    /// The worker has taken other than as many answers as its ledger says, and other than one more.
    #[error("the ledger says {ledger} answers, and the kernel {kernel}")]
    Stale { ledger: u64, kernel: u64 },
    /// The last answer isn't one to the deed that is due after the ledger's answers.
    #[error("the last answer doesn't fit the ledger")]
    Unfit,
}

/// A worker that took over, and its ledger.
#[derive(Drop)]
pub struct Successor {
    pub worker: Worker,
    pub ledger: Ledger,
}

/// The deed was done, or failed.
fn is_done_or_failed(got: &Got<'_>) -> bool
    ensures { result ≡ is_done_or_failed (told got.now) }
{
    matches!(got, Got::Ok | Got::Fault(_))
}

/// A piece of at most so many bytes was read, or couldn't be.
fn is_piece(len: u16, got: &Got<'_>) -> bool
    ensures { result ≡ is_piece len (told got.now) }
{
    match got {
        Got::Bytes(bytes) => 1 <= bytes.len() && bytes.len() <= usize::from(len),
        Got::Fault(error) => *error == Errno::EFAULT,
        _ => false,
    }
}

/// Whether the deed ends a session.
fn is_let_go(deed: &Deed) -> bool
    ensures { result ≡ is_let_go deed.now }
{
    matches!(deed, Deed::LetGo)
}

/// Whether the answer to a deed may stand in a ledger.
fn may_stand(deed: &Deed, got: &Got<'_>) -> bool
    ensures { result ≡ may_stand deed.now (told got.now) }
{
    match deed {
        Deed::Recv => matches!(got, Got::Notif(_)),
        Deed::LetGo => false,
        Deed::Read { len, .. } => is_piece(*len, got),
        Deed::AddfdTake => matches!(got, Got::Number(_) | Got::Fault(_)),
        _ => is_done_or_failed(got),
    }
}

/// Whether the answer is one to this deed.
fn is_answer_to(deed: &Deed, got: &Got<'_>) -> bool
    ensures { result ≡ is_answer_to deed.now (told got.now) }
{
    match (deed, got) {
        (Deed::Recv, Got::Fault(error)) => *error == Errno::ENOENT,
        (Deed::LetGo, Got::Ok) => true,
        _ => may_stand(deed, got),
    }
}

/// The worker takes an answer, if it may stand in a ledger; says whether it does.
#[tactic(auto, using(crate::proofs::Fitting::stands_fits))]
fn replay_one(policy: &Policy, worker: &mut Worker, got: &Got<'_>) -> Result<bool, NoMemory>
    ensures replays { (own : List What) → Remembers policy.now own worker.old → IfOk result (λ stood. ReplaysOne policy.now worker.old.figures own (told got.now) stood worker.new) }
    ensures figures { worker.new.figures ≡ worker.old.figures }
{
    worker.ready(policy)?;
    let deed = worker.next();
    if !may_stand(&deed, got) {
        return Ok(false);
    }
    worker.took(&deed, got);
    Ok(true)
}

/// The worker takes the answers of a ledger, as far as they may stand there; says whether they all do.
fn replay(policy: &Policy, worker: &mut Worker, answers: &[Heard]) -> Result<bool, NoMemory>
    ensures replays { (own : List What) → Remembers policy.now own worker.old → IfOk result (λ stood. Replays policy.now worker.old.figures own (all_heard answers.now) stood worker.new) }
    ensures figures { worker.new.figures ≡ worker.old.figures }
{
    let mut left = answers;
    while let Some((heard, rest)) = left.split_first() {
        if !replay_one(policy, worker, &heard.got())? {
            return Ok(false);
        }
        left = rest;
    }
    Ok(true)
}

/// A worker that has taken the answers of a ledger, and the ledger; none where an answer may not stand there.
fn resume(
    alloc: Global,
    policy: &Policy,
    figures: Figures,
    ledger: Ledger,
) -> Result<Option<Successor>, NoMemory>
    ensures { IfOk result (λ o. ResumesIf policy.now figures ledger o) }
{
    let mut worker = Worker::new(alloc, figures);
    if replay(policy, &mut worker, ledger.answers())? {
        Ok(Some(Successor { worker, ledger }))
    } else {
        Ok(None)
    }
}

impl Successor {
    /// Takes the last answer, which the ledger hasn't, if it is one to the deed that is due; says whether it is.
    #[tactic(auto, using(crate::proofs::Fitting::answer_fits))]
    fn take_last(&mut self, alloc: Global, policy: &Policy, got: &Got<'_>) -> Result<bool, NoMemory>
        ensures { (own : List What) → Remembers policy.now own self.old.worker → IfOk result (λ fits. TakesLast policy.now self.old own (told got.now) fits self.new) }
    {
        self.worker.ready(policy)?;
        let deed = self.worker.next();
        if !is_answer_to(&deed, got) {
            return Ok(false);
        }
        self.worker.took(&deed, got);
        self.ledger.note(alloc, is_let_go(&deed), got)?;
        Ok(true)
    }

    /// Has all the answers that the worker took, of which this one was the last: as it is, or with the last one.
    fn caught_up(
        mut self,
        alloc: Global,
        policy: &Policy,
        taken: u64,
        last: Option<&Got<'_>>,
    ) -> Result<Successor, OrNoMemory<LedgerError>>
        ensures { (own : List What) → Remembers policy.now own self.worker → Comes policy.now self.worker.figures self.ledger.no taken (caught (rules_of policy.now self.worker.figures) taken (option_map (λ g. told g.now) last.entry) self.ledger.count own (all_heard self.ledger.own.items)) result }
    {
        let count = self.ledger.count();
        if count == taken {
            return Ok(self);
        }
        if count > taken || taken - count > 1 {
            return Err(OrNoMemory::Refused(LedgerError::Stale {
                ledger: count,
                kernel: taken,
            }));
        }
        let Some(got) = last else {
            return Err(OrNoMemory::Refused(LedgerError::Unfit));
        };
        if self.take_last(alloc, policy, got)? {
            Ok(self)
        } else {
            Err(OrNoMemory::Refused(LedgerError::Unfit))
        }
    }
}

/// A worker that has taken the answers of the ledger that these bytes are the text of, and the ledger; none where they are no
/// ledger of this worker.
fn resume_text(
    alloc: Global,
    bytes: &[u8],
    policy: &Policy,
    figures: Figures,
    no: u8,
) -> Result<Option<Successor>, NoMemory>
    ensures { IfOk result (λ o. IsResumed policy.now figures no bytes.now o) }
{
    match Ledger::read(alloc, bytes, no)? {
        Some(ledger) => resume(alloc, policy, figures, ledger),
        None => Ok(None),
    }
}

/// The worker of this number that goes on from its ledger, where the kernel tells that it has taken so many answers, and which
/// one was the last. The ledger has all of them, or all but the last.
///
/// It is refused, in this order: as `NotLedger` exactly where the bytes aren't the text of a ledger of this worker whose
/// answers fit the deeds that they answer; as `Stale` exactly where the ledger has neither all answers nor all but one; as
/// `Unfit` exactly where the ledger lacks the last answer, and that isn't given, or isn't one to the deed that is due.
pub fn take_over(
    alloc: Global,
    bytes: &[u8],
    policy: &Policy,
    figures: Figures,
    no: u8,
    taken: u64,
    last: Option<&Got<'_>>,
) -> Result<Successor, OrNoMemory<LedgerError>>
    ensures comes { (count : ℕ) (own : List Answer) → IsLedger (rules_of policy.now figures) no bytes.now count own → Comes policy.now figures no taken (resumed (rules_of policy.now figures) taken (option_map (λ g. told g.now) last.entry) count own) result }
    ensures found { Found (rules_of policy.now figures) no bytes.now result }
{
    match resume_text(alloc, bytes, policy, figures, no)? {
        Some(successor) => successor.caught_up(alloc, policy, taken, last),
        None => Err(OrNoMemory::Refused(LedgerError::NotLedger)),
    }
}

/// Who takes over where a worker stopped, by the rule of `take_over`.
pub trait Heir {
    ghost use Rattle.std.specs.Prelude.{ℕ, List};
    ghost use Rattle.std.specs.Option.{option_map};
    ghost use Rattle.hist_model.specs.Legal.{rules_of};
    ghost use Rattle.broker_core.specs.Answers.{Answer, told};
    ghost use Rattle.worker_ledger.specs.Successors.{Comes, Found, IsLedger, resumed};

    /// The worker of this number that goes on from its ledger.
    fn take_over(
        &mut self,
        alloc: Global,
        bytes: &[u8],
        policy: &Policy,
        figures: Figures,
        no: u8,
        taken: u64,
        last: Option<&Got<'_>>,
    ) -> Result<Successor, OrNoMemory<LedgerError>>
        ensures comes { (count : ℕ) (own : List Answer) → IsLedger (rules_of policy.now figures) no bytes.now count own → Comes policy.now figures no taken (resumed (rules_of policy.now figures) taken (option_map (λ g. told g.now) last.entry) count own) result }
        ensures found { Found (rules_of policy.now figures) no bytes.now result };
}

/// Takes over by `take_over`.
#[derive(Clone, Copy, Debug, Drop)]
pub struct Heirs;

impl Heir for Heirs {
    fn take_over(
        &mut self,
        alloc: Global,
        bytes: &[u8],
        policy: &Policy,
        figures: Figures,
        no: u8,
        taken: u64,
        last: Option<&Got<'_>>,
    ) -> Result<Successor, OrNoMemory<LedgerError>> {
        take_over(alloc, bytes, policy, figures, no, taken, last)
    }
}

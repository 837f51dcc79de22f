//! How a session gets ready for an answer, and takes it.

ghost use Rattle.std.specs.Prelude.{◌≡◌, ◌∷◌, ◌++◌, [], ℕ, List, Result, OnOk, OnErr, Ok, Some, None, true, false};
ghost use Rattle.hist_model.specs.Decisions.{granted_by};
ghost use Rattle.hist_model.specs.declared.copy.Part.{Part};
ghost use Rattle.hist_model.specs.declared.event.What.{What};
ghost use Rattle.hist_model.specs.declared.request.Request.{Request};
ghost use Rattle.hist_model.specs.declared.policy.Rule.{Rule};
ghost use Rattle.arg_capture.specs.Captures.{Captured, continued, wanted, Follows};
ghost use Rattle.broker_core.specs.Answers.{deed_of, step_of, told};
ghost use Rattle.broker_core.specs.Judged.{judgement_as};
ghost use Rattle.broker_core.specs.Remembered.{IsFound, IsReadyAt, IsReadyToAct, Knows};
ghost use Rattle.broker_core.specs.Taking.{Advances, CanFeed, CanTake, confirmed, heard, is_reading};
ghost use Rattle.broker_core.specs.declared.session.Stage.TheVariants.{Reading};

use crate::deed::{Deed, Got};
use crate::judgement::{Judgement, judge};
use crate::session::{Session, Stage};
use arg_capture::{Capture, Fault};
use hist_model::boxed::Boxed;
use hist_model::policy::{Policy, Verdict};
use hist_model::request::Request;
use policy_eval::grant;
use std::alloc::Global;
use std::mem;
use sys_abi::errno::Errno;
use sys_abi::memory::NoMemory;
use sys_abi::wire::Notif;

/// What the policy makes of a copy that is complete, or the fault of the copy.
#[tactic(auto, using(crate::proofs::Judging::found_copy, crate::proofs::Judging::found_fault))]
fn found(policy: &Policy, notif: &Notif, capture: &mut Capture) -> Result<Judgement, Errno>
    requires { wanted (continued capture.old []) ≡ None }
    ensures { IsFound policy.now.rules false notif.now (continued capture.old []) result }
{
    match capture.take_copy() {
        Ok(copy) => Ok(judge(policy, notif.call.nr, &notif.call.args, copy)),
        Err(error) => Err(error),
    }
}

/// Makes the request of a judgement the one that its rule grants.
fn grant_request(alloc: Global, policy: &Policy, judgement: &mut Judgement) -> Result<(), NoMemory>
    ensures granted { OnOk result (judgement.new ≡ record judgement.old { request = granted_by policy.now.rules judgement.old.rule judgement.old.request }) }
    ensures kept { OnErr result (judgement.new ≡ judgement.old) }
{
    if judgement.rule < policy.rules.items().len() {
        grant(alloc, policy, judgement.rule, &mut judgement.request)?;
    }
    Ok(())
}

/// Makes the request of a judgement the granted one, unless it is, and another of it for the event.
#[tactic(auto, using(crate::proofs::Judging::granted_judgement))]
fn prepare_effect(
    alloc: Global,
    policy: &Policy,
    judgement: &mut Judgement,
    granted: &mut bool,
    effect: &mut Option<Boxed<Request>>,
) -> Result<(), NoMemory>
    ensures judged { (q : Request) → judgement.old ≡ judgement_as granted.old policy.now.rules q → judgement.new ≡ judgement_as granted.new policy.now.rules q }
    ensures granted { OnOk result (granted.new ≡ true) }
    ensures effect { OnOk result (effect.new ≡ Some judgement.new.request) }
    ensures none { OnErr result (effect.new ≡ None) }
{
    *effect = None;
    if !*granted {
        grant_request(alloc, policy, judgement)?;
        *granted = true;
    }
    *effect = Some(Boxed::new(alloc, judgement.request.copied(alloc)?)?);
    Ok(())
}

/// Feeds the answer of a read to the capture.
fn feed(capture: &mut Capture, got: &Got<'_>)
    requires { CanFeed capture.old (told got.now) }
    ensures { (parts : List Part) (answers : List (Result (List ℕ) ℕ)) → Follows parts answers capture.old → Follows parts (answers ++ heard (told got.now)) capture.new }
{
    match got {
        Got::Bytes(bytes) => {
            let fed = capture.feed(Ok(*bytes)).is_ok();
            prove!(fed);
        }
        Got::Fault(_) => {
            let fed = capture.feed(Err(Fault)).is_ok();
            prove!(fed);
        }
        _ => {}
    }
}

impl Stage {
    /// The arguments are being read.
    fn is_reading(&self) -> bool
        ensures { result ≡ is_reading self.now }
    {
        matches!(self, Stage::Reading)
    }
}

impl Session {
    /// Makes room for the next piece, or where nothing is left to be read judges the arguments.
    #[tactic(auto, using(crate::proofs::Judging::known_room, crate::proofs::Judging::known_judged))]
    fn ready_to_read(&mut self, policy: &Policy, capture: &mut Capture) -> Result<(), NoMemory>
        requires reading { self.old.stage ≡ Reading }
        ensures known { (own : List What) → Knows policy.now.rules own capture.old self.old → Knows policy.now.rules own capture.new self.new }
        ensures ready { OnOk result (IsReadyAt capture.new self.new.stage) }
        ensures act { IsReadyToAct self.new }
    {
        if capture.next().is_some() {
            return capture.ready();
        }
        self.stage = Stage::Judged(found(policy, &self.notif, capture));
        Ok(())
    }

    /// Makes what an act needs, where the deciding rule grants and nothing was done yet.
    #[tactic(auto, using(crate::proofs::Judging::known_granted))]
    fn ready_to_act(&mut self, alloc: Global, policy: &Policy) -> Result<(), NoMemory>
        ensures known { (own : List What) (c : Captured) → Knows policy.now.rules own c self.old → Knows policy.now.rules own c self.new }
        ensures ready { (c : Captured) → IsReadyAt c self.old.stage → IsReadyAt c self.new.stage }
        ensures act { OnOk result (IsReadyToAct self.new) }
    {
        match &mut self.stage {
            Stage::Confirmed(Ok(judgement))
                if judgement.verdict == Verdict::Grant && self.outcome.is_none() => prepare_effect(
                alloc,
                policy,
                judgement,
                &mut self.granted,
                &mut self.effect,
            ),
            _ => Ok(()),
        }
    }

    /// Makes room for the answer to the next deed.
    pub(crate) fn ready(
        &mut self,
        alloc: Global,
        policy: &Policy,
        capture: &mut Capture,
    ) -> Result<(), NoMemory>
        ensures known { (own : List What) → Knows policy.now.rules own capture.old self.old → Knows policy.now.rules own capture.new self.new }
        ensures ready { OnOk result (IsReadyAt capture.new self.new.stage) }
        ensures act { OnOk result (IsReadyToAct self.new) }
    {
        if self.stage.is_reading() {
            return self.ready_to_read(policy, capture);
        }
        self.ready_to_act(alloc, policy)
    }

    /// A check was good.
    fn confirm(&mut self)
        ensures { self.new ≡ record self.old { stage = confirmed self.old.stage } }
    {
        self.stage = match mem::replace(&mut self.stage, Stage::Unchecked) {
            Stage::Unchecked => Stage::Reading,
            Stage::Judged(found) => Stage::Confirmed(found),
            stage => stage,
        };
    }

    /// Advances the stage or the copy by an answer.
    fn advance(&mut self, capture: &mut Capture, deed: &Deed, got: &Got<'_>)
        requires { CanTake deed.now (told got.now) capture.old self.old.stage }
        ensures { Advances deed.now (told got.now) capture.old capture.new self.old self.new }
    {
        match deed {
            Deed::Read { .. } => feed(capture, got),
            Deed::Check { .. } => {
                if matches!(got, Got::Ok) {
                    self.confirm();
                }
            }
            _ => {}
        }
    }

    /// Takes the answer to a deed that neither begins the session nor ends it.
    #[tactic(auto, using(crate::proofs::Taken::known_after))]
    pub(crate) fn took(&mut self, capture: &mut Capture, deed: &Deed, got: &Got<'_>)
        requires { CanTake deed.now (told got.now) capture.old self.old.stage }
        ensures { (rules : List Rule) (own : List What) (q : Request) (b : List ℕ) → Knows rules own capture.old self.old → Knows rules (step_of (deed_of q b deed.now) (told got.now) ∷ own) capture.new self.new }
    {
        self.advance(capture, deed, got);
        self.note(deed, got);
    }
}

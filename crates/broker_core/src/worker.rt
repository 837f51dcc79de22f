//! A worker of the broker.

ghost use Rattle.std.specs.Prelude.{◌≡◌, ℕ, List, [], OnOk, Option, None};
ghost use Rattle.std.specs.Option.{option_copied};
ghost use Rattle.hist_model.specs.Copies.{plan};
ghost use Rattle.hist_model.specs.Deeds as definition;
ghost use Rattle.hist_model.specs.Sessions.{deed};
ghost use Rattle.hist_model.specs.Sysinfo.{container_sysinfo};
ghost use Rattle.hist_model.specs.Legal.{rules_of};
ghost use Rattle.hist_model.specs.declared.event.What.{What};
ghost use Rattle.hist_model.specs.declared.policy.Cap.{Cap};
ghost use Rattle.hist_model.specs.declared.policy.Policy.{Policy};
ghost use Rattle.hist_model.specs.declared.request.Request.{Request as Asked};
ghost use Rattle.arg_capture.specs.Captures.{Follows, HasRoomForAny};
ghost use Rattle.broker_core.specs.Answers.{Fits, shown, step_of, told, with_step};
ghost use Rattle.broker_core.specs.Deeds.{due};
ghost use Rattle.broker_core.specs.Remembered.{HasEffect, IsReady, Remembers, is_granted, request_of};
ghost use Rattle.broker_core.specs.Taking.{BeginsIf};
ghost use Rattle.broker_core.specs.declared.deed.Deed.TheVariants.{Act};

use crate::deed::{Deed, Got};
use crate::session::Session;
use arg_capture::{Capture, Plan};
use emu_sysinfo::container;
use hist_model::boxed::Boxed;
use hist_model::policy::Policy;
use hist_model::request::Request;
use hist_model::script::Figures;
use std::alloc::Global;
use sys_abi::memory::NoMemory;
use sys_abi::wire::Notif;

/// A worker: what it remembers of the notification that it works on, and the container's figures.
pub struct Worker {
    figures: Figures,
    alloc: Global,
    /// The copy of the arguments. Without a session it is kept for its room.
    capture: Capture,
    session: Option<Session>,
}

// (written out, so that what letting one go comes to is proved here once, and not in each crate that owns one)
impl Drop for Worker {
    fn drop(self) {
        let Worker {
            figures: _figures,
            alloc: _alloc,
            capture: _capture,
            session: _session,
        } = self;
    }
}

impl Worker {
    /// A worker of a container with these figures, without a session. It takes no memory before `ready`.
    #[tactic(auto, using(crate::proofs::Workers::idle_start))]
    pub fn new(alloc: Global, figures: Figures) -> Worker
        ensures figures { result.figures ≡ figures }
        ensures idle { (P : Policy) → Remembers P [] result }
    {
        Worker {
            figures,
            alloc,
            capture: Capture::nothing(alloc),
            session: None,
        }
    }

    /// What the worker does next.
    #[tactic(auto, using(crate::proofs::Workers::due_deed))]
    pub fn next(&self) -> Deed
        ensures due { result ≡ due self.now }
        ensures deed { (P : Policy) (own : List What) → Remembers P own self.now → result ≡ shown (deed (rules_of P self.now.figures) own) }
    {
        match &self.session {
            None => Deed::Recv,
            Some(session) => session.next(&self.capture),
        }
    }

    /// What the call asks for, from the second good check on until the worker lets go, where the copy of its arguments had
    /// no fault. Once `ready` has made room for an act, it is what the deciding rule grants.
    pub fn request(&self) -> Option<&Request>
        ensures { (P : Policy) (own : List What) → Remembers P own self.now → option_copied result ≡ request_of P.rules (is_granted self.now) own }
    {
        match &self.session {
            None => None,
            Some(session) => session.request(),
        }
    }

    /// Makes room for the answer to the deed that is due: for the copy of any call before a receive, and for a piece before
    /// a read. Before the second check it judges the arguments by the policy, which is the same at each call. Before an act
    /// it makes the request the granted one, and another of it for the event. After want of memory the worker remembers
    /// what it did.
    pub fn ready(&mut self, policy: &Policy) -> Result<(), NoMemory>
        ensures known { (own : List What) → Remembers policy.now own self.old → Remembers policy.now own self.new }
        ensures ready { OnOk result (IsReady self.new) }
        ensures effect { OnOk result ((cap : Option Cap) → due self.new ≡ Act cap → HasEffect self.new) }
        ensures figures { self.new.figures ≡ self.old.figures }
    {
        match &mut self.session {
            None => self.capture.ready_for_any(),
            Some(session) => session.ready(self.alloc, policy, &mut self.capture),
        }
    }

    /// The granted request of the act that is due, which the event of the act keeps. The worker keeps its own.
    pub fn take_effect(&mut self) -> Boxed<Request>
        requires { HasEffect self.old }
        ensures request { (P : Policy) (own : List What) (q : Asked) (cap : Option Cap) → Remembers P own self.old → deed (rules_of P self.old.figures) own ≡ definition.Act q cap → result ≡ q }
        ensures known { (P : Policy) (own : List What) → Remembers P own self.old → Remembers P own self.new }
        ensures ready { IsReady self.old → IsReady self.new }
        ensures due { due self.new ≡ due self.old }
        ensures granted { is_granted self.new ≡ is_granted self.old }
        ensures figures { self.new.figures ≡ self.old.figures }
    {
        match &mut self.session {
            Some(Session { effect, .. }) => match effect.take() {
                Some(request) => request,
                None => unreachable!(),
            },
            None => unreachable!(),
        }
    }

    /// The bytes of a plant: the answer of sysinfo in the container.
    #[tactic(auto, using(crate::proofs::Workers::planted_known))]
    pub fn planted(&self) -> [u8; 112]
        ensures answer { result ≡ container_sysinfo self.now.figures }
        ensures bytes { (P : Policy) (own : List What) (addr : ℕ) (bytes : List ℕ) (cap : Option Cap) → Remembers P own self.now → deed (rules_of P self.now.figures) own ≡ definition.Plant addr bytes cap → result ≡ bytes }
    {
        container(&self.figures)
    }

    /// Begins the session of a notification.
    fn begin(&mut self, notif: &Notif)
        requires room { HasRoomForAny self.old.capture.reached }
        ensures begun { BeginsIf notif.now self.new.session }
        ensures follows { Follows (plan notif.now.call.nr notif.now.call.args) [] self.new.capture }
        ensures figures { self.new.figures ≡ self.old.figures }
    {
        self.capture
            .start(Plan::of(notif.call.nr, &notif.call.args));
        self.session = Some(Session::begun(notif));
    }

    /// Takes a received notification, with which a session begins; nothing begins where there is none.
    fn receive(&mut self, got: &Got<'_>)
        requires idle { self.old.session ≡ None }
        requires room { IsReady self.old }
        requires fits { Fits (due self.old) (told got.now) }
        ensures known { (P : Policy) (own : List What) → Remembers P own self.old → Remembers P (with_step (step_of definition.Recv (told got.now)) own) self.new }
        ensures figures { self.new.figures ≡ self.old.figures }
    {
        if let Got::Notif(notif) = got {
            self.begin(notif);
        }
    }

    /// Takes the answer to the deed that is due, which `next` gave and for which `ready` made room since the last answer. It
    /// takes no memory. Where there is no answer yet, nothing changes.
    pub fn took(&mut self, next: &Deed, got: &Got<'_>)
        requires ready { IsReady self.old }
        requires due { next.now ≡ due self.old }
        requires fits { Fits next.now (told got.now) }
        ensures known { (P : Policy) (own : List What) → Remembers P own self.old → Remembers P (with_step (step_of (deed (rules_of P self.old.figures) own) (told got.now)) own) self.new }
        ensures figures { self.new.figures ≡ self.old.figures }
    {
        if got.is_not_yet() {
            return;
        }
        if next.is_let_go() {
            self.session = None;
            return;
        }
        match &mut self.session {
            None => self.receive(got),
            Some(session) => session.took(&mut self.capture, next, got),
        }
    }
}

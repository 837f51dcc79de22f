//! A container, and a judge that hears it.

ghost use Rattle.std.specs.Prelude.{◌≡◌, ◌++◌, Bool, List, length, IfOk, OnOk};
ghost use Rattle.std.specs.Option.{option_map};
ghost use Rattle.hist_model.specs.Legal.{started};
ghost use Rattle.hist_model.specs.declared.event.Event.{Event};
ghost use Rattle.hist_model.specs.declared.script.Script.{Script as ScriptValue};
ghost use Rattle.judge_pass.specs.Finding.{as_finding};
ghost use Rattle.judge_pass.specs.Heads.{events_of, numbers_text, or_mediated};
ghost use Rattle.step_requests.specs.declared.request.StepRequest.TheVariants as step;
ghost use Rattle.step_session.specs.Answers.{IsAsked, judged};
ghost use Rattle.step_session.specs.Judged.{HasHeard, IsAhead, IsJudged, IsServed, IsStanding};
ghost use Rattle.step_session.specs.Stands.{Stands};

use crate::answering::answer_request;
use crate::container::{Container, State};
use crate::origin::Origin;
use crate::texts::push_sized;
use audit_log::line::LineBuffer;
use hist_model::script::Script;
use judge_pass::heads::{push_broken, push_mediated};
use judge_pass::judge::Counts;
use judge_pass::watch::{FirstFault, Watch};
use model_kernel::Kernel;
use std::alloc::Global;
use step_requests::StepRequest;
use sys_abi::memory::NoMemory;

/// A container, and a judge that hears what its tasks and workers do. After want of memory nothing is known of it.
#[derive(Drop)]
pub(crate) struct JudgedContainer {
    container: Container,
    watch: Watch,
}

/// Adds the line of what was found, or that the broker has mediated, by so many events.
fn push_head(
    line: &mut LineBuffer,
    found: Option<FirstFault>,
    events: u64,
    counts: &Counts,
) -> Result<(), NoMemory>
    ensures { OnOk result (line.new ≡ line.old ++ or_mediated (option_map as_finding found) (numbers_text events counts.now.calls counts.now.effects counts.now.answers)) }
{
    match found {
        Some(found) => push_broken(line, found.place as u64, &found.fault),
        None => push_mediated(line, events, counts),
    }
}

impl JudgedContainer {
    /// The container of a script, after its start, which the judge has heard.
    pub(crate) fn new(
        alloc: Global,
        origin: &Origin,
        script: Script,
    ) -> Result<JudgedContainer, NoMemory>
        ensures { IfOk result (λ c. IsJudged origin.now script (started script) c) }
    {
        let kernel = Kernel::new(alloc, script)?;
        let watch = Watch::new(alloc, &origin.policy, &kernel)?;
        Ok(JudgedContainer {
            container: Container::of(kernel),
            watch,
        })
    }

    /// How many events there are.
    fn events(&self) -> usize
        ensures { (S : ScriptValue) (K : List Event) → Stands S K self.now.container → result ≡ length K }
    {
        self.container.history().len()
    }

    /// Lets the judge hear the newest event, where there are more than so many. It doesn't hear that the listener was closed.
    fn hear(&mut self, origin: &Origin, before: usize) -> Result<(), NoMemory>
        requires { HasHeard origin.now before self.old }
        ensures { OnOk result ((S : ScriptValue) (K H : List Event) → length K ≡ before → IsAhead origin.now S K H self.old → IsJudged origin.now S H self.new) }
    {
        if self.events() == before {
            return Ok(());
        }
        match &self.container.state {
            State::Open(kernel) => self.watch.hear(&origin.policy, kernel),
            State::Closed(_) => Ok(()),
        }
    }

    /// How many events the judge has heard.
    fn heard(&self, origin: &Origin) -> usize
        requires { IsStanding origin.now self.now }
        ensures { (S : ScriptValue) (K : List Event) → IsJudged origin.now S K self.now → result ≡ events_of K }
    {
        let events = self.events();
        match &self.container.state {
            State::Open(_) => events,
            State::Closed(_) => events - 1,
        }
    }

    /// The event that is found to break a clause first; with `idle`, where the broker does nothing more by itself.
    fn found(&self, origin: &Origin, idle: bool) -> Option<FirstFault>
        requires { IsStanding origin.now self.now }
        ensures { (S : ScriptValue) (K : List Event) → IsJudged origin.now S K self.now → option_map as_finding result ≡ judged origin.now S K idle }
    {
        if !idle {
            return self.watch.found();
        }
        match &self.container.state {
            State::Open(_) => self.watch.found_idle(self.events()),
            State::Closed(_) => self.watch.found(),
        }
    }

    /// Tells the first line of what is printed of the broker, by what happened so far.
    fn judge(
        &self,
        alloc: Global,
        origin: &Origin,
        idle: bool,
        line: &mut LineBuffer,
    ) -> Result<(), NoMemory>
        requires { IsStanding origin.now self.now }
        ensures { OnOk result (IsServed origin.now (step.Judge idle) self.now line.old line.new self.now) }
    {
        let mut head = LineBuffer::new(alloc);
        let found = self.found(origin, idle);
        let events = self.heard(origin) as u64;
        push_head(&mut head, found, events, &self.watch.counts())?;
        push_sized(line, "judge", head.bytes())
    }

    /// Does what a request other than `judge` asks for, and lets the judge hear it.
    fn step(
        &mut self,
        alloc: Global,
        origin: &Origin,
        request: &StepRequest,
        line: &mut LineBuffer,
    ) -> Result<(), NoMemory>
        requires standing { IsStanding origin.now self.old }
        requires asked { IsAsked request.now }
        requires other { (idle : Bool) → request.now ≡ step.Judge idle → ⊥ }
        ensures { OnOk result (IsServed origin.now request.now self.old line.old line.new self.new) }
    {
        let before = self.events();
        answer_request(alloc, origin, &mut self.container, request, line)?;
        self.hear(origin, before)
    }

    /// Does what a request asks for, and adds the answer to a line; its last byte is a line's end.
    pub(crate) fn answer(
        &mut self,
        alloc: Global,
        origin: &Origin,
        request: &StepRequest,
        line: &mut LineBuffer,
    ) -> Result<(), NoMemory>
        requires standing { IsStanding origin.now self.old }
        requires asked { IsAsked request.now }
        ensures { OnOk result (IsServed origin.now request.now self.old line.old line.new self.new) }
    {
        match request {
            StepRequest::Judge { idle } => self.judge(alloc, origin, *idle, line),
            _ => self.step(alloc, origin, request, line),
        }
    }
}

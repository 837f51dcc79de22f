//! A container whose tasks and workers step as requests ask for.

ghost use Rattle.std.specs.Prelude.{◌≡◌, ◌<◌, ◌≤◌, ◌++◌, ◌∷◌, List, length, IfOk, OnOk};
ghost use Rattle.hist_model.specs.Look.{ev};
ghost use Rattle.hist_model.specs.declared.event.Actor.TheVariants.{Listener};
ghost use Rattle.hist_model.specs.declared.event.Event.{Event};
ghost use Rattle.hist_model.specs.declared.event.What.TheVariants.{Close};
ghost use Rattle.step_session.specs.declared.origin.Origin.{Origin as OriginValue};
ghost use Rattle.hist_model.specs.declared.script.Script.{Script as ScriptValue};
ghost use Rattle.model_kernel.specs.Kernels.{IsKernel, past};
ghost use Rattle.step_session.specs.Answers.{task_answer, worker_answer};
ghost use Rattle.step_session.specs.Stands.{Answers, IsAnswered, IsInOrder, Stands};
ghost use Rattle.step_session.specs.Texts.{event_text};
ghost use Rattle.step_session.specs.declared.container.State.TheVariants.{Open};
ghost use Rattle.step_requests.specs.declared.request.StepRequest.TheVariants as step;

use crate::origin::Origin;
use crate::refusal::Refusal;
use crate::reports::push_report;
use crate::scripts::push_script;
use crate::texts::{push_event, push_refusal};
use asked_steps::{Came, ask};
use audit_log::line::LineBuffer;
use hist_model::history::History;
use hist_model::text::TaskName;
use model_kernel::{CannotStep, Kernel};
use state_answers::{push_look, push_who_is_able};
use std::alloc::Global;
use std::mem;
use step_requests::{Asked, Look};
use sys_abi::memory::NoMemory;

/// What is left of a container.
#[derive(Drop)]
pub(crate) enum State {
    /// Its kernel, whose listener is open.
    Open(Kernel),
    /// Its history, at whose end the listener was closed.
    Closed(History),
}

/// A container whose tasks and workers step as requests ask for. Each method does what one request asks for, and adds the answer to a
/// line; its last byte is a line's end. After want of memory nothing is known of the container.
#[derive(Drop)]
pub(crate) struct Container {
    pub(crate) state: State,
}

/// Adds the line of the newest event.
fn push_newest(line: &mut LineBuffer, history: &History) -> Result<(), NoMemory>
    requires { 0 < length history.now.events }
    ensures { OnOk result ((e : Event) (K : List Event) → history.now.events ≡ e ∷ K → line.new ≡ line.old ++ event_text (length K) e.who e.what) }
{
    match history.events().split_last() {
        Some((event, before)) => push_event(line, before.len(), event),
        None => unreachable!(),
    }
}

/// Answers a request for the step of the task of a name.
fn answer_task(
    alloc: Global,
    kernel: &mut Kernel,
    name: &TaskName,
    line: &mut LineBuffer,
) -> Result<(), NoMemory>
    requires { IsKernel kernel.old }
    ensures { OnOk result (Answers kernel.old (task_answer kernel.old.script (past kernel.old) name.now) line.old line.new kernel.new) }
{
    let Some(task) = kernel.find(name.items()) else {
        return push_refusal(line, Refusal::NoTask);
    };
    let ready = kernel.ready_task(alloc, task)?;
    match kernel.task_step(task, ready) {
        Ok(()) => push_newest(line, kernel.history()),
        Err(CannotStep) => line.push("skip\n"),
    }
}

/// Answers what a worker asks for.
fn answer_worker(
    alloc: Global,
    kernel: &mut Kernel,
    worker: u8,
    asked: &Asked,
    line: &mut LineBuffer,
) -> Result<(), NoMemory>
    requires kernel { IsKernel kernel.old }
    requires worker { worker ≤ 16 }
    ensures { OnOk result (Answers kernel.old (worker_answer kernel.old.script (past kernel.old) worker asked.now) line.old line.new kernel.new) }
{
    match ask(alloc, kernel, worker, asked)? {
        Came::Refused(why) => push_refusal(line, Refusal::Asked(why)),
        Came::Invalid => line.push("error EINVAL\n"),
        Came::Waits => line.push("skip\n"),
        Came::Stepped => push_newest(line, kernel.history()),
    }
}

/// The history of the container at whose end the listener is closed, and the line of that.
fn closed(alloc: Global, kernel: Kernel, line: &mut LineBuffer) -> Result<History, NoMemory>
    ensures events { IfOk result (λ h. h.events ≡ ev Listener Close ∷ past kernel) }
    ensures line { OnOk result (line.new ≡ line.old ++ event_text (length (past kernel)) Listener Close) }
{
    let mut kernel = kernel;
    kernel.ready_event()?;
    let (_script, history) = kernel.closed();
    push_newest(line, &history)?;
    Ok(history)
}

impl Container {
    /// The container of a kernel, whose listener is open.
    pub(crate) fn of(kernel: Kernel) -> Container
        ensures { result.state ≡ Open kernel }
    {
        Container {
            state: State::Open(kernel),
        }
    }

    /// What has happened so far.
    pub(crate) fn history(&self) -> &History
        ensures { (S : ScriptValue) (K : List Event) → Stands S K self.now → result.now.events ≡ K }
    {
        match &self.state {
            State::Open(kernel) => kernel.history(),
            State::Closed(history) => history,
        }
    }

    /// Tells who is able to step.
    pub(crate) fn able(&self, alloc: Global, line: &mut LineBuffer) -> Result<(), NoMemory>
        requires { IsInOrder self.now.state }
        ensures { OnOk result ((P : OriginValue) → IsAnswered P step.Able self.now line.old line.new self.now) }
    {
        match &self.state {
            State::Open(kernel) => push_who_is_able(alloc, line, kernel),
            State::Closed(_) => push_refusal(line, Refusal::Closed),
        }
    }

    /// Tells what a look sees.
    pub(crate) fn look(
        &self,
        alloc: Global,
        look: &Look,
        line: &mut LineBuffer,
    ) -> Result<(), NoMemory>
        requires { IsInOrder self.now.state }
        ensures { OnOk result ((P : OriginValue) → IsAnswered P (step.Look look.now) self.now line.old line.new self.now) }
    {
        match &self.state {
            State::Open(kernel) => push_look(alloc, line, kernel, look),
            State::Closed(_) => push_refusal(line, Refusal::Closed),
        }
    }

    /// Tells the report so far.
    pub(crate) fn report(
        &self,
        alloc: Global,
        origin: &Origin,
        line: &mut LineBuffer,
    ) -> Result<(), NoMemory>
        ensures { OnOk result (IsAnswered origin.now step.Report self.now line.old line.new self.now) }
    {
        push_report(alloc, origin, self.history(), line)
    }

    /// Tells the script that plays what has happened so far again.
    pub(crate) fn script(
        &self,
        alloc: Global,
        origin: &Origin,
        line: &mut LineBuffer,
    ) -> Result<(), NoMemory>
        ensures { OnOk result (IsAnswered origin.now step.Script self.now line.old line.new self.now) }
    {
        push_script(alloc, origin, self.history(), line)
    }

    /// Lets the task of a name step.
    pub(crate) fn task(
        &mut self,
        alloc: Global,
        name: &TaskName,
        line: &mut LineBuffer,
    ) -> Result<(), NoMemory>
        requires { IsInOrder self.old.state }
        ensures { OnOk result ((P : OriginValue) → IsAnswered P (step.Task name.now) self.old line.old line.new self.new) }
    {
        match &mut self.state {
            State::Open(kernel) => answer_task(alloc, kernel, name, line),
            State::Closed(_) => push_refusal(line, Refusal::Closed),
        }
    }

    /// Does what a worker, 0 to 15, asks for.
    pub(crate) fn worker(
        &mut self,
        alloc: Global,
        number: u8,
        asked: &Asked,
        line: &mut LineBuffer,
    ) -> Result<(), NoMemory>
        requires order { IsInOrder self.old.state }
        requires number { number ≤ 15 }
        ensures { OnOk result ((P : OriginValue) → IsAnswered P (step.Worker number asked.now) self.old line.old line.new self.new) }
    {
        match &mut self.state {
            State::Open(kernel) => answer_worker(alloc, kernel, number, asked, line),
            State::Closed(_) => push_refusal(line, Refusal::Closed),
        }
    }

    /// Closes the listener.
    pub(crate) fn close(&mut self, alloc: Global, line: &mut LineBuffer) -> Result<(), NoMemory>
        ensures { OnOk result ((P : OriginValue) → IsAnswered P step.Close self.old line.old line.new self.new) }
    {
        let ended = State::Closed(History::new(alloc));
        self.state = match mem::replace(&mut self.state, ended) {
            State::Open(kernel) => State::Closed(closed(alloc, kernel, line)?),
            State::Closed(history) => {
                push_refusal(line, Refusal::Closed)?;
                State::Closed(history)
            }
        };
        Ok(())
    }
}

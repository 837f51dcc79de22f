//! The play of lines with a judge beside it.

ghost use Rattle.std.specs.Prelude.{◌≡◌, ◌<◌, ◌≤◌, ◌∷◌, true, false, None, IsSome, is_some, length, IfOk, OnOk, option_map};
ghost use Rattle.std.specs.List.{All};
ghost use Rattle.hist_model.specs.Look.{ev};
ghost use Rattle.hist_model.specs.Names.{is_task_name};
ghost use Rattle.hist_model.specs.declared.event.Actor.TheVariants.{Listener};
ghost use Rattle.hist_model.specs.declared.event.What.TheVariants.{Close};
ghost use Rattle.judge_pass.specs.Counted.{AreCounted};
ghost use Rattle.judge_pass.specs.Finding.{as_finding, finding};
ghost use Rattle.model_kernel.specs.Kernels.{IsKernel, past};
ghost use Rattle.model_kernel.specs.Kernels.{IsBegun as IsBegunKernel};
ghost use Rattle.step_requests.specs.Turns.{AreApart};
ghost use Rattle.asked_steps.specs.Steps.{IsBegun, is_closed};
ghost use Rattle.turn_player.specs.Judged.{GoesOnFrom, IsNewer, IsPlayed, IsWatched, requested, ServersStillKnow, ServerStillKnows, StillKnows, StopsAt};
ghost use Rattle.turn_player.specs.Serving.{OthersAsBefore};
ghost use Rattle.turn_player.specs.Turns.{IsTurn, after_times, after_turn, after_turns, served, stepped, turned};

use crate::serving::{idle_workers, serve};
use asked_steps::{do_asked, step_task};
use audit_log::line::LineBuffer;
use broker_core::worker::Worker;
use hist_model::history::History;
use hist_model::policy::Policy;
use hist_model::script::Script;
use hist_model::text::TaskName;
use judge_pass::judge::Counts;
use judge_pass::watch::{FirstFault, Watch};
use judge_pass::why::push_fault;
use model_kernel::Kernel;
use std::alloc::Global;
use step_requests::{Asked, Turn};
use sys_abi::memory::NoMemory;

/// What is found of a broker whose schedule was played.
#[derive(Drop)]
pub struct Judgement {
    /// What was played: all of it where no clause is broken, else no further than to the event that breaks the first.
    pub history: History,
    /// How many calls were received, and how much was done and answered, where no clause is broken.
    pub counts: Counts,
    /// The event that breaks a clause first.
    pub found: Option<FirstFault>,
    /// The lines that show why; none where no clause is broken.
    pub reasons: Vec<u8>,
}

/// A kernel, and the judge that hears it.
#[derive(Drop)]
pub(crate) struct Court {
    kernel: Kernel,
    watch: Watch,
}

impl Court {
    /// Whether a clause was broken.
    fn is_over(&self) -> bool
        ensures { result ≡ is_some self.now.watch.found }
    {
        self.watch.found().is_some()
    }

    /// Lets the judge hear what has come since there were so many events: one more, or none.
    fn hear_newer(&mut self, policy: &Policy, heard: usize) -> Result<(), NoMemory>
        requires kernel { IsKernel self.old.kernel }
        requires begun { IsBegun self.old.kernel.script (past self.old.kernel) }
        requires open_still { is_closed (past self.old.kernel) ≡ false }
        requires newer { IsNewer policy.now self.old heard }
        requires clean { self.old.watch.found ≡ None }
        ensures watched { OnOk result (IsWatched policy.now self.new) }
        ensures kernel { self.new.kernel ≡ self.old.kernel }
    {
        self.kernel.has_few_events();
        if self.kernel.history().len() == heard {
            return Ok(());
        }
        self.watch.hear(policy, &self.kernel)?;
        Ok(())
    }

    /// Lets the task of a name make a step, if it can.
    fn step(&mut self, alloc: Global, policy: &Policy, name: &TaskName) -> Result<(), NoMemory>
        requires watched { IsWatched policy.now self.old }
        requires name { is_task_name name.now ≡ true }
        ensures { OnOk result (IsPlayed policy.now self.old (stepped self.old.kernel.script name.now (past self.old.kernel)) self.new) }
    {
        if self.is_over() {
            return Ok(());
        }
        let heard = self.kernel.history().len();
        step_task(alloc, &mut self.kernel, name)?;
        self.hear_newer(policy, heard)?;
        Ok(())
    }

    /// Lets a worker of this project make the step that it has next, if it can.
    fn serve(
        &mut self,
        alloc: Global,
        policy: &Policy,
        number: u8,
        worker: &mut Worker,
    ) -> Result<(), NoMemory>
        requires watched { IsWatched policy.now self.old }
        requires number { number ≤ 15 }
        requires knows { StillKnows policy.now self.old number worker.old }
        ensures played { OnOk result (IsPlayed policy.now self.old (served policy.now self.old.kernel.script number (past self.old.kernel)) self.new) }
        ensures knows { OnOk result (StillKnows policy.now self.new number worker.new) }
    {
        if self.is_over() {
            return Ok(());
        }
        let heard = self.kernel.history().len();
        serve(alloc, policy, &mut self.kernel, number, worker)?;
        self.hear_newer(policy, heard)?;
        Ok(())
    }

    /// Does what a worker of another broker asks for, if it can be done.
    fn ask(
        &mut self,
        alloc: Global,
        policy: &Policy,
        worker: u8,
        asked: &Asked,
    ) -> Result<(), NoMemory>
        requires watched { IsWatched policy.now self.old }
        requires worker { worker ≤ 15 }
        ensures { OnOk result (IsPlayed policy.now self.old (requested self.old.kernel.script worker asked.now (past self.old.kernel)) self.new) }
    {
        if self.is_over() {
            return Ok(());
        }
        let heard = self.kernel.history().len();
        do_asked(alloc, &mut self.kernel, worker, asked)?;
        self.hear_newer(policy, heard)?;
        Ok(())
    }

    /// Lets the task of a name make so many steps, each if it can.
    fn step_often(
        &mut self,
        alloc: Global,
        policy: &Policy,
        name: &TaskName,
        count: u32,
    ) -> Result<(), NoMemory>
        requires watched { IsWatched policy.now self.old }
        requires name { is_task_name name.now ≡ true }
        ensures { OnOk result (IsPlayed policy.now self.old (after_times (stepped self.old.kernel.script name.now) (past self.old.kernel) count) self.new) }
    {
        for _ in 0..count {
            self.step(alloc, policy, name)?;
        }
        Ok(())
    }

    /// Lets a worker of this project make so many steps, each if it can.
    fn serve_often(
        &mut self,
        alloc: Global,
        policy: &Policy,
        number: u8,
        worker: &mut Worker,
        count: u32,
    ) -> Result<(), NoMemory>
        requires watched { IsWatched policy.now self.old }
        requires number { number ≤ 15 }
        requires knows { StillKnows policy.now self.old number worker.old }
        ensures played { OnOk result (IsPlayed policy.now self.old (after_times (served policy.now self.old.kernel.script number) (past self.old.kernel) count) self.new) }
        ensures knows { OnOk result (StillKnows policy.now self.new number worker.new) }
    {
        for _ in 0..count {
            self.serve(alloc, policy, number, worker)?;
        }
        Ok(())
    }

    /// Does what a line says.
    fn take_turn(
        &mut self,
        alloc: Global,
        policy: &Policy,
        workers: &mut Vec<Worker>,
        turn: &Turn,
    ) -> Result<(), NoMemory>
        requires watched { IsWatched policy.now self.old }
        requires number { length workers.old.items ≡ 16 }
        requires turn { IsTurn turn.now }
        requires knows { ServerStillKnows policy.now self.old turn.now workers.old.items }
        ensures played { OnOk result (IsPlayed policy.now self.old (after_turn policy.now self.old.kernel.script (past self.old.kernel) turn.now) self.new) }
        ensures number { OnOk result (length workers.new.items ≡ 16) }
        ensures knows { OnOk result (ServerStillKnows policy.now self.new turn.now workers.new.items) }
        ensures others { OnOk result (OthersAsBefore turn.now workers.old.items workers.new.items) }
    {
        match turn {
            Turn::Steps { task, count } => {
                self.step_often(alloc, policy, task, *count)?;
                Ok(())
            }
            Turn::Serves { worker, count } => {
                let server = &mut workers[usize::from(*worker)];
                self.serve_often(alloc, policy, *worker, server, *count)?;
                Ok(())
            }
            Turn::Asks { worker, asked } => {
                self.ask(alloc, policy, *worker, asked)?;
                Ok(())
            }
        }
    }

    /// Does what the lines say, one after another, until a clause is broken.
    fn take_turns(
        &mut self,
        alloc: Global,
        policy: &Policy,
        workers: &mut Vec<Worker>,
        turns: &[Turn],
    ) -> Result<(), NoMemory>
        requires watched { IsWatched policy.now self.old }
        requires number { length workers.old.items ≡ 16 }
        requires turns { All IsTurn turns.now }
        requires apart { AreApart turns.now }
        requires knows { ServersStillKnow policy.now self.old turns.now workers.old.items }
        ensures { OnOk result (IsPlayed policy.now self.old (after_turns policy.now self.old.kernel.script (past self.old.kernel) turns.now) self.new) }
    {
        let mut rest = turns;
        'turns: while let Some((turn, behind)) = rest.split_first() {
            self.take_turn(alloc, policy, workers, turn)?;
            rest = behind;
        }
        Ok(())
    }

    /// The lines that show why the newest event breaks a clause, if one is broken.
    fn reasons(&self, alloc: Global, policy: &Policy) -> Result<Vec<u8>, NoMemory> {
        let mut line = LineBuffer::new(alloc);
        if let Some(found) = self.watch.found() {
            push_fault(
                &mut line,
                self.watch.judge(),
                policy,
                &self.kernel,
                &found.fault,
            )?;
        }
        Ok(line.into_bytes())
    }

    /// What was found. Where no clause is broken, the listener is closed.
    fn judgement(self, alloc: Global, policy: &Policy) -> Result<Judgement, NoMemory>
        requires { IsWatched policy.now self }
        ensures found { IfOk result (λ j. j.found ≡ self.watch.found) }
        ensures whole { IfOk result (λ j. j.found ≡ None → j.history.events ≡ ev Listener Close ∷ past self.kernel) }
        ensures stopped { IfOk result (λ j. IsSome j.found → j.history.events ≡ past self.kernel) }
        ensures stops { IfOk result (λ j. StopsAt j.history.events j.found) }
        ensures counts { IfOk result (λ j. j.found ≡ None → AreCounted j.history.events j.counts) }
    {
        let reasons = self.reasons(alloc, policy)?;
        let Court { mut kernel, watch } = self;
        kernel.ready_event()?;
        Ok(Judgement {
            history: ended(kernel, watch.found().is_some()),
            counts: watch.counts(),
            found: watch.found(),
            reasons,
        })
    }
}

/// The history of a kernel, at whose end the listener is closed unless the play has stopped before.
fn ended(kernel: Kernel, has_stopped: bool) -> History
    requires { 0 < kernel.history.spare }
    ensures stopped { has_stopped ≡ true → result.events ≡ past kernel }
    ensures whole { has_stopped ≡ false → result.events ≡ ev Listener Close ∷ past kernel }
{
    if has_stopped {
        return kernel.into_history();
    }
    let (_script, history) = kernel.closed();
    history
}

/// A script's kernel after its start, and the judge that has heard it.
fn started_court(alloc: Global, policy: &Policy, script: Script) -> Result<Court, NoMemory>
    ensures watched { IfOk result (λ c. IsWatched policy.now c) }
    ensures begun { IfOk result (λ c. IsBegunKernel script c.kernel) }
{
    let kernel = Kernel::new(alloc, script)?;
    let watch = Watch::new(alloc, policy, &kernel)?;
    Ok(Court { kernel, watch })
}

/// Plays a script under a policy by the lines of a schedule, and judges the workers' steps. It stops at the first event that breaks
/// a clause. Else the listener is closed at the end.
pub fn play_judged(
    alloc: Global,
    policy: &Policy,
    script: Script,
    turns: &[Turn],
) -> Result<Judgement, NoMemory>
    requires turns { All IsTurn turns.now }
    requires apart { AreApart turns.now }
    ensures found { IfOk result (λ j. option_map as_finding j.found ≡ finding policy.now script (turned policy.now script turns.now)) }
    ensures events { IfOk result (λ j. j.found ≡ None → j.history.events ≡ turned policy.now script turns.now) }
    ensures stops { IfOk result (λ j. StopsAt j.history.events j.found) }
    ensures begins { IfOk result (λ j. GoesOnFrom (turned policy.now script turns.now) j.history.events) }
    ensures counts { IfOk result (λ j. j.found ≡ None → AreCounted (turned policy.now script turns.now) j.counts) }
{
    let mut workers = idle_workers(alloc, script.figures)?;
    let mut court = started_court(alloc, policy, script)?;
    court.take_turns(alloc, policy, &mut workers, turns)?;
    let judgement = court.judgement(alloc, policy)?;
    Ok(judgement)
}

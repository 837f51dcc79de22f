//! How one more event is judged and taken.

ghost use Rattle.std.specs.Prelude.{◌≡◌, ◌+◌, ◌<◌, ◌^◌, ◌∷◌, List, IfOk, IfSome, Some, None, false, true};
ghost use Rattle.std.specs.Prelude.{length, option_map, reverse};
ghost use Rattle.broker_verdict.specs.Trusted.{breaks_by, class_at, class_of, clauses, did_nothing, first_broken, graver, lessened};
ghost use Rattle.broker_verdict.specs.declared.clause.Clause.TheVariants.{Unanswered};
ghost use Rattle.hist_model.specs.Kinds.{makes};
ghost use Rattle.hist_model.specs.Look.{ev};
ghost use Rattle.hist_model.specs.Steps.{session_call};
ghost use Rattle.hist_model.specs.declared.event.Actor.TheVariants.{Worker};
ghost use Rattle.hist_model.specs.declared.event.Event.{Event as EventValue};
ghost use Rattle.hist_model.specs.declared.policy.Policy.{Policy as PolicyValue};
ghost use Rattle.hist_model.specs.declared.script.Script.{Script as ScriptValue};
ghost use Rattle.history_frames.specs.Ordinals.{tasks_made};
ghost use Rattle.model_kernel.specs.Kernels.{IsKernel, past};
ghost use Rattle.judge_pass.specs.Closed.{is_closed};
ghost use Rattle.judge_pass.specs.Counted.{HasRoom};
ghost use Rattle.judge_pass.specs.Opened.{HasOpened};
ghost use Rattle.judge_pass.specs.Stands.{IsHistory, Judges, place_of_call, Stands};
ghost use Rattle.judge_pass.specs.Tables.{AreMade};
ghost use Rattle.judge_pass.specs.Takes.{HasFollowed, HolderIs, IsStepBy};
ghost use Rattle.judge_pass.specs.Within.{AreAmong, HasTimes, IsWithin, tasks_kept};

use crate::answers::broken_by_answer;
use crate::effects::{broken_by_effect, broken_later, is_effect};
use crate::judge::{Fault, Judge};
use crate::opened::newest;
use broker_verdict::clause::{Class, Clause};
use broker_verdict::words::class_of;
use hist_model::event::{Actor, Event, What};
use hist_model::policy::Policy;
use hist_model::request::NodeRef;
use hist_model::script::Script;
use model_kernel::Kernel;
use sys_abi::memory::NoMemory;

/// The task that holds the PID that a step names which opens something.
fn holder_named(kernel: &Kernel, what: &What) -> Option<u32>
    requires { IsKernel kernel.now }
    ensures made { IfSome result (λ o. o < tasks_made (past kernel.now)) }
    ensures holds { HolderIs what.now (past kernel.now) result }
{
    match what {
        What::OpenMem { pid, .. } | What::OpenBase { pid, .. } => kernel.holder(*pid),
        _ => None,
    }
}

impl Judge {
    /// Judges the newest event of a kernel: the first clause that it breaks, if it breaks one. It is taken where it breaks no clause of an
    /// effect or an answer. `opened` is the directory to which the number leads that the event has opened, if it has opened one.
    ///
    /// Where memory is wanting, what is kept stands for no history any more.
    pub fn judge(
        &mut self,
        policy: &Policy,
        kernel: &Kernel,
        opened: Option<NodeRef>,
    ) -> Result<Option<Fault>, NoMemory>
        requires kernel { IsKernel kernel.now }
        requires history { IsHistory kernel.now.script (past kernel.now) }
        requires goes_on { is_closed (past kernel.now) ≡ false }
        requires stands { (K : List EventValue) (e : EventValue) → past kernel.now ≡ e ∷ K
            → Stands policy.now kernel.now.script K self.old }
        requires opened { (K : List EventValue) (e : EventValue) → past kernel.now ≡ e ∷ K → HasOpened kernel.now.script K e opened }
        ensures { IfOk result (λ found. (K : List EventValue) (e : EventValue) → past kernel.now ≡ e ∷ K
            → Judges policy.now kernel.now.script K e found self.new) }
    {
        let Some((event, before)) = newest(kernel) else {
            return Ok(None);
        };
        match &event.who {
            Actor::Worker(number) => {
                let holder = holder_named(kernel, &event.what);
                self.judge_worker(
                    policy,
                    kernel.script(),
                    holder,
                    before,
                    *number,
                    &event.what,
                )
            }
            Actor::Task(name) => {
                let task = kernel.find(name.items());
                self.judge_task(before.len(), task, &event.what, opened)
            }
            Actor::Start => {
                self.add_new()?;
                Ok(None)
            }
            Actor::Listener => Ok(None),
        }
    }

    /// Takes an event of a task, or of a name that no task has: the fault where that leaves a call to nobody.
    fn judge_task(
        &mut self,
        place: usize,
        task: Option<u32>,
        what: &What,
        opened: Option<NodeRef>,
    ) -> Result<Option<Fault>, NoMemory>
        requires within { IsWithin self.old }
        requires task { IfSome task (λ o. o < tasks_kept self.old) }
        requires few { makes what.now ≡ true → self.old.groups + 1 < 2 ^ 32 }
        requires made { AreMade self.old.groups self.old.directories.rows.items }
        ensures { IfOk result (λ found. (P : PolicyValue) (S : ScriptValue) (K : List EventValue) (e : EventValue) → Stands P S K self.old
            → IsHistory S (e ∷ K) → IsStepBy task what.now K e → length K ≡ place → HasOpened S K e opened
            → Judges P S K e found self.new) }
    {
        match task {
            Some(task) => {
                let left = self.take_of_task(place, task, what, opened)?;
                Ok(unanswered(left))
            }
            None => Ok(None),
        }
    }

    /// Judges an event of a worker, and takes it where it breaks nothing.
    fn judge_worker(
        &mut self,
        policy: &Policy,
        script: &Script,
        holder: Option<u32>,
        before: &[Event],
        number: u8,
        what: &What,
    ) -> Result<Option<Fault>, NoMemory>
        requires within { IsWithin self.old }
        requires among { AreAmong (length before.now) self.old }
        requires times { HasTimes policy.now self.old }
        requires followed { HasFollowed number self.old }
        requires room { HasRoom self.old.counts }
        requires worker { number < 17 }
        requires holder { IfSome holder (λ o. o < tasks_kept self.old) }
        ensures { IfOk result (λ found. Stands policy.now script.now (reverse before.now) self.old
            → IsHistory script.now (ev (Worker number) what.now ∷ reverse before.now) → HolderIs what.now (reverse before.now) holder
            → Judges policy.now script.now (reverse before.now) (ev (Worker number) what.now) found self.new) }
    {
        let worker = usize::from(number);
        let broken = self.broken(policy, script, before, worker, what)?;
        match broken {
            Some(clause) => {
                let fault = self.fault(policy, script, before, worker, what, clause)?;
                Ok(Some(fault))
            }
            None => self.take_step(policy, script, holder, before, number, what),
        }
    }

    /// Takes an event of a worker that breaks no clause of an effect or an answer.
    fn take_step(
        &mut self,
        policy: &Policy,
        script: &Script,
        holder: Option<u32>,
        before: &[Event],
        number: u8,
        what: &What,
    ) -> Result<Option<Fault>, NoMemory>
        requires within { IsWithin self.old }
        requires among { AreAmong (length before.now) self.old }
        requires times { HasTimes policy.now self.old }
        requires followed { HasFollowed number self.old }
        requires room { HasRoom self.old.counts }
        requires worker { number < 17 }
        requires holder { IfSome holder (λ o. o < tasks_kept self.old) }
        ensures { IfOk result (λ found. Stands policy.now script.now (reverse before.now) self.old
            → IsHistory script.now (ev (Worker number) what.now ∷ reverse before.now) → HolderIs what.now (reverse before.now) holder
            → first_broken (λ clause. breaks_by policy.now script.now clause (reverse before.now) (Worker number) what.now) clauses ≡ None
            → Judges policy.now script.now (reverse before.now) (ev (Worker number) what.now) found self.new) }
    {
        let worker = usize::from(number);
        if is_effect(what) {
            self.note_effect(policy, before.len(), worker, what)?;
            return Ok(None);
        }
        if let What::Send { id, back, answer } = what {
            self.send(before, worker, *id, back, answer)?;
            return Ok(None);
        }
        let left = self.take_of_worker(before.len(), script, holder, number, what)?;
        Ok(unanswered(left))
    }

    /// The fault of a worker's event that breaks this clause: what breaks the order alone is as grave as what it breaks besides, and an
    /// effect that failed breaks the order alone.
    fn fault(
        &self,
        policy: &Policy,
        script: &Script,
        before: &[Event],
        worker: usize,
        what: &What,
        clause: Clause,
    ) -> Result<Fault, NoMemory>
        requires within { IsWithin self.now }
        requires among { AreAmong (length before.now) self.now }
        requires times { HasTimes policy.now self.now }
        requires worker { worker < 17 }
        ensures clause { IfOk result (λ fault. fault.clause ≡ clause) }
        ensures class { IfOk result (λ fault. Stands policy.now script.now (reverse before.now) self.now
            → fault.class ≡ class_at policy.now script.now (reverse before.now) (ev (Worker worker) what.now) clause) }
        ensures call { IfOk result (λ fault. (K : List EventValue) → Stands policy.now script.now K self.now
            → place_of_call K fault.call ≡ session_call K worker) }
    {
        let later = broken_later(self, policy, script, before, worker, what)?;
        let class = lessened(graver(class_of(clause), later), did_nothing(what));
        let seat = &self.seats[worker];
        Ok(Fault {
            clause,
            class,
            call: seat.call,
        })
    }

    /// The first clause of an effect or an answer that a worker's event breaks.
    fn broken(
        &self,
        policy: &Policy,
        script: &Script,
        before: &[Event],
        worker: usize,
        what: &What,
    ) -> Result<Option<Clause>, NoMemory>
        requires within { IsWithin self.now }
        requires among { AreAmong (length before.now) self.now }
        requires times { HasTimes policy.now self.now }
        requires worker { worker < 17 }
        ensures { IfOk result (λ found. Stands policy.now script.now (reverse before.now) self.now
            → found
            ≡ first_broken (λ clause. breaks_by policy.now script.now clause (reverse before.now) (Worker worker) what.now) clauses) }
    {
        if is_effect(what) {
            return broken_by_effect(self, policy, script, before, worker, what);
        }
        match what {
            What::Send { id, back, answer } => {
                broken_by_answer(self, policy, before, worker, *id, back, answer)
            }
            _ => Ok(None),
        }
    }
}

/// A class, or what is broken besides where that is the order alone.
fn graver(class: Class, later: Option<Clause>) -> Class
    ensures { result ≡ graver class later }
{
    match class {
        Class::Order => match later {
            Some(clause) => class_of(clause),
            None => class,
        },
        Class::Harm | Class::Answer => class,
    }
}

/// The order alone, where an effect did nothing, in place of harm.
fn lessened(class: Class, did_nothing: bool) -> Class
    ensures { result ≡ lessened class did_nothing }
{
    match class {
        Class::Harm => { if did_nothing { Class::Order } else { class } }
        Class::Order | Class::Answer => class,
    }
}

/// Whether it is an effect that failed.
fn did_nothing(what: &What) -> bool
    ensures { result ≡ did_nothing what.now }
{
    match what {
        What::Act { answer, .. } | What::Plant { answer, .. } | What::AddfdPut { answer, .. } => {
            answer.is_err()
        }
        _ => false,
    }
}

/// The fault of leaving this call to nobody.
fn unanswered(left: Option<usize>) -> Option<Fault>
    ensures { result ≡ option_map (λ call. record { clause = Unanswered; class = class_of Unanswered; call = Some call }) left }
{
    match left {
        Some(call) => Some(Fault {
            clause: Clause::Unanswered,
            class: class_of(Clause::Unanswered),
            call: Some(call),
        }),
        None => None,
    }
}

//! A kernel and its workers, which have their turns round the circle.

ghost use Rattle.std.specs.Prelude.{◌≡◌, ◌<◌, ◌≤◌, ◌^◌, ◌++◌, ◌∷◌, [], ℕ, List, length, true, false, IfOk, OnOk};
ghost use Rattle.hist_model.specs.Legal.{started};
ghost use Rattle.hist_model.specs.declared.event.Actor.TheVariants.{Listener, Task, Worker};
ghost use Rattle.hist_model.specs.declared.event.What.TheVariants.{Close};
ghost use Rattle.hist_model.specs.Look.{ev};
ghost use Rattle.hist_model.specs.declared.event.Event.{Event};
ghost use Rattle.hist_model.specs.declared.policy.Policy.{Policy as PolicyValue};
ghost use Rattle.history_frames.specs.Ordinals.{task_name_of, tasks_made};
ghost use Rattle.model_kernel.specs.Kernels.{IsKernel};
ghost use Rattle.outcome_text.specs.Sight.{hidden};
ghost use Rattle.delay_bounded.specs.Circle.{at_place, is_able, places, with_turn};

use crate::hands::Hands;
use crate::marks::Marks;
use crate::session_key::push_session;
use broker_machine::{Machine, is_task_name};
use hist_model::event::What;
use hist_model::history::History;
use hist_model::policy::Policy;
use hist_model::script::Script;
use key_bytes::{push_flag, push_number};
use outcome_lines::{lines_of, write_key};
use std::alloc::Global;
use sys_abi::memory::NoMemory;

/// A machine, which of its workers have a notification in hand, and the marks of what they did.
pub(crate) struct Run {
    machine: Machine,
    hands: Hands,
    marks: Marks,
}

/// A turn that was found.
#[derive(Clone, Copy, Drop, Debug)]
pub(crate) struct Turn {
    /// The place of the actor that had it.
    pub(crate) place: usize,
    /// How many places were tried.
    pub(crate) next: usize,
}

impl Drop for Run {
    fn drop(self) {
        let Run {
            machine: _machine,
            hands: _hands,
            marks: _marks,
        } = self;
    }
}

/// The newest step of a history.
fn newest(history: &History) -> &What
    requires { 0 < length history.now.events }
    ensures { (e : Event) (K : List Event) → history.now.events ≡ e ∷ K → result.now ≡ e.what }
{
    match history.get(history.len() - 1) {
        Some(event) => &event.what,
        None => unreachable!(),
    }
}

impl Run {
    ghost use Rattle.explorer.specs.Keys.{key_of, session_part, sessions_part};
    ghost use Rattle.explorer.specs.Runs.{Comes, Finds, IsGoing, IsRun, Tries, able_in, script_in, story};

    /// The start of a script.
    pub(crate) fn begin(alloc: Global, script: Script) -> Result<Run, NoMemory>
        ensures { IfOk result (λ r. (P : PolicyValue) → IsRun P script (started script) r) }
    {
        Ok(Run {
            machine: Machine::new(alloc, script)?,
            hands: Hands::empty(),
            marks: Marks::none(alloc)?,
        })
    }

    /// A step of the task of an ordinal, if it is able to step; says whether it made one.
    fn try_task(&mut self, alloc: Global, policy: &Policy, task: u32) -> Result<bool, NoMemory>
        requires going { IsGoing policy.now self.old }
        requires made { task < tasks_made (story self.old) }
        ensures { IfOk result (λ stepped. Tries policy.now self.old (Task (task_name_of (story self.old) task)) stepped self.new) }
    {
        if is_task_name(self.machine.kernel().name_of(task)) {
            let stepped = self.machine.try_task(alloc, policy, task)?;
            Ok(stepped)
        } else {
            Ok(false)
        }
    }

    /// A step of a worker, if it is able to step; says whether it made one.
    fn try_worker(&mut self, alloc: Global, policy: &Policy, worker: u8) -> Result<bool, NoMemory>
        requires going { IsGoing policy.now self.old }
        requires worker { worker < 16 }
        ensures { IfOk result (λ stepped. Tries policy.now self.old (Worker worker) stepped self.new) }
    {
        if !self.hands.may_step(worker) {
            return Ok(false);
        }
        let stepped = self.machine.try_worker(alloc, policy, worker)?;
        if !stepped {
            return Ok(false);
        }
        let what = newest(self.machine.history());
        self.hands.note(worker, what);
        self.marks.mark(self.machine.kernel(), worker, what)?;
        Ok(true)
    }

    /// How many actors stand in the circle.
    fn places(&self, workers: u8) -> usize
        requires { IsKernel self.now.machine.kernel }
        ensures { result ≡ places workers (story self.now) }
    {
        self.machine.kernel().tasks() + (usize::from(workers) + 1)
    }

    /// A step of the actor at a place, if it is able to step; says whether it made one.
    fn try_place(&mut self, alloc: Global, policy: &Policy, place: usize) -> Result<bool, NoMemory>
        requires going { IsGoing policy.now self.old }
        requires inside { place < places 15 (story self.old) }
        ensures { IfOk result (λ stepped. Tries policy.now self.old (at_place (story self.old) place) stepped self.new) }
    {
        let tasks = self.machine.kernel().tasks();
        if place < tasks {
            self.try_task(alloc, policy, place as u32)
        } else {
            self.try_worker(alloc, policy, (place - tasks) as u8)
        }
    }

    /// The turn of the next actor that is able to step, where some places from that of the actor that stepped last on were tried.
    pub(crate) fn next_turn(
        &mut self,
        alloc: Global,
        policy: &Policy,
        workers: u8,
        last: usize,
        tried: usize,
    ) -> Result<Option<Turn>, NoMemory>
        requires going { IsGoing policy.now self.old }
        requires workers { workers ≤ 15 }
        requires inside { last < places workers (story self.old) }
        ensures { IfOk result (λ turn. Finds policy.now workers self.old last tried turn self.new) }
    {
        let places = self.places(workers);
        for index in tried..places {
            let place = (last + index) % places;
            if self.try_place(alloc, policy, place)? {
                return Ok(Some(Turn {
                    place,
                    next: index + 1,
                }));
            }
        }
        Ok(None)
    }

    /// The turn of the actor at a place, which is able to step.
    pub(crate) fn turn(
        &mut self,
        alloc: Global,
        policy: &Policy,
        place: usize,
    ) -> Result<(), NoMemory>
        requires going { IsGoing policy.now self.old }
        requires inside { place < places 15 (story self.old) }
        requires able { is_able policy.now (script_in self.old) (story self.old) (at_place (story self.old) place) ≡ true }
        ensures { OnOk result (Comes policy.now self.old (with_turn policy.now (script_in self.old) (story self.old) place) self.new) }
    {
        let _ = self.try_place(alloc, policy, place)?;
        Ok(())
    }

    /// Whether a worker may be able to step, told without a step: whether it may step, and finds something where it would receive.
    fn worker_may_be_able(&self, worker: u8) -> bool
        requires worker { worker < 16 }
        ensures { (P : PolicyValue) → IsGoing P self.now → result ≡ false → is_able P (script_in self.now) (story self.now) (Worker worker) ≡ false }
    {
        if !self.hands.may_step(worker) {
            return false;
        }
        if self.hands.is_full(worker) {
            return true;
        }
        self.machine.kernel().request_count() > 0
    }

    /// Whether the actor at a place may be able to step, told without a step; of a task it is told whether it can.
    fn may_be_able(&self, place: usize) -> bool
        requires going { (P : PolicyValue) × IsGoing P self.now }
        requires inside { place < places 15 (story self.now) }
        ensures { (P : PolicyValue) → IsGoing P self.now → result ≡ false → is_able P (script_in self.now) (story self.now) (at_place (story self.now) place) ≡ false }
    {
        let tasks = self.machine.kernel().tasks();
        if place < tasks {
            self.machine.kernel().can_step(place as u32)
        } else {
            self.worker_may_be_able((place - tasks) as u8)
        }
    }

    /// No place from this one on is that of an actor that is able to step, where the actor at a place stepped last.
    pub(crate) fn end_of_able(&self, workers: u8, last: usize) -> usize
        requires going { (P : PolicyValue) × IsGoing P self.now }
        requires workers { workers ≤ 15 }
        requires inside { last < places workers (story self.now) }
        ensures { (P : PolicyValue) → IsGoing P self.now → able_in P workers self.now last result ≡ [] }
    {
        let places = self.places(workers);
        let mut end = places;
        'places: while end > 0 {
            if self.may_be_able((last + (end - 1)) % places) {
                return end;
            }
            end -= 1;
        }
        0
    }

    /// Adds what a worker was told, if it has a notification in hand.
    fn push_session(&self, key: &mut Vec<u8>, worker: u8) -> Result<(), NoMemory>
        requires going { (P : PolicyValue) × IsGoing P self.now }
        requires worker { worker < 16 }
        ensures { OnOk result (key.new.items ≡ key.old.items ++ session_part (story self.now) worker) }
    {
        if !self.hands.is_full(worker) {
            return push_flag(key, false);
        }
        push_flag(key, true)?;
        push_session(key, self.machine.history().events(), worker)
    }

    /// Adds what the workers that have a notification in hand were told.
    fn push_sessions(&self, key: &mut Vec<u8>) -> Result<(), NoMemory>
        requires going { (P : PolicyValue) × IsGoing P self.now }
        ensures { OnOk result (key.new.items ≡ key.old.items ++ sessions_part (story self.now)) }
    {
        for worker in 0..16u8 {
            self.push_session(key, worker)?;
        }
        Ok(())
    }

    /// The key of what has happened, where the actor at a place stepped last: equal ones are of histories after which all goes on
    /// alike, and which come to the same.
    pub(crate) fn key(
        &self,
        alloc: Global,
        policy: &Policy,
        last: usize,
    ) -> Result<Vec<u8>, NoMemory>
        requires going { IsGoing policy.now self.now }
        ensures { IfOk result (λ key. key.items ≡ key_of policy.now last self.now) }
    {
        let mut key = Vec::with_capacity(alloc, 2048)?;
        push_number(&mut key, last as u64)?;
        self.machine.kernel().write_key(&mut key)?;
        self.push_sessions(&mut key)?;
        let lines = lines_of(alloc, policy, self.machine.history(), self.marks.list())?;
        write_key(&mut key, lines.as_slice())?;
        Ok(key)
    }

    /// A run has fewer events than can be counted.
    pub(crate) fn has_few_events(&self)
        ensures { length (story self.now) < 2 ^ 62 }
    {
        self.machine.kernel().has_few_events();
    }

    /// The places of the effects that a later one took from sight.
    pub(crate) fn hidden(&self, alloc: Global) -> Result<Vec<usize>, NoMemory>
        requires going { (P : PolicyValue) × IsGoing P self.now }
        ensures { IfOk result (λ places. places.items ≡ hidden (script_in self.now) (story self.now)) }
    {
        self.marks.hidden(alloc, self.machine.kernel())
    }

    /// The script, and the history with the close of the listener at its end.
    pub(crate) fn closed(self) -> Result<(Script, History), NoMemory>
        ensures script { IfOk result (λ ended. ended.0 ≡ script_in self) }
        ensures events { IfOk result (λ ended. ended.1.events ≡ ev Listener Close ∷ story self) }
    {
        let Run {
            machine,
            hands: _hands,
            marks: _marks,
        } = self;
        machine.closed()
    }
}

//! The events of tasks, as they are taken.

ghost use Rattle.std.specs.Prelude.{◌≡◌, ◌<◌, ◌≤◌, ◌+◌, ◌^◌, ◌∷◌, ℕ, List, true, false, Some, Ok, OnOk, IfOk, IfSome, is_some, is_ok, length, get_or};
ghost use Rattle.hist_model.specs.Kinds.{is_install, leaves, makes, notifies};
ghost use Rattle.hist_model.specs.declared.event.Event.{Event};
ghost use Rattle.hist_model.specs.declared.event.SpawnKind.TheVariants.{Copied, New, Shared};
ghost use Rattle.hist_model.specs.declared.event.What.TheVariants.{Enter, Install, Native, Spawn};
ghost use Rattle.hist_model.specs.Look.{Name};
ghost use Rattle.hist_model.specs.declared.event.Entered.TheVariants.{Notify};
ghost use Rattle.hist_model.specs.declared.event.Entered.{Entered as EnteredValue};
ghost use Rattle.hist_model.specs.declared.policy.Policy.{Policy as PolicyValue};
ghost use Rattle.hist_model.specs.declared.script.Script.{Script as ScriptValue};
ghost use Rattle.broker_verdict.specs.Seats.{of_call};
ghost use Rattle.broker_verdict.specs.Trusted.{is_left, leaves_unanswered};
ghost use Rattle.broker_verdict.specs.declared.clause.Clause.TheVariants.{Unanswered};
ghost use Rattle.judge_pass.specs.Opened.{HasOpened};
ghost use Rattle.judge_pass.specs.Stands.{IsHistory, place_of_call, Stands};
ghost use Rattle.judge_pass.specs.Tables.{AreMade, holds_call, row_named};
ghost use Rattle.judge_pass.specs.Takes.{Installs, IsOf, IsStepOf, Spawns, Takes, with_file};
ghost use Rattle.judge_pass.specs.declared.task_table.Task.{Task as TaskValue};
ghost use Rattle.judge_pass.specs.Within.{calls_kept, IsWithin, tasks_kept};

use crate::calls::Call;
use crate::judge::Judge;
use crate::task_table::{Entry, Task};
use broker_judge::called::Called;
use hist_model::event::{Entered, SpawnKind, What};
use hist_model::request::NodeRef;
use sys_abi::errno::Errno;
use sys_abi::memory::NoMemory;

impl Judge {
    /// Adds a task with a group of its own, in which nothing is open but the console.
    pub(crate) fn add_new(&mut self) -> Result<(), NoMemory>
        requires few { self.old.groups + 1 < 2 ^ 32 }
        ensures { OnOk result (Takes self.old self.new (λ S K e. Spawns New e)) }
    {
        let group = self.groups;
        self.groups += 1;
        self.tasks.push(Task::new(self.alloc, group))?;
        Ok(())
    }

    /// Adds a task that shares its parent's group.
    fn add_shared(&mut self, parent: usize) -> Result<(), NoMemory>
        requires task { parent < tasks_kept self.old }
        ensures { OnOk result (Takes self.old self.new (λ S K e. IsOf parent K e × Spawns Shared e)) }
    {
        let group = self.tasks[parent].group;
        self.tasks.push(Task::new(self.alloc, group))?;
        Ok(())
    }

    /// Adds a task with a copy of its parent's group.
    fn add_copied(&mut self, parent: usize) -> Result<(), NoMemory>
        requires within { IsWithin self.old }
        requires task { parent < tasks_kept self.old }
        requires few { self.old.groups + 1 < 2 ^ 32 }
        requires made { AreMade self.old.groups self.old.directories.rows.items }
        ensures { OnOk result (Takes self.old self.new (λ S K e. IsOf parent K e × Spawns Copied e)) }
    {
        let from = self.tasks[parent].group;
        let group = self.groups;
        self.groups += 1;
        self.directories.copy_group(from, group)?;
        self.tasks.push(Task::new(self.alloc, group))?;
        Ok(())
    }

    /// A task enters a call that isn't listed.
    fn enter(&mut self, task: usize, nr: i32, args: &[u64; 6])
        requires task { task < tasks_kept self.old }
        ensures { (entered : EnteredValue) → notifies (Enter nr args.now entered) ≡ false → Takes self.old self.new (λ S K e. IsStepOf task (Enter nr args.now entered) K e) }
    {
        self.tasks[task].entered = Entry::of(nr, args[0]);
    }

    /// A task enters a listed call, with this id.
    fn enter_listed(
        &mut self,
        place: usize,
        task: u32,
        id: u64,
        nr: i32,
        args: &[u64; 6],
    ) -> Result<(), NoMemory>
        requires task { task < tasks_kept self.old }
        ensures { OnOk result (Takes self.old self.new (λ S K e. IsStepOf task (Enter nr args.now (Notify id)) K e × (length K ≡ place))) }
    {
        let call = self.calls.enter(Call {
            place,
            caller: task,
            called: Called {
                id,
                nr,
                args: *args,
            },
            is_listed: true,
            is_settled: false,
            fetcher: None,
            queue: Vec::new(self.alloc),
        })?;
        let row = &mut self.tasks[task as usize];
        row.entered = Entry::of(nr, args[0]);
        row.call = Some(call);
        Ok(())
    }

    /// A task leaves its call, if it is in one.
    fn leave(&mut self, task: usize)
        requires within { IsWithin self.old }
        requires task { task < tasks_kept self.old }
        ensures { Takes self.old self.new (λ S K e. IsOf task K e × (leaves e.what ≡ true)) }
    {
        if let Some(call) = self.tasks[task].call {
            self.calls.rows[call].is_listed = false;
            self.tasks[task].call = None;
        }
    }

    /// A native call of a task has succeeded, and given this number.
    fn run_native(
        &mut self,
        task: usize,
        number: u32,
        opened: Option<NodeRef>,
    ) -> Result<(), NoMemory>
        requires task { task < tasks_kept self.old }
        ensures { OnOk result (Takes self.old self.new (λ S K e. IsStepOf task (Native (Ok number)) K e × HasOpened S K e opened)) }
    {
        let group = self.tasks[task].group;
        match self.tasks[task].entered {
            Entry::Opens => {
                self.directories.set(group, number, opened)?;
                Ok(())
            }
            Entry::Closes(number) => {
                self.directories.set(group, number, None)?;
                Ok(())
            }
            Entry::Other => Ok(()),
        }
    }

    /// Takes an event of a task: the call that it leaves to nobody. `opened` is the directory to which the number leads that the event
    /// has opened, if it has opened one.
    pub(crate) fn take_of_task(
        &mut self,
        place: usize,
        task: u32,
        what: &What,
        opened: Option<NodeRef>,
    ) -> Result<Option<usize>, NoMemory>
        requires within { IsWithin self.old }
        requires task { task < tasks_kept self.old }
        requires few { makes what.now ≡ true → self.old.groups + 1 < 2 ^ 32 }
        requires made { AreMade self.old.groups self.old.directories.rows.items }
        ensures stands { IfOk result (λ left. Takes self.old self.new (λ S K e. IsStepOf task what.now K e × (length K ≡ place) × HasOpened S K e opened)) }
        ensures left { IfOk result (λ left. (P : PolicyValue) (S : ScriptValue) (K : List Event) (e : Event) → Stands P S K self.old → IsHistory S (e ∷ K) → IsStepOf task what.now K e
            → is_some left ≡ leaves_unanswered Unanswered K e) }
    {
        if let What::Install { answer } = what {
            return self.install(task as usize, answer);
        }
        self.note_step(place, task, what, opened)?;
        Ok(None)
    }

    /// Takes an event of a task that is no installation.
    fn note_step(
        &mut self,
        place: usize,
        task: u32,
        what: &What,
        opened: Option<NodeRef>,
    ) -> Result<(), NoMemory>
        requires within { IsWithin self.old }
        requires task { task < tasks_kept self.old }
        requires few { makes what.now ≡ true → self.old.groups + 1 < 2 ^ 32 }
        requires made { AreMade self.old.groups self.old.directories.rows.items }
        requires no_install { is_install what.now ≡ false }
        ensures { OnOk result (Takes self.old self.new (λ S K e. IsStepOf task what.now K e × (length K ≡ place) × HasOpened S K e opened)) }
    {
        match what {
            What::Spawn { answer, .. } => self.note_spawn(task as usize, answer),
            What::Enter { nr, args, verdict } => self.note_entry(place, task, *nr, args, *verdict),
            What::Resume { .. } | What::Deliver { .. } => {
                self.leave(task as usize);
                Ok(())
            }
            What::Native { answer } => self.note_native(task as usize, answer, opened),
            _ => Ok(()),
        }
    }

    /// A task makes another one, or is answered why it can't.
    fn note_spawn(
        &mut self,
        parent: usize,
        answer: &Result<(u32, SpawnKind), Errno>,
    ) -> Result<(), NoMemory>
        requires within { IsWithin self.old }
        requires task { parent < tasks_kept self.old }
        requires few { is_ok answer.now ≡ true → self.old.groups + 1 < 2 ^ 32 }
        requires made { AreMade self.old.groups self.old.directories.rows.items }
        ensures { OnOk result (Takes self.old self.new (λ S K e. IsOf parent K e × ((child : Name) × (e.what ≡ Spawn child answer.now)))) }
    {
        match answer {
            Ok((_pid, kind)) => self.add_task(parent, *kind),
            Err(_) => Ok(()),
        }
    }

    /// A native call of a task has this answer.
    fn note_native(
        &mut self,
        task: usize,
        answer: &Result<u32, Errno>,
        opened: Option<NodeRef>,
    ) -> Result<(), NoMemory>
        requires task { task < tasks_kept self.old }
        ensures { OnOk result (Takes self.old self.new (λ S K e. IsStepOf task (Native answer.now) K e × HasOpened S K e opened)) }
    {
        match answer {
            Ok(number) => self.run_native(task, *number, opened),
            Err(_) => Ok(()),
        }
    }

    /// Adds a task, whose group is of this kind.
    fn add_task(&mut self, parent: usize, kind: SpawnKind) -> Result<(), NoMemory>
        requires within { IsWithin self.old }
        requires task { parent < tasks_kept self.old }
        requires few { self.old.groups + 1 < 2 ^ 32 }
        requires made { AreMade self.old.groups self.old.directories.rows.items }
        ensures { OnOk result (Takes self.old self.new (λ S K e. IsOf parent K e × Spawns kind e)) }
    {
        match kind {
            SpawnKind::New => self.add_new(),
            SpawnKind::Shared => self.add_shared(parent),
            SpawnKind::Copied => self.add_copied(parent),
        }
    }

    /// A task enters a call.
    fn note_entry(
        &mut self,
        place: usize,
        task: u32,
        nr: i32,
        args: &[u64; 6],
        verdict: Entered,
    ) -> Result<(), NoMemory>
        requires task { task < tasks_kept self.old }
        ensures { OnOk result (Takes self.old self.new (λ S K e. IsStepOf task (Enter nr args.now verdict) K e × (length K ≡ place))) }
    {
        match verdict {
            Entered::Notify { id } => self.enter_listed(place, task, id, nr, args),
            _ => {
                self.enter(task as usize, nr, args);
                Ok(())
            }
        }
    }

    /// A task installs the oldest request of its call: the call, if that leaves it to nobody.
    fn install(
        &mut self,
        task: usize,
        answer: &Result<u32, Errno>,
    ) -> Result<Option<usize>, NoMemory>
        requires within { IsWithin self.old }
        requires task { task < tasks_kept self.old }
        ensures stands { IfOk result (λ left. Takes self.old self.new (λ S K e. IsStepOf task (Install answer.now) K e)) }
        ensures left { IfOk result (λ left. (P : PolicyValue) (S : ScriptValue) (K : List Event) (e : Event) → Stands P S K self.old → IsHistory S (e ∷ K) → IsStepOf task (Install answer.now) K e
            → is_some left ≡ leaves_unanswered Unanswered K e) }
    {
        let call = self.tasks[task].call;
        self.note_installed(task, answer)?;
        Ok(self.left(call))
    }

    /// A task installs the oldest request of its call: what comes of that is noted.
    fn note_installed(&mut self, task: usize, answer: &Result<u32, Errno>) -> Result<(), NoMemory>
        requires within { IsWithin self.old }
        requires task { task < tasks_kept self.old }
        ensures stands { OnOk result (Takes self.old self.new (λ S K e. IsStepOf task (Install answer.now) K e)) }
        ensures within { OnOk result (IsWithin self.new) }
        ensures calls { OnOk result (calls_kept self.new ≡ calls_kept self.old) }
    {
        let call = self.tasks[task].call;
        self.note_file(task, answer)?;
        if let Some(call) = call {
            self.note_answered(call, answer);
        }
        Ok(())
    }

    /// A number of a task's group leads to no directory, where a file was installed at it.
    fn note_file(&mut self, task: usize, answer: &Result<u32, Errno>) -> Result<(), NoMemory>
        requires task { task < tasks_kept self.old }
        ensures rows { OnOk result ((d : TaskValue) (g n : ℕ) → row_named self.new.directories.rows.items g n ≡ with_file answer.now (get_or self.old.tasks.items task d).group self.old.directories.rows.items g n) }
        ensures made { OnOk result ((d : TaskValue) (groups : ℕ) → (get_or self.old.tasks.items task d).group < groups → AreMade groups self.old.directories.rows.items → AreMade groups self.new.directories.rows.items) }
        ensures same { self.new ≡ record self.old { directories = self.new.directories } }
    {
        match answer {
            Ok(number) => {
                let group = self.tasks[task].group;
                self.directories.set(group, *number, None)
            }
            Err(_) => Ok(()),
        }
    }

    /// The oldest request of a call has this answer.
    fn note_answered(&mut self, call: usize, answer: &Result<u32, Errno>)
        requires within { IsWithin self.old }
        requires call { call < calls_kept self.old }
        ensures { Installs call answer.now self.old self.new }
    {
        if let Some(effect) = self.calls.rows[call].install(answer.is_ok()) {
            self.done[effect].install(answer);
        }
    }

    /// The call, where it waits and no seat has it in hand.
    pub(crate) fn left(&self, call: Option<usize>) -> Option<usize>
        requires within { IsWithin self.now }
        requires call { IfSome call (λ k. k < calls_kept self.now) }
        ensures { (P : PolicyValue) (S : ScriptValue) (K : List Event) → Stands P S K self.now → is_some result ≡ of_call (place_of_call K call) (is_left K) }
    {
        match call {
            Some(call) => { if self.is_left(call) { Some(call) } else { None } }
            None => None,
        }
    }

    /// Whether a call waits, and no seat has it in hand.
    fn is_left(&self, call: usize) -> bool
        requires within { IsWithin self.now }
        requires call { call < calls_kept self.now }
        ensures { (P : PolicyValue) (S : ScriptValue) (K : List Event) (c : ℕ) → Stands P S K self.now → place_of_call K (Some call) ≡ Some c → result ≡ is_left K c }
    {
        let row = &self.calls.rows[call];
        row.is_waiting() && !self.is_held(row.fetcher, call)
    }

    /// Whether the seat of a worker has a call in hand.
    fn is_held(&self, worker: Option<u8>, call: usize) -> bool
        requires seats { length self.now.seats.items ≡ 17 }
        requires worker { IfSome worker (λ w. w ≤ 16) }
        ensures { result ≡ holds_call self.now.seats.items worker call }
    {
        match worker {
            Some(worker) => self.seats[usize::from(worker)].call == Some(call),
            None => false,
        }
    }
}

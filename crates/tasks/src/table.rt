//! The table of the tasks.

ghost use Rattle.std.specs.Prelude.{◌≡◌, ◌↔◌, ℕ, ◌+◌, ◌-◌, ◌<◌, ◌≤◌, ◌^◌, List, [], ◌∷◌, ◌++◌, length, map, set, Option, Some, None, Ok, Err, IfOk, OnOk, IfSome, IfNone, IsOk, IsSome, is_some, Bool, true, false, ◌&&◌, not, slice_get, slice_index_or, vec_len, vec_capacity};
ghost use Rattle.std.specs.Option.{option_copied};
ghost use Rattle.hist_model.specs.Kinds.{exits, skips};
ghost use Rattle.hist_model.specs.Legal.{system_of};
ghost use Rattle.hist_model.specs.Look.{Name, event_at, oldest};
ghost use Rattle.hist_model.specs.Memory.{last_call};
ghost use Rattle.hist_model.specs.Programs.{program_at};
ghost use Rattle.hist_model.specs.Signals.{call_of, next_signal, held as held_back};
ghost use Rattle.hist_model.specs.Steps.{found, is_child, is_ended_child, next_child, next_instr, owes_native, pid_named, signalled, spawn_answer, start, wait_step};
ghost use Rattle.hist_model.specs.Tasks.{ended, free_from, holder, is_made, next_pid};
ghost use Rattle.hist_model.specs.declared.event.Event.{Event};
ghost use Rattle.hist_model.specs.declared.event.What.TheVariants.{Handler, Signal, Spawn};
ghost use Rattle.hist_model.specs.declared.script.Script.{Script};
ghost use Rattle.hist_model.specs.declared.script.Whom.TheVariants.{Parent};
ghost use Rattle.history_frames.specs.Ordinals.{tasks_made, task_name_of};
ghost use Rattle.sys_abi.specs.Memory.{was_refused};
ghost use Rattle.tasks.specs.Fold.{IsEntry, IsGroupOf, call_id};
ghost use Rattle.tasks.specs.Keys.{table_part};
ghost use Rattle.tasks.specs.Sets.{may_come, next_of};
ghost use Rattle.tasks.specs.Sound.{IsStepOf, keeps_tasks};
ghost use Rattle.tasks.specs.State.{is_reaped};
ghost use Rattle.tasks.specs.Stands.{HasEntryRoom, HasNumber, HasRoom, IsEnteredAt, IsHolder, IsReap, IsSpawn, SameTasks, StandsFor, delivery, effect_of, ended_at, group_at, living as living_tasks, living_in, name_at, one_ended, one_if, one_made, step_of};
ghost use Rattle.tasks.specs.Table.{IsAdded, IsChildAdded, IsEndedAt, IsNoted, IsWritten, Member, lives_at, marked, member, next_name, row_in, table_of, task_at, waited_for, with_entry, with_progress, with_task, without_waiting};

use crate::index::Entry;
use crate::keys::push_task;
use crate::row::{EnteredCall, Progress, Task};
use crate::signals::BySignal;
use hist_model::event::{Delivered, Disposition, SpawnKind, What};
use hist_model::script::{Instr, Script, Whom};
use hist_model::text::TaskName;
use key_bytes::push_number;
use sorted_list::{find, set};
use std::alloc::Global;
use std::mem;
use sys_abi::errno::Errno;
use sys_abi::memory::{NoMemory, OrNoMemory};
use sys_abi::signals::{SIGKILL, SIGTERM, SIGUSR1, SIGUSR2};
use thiserror::Error;

/// Every PID is held (fork(2), EAGAIN).
#[derive(Clone, Copy, PartialEq, Eq, Debug, Error)]
#[error("no free PID")]
pub struct NoPid;

/// The tasks of a kernel, by their ordinals: the n-th task that was made has the ordinal n, from 0.
pub struct Tasks {
    tasks: Vec<Task>,
    /// The task that was given each PID last, by PID.
    pids: Vec<Entry>,
    base: u32,
    /// The greatest PID.
    top: u32,
    /// The PID that was given last.
    last: u32,
    /// How many tasks haven't ended.
    living: u64,
    /// Room for the name of the next task.
    spare: Vec<u32>,
    alloc: Global,
}

// (written out, so that what letting one go comes to is proved here once, and not in each crate that owns one)
impl Drop for Tasks {
    fn drop(self) {
        let Tasks {
            tasks: _tasks,
            pids: _pids,
            base: _base,
            top: _top,
            last: _last,
            living: _living,
            spare: _spare,
            alloc: _alloc,
        } = self;
    }
}

/// The instruction at a place of a program.
fn instr_at<'a>(script: &'a Script, program: u32, place: usize) -> Option<&'a Instr>
    ensures { option_copied result ≡ slice_get (program_at script.now.programs (Some program)) place }
{
    let program = script.programs.items().get(program as usize)?;
    program.items().get(place)
}

/// What a signal does to a task with this disposition for it, which waits in a listed call or doesn't (signal(7)).
fn effect_of(in_call: bool, sig: u8, disposition: Disposition) -> Delivered
    ensures { result ≡ effect_of in_call sig disposition }
{
    if sig == SIGKILL {
        return Delivered::End;
    }
    match disposition {
        Disposition::Default => Delivered::End,
        Disposition::Restart if in_call => Delivered::Restart,
        Disposition::Plain if in_call => Delivered::Eintr,
        _ => Delivered::Run,
    }
}

/// A signal of this disposition may be delivered now: no signal is held back, or this one ends the task.
fn may_come(disposition: Disposition, held: bool) -> bool
    ensures { result ≡ may_come disposition held }
{
    !held || disposition == Disposition::Default
}

/// The signal that is delivered next to a task, and its disposition: SIGKILL if it is pending, else the smallest one that is
/// pending and not held back.
fn next_due(
    pending: &BySignal<bool>,
    dispositions: &BySignal<Disposition>,
    held: bool,
) -> Option<(u8, Disposition)>
    ensures { result ≡ next_of pending.now dispositions.now held }
{
    if pending.kill {
        Some((SIGKILL, dispositions.kill))
    } else if pending.usr1 && may_come(dispositions.usr1, held) {
        Some((SIGUSR1, dispositions.usr1))
    } else if pending.usr2 && may_come(dispositions.usr2, held) {
        Some((SIGUSR2, dispositions.usr2))
    } else if pending.term && may_come(dispositions.term, held) {
        Some((SIGTERM, dispositions.term))
    } else {
        None
    }
}

impl Tasks {
    /// Adds the key of this table: only tables that are the same state have equal ones. Fails for want of memory alone; then a front of
    /// the key was added.
    pub fn write_key(&self, key: &mut Vec<u8>) -> Result<(), NoMemory>
        ensures { OnOk result (key.new.items ≡ key.old.items ++ table_part self.now) }
    {
        push_number(key, u64::from(self.last))?;
        push_number(key, self.tasks.len() as u64)?;
        for task in &self.tasks {
            push_task(key, task)?;
        }
        Ok(())
    }

    /// No tasks, whose PIDs will be from `base + 1` to `base + pidmax`.
    pub fn new(alloc: Global, base: u32, pidmax: u32) -> Tasks
        requires { base + pidmax < 2 ^ 32 }
        ensures { (S : Script) → S.pidbase ≡ base → S.pidmax ≡ pidmax → StandsFor S [] result }
    {
        Tasks {
            tasks: Vec::new(alloc),
            pids: Vec::new(alloc),
            base,
            top: base + pidmax,
            last: base,
            living: 0,
            spare: Vec::new(alloc),
            alloc,
        }
    }

    /// The script's start: the first task, with this program, where there is none yet. It is refused where there are no
    /// PIDs at all.
    pub fn first(self, program: u32) -> Result<Tasks, OrNoMemory<NoPid>>
        ensures stands { IfOk result (λ tasks. (S : Script) → StandsFor S [] self → program ≡ length S.programs - 1 → StandsFor S (start (system_of S) ∷ []) tasks) }
        ensures count { IfOk result (λ tasks. (g : ℕ) → living_in tasks g ≡ living_in self g + one_if 0 g) }
        ensures no_pid { was_refused result ≡ true → (S : Script) → StandsFor S [] self → S.pidmax ≡ 0 }
    {
        let mut tasks = self;
        let Some(pid) = tasks.next_pid() else {
            return Err(OrNoMemory::Refused(NoPid));
        };
        let alloc = tasks.alloc;
        let name = TaskName::new(Vec::from_slice(alloc, &[0])?);
        tasks.pids.reserve(1)?;
        tasks.tasks.reserve(1)?;
        tasks.add(
            0,
            Task {
                name,
                pid,
                parent: None,
                children: Vec::new(alloc),
                waiting: Vec::new(alloc),
                progress: Progress::new(0, program, BySignal::all(Disposition::Default)),
            },
        );
        Ok(tasks)
    }

    /// Makes room for one more entry of a task, which is there, and for one more child that it may wait for.
    fn reserve_entry(&mut self, o: u32) -> Result<(), NoMemory>
        requires { o < vec_len self.old.tasks }
        ensures room { OnOk result (HasEntryRoom (slice_get self.new.tasks.items o)) }
        ensures had_room { HasEntryRoom (slice_get self.old.tasks.items o) → IsOk result }
        ensures same { SameTasks self.old self.new }
        ensures rest { (vec_len self.new.tasks ≡ vec_len self.old.tasks) × (vec_capacity self.new.tasks ≡ vec_capacity self.old.tasks) × (self.new.pids ≡ self.old.pids) × (self.new.spare ≡ self.old.spare) }
    {
        let task = &mut self.tasks[o as usize];
        task.children.reserve(1)?;
        task.waiting.reserve(1)?;
        Ok(())
    }

    /// Makes room for one `spawn` of a task, which then takes no memory. There is none for a task that wasn't made, for the
    /// 2^32-th task, nor for a task's 2^32-th child.
    pub fn ready(&mut self, o: u32) -> Result<(), NoMemory>
        ensures room { OnOk result (HasRoom self.new o) }
        ensures had_room { HasRoom self.old o → IsOk result }
        ensures same { SameTasks self.old self.new }
        ensures stands { (S : Script) (K : List Event) → StandsFor S K self.old ↔ StandsFor S K self.new }
        ensures count { (g : ℕ) → living_in self.new g ≡ living_in self.old g }
    {
        let most = u32::MAX as usize;
        let Some(task) = self.task(o) else {
            return Err(NoMemory);
        };
        let len = task.name.items().len();
        if self.tasks.len() >= most || task.children.len() >= most {
            return Err(NoMemory);
        }
        self.tasks.reserve(1)?;
        self.pids.reserve(1)?;
        self.spare.reserve(len + 1)?;
        self.reserve_entry(o)
    }

    /// How many tasks were made.
    pub fn made(&self) -> usize
        ensures { (S : Script) (K : List Event) → StandsFor S K self.now → result ≡ tasks_made K }
    {
        self.tasks.len()
    }

    /// The task of an ordinal.
    fn task(&self, o: u32) -> Option<&Task>
        ensures some { IfSome result (λ t. task_at (table_of self.now) o ≡ Some (member t.now)) }
        ensures none { IfNone result (task_at (table_of self.now) o ≡ None) }
    {
        self.tasks.get(o as usize)
    }

    /// The first task, if it was made and is called by this number.
    fn first_task(&self, number: u32) -> Option<u32>
        ensures some { IfSome result (λ o. (S : Script) (K : List Event) → StandsFor S K self.now → (o < tasks_made K) × (task_name_of K o ≡ number ∷ [])) }
        ensures none { IfNone result ((S : Script) (K : List Event) (rest : Name) → StandsFor S K self.now → is_made K (number ∷ rest) ≡ false) }
    {
        if number == 0 && !self.tasks.is_empty() {
            Some(0)
        } else {
            None
        }
    }

    /// A task's child of this number, from 1 on, if it was made.
    fn child(&self, o: u32, k: u32) -> Option<u32>
        ensures some { IfSome result (λ p. (S : Script) (K : List Event) → StandsFor S K self.now → o < tasks_made K → (p < tasks_made K) × (task_name_of K p ≡ task_name_of K o ++ k ∷ [])) }
        ensures none { IfNone result ((S : Script) (K : List Event) (rest : Name) → StandsFor S K self.now → o < tasks_made K → is_made K (task_name_of K o ++ k ∷ rest) ≡ false) }
    {
        let task = self.task(o)?;
        let place = k.checked_sub(1)?;
        match task.children.get(place as usize) {
            Some(entry) => *entry,
            None => None,
        }
    }

    /// The ordinal of the task of a name, if one was made: from the first task on along the children, one a number.
    pub fn find(&self, name: &[u32]) -> Option<u32>
        ensures some { IfSome result (λ o. (S : Script) (K : List Event) → StandsFor S K self.now → (o < tasks_made K) × (task_name_of K o ≡ name.now)) }
        ensures none { IfNone result ((S : Script) (K : List Event) → StandsFor S K self.now → is_made K name.now ≡ false) }
    {
        let (first, children) = name.split_first()?;
        let mut task = self.first_task(*first)?;
        for number in children {
            task = self.child(task, *number)?;
        }
        Some(task)
    }

    /// The name of a task; empty where no task has the ordinal.
    pub fn name(&self, o: u32) -> &[u32]
        ensures row { result.now ≡ name_at self.now o }
        ensures stands { (S : Script) (K : List Event) → StandsFor S K self.now → result.now ≡ task_name_of K o }
    {
        match self.task(o) {
            Some(task) => task.name.items(),
            None => &[],
        }
    }

    /// The PID that a task was given; 0 where no task has the ordinal.
    pub fn pid(&self, o: u32) -> u32
        ensures { (S : Script) (K : List Event) → StandsFor S K self.now → result ≡ pid_named K (task_name_of K o) }
    {
        match self.task(o) {
            Some(task) => task.pid,
            None => 0,
        }
    }

    /// The PID that a task's parent was given; 0 for a task without one.
    fn parent_pid(&self, o: u32) -> u32
        ensures { (S : Script) (K : List Event) → StandsFor S K self.now → o < tasks_made K → result ≡ signalled K (task_name_of K o) Parent }
    {
        match self.task(o) {
            Some(task) => match task.parent {
                Some(parent) => self.pid(parent),
                None => 0,
            },
            None => 0,
        }
    }

    /// The PID that a task's k-th child was given, from 1 on; 0 where that wasn't made.
    fn child_pid(&self, o: u32, k: u32) -> u32
        ensures { (S : Script) (K : List Event) → StandsFor S K self.now → o < tasks_made K → result ≡ pid_named K (task_name_of K o ++ k ∷ []) }
    {
        match self.child(o, k) {
            Some(child) => self.pid(child),
            None => 0,
        }
    }

    /// The PID for which a task's signal is meant (kill(2)); 0, which nobody holds, where no such task was made.
    pub fn signalled(&self, o: u32, whom: Whom) -> u32
        ensures { (S : Script) (K : List Event) → StandsFor S K self.now → o < tasks_made K → result ≡ signalled K (task_name_of K o) whom }
    {
        match whom {
            Whom::Own => self.pid(o),
            Whom::Parent => self.parent_pid(o),
            Whom::Child(k) => self.child_pid(o, k),
            Whom::Pid(pid) => pid,
        }
    }

    /// Whether a task is there and lives.
    fn lives(&self, o: Option<u32>) -> bool
        ensures { result ≡ lives_at (table_of self.now).tasks o }
    {
        match o {
            Some(o) => match self.task(o) {
                Some(task) => !task.progress.ended,
                None => false,
            },
            None => false,
        }
    }

    /// Whether a task, which is there, is reaped: its parent has waited for it, or it has ended and no parent can wait for it.
    fn is_reaped(&self, o: u32) -> bool
        ensures { (t : Member) → task_at (table_of self.now) o ≡ Some t → result ≡ is_reaped (row_in (table_of self.now).tasks t) }
    {
        match self.task(o) {
            Some(task) => {
                task.progress.waited || (task.progress.ended && !self.lives(task.parent))
            }
            None => false,
        }
    }

    /// The task that holds a PID: none exactly where nobody that isn't reaped was given it.
    pub fn holder(&self, pid: u32) -> Option<u32>
        ensures some { IfSome result (λ o. (S : Script) (K : List Event) → StandsFor S K self.now → IsHolder K pid o) }
        ensures none { IfNone result ((S : Script) (K : List Event) → StandsFor S K self.now → holder K pid ≡ None) }
    {
        let entry = find(&self.pids, pid as u64)?;
        if self.is_reaped(entry.task) {
            return None;
        }
        Some(entry.task)
    }

    /// The first PID above `below`, up to `last`, that nobody holds.
    fn free_pid(&self, below: u32, last: u32) -> Option<u32>
        ensures { (S : Script) (K : List Event) → StandsFor S K self.now → result ≡ free_from K (last - below) (below + 1) }
    {
        let mut pid = below;
        while pid < last {
            pid += 1;
            if self.holder(pid).is_none() {
                return Some(pid);
            }
        }
        None
    }

    /// The PID for the next task: the first free one after the last one given, and then from the first one on.
    fn next_pid(&self) -> Option<u32>
        ensures { (S : Script) (K : List Event) → StandsFor S K self.now → result ≡ next_pid S.pidbase S.pidmax K }
    {
        match self.free_pid(self.last, self.top) {
            Some(pid) => Some(pid),
            None => self.free_pid(self.base, self.last),
        }
    }

    /// The group of a task; 0 where there is no such task.
    pub fn group(&self, o: u32) -> u32
        ensures at { result ≡ group_at self.now o }
        ensures group { (S : Script) (K : List Event) → StandsFor S K self.now → o < tasks_made K → IsGroupOf K (task_name_of K o) result }
    {
        match self.task(o) {
            Some(task) => task.progress.group,
            None => 0,
        }
    }

    /// The id of the listed call in which a task waits.
    pub fn call(&self, o: u32) -> Option<u64>
        ensures { (S : Script) (K : List Event) → StandsFor S K self.now → o < tasks_made K → result ≡ call_id K (task_name_of K o) }
    {
        self.task(o)?.progress.call
    }

    /// The call that a task entered last: where it waits in a listed call, that one. There is one too where it owes a
    /// native call.
    pub fn entered(&self, o: u32) -> Option<EnteredCall>
        ensures last { (S : Script) (K : List Event) → StandsFor S K self.now → o < tasks_made K → IsEntry result (last_call K (task_name_of K o)) }
        ensures waits { (S : Script) (K : List Event) (c : ℕ) → StandsFor S K self.now → o < tasks_made K → call_of K (task_name_of K o) ≡ Some c → IsEnteredAt result (event_at K c) }
        ensures owes { (S : Script) (K : List Event) → StandsFor S K self.now → o < tasks_made K → owes_native K (task_name_of K o) ≡ true → IsSome result }
    {
        self.task(o)?.progress.entered
    }

    /// Whether a task owes a native call.
    pub fn owes(&self, o: u32) -> bool
        ensures { (S : Script) (K : List Event) → StandsFor S K self.now → o < tasks_made K → result ≡ owes_native K (task_name_of K o) }
    {
        match self.task(o) {
            Some(task) => task.progress.owes,
            None => false,
        }
    }

    /// Whether a task has ended; a task that wasn't made counts as ended.
    pub fn has_ended(&self, o: u32) -> bool
        ensures at { result ≡ ended_at self.now o }
        ensures ended { (S : Script) (K : List Event) → StandsFor S K self.now → o < tasks_made K → result ≡ ended K (task_name_of K o) }
    {
        match self.task(o) {
            Some(task) => task.progress.ended,
            None => true,
        }
    }

    /// The next instruction of a task, in the script whose history the tasks stand for. There is none after the last one.
    pub fn next_instr<'a>(&self, script: &'a Script, o: u32) -> Option<&'a Instr>
        ensures { (K : List Event) → StandsFor script.now K self.now → o < tasks_made K → option_copied result ≡ next_instr (system_of script.now) K (task_name_of K o) }
    {
        let task = self.task(o)?;
        instr_at(script, task.progress.program, task.progress.next)
    }

    /// How many tasks haven't ended.
    pub fn living(&self) -> u64
        ensures count { (S : Script) (K : List Event) → StandsFor S K self.now → result ≡ living_tasks self.now }
        ensures none { (S : Script) (K : List Event) → StandsFor S K self.now → result ≡ 0 ↔ ((n : Name) → is_made K n ≡ true → ended K n ≡ true) }
    {
        self.living
    }

    /// Puts how far a task is in its row.
    fn put(&mut self, o: u32, progress: Progress)
        ensures { IsWritten (table_of self.old) o (λ t. with_progress t progress) (table_of self.new) }
    {
        if let Some(task) = self.tasks.get_mut(o as usize) {
            task.progress = progress;
        }
    }

    /// Notes in a task's row what its own step makes of it.
    fn note(&mut self, o: u32, what: &What)
        ensures { IsNoted (table_of self.old) o what.now (table_of self.new) }
    {
        let Some(task) = self.task(o) else {
            return;
        };
        let before = task.progress;
        let after = before.after(what);
        if after.ended && !before.ended {
            self.living = self.living.saturating_sub(1);
        }
        self.put(o, after);
    }

    /// A task takes a step that makes and ends no task, reaps none, sends and delivers no signal, and sets no handler.
    pub fn stepped(&mut self, o: u32, what: &What)
        ensures stands { (S : Script) (K : List Event) (e : Event) → StandsFor S K self.old → IsStepOf S K e o → e.what ≡ what.now → keeps_tasks what.now ≡ true → StandsFor S (e ∷ K) self.new }
        ensures count { (g : ℕ) → living_in self.new g + one_ended self.old o what.now g ≡ living_in self.old g }
    {
        self.note(o, what);
    }

    /// A task ends by its own step: it exits, or a filter kills it. Its ended children are reaped by that, and so is it,
    /// where no parent can wait for it.
    pub fn exit(&mut self, o: u32, what: &What)
        ensures stands { (S : Script) (K : List Event) (e : Event) → StandsFor S K self.old → IsStepOf S K e o → e.what ≡ what.now → exits what.now ≡ true → StandsFor S (e ∷ K) self.new }
        ensures count { (g : ℕ) → living_in self.new g + one_ended self.old o what.now g ≡ living_in self.old g }
    {
        self.note(o, what);
    }

    /// Delivers the signal that is due next to a task, which is alive: SIGKILL where it is pending, else the smallest. Where
    /// `held` is set, only signals that end the task are due; `in_call` says that it waits in a listed call. None exactly
    /// where no signal is due, which leaves all as it was.
    pub fn deliver(&mut self, o: u32, held: bool, in_call: bool) -> Option<What>
        ensures next { (S : Script) (K : List Event) → StandsFor S K self.old → o < tasks_made K → ended K (task_name_of K o) ≡ false → held ≡ held_back S.killable K (task_name_of K o) → result ≡ delivery K (task_name_of K o) in_call (next_signal S.killable K (task_name_of K o)) }
        ensures stands { IfSome result (λ w. (S : Script) (K : List Event) (e : Event) → StandsFor S K self.old → IsStepOf S K e o → e.what ≡ w → StandsFor S (e ∷ K) self.new) }
        ensures count { IfSome result (λ w. (g : ℕ) → living_in self.new g + one_ended self.old o w g ≡ living_in self.old g) }
        ensures none { IfNone result (self.new ≡ self.old) }
    {
        let progress = self.task(o)?.progress;
        let (sig, disposition) = next_due(&progress.pending, &progress.dispositions, held)?;
        let what = What::Deliver {
            sig,
            effect: effect_of(in_call, sig, disposition),
        };
        self.note(o, &what);
        Some(what)
    }

    /// Whether a signal is due for a task. Where `held` is set, only signals that end the task are due.
    pub fn is_due(&self, o: u32, held: bool) -> bool
        ensures { (S : Script) (K : List Event) → StandsFor S K self.now → o < tasks_made K → held ≡ held_back S.killable K (task_name_of K o) → result ≡ is_some (next_signal S.killable K (task_name_of K o)) }
    {
        match self.task(o) {
            Some(task) => {
                next_due(&task.progress.pending, &task.progress.dispositions, held).is_some()
            }
            None => false,
        }
    }

    /// A task sets what it does at a signal (sigaction(2)).
    pub fn handler(&mut self, o: u32, sig: u8, disposition: Disposition)
        ensures stands { (S : Script) (K : List Event) (e : Event) → StandsFor S K self.old → IsStepOf S K e o → e.what ≡ Handler sig disposition → StandsFor S (e ∷ K) self.new }
        ensures count { (g : ℕ) → living_in self.new g ≡ living_in self.old g }
    {
        self.note(o, &What::Handler { sig, disposition });
    }

    /// A signal is pending for a task from now on.
    fn mark(&mut self, o: u32, sig: u8)
        ensures { IsWritten (table_of self.old) o (λ t. with_progress t (marked t.progress sig)) (table_of self.new) }
    {
        if let Some(task) = self.task(o) {
            let mut progress = task.progress;
            progress.pending.set(sig, true);
            self.put(o, progress);
        }
    }

    /// A task sends a signal to the task that holds a PID, and gives the step; an ended task takes the signal and
    /// does nothing. ESRCH comes exactly where nobody holds the number.
    pub fn signal(&mut self, o: u32, pid: u32, sig: u8) -> What
        ensures answer { (S : Script) (K : List Event) → StandsFor S K self.old → result ≡ Signal pid sig (found (holder K pid)) }
        ensures stands { (S : Script) (K : List Event) (e : Event) → StandsFor S K self.old → IsStepOf S K e o → e.what ≡ result → StandsFor S (e ∷ K) self.new }
        ensures count { (g : ℕ) → living_in self.new g ≡ living_in self.old g }
    {
        match self.holder(pid) {
            Some(target) => {
                let what = What::Signal {
                    pid,
                    sig,
                    answer: Ok(()),
                };
                self.note(o, &what);
                self.mark(target, sig);
                what
            }
            None => {
                let what = What::Signal {
                    pid,
                    sig,
                    answer: Err(Errno::ESRCH),
                };
                self.note(o, &what);
                what
            }
        }
    }

    /// The place of the first child of a task that has ended, of those for which it may wait.
    fn first_ended(&self, o: u32) -> Option<usize>
        ensures some { IfSome result (λ k. IsEndedAt (table_of self.now) o k) }
        ensures first { IfSome result (λ k. (j : ℕ) → j < k → IsEndedAt (table_of self.now) o j → ⊥) }
        ensures none { IfNone result ((j : ℕ) → IsEndedAt (table_of self.now) o j → ⊥) }
    {
        let task = self.task(o)?;
        let mut place = 0;
        while place < task.waiting.len() {
            if !self.lives(Some(task.waiting[place])) {
                return Some(place);
            }
            place += 1;
        }
        None
    }

    /// Whether a wait of a task, which is alive, would answer (wait(2)): it has a child that has ended and isn't reaped, or no
    /// child that isn't reaped.
    pub fn wait_answers(&self, o: u32) -> bool
        ensures { (S : Script) (K : List Event) → StandsFor S K self.now → o < tasks_made K → ended K (task_name_of K o) ≡ false → result ≡ not (skips (wait_step K (oldest (is_child K (task_name_of K o)) (length K)) (oldest (is_ended_child K (task_name_of K o)) (length K)))) }
    {
        match self.task(o) {
            Some(task) => task.waiting.is_empty() || self.first_ended(o).is_some(),
            None => false,
        }
    }

    /// Takes the child at a place from those for which a task may wait.
    fn take_waiting(&mut self, o: u32, place: usize) -> u32
        requires { (t : Member) × (task_at (table_of self.old) o ≡ Some t) × (place < length t.waiting) }
        ensures { (t : Member) → task_at (table_of self.old) o ≡ Some t → (slice_get t.waiting place ≡ Some result) × (table_of self.new ≡ with_task (table_of self.old) o (without_waiting t place)) }
    {
        self.tasks[o as usize].waiting.remove(place)
    }

    /// A task's parent has waited for it; its name is written into a vector that has room for it.
    fn collect(&mut self, o: u32, room: Vec<u32>) -> TaskName
        ensures waited { IsWritten (table_of self.old) o (λ t. with_progress t (waited_for t.progress)) (table_of self.new) }
        ensures name { (t : Member) → task_at (table_of self.old) o ≡ Some t → length t.name ≤ vec_capacity room → result ≡ t.name }
    {
        let mut numbers = room;
        numbers.clear();
        if let Some(task) = self.task(o) {
            let mut progress = task.progress;
            progress.waited = true;
            match numbers.extend_from_slice(task.name.items()) {
                // Without room, which the caller sees to, the name stays empty.
                Ok(()) | Err(_) => {}
            }
            self.put(o, progress);
        }
        TaskName::new(numbers)
    }

    /// A task, which is alive, waits for a child (wait(2)), and gives the step: the ended one that was made first is reaped,
    /// and its name is written into `room`, which has room for one number more than the task's own name has. ECHILD where
    /// the task has no child that isn't reaped. None where it has some and none has ended, which leaves all as it was.
    pub fn reap(&mut self, o: u32, room: Vec<u32>) -> Option<What>
        requires { length (name_at self.old o) < vec_capacity room }
        ensures answer { (S : Script) (K : List Event) → StandsFor S K self.old → o < tasks_made K → ended K (task_name_of K o) ≡ false → step_of result ≡ wait_step K (oldest (is_child K (task_name_of K o)) (length K)) (oldest (is_ended_child K (task_name_of K o)) (length K)) }
        ensures some { IfSome result IsReap }
        ensures stands { IfSome result (λ w. (S : Script) (K : List Event) (e : Event) → StandsFor S K self.old → IsStepOf S K e o → e.what ≡ w → StandsFor S (e ∷ K) self.new) }
        ensures count { (g : ℕ) → living_in self.new g ≡ living_in self.old g }
        ensures none { IfNone result (self.new ≡ self.old) }
    {
        if self.task(o)?.waiting.is_empty() {
            let what = What::Reap {
                answer: Err(Errno::ECHILD),
            };
            self.note(o, &what);
            return Some(what);
        }
        let place = self.first_ended(o)?;
        let child = self.take_waiting(o, place);
        let what = What::Reap {
            answer: Ok(self.collect(child, room)),
        };
        self.note(o, &what);
        Some(what)
    }

    /// The name of a task's next child, written into a vector that has room for it.
    fn next_child(&self, o: u32, room: Vec<u32>) -> TaskName
        requires number { HasNumber (task_at (table_of self.now) o) }
        requires room { length (name_at self.now o) < vec_capacity room }
        ensures { (t : Member) → task_at (table_of self.now) o ≡ Some t → result ≡ next_name t }
    {
        let task = &self.tasks[o as usize];
        let mut numbers = room;
        numbers.clear();
        let Ok(()) = numbers.extend_from_slice(task.name.items()) else {
            unreachable!()
        };
        numbers.push_reserved(task.children.len() as u32 + 1);
        TaskName::new(numbers)
    }

    /// Adds a task, for which there is room, under its ordinal.
    fn add(&mut self, ordinal: u32, task: Task)
        requires task { vec_len self.old.tasks < vec_capacity self.old.tasks }
        requires pid { vec_len self.old.pids < vec_capacity self.old.pids }
        ensures { IsAdded (table_of self.old) (table_of self.old).tasks ordinal (member task) (table_of self.new) }
    {
        let pid = task.pid;
        self.tasks.push_reserved(task);
        set(
            &mut self.pids,
            Entry {
                key: pid,
                task: ordinal,
            },
        );
        self.last = pid;
        self.living = self.living.saturating_add(1);
    }

    /// Adds an entry to those of a task, for which there is room: a child, which it may wait for, or none.
    fn enter(&mut self, o: u32, child: Option<u32>)
        requires { HasEntryRoom (slice_get self.old.tasks.items o) }
        ensures entered { (t : Member) → task_at (table_of self.old) o ≡ Some t → table_of self.new ≡ with_task (table_of self.old) o (with_entry t child) }
        ensures room { (vec_len self.new.tasks ≡ vec_len self.old.tasks) × (vec_capacity self.new.tasks ≡ vec_capacity self.old.tasks) × (self.new.pids ≡ self.old.pids) }
    {
        let task = &mut self.tasks[o as usize];
        task.children.push_reserved(child);
        if let Some(child) = child {
            task.waiting.push_reserved(child);
        }
    }

    /// Adds a task's next child, for which there is room and whose PID nobody holds.
    fn add_child(&mut self, parent: u32, pid: u32, group: u32, program: u32)
        requires { HasRoom self.old parent }
        ensures { IsChildAdded (table_of self.old) parent pid group program (table_of self.new) }
    {
        let ordinal = self.tasks.len() as u32;
        let alloc = self.alloc;
        let room = mem::replace(&mut self.spare, Vec::new(alloc));
        let name = self.next_child(parent, room);
        let dispositions = self.tasks[parent as usize].progress.dispositions;
        self.enter(parent, Some(ordinal));
        self.add(
            ordinal,
            Task {
                name,
                pid,
                parent: Some(parent),
                children: Vec::new(alloc),
                waiting: Vec::new(alloc),
                progress: Progress::new(group, program, dispositions),
            },
        );
    }

    /// A task makes its next child, in this group and with this program, and gives the step: the child's name, which is
    /// written into `room`, has one number more than the task's own; its PID is the first free one after the
    /// last one given, cyclic. EAGAIN where every number is held, which makes no task. There is room for the child.
    pub fn spawn(
        &mut self,
        o: u32,
        kind: SpawnKind,
        group: u32,
        program: u32,
        room: Vec<u32>,
    ) -> What
        requires ready { HasRoom self.old o }
        requires room { length (name_at self.old o) < vec_capacity room }
        ensures answer { (S : Script) (K : List Event) → StandsFor S K self.old → o < tasks_made K → result ≡ Spawn (next_child K (task_name_of K o)) (spawn_answer (next_pid S.pidbase S.pidmax K) kind) }
        ensures stands { (S : Script) (K : List Event) (e : Event) → StandsFor S K self.old → IsSpawn S K e o kind group program → e.what ≡ result → StandsFor S (e ∷ K) self.new }
        ensures count { (g : ℕ) → living_in self.new g ≡ living_in self.old g + one_made result group g }
    {
        let child = self.next_child(o, room);
        match self.next_pid() {
            Some(pid) => {
                self.add_child(o, pid, group, program);
                let what = What::Spawn {
                    child,
                    answer: Ok((pid, kind)),
                };
                self.note(o, &what);
                what
            }
            None => {
                self.enter(o, None);
                let what = What::Spawn {
                    child,
                    answer: Err(Errno::EAGAIN),
                };
                self.note(o, &what);
                what
            }
        }
    }
}

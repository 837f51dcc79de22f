//! What tasks do next (seccomp(2), clone(2), wait(2), kill(2), sigaction(2), signal(7)).

ghost use Rattle.std.specs.Prelude.{◌≡◌, ℕ, ◌<◌, ◌+◌, ◌%◌, ◌^◌, ◌∷◌, List, length, Some, Ok, vec_capacity, None, true, false, ◌&&◌, IfSome, IfNone};
ghost use Rattle.hist_model.specs.Look.{ev, oldest};
ghost use Rattle.hist_model.specs.Signals.{call_of};
ghost use Rattle.hist_model.specs.Steps.{found, is_child, is_ended_child, next_child, next_instr, owes_native, spawn_answer, wait_step, with_id};
ghost use Rattle.hist_model.specs.Tasks.{holder, next_pid};
ghost use Rattle.hist_model.specs.declared.event.Actor.TheVariants.{Task};
ghost use Rattle.hist_model.specs.declared.event.What.TheVariants.{Enter, Handler, Native, Poke, Resume, Signal, Skip, Spawn};
ghost use Rattle.model_kernel.specs.Kernels.{IsAfter, IsKernel, past, system};
ghost use Rattle.model_kernel.specs.Ready.{HasChildRoom, HasNextRoom, IsReadyFor, IsSupplied, own_step};
ghost use Rattle.model_kernel.specs.declared.ready.Next.TheVariants.{Runs};
ghost use Rattle.model_kernel.specs.Steps.{Acts, IsStepped, IsDeliveredFirst, IsInstallDue, MayStep, IsTried, TakesStep, WaitsIn, due_step, is_unlisted, left_by, named, signal_due};
ghost use Rattle.hist_model.specs.Kinds.{ends, exits, makes};
ghost use Rattle.hist_model.specs.declared.event.Event.{Event};
ghost use Rattle.history_frames.specs.Ordinals.{tasks_made};
ghost use Rattle.task_groups.specs.Groups.{Holds, HasRoomFor, IsLive};
ghost use Rattle.task_groups.specs.State.{State, with_copy, with_joined};
ghost use Rattle.listener.specs.Stands.{IsListedAs};
ghost use Rattle.hist_model.specs.Calls.{calls, fetched};
ghost use Rattle.hist_model.specs.declared.event.Entered.TheVariants.{Notify};
ghost use Rattle.listener.specs.Table.{HasRoom as HasCallRoom};
ghost use Rattle.hist_model.specs.Memory.{all_mapped, group_named};
ghost use Rattle.native_calls.specs.Stands.{IsEntered};
ghost use Rattle.hist_model.specs.declared.event.SpawnKind.TheVariants.{Copied, Shared};
ghost use Rattle.hist_model.specs.declared.script.Instr.TheVariants.{Spawn as InstrSpawn, Thread};
ghost use Rattle.tasks.specs.Stands.{HasRoom as HasTaskRoom, name_at, group_at};
ghost use Rattle.model_kernel.specs.Stands.{HasNativeRoom};

use crate::kernel::Kernel;
use crate::ready::{Next, ReadyTask, keeps_rules};
use bpf_filter::verdict;
use hist_model::event::{Actor, Back, Delivered, Disposition, Entered, Event, SpawnKind, What};
use hist_model::request::TaskRef;
use hist_model::script::Instr;
use hist_model::text::{TaskName, Text};
use native_calls::NativeCall;
use sys_abi::errno::Errno;
use sys_abi::wire::Addfd;
use task_groups::Groups;
use thiserror::Error;

/// The task can't step: it has ended, or waits.
#[derive(Clone, Copy, PartialEq, Eq, Debug, Error)]
#[error("the task can't step")]
pub struct CannotStep;

impl Kernel {
    /// Appends a step of a task, for which there is room.
    // (a step's variant is known where it is noted, so that each is written into the history as it is made)
    #[inline(always)]
    fn note_step(&mut self, name: TaskName, what: What)
        requires { 0 < self.old.history.spare }
        ensures events { past self.new ≡ ev (Task name) what ∷ past self.old }
        ensures same { self.new ≡ record self.old { history = self.new.history } }
    {
        self.history.push(Event {
            who: Actor::Task(name),
            what,
        });
    }

    /// Appends a step of a task, for which there is room, so that no name is given back.
    #[inline(always)]
    fn take_step(&mut self, name: TaskName, what: What) -> Result<(), TaskName>
        requires { 0 < self.old.history.spare }
        ensures ok { result ≡ Ok tt }
        ensures events { past self.new ≡ ev (Task name) what ∷ past self.old }
        ensures same { self.new ≡ record self.old { history = self.new.history } }
    {
        self.note_step(name, what);
        Ok(())
    }

    /// The listed call with this id, in which a task waits, returns.
    fn resume(&mut self, task: u32, id: u64, back: Back) -> What
        requires ready { MayStep self.old task }
        requires waits { (c : ℕ) × WaitsIn self.old task c id }
        requires due { due_step self.old task ≡ Resume back }
        ensures { Acts self.old task result self.new }
    {
        let what = What::Resume { back };
        self.tasks.stepped(task, &what);
        self.resources.listener.leave(id);
        what
    }

    /// A task sets what it does at a signal.
    fn handle(&mut self, task: u32, sig: u8, disposition: Disposition) -> What
        requires ready { MayStep self.old task }
        requires due { due_step self.old task ≡ Handler sig disposition }
        ensures { Acts self.old task result self.new }
    {
        self.tasks.handler(task, sig, disposition);
        What::Handler { sig, disposition }
    }

    /// A task sends a signal to the task that holds a PID.
    fn send_signal(&mut self, task: u32, pid: u32, sig: u8) -> What
        requires ready { MayStep self.old task }
        requires due { due_step self.old task ≡ Signal pid sig (found (holder (past self.old) pid)) }
        ensures { Acts self.old task result self.new }
    {
        self.tasks.signal(task, pid, sig)
    }

    /// A task ends by its own step, which is this: it exits, or a filter kills it.
    fn exit(&mut self, task: u32, what: What) -> What
        requires ready { MayStep self.old task }
        requires due { due_step self.old task ≡ what }
        requires exits { exits what ≡ true }
        ensures { Acts self.old task result self.new }
    {
        let group = self.tasks.group(task);
        self.tasks.exit(task, &what);
        leave_group(&mut self.resources.groups, group, &what);
        what
    }

    /// A task enters a call, of which the filters say this: it isn't listed, and the task isn't killed.
    fn enter_unlisted(&mut self, task: u32, nr: i32, args: &[u64; 6], verdict: Entered) -> What
        requires ready { MayStep self.old task }
        requires due { due_step self.old task ≡ Enter nr args.now verdict }
        requires unlisted { is_unlisted verdict ≡ true }
        ensures { Acts self.old task result self.new }
    {
        let what = What::Enter {
            nr,
            args: *args,
            verdict,
        };
        self.tasks.stepped(task, &what);
        what
    }

    /// A task, which waits in no listed call, enters one, for whose entry there is room.
    fn enter_listed(&mut self, task: u32, nr: i32, args: &[u64; 6]) -> What
        requires ready { MayStep self.old task }
        requires outside { call_of (past self.old) (named self.old task) ≡ None }
        requires room { HasCallRoom self.old.resources.listener.queue }
        requires due { due_step self.old task ≡ Enter nr args.now (Notify ((self.old.script.firstid + calls (past self.old)) % 2 ^ 64)) }
        ensures { Acts self.old task result self.new }
    {
        let id = self.resources.listener.enter(TaskRef { ordinal: task });
        let what = What::Enter {
            nr,
            args: *args,
            verdict: Entered::Notify { id },
        };
        self.tasks.stepped(task, &what);
        what
    }

    /// A task, which waits in the listed call with this id, installs the call's oldest request, for which there is room in its
    /// group. The errors are those of `Groups::install`.
    fn install(&mut self, task: u32, id: u64, asked: &Addfd) -> What
        requires ready { MayStep self.old task }
        requires room { HasRoomFor self.old.resources.groups (group_at self.old.tasks task) 0 }
        requires due { (c : ℕ) × IsInstallDue self.old task c id asked.now }
        ensures { Acts self.old task result self.new }
    {
        let group = self.tasks.group(task);
        let answer = self.resources.groups.install(group, asked);
        self.resources
            .listener
            .installed(id, asked, same_number(&answer));
        let what = What::Install { answer };
        self.tasks.stepped(task, &what);
        what
    }

    /// Takes the step of a task that waits in the listed call with this id: the call returns where it was settled, else a due
    /// signal is delivered, else the oldest request of the call is installed, for which there is room. The name is given back
    /// exactly where there is nothing of these, which leaves all as it was.
    fn waiting_step(&mut self, task: u32, name: TaskName, id: u64) -> Result<(), TaskName>
        requires ready { MayStep self.old task }
        requires event { 0 < self.old.history.spare }
        requires name { name ≡ named self.old task }
        requires waits { (c : ℕ) × WaitsIn self.old task c id }
        requires room { HasRoomFor self.old.resources.groups (group_at self.old.tasks task) 0 }
        ensures { IsTried self.old task result self.new }
    {
        if let Some(back) = self.resources.listener.settled_back(id) {
            let what = self.resume(task, id, back);
            return self.take_step(name, what);
        }
        if let Some(what) = self.deliver_inside(task, id) {
            return self.take_step(name, what);
        }
        let Some(asked) = self.resources.listener.next_request(id) else {
            return Err(name);
        };
        let what = self.install(task, id, &asked);
        self.take_step(name, what)
    }

    /// A task runs the native call that it owes, for which there is room. The answers are those of `Resources::run`.
    fn run_native(&mut self, task: u32, call: NativeCall) -> What
        requires ready { MayStep self.old task }
        requires room { HasNativeRoom self.old.resources (group_at self.old.tasks task) call }
        requires entered { (g : ℕ) → group_named (past self.old) (named self.old task) ≡ Some g → IsEntered self.old.script (past self.old) (named self.old task) g call }
        requires due { due_step self.old task ≡ Native ((system self.old).native (past self.old) (named self.old task)) }
        ensures { Acts self.old task result self.new }
    {
        let group = self.tasks.group(task);
        let pid = self.tasks.pid(task);
        let answer = self.resources.run(group, pid, call);
        let what = What::Native { answer };
        self.tasks.stepped(task, &what);
        what
    }

    /// A task, which waits in no listed call, enters a call, through the filters. For a listed one there is room.
    fn enter(&mut self, task: u32, nr: i32, args: &[u64; 6]) -> What
        requires ready { MayStep self.old task }
        requires outside { call_of (past self.old) (named self.old task) ≡ None }
        requires room { HasCallRoom self.old.resources.listener.queue }
        requires due { due_step self.old task ≡ Enter nr args.now (with_id ((system self.old).verdict nr args.now) ((self.old.script.firstid + calls (past self.old)) % 2 ^ 64)) }
        ensures { Acts self.old task result self.new }
    {
        match verdict(self.script.filters.items(), nr, args) {
            Entered::Notify { .. } => self.enter_listed(task, nr, args),
            Entered::Kill => self.exit(
                task,
                What::Enter {
                    nr,
                    args: *args,
                    verdict: Entered::Kill,
                },
            ),
            verdict => self.enter_unlisted(task, nr, args, verdict),
        }
    }

    /// A task waits for a child, whose name is written into `room`. None exactly where it has one and none has ended, which
    /// leaves all as it was.
    fn wait(&mut self, task: u32, room: Vec<u32>) -> Option<What>
        requires ready { MayStep self.old task }
        requires room { length (name_at self.old.tasks task) < vec_capacity room }
        requires due { due_step self.old task ≡ wait_step (past self.old) (oldest (is_child (past self.old) (named self.old task)) (length (past self.old))) (oldest (is_ended_child (past self.old) (named self.old task)) (length (past self.old))) }
        ensures step { IfSome result (λ w. Acts self.old task w self.new) }
        ensures none { IfNone result ((self.new ≡ self.old) × (due_step self.old task ≡ Skip)) }
    {
        let what = self.tasks.reap(task, room)?;
        Some(what)
    }

    /// A task stores bytes, which are all mapped, in the memory of its group, for which there is room.
    fn store(&mut self, task: u32, addr: u64, bytes: Text) -> What
        requires ready { MayStep self.old task }
        requires room { HasRoomFor self.old.resources.groups (group_at self.old.tasks task) (length bytes) }
        requires mapped { all_mapped self.old.script.map addr (length bytes) ≡ true }
        requires due { due_step self.old task ≡ Poke addr bytes }
        ensures { Acts self.old task result self.new }
    {
        let group = self.tasks.group(task);
        let Ok(()) = self.resources.groups.store(group, addr, bytes.items()) else {
            unreachable!()
        };
        let what = What::Poke { addr, bytes };
        self.tasks.stepped(task, &what);
        what
    }

    /// A task makes a thread, for which there is room, as its next child. EAGAIN where every PID is held.
    fn make_thread(&mut self, task: u32, program: u32, room: Vec<u32>) -> What
        requires ready { MayStep self.old task }
        requires tasks { HasTaskRoom self.old.tasks task }
        requires room { length (name_at self.old.tasks task) < vec_capacity room }
        requires next { next_instr (system self.old) (past self.old) (named self.old task) ≡ Some (Thread program) }
        requires due { due_step self.old task ≡ Spawn (next_child (past self.old) (named self.old task)) (spawn_answer (next_pid self.old.script.pidbase self.old.script.pidmax (past self.old)) Shared) }
        ensures { Acts self.old task result self.new }
    {
        let group = self.tasks.group(task);
        let what = self
            .tasks
            .spawn(task, SpawnKind::Shared, group, program, room);
        join_group(&mut self.resources.groups, group, &what);
        what
    }

    /// A task makes a task with a copy of its group, for which there is room, as its next child (fork(2)). EAGAIN where every
    /// PID is held.
    fn make_process(&mut self, task: u32, program: u32, room: Vec<u32>) -> What
        requires ready { MayStep self.old task }
        requires tasks { HasTaskRoom self.old.tasks task }
        requires groups { HasRoomFor self.old.resources.groups (group_at self.old.tasks task) 0 }
        requires room { length (name_at self.old.tasks task) < vec_capacity room }
        requires next { next_instr (system self.old) (past self.old) (named self.old task) ≡ Some (InstrSpawn program) }
        requires due { due_step self.old task ≡ Spawn (next_child (past self.old) (named self.old task)) (spawn_answer (next_pid self.old.script.pidbase self.old.script.pidmax (past self.old)) Copied) }
        ensures { Acts self.old task result self.new }
    {
        let group = self.tasks.group(task);
        let copy = self.resources.groups.made() as u32;
        let what = self
            .tasks
            .spawn(task, SpawnKind::Copied, copy, program, room);
        copy_group(&mut self.resources.groups, group, &what);
        what
    }

    /// Delivers the signal that is due next to a task, which waits in no listed call. None exactly where none is due, which
    /// leaves all as it was.
    fn deliver_outside(&mut self, task: u32) -> Option<What>
        requires ready { MayStep self.old task }
        requires outside { call_of (past self.old) (named self.old task) ≡ None }
        requires due { IsDeliveredFirst self.old task false }
        ensures step { IfSome result (λ w. Acts self.old task w self.new) }
        ensures none { IfNone result ((self.new ≡ self.old) × (signal_due self.old task ≡ None)) }
    {
        let group = self.tasks.group(task);
        let what = self.tasks.deliver(task, false, false)?;
        leave_group(&mut self.resources.groups, group, &what);
        Some(what)
    }

    /// Whether only fatal signals end the wait in the listed call with this id.
    pub(crate) fn holds_back(&self, id: u64) -> bool
        requires { IsKernel self.now }
        ensures { (c : ℕ) → IsListedAs (past self.now) c id → result ≡ (self.now.script.killable && fetched (past self.now) c) }
    {
        self.script.killable && self.resources.listener.was_received(id)
    }

    /// Delivers the signal that is due next to a task, which waits in the listed call with this id, and ends its wait. None
    /// exactly where none is due, which leaves all as it was.
    fn deliver_inside(&mut self, task: u32, id: u64) -> Option<What>
        requires ready { MayStep self.old task }
        requires waits { (c : ℕ) × WaitsIn self.old task c id }
        requires due { IsDeliveredFirst self.old task true }
        ensures step { IfSome result (λ w. Acts self.old task w self.new) }
        ensures none { IfNone result ((self.new ≡ self.old) × (signal_due self.old task ≡ None)) }
    {
        let group = self.tasks.group(task);
        let held = self.holds_back(id);
        let what = self.tasks.deliver(task, held, true)?;
        leave_group(&mut self.resources.groups, group, &what);
        self.resources.listener.leave(id);
        Some(what)
    }

    /// Takes the step of a task's next instruction, with the bytes that it stores and room for the name of a child. The tables
    /// have room for it. The name is given back exactly where that is a wait for children of which none has ended, which
    /// leaves all as it was.
    fn run(
        &mut self,
        task: u32,
        name: TaskName,
        bytes: Text,
        room: Vec<u32>,
    ) -> Result<(), TaskName>
        requires ready { MayStep self.old task }
        requires event { 0 < self.old.history.spare }
        requires name { name ≡ named self.old task }
        requires outside { call_of (past self.old) (named self.old task) ≡ None }
        requires supplied { IsSupplied self.old task bytes (vec_capacity room) }
        requires due { due_step self.old task ≡ own_step self.old task }
        requires tasks { HasChildRoom self.old task }
        requires resources { HasNextRoom self.old task (Runs bytes room) }
        ensures { IsTried self.old task result self.new }
    {
        keeps_rules(&self.script);
        match self.tasks.next_instr(&self.script, task) {
            None | Some(Instr::Exit) => {
                let what = self.exit(task, What::Exit);
                self.take_step(name, what)
            }
            Some(&Instr::Poke { addr, .. }) => {
                let what = self.store(task, addr, bytes);
                self.take_step(name, what)
            }
            Some(&Instr::Fill { addr, .. }) => {
                let what = self.store(task, addr, bytes);
                self.take_step(name, what)
            }
            Some(&Instr::Call { nr, args }) => {
                let what = self.enter(task, nr, &args);
                self.take_step(name, what)
            }
            Some(&Instr::Spawn { program }) => {
                let what = self.make_process(task, program, room);
                self.take_step(name, what)
            }
            Some(&Instr::Thread { program }) => {
                let what = self.make_thread(task, program, room);
                self.take_step(name, what)
            }
            Some(&Instr::Kill { whom, sig }) => {
                let pid = self.tasks.signalled(task, whom);
                let what = self.send_signal(task, pid, sig);
                self.take_step(name, what)
            }
            Some(&Instr::Handler { sig, disposition }) => {
                let what = self.handle(task, sig, disposition);
                self.take_step(name, what)
            }
            Some(Instr::Wait) => {
                let Some(what) = self.wait(task, room) else {
                    return Err(name);
                };
                self.take_step(name, what)
            }
        }
    }

    /// Takes the step of a task that waits in no listed call and owes no native call, with what its next instruction needs of
    /// memory: a due signal is delivered, else its program goes on. The name is given back exactly where it waits for
    /// children, which leaves all as it was.
    fn go_on(
        &mut self,
        task: u32,
        name: TaskName,
        bytes: Text,
        room: Vec<u32>,
    ) -> Result<(), TaskName>
        requires ready { MayStep self.old task }
        requires event { 0 < self.old.history.spare }
        requires name { name ≡ named self.old task }
        requires outside { call_of (past self.old) (named self.old task) ≡ None }
        requires owes { owes_native (past self.old) (named self.old task) ≡ false }
        requires supplied { IsSupplied self.old task bytes (vec_capacity room) }
        requires tasks { HasChildRoom self.old task }
        requires resources { HasNextRoom self.old task (Runs bytes room) }
        ensures { IsTried self.old task result self.new }
    {
        if let Some(what) = self.deliver_outside(task) {
            return self.take_step(name, what);
        }
        self.run(task, name, bytes, room)
    }

    /// Takes the step that a task has next, which was made ready. The name is given back exactly where it can't step, which
    /// leaves all as it was.
    fn next_step(&mut self, task: u32, ready: ReadyTask) -> Result<(), TaskName>
        requires kernel { IsKernel self.old }
        requires made { task < tasks_made (past self.old) }
        requires ready { IsReadyFor self.old task ready }
        ensures { IsTried self.old task result self.new }
    {
        let ReadyTask { name, next } = ready;
        match next {
            Next::Ended => Err(name),
            Next::Waiting(id) => self.waiting_step(task, name, id),
            Next::Owed(call) => {
                let what = self.run_native(task, Box::into_inner(call));
                self.take_step(name, what)
            }
            Next::Runs { bytes, room } => self.go_on(task, name, bytes, room),
        }
    }

    /// A task takes its next step, which was made ready: its listed call returns, a native call is made, a signal that is due
    /// is delivered, a descriptor is installed, or its program goes on. `CannotStep` exactly where it has ended, or waits;
    /// this is no event.
    pub fn task_step(&mut self, task: u32, ready: ReadyTask) -> Result<(), CannotStep>
        requires kernel { IsKernel self.old }
        requires made { task < tasks_made (past self.old) }
        requires ready { IsReadyFor self.old task ready }
        ensures { IsStepped self.old task result self.new }
    {
        match self.next_step(task, ready) {
            Ok(()) => Ok(()),
            Err(_) => Err(CannotStep),
        }
    }

    /// A task's turn: it takes its next step, which was made ready, or gives a `Skip` where it can't step.
    pub fn task_turn(&mut self, task: u32, ready: ReadyTask)
        requires kernel { IsKernel self.old }
        requires made { task < tasks_made (past self.old) }
        requires ready { IsReadyFor self.old task ready }
        ensures { TakesStep self.old task self.new }
    {
        if let Err(name) = self.next_step(task, ready) {
            self.skip_task(name);
        }
    }

    /// Notes that a scheduled task couldn't step, or that there is none of this name.
    pub fn skip_task(&mut self, name: TaskName)
        requires kernel { IsKernel self.old }
        requires room { 0 < self.old.history.spare }
        ensures { IsAfter self.old (ev (Task name) Skip) self.new }
    {
        self.note_step(name, What::Skip);
    }
}

/// A copy of this answer.
fn same_number(answer: &Result<u32, Errno>) -> Result<u32, Errno>
    ensures { result ≡ answer.now }
{
    match answer {
        Ok(number) => Ok(*number),
        Err(errno) => Err(*errno),
    }
}

/// Whether a step ends the task that takes it.
fn is_end(what: &What) -> bool
    ensures { result ≡ ends what.now }
{
    match what {
        What::Exit
        | What::Deliver {
            effect: Delivered::End,
            ..
        }
        | What::Enter {
            verdict: Entered::Kill,
            ..
        } => true,
        _ => false,
    }
}

/// A task of a group takes this step, and leaves the group where the step ends it.
fn leave_group(groups: &mut Groups, group: u32, what: &What)
    requires { IsLive groups.old group }
    ensures { (s : State) → Holds s groups.old → Holds (record s { living = left_by what.now s.living group }) groups.new }
{
    if is_end(what) {
        groups.left(group);
    }
}

/// Whether a step makes a task.
fn is_made(what: &What) -> bool
    ensures { result ≡ makes what.now }
{
    matches!(what, What::Spawn { answer: Ok(_), .. })
}

/// A task of a group takes this step, which is to make a thread, and which the group joins where it was made.
fn join_group(groups: &mut Groups, group: u32, what: &What)
    requires { IsLive groups.old group }
    ensures made { makes what.now ≡ true → (s : State) → Holds s groups.old → Holds (with_joined group s) groups.new }
    ensures refused { makes what.now ≡ false → groups.new ≡ groups.old }
{
    if is_made(what) {
        groups.joined(group);
    }
}

/// A task of a group takes this step, which is to make a task with a copy of the group, and which copies it where it was made.
fn copy_group(groups: &mut Groups, group: u32, what: &What)
    requires live { IsLive groups.old group }
    requires room { HasRoomFor groups.old group 0 }
    ensures made { makes what.now ≡ true → (s : State) → Holds s groups.old → Holds (with_copy group s) groups.new }
    ensures refused { makes what.now ≡ false → groups.new ≡ groups.old }
{
    if is_made(what) {
        groups.copied(group);
    }
}

//! What a task's next step is, read out of the tables with all that it needs of memory before it is taken.

ghost use Rattle.std.specs.Prelude.{◌≡◌, ◌<◌, ◌^◌, length, true, replicate, vec_capacity, IfOk, OnOk};
ghost use Rattle.std.specs.Option.{option_copied};
ghost use Rattle.hist_model.specs.ScriptRules.{IsScript};
ghost use Rattle.hist_model.specs.Steps.{next_instr, owes_native};
ghost use Rattle.history_frames.specs.Ordinals.{tasks_made};
ghost use Rattle.model_kernel.specs.Kernels.{IsKernel, past};
ghost use Rattle.model_kernel.specs.Ready.{HasChildRoom, HasNextRoom, IsNext, IsOwed, IsReadyFor, IsSame, makes_child, names_child, stored_by};
ghost use Rattle.model_kernel.specs.Steps.{MayStep, named};

use crate::kernel::Kernel;
use crate::rooms::ready_entry;
use arg_capture::Capture;
use hist_model::script::{Instr, Script};
use hist_model::text::{TaskName, Text};
use native_calls::NativeCall;
use std::alloc::Global;
use sys_abi::memory::NoMemory;

/// What a task has next.
#[derive(Drop)]
pub(crate) enum Next {
    /// Nothing: it has ended.
    Ended,
    /// It waits in the listed call with this id.
    Waiting(u64),
    /// It owes this native call, whose arguments were read out of its memory. Few steps are one, so it stands apart, and what is
    /// next is small.
    Owed(Box<NativeCall>),
    /// Its program goes on.
    Runs {
        /// What its next instruction stores, if that stores anything.
        bytes: Text,
        /// Room for the name of a child, if its next instruction names one.
        room: Vec<u32>,
    },
}

/// The next step of a task, with all the memory that it takes. It is for the kernel that made it ready, until that has
/// taken another step.
#[derive(Drop)]
pub struct ReadyTask {
    pub(crate) name: TaskName,
    pub(crate) next: Next,
}

/// This number of equal bytes.
fn filled(alloc: Global, len: u32, byte: u8) -> Result<Text, NoMemory>
    ensures { IfOk result (λ text. text ≡ replicate len byte) }
{
    Ok(Text::new(vec![in alloc; byte; len as usize]?))
}

/// A copy of the bytes that an instruction stores.
fn stored_by(alloc: Global, instr: Option<&Instr>) -> Result<Text, NoMemory>
    ensures { IfOk result (λ text. text ≡ stored_by (option_copied instr.entry)) }
{
    match instr {
        Some(Instr::Poke { bytes, .. }) => bytes.copied(alloc),
        Some(Instr::Fill { len, byte, .. }) => filled(alloc, *len, *byte),
        _ => Ok(Text::new(Vec::new(alloc))),
    }
}

/// Whether an instruction makes a child, or waits for one, so that its step has a child's name.
fn names_child(instr: Option<&Instr>) -> bool
    ensures { result ≡ names_child (option_copied instr.entry) }
{
    matches!(
        instr,
        Some(Instr::Spawn { .. } | Instr::Thread { .. } | Instr::Wait)
    )
}

/// Whether an instruction makes a child.
fn makes_child(instr: Option<&Instr>) -> bool
    ensures { result ≡ makes_child (option_copied instr.entry) }
{
    matches!(instr, Some(Instr::Spawn { .. } | Instr::Thread { .. }))
}

/// Room for the name of a child of the task with this name, if an instruction names one.
fn child_room(alloc: Global, instr: Option<&Instr>, name: &[u32]) -> Result<Vec<u32>, NoMemory>
    ensures { IfOk result (λ room. names_child (option_copied instr.entry) ≡ true → length name.now < vec_capacity room) }
{
    if names_child(instr) {
        Ok(Vec::with_capacity(alloc, name.len() + 1)?)
    } else {
        Ok(Vec::new(alloc))
    }
}

/// How many bytes these are. There is no memory for 2^32 of them.
fn size(bytes: &Text) -> Result<u32, NoMemory>
    ensures { IfOk result (λ n. n ≡ length bytes.now) }
{
    u32::try_from(bytes.items().len()).map_err(|_| NoMemory)
}

/// A script keeps its rules.
pub(crate) fn keeps_rules(script: &Script)
    ensures { IsScript script.now }
{
    let _base = script.pidbase;
}

impl Kernel {
    /// The native call that a task owes, with its arguments.
    fn owed_call(&self, alloc: Global, task: u32) -> Result<NativeCall, NoMemory>
        requires may { MayStep self.now task }
        requires owes { owes_native (past self.now) (named self.now task) ≡ true }
        ensures { IfOk result (λ call. IsOwed self.now task call) }
    {
        let group = self.tasks.group(task);
        let Some(entered) = self.tasks.entered(task) else {
            unreachable!()
        };
        self.resources.prepare(
            group,
            entered.nr,
            &entered.args,
            &mut Capture::nothing(alloc),
            &mut Vec::new(alloc),
        )
    }

    /// What a task has next.
    fn next(&self, alloc: Global, task: u32) -> Result<Next, NoMemory>
        requires kernel { IsKernel self.now }
        requires made { task < tasks_made (past self.now) }
        requires few { length (past self.now) < 2 ^ 64 }
        ensures { IfOk result (λ next. IsNext self.now task next) }
    {
        if self.tasks.has_ended(task) {
            return Ok(Next::Ended);
        }
        if let Some(id) = self.tasks.call(task) {
            return Ok(Next::Waiting(id));
        }
        if self.tasks.owes(task) {
            let call = self.owed_call(alloc, task)?;
            return Ok(Next::Owed(Box::new(alloc, call)?));
        }
        let instr = self.tasks.next_instr(&self.script, task);
        Ok(Next::Runs {
            bytes: stored_by(alloc, instr)?,
            room: child_room(alloc, instr, self.tasks.name(task))?,
        })
    }

    /// Makes room for what a task has next.
    fn ready_next(&mut self, task: u32, next: &Next) -> Result<(), NoMemory>
        requires kernel { IsKernel self.old }
        requires made { task < tasks_made (past self.old) }
        requires few { length (past self.old) < 2 ^ 64 }
        requires next { IsNext self.old task next.now }
        ensures kernel { IsKernel self.new }
        ensures same { self.new ≡ record self.old { resources = self.new.resources } }
        ensures room { OnOk result (HasNextRoom self.new task next.now) }
    {
        let group = self.tasks.group(task);
        match next {
            Next::Ended => Ok(()),
            Next::Waiting(_) => ready_entry(&mut self.resources, group, 0),
            Next::Owed(call) => self.resources.ready_native(group, call),
            Next::Runs { bytes, .. } => ready_entry(&mut self.resources, group, size(bytes)?),
        }
    }

    /// Makes room in the history for one more event, and in the tables of the tasks for a child of a task, if its next
    /// instruction makes one.
    fn ready_rows(&mut self, task: u32) -> Result<(), NoMemory>
        requires kernel { IsKernel self.old }
        requires made { task < tasks_made (past self.old) }
        ensures kernel { IsKernel self.new }
        ensures past { past self.new ≡ past self.old }
        ensures same { self.new ≡ record self.old { history = self.new.history; tasks = self.new.tasks } }
        ensures event { OnOk result (0 < self.new.history.spare) }
        ensures tasks { OnOk result (HasChildRoom self.new task) }
    {
        self.history.ready(1)?;
        if !makes_child(self.tasks.next_instr(&self.script, task)) {
            return Ok(());
        }
        self.tasks.ready(task)
    }

    /// Makes room for a task's next step, and tells what it is.
    fn ready_tables(&mut self, alloc: Global, task: u32) -> Result<Next, NoMemory>
        requires kernel { IsKernel self.old }
        requires made { task < tasks_made (past self.old) }
        ensures same { IsSame self.old self.new }
        ensures few { length (past self.new) < 2 ^ 64 }
        ensures event { IfOk result (λ next. 0 < self.new.history.spare) }
        ensures tasks { IfOk result (λ next. HasChildRoom self.new task) }
        ensures next { IfOk result (λ next. IsNext self.new task next) }
        ensures resources { IfOk result (λ next. HasNextRoom self.new task next) }
    {
        self.has_few_events();
        self.ready_rows(task)?;
        let next = self.next(alloc, task)?;
        self.ready_next(task, &next)?;
        Ok(next)
    }

    /// Makes a task's next step ready, which then takes no memory. After want of memory the kernel has perhaps more room, and
    /// is otherwise as it was.
    pub fn ready_task(&mut self, alloc: Global, task: u32) -> Result<ReadyTask, NoMemory>
        requires kernel { IsKernel self.old }
        requires made { task < tasks_made (past self.old) }
        ensures same { IsSame self.old self.new }
        ensures ready { IfOk result (λ r. IsReadyFor self.new task r) }
    {
        let next = self.ready_tables(alloc, task)?;
        Ok(ReadyTask {
            name: TaskName::of(alloc, self.tasks.name(task))?,
            next,
        })
    }
}

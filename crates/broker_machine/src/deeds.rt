//! A worker's turn: the deed that is due, on the kernel, and the kernel's answer to it.

ghost use Rattle.std.specs.Prelude.{◌≡◌, ◌<◌, ◌≤◌, ◌∷◌, List, Option, None, length, true, OnOk, OnErr, IfOk};
ghost use Rattle.broker_core.specs.Answers.{shown};
ghost use Rattle.broker_core.specs.Remembered.{HasEffect, Remembers};
ghost use Rattle.broker_core.specs.declared.deed.Deed.TheVariants.{Act};
ghost use Rattle.hist_model.specs.Deeds as definition;
ghost use Rattle.hist_model.specs.Legal.{rules_of};
ghost use Rattle.hist_model.specs.Sessions.{deed, session};
ghost use Rattle.hist_model.specs.Steps.{mem, request_of};
ghost use Rattle.hist_model.specs.declared.event.Event.{Event};
ghost use Rattle.hist_model.specs.declared.event.What.{What};
ghost use Rattle.hist_model.specs.declared.policy.Cap.{Cap as CapValue};
ghost use Rattle.hist_model.specs.declared.policy.Policy.{Policy as PolicyValue};
ghost use Rattle.model_kernel.specs.Kernels.{DoesDeed, IsKernel, past};
ghost use Rattle.model_kernel.specs.Ready.{IsSame};
ghost use Rattle.broker_machine.specs.Workers.{Allows, IsAllowed, KeepsOn, TriesDeed, TriesStep, is_step};

use broker_core::deed::{Deed, answer_of};
use broker_core::worker::Worker;
use hist_model::boxed::Boxed;
use hist_model::event::What;
use hist_model::policy::{Cap, Policy};
use hist_model::request::Request;
use listener::{FetchError, TakeError};
use model_kernel::Kernel;
use std::alloc::Global;
use sys_abi::memory::NoMemory;

/// A worker receives a notification, or finds its call gone; says whether it does. It waits while no call is there to receive.
fn receive(kernel: &mut Kernel, number: u8) -> bool
    requires kernel { IsKernel kernel.old }
    requires number { number ≤ 16 }
    requires room { 0 < kernel.old.history.spare }
    ensures { TriesDeed kernel.old number definition.Recv result kernel.new }
{
    match kernel.receive(number) {
        Ok(_) | Err(FetchError::Gone) => true,
        Err(FetchError::Empty) => false,
    }
}

/// A worker takes what came of its request, which it has; says whether it does. It waits while nothing has come.
fn take(kernel: &mut Kernel, number: u8) -> bool
    requires kernel { IsKernel kernel.old }
    requires asked { request_of (past kernel.old) number ≡ None → ⊥ }
    requires room { 0 < kernel.old.history.spare }
    ensures { TriesDeed kernel.old number definition.AddfdTake result kernel.new }
{
    match kernel.take(number) {
        Ok(_) | Err(TakeError::Fault(_)) => true,
        Err(TakeError::Pending) => false,
    }
}

/// A worker reads the memory that it has open.
fn read(alloc: Global, kernel: &mut Kernel, number: u8, addr: u64, len: u16) -> Result<(), NoMemory>
    requires kernel { IsKernel kernel.old }
    requires room { 0 < kernel.old.history.spare }
    ensures done { OnOk result (DoesDeed kernel.old number (definition.Read addr len) kernel.new) }
    ensures same { OnErr result (IsSame kernel.old kernel.new) }
{
    let room = Vec::with_capacity(alloc, usize::from(len))?;
    let _answer = kernel.read(number, addr, len, room);
    Ok(())
}

/// A worker stores the answer of sysinfo in the memory that it has open.
fn plant(
    alloc: Global,
    kernel: &mut Kernel,
    number: u8,
    addr: u64,
    bytes: &[u8; 112],
    cap: Option<Cap>,
) -> Result<(), NoMemory>
    requires kernel { IsKernel kernel.old }
    requires memory { mem (past kernel.old) number ≡ None → ⊥ }
    requires room { 0 < kernel.old.history.spare }
    ensures done { OnOk result (DoesDeed kernel.old number (definition.Plant addr bytes.now cap) kernel.new) }
    ensures same { OnErr result (IsSame kernel.old kernel.new) }
{
    let bytes = Boxed::new(alloc, *bytes)?;
    kernel.ready_plant(number, cap)?;
    let _answer = kernel.plant(number, addr, bytes, cap);
    Ok(())
}

/// A worker does what a request asks for.
fn act(
    kernel: &mut Kernel,
    number: u8,
    request: Boxed<Request>,
    cap: Option<Cap>,
) -> Result<(), NoMemory>
    requires kernel { IsKernel kernel.old }
    requires room { 0 < kernel.old.history.spare }
    ensures done { OnOk result (DoesDeed kernel.old number (definition.Act request cap) kernel.new) }
    ensures same { OnErr result (IsSame kernel.old kernel.new) }
{
    kernel.ready_act(request.get(), cap)?;
    let _answer = kernel.act(number, request, cap);
    Ok(())
}

/// A worker did a deed, whatever came of it, which the history tells.
fn stepped<T: Copy>(_answer: T) -> bool
    ensures { result ≡ true }
{
    true
}

/// A worker does this deed, for whose event there is room, unless it waits; says whether it does. Its answer stands in the
/// history.
fn do_deed(
    alloc: Global,
    kernel: &mut Kernel,
    number: u8,
    worker: &mut Worker,
    next: &Deed,
) -> Result<bool, NoMemory>
    requires kernel { IsKernel kernel.old }
    requires number { number ≤ 16 }
    requires room { 0 < kernel.old.history.spare }
    requires allows { Allows (past kernel.old) number next.now }
    requires effect { (cap : Option CapValue) → next.now ≡ Act cap → HasEffect worker.old }
    ensures done { (P : PolicyValue) (own : List What) → Remembers P own worker.old → next.now ≡ shown (deed (rules_of P worker.old.figures) own) → IfOk result (λ stepped. TriesDeed kernel.old number (deed (rules_of P worker.old.figures) own) stepped kernel.new) }
    ensures same { OnErr result (IsSame kernel.old kernel.new) }
    ensures keeps { KeepsOn worker.old worker.new }
{
    match next {
        Deed::Recv => Ok(receive(kernel, number)),
        Deed::OpenMem { pid } => Ok(stepped(kernel.open_mem(number, *pid))),
        Deed::OpenBase { pid, dirfd } => Ok(stepped(kernel.open_base(number, *pid, *dirfd))),
        Deed::Check { id } => Ok(stepped(kernel.check(number, *id))),
        Deed::Read { addr, len } => Ok(stepped(read(alloc, kernel, number, *addr, *len)?)),
        Deed::Act { cap } => Ok(stepped(act(kernel, number, worker.take_effect(), *cap)?)),
        Deed::Plant { addr, cap } => {
            let bytes = worker.planted();
            Ok(stepped(plant(alloc, kernel, number, *addr, &bytes, *cap)?))
        }
        Deed::AddfdPut(asked) => Ok(stepped(kernel.put(number, *asked))),
        Deed::AddfdTake => Ok(take(kernel, number)),
        Deed::Send { id, back } => Ok(stepped(kernel.send(number, *id, back))),
        Deed::LetGo => Ok(stepped(kernel.let_go(number))),
    }
}

/// What came of a worker's turn.
#[derive(Clone, Copy, PartialEq, Eq, Debug)]
pub enum WorkerStep {
    /// It waits, and made no step.
    Waits,
    /// It received the notification with this id.
    Received(u64),
    /// It found this id valid.
    Valid(u64),
    /// It sent the answer to the notification with this id, whether or not it was taken.
    Sent(u64),
    /// It made another step.
    Other,
}

impl WorkerStep {
    /// Whether it made a step.
    pub fn is_step(self) -> bool
        ensures { result ≡ is_step self }
    {
        !matches!(self, WorkerStep::Waits)
    }
}

/// What came of a deed that was done, by the step that the history has of it.
fn step_taken(step: &What) -> WorkerStep
    ensures { is_step result ≡ true }
{
    match step {
        What::Recv { answer: Ok(notif) } => WorkerStep::Received(notif.id),
        What::Check { id, answer: Ok(()) } => WorkerStep::Valid(*id),
        What::Send { id, .. } => WorkerStep::Sent(*id),
        _ => WorkerStep::Other,
    }
}

/// The newest step of the history.
#[tactic(auto, using(crate::proofs::Answered::newest_of))]
fn newest(kernel: &Kernel) -> &What
    requires { 0 < length (past kernel.now) }
    ensures { (e : Event) (K : List Event) → past kernel.now ≡ e ∷ K → result.now ≡ e.what }
{
    match kernel.history().events().split_last() {
        Some((event, _)) => &event.what,
        None => unreachable!(),
    }
}

/// A worker's turn: what it does next, with the kernel's answer, which it takes, unless it waits; says what came of it. The other
/// workers may be free to ask for anything, as long as what this one has open and asked for allows what it does next.
pub fn worker_turn(
    alloc: Global,
    policy: &Policy,
    kernel: &mut Kernel,
    number: u8,
    worker: &mut Worker,
) -> Result<WorkerStep, NoMemory>
    requires kernel { IsKernel kernel.old }
    requires allowed { IsAllowed policy.now kernel.old number }
    requires number { number ≤ 16 }
    requires remembers { Remembers policy.now (session (past kernel.old) number) worker.old }
    requires figures { worker.old.figures ≡ kernel.old.script.figures }
    ensures step { IfOk result (λ came. TriesStep policy.now kernel.old number (is_step came) kernel.new) }
    ensures same { OnErr result (IsSame kernel.old kernel.new) }
    ensures remembers { Remembers policy.now (session (past kernel.new) number) worker.new }
    ensures figures { worker.new.figures ≡ kernel.old.script.figures }
{
    // Of a history with fewer than 2^64 events it is known that a worker plants into a memory that is open.
    kernel.has_few_events();
    worker.ready(policy)?;
    let next = worker.next();
    kernel.ready_event()?;
    if !do_deed(alloc, kernel, number, worker, &next)? {
        return Ok(WorkerStep::Waits);
    }
    let step = newest(kernel);
    worker.took(&next, &answer_of(step));
    Ok(step_taken(step))
}

//! What a worker asks of the kernel, done.

ghost use Rattle.std.specs.Prelude.{◌≡◌, ◌<◌, ◌≤◌, None, IfOk};
ghost use Rattle.hist_model.specs.Steps.{mem, request_of};
ghost use Rattle.model_kernel.specs.Kernels.{IsKernel, past};
ghost use Rattle.asked_steps.specs.Asking.{refused};
ghost use Rattle.asked_steps.specs.Stands.{Comes, receipt, taking};
ghost use Rattle.step_requests.specs.declared.request.Asked.TheVariants as asks;

use crate::refusal::Refusal;
use hist_model::boxed::Boxed;
use hist_model::request::Request;
use listener::{FetchError, TakeError, back_of, check_recv, parse_put, parse_send};
use model_kernel::Kernel;
use std::alloc::Global;
use step_requests::Asked;
use sys_abi::memory::NoMemory;
use sys_abi::wire::Notif;

/// What a worker's request came to.
#[derive(Clone, Copy)]
pub enum Came {
    /// It isn't done.
    Refused(Refusal),
    /// The listener refuses the structure (EINVAL), and nothing happens.
    Invalid,
    /// The worker waits.
    Waits,
    /// It is the newest event of the history.
    Stepped,
}

/// Why a worker's request isn't done, if it isn't.
fn refused(kernel: &Kernel, worker: u8, asked: &Asked) -> Option<Refusal>
    requires { IsKernel kernel.now }
    ensures { result ≡ refused (past kernel.now) worker asked.now }
{
    match asked {
        Asked::Plant { .. } if !kernel.holds_mem(worker) => Some(Refusal::NoMemoryIsOpen),
        Asked::Addfd(_) if kernel.has_request(worker) => Some(Refusal::RequestIsPut),
        Asked::AddfdResult if !kernel.has_request(worker) => Some(Refusal::NoRequest),
        _ => None,
    }
}

/// What a receive came to.
fn receipt(received: &Result<Notif, FetchError>) -> Came
    ensures { result ≡ receipt received.now }
{
    match received {
        Ok(_) | Err(FetchError::Gone) => Came::Stepped,
        Err(FetchError::Empty) => Came::Waits,
    }
}

/// A worker receives a notification into a buffer.
fn receive(kernel: &mut Kernel, worker: u8, buffer: &[u8; 80]) -> Came
    requires kernel { IsKernel kernel.old }
    requires worker { worker ≤ 16 }
    requires room { 0 < kernel.old.history.spare }
    ensures { Comes kernel.old worker (asks.Recv buffer.now) result kernel.new }
{
    if check_recv(buffer).is_err() {
        return Came::Invalid;
    }
    let received = kernel.receive(worker);
    receipt(&received)
}

/// A worker answers a call by a structure.
fn send(kernel: &mut Kernel, worker: u8, bytes: &[u8; 24]) -> Came
    requires kernel { IsKernel kernel.old }
    requires room { 0 < kernel.old.history.spare }
    ensures { Comes kernel.old worker (asks.Send bytes.now) result kernel.new }
{
    match parse_send(bytes) {
        Ok(resp) => {
            let _answer = kernel.send(worker, resp.id, &back_of(&resp));
            Came::Stepped
        }
        Err(_) => Came::Invalid,
    }
}

/// A worker, which has no request, asks for a descriptor by a structure.
fn put(kernel: &mut Kernel, worker: u8, bytes: &[u8; 24]) -> Came
    requires kernel { IsKernel kernel.old }
    requires worker { worker ≤ 16 }
    requires free { request_of (past kernel.old) worker ≡ None }
    requires room { 0 < kernel.old.history.spare }
    ensures { Comes kernel.old worker (asks.Addfd bytes.now) result kernel.new }
{
    // Whether the source is open is for `put` to say, since its answer is an event.
    match parse_put(bytes, true) {
        Ok(asked) => {
            let _answer = kernel.put(worker, asked);
            Came::Stepped
        }
        Err(_) => Came::Invalid,
    }
}

/// What the taking of what came of a request came to.
fn taking(taken: &Result<u32, TakeError>) -> Came
    ensures { result ≡ taking taken.now }
{
    match taken {
        Ok(_) | Err(TakeError::Fault(_)) => Came::Stepped,
        Err(TakeError::Pending) => Came::Waits,
    }
}

/// A worker, which has a request, takes what came of it.
fn take(kernel: &mut Kernel, worker: u8) -> Came
    requires kernel { IsKernel kernel.old }
    requires asked { request_of (past kernel.old) worker ≡ None → ⊥ }
    requires room { 0 < kernel.old.history.spare }
    ensures { Comes kernel.old worker asks.AddfdResult result kernel.new }
{
    let taken = kernel.take(worker);
    taking(&taken)
}

/// A worker opens a memory.
fn open_mem(kernel: &mut Kernel, worker: u8, pid: u32) -> Came
    requires kernel { IsKernel kernel.old }
    requires worker { worker ≤ 16 }
    requires room { 0 < kernel.old.history.spare }
    ensures { Comes kernel.old worker (asks.OpenMem pid) result kernel.new }
{
    let _answer = kernel.open_mem(worker, pid);
    Came::Stepped
}

/// A worker opens the base of relative paths. (There is memory for it: with a plain answer the toolchain can't write the statement of
/// its caller, see docs/DECISIONS.md.)
fn open_base(kernel: &mut Kernel, worker: u8, pid: u32, dirfd: i32) -> Result<Came, NoMemory>
    requires kernel { IsKernel kernel.old }
    requires worker { worker ≤ 16 }
    requires room { 0 < kernel.old.history.spare }
    ensures { IfOk result (λ came. Comes kernel.old worker (asks.OpenBase pid dirfd) came kernel.new) }
{
    let _answer = kernel.open_base(worker, pid, dirfd);
    Ok(Came::Stepped)
}

/// A worker asks whether an id is valid.
fn check(kernel: &mut Kernel, worker: u8, id: u64) -> Came
    requires kernel { IsKernel kernel.old }
    requires room { 0 < kernel.old.history.spare }
    ensures { Comes kernel.old worker (asks.Check id) result kernel.new }
{
    let _answer = kernel.check(worker, id);
    Came::Stepped
}

/// A worker reads the memory that it has open.
fn read(
    alloc: Global,
    kernel: &mut Kernel,
    worker: u8,
    addr: u64,
    len: u16,
) -> Result<Came, NoMemory>
    requires kernel { IsKernel kernel.old }
    requires room { 0 < kernel.old.history.spare }
    ensures { IfOk result (λ came. Comes kernel.old worker (asks.Read addr len) came kernel.new) }
{
    let room = Vec::with_capacity(alloc, usize::from(len))?;
    let _answer = kernel.read(worker, addr, len, room);
    Ok(Came::Stepped)
}

/// A worker does what a request asks for, as often as it wants to.
fn act(alloc: Global, kernel: &mut Kernel, worker: u8, request: &Request) -> Result<Came, NoMemory>
    requires kernel { IsKernel kernel.old }
    requires room { 0 < kernel.old.history.spare }
    ensures { IfOk result (λ came. Comes kernel.old worker (asks.Act request.now) came kernel.new) }
{
    let request = Boxed::new(alloc, request.copied(alloc)?)?;
    kernel.ready_act(request.get(), None)?;
    let _answer = kernel.act(worker, request, None);
    Ok(Came::Stepped)
}

/// A worker stores the answer of sysinfo in the memory that it has open, as often as it wants to.
fn plant(
    alloc: Global,
    kernel: &mut Kernel,
    worker: u8,
    addr: u64,
    bytes: &[u8; 112],
) -> Result<Came, NoMemory>
    requires kernel { IsKernel kernel.old }
    requires memory { mem (past kernel.old) worker ≡ None → ⊥ }
    requires room { 0 < kernel.old.history.spare }
    ensures { IfOk result (λ came. Comes kernel.old worker (asks.Plant addr bytes.now) came kernel.new) }
{
    let bytes = Boxed::new(alloc, *bytes)?;
    kernel.ready_plant(worker, None)?;
    let _answer = kernel.plant(worker, addr, bytes, None);
    Ok(Came::Stepped)
}

/// A worker lets go of its notification.
fn let_go(kernel: &mut Kernel, worker: u8) -> Came
    requires kernel { IsKernel kernel.old }
    requires worker { worker ≤ 16 }
    requires room { 0 < kernel.old.history.spare }
    ensures { Comes kernel.old worker asks.LetGo result kernel.new }
{
    kernel.let_go(worker);
    Came::Stepped
}

/// Does what a worker asks for, against which nothing stands.
fn done(alloc: Global, kernel: &mut Kernel, worker: u8, asked: &Asked) -> Result<Came, NoMemory>
    requires kernel { IsKernel kernel.old }
    requires worker { worker ≤ 16 }
    requires room { 0 < kernel.old.history.spare }
    requires may { refused (past kernel.old) worker asked.now ≡ None }
    ensures { IfOk result (λ came. Comes kernel.old worker asked.now came kernel.new) }
{
    match asked {
        Asked::Recv(buffer) => Ok(receive(kernel, worker, buffer)),
        Asked::OpenMem { pid } => Ok(open_mem(kernel, worker, *pid)),
        Asked::OpenBase { pid, dirfd } => open_base(kernel, worker, *pid, *dirfd),
        Asked::Check { id } => Ok(check(kernel, worker, *id)),
        Asked::Read { addr, len } => read(alloc, kernel, worker, *addr, *len),
        Asked::Act(request) => act(alloc, kernel, worker, request.get()),
        Asked::Plant { addr, bytes } => plant(alloc, kernel, worker, *addr, bytes),
        Asked::Addfd(bytes) => Ok(put(kernel, worker, bytes)),
        Asked::AddfdResult => Ok(take(kernel, worker)),
        Asked::Send(bytes) => Ok(send(kernel, worker, bytes)),
        Asked::LetGo => Ok(let_go(kernel, worker)),
    }
}

/// Does what a worker asks for, and says what it came to.
pub fn ask(alloc: Global, kernel: &mut Kernel, worker: u8, asked: &Asked) -> Result<Came, NoMemory>
    requires kernel { IsKernel kernel.old }
    requires worker { worker ≤ 16 }
    ensures { IfOk result (λ came. Comes kernel.old worker asked.now came kernel.new) }
{
    if let Some(why) = refused(kernel, worker, asked) {
        return Ok(Came::Refused(why));
    }
    kernel.ready_event()?;
    done(alloc, kernel, worker, asked)
}

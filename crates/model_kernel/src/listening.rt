//! What workers ask of the listener (seccomp_unotify(2)).

ghost use Rattle.std.specs.Prelude.{◌≡◌, ℕ, ◌<◌, ◌≤◌, List, ◌∷◌, Option, Some, None, Ok, Err, IfOk, false, true};
ghost use Rattle.listener.specs.Puts.{is_known};
ghost use Rattle.listener.specs.Requests.{has_request};
ghost use Rattle.listener.specs.declared.listener.TakeError.TheVariants.{Pending};
ghost use Rattle.hist_model.specs.Calls.{caller, count, named};
ghost use Rattle.hist_model.specs.Deeds as deed;
ghost use Rattle.hist_model.specs.Look.{event_at};
ghost use Rattle.hist_model.specs.Signals.{call_of};
ghost use Rattle.hist_model.specs.Steps.{args_in, check_answer, deed_step, notif, nr_in, oldest_unfetched, recv_answer, request_of, send_answer};
ghost use Rattle.hist_model.specs.declared.event.Event.{Event};
ghost use Rattle.hist_model.specs.declared.event.What.TheVariants.{AddfdPut, Skip};
ghost use Rattle.hist_model.specs.declared.script.Script.{Script};
ghost use Rattle.history_frames.specs.Ordinals.{task_name_of, tasks_made};
ghost use Rattle.tasks.specs.Stands.{StandsFor as TasksStandFor};
ghost use Rattle.task_groups.specs.Groups.{Holds, HasRow};
ghost use Rattle.task_groups.specs.State.{State};
ghost use Rattle.model_kernel.specs.Stands.{IsOneOf, without};
ghost use Rattle.model_kernel.specs.Steps.{IsServed};
ghost use Rattle.listener.specs.Stands.{IsNext, take_of};
ghost use Rattle.listener.specs.declared.queue.FetchError.TheVariants.{Empty, Gone};
ghost use Rattle.model_kernel.specs.Kernels.{DoesDeed, IsKernel, past, system, taken_step};

use crate::kernel::{Kernel, same};
use hist_model::event::{Back, What};
use hist_model::notification::Fetched;
use listener::{FetchError, TakeError};
use sys_abi::errno::Errno;
use sys_abi::wire::{AUDIT_ARCH_X86_64, Addfd, Notif, SeccompData};
use task_groups::Groups;

impl Kernel {
    /// The number and the arguments of the call in which a task waits.
    fn entered_call(&self, task: u32) -> (i32, [u64; 6])
        ensures { (S : Script) (K : List Event) (c : ℕ) → TasksStandFor S K self.now.tasks → task < tasks_made K → call_of K (task_name_of K task) ≡ Some c → (result.0 ≡ nr_in (event_at K c)) × (result.1 ≡ args_in (event_at K c)) }
    {
        match self.tasks.entered(task) {
            Some(entered) => {
                let args = entered.args;
                (entered.nr, args)
            }
            None => (0, [0; 6]),
        }
    }

    /// The notification of a call that is received next.
    fn notification(&self, call: Fetched) -> Notif
        ensures { (S : Script) (K : List Event) (next : IsNext K call) → TasksStandFor S K self.now.tasks → call_of K (caller K next.place) ≡ Some next.place → result ≡ notif K next.place }
    {
        let (nr, args) = self.entered_call(call.owner.ordinal);
        Notif {
            id: call.id,
            pid: self.tasks.pid(call.owner.ordinal),
            flags: 0,
            call: SeccompData {
                nr,
                arch: AUDIT_ARCH_X86_64,
                ip: 0,
                args,
            },
        }
    }

    /// A worker receives the notification of the oldest call that wasn't received (SECCOMP_IOCTL_NOTIF_RECV). `Empty` comes
    /// exactly where the count of requests is 0, which is no event; `Gone` (ENOENT) where it isn't and no such call is listed.
    pub fn receive(&mut self, worker: u8) -> Result<Notif, FetchError>
        requires kernel { IsKernel self.old }
        requires worker { worker ≤ 16 }
        requires room { 0 < self.old.history.spare }
        ensures done { (result ≡ Err Empty → ⊥) → DoesDeed self.old worker deed.Recv self.new }
        ensures next { IfOk result (λ n. recv_answer (past self.old) (oldest_unfetched (past self.old)) ≡ Ok n) }
        ensures counted { (result ≡ Err Empty → ⊥) → 0 < count (past self.old) }
        ensures gone { result ≡ Err Gone → oldest_unfetched (past self.old) ≡ None }
        ensures empty { result ≡ Err Empty → deed_step (system self.old) (past self.old) worker deed.Recv ≡ Skip }
        ensures none { result ≡ Err Empty → count (past self.old) ≡ 0 }
        ensures same { result ≡ Err Empty → self.new ≡ self.old }
    {
        match self.resources.listener.receive() {
            Ok(call) => {
                self.resources.workers.received(worker);
                let notif = self.notification(call);
                self.note(worker, What::Recv { answer: Ok(notif) });
                Ok(notif)
            }
            Err(FetchError::Gone) => {
                self.note(
                    worker,
                    What::Recv {
                        answer: Err(Errno::ENOENT),
                    },
                );
                Err(FetchError::Gone)
            }
            Err(FetchError::Empty) => Err(FetchError::Empty),
        }
    }

    /// A worker asks whether an id is valid (SECCOMP_IOCTL_NOTIF_ID_VALID): ENOENT exactly where it names no call that was
    /// received and waits for its answer.
    pub fn check(&mut self, worker: u8, id: u64) -> Result<(), Errno>
        requires kernel { IsKernel self.old }
        requires room { 0 < self.old.history.spare }
        ensures answer { result ≡ check_answer (past self.old) (named (past self.old) id) }
        ensures done { DoesDeed self.old worker (deed.Check id) self.new }
    {
        let answer = self.resources.listener.check(id);
        let told = same(&answer);
        self.note(worker, What::Check { id, answer: told });
        answer
    }

    /// A worker answers the call with this id (SECCOMP_IOCTL_NOTIF_SEND): ENOENT exactly where no listed call has it,
    /// EINPROGRESS where its notification wasn't received, or it was answered.
    pub fn send(&mut self, worker: u8, id: u64, back: &Back) -> Result<(), Errno>
        requires kernel { IsKernel self.old }
        requires room { 0 < self.old.history.spare }
        ensures answer { result ≡ send_answer (past self.old) (named (past self.old) id) }
        ensures done { DoesDeed self.old worker (deed.Send id back.now) self.new }
    {
        let answer = self.resources.listener.send(id, *back);
        let told = same(&answer);
        self.note(
            worker,
            What::Send {
                id,
                back: *back,
                answer: told,
            },
        );
        answer
    }

    /// Whether a number is open in the broker.
    fn is_source(&self, number: u32) -> bool
        ensures { result ≡ (system self.now).source number }
    {
        self.script
            .broker
            .items()
            .iter()
            .any(|open| *open == number)
    }

    /// What is answered to a worker that asks for a descriptor, before that is noted.
    fn ask(&mut self, worker: u8, asked: Addfd) -> Result<(), Errno>
        requires kernel { IsKernel self.old }
        requires worker { worker ≤ 16 }
        requires free { has_request self.old.resources.listener.requests worker ≡ false }
        ensures answer { AddfdPut asked result ≡ deed_step (system self.old) (past self.old) worker (deed.AddfdPut asked) }
        ensures served { IsServed self.old worker (AddfdPut asked result) self.new }
    {
        if self.is_source(asked.srcfd) {
            self.resources.listener.put(worker, asked)
        } else {
            Err(Errno::EBADF)
        }
    }

    /// A worker, which has no request, asks for a descriptor in the caller of a call (SECCOMP_IOCTL_NOTIF_ADDFD), with known
    /// flags: EBADF exactly where its source isn't open in the broker, ENOENT where no listed call has the id, EINPROGRESS
    /// where its notification wasn't received, or it was answered, and EBUSY for SECCOMP_ADDFD_FLAG_SEND where another request
    /// of the call isn't installed yet.
    pub fn put(&mut self, worker: u8, asked: Addfd) -> Result<(), Errno>
        requires kernel { IsKernel self.old }
        requires worker { worker ≤ 16 }
        requires free { request_of (past self.old) worker ≡ None }
        requires known { is_known asked ≡ true }
        requires room { 0 < self.old.history.spare }
        ensures answer { AddfdPut asked result ≡ deed_step (system self.old) (past self.old) worker (deed.AddfdPut asked) }
        ensures done { DoesDeed self.old worker (deed.AddfdPut asked) self.new }
    {
        let answer = self.ask(worker, asked);
        let told = same(&answer);
        self.note(
            worker,
            What::AddfdPut {
                asked,
                answer: told,
            },
        );
        answer
    }

    /// A worker takes what came of its request, which it has: the number that was installed, or `Fault` with the errno with
    /// which the installation failed, or ENOENT where the call was left without one. `Pending` exactly where none was made and
    /// the call is listed, which is no event.
    pub fn take(&mut self, worker: u8) -> Result<u32, TakeError>
        requires kernel { IsKernel self.old }
        requires asked { request_of (past self.old) worker ≡ None → ⊥ }
        requires room { 0 < self.old.history.spare }
        ensures answer { take_of result ≡ deed_step (system self.old) (past self.old) worker deed.AddfdTake }
        ensures done { (result ≡ Err Pending → ⊥) → DoesDeed self.old worker deed.AddfdTake self.new }
        ensures same { result ≡ Err Pending → self.new ≡ self.old }
    {
        let taken = self.resources.listener.take(worker);
        if let Some(answer) = answer_of(&taken) {
            self.note(worker, What::AddfdTake { answer });
        }
        taken
    }

    /// A worker closes what it opened for a notification.
    pub fn let_go(&mut self, worker: u8)
        requires kernel { IsKernel self.old }
        requires worker { worker ≤ 16 }
        requires room { 0 < self.old.history.spare }
        ensures { DoesDeed self.old worker deed.LetGo self.new }
    {
        let group = self.resources.workers.memory(worker);
        close(&mut self.resources.groups, group);
        self.resources.workers.let_go(worker);
        self.note(worker, What::LetGo);
    }
}

/// Closes the memory of a group, if there is one.
pub(crate) fn close(groups: &mut Groups, group: Option<u32>)
    requires { (g : ℕ) → group ≡ Some g → HasRow groups.old g }
    ensures { (s : State) → Holds s groups.old → IsOneOf s.handles group → Holds (record s { handles = without s.handles group }) groups.new }
{
    if let Some(group) = group {
        groups.closed(group);
    }
}

/// The answer of a take, where it is an event.
fn answer_of(taken: &Result<u32, TakeError>) -> Option<Result<u32, Errno>>
    ensures { taken_step result ≡ take_of taken.now }
{
    match taken {
        Ok(number) => Some(Ok(*number)),
        Err(TakeError::Fault(errno)) => Some(Err(*errno)),
        Err(TakeError::Pending) => None,
    }
}

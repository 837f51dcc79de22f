//! What workers open, read and do.

ghost use Rattle.std.specs.Prelude.{◌≡◌, ℕ, ◌^◌, length, ◌<◌, ◌≤◌, true, false, List, Result, Ok, Err, Some, None, IfSome, IfNone, if◌then◌else◌, vec_capacity};
ghost use Rattle.std.specs.Result.{result_and};
ghost use Rattle.hist_model.specs.Deeds as deed;
ghost use Rattle.hist_model.specs.Effects.{effect};
ghost use Rattle.hist_model.specs.Steps.{base_answer, is_spent, lives, mem, opened, read_answer};
ghost use Rattle.hist_model.specs.Tasks.{holder};
ghost use Rattle.hist_model.specs.declared.event.What.TheVariants.{Act, OpenBase, Plant};
ghost use Rattle.history_frames.specs.Ordinals.{group_of};
ghost use Rattle.path_walk.specs.Performed.{room_wanted};
ghost use Rattle.sys_abi.specs.Errnos.{edquot, efault, esrch};
ghost use Rattle.sys_abi.specs.Memory.{lacked_memory};
ghost use Rattle.task_groups.specs.Groups.{IsLive, IsReadAnswer};
ghost use Rattle.model_kernel.specs.Kernels.{DoesDeed, IsKernel, past, system};
ghost use Rattle.model_kernel.specs.Spent.{HasRoom as HasSpentRoom};
ghost use Rattle.model_kernel.specs.Stands.{HasPlantRoom};
ghost use Rattle.model_kernel.specs.Steps.{IsServed};

use crate::kernel::{Kernel, same};
use crate::listening::close;
use hist_model::boxed::Boxed;
use hist_model::event::What;
use hist_model::policy::Cap;
use hist_model::request::{Fault, Request};
use hist_model::text::Text;
use path_walk::effects::perform_request;
use sys_abi::errno::Errno;
use sys_abi::memory::OrNoMemory;

impl Kernel {
    /// What is answered to a worker that does what a request asks for, before that is noted.
    fn effect(&mut self, worker: u8, request: &Request, cap: Option<Cap>) -> Result<(), Errno>
        requires kernel { IsKernel self.old }
        requires spent { HasSpentRoom self.old.resources.spent cap }
        requires tree { room_wanted (effect request.now) ≤ self.old.resources.tree.spare }
        ensures answer { result ≡ (if is_spent (past self.old) cap then Err edquot else (system self.old).outcome (past self.old) worker request.now) }
        ensures served { IsServed self.old worker (Act request.now cap result) self.new }
    {
        if self.resources.spent.is_spent(cap) {
            return Err(Errno::EDQUOT);
        }
        let base = self.resources.workers.base(worker);
        match perform_request(
            &mut self.resources.tree,
            self.resources.container.root,
            base,
            request,
            &mut self.resources.walk,
        ) {
            Ok(()) => {
                self.resources.spent.spend(cap);
                Ok(())
            }
            Err(OrNoMemory::Refused(errno)) => Err(errno),
            Err(OrNoMemory::NoMemory) => unreachable!(),
        }
    }

    /// A worker does what a request asks for in the tree, as often as the cap of the granting rule allows: EDQUOT where its
    /// rule has granted as often as it may, else as the tree answers. There is room.
    pub fn act(
        &mut self,
        worker: u8,
        request: Boxed<Request>,
        cap: Option<Cap>,
    ) -> Result<(), Errno>
        requires kernel { IsKernel self.old }
        requires room { 0 < self.old.history.spare }
        requires spent { HasSpentRoom self.old.resources.spent cap }
        requires tree { room_wanted (effect request) ≤ self.old.resources.tree.spare }
        ensures deed { DoesDeed self.old worker (deed.Act request cap) self.new }
        ensures answer { result ≡ (if is_spent (past self.old) cap then Err edquot else (system self.old).outcome (past self.old) worker request) }
    {
        let answer = self.effect(worker, request.get(), cap);
        let told = same(&answer);
        self.note(
            worker,
            What::Act {
                request,
                cap,
                answer: told,
            },
        );
        answer
    }

    /// What is answered to a worker that stores the answer of sysinfo, before that is noted.
    fn stored(
        &mut self,
        worker: u8,
        addr: u64,
        bytes: &[u8; 112],
        cap: Option<Cap>,
    ) -> Result<(), Errno>
        requires kernel { IsKernel self.old }
        requires memory { mem (past self.old) worker ≡ None → ⊥ }
        requires room { HasPlantRoom self.old.resources worker cap }
        ensures answer { result ≡ (if is_spent (past self.old) cap then Err edquot else (if (system self.old).writable addr then Ok tt else Err efault)) }
        ensures served { IsServed self.old worker (Plant addr bytes.now cap result) self.new }
    {
        if self.resources.spent.is_spent(cap) {
            return Err(Errno::EDQUOT);
        }
        let Some(group) = self.resources.workers.memory(worker) else {
            unreachable!()
        };
        match self.resources.groups.store(group, addr, bytes) {
            Ok(()) => {
                self.resources.spent.spend(cap);
                Ok(())
            }
            Err(Fault) => Err(Errno::EFAULT),
        }
    }

    /// A worker stores the answer of sysinfo in the memory that it has open, as often as the cap of the granting rule allows:
    /// EDQUOT where its rule has granted as often as it may, else EFAULT where one of the bytes isn't mapped. There is room.
    pub fn plant(
        &mut self,
        worker: u8,
        addr: u64,
        bytes: Boxed<[u8; 112]>,
        cap: Option<Cap>,
    ) -> Result<(), Errno>
        requires kernel { IsKernel self.old }
        requires room { 0 < self.old.history.spare }
        requires memory { mem (past self.old) worker ≡ None → ⊥ }
        requires plant { HasPlantRoom self.old.resources worker cap }
        ensures deed { DoesDeed self.old worker (deed.Plant addr bytes cap) self.new }
        ensures answer { result ≡ (if is_spent (past self.old) cap then Err edquot else (if (system self.old).writable addr then Ok tt else Err efault)) }
    {
        let answer = self.stored(worker, addr, bytes.get(), cap);
        let told = same(&answer);
        self.note(
            worker,
            What::Plant {
                addr,
                bytes,
                cap,
                answer: told,
            },
        );
        answer
    }

    /// A worker opens the memory of the task that holds a PID, which takes the place of the one that it has open: ESRCH exactly
    /// where no living task holds it.
    pub fn open_mem(&mut self, worker: u8, pid: u32) -> Result<(), Errno>
        requires kernel { IsKernel self.old }
        requires room { 0 < self.old.history.spare }
        requires worker { worker ≤ 16 }
        ensures deed { DoesDeed self.old worker (deed.OpenMem pid) self.new }
        ensures answer { result ≡ (if lives (past self.old) (holder (past self.old) pid) then Ok tt else Err esrch) }
    {
        let Some(group) = self.living_group(pid) else {
            self.note(
                worker,
                What::OpenMem {
                    pid,
                    answer: Err(Errno::ESRCH),
                },
            );
            return Err(Errno::ESRCH);
        };
        let former = self.resources.workers.memory(worker);
        self.resources.groups.opened(group);
        close(&mut self.resources.groups, former);
        self.resources.workers.opened_memory(worker, group);
        self.note(
            worker,
            What::OpenMem {
                pid,
                answer: Ok(()),
            },
        );
        Ok(())
    }

    /// What is answered to a worker that opens a base, before that is noted.
    fn based(&mut self, worker: u8, pid: u32, dirfd: i32) -> Result<(), Errno>
        requires kernel { IsKernel self.old }
        requires worker { worker ≤ 16 }
        ensures answer { result ≡ base_answer (system self.old) (past self.old) (holder (past self.old) pid) dirfd }
        ensures served { IsServed self.old worker (OpenBase pid dirfd result) self.new }
    {
        let Some(group) = self.living_group(pid) else {
            return Err(Errno::ESRCH);
        };
        let Some(base) = self.resources.base_in(group, dirfd) else {
            return Err(Errno::EBADF);
        };
        self.resources.workers.opened_base(worker, Some(base));
        Ok(())
    }

    /// A worker opens the directory from which relative paths of the task that holds a PID go: ESRCH exactly where
    /// no living task holds it, else EBADF exactly where the descriptor leads to no directory.
    pub fn open_base(&mut self, worker: u8, pid: u32, dirfd: i32) -> Result<(), Errno>
        requires kernel { IsKernel self.old }
        requires room { 0 < self.old.history.spare }
        requires worker { worker ≤ 16 }
        ensures deed { DoesDeed self.old worker (deed.OpenBase pid dirfd) self.new }
        ensures answer { result ≡ base_answer (system self.old) (past self.old) (holder (past self.old) pid) dirfd }
    {
        let answer = self.based(worker, pid, dirfd);
        let told = same(&answer);
        self.note(
            worker,
            What::OpenBase {
                pid,
                dirfd,
                answer: told,
            },
        );
        answer
    }

    /// Reads the memory that a worker has open, as `read` has it, into `out`: a fault where it answers EFAULT.
    fn peek(
        &self,
        worker: u8,
        addr: u64,
        len: u16,
        out: &mut Vec<u8>,
    ) -> Result<(), OrNoMemory<Fault>>
        requires { IsKernel self.now }
        ensures answer { IsReadAnswer result out.new.items (read_answer (system self.now) (past self.now) (mem (past self.now) worker) addr len) }
        ensures room { len ≤ vec_capacity out.old → lacked_memory result ≡ false }
    {
        match self.resources.workers.memory(worker) {
            Some(group) => self.resources.groups.read(group, addr, len, out),
            None => Err(OrNoMemory::Refused(Fault)),
        }
    }

    /// A worker reads the memory that it has open from an address on, up to the first byte that isn't mapped, and at most
    /// `len` bytes, which are written into `room`: EFAULT where the first isn't mapped, and where the worker has no memory
    /// open.
    pub fn read(&mut self, worker: u8, addr: u64, len: u16, room: Vec<u8>) -> Result<(), Errno>
        requires kernel { IsKernel self.old }
        requires room { 0 < self.old.history.spare }
        requires bytes { len ≤ vec_capacity room }
        ensures deed { DoesDeed self.old worker (deed.Read addr len) self.new }
        ensures answer { result ≡ result_and (read_answer (system self.old) (past self.old) (mem (past self.old) worker) addr len) (Ok tt) }
    {
        let mut bytes = room;
        let found = self.peek(worker, addr, len, &mut bytes);
        let answer = text_read(found, bytes);
        let outcome = without_bytes(&answer);
        self.note(worker, What::Read { addr, len, answer });
        outcome
    }

    /// There are fewer than 2^62 events, since each takes more bytes than one.
    pub fn has_few_events(&self)
        ensures { length (past self.now) < 2 ^ 62 }
    {
        let events = self.history.events();
        let _count = events.len();
    }

    /// The group of the living task that holds a PID: none exactly where no living task holds it.
    pub(crate) fn living_group(&self, pid: u32) -> Option<u32>
        requires { IsKernel self.now }
        ensures live { IfSome result (λ o. IsLive self.now.resources.groups o) }
        ensures some { IfSome result (λ o. lives (past self.now) (holder (past self.now) pid) ≡ true) }
        ensures group { IfSome result (λ o. (g : ℕ) × (opened (past self.now) (holder (past self.now) pid) ≡ Some g) × (group_of (past self.now) o ≡ Some g)) }
        ensures none { IfNone result (lives (past self.now) (holder (past self.now) pid) ≡ false) }
    {
        // No more tasks live than there are events: so few that their groups are live.
        self.has_few_events();
        let task = self.tasks.holder(pid)?;
        if self.tasks.has_ended(task) {
            return None;
        }
        Some(self.tasks.group(task))
    }
}

/// What a read tells that left these bytes. There was room for them.
fn text_read(found: Result<(), OrNoMemory<Fault>>, bytes: Vec<u8>) -> Result<Text, Errno>
    requires { lacked_memory found ≡ false }
    ensures { (answer : Result (List ℕ) ℕ) → IsReadAnswer found bytes.items answer → result ≡ answer }
{
    match found {
        Ok(()) => Ok(Text::new(bytes)),
        Err(OrNoMemory::Refused(Fault)) => Err(Errno::EFAULT),
        Err(OrNoMemory::NoMemory) => unreachable!(),
    }
}

/// What a read answers beside the bytes.
fn without_bytes(answer: &Result<Text, Errno>) -> Result<(), Errno>
    ensures { result ≡ result_and answer.now (Ok tt) }
{
    match answer {
        Ok(_) => Ok(()),
        Err(errno) => Err(*errno),
    }
}

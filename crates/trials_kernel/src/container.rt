//! A container whose kernel is under trial, and how each step is taken there by the kernel's calls.

ghost use Rattle.std.specs.Prelude.{◌≡◌, ◌<◌, ◌≤◌, OnOk};
ghost use Rattle.model_kernel.specs.Kernels.{IsKernel};

use crate::steps::{Step, Told};
use hist_model::boxed::Boxed;
use hist_model::policy::Cap;
use hist_model::request::Request;
use hist_model::text::Text;
use listener::response;
use model_kernel::{CannotStep, Kernel};
use script_reader::read_script;
use std::alloc::Global;
use std::marker::Model;
use std::test::Fail;
use sys_abi::memory::NoMemory;
use sys_abi::wire::{AT_FDCWD, Addfd, Resp};

/// A container's kernel, and where it takes memory from. Contracts see nothing of it. It isn't `Drop`, and ends by `close`: so
/// no trial's proof goes through all that a kernel holds.
pub(crate) struct Container {
    alloc: Global,
    kernel: Kernel,
}

impl Model for Container {
    ghost use Rattle.model_kernel.specs.Kernels.{IsKernel};

    ghost Value = { Unit {0} };

    ghost view = { λ c. tt };

    ghost invariant = { λ c. IsKernel c.kernel };
}

/// Makes room for a step of a worker. It fails where there is no worker of this number.
fn ready(kernel: &mut Kernel, worker: u8) -> Result<(), Fail>
    requires { IsKernel kernel.old }
    ensures kernel { IsKernel kernel.new }
    ensures room { OnOk result (0 < kernel.new.history.spare) }
    ensures worker { OnOk result (worker ≤ 16) }
{
    if worker > 16 {
        return Err(Fail::new("no such worker"));
    }
    kernel.ready_event()?;
    Ok(())
}

impl Container {
    /// The container that a script states.
    pub(crate) fn of(alloc: Global, script: &str) -> Result<Container, Fail> {
        let bytes = script.as_bytes();
        if bytes.len() > 1024 {
            return Err(Fail::new("a long script"));
        }
        let script = read_script(alloc, bytes)?;
        Ok(Container {
            alloc,
            kernel: Kernel::new(alloc, script)?,
        })
    }

    /// Takes a step, or a look.
    pub(crate) fn step(&mut self, step: Step) -> Result<Told, Fail> {
        match step {
            Step::First => self.task(&[0]),
            Step::Child => self.task(&[0, 1]),
            Step::Recv(worker) => self.recv(worker, 0),
            Step::RecvUncleared(worker) => self.recv(worker, 1),
            Step::Check(worker, id) => self.check(worker, id),
            Step::Open(worker, pid) => self.open(worker, pid),
            Step::Read(worker, addr, len) => self.read(worker, addr, len),
            Step::Plant(worker, addr) => self.plant(worker, addr),
            Step::Act(worker) => self.act(worker),
            Step::Put(worker, asked) => self.put(worker, asked),
            Step::Take(worker) => self.take(worker),
            Step::Send(worker, id, back) => self.send(worker, response(id, back)),
            Step::SendStructure(worker, asked) => self.send(worker, asked),
            Step::LetGo(worker) => self.let_go(worker),
            Step::HasMemory(worker) => Ok(Told::Is(self.has_memory(worker))),
            Step::IsFinished => Ok(Told::Is(self.is_finished())),
            Step::Events => Ok(Told::Count(self.events())),
        }
    }

    /// The task of this name takes its next step.
    fn task(&mut self, name: &[u32]) -> Result<Told, Fail> {
        let Some(task) = self.kernel.find(name) else {
            return Err(Fail::new("no such task"));
        };
        let ready = self.kernel.ready_task(self.alloc, task)?;
        match self.kernel.task_step(task, ready) {
            Ok(()) => Ok(Told::of_newest(self.kernel.history().events())),
            Err(CannotStep) => Ok(Told::Waits),
        }
    }

    /// A notification is received into a buffer of zeros, but for its last byte.
    fn recv(&mut self, worker: u8, last: u8) -> Result<Told, Fail> {
        ready(&mut self.kernel, worker)?;
        let mut buf = [0; 80];
        buf[79] = last;
        let received = self.kernel.recv(worker, &mut buf);
        Ok(Told::of_received(&received, &buf))
    }

    /// An id is checked.
    fn check(&mut self, worker: u8, id: u64) -> Result<Told, Fail> {
        ready(&mut self.kernel, worker)?;
        Ok(Told::of_answer(self.kernel.check(worker, id)))
    }

    /// What a worker, which has no memory open, opens of the task with a PID is opened.
    fn open(&mut self, worker: u8, pid: u32) -> Result<Told, Fail> {
        ready(&mut self.kernel, worker)?;
        if self.kernel.holds_mem(worker) {
            return Err(Fail::new("memory that is open"));
        }
        if let Err(errno) = self.kernel.open_mem(worker, pid) {
            return Ok(Told::Fails(errno));
        }
        ready(&mut self.kernel, worker)?;
        Ok(Told::of_answer(self.kernel.open_base(worker, pid, AT_FDCWD)))
    }

    /// Memory is read.
    fn read(&mut self, worker: u8, addr: u64, len: u16) -> Result<Told, Fail> {
        ready(&mut self.kernel, worker)?;
        let room = Vec::with_capacity(self.alloc, len as usize)?;
        if let Err(errno) = self.kernel.read(worker, addr, len, room) {
            return Ok(Told::Fails(errno));
        }
        Ok(Told::of_bytes(self.kernel.last_read(worker)))
    }

    /// Zeros are stored in the memory that is open.
    fn plant(&mut self, worker: u8, addr: u64) -> Result<Told, Fail> {
        ready(&mut self.kernel, worker)?;
        self.kernel.ready_plant(worker, None)?;
        if !self.kernel.holds_mem(worker) {
            return Err(Fail::new("no memory is open"));
        }
        let bytes = Boxed::new(self.alloc, [0; 112])?;
        Ok(Told::of_answer(self.kernel.plant(worker, addr, bytes, None)))
    }

    /// A pipe is made.
    fn act(&mut self, worker: u8) -> Result<Told, Fail> {
        let pipe = Request::Mknod {
            dirfd: None,
            path: Text::new(Vec::from_slice(self.alloc, b"/pipe")?),
            mode: 0o10644,
            dev: 0,
        };
        let request = Boxed::new(self.alloc, pipe)?;
        let cap = Some(Cap { rule: 0, times: 1 });
        ready(&mut self.kernel, worker)?;
        self.kernel.ready_act(request.get(), cap)?;
        Ok(Told::of_answer(self.kernel.act(worker, request, cap)))
    }

    /// A worker, which has no request, asks for a descriptor.
    fn put(&mut self, worker: u8, asked: Addfd) -> Result<Told, Fail> {
        ready(&mut self.kernel, worker)?;
        if self.kernel.has_request(worker) {
            return Err(Fail::new("a request that wasn't taken"));
        }
        Ok(Told::of_answer(self.kernel.addfd_put(worker, &asked.to_bytes())))
    }

    /// What came of a worker's request is taken.
    fn take(&mut self, worker: u8) -> Result<Told, Fail> {
        ready(&mut self.kernel, worker)?;
        if !self.kernel.has_request(worker) {
            return Err(Fail::new("no request"));
        }
        let taken = self.kernel.take(worker);
        Ok(Told::of_taken(&taken))
    }

    /// A call is answered.
    fn send(&mut self, worker: u8, asked: Resp) -> Result<Told, Fail> {
        ready(&mut self.kernel, worker)?;
        Ok(Told::of_answer(self.kernel.notif_send(worker, &asked.to_bytes())))
    }

    /// A worker is done with its notification.
    fn let_go(&mut self, worker: u8) -> Result<Told, Fail> {
        ready(&mut self.kernel, worker)?;
        self.kernel.let_go(worker);
        Ok(Told::Done)
    }

    /// Whether a worker has memory open.
    fn has_memory(&self, worker: u8) -> bool {
        self.kernel.holds_mem(worker)
    }

    /// Whether nothing is left to do.
    fn is_finished(&self) -> bool {
        self.kernel.finished()
    }

    /// How many events there are.
    fn events(&self) -> usize {
        self.kernel.history().len()
    }

    /// Closes the listener, if there is memory for that event, and ends the container.
    pub(crate) fn close(self) {
        let Container {
            alloc: _alloc,
            mut kernel,
        } = self;
        match kernel.ready_event() {
            Ok(()) => {
                kernel.closed();
            }
            Err(NoMemory) => {
                kernel.into_history();
            }
        }
    }
}

//! The kernel's state.

ghost use Rattle.std.specs.Prelude.{◌≡◌, ℕ, ◌<◌, ◌∷◌, OnOk};
ghost use Rattle.hist_model.specs.Look.{ev};
ghost use Rattle.hist_model.specs.declared.event.Actor.TheVariants.{Listener, Worker};
ghost use Rattle.hist_model.specs.declared.event.What.TheVariants.{Close, Skip};
ghost use Rattle.model_kernel.specs.Kernels.{IsAfter, IsKernel, past};

use crate::resources::Resources;
use hist_model::event::{Actor, Event, What};
use hist_model::history::History;
use hist_model::script::{Figures, Script};
use sys_abi::errno::Errno;
use sys_abi::memory::NoMemory;
use tasks::Tasks;

/// A container's kernel.
pub struct Kernel {
    pub(crate) script: Script,
    pub(crate) history: History,
    pub(crate) tasks: Tasks,
    pub(crate) resources: Resources,
}

// (written out, so that what letting one go comes to is proved here once, and not in each crate that owns one)
impl Drop for Kernel {
    fn drop(self) {
        let Kernel {
            script: _script,
            history: _history,
            tasks: _tasks,
            resources: _resources,
        } = self;
    }
}

impl Kernel {
    /// What has happened so far.
    pub fn history(&self) -> &History
        ensures { result.now ≡ self.now.history }
    {
        &self.history
    }

    /// The script, which states the container.
    pub fn script(&self) -> &Script
        ensures { result.now ≡ self.now.script }
    {
        &self.script
    }

    /// The host's figures, which the script states.
    pub fn figures(&self) -> Figures
        ensures { result ≡ self.now.script.figures }
    {
        self.script.figures
    }

    /// Makes room for one more event.
    pub fn ready_event(&mut self) -> Result<(), NoMemory>
        ensures room { OnOk result (0 < self.new.history.spare) }
        ensures past { past self.new ≡ past self.old }
        ensures same { self.new ≡ record self.old { history = self.new.history } }
    {
        self.history.ready(1)
    }

    /// Notes that a scheduled worker couldn't step: no call was there to receive, or its request isn't installed yet.
    pub fn skip_worker(&mut self, worker: u8)
        requires kernel { IsKernel self.old }
        requires room { 0 < self.old.history.spare }
        ensures { IsAfter self.old (ev (Worker worker) Skip) self.new }
    {
        self.note(worker, What::Skip);
    }

    /// Closes the listener, which ends the history, and gives the script back with it.
    pub fn closed(self) -> (Script, History)
        requires { 0 < self.history.spare }
        ensures script { result.0 ≡ self.script }
        ensures events { result.1.events ≡ ev Listener Close ∷ past self }
    {
        let Kernel {
            script,
            mut history,
            tasks: _tasks,
            resources: _resources,
        } = self;
        history.push(Event {
            who: Actor::Listener,
            what: What::Close,
        });
        (script, history)
    }

    /// What has happened, where the listener stays open.
    pub fn into_history(self) -> History
        ensures { result ≡ self.history }
    {
        let Kernel {
            script: _script,
            history,
            tasks: _tasks,
            resources: _resources,
        } = self;
        history
    }

    /// Appends a step of a worker, for which there is room.
    pub(crate) fn note(&mut self, worker: u8, what: What)
        requires { 0 < self.old.history.spare }
        ensures events { past self.new ≡ ev (Worker worker) what ∷ past self.old }
        ensures same { self.new ≡ record self.old { history = self.new.history } }
    {
        self.history.push(Event {
            who: Actor::Worker(worker),
            what,
        });
    }
}

/// A copy of this answer.
pub(crate) fn same(answer: &Result<(), Errno>) -> Result<(), Errno>
    ensures { result ≡ answer.now }
{
    match answer {
        Ok(()) => Ok(()),
        Err(errno) => Err(*errno),
    }
}

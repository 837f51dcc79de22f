//! The ledgers of a history's workers, which are kept up turn by turn, and the workers that are replaced.

ghost use Rattle.std.specs.Prelude.{◌≡◌, ◌<◌, ◌≤◌, ◌%◌, ◌/◌, ◌==◌, [], length, IfOk, OnOk};
ghost use Rattle.broker_machine.specs.Serving.{IsServed};
ghost use Rattle.hist_model.specs.Legal.{started};
ghost use Rattle.hist_model.specs.declared.script.Script.{Script as ScriptValue};
ghost use Rattle.model_kernel.specs.Kernels.{past};
ghost use Rattle.handover.specs.Keeping.{AllKeep, AreBehind, AreLedgers};

use crate::replacing::{hand_over, is_skip, note};
use broker_machine::Machine;
use hist_model::event::WORKERS;
use hist_model::policy::Policy;
use std::alloc::Global;
use sys_abi::memory::NoMemory;
use worker_ledger::ledger::Ledger;
use worker_ledger::successor::Heir;

/// A ledger from which a worker was replaced.
#[derive(Drop)]
pub struct Handover {
    /// The place of the worker's last step.
    pub place: usize,
    /// The worker's number.
    pub worker: u8,
    /// The ledger's text.
    pub ledger: Vec<u8>,
}

/// The ledger of each worker of a history, and those from which workers were replaced.
#[derive(Drop)]
pub struct Ledgers {
    pub(crate) ledgers: Vec<Ledger>,
    /// After how many steps of workers the one that took the last is replaced.
    pub(crate) every: u32,
    /// How many steps the workers took.
    pub(crate) steps: u64,
    pub(crate) handed: Vec<Handover>,
}

/// The ledgers of as many workers as a history may have, of which none has taken an answer.
fn new_ledgers(alloc: Global) -> Result<Vec<Ledger>, NoMemory>
    ensures number { IfOk result (λ v. length v.items ≡ 17) }
    ensures idle { IfOk result (λ v. AllKeep [] v.items) }
{
    let mut ledgers = Vec::new(alloc);
    for number in 0..WORKERS {
        ledgers.push(Ledger::new(alloc, number))?;
    }
    Ok(ledgers)
}

impl Ledgers {
    /// The ledgers of the history of a script's start, whose workers are replaced after each so many of their steps.
    #[tactic(auto, using(crate::proofs::Kept::started_ledgers))]
    pub fn new(alloc: Global, every: u32) -> Result<Ledgers, NoMemory>
        requires { 0 < every }
        ensures ledgers { IfOk result (λ l. (S : ScriptValue) → AreLedgers (started S) l) }
        ensures every { IfOk result (λ l. l.every ≡ every) }
    {
        Ok(Ledgers {
            ledgers: new_ledgers(alloc)?,
            every,
            steps: 0,
            handed: Vec::new(alloc),
        })
    }

    /// The ledgers from which workers were replaced.
    pub fn into_handed(self) -> Vec<Handover>
        ensures { result ≡ self.handed }
    {
        let Ledgers { handed, .. } = self;
        handed
    }

    /// Whether the worker that took the newest step is replaced.
    fn is_due(&self) -> bool
        requires { 0 < self.now.every }
        ensures { result ≡ (self.now.steps % self.now.every == 0) }
    {
        self.steps % u64::from(self.every) == 0
    }

    /// Whether its ledger is one behind: that of the first worker that is replaced is, and then that of every other one.
    fn is_behind(&self) -> bool
        requires { 0 < self.now.every }
        ensures { result ≡ ((self.now.steps / self.now.every) % 2 == 1) }
    {
        (self.steps / u64::from(self.every)) % 2 == 1
    }

    /// Keeps the ledgers up after the newest event, which is this worker's. A worker that stepped is replaced where the number of the
    /// workers' steps is a multiple: by turns from the ledger before its step and from the one after it.
    ///
    /// Want of memory leaves the machine with the worker that was to be replaced, and the ledgers in no state to go on with.
    pub fn keep_up<T: Heir>(
        &mut self,
        alloc: Global,
        policy: &Policy,
        machine: &mut Machine,
        number: u8,
        heir: &mut T,
    ) -> Result<(), NoMemory>
        requires served { IsServed policy.now machine.old }
        requires number { number ≤ 16 }
        requires behind { AreBehind number (past machine.old.kernel) self.old }
        ensures ledgers { OnOk result (AreLedgers (past machine.new.kernel) self.new) }
        ensures served { IsServed policy.now machine.new }
        ensures kernel { machine.new.kernel ≡ machine.old.kernel }
        ensures every { self.new.every ≡ self.old.every }
    {
        if is_skip(machine.history()) {
            return Ok(());
        }
        // So there are few steps, and their number is one more.
        machine.kernel().has_few_events();
        self.steps += 1;
        if !self.is_due() {
            note(machine, alloc, number, &mut self.ledgers[number as usize])?;
            return Ok(());
        }
        let is_behind = self.is_behind();
        let place = machine.history().len() - 1;
        let ledger = &mut self.ledgers[number as usize];
        let text = hand_over(machine, alloc, policy, number, ledger, is_behind, heir)?;
        self.handed.push(Handover {
            place,
            worker: number,
            ledger: text,
        })?;
        Ok(())
    }
}

//! A judge beside a kernel: it hears each event, up to the first that breaks a clause.

ghost use Rattle.std.specs.Prelude.{◌≡◌, ◌∷◌, List, IfOk, OnOk, false, option_map};
ghost use Rattle.hist_model.specs.Legal.{started};
ghost use Rattle.hist_model.specs.declared.event.Event.{Event};
ghost use Rattle.model_kernel.specs.Kernels.{IsKernel, past};
ghost use Rattle.judge_pass.specs.Closed.{is_closed};
ghost use Rattle.judge_pass.specs.Finding.{Watches};
ghost use Rattle.judge_pass.specs.Stands.{IsHistory};

use crate::judge::{Counts, Fault, Judge};
use crate::opened::{newest, opened};
use hist_model::policy::Policy;
use model_kernel::Kernel;
use std::alloc::Global;
use sys_abi::memory::NoMemory;

/// The event that breaks a clause first, by its place.
#[derive(Clone, Copy, PartialEq, Eq, Debug)]
pub struct FirstFault {
    pub place: usize,
    pub fault: Fault,
}

/// The fault of the event at a place, if it has one.
fn found_at(place: usize, fault: Option<Fault>) -> Option<FirstFault>
    ensures { result ≡ option_map (λ fault. record { place = place; fault = fault }) fault }
{
    match fault {
        Some(fault) => Some(FirstFault { place, fault }),
        None => None,
    }
}

/// A judge that hears the events of a kernel, one after another.
#[derive(Drop)]
pub struct Watch {
    pub(crate) judge: Judge,
    pub(crate) found: Option<FirstFault>,
}

impl Watch {
    /// The judge of a kernel that has its start alone.
    pub fn new(alloc: Global, policy: &Policy, kernel: &Kernel) -> Result<Watch, NoMemory>
        requires kernel { IsKernel kernel.now }
        requires started { past kernel.now ≡ started kernel.now.script }
        ensures { IfOk result (λ watch. Watches policy.now kernel.now.script (past kernel.now) watch) }
    {
        let mut watch = Watch {
            judge: Judge::new(alloc, policy, kernel.script().firstid)?,
            found: None,
        };
        watch.hear(policy, kernel)?;
        Ok(watch)
    }

    /// Hears the newest event of a kernel. Where an earlier one has broken a clause, nothing more is looked at.
    pub fn hear(&mut self, policy: &Policy, kernel: &Kernel) -> Result<(), NoMemory>
        requires kernel { IsKernel kernel.now }
        requires history { IsHistory kernel.now.script (past kernel.now) }
        requires goes_on { is_closed (past kernel.now) ≡ false }
        requires watches { (K : List Event) (e : Event) → past kernel.now ≡ e ∷ K → Watches policy.now kernel.now.script K self.old }
        ensures { OnOk result ((K : List Event) (e : Event) → past kernel.now ≡ e ∷ K → Watches policy.now kernel.now.script (e ∷ K) self.new) }
    {
        if self.found.is_some() {
            return Ok(());
        }
        let Some((_event, before)) = newest(kernel) else {
            return Ok(());
        };
        let fault = self.judge.judge(policy, kernel, opened(kernel))?;
        self.found = found_at(before.len(), fault);
        Ok(())
    }

    /// The event that breaks a clause first, if one does.
    pub fn found(&self) -> Option<FirstFault>
        ensures { result ≡ self.now.found }
    {
        self.found
    }

    /// How many calls were received, and how much was done and answered, where no clause is broken.
    pub fn counts(&self) -> Counts
        ensures { result ≡ self.now.judge.counts }
    {
        self.judge.counts()
    }

    /// What is kept of the events up to the one that breaks a clause.
    pub fn judge(&self) -> &Judge
        ensures { result.now ≡ self.now.judge }
    {
        &self.judge
    }
}

//! A worker that is replaced after its step, by one that goes on from its ledger.

ghost use Rattle.std.specs.Prelude.{◌≡◌, ◌≤◌, true, false, IfOk, OnOk};
ghost use Rattle.std.specs.Option.{option_map};
ghost use Rattle.broker_machine.specs.Serving.{IsServed};
ghost use Rattle.hist_model.specs.Kinds.{is_letgo};
ghost use Rattle.hist_model.specs.declared.policy.Policy.{Policy as PolicyValue};
ghost use Rattle.model_kernel.specs.Kernels.{past};
ghost use Rattle.handover.specs.Ledgers.{taken};
ghost use Rattle.handover.specs.Keeping.{Keeps, newest_of, newest_skips};
ghost use Rattle.handover.specs.Replacing.{GoesOnIn, IsLedgerIn, IsOneBehind, IsStepAt, IsWritten};

use broker_core::deed::answer_of;
use broker_machine::Machine;
use hist_model::event::{Event, What};
use hist_model::history::History;
use hist_model::policy::Policy;
use hist_model::script::Figures;
use std::alloc::Global;
use sys_abi::memory::{NoMemory, OrNoMemory};
use worker_ledger::ledger::Ledger;
use worker_ledger::successor::{Heir, Successor};

/// The newest event.
fn newest(history: &History) -> Option<&Event>
    ensures { option_map (λ e. e.now) result ≡ newest_of history.now.events }
{
    if history.is_empty() {
        None
    } else {
        history.get(history.len() - 1)
    }
}

/// Whether the newest event is a skip.
pub(crate) fn is_skip(history: &History) -> bool
    ensures { result ≡ newest_skips history.now.events }
{
    match newest(history) {
        Some(event) => matches!(event.what, What::Skip),
        None => false,
    }
}

/// Whether a worker lets go by this event.
fn lets_go(event: &Event) -> bool
    ensures { result ≡ is_letgo event.now.what }
{
    matches!(event.what, What::LetGo)
}

/// Notes a worker's newest step in its ledger, which has those before it.
pub(crate) fn note(
    machine: &Machine,
    alloc: Global,
    number: u8,
    ledger: &mut Ledger,
) -> Result<(), NoMemory>
    requires { IsOneBehind number (past machine.now.kernel) ledger.old }
    ensures { (P : PolicyValue) → IsServed P machine.now → OnOk result (Keeps (past machine.now.kernel) number ledger.new) }
{
    machine.kernel().has_few_events();
    let Some(event) = newest(machine.history()) else {
        unreachable!()
    };
    ledger.note(alloc, lets_go(event), &answer_of(&event.what))
}

/// Gives the text of a worker's ledger, and notes the worker's newest step in the ledger then.
fn write_and_note(
    machine: &Machine,
    alloc: Global,
    number: u8,
    ledger: &mut Ledger,
) -> Result<Vec<u8>, NoMemory>
    requires { IsOneBehind number (past machine.now.kernel) ledger.old }
    ensures text { (P : PolicyValue) → IsServed P machine.now → IfOk result (λ text. IsWritten true number (past machine.now.kernel) text.items) }
    ensures keeps { (P : PolicyValue) → IsServed P machine.now → OnOk result (Keeps (past machine.now.kernel) number ledger.new) }
{
    let text = ledger.text(alloc)?;
    note(machine, alloc, number, ledger)?;
    Ok(text)
}

/// Notes a worker's newest step in its ledger, and gives the ledger's text then.
fn note_and_write(
    machine: &Machine,
    alloc: Global,
    number: u8,
    ledger: &mut Ledger,
) -> Result<Vec<u8>, NoMemory>
    requires { IsOneBehind number (past machine.now.kernel) ledger.old }
    ensures text { (P : PolicyValue) → IsServed P machine.now → IfOk result (λ text. IsWritten false number (past machine.now.kernel) text.items) }
    ensures keeps { (P : PolicyValue) → IsServed P machine.now → OnOk result (Keeps (past machine.now.kernel) number ledger.new) }
{
    note(machine, alloc, number, ledger)?;
    let text = ledger.text(alloc)?;
    Ok(text)
}

/// The text of a ledger from which a worker is replaced, in which its newest step is noted: the ledger's text before that step where
/// it is to be one behind, and that after it else.
fn written(
    machine: &Machine,
    alloc: Global,
    number: u8,
    ledger: &mut Ledger,
    is_behind: bool,
) -> Result<Vec<u8>, NoMemory>
    requires { IsOneBehind number (past machine.now.kernel) ledger.old }
    ensures text { (P : PolicyValue) → IsServed P machine.now → IfOk result (λ text. IsWritten is_behind number (past machine.now.kernel) text.items) }
    ensures keeps { (P : PolicyValue) → IsServed P machine.now → OnOk result (Keeps (past machine.now.kernel) number ledger.new) }
{
    if is_behind {
        write_and_note(machine, alloc, number, ledger)
    } else {
        note_and_write(machine, alloc, number, ledger)
    }
}

/// The container's figures.
fn figures_of(machine: &Machine) -> Figures
    ensures { result ≡ machine.now.kernel.script.figures }
{
    machine.script().figures
}

/// The worker that goes on after the newest step in place of the one that took it, from a text of its ledger, the number of its steps
/// and the answer of that step.
fn successor<T: Heir>(
    machine: &Machine,
    alloc: Global,
    policy: &Policy,
    number: u8,
    text: &[u8],
    count: u64,
    heir: &mut T,
) -> Result<Successor, NoMemory>
    requires served { IsServed policy.now machine.now }
    requires step { IsStepAt number (past machine.now.kernel) }
    requires text { IsLedgerIn number (past machine.now.kernel) text.now }
    requires count { count ≡ taken (past machine.now.kernel) number }
    ensures { IfOk result (λ s. GoesOnIn policy.now machine.now.kernel.script.figures (past machine.now.kernel) number s) }
{
    machine.kernel().has_few_events();
    let Some(event) = newest(machine.history()) else {
        unreachable!()
    };
    let last = answer_of(&event.what);
    let figures = figures_of(machine);
    match heir.take_over(alloc, text, policy, figures, number, count, Some(&last)) {
        Ok(successor) => Ok(successor),
        Err(OrNoMemory::NoMemory) => Err(NoMemory),
        Err(OrNoMemory::Refused(_)) => unreachable!(),
    }
}

/// Replaces the worker that took the newest step, which its ledger hasn't yet, and gives the text that its successor went on from: the
/// ledger's text before that step where it is to be one behind, and that after it else. The successor's ledger stands in the place of
/// the worker's.
///
/// The successor is made of that text alone, before the worker is stopped, so that want of memory leaves the machine as it was.
pub(crate) fn hand_over<T: Heir>(
    machine: &mut Machine,
    alloc: Global,
    policy: &Policy,
    number: u8,
    ledger: &mut Ledger,
    is_behind: bool,
    heir: &mut T,
) -> Result<Vec<u8>, NoMemory>
    requires served { IsServed policy.now machine.old }
    requires number { number ≤ 16 }
    requires behind { IsOneBehind number (past machine.old.kernel) ledger.old }
    ensures text { IfOk result (λ text. IsWritten is_behind number (past machine.old.kernel) text.items) }
    ensures keeps { OnOk result (Keeps (past machine.old.kernel) number ledger.new) }
    ensures served { IsServed policy.now machine.new }
    ensures kernel { machine.new.kernel ≡ machine.old.kernel }
{
    let text = written(machine, alloc, number, ledger, is_behind)?;
    let count = ledger.count();
    let next = successor(machine, alloc, policy, number, text.as_slice(), count, heir)?;
    let Successor {
        worker,
        ledger: noted,
    } = next;
    machine.stop_worker(alloc, number);
    machine.seat_worker(number, worker);
    *ledger = noted;
    Ok(text)
}

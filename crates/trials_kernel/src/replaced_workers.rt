//! Workers that are replaced, whose successors are counted.

ghost use Rattle.std.specs.Prelude.{◌<◌, OnOk};
ghost use Rattle.broker_machine.specs.Serving.{IsServed};
ghost use Rattle.handover.specs.Keeping.{AreLedgers};
ghost use Rattle.model_kernel.specs.Kernels.{past};

use crate::policies::MAKES_NODES;
use broker_core::deed::Got;
use broker_machine::Machine;
use handover::Ledgers;
use hist_model::policy::Policy;
use hist_model::script::Figures;
use policy_reader::read_policy;
use script_reader::read_script;
use std::alloc::Global;
use std::cell::Cell;
use std::test::Fail;
use sys_abi::memory::{NoMemory, OrNoMemory};
use worker_ledger::successor::{Heir, LedgerError, Successor, take_over};

const SCRIPT: &str =
    "notify mknod\nprog main\npoke 0x10000 \"/null\\0\"\ncall mknod 0x10000 0o020666 259\nend\n";

/// How many events there are once its call was served, and how many of them are the worker's steps.
const EVENTS: usize = 12;

const STEPS: u32 = 9;

/// Takes over by `take_over`, and counts how often.
#[derive(Drop)]
struct Counting<'a> {
    calls: &'a Cell<u32>,
}

impl<'a> Heir for Counting<'a> {
    fn take_over(
        &mut self,
        alloc: Global,
        bytes: &[u8],
        policy: &Policy,
        figures: Figures,
        no: u8,
        taken: u64,
        last: Option<&Got<'_>>,
    ) -> Result<Successor, OrNoMemory<LedgerError>> {
        self.calls.set(self.calls.get().saturating_add(1));
        take_over(alloc, bytes, policy, figures, no, taken, last)
    }
}

/// A step of the first task.
fn step_task(
    alloc: Global,
    policy: &Policy,
    machine: &mut Machine,
    ledgers: &Ledgers,
) -> Result<(), NoMemory>
    requires served { IsServed policy.now machine.old }
    requires ledgers { AreLedgers (past machine.old.kernel) ledgers.now }
    ensures served { IsServed policy.now machine.new }
    ensures ledgers { AreLedgers (past machine.new.kernel) ledgers.now }
{
    if machine.is_task(0) {
        let _stepped = machine.try_task(alloc, policy, 0)?;
    }
    Ok(())
}

/// A step of worker 0, which is replaced after it where that is due.
fn step_worker(
    alloc: Global,
    policy: &Policy,
    machine: &mut Machine,
    ledgers: &mut Ledgers,
    heir: &mut Counting<'_>,
) -> Result<(), NoMemory>
    requires served { IsServed policy.now machine.old }
    requires ledgers { AreLedgers (past machine.old.kernel) ledgers.old }
    ensures served { OnOk result (IsServed policy.now machine.new) }
    ensures ledgers { OnOk result (AreLedgers (past machine.new.kernel) ledgers.new) }
{
    if !machine.try_worker(alloc, policy, 0)? {
        return Ok(());
    }
    ledgers.keep_up(alloc, policy, machine, 0, heir)
}

/// So many steps of worker 0.
fn step_worker_often(
    alloc: Global,
    policy: &Policy,
    machine: &mut Machine,
    ledgers: &mut Ledgers,
    heir: &mut Counting<'_>,
    steps: u32,
) -> Result<(), NoMemory>
    requires served { IsServed policy.now machine.old }
    requires ledgers { AreLedgers (past machine.old.kernel) ledgers.old }
    ensures served { OnOk result (IsServed policy.now machine.new) }
    ensures ledgers { OnOk result (AreLedgers (past machine.new.kernel) ledgers.new) }
{
    for _ in 0..steps {
        step_worker(alloc, policy, machine, ledgers, heir)?;
    }
    Ok(())
}

/// Steps through the script with a worker that is replaced after each so many steps, and says how often an heir was asked, how many
/// ledgers there were, and how many events.
fn replaced(alloc: Global, every: u32) -> Result<(u32, usize, usize), Fail>
    requires { 0 < every }
{
    let policy = read_policy(alloc, MAKES_NODES.as_bytes())?;
    let script = read_script(alloc, SCRIPT.as_bytes())?;
    let calls = Cell::new(0);
    let mut heir = Counting { calls: &calls };
    let mut ledgers = Ledgers::new(alloc, every)?;
    let mut machine = Machine::new(alloc, script)?;
    step_task(alloc, &policy, &mut machine, &ledgers)?;
    step_task(alloc, &policy, &mut machine, &ledgers)?;
    step_worker_often(alloc, &policy, &mut machine, &mut ledgers, &mut heir, STEPS)?;
    Ok((
        calls.get(),
        ledgers.into_handed().len(),
        machine.history().len(),
    ))
}

#[test]
fn the_heir_is_asked_after_each_step(rt: HostRuntime) -> Result<(), Fail> {
    let (calls, ledgers, events) = replaced(rt.alloc(), 1)?;
    assert_eq!(rt; calls, STEPS);
    assert_eq!(rt; ledgers, STEPS as usize);
    assert_eq!(rt; events, EVENTS);
    Ok(())
}

#[test]
fn the_heir_is_asked_after_every_fourth_step(rt: HostRuntime) -> Result<(), Fail> {
    let (calls, ledgers, events) = replaced(rt.alloc(), 4)?;
    assert_eq!(rt; calls, STEPS / 4);
    assert_eq!(rt; ledgers, 2);
    assert_eq!(rt; events, EVENTS);
    Ok(())
}

#[test]
fn the_heir_is_not_asked_where_there_are_fewer_steps(rt: HostRuntime) -> Result<(), Fail> {
    let (calls, ledgers, events) = replaced(rt.alloc(), STEPS + 1)?;
    assert_eq!(rt; calls, 0);
    assert_eq!(rt; ledgers, 0);
    assert_eq!(rt; events, EVENTS);
    Ok(())
}

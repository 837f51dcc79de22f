//! The play of lines, one after another.

ghost use Rattle.std.specs.Prelude.{◌≡◌, ◌≤◌, length, IfOk, OnOk};
ghost use Rattle.std.specs.List.{All};
ghost use Rattle.model_kernel.specs.Kernels.{IsKernel, past};
ghost use Rattle.step_requests.specs.Turns.{AreApart};
ghost use Rattle.asked_steps.specs.Stands.{CameTo};
ghost use Rattle.turn_player.specs.Serving.{OthersAsBefore, ServerKnows, ServersKnow};
ghost use Rattle.turn_player.specs.Turns.{IsTurn, after_times, after_turn, after_turns, stepped, turned};

use crate::serving::{idle_workers, serve_often};
use asked_steps::{do_asked, step_task};
use broker_core::worker::Worker;
use hist_model::history::History;
use hist_model::policy::Policy;
use hist_model::script::Script;
use hist_model::text::TaskName;
use model_kernel::Kernel;
use std::alloc::Global;
use step_requests::Turn;
use sys_abi::memory::NoMemory;

/// Lets the task of a name make so many steps, each if it can.
fn step_often(
    alloc: Global,
    kernel: &mut Kernel,
    name: &TaskName,
    count: u32,
) -> Result<(), NoMemory>
    requires { IsKernel kernel.old }
    ensures { OnOk result (CameTo kernel.old (after_times (stepped kernel.old.script name.now) (past kernel.old) count) kernel.new) }
{
    for _ in 0..count {
        step_task(alloc, kernel, name)?;
    }
    Ok(())
}

/// Does what a line says.
fn take_turn(
    alloc: Global,
    policy: &Policy,
    kernel: &mut Kernel,
    workers: &mut Vec<Worker>,
    turn: &Turn,
) -> Result<(), NoMemory>
    requires kernel { IsKernel kernel.old }
    requires number { length workers.old.items ≡ 16 }
    requires turn { IsTurn turn.now }
    requires knows { ServerKnows policy.now kernel.old turn.now workers.old.items }
    ensures came { OnOk result (CameTo kernel.old (after_turn policy.now kernel.old.script (past kernel.old) turn.now) kernel.new) }
    ensures number { OnOk result (length workers.new.items ≡ 16) }
    ensures knows { OnOk result (ServerKnows policy.now kernel.new turn.now workers.new.items) }
    ensures others { OnOk result (OthersAsBefore turn.now workers.old.items workers.new.items) }
{
    match turn {
        Turn::Steps { task, count } => step_often(alloc, kernel, task, *count),
        Turn::Serves { worker, count } => {
            let server = &mut workers[usize::from(*worker)];
            serve_often(alloc, policy, kernel, *worker, server, *count)
        }
        Turn::Asks { worker, asked } => do_asked(alloc, kernel, *worker, asked),
    }
}

/// Does what the lines say, one after another.
fn take_turns(
    alloc: Global,
    policy: &Policy,
    kernel: &mut Kernel,
    workers: &mut Vec<Worker>,
    turns: &[Turn],
) -> Result<(), NoMemory>
    requires kernel { IsKernel kernel.old }
    requires number { length workers.old.items ≡ 16 }
    requires turns { All IsTurn turns.now }
    requires apart { AreApart turns.now }
    requires knows { ServersKnow policy.now kernel.old turns.now workers.old.items }
    ensures { OnOk result (CameTo kernel.old (after_turns policy.now kernel.old.script (past kernel.old) turns.now) kernel.new) }
{
    let mut rest = turns;
    'turns: while let Some((turn, behind)) = rest.split_first() {
        take_turn(alloc, policy, kernel, workers, turn)?;
        rest = behind;
    }
    Ok(())
}

/// Plays a script under a policy by the lines of a schedule in which a worker of another broker has requests. At its end the
/// listener is closed.
pub fn play_turns(
    alloc: Global,
    policy: &Policy,
    script: Script,
    turns: &[Turn],
) -> Result<(Script, History), NoMemory>
    requires turns { All IsTurn turns.now }
    requires apart { AreApart turns.now }
    ensures script { IfOk result (λ played. played.0 ≡ script) }
    ensures events { IfOk result (λ played. played.1.events ≡ turned policy.now script turns.now) }
{
    let mut workers = idle_workers(alloc, script.figures)?;
    let mut kernel = Kernel::new(alloc, script)?;
    take_turns(alloc, policy, &mut kernel, &mut workers, turns)?;
    kernel.ready_event()?;
    Ok(kernel.closed())
}

//! How containers are served by threads: one, or several side by side.

ghost use Rattle.std.specs.Prelude.{◌≡◌, ◌≤◌, [], ◌∷◌, length, IfOk, IfSome};
ghost use Rattle.play_words.specs.Handovers.{IsAfterSteps};
ghost use Rattle.run_words.specs.Pods.{AreEnded};
ghost use Rattle.run_words.specs.Runs.{by_servers};
ghost use Rattle.pod_broker.specs.Pods.{AllApart, NoneOverlap};
ghost use Rattle.pod_broker.specs.Serving.{histories, scripts};
ghost use Rattle.worker_gate.specs.Replacing.{handed_if, handed_in};

use crew::Gate;
use hist_model::policy::Policy;
use hist_model::script::Script;
use pod_broker::{Container, serve_pod, serve_pod_by_lanes};
use std::alloc::Global;
use std::sync::Wait;
use std::thread::Threads;
use sys_abi::memory::NoMemory;
use worker_gate::Played;

/// The container of a script, as a pod of one.
fn alone(alloc: Global, policy: Policy, script: Script) -> Result<Vec<Container>, NoMemory>
    ensures { IfOk result (λ v. v.items ≡ record { policy = policy; script = script } ∷ []) }
{
    let mut containers = Vec::new(alloc);
    containers.push(Container { policy, script })?;
    Ok(containers)
}

/// The one that was served.
fn only(mut served: Vec<Played>) -> Played
    requires { length served.items ≡ 1 }
    ensures { served.items ≡ result ∷ [] }
{
    match served.pop() {
        Some(played) => played,
        None => unreachable!(),
    }
}

/// Serves containers with one crew until nothing is left to do in any, and closes their listeners: with workers up to this one, or by
/// lanes. Where a number of steps is given, workers are replaced after each so many of them.
pub fn serve_containers<R: Threads + Wait + Sync, G: Gate + Sync>(
    rt: &R,
    alloc: Global,
    containers: Vec<Container>,
    workers: Option<u8>,
    cpus: u8,
    every: Option<u32>,
    gate: &G,
) -> Result<Vec<Played>, NoMemory>
    requires few { length containers.items ≤ 8 }
    requires numbers { IfSome workers (λ w. w ≤ 16) × (cpus ≤ 16) }
    requires every { IsAfterSteps every }
    ensures ended { IfOk result (λ v. AreEnded (by_servers workers) every containers.items v.items) }
    ensures apart { NoneOverlap (scripts containers.items) → IfOk result (λ v. AllApart (histories v.items)) }
{
    match workers {
        Some(workers) => serve_pod(rt, alloc, containers, workers, cpus, every, gate),
        None => serve_pod_by_lanes(rt, alloc, containers, cpus, every, gate),
    }
}

/// Serves the container of a script so until nothing is left to do, and closes the listener.
pub fn run_container<R: Threads + Wait + Sync, G: Gate + Sync>(
    rt: &R,
    alloc: Global,
    policy: Policy,
    script: Script,
    workers: Option<u8>,
    cpus: u8,
    every: Option<u32>,
    gate: &G,
) -> Result<Played, NoMemory>
    requires numbers { IfSome workers (λ w. w ≤ 16) × (cpus ≤ 16) }
    requires every { IsAfterSteps every }
    ensures ended { IfOk result (λ p. by_servers workers policy script p.history.events) }
    ensures policy { IfOk result (λ p. p.policy ≡ policy) }
    ensures script { IfOk result (λ p. p.script ≡ script) }
    ensures handed { IfOk result (λ p. handed_in p.handed ≡ handed_if every p.history.events) }
{
    let containers = alone(alloc, policy, script)?;
    let served = serve_containers(rt, alloc, containers, workers, cpus, every, gate)?;
    Ok(only(served))
}

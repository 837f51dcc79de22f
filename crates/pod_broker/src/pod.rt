//! Containers that are served to their ends by one crew.

ghost use Rattle.std.specs.Prelude.{◌<◌, ◌≤◌, length, IfOk, IfSome, Some};
ghost use Rattle.crew.specs.Duties.{DoesAll, MayServeAll};
ghost use Rattle.lane_seats.specs.Lanes.{Laned};
ghost use Rattle.pod_broker.specs.Pods.{AllApart, NoneOverlap};
ghost use Rattle.pod_broker.specs.Serving.{AreServed, Any, histories, scripts};

use crate::contained::Contained;
use crate::container::Container;
use crate::containers::{close_all, set_up_all};
use crew::{Crew, Gate, serve};
use lane_gate::LaneServed;
use lane_seats::SEATS;
use std::alloc::Global;
use std::sync::Wait;
use std::thread::Threads;
use sys_abi::memory::NoMemory;
use worker_gate::{Played, Served};

/// The most containers that are served side by side.
pub const CONTAINERS: usize = 8;

/// Serves containers until nothing is left to do in any, with a crew whose workers are up to this one and are replaced after each so many
/// of their steps, if a number is given, and closes their listeners.
fn serve_containers<S: Contained + Send + Drop, R: Threads + Wait + Sync, G: Gate + Sync>(
    rt: &R,
    alloc: Global,
    containers: Vec<Container>,
    workers: u8,
    every: Option<u32>,
    crew: &Crew,
    gate: &G,
) -> Result<Vec<Played>, NoMemory>
    requires every { IfSome every (λ n. 0 < n) }
    requires few { (length containers.items ≤ 8) × (length crew.now.others.items ≤ 72) }
    requires may { S.may workers × MayServeAll (Some workers) crew.now }
    requires all { DoesAll crew.now.calling }
    ensures { IfOk result (λ v. AreServed workers every S.keeps containers.items v.items) }
{
    let states = set_up_all::<S>(alloc, containers, workers, every)?;
    let ended = serve(rt, alloc, states, crew, gate)?;
    close_all(alloc, ended)
}

/// Serves containers until nothing is left to do in any, each behind a lock of its own, and closes their listeners. There is a thread
/// for each of the workers 0 to `workers` - 1, `cpus` threads that step tasks, and the calling one, which steps tasks and serves as
/// worker `workers`. It does the work of each thread that couldn't be started. All of them serve all containers: a worker finishes its
/// notification before it looks at another container, and a thread sleeps where no container has work for it. Where tasks of one wait
/// for ever, so does this.
///
/// Where a number of steps is given, the worker of a container that took the last of each so many steps of its workers is replaced, while
/// the others go on: by turns from its ledger before that step and from the one after it. A thread serves as whichever worker has its
/// number by then.
///
/// Want of memory ends it for all containers.
pub fn serve_pod<R: Threads + Wait + Sync, G: Gate + Sync>(
    rt: &R,
    alloc: Global,
    containers: Vec<Container>,
    workers: u8,
    cpus: u8,
    every: Option<u32>,
    gate: &G,
) -> Result<Vec<Played>, NoMemory>
    requires few { length containers.items ≤ 8 }
    requires numbers { (workers ≤ 16) × (cpus ≤ 16) }
    requires every { IfSome every (λ n. 0 < n) }
    ensures served { IfOk result (λ v. AreServed workers every Any containers.items v.items) }
    ensures apart { NoneOverlap (scripts containers.items) → IfOk result (λ v. AllApart (histories v.items)) }
{
    let crew = Crew::of_workers(alloc, workers, cpus)?;
    serve_containers::<Served, R, G>(rt, alloc, containers, workers, every, &crew, gate)
}

/// The same by lanes: for each container there are a thread that receives all notifications and one for each lane, which take turns
/// of whichever container has work for them, `cpus` threads that step tasks, and the calling one, which steps tasks too.
pub fn serve_pod_by_lanes<R: Threads + Wait + Sync, G: Gate + Sync>(
    rt: &R,
    alloc: Global,
    containers: Vec<Container>,
    cpus: u8,
    every: Option<u32>,
    gate: &G,
) -> Result<Vec<Played>, NoMemory>
    requires few { length containers.items ≤ 8 }
    requires number { cpus ≤ 16 }
    requires every { IfSome every (λ n. 0 < n) }
    ensures served { IfOk result (λ v. AreServed 15 every Laned containers.items v.items) }
    ensures apart { NoneOverlap (scripts containers.items) → IfOk result (λ v. AllApart (histories v.items)) }
{
    let crew = Crew::of_lanes(alloc, containers.len() as u8, cpus)?;
    serve_containers::<LaneServed, R, G>(rt, alloc, containers, SEATS - 1, every, &crew, gate)
}

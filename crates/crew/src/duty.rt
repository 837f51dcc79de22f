//! What each thread of a crew does.

ghost use Rattle.std.specs.Prelude.{◌≡◌, ◌≤◌, IfOk, None, Some, length};
ghost use Rattle.crew.specs.Duties.{DoesAll, MayServe, MayServeAll};

use crate::work::{LANES, Work};
use std::alloc::Global;
use sys_abi::memory::NoMemory;

/// How many threads each container has where lanes serve: one that receives, and one for each lane.
const OF_EACH: u8 = 1 + LANES;

/// What a thread does.
#[derive(Clone, Copy, Debug)]
pub struct Duty {
    /// The worker that it serves as, if it does.
    pub worker: Option<u8>,
    /// The kinds of work that it does.
    pub does: Work,
}

/// This work, by no worker of its own.
fn only(work: Work) -> Duty
    ensures { result.worker ≡ None }
{
    Duty {
        worker: None,
        does: work,
    }
}

/// What the other thread at a place does where workers serve: the first ones serve as the workers below the last one, and the others step
/// tasks.
fn by_workers(place: u8, workers: u8) -> Duty
    requires { workers ≤ 16 }
    ensures { MayServe (Some workers) result.worker }
{
    if place < workers {
        Duty {
            worker: Some(place),
            does: Work::CALLS,
        }
    } else {
        only(Work::TASKS)
    }
}

/// What the other thread at a place does where lanes serve: for each container one receives, and one serves each lane; and the others step
/// tasks.
fn by_lanes(place: u8, containers: u8) -> Duty
    ensures { result.worker ≡ None }
{
    if place / OF_EACH >= containers {
        return only(Work::TASKS);
    }
    match place % OF_EACH {
        0 => only(Work::CALLS),
        behind => only(Work::lane(behind - 1)),
    }
}

/// The threads of a crew, by what they do. The calling one does all kinds of work, so nothing is left if another one can't be started.
#[derive(Drop)]
pub struct Crew {
    pub(crate) calling: Duty,
    pub(crate) others: Vec<Duty>,
    /// How many lanes each container has.
    pub(crate) lanes: u8,
}

impl Crew {
    /// A thread for each of the workers 0 to `workers` - 1, `cpus` threads that step tasks, and the calling one, which does both,
    /// as worker `workers`.
    pub fn of_workers(alloc: Global, workers: u8, cpus: u8) -> Result<Crew, NoMemory>
        requires numbers { (workers ≤ 16) × (cpus ≤ 16) }
        ensures may { IfOk result (λ crew. MayServeAll (Some workers) crew) }
        ensures all { IfOk result (λ crew. DoesAll crew.calling) }
        ensures few { IfOk result (λ crew. length crew.others.items ≤ 32) }
    {
        let count = workers + cpus;
        let mut others = Vec::with_capacity(alloc, usize::from(count))?;
        for place in 0..count {
            others.push_reserved(by_workers(place, workers));
        }
        let calling = Duty {
            worker: Some(workers),
            does: Work::ALL,
        };
        Ok(Crew {
            calling,
            others,
            lanes: 0,
        })
    }

    /// For each of so many containers a thread that receives and one for each lane, `cpus` threads that step tasks, and the calling
    /// one, which does all of it. They all serve all containers.
    pub fn of_lanes(alloc: Global, containers: u8, cpus: u8) -> Result<Crew, NoMemory>
        requires numbers { (containers ≤ 8) × (cpus ≤ 16) }
        ensures may { IfOk result (λ crew. MayServeAll (Some 15) crew) }
        ensures all { IfOk result (λ crew. DoesAll crew.calling) }
        ensures few { IfOk result (λ crew. length crew.others.items ≤ 72) }
    {
        let count = OF_EACH * containers + cpus;
        let mut others = Vec::with_capacity(alloc, usize::from(count))?;
        for place in 0..count {
            others.push_reserved(by_lanes(place, containers));
        }
        let calling = Duty {
            worker: None,
            does: Work::ALL,
        };
        Ok(Crew {
            calling,
            others,
            lanes: LANES,
        })
    }
}

//! Containers that are served to their ends by one crew.

ghost use Rattle.std.specs.Prelude.{◌≡◌, ◌≤◌, All, length, map, IfOk, OnOk};
ghost use Rattle.crew.specs.Duties.{DoesAll, Takes};
ghost use Rattle.crew.specs.Locks.{AreOf, BeginEach, HasEnded, HaveSeen, IsDone, IsFirst, setup_of};

use crate::crewed::Crewed;
use crate::door::Door;
use crate::duty::Crew;
use crate::gate::Gate;
use crate::hands::{Hands, all_hands, gather, work_all};
use crate::locks::{close_all, lock_all, see_ends};
use std::alloc::Global;
use std::sync::Wait;
use std::thread::Threads;
use sys_abi::memory::NoMemory;
use turn_lock::{Pass, TurnLock};

/// Serves containers until nothing is left to do in any, each behind the lock that is lent for it, with a thread for each duty of a crew
/// where one can be had; the calling thread does the work of those that couldn't be started. All of them serve all containers: a worker
/// finishes its notification before it looks at another container, and a thread sleeps where no container has work for it. Where
/// tasks of one container wait for ever, so does this.
///
/// It takes the locks' first passes, with none out, one of each lock in order. Each has then seen more of its lock's history, with none
/// out again. Want of memory ends it for all containers; the turns that were made stay.
pub fn serve_locked<S: Crewed + Send, R: Threads + Wait + Sync, G: Gate + Sync>(
    rt: &R,
    alloc: Global,
    locks: &Vec<TurnLock<S>>,
    firsts: &mut Vec<Pass>,
    crew: &Crew,
    gate: &G,
) -> Result<(), NoMemory>
    requires few { (length locks.now.items ≤ 8) × (length crew.now.others.items ≤ 72) }
    requires own { AreOf locks.now.items firsts.old.items }
    requires alone { All (IsFirst 0) firsts.old.items }
    requires may { All (Takes crew.now) (map setup_of locks.now.items) }
    requires all { DoesAll crew.now.calling }
    ensures own { AreOf locks.now.items firsts.new.items }
    ensures alone { All (IsFirst 0) firsts.new.items }
    ensures seen { HaveSeen firsts.new.items firsts.old.items }
    ensures ended { OnOk result (All (HasEnded S.ends) firsts.new.items) }
{
    let containers = locks.len() as u8;
    let door = Door::new(alloc, containers, crew.lanes, crew.others.len() + 1)?;
    let Hands {
        mut calling,
        mut others,
    } = all_hands(alloc, locks, firsts, crew)?;
    work_all(rt, locks, &door, gate, &mut calling, &mut others);
    gather(locks, firsts, calling, others);
    door.close(rt, alloc)?;
    see_ends(rt, locks, firsts)
}

/// Serves containers so, each behind a lock of its own, and gives their states back.
///
/// Want of memory ends it for all containers.
pub fn serve<S: Crewed + Send + Drop, R: Threads + Wait + Sync, G: Gate + Sync>(
    rt: &R,
    alloc: Global,
    states: Vec<S>,
    crew: &Crew,
    gate: &G,
) -> Result<Vec<S>, NoMemory>
    requires few { (length states.items ≤ 8) × (length crew.now.others.items ≤ 72) }
    requires may { All (Takes crew.now) (map S.setup states.items) }
    requires all { DoesAll crew.now.calling }
    ensures setups { IfOk result (λ v. map S.setup v.items ≡ map S.setup states.items) }
    ensures begins { IfOk result (λ v. BeginEach (map (λ s. (S.history s).events) v.items) (map (λ s. (S.history s).events) states.items)) }
    ensures done { IfOk result (λ v. All (IsDone S.setup S.history S.ends) v.items) }
{
    let (locks, mut firsts) = lock_all(alloc, states)?;
    serve_locked(rt, alloc, &locks, &mut firsts, crew, gate)?;
    close_all(alloc, locks, firsts)
}

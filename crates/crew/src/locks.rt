//! Locks, and lists of their passes: one of each lock, in order.

ghost use Rattle.std.specs.Prelude.{◌≡◌, ◌+◌, ℕ, true, map, All, IfOk, OnErr, OnOk};
ghost use Rattle.crew.specs.Locks.{AreOf, HasEnded, HaveSeen, IsDone, IsFirst, MayJoin, MaySplit, seen_of, setup_of};
ghost use Rattle.turn_lock.specs.Facts.{IsAlone, IsPassOf};
ghost use Rattle.turn_lock.specs.Lists.{Begins};

use crate::crewed::Crewed;
use std::alloc::Global;
use std::sync::Wait;
use sys_abi::memory::NoMemory;
use turn_lock::{Pass, Turn, TurnLock};

/// Each state behind a lock of its own, in order, and the locks' first passes.
pub(crate) fn lock_all<S: Crewed + Drop>(
    alloc: Global,
    mut states: Vec<S>,
) -> Result<(Vec<TurnLock<S>>, Vec<Pass>), NoMemory>
    ensures setups { IfOk result (λ t. map setup_of t.0.items ≡ map S.setup states.items) }
    ensures own { IfOk result (λ t. AreOf t.0.items t.1.items) }
    ensures first { IfOk result (λ t. All (IsFirst 0) t.1.items) }
    ensures seen { IfOk result (λ t. map seen_of t.1.items ≡ map (λ s. (S.history s).events) states.items) }
{
    let mut locks = Vec::with_capacity(alloc, states.len())?;
    let mut firsts = Vec::with_capacity(alloc, states.len())?;
    while !states.is_empty() {
        let state = states.remove(0);
        let Ok((lock, first)) = TurnLock::new(alloc, state) else {
            return Err(NoMemory);
        };
        locks.push(lock)?;
        firsts.push(first)?;
    }
    Ok((locks, firsts))
}

/// A pass of each lock, in order. Want of memory comes before any pass is split.
pub(crate) fn split_all<S: Crewed>(
    alloc: Global,
    locks: &Vec<TurnLock<S>>,
    firsts: &mut Vec<Pass>,
) -> Result<Vec<Pass>, NoMemory>
    requires own { AreOf locks.now.items firsts.old.items }
    requires may { All MaySplit firsts.old.items }
    ensures own { AreOf locks.now.items firsts.new.items }
    ensures seen { map seen_of firsts.new.items ≡ map seen_of firsts.old.items }
    ensures first { OnOk result ((n : ℕ) → All (IsFirst n) firsts.old.items → All (IsFirst (n + 1)) firsts.new.items) }
    ensures none { OnErr result (firsts.new.items ≡ firsts.old.items) }
    ensures passes { IfOk result (λ v. AreOf locks.now.items v.items) }
{
    let count = locks.len();
    let mut passes = Vec::with_capacity(alloc, count)?;
    for place in 0..count {
        let pass = locks[place].split(&mut firsts[place]);
        passes.push_reserved(pass);
    }
    Ok(passes)
}

/// Takes a pass of each lock back.
pub(crate) fn join_all<S: Crewed>(
    locks: &Vec<TurnLock<S>>,
    firsts: &mut Vec<Pass>,
    mut passes: Vec<Pass>,
)
    requires own { AreOf locks.now.items firsts.old.items }
    requires may { All MayJoin firsts.old.items }
    requires passes { AreOf locks.now.items passes.items }
    ensures own { AreOf locks.now.items firsts.new.items }
    ensures seen { HaveSeen firsts.new.items firsts.old.items }
    ensures first { (n : ℕ) → All (IsFirst (n + 1)) firsts.old.items → All (IsFirst n) firsts.new.items }
{
    for place in 0..locks.len() {
        let pass = passes.remove(0);
        locks[place].join(&mut firsts[place], pass);
    }
}

/// A turn that looks whether nothing is left to do.
#[derive(Drop)]
struct Look {
    finished: bool,
}

impl<S: Crewed> Turn<S> for Look {
    ghost plays = { λ t s u e. ((S.history e).events ≡ (S.history s).events) × (u.finished ≡ true → S.ends (S.setup s) (S.history s).events) };

    ghost asks = { λ t s. Unit {0} };

    fn play(&mut self, state: &mut S) {
        self.finished = state.is_served();
    }
}

/// Looks whether nothing is left to do. Where something is, a thread found no memory.
fn see_end<S: Crewed, W: Wait>(rt: &W, lock: &TurnLock<S>, pass: &mut Pass) -> Result<(), NoMemory>
    requires own { IsPassOf lock.now pass.old × IsAlone pass.old }
    ensures own { IsPassOf lock.now pass.new × IsAlone pass.new }
    ensures begins { Begins pass.new.seen pass.old.seen }
    ensures served { OnOk result (S.ends lock.now.setup pass.new.seen) }
{
    let mut look = Look { finished: false };
    lock.turn(rt, pass, &mut look);
    if look.finished { Ok(()) } else { Err(NoMemory) }
}

/// Looks of each container, in order, whether nothing is left to do. Where something is, a thread found no memory.
pub(crate) fn see_ends<S: Crewed, W: Wait>(
    rt: &W,
    locks: &Vec<TurnLock<S>>,
    firsts: &mut Vec<Pass>,
) -> Result<(), NoMemory>
    requires own { AreOf locks.now.items firsts.old.items }
    requires first { All (IsFirst 0) firsts.old.items }
    ensures own { AreOf locks.now.items firsts.new.items }
    ensures first { All (IsFirst 0) firsts.new.items }
    ensures seen { HaveSeen firsts.new.items firsts.old.items }
    ensures ended { OnOk result (All (HasEnded S.ends) firsts.new.items) }
{
    for place in 0..locks.len() {
        see_end(rt, &locks[place], &mut firsts[place])?;
    }
    Ok(())
}

/// Closes all locks, in order, which gives their states back.
pub(crate) fn close_all<S: Crewed + Drop>(
    alloc: Global,
    mut locks: Vec<TurnLock<S>>,
    mut firsts: Vec<Pass>,
) -> Result<Vec<S>, NoMemory>
    requires own { AreOf locks.items firsts.items }
    requires first { All (IsFirst 0) firsts.items }
    requires ended { All (HasEnded S.ends) firsts.items }
    ensures setups { IfOk result (λ v. map S.setup v.items ≡ map setup_of locks.items) }
    ensures seen { IfOk result (λ v. map (λ s. (S.history s).events) v.items ≡ map seen_of firsts.items) }
    ensures done { IfOk result (λ v. All (IsDone S.setup S.history S.ends) v.items) }
{
    let mut ended = Vec::with_capacity(alloc, locks.len())?;
    while !locks.is_empty() {
        let lock = locks.remove(0);
        let first = firsts.remove(0);
        let state = lock.close(first);
        ended.push(state)?;
    }
    Ok(ended)
}

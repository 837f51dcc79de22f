//! The queue, and the passes of its two ends.

ghost use Rattle.std.specs.Prelude.{◌≡◌, ◌++◌, ◌∷◌, [], IfOk, IfSome, MatchOption, MatchResult};
ghost use Rattle.lane_queue.specs.Passes.{WasFull, with_items};

use crate::view::{InOrder, Puts, Takes, TwoEnds, View};
use crossbeam_queue::{Pass, RuledArrayQueue};
use std::alloc::Global;
use std::marker::Model;
use std::sync::Wait;
use sys_abi::memory::NoMemory;
use thiserror::Error;

/// The number of items that a queue has room for: one for each seat.
pub const PLACES: usize = 16;

/// What a receiver hands to a lane: a notification that it received, and the seat that received it.
#[derive(Clone, Copy, PartialEq, Eq, Debug)]
pub struct Handoff {
    /// The notification's id.
    pub id: u64,
    /// The number of the worker whose session it is, 0 to 15.
    pub seat: u8,
}

/// There was no room for the item, which is handed back.
#[derive(Clone, Copy, PartialEq, Eq, Debug, Error)]
#[error("the lane's queue is full")]
pub struct Full {
    pub item: Handoff,
}

/// A queue of items, in order, with room for `PLACES` of them. Threads share it.
///
/// Contracts see which queue it is.
#[derive(Drop)]
pub struct LaneQueue {
    line: RuledArrayQueue<Handoff, View, InOrder>,
}

impl Model for LaneQueue {
    ghost use Rattle.std.specs.Prelude.{◌≡◌};
    ghost use Rattle.atomic_table.specs.Seated.{TableId};
    ghost use Rattle.crossbeam_queue.specs.Passes.{ruled_capacity};

    ghost Value = { TableId };

    ghost view = { λ q. q.line.table.shared.table_id };

    ghost invariant = { λ q. ruled_capacity q.line ≡ 16 };
}

/// The one pass by which items are put into a queue. It has no bytes.
#[derive(Drop)]
pub struct PutPass {
    pass: Pass<Handoff, View>,
}

impl Model for PutPass {
    ghost use Rattle.lane_queue.specs.Passes.{MayPut, PassFacts, put_facts};

    ghost Value = { PassFacts };

    ghost view = { λ p. put_facts p.pass };

    ghost invariant = { λ p. MayPut p.pass };
}

/// The one pass by which items are taken out of a queue. It has no bytes.
#[derive(Drop)]
pub struct TakePass {
    pass: Pass<Handoff, View>,
}

impl Model for TakePass {
    ghost use Rattle.lane_queue.specs.Passes.{MayTake, PassFacts, take_facts};

    ghost Value = { PassFacts };

    ghost view = { λ p. take_facts p.pass };

    ghost invariant = { λ p. MayTake p.pass };
}

impl LaneQueue {
    /// An empty queue, and its two passes.
    pub fn new(alloc: Global) -> Result<(LaneQueue, PutPass, TakePass), NoMemory>
        ensures { IfOk result (λ q. (q.1 ≡ record { queue = q.0; items = [] }) × (q.2 ≡ record { queue = q.0; items = [] })) }
    {
        let (line, mut pass) = RuledArrayQueue::ruled(alloc, PLACES)?;
        let other = line.another::<TwoEnds>(&mut pass);
        Ok((
            LaneQueue { line },
            PutPass { pass },
            TakePass { pass: other },
        ))
    }

    /// Puts an item at the queue's end.
    ///
    /// `Full` comes only where 16 items stood in the queue at a moment of the call; then nothing was put. It waits while another
    /// thread is in the midst of a call on the same place.
    pub fn put<W: Wait>(&self, rt: &W, pass: &mut PutPass, item: Handoff) -> Result<(), Full>
        requires { pass.old.queue ≡ self.now }
        ensures { MatchResult result (λ _. pass.new ≡ with_items pass.old (pass.old.items ++ item ∷ [])) (λ full. (full.item ≡ item) × (pass.new ≡ pass.old) × WasFull pass.old) }
    {
        match self.line.push_as::<Puts, W>(rt, &mut pass.pass, item) {
            Ok(()) => Ok(()),
            Err(item) => Err(Full { item }),
        }
    }

    /// Takes the oldest item out of the queue. `None` comes only where it was empty at a moment of the call.
    ///
    /// It waits while another thread is in the midst of a call on the same place.
    pub fn take<W: Wait>(&self, rt: &W, pass: &mut TakePass) -> Option<Handoff>
        requires { pass.old.queue ≡ self.now }
        ensures { MatchOption result (pass.new ≡ pass.old) (λ item. pass.new ≡ with_items pass.old (pass.old.items ++ item ∷ [])) }
    {
        self.line.pop_as::<Takes, W>(rt, &mut pass.pass)
    }

    /// Closes the queue, and gives what is left in it, in order: what was taken, followed by this, is what was put.
    ///
    /// For want of memory what is left is given up with the queue.
    pub fn close<W: Wait>(
        self,
        rt: &W,
        alloc: Global,
        put: PutPass,
        take: TakePass,
    ) -> Result<Vec<Handoff>, NoMemory>
        requires { (put.queue ≡ self) × (take.queue ≡ self) }
        ensures { IfOk result (λ left. put.items ≡ take.items ++ left.items) }
    {
        let mut pass = put.pass;
        self.line.absorb::<TwoEnds>(&mut pass, take.pass);
        let mut left = Vec::new(alloc);
        for _ in rt.forever() {
            match self.line.pop_as::<Takes, W>(rt, &mut pass) {
                Some(item) => left.push(item)?,
                None => return Ok(left),
            }
        }
        unreachable!()
    }
}

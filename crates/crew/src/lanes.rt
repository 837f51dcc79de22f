//! The lanes of a container: a queue for each, from the threads that receive to those that serve it.
//!
//! Whoever received a notification puts it, with the seat that received it, into its lane's queue. Whoever serves the lane takes it out,
//! keeps it until it is let go, and only then takes the next. The ends of the queues lie behind the door, as whoever takes a turn is
//! there: so all threads of a lane, and the calling one, share the one end.

ghost use Rattle.std.specs.Prelude.{◌≡◌, None, Some};
ghost use Rattle.std.specs.Option.{ForSome};
ghost use Rattle.std.specs.List.{last_or};

use crate::work::{LANES, Work};
use lane_queue::{Full, Handoff, LaneQueue, PutPass, TakePass};
use std::alloc::Global;
use std::sync::Wait;
use sys_abi::memory::NoMemory;

/// A lane: its queue, and what is being served of it.
#[derive(Drop)]
struct Lane {
    queue: LaneQueue,
    put: PutPass,
    take: TakePass,
    /// What was taken last, until it is let go.
    in_hand: Option<Handoff>,
    ghost own: { (put.queue ≡ queue) × (take.queue ≡ queue) },
    ghost newest: { ForSome in_hand (λ item. last_or None take.items ≡ Some item) },
}

impl Lane {
    /// A lane in which nothing is.
    fn new(alloc: Global) -> Result<Lane, NoMemory> {
        let (queue, put, take) = LaneQueue::new(alloc)?;
        Ok(Lane {
            queue,
            put,
            take,
            in_hand: None,
        })
    }

    /// Puts a notification at the end of the queue.
    fn put<W: Wait>(&mut self, rt: &W, item: Handoff) -> Result<(), Full> {
        self.queue.put(rt, &mut self.put, item)
    }

    /// What is in hand, or else what is taken out of the queue, if something is there.
    fn next<W: Wait>(&mut self, rt: &W) -> Option<Handoff>
        ensures same { result ≡ self.new.in_hand }
    {
        if self.in_hand.is_none() {
            self.in_hand = self.queue.take(rt, &mut self.take);
        }
        self.in_hand
    }

    /// What was in hand was let go.
    fn let_go(&mut self) {
        self.in_hand = None;
    }

    /// Closes the queue; says whether nothing was left in it, or in hand.
    fn close<W: Wait>(self, rt: &W, alloc: Global) -> Result<bool, NoMemory> {
        let Lane {
            queue,
            put,
            take,
            in_hand,
        } = self;
        let left = queue.close(rt, alloc, put, take)?;
        Ok(left.is_empty() && in_hand.is_none())
    }
}

/// A notification that is handed to a thread, and its lane.
#[derive(Clone, Copy, Debug)]
pub(crate) struct Handed {
    pub(crate) lane: u8,
    pub(crate) item: Handoff,
}

/// The lanes of a container.
#[derive(Drop)]
pub(crate) struct Lanes {
    lanes: Vec<Lane>,
    /// The lanes that have something to serve.
    filled: Work,
    /// Those of which it waits for its request for a descriptor.
    waiting: Work,
}

impl Lanes {
    /// So many lanes, in which nothing is.
    pub(crate) fn new(alloc: Global, count: u8) -> Result<Lanes, NoMemory> {
        let mut lanes = Vec::new(alloc);
        for _ in 0..count {
            lanes.push(Lane::new(alloc)?)?;
        }
        Ok(Lanes {
            lanes,
            filled: Work::NONE,
            waiting: Work::NONE,
        })
    }

    /// The lanes that have something to serve which doesn't wait.
    pub(crate) fn work(&self) -> Work {
        self.filled.without(self.waiting)
    }

    /// Puts a notification into its lane's queue, which makes its work known. A queue has as many places as there are seats, so there is
    /// room.
    pub(crate) fn put<W: Wait>(&mut self, rt: &W, lane: u8, item: Handoff) -> Result<(), NoMemory> {
        let Some(into) = self.lanes.get_mut(usize::from(lane)) else {
            return Err(NoMemory);
        };
        let Ok(()) = into.put(rt, item) else {
            return Err(NoMemory);
        };
        self.filled = self.filled.with(Work::lane(lane));
        Ok(())
    }

    /// What is next in a lane. Where there is nothing, that is known from now on.
    fn next_in<W: Wait>(&mut self, rt: &W, lane: u8) -> Option<Handed> {
        let from = self.lanes.get_mut(usize::from(lane))?;
        match from.next(rt) {
            Some(item) => Some(Handed { lane, item }),
            None => {
                self.filled = self.filled.without(Work::lane(lane));
                None
            }
        }
    }

    /// What is next in the first lane among this work that has something which doesn't wait.
    pub(crate) fn next<W: Wait>(&mut self, rt: &W, work: Work) -> Option<Handed> {
        for lane in 0..LANES {
            let kind = Work::lane(lane);
            if work.has(kind)
                && self.work().has(kind)
                && let Some(handed) = self.next_in(rt, lane)
            {
                return Some(handed);
            }
        }
        None
    }

    /// What is in hand of a lane waits for its request for a descriptor.
    pub(crate) fn wait(&mut self, lane: u8) {
        self.waiting = self.waiting.with(Work::lane(lane));
    }

    /// Requests for descriptors may have come to something, so that no lane waits.
    pub(crate) fn settle(&mut self) {
        self.waiting = Work::NONE;
    }

    /// What was in hand of a lane was let go. The next in its queue is taken out, so that it is known whether there is one.
    pub(crate) fn let_go<W: Wait>(&mut self, rt: &W, lane: u8) {
        if let Some(from) = self.lanes.get_mut(usize::from(lane)) {
            from.let_go();
        }
        let _ = self.next_in(rt, lane);
    }

    /// Closes the queues; says whether nothing was left in any lane.
    pub(crate) fn close<W: Wait>(self, rt: &W, alloc: Global) -> Result<bool, NoMemory> {
        let Lanes { mut lanes, .. } = self;
        let mut empty = true;
        while let Some(lane) = lanes.pop() {
            empty &= lane.close(rt, alloc)?;
        }
        Ok(empty)
    }
}

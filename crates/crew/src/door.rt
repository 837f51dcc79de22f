//! The door behind which threads take their turns, what they find there, and where those with nothing to do sleep.
//!
//! A thread takes its turns of locks behind the door, and notes there which work is left. One that found nothing to do leaves the
//! door to the others while it sleeps, so that nothing happens between its look and its sleep.
//!
//! A thread is woken only for work that none which is awake is looking for: turns come one after another, so a second thread would
//! only find that the first was faster. Threads at the gate seek nothing, since they may be held there.
//!
//! What stands here is a hint: only a turn of a container's lock decides what is done.

ghost use Rattle.std.specs.Prelude.{◌≡◌, ◌<◌, IfOk, IfSome};

use crate::crewed::Turned;
use crate::duty::Duty;
use crate::lanes::{Handed, Lanes};
use crate::work::{KINDS, Seekers, Work};
use lane_queue::Handoff;
use std::alloc::Global;
use std::sync::{Condvar, Mutex, MutexGuard, Wait};
use sys_abi::memory::NoMemory;

/// What the last turn left in a container.
#[derive(Drop)]
struct Room {
    /// The work that is left beside that of lanes.
    left: Work,
    lanes: Lanes,
    /// The work that a thread at the gate keeps from the others.
    kept: Work,
    is_open: bool,
}

impl Room {
    /// The work that a thread may do which doesn't keep some.
    fn free(&self) -> Work {
        if self.is_open {
            self.left.with(self.lanes.work()).without(self.kept)
        } else {
            Work::NONE
        }
    }
}

/// What a thread sleeps for.
#[derive(Clone, Copy, Debug)]
pub(crate) struct Wish {
    pub(crate) work: Work,
    /// Whether it sleeps, besides, until its worker's request for a descriptor may have come to something.
    pub(crate) settled: bool,
}

/// What threads find behind the door.
#[derive(Drop)]
pub(crate) struct Board {
    rooms: Vec<Room>,
    /// Who sleeps, by the thread's place.
    asleep: Vec<Option<Wish>>,
}

impl Board {
    /// Containers of which each has a task that may step, and so many lanes, and threads that are awake.
    fn new(alloc: Global, containers: u8, lanes: u8, threads: usize) -> Result<Board, NoMemory> {
        let mut rooms = Vec::new(alloc);
        for _ in 0..containers {
            rooms.push(Room {
                left: Work::TASKS,
                lanes: Lanes::new(alloc, lanes)?,
                kept: Work::NONE,
                is_open: true,
            })?;
        }
        let mut asleep = Vec::new(alloc);
        for _ in 0..threads {
            asleep.push(None)?;
        }
        Ok(Board { rooms, asleep })
    }

    /// The work that a thread does in a container, as things are.
    pub(crate) fn work_in(&self, container: u8, duty: &Duty) -> Work {
        let Some(room) = self.rooms.get(usize::from(container)) else {
            return Work::NONE;
        };
        duty.does.without(room.kept)
    }

    /// Notes what a turn left in a container.
    pub(crate) fn note(&mut self, container: u8, turned: &Turned) {
        if let Some(room) = self.rooms.get_mut(usize::from(container)) {
            room.left = turned.left;
            room.is_open = !turned.is_over;
            if turned.settled {
                room.lanes.settle();
            }
        }
    }

    /// Hands out what is next in the first lane among this work in a container that has something.
    pub(crate) fn hand_out<W: Wait>(
        &mut self,
        rt: &W,
        container: u8,
        work: Work,
    ) -> Option<Handed> {
        match self.rooms.get_mut(usize::from(container)) {
            Some(room) => room.lanes.next(rt, work),
            None => None,
        }
    }

    /// Puts a notification that was received in a container into its lane's queue.
    pub(crate) fn put<W: Wait>(
        &mut self,
        rt: &W,
        container: u8,
        lane: u8,
        item: Handoff,
    ) -> Result<(), NoMemory> {
        match self.rooms.get_mut(usize::from(container)) {
            Some(room) => room.lanes.put(rt, lane, item),
            None => Err(NoMemory),
        }
    }

    /// What was handed out of this lane, if something was, waits for its request for a descriptor.
    pub(crate) fn wait(&mut self, container: u8, handed: Option<Handed>) {
        if let Some(room) = self.rooms.get_mut(usize::from(container))
            && let Some(Handed { lane, .. }) = handed
        {
            room.lanes.wait(lane);
        }
    }

    /// What was handed out of this lane, if something was, was let go.
    pub(crate) fn let_go<W: Wait>(&mut self, rt: &W, container: u8, handed: Option<Handed>) {
        if let Some(room) = self.rooms.get_mut(usize::from(container))
            && let Some(Handed { lane, .. }) = handed
        {
            room.lanes.let_go(rt, lane);
        }
    }

    /// A thread keeps this work in a container from the others.
    pub(crate) fn keep(&mut self, container: u8, work: Work) {
        if let Some(room) = self.rooms.get_mut(usize::from(container)) {
            room.kept = room.kept.with(work);
        }
    }

    /// And gives it back.
    pub(crate) fn give_back(&mut self, container: u8, work: Work) {
        if let Some(room) = self.rooms.get_mut(usize::from(container)) {
            room.kept = room.kept.without(work);
        }
    }

    /// All containers are over, since a thread found no memory.
    pub(crate) fn give_up(&mut self) {
        for room in self.rooms.iter_mut() {
            room.is_open = false;
        }
    }

    /// Whether all containers are over.
    pub(crate) fn is_over(&self) -> bool {
        for room in &self.rooms {
            if room.is_open {
                return false;
            }
        }
        true
    }

    /// The work that is left in any container.
    fn left(&self) -> Work {
        let mut left = Work::NONE;
        for room in &self.rooms {
            left = left.with(room.free());
        }
        left
    }

    /// Whether a container has some of the work that is sought.
    fn has(&self, container: u8, sought: Work) -> bool {
        match self.rooms.get(usize::from(container)) {
            Some(room) => room.free().has(sought),
            None => false,
        }
    }

    /// The first of these containers that has some of the work that is sought.
    fn first(&self, from: u8, until: u8, sought: Work) -> Option<u8>
        ensures { IfSome result (λ container. container < until) }
    {
        for container in from..until {
            if self.has(container, sought) {
                return Some(container);
            }
        }
        None
    }

    /// The first of so many containers behind this one, in a circle, that has some of the work that is sought.
    pub(crate) fn next(&self, container: u8, count: u8, sought: Work) -> Option<u8>
        ensures { IfSome result (λ next. next < count) }
    {
        match self.first(container.saturating_add(1), count, sought) {
            Some(next) => Some(next),
            None => self.first(0, count, sought),
        }
    }

    /// The same container, if it is one of so many and isn't over.
    pub(crate) fn same(&self, container: u8, count: u8) -> Option<u8>
        ensures { IfSome result (λ same. same < count) }
    {
        match self.rooms.get(usize::from(container)) {
            Some(room) if container < count && room.is_open => Some(container),
            _ => None,
        }
    }

    /// A thread goes to sleep.
    fn lie_down(&mut self, place: usize, wish: Wish) {
        if let Some(sleeper) = self.asleep.get_mut(place) {
            *sleeper = Some(wish);
        }
    }

    /// Whether a thread sleeps.
    fn is_asleep(&self, place: usize) -> bool {
        matches!(self.asleep.get(place), Some(Some(_)))
    }

    /// A thread sleeps no longer; tells what it slept for.
    fn rouse(&mut self, place: usize) -> Option<Wish> {
        let sleeper = self.asleep.get_mut(place)?;
        sleeper.take()
    }

    /// Closes the queues of all lanes. Where something was left in one, a thread found no memory.
    fn close<W: Wait>(self, rt: &W, alloc: Global) -> Result<(), NoMemory> {
        let Board { mut rooms, .. } = self;
        let mut empty = true;
        while let Some(Room { lanes, .. }) = rooms.pop() {
            empty &= lanes.close(rt, alloc)?;
        }
        if empty { Ok(()) } else { Err(NoMemory) }
    }

    /// The first thread that sleeps for such work. The calling one, which does all kinds of work, comes last.
    fn sleeper_for(&self, work: Work) -> Option<usize> {
        for (place, sleeper) in self.asleep.iter().enumerate() {
            if let Some(wish) = sleeper
                && wish.work.has(work)
            {
                return Some(place);
            }
        }
        None
    }
}

/// The door, the bells at which threads sleep, and what is sought outside of it.
#[derive(Drop)]
pub(crate) struct Door {
    pub(crate) containers: u8,
    board: Mutex<Board>,
    seekers: Seekers,
    /// A bell for each thread.
    bells: Vec<Condvar>,
}

impl Door {
    /// A door for so many containers with so many lanes each, and so many threads.
    pub(crate) fn new(
        alloc: Global,
        containers: u8,
        lanes: u8,
        threads: usize,
    ) -> Result<Door, NoMemory>
        ensures { IfOk result (λ door. door.containers ≡ containers) }
    {
        let board = Board::new(alloc, containers, lanes, threads)?;
        let mut bells = Vec::new(alloc);
        for _ in 0..threads {
            bells.push(Condvar::new())?;
        }
        Ok(Door {
            containers,
            board: Mutex::new(board),
            seekers: Seekers::none(),
            bells,
        })
    }

    /// Closes the queues of all lanes. Where something was left in one, a thread found no memory.
    pub(crate) fn close<W: Wait>(self, rt: &W, alloc: Global) -> Result<(), NoMemory> {
        let Door { board, .. } = self;
        board.into_inner().close(rt, alloc)
    }

    /// Waits for the door.
    pub(crate) fn enter<W: Wait>(&self, rt: &W) -> MutexGuard<'_, Board> {
        self.board.lock(rt)
    }

    /// A thread begins to seek this work.
    pub(crate) fn seek(&self, sought: Work) {
        self.seekers.add(sought);
    }

    /// A thread seeks no longer what it sought.
    pub(crate) fn found(&self, sought: Work) {
        self.seekers.remove(sought);
    }

    /// Leaves the door, and sleeps until it is woken. It then seeks what it slept for.
    pub(crate) fn sleep<W: Wait>(
        &self,
        rt: &W,
        mut board: MutexGuard<'_, Board>,
        place: usize,
        wish: Wish,
    ) {
        let Some(bell) = self.bells.get(place) else {
            self.seekers.add(wish.work);
            return;
        };
        board.lie_down(place, wish);
        let _board = bell.wait_while(rt, board, |board| board.is_asleep(place));
    }

    /// Wakes a thread, if it sleeps. From now on it seeks what it slept for.
    fn wake(&self, board: &mut Board, place: usize) {
        if let Some(wish) = board.rouse(place) {
            self.seekers.add(wish.work);
        }
        if let Some(bell) = self.bells.get(place) {
            bell.notify_one();
        }
    }

    /// Wakes one thread for each kind of the work that is left and that nobody seeks who is awake.
    pub(crate) fn wake_for_work(&self, board: &mut Board) {
        let mut left = board.left();
        for _ in 0..KINDS {
            let Some(kind) = self.seekers.unsought(left).first() else {
                return;
            };
            if let Some(place) = board.sleeper_for(kind) {
                self.wake(board, place);
            }
            left = left.without(kind);
        }
    }

    /// Wakes all whose worker's request may have come to something.
    pub(crate) fn wake_settled(&self, board: &mut Board) {
        for place in 0..self.bells.len() {
            if let Some(Some(wish)) = board.asleep.get(place)
                && wish.settled
            {
                self.wake(board, place);
            }
        }
    }

    /// Wakes all, since nothing is left to do.
    pub(crate) fn wake_all(&self, board: &mut Board) {
        for place in 0..self.bells.len() {
            self.wake(board, place);
        }
    }
}

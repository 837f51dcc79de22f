//! Hands: what each thread of a crew holds, and how it works until all containers are over.

ghost use Rattle.std.specs.Prelude.{◌≡◌, ◌≤◌, ◌<◌, ◌+◌, ℕ, [], length, map, vec_capacity, All, IfOk, IfSome, OnErr, OnOk};
ghost use Rattle.crew.specs.Duties.{MayServe, Takes};
ghost use Rattle.crew.specs.Errands.{StepsFor};
ghost use Rattle.crew.specs.Locks.{Admits, AreOf, HaveSeen, IsFirst, MaySplit, seen_of, setup_of};

use crate::beside::work_beside;
use crate::crewed::{Came, Crewed, Errand, Turned};
use crate::door::{Board, Door, Wish};
use crate::duty::{Crew, Duty};
use crate::gate::Gate;
use crate::lanes::Handed;
use crate::locks::{join_all, split_all};
use crate::work::Work;
use std::alloc::Global;
use std::sync::{MutexGuard, Wait};
use std::thread::Threads;
use sys_abi::memory::NoMemory;
use turn_lock::{Pass, Turn, TurnLock};

/// A turn in whichever container: a step for an errand.
#[derive(Drop)]
pub(crate) struct StepTurn {
    alloc: Global,
    errand: Errand,
    turned: Turned,
}

impl<S: Crewed> Turn<S> for StepTurn {
    ghost plays = { λ t s u e. (u.errand ≡ t.errand) × StepsFor t.errand (S.history s).events (S.history e).events };

    ghost asks = { λ t s. MayServe (S.setup s).limit t.errand.worker };

    fn play(&mut self, state: &mut S) {
        self.turned = state.serve(self.alloc, self.errand);
    }
}

/// What a thread holds: a pass of each container, in order, and its turn.
#[derive(Drop)]
pub(crate) struct Hand {
    passes: Vec<Pass>,
    turn: StepTurn,
    duty: Duty,
    /// Its place in the crew, at whose bell it sleeps.
    place: usize,
    /// The container in which it took its last turn.
    container: u8,
    /// What it was handed there of a lane.
    handed: Option<Handed>,
    /// The work that others count on it to look for.
    seeks: Work,
    /// The work in that container that it keeps from others.
    keeps: Work,
}

impl Hand {
    /// Comes back to the door, from its gate or its sleep.
    fn come_in(&mut self, door: &Door, board: &mut Board)
        ensures passes { self.new.passes ≡ self.old.passes }
        ensures worker { self.new.turn.errand.worker ≡ self.old.turn.errand.worker }
    {
        door.found(self.seeks);
        board.give_back(self.container, self.keeps);
        self.seeks = Work::NONE;
        self.keeps = Work::NONE;
    }

    /// The container in which it takes its next turn: the same, while its worker has a notification in hand, and else the next one
    /// with work for it.
    fn choose(&self, board: &Board, count: u8) -> Option<u8>
        ensures { IfSome result (λ chosen. chosen < count) }
    {
        if self.turn.turned.in_hand {
            board.same(self.container, count)
        } else {
            board.next(self.container, count, self.duty.does)
        }
    }

    /// A turn in a container, for which it is behind the door: by what it is handed of a lane, or else of this work.
    fn turn_in<S: Crewed, W: Wait>(
        &mut self,
        rt: &W,
        locks: &Vec<TurnLock<S>>,
        container: u8,
        handed: Option<Handed>,
        work: Work,
    )
        requires own { AreOf locks.now.items self.old.passes.items }
        requires may { All (Admits self.old.turn.errand.worker) locks.now.items }
        requires container { container < length locks.now.items }
        ensures own { AreOf locks.now.items self.new.passes.items }
        ensures worker { self.new.turn.errand.worker ≡ self.old.turn.errand.worker }
    {
        let place = usize::from(container);
        self.turn.errand.work = work;
        self.turn.errand.handed = match handed {
            Some(handed) => Some(handed.item),
            None => None,
        };
        locks[place].turn(rt, &mut self.passes[place], &mut self.turn);
        self.container = container;
        self.handed = handed;
    }

    /// What it sleeps for, where it found nothing to do.
    fn wish(&self) -> Wish {
        let work = self.duty.does;
        if self.turn.turned.in_hand {
            Wish {
                work: work.without(Work::CALLS),
                settled: true,
            }
        } else {
            Wish {
                work,
                settled: false,
            }
        }
    }

    /// Sleeps, where it found nothing to do, unless all containers are over; says whether they are.
    fn rest<W: Wait>(&mut self, rt: &W, door: &Door, mut board: MutexGuard<'_, Board>) -> bool
        ensures passes { self.new.passes ≡ self.old.passes }
        ensures worker { self.new.turn.errand.worker ≡ self.old.turn.errand.worker }
    {
        if board.is_over() {
            door.wake_all(&mut board);
            return true;
        }
        door.wake_for_work(&mut board);
        let wish = self.wish();
        door.sleep(rt, board, self.place, wish);
        self.seeks = wish.work;
        false
    }

    /// Leaves the door to look for work in its next turn.
    fn leave(&mut self, door: &Door, mut board: MutexGuard<'_, Board>)
        ensures passes { self.new.passes ≡ self.old.passes }
        ensures worker { self.new.turn.errand.worker ≡ self.old.turn.errand.worker }
    {
        self.seeks = self.duty.does;
        door.seek(self.seeks);
        door.wake_for_work(&mut board);
    }

    /// Calls the gate, where its turn came to a point of a notification's service, and then looks for work.
    fn call<G: Gate>(&mut self, gate: &G, door: &Door, mut board: MutexGuard<'_, Board>)
        ensures passes { self.new.passes ≡ self.old.passes }
        ensures worker { self.new.turn.errand.worker ≡ self.old.turn.errand.worker }
    {
        let Came::Reached {
            point,
            server,
            id,
            keeps,
        } = self.turn.turned.came
        else {
            return;
        };
        let sought = self.duty.does;
        board.keep(self.container, keeps);
        door.wake_for_work(&mut board);
        drop(board);
        gate.at(point, self.container, server, id);
        door.seek(sought);
        self.seeks = sought;
        self.keeps = keeps;
    }

    /// Notes what its turn left, and what became of the lanes; says whether there was memory.
    fn note<W: Wait>(&self, rt: &W, board: &mut Board) -> bool {
        let turned = self.turn.turned;
        board.note(self.container, &turned);
        match turned.came {
            Came::NoMemory => return false,
            Came::Received { lane, item } => {
                return board.put(rt, self.container, lane, item).is_ok();
            }
            Came::LetGo => board.let_go(rt, self.container, self.handed),
            Came::Idle => board.wait(self.container, self.handed),
            Came::Stepped | Came::Reached { .. } => {}
        }
        true
    }

    /// Notes behind the door what its turn left; says what it does next.
    fn after_turn<W: Wait>(&self, rt: &W, door: &Door, board: &mut Board) -> Next {
        let turned = self.turn.turned;
        if !self.note(rt, board) {
            board.give_up();
            door.wake_all(board);
            return Next::End;
        }
        if turned.settled {
            door.wake_settled(board);
        }
        match turned.came {
            Came::Idle if turned.in_hand => Next::Rest,
            Came::Reached { .. } => Next::Call,
            _ => Next::Turn,
        }
    }
}

/// What a hand does after a turn.
#[derive(Clone, Copy, Debug)]
enum Next {
    /// It takes another turn.
    Turn,
    /// It rests, as what it has in hand can't go on.
    Rest,
    /// It calls its gate.
    Call,
    /// It ends, since there was no memory.
    End,
}

/// How many turns a hand takes behind the door, one after another, before it lets others in.
const TURNS: u32 = 32;

/// What a hand does behind the door: turns in containers that have work for it, or else it sleeps. Says whether all are over.
fn take_turns<S: Crewed, W: Wait, G: Gate>(
    rt: &W,
    locks: &Vec<TurnLock<S>>,
    door: &Door,
    gate: &G,
    hand: &mut Hand,
) -> bool
    requires own { AreOf locks.now.items hand.old.passes.items }
    requires may { All (Admits hand.old.turn.errand.worker) locks.now.items }
    requires count { door.now.containers ≡ length locks.now.items }
    ensures own { AreOf locks.now.items hand.new.passes.items }
    ensures worker { hand.new.turn.errand.worker ≡ hand.old.turn.errand.worker }
{
    let mut board = door.enter(rt);
    hand.come_in(door, &mut board);
    for _ in 0..TURNS {
        let Some(container) = hand.choose(&board, door.containers) else {
            return hand.rest(rt, door, board);
        };
        let work = board.work_in(container, &hand.duty);
        let handed = board.hand_out(rt, container, work);
        hand.turn_in(rt, locks, container, handed, work);
        match hand.after_turn(rt, door, &mut board) {
            Next::Rest => return hand.rest(rt, door, board),
            Next::Call if gate.holds() => {
                hand.call(gate, door, board);
                return false;
            }
            Next::Turn | Next::Call => {}
            Next::End => return true,
        }
    }
    hand.leave(door, board);
    false
}

/// Works until all containers are over.
fn work<S: Crewed, W: Wait, G: Gate>(
    rt: &W,
    locks: &Vec<TurnLock<S>>,
    door: &Door,
    gate: &G,
    hand: &mut Hand,
)
    requires own { AreOf locks.now.items hand.old.passes.items }
    requires may { All (Admits hand.old.turn.errand.worker) locks.now.items }
    requires count { door.now.containers ≡ length locks.now.items }
    ensures own { AreOf locks.now.items hand.new.passes.items }
{
    for _ in rt.forever() {
        if take_turns(rt, locks, door, gate, hand) {
            return;
        }
    }
    unreachable!()
}

/// A hand with a pass of each container.
fn new_hand<S: Crewed>(
    alloc: Global,
    locks: &Vec<TurnLock<S>>,
    firsts: &mut Vec<Pass>,
    duty: Duty,
    place: usize,
) -> Result<Hand, NoMemory>
    requires own { AreOf locks.now.items firsts.old.items }
    requires may { All MaySplit firsts.old.items }
    ensures own { AreOf locks.now.items firsts.new.items }
    ensures seen { map seen_of firsts.new.items ≡ map seen_of firsts.old.items }
    ensures first { OnOk result ((n : ℕ) → All (IsFirst n) firsts.old.items → All (IsFirst (n + 1)) firsts.new.items) }
    ensures none { OnErr result (firsts.new.items ≡ firsts.old.items) }
    ensures hand { IfOk result (λ h. AreOf locks.now.items h.passes.items × (h.turn.errand.worker ≡ duty.worker)) }
{
    Ok(Hand {
        passes: split_all(alloc, locks, firsts)?,
        turn: StepTurn {
            alloc,
            errand: Errand {
                worker: duty.worker,
                ..Errand::NONE
            },
            turned: Turned::NONE,
        },
        duty,
        place,
        container: 0,
        handed: None,
        seeks: Work::NONE,
        keeps: Work::NONE,
    })
}

/// All hands: the calling one, and the others.
#[derive(Drop)]
pub(crate) struct Hands {
    pub(crate) calling: Hand,
    pub(crate) others: Vec<Hand>,
}

/// A hand for each thread of a crew, the calling one last; the others are put into a list.
fn add_hands<S: Crewed>(
    alloc: Global,
    locks: &Vec<TurnLock<S>>,
    firsts: &mut Vec<Pass>,
    crew: &Crew,
    others: &mut Vec<Hand>,
) -> Result<Hand, NoMemory>
    requires own { AreOf locks.now.items firsts.old.items }
    requires first { All (IsFirst 0) firsts.old.items }
    requires few { length crew.now.others.items < 255 }
    requires may { All (Takes crew.now) (map setup_of locks.now.items) }
    requires room { (others.old.items ≡ []) × (length crew.now.others.items ≤ vec_capacity others.old) }
    ensures own { AreOf locks.now.items firsts.new.items }
    ensures seen { map seen_of firsts.new.items ≡ map seen_of firsts.old.items }
    ensures first { OnOk result (All (IsFirst (length others.new.items + 1)) firsts.new.items) }
    ensures fewer { OnErr result (All (IsFirst (length others.new.items)) firsts.new.items) }
    ensures calling { IfOk result (λ calling. AreOf locks.now.items calling.passes.items × All (Admits calling.turn.errand.worker) locks.now.items) }
    ensures others { All (λ h. AreOf locks.now.items h.passes.items × All (Admits h.turn.errand.worker) locks.now.items) others.new.items }
{
    let count = crew.others.len();
    for place in 0..count {
        let hand = new_hand(alloc, locks, firsts, crew.others[place], place)?;
        others.push_reserved(hand);
    }
    let calling = new_hand(alloc, locks, firsts, crew.calling, count)?;
    Ok(calling)
}

/// A hand for each thread of a crew. Where there is no memory for one, the passes of the others are taken back.
pub(crate) fn all_hands<S: Crewed>(
    alloc: Global,
    locks: &Vec<TurnLock<S>>,
    firsts: &mut Vec<Pass>,
    crew: &Crew,
) -> Result<Hands, NoMemory>
    requires own { AreOf locks.now.items firsts.old.items }
    requires first { All (IsFirst 0) firsts.old.items }
    requires few { length crew.now.others.items < 255 }
    requires may { All (Takes crew.now) (map setup_of locks.now.items) }
    ensures own { AreOf locks.now.items firsts.new.items }
    ensures seen { HaveSeen firsts.new.items firsts.old.items }
    ensures first { IfOk result (λ all. All (IsFirst (length all.others.items + 1)) firsts.new.items) }
    ensures none { OnErr result (All (IsFirst 0) firsts.new.items) }
    ensures calling { IfOk result (λ all. AreOf locks.now.items all.calling.passes.items × All (Admits all.calling.turn.errand.worker) locks.now.items) }
    ensures others { IfOk result (λ all. All (λ h. AreOf locks.now.items h.passes.items × All (Admits h.turn.errand.worker) locks.now.items) all.others.items) }
{
    let mut others = Vec::with_capacity(alloc, crew.others.len())?;
    match add_hands(alloc, locks, firsts, crew, &mut others) {
        Ok(calling) => Ok(Hands { calling, others }),
        Err(NoMemory) => {
            gather_others(locks, firsts, others);
            Err(NoMemory)
        }
    }
}

/// All hands at work, each in a thread of its own where one can be had. The calling one, which does all kinds of work, is at it in this
/// thread from the first.
pub(crate) fn work_all<S: Crewed + Send, R: Threads + Wait + Sync, G: Gate + Sync>(
    rt: &R,
    locks: &Vec<TurnLock<S>>,
    door: &Door,
    gate: &G,
    calling: &mut Hand,
    others: &mut Vec<Hand>,
)
    requires count { door.now.containers ≡ length locks.now.items }
    requires calling { AreOf locks.now.items calling.old.passes.items × All (Admits calling.old.turn.errand.worker) locks.now.items }
    requires others { All (λ h. AreOf locks.now.items h.passes.items × All (Admits h.turn.errand.worker) locks.now.items) others.old.items }
    ensures calling { AreOf locks.now.items calling.new.passes.items }
    ensures number { length others.new.items ≡ length others.old.items }
    ensures others { All (λ h. AreOf locks.now.items h.passes.items) others.new.items }
{
    work_beside(
        rt,
        calling,
        others.as_mut_slice(),
        &|_: usize, hand: &mut Hand|
            requires { AreOf locks.now.items hand.old.passes.items × All (Admits hand.old.turn.errand.worker) locks.now.items × (door.now.containers ≡ length locks.now.items) }
            ensures { AreOf locks.entry.now.items hand.new.passes.items }
        { work(rt, locks, door, gate, hand) },
    );
}

/// Takes the passes of the other hands back.
fn gather_others<S: Crewed>(locks: &Vec<TurnLock<S>>, firsts: &mut Vec<Pass>, mut hands: Vec<Hand>)
    requires own { AreOf locks.now.items firsts.old.items }
    requires first { All (IsFirst (length hands.items)) firsts.old.items }
    requires hands { All (λ h. AreOf locks.now.items h.passes.items) hands.items }
    ensures own { AreOf locks.now.items firsts.new.items }
    ensures seen { HaveSeen firsts.new.items firsts.old.items }
    ensures first { All (IsFirst 0) firsts.new.items }
{
    while let Some(hand) = hands.pop() {
        let Hand { passes, .. } = hand;
        join_all(locks, firsts, passes);
    }
}

/// Takes the passes of all hands back.
pub(crate) fn gather<S: Crewed>(
    locks: &Vec<TurnLock<S>>,
    firsts: &mut Vec<Pass>,
    calling: Hand,
    others: Vec<Hand>,
)
    requires own { AreOf locks.now.items firsts.old.items }
    requires first { All (IsFirst (length others.items + 1)) firsts.old.items }
    requires calling { AreOf locks.now.items calling.passes.items }
    requires others { All (λ h. AreOf locks.now.items h.passes.items) others.items }
    ensures own { AreOf locks.now.items firsts.new.items }
    ensures seen { HaveSeen firsts.new.items firsts.old.items }
    ensures first { All (IsFirst 0) firsts.new.items }
{
    let Hand { passes, .. } = calling;
    join_all(locks, firsts, passes);
    gather_others(locks, firsts, others);
}

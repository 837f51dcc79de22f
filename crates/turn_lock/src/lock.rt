//! The lock and its passes.

ghost use Rattle.std.specs.Prelude.{◌≡◌, ℕ, ◌+◌, ◌<◌, length, true, IfOk, IfErr, [], ◌∷◌, Some};
ghost use Rattle.turn_lock.specs.Lists.{Begins};
ghost use Rattle.turn_lock.specs.Facts.{IsPassOf, IsAlone, first_pass, split_from, split_off, Joined, OwnsAll};
ghost use Rattle.turn_lock.specs.Turns.{Rests, InTurn, TookOut, MayPutIn, PutIn, MayFind, Turned};

use crate::turn::Turn;
use crate::view::{
    JoinPass, LockSeat, LockTable, Publish, ReadLength, ReadServing, Release, SplitPass,
    TakeTicket, View,
};
use atomic_table::{Badge, Refused, Table};
use hist_model::history::Journalled;
use std::alloc::{AllocFailed, Global};
use std::marker::Model;
use std::mem;
use std::snapshot::Snapshot;
use std::sync::Wait;

/// A state that is changed in turns, one after the other, by as many threads as there are passes.
///
/// Contracts see of it the policy, script and limit of the state that it was made with, and that state's history, which the
/// history behind the lock begins with ever after.
#[derive(Drop)]
pub struct TurnLock<S: Journalled> {
    table: LockTable<S>,
}

impl<S: Journalled> Model for TurnLock<S> {
    ghost use Rattle.std.specs.Prelude.{◌≡◌};
    ghost use Rattle.turn_lock.specs.Facts.{LockFacts};

    ghost Value = { LockFacts };

    ghost view = { λ l. record { id = l.table.shared.table_id; setup = S.setup l.table.shared.key.value; opening = (S.history l.table.shared.key.value).events } };

    ghost invariant = { λ l. (l.table.shared.table_id.words ≡ 3) × (l.table.shared.table_id.slots ≡ 1) };
}

/// What one caller has seen of a lock's history, and which events are its own.
///
/// Each call needs a pass that its lock's `new` or `split` made. A pass that is dropped counts as out for ever, and its lock
/// can't be closed any more.
#[derive(Drop)]
pub struct Pass {
    count: u64,
    badge: Badge<View>,
}

impl Model for Pass {
    ghost use Rattle.std.specs.Prelude.{◌≡◌, length};
    ghost use Rattle.turn_lock.specs.Facts.{PassFacts};

    ghost Value = { PassFacts };

    ghost use Rattle.turn_lock.specs.Turns.{facts_of, the_view, RestsAs};

    ghost view = { λ p. facts_of p.badge.table_id (the_view p.badge.views) };

    ghost invariant = { λ p. RestsAs p.badge.views × (p.count ≡ length (the_view p.badge.views).seen) };
}

impl Pass {
    /// The number of events that the pass has seen.
    pub fn seen(&self) -> u64
        ensures { result ≡ length self.now.seen }
    {
        self.count
    }
}

impl<S: Journalled> TurnLock<S> {
    /// A lock around a state, and its first pass, which has seen the state's whole history.
    ///
    /// For want of memory, and only then, the state is handed back.
    pub fn new(alloc: Global, state: S) -> Result<(TurnLock<S>, Pass), S>
        ensures lock { IfOk result (λ t. (t.0.setup ≡ S.setup state) × (t.0.opening ≡ (S.history state).events)) }
        ensures pass { IfOk result (λ t. t.1 ≡ first_pass t.0) }
        ensures refused { IfErr result (λ s. s ≡ state) }
    {
        let count = state.journal().len() as u64;
        let about = Snapshot::of(&state);
        let slots = one_slot(alloc, state)?;
        match Table::new(alloc, &[count, 0, 0], slots, &about) {
            Ok((table, seat)) => {
                let badge = seat.into_badge();
                Ok((TurnLock { table }, Pass { count, badge }))
            },
            Err(Refused { mut slots }) => {
                let Some(Some(state)) = slots.pop() else {
                    unreachable!()
                };
                slots.destroy_empty();
                Err(state)
            }
        }
    }

    /// Waits until no other turn runs, and plays this one on the state.
    ///
    /// It waits for the turns that came before, and for ever where one of them doesn't end.
    pub fn turn<T: Turn<S>, W: Wait>(&self, rt: &W, pass: &mut Pass, turn: &mut T)
        requires own { IsPassOf self.now pass.old }
        requires asks { (s : S) → MayFind S.setup S.history pass.old s → T.asks turn.old s }
        ensures own { IsPassOf self.now pass.new }
        ensures turned { Turned S.setup S.history T.plays self.now turn.old pass.old turn.new pass.new }
    {
        let mut seat: LockSeat<S> = mem::replace(&mut pass.badge, Badge::blank()).into_seat();
        let mut state = self.take_out(rt, &mut seat);
        turn.play(&mut state);
        pass.count = self.put_in(&mut seat, state);
        pass.badge = seat.into_badge();
    }

    /// Splits a pass from the first one. It has seen the same, and no event is its own.
    pub fn split(&self, pass: &mut Pass) -> Pass
        requires own { IsPassOf self.now pass.old }
        requires first { (pass.old.first ≡ true) × (pass.old.out < 65535) }
        ensures first { pass.new ≡ split_from pass.old }
        ensures other { result ≡ split_off pass.old }
    {
        let shared = &self.table.shared;
        let mut seat: LockSeat<S> = mem::replace(&mut pass.badge, Badge::blank()).into_seat();
        let other = shared.split_seat::<SplitPass>(&mut seat);
        pass.badge = seat.into_badge();
        Pass {
            count: pass.count,
            badge: other.into_badge(),
        }
    }

    /// Joins a pass to the first one, which has then seen what either has, and whose own events are those of both.
    pub fn join(&self, pass: &mut Pass, other: Pass)
        requires own { IsPassOf self.now pass.old × IsPassOf self.now other }
        requires first { (pass.old.first ≡ true) × (0 < pass.old.out) }
        ensures { Joined pass.old other pass.new }
    {
        let shared = &self.table.shared;
        let Pass { count, badge } = other;
        let mut seat: LockSeat<S> = mem::replace(&mut pass.badge, Badge::blank()).into_seat();
        shared.join_seat::<JoinPass>(&mut seat, badge.into_seat());
        shared.load::<ReadLength>(&mut seat, 0);
        pass.badge = seat.into_badge();
        if pass.count < count {
            pass.count = count;
        }
    }

    /// Gives the state back. Its history is what the first pass has seen, and every event since the opening is the pass's own.
    pub fn close(self, pass: Pass) -> S
        requires own { IsPassOf self pass }
        requires alone { IsAlone pass }
        ensures state { (S.setup result ≡ self.setup) × ((S.history result).events ≡ pass.seen) }
        ensures events { Begins pass.seen self.opening × OwnsAll self pass }
    {
        let TurnLock { table } = self;
        let Pass { count: _, badge } = pass;
        let mut closed = table.close_with(badge.into_seat());
        let held = closed.take(0);
        closed.free();
        let Some(state) = held else { unreachable!() };
        state
    }

    /// Takes a ticket, and waits until it is served.
    fn enter<W: Wait>(&self, rt: &W, seat: &mut LockSeat<S>)
        requires own { seat.old.table_id ≡ self.now.id }
        requires rests { Rests seat.old.me }
        ensures own { seat.new.table_id ≡ seat.old.table_id }
        ensures turn { InTurn S.setup S.history seat.old.me seat.new.me }
    {
        let shared = &self.table.shared;
        let mine = shared.fetch_add::<TakeTicket>(seat, 1, 1);
        for _ in rt.forever() {
            let found = shared.load::<ReadServing>(seat, 2);
            if found == mine {
                return;
            }
            shared.park(rt, 2, (found % (1 << 32)) as u32);
        }
        unreachable!()
    }

    /// Waits for the pass's turn, and takes the state out.
    fn take_out<W: Wait>(&self, rt: &W, seat: &mut LockSeat<S>) -> S
        requires own { seat.old.table_id ≡ self.now.id }
        requires rests { Rests seat.old.me }
        ensures own { seat.new.table_id ≡ seat.old.table_id }
        ensures turn { TookOut S.setup S.history seat.old.me result seat.new.me }
    {
        self.enter(rt, seat);
        let held = self.table.shared.exchange(seat, 0, None);
        let Some(state) = held else { unreachable!() };
        state
    }

    /// Puts the state back, publishes the length of its history, and ends the turn.
    fn put_in(&self, seat: &mut LockSeat<S>, state: S) -> u64
        requires own { seat.old.table_id ≡ self.now.id }
        requires turn { MayPutIn S.setup S.history seat.old.me state }
        ensures own { seat.new.table_id ≡ seat.old.table_id }
        ensures put { PutIn S.setup S.history seat.old.me state seat.new.me }
        ensures count { result ≡ length (S.history state).events }
    {
        let count = state.journal().len() as u64;
        let shared = &self.table.shared;
        let gone = shared.exchange(seat, 0, Some(state));
        let None = gone else { unreachable!() };
        shared.store::<Publish>(seat, 0, count);
        let ended = shared.fetch_add::<Release>(seat, 2, 1);
        self.wake_waiting(ended);
        count
    }

    /// Wakes the passes that wait, once the turn of this ticket has ended.
    fn wake_waiting(&self, ended: u64) {
        let shared = &self.table.shared;
        // A waiting pass drew its ticket before it found another one served. Without a later ticket nobody waits, and the
        // system needn't be asked.
        if shared.peek(1) != ended.wrapping_add(1) {
            shared.wake_all(2);
        }
    }
}

/// The state in a list of its own.
fn one_slot<S>(alloc: Global, state: S) -> Result<Vec<Option<S>>, S>
    ensures ok { IfOk result (λ v. v.items ≡ Some state ∷ []) }
    ensures err { IfErr result (λ s. s ≡ state) }
{
    let mut slots = Vec::new(alloc);
    match slots.push(Some(state)) {
        Ok(()) => Ok(slots),
        Err(AllocFailed { value }) => {
            slots.destroy_empty();
            let Some(state) = value else { unreachable!() };
            Err(state)
        }
    }
}

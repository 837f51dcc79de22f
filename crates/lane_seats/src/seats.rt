//! The table of seats.

ghost use Rattle.std.specs.Prelude.{◌≡◌, ℕ, ◌<◌, ◌≤◌, ◌∷◌, false, length, List};
ghost use Rattle.hist_model.specs.Look.{ev};
ghost use Rattle.hist_model.specs.declared.event.Actor.TheVariants.{Worker};
ghost use Rattle.hist_model.specs.declared.event.Event.{Event as AnyEvent};
ghost use Rattle.lane_seats.specs.Lanes.{is_taken};
ghost use Rattle.lane_seats.specs.Sittings.{change_of, comes_before};

use call_table::rows::lane_of;
use hist_model::event::What;
use std::marker::Model;

/// The number of seats, which are worker numbers.
pub const SEATS: u8 = 16;

/// The number of lanes, which are kinds of calls.
pub const LANES: u8 = 6;

/// A session that goes on.
#[derive(Clone, Copy, PartialEq, Eq, Debug)]
pub struct Sitting {
    /// Its lane.
    pub lane: u8,
    /// The place of its receive in the history.
    pub since: usize,
    /// The id of its notification.
    pub id: u64,
}

/// What a step of a worker makes of its seat.
#[derive(Clone, Copy, Debug)]
pub(crate) enum Change {
    Takes(Sitting),
    Leaves,
    Stays,
}

/// Whether a seat's session is of the other's lane, and began before it.
fn comes_before(seat: &Option<Sitting>, own: &Sitting) -> bool
    ensures { result ≡ comes_before seat.now own.now }
{
    match seat {
        None => false,
        Some(sitting) => sitting.lane == own.lane && sitting.since < own.since,
    }
}

/// What a step, the event at this place of the history, makes of its worker's seat.
fn change_by(step: &What, place: usize) -> Change
    ensures { result ≡ change_of step.now place }
{
    match step {
        What::Recv { answer: Ok(notif) } => Change::Takes(Sitting {
            lane: lane_of(notif.call.nr),
            since: place,
            id: notif.id,
        }),
        What::LetGo => Change::Leaves,
        _ => Change::Stays,
    }
}

/// Who sits where: the seats 0 to 15 with the sessions that go on there.
#[derive(Drop)]
pub struct Seats {
    seats: [Option<Sitting>; SEATS as usize],
}

impl Model for Seats {
    ghost use Rattle.std.specs.Prelude.{List, Option};
    ghost use Rattle.lane_seats.specs.declared.seats.Sitting.{Sitting};

    ghost Value = { List (Option Sitting) };

    ghost view = { λ s. s.seats };
}

impl Seats {
    ghost use Rattle.lane_seats.specs.Sittings.{FindsFree, FindsHeld, FindsNext, StandsFor};

    /// All seats are free.
    pub fn new() -> Seats
        ensures { (K : List AnyEvent) → ((seat : ℕ) → is_taken K seat ≡ false) → StandsFor K result }
    {
        Seats {
            seats: [None; SEATS as usize],
        }
    }

    /// The lowest free seat, if one is free.
    pub fn lowest_free(&self) -> Option<u8>
        ensures { FindsFree self.now result }
    {
        for seat in 0..SEATS {
            let Some(_) = self.seats[seat as usize] else {
                return Some(seat);
            };
        }
        None
    }

    /// The lane of the session that goes on at this seat, if one does.
    pub fn lane_at(&self, seat: u8) -> Option<u8> {
        match self.seats.as_slice().get(usize::from(seat)) {
            Some(Some(sitting)) => Some(sitting.lane),
            _ => None,
        }
    }

    /// Whether the notification with this id is in hand at this seat.
    pub fn holds(&self, seat: u8, id: u64) -> bool
        requires { seat ≤ 15 }
        ensures { FindsHeld self.now seat id result }
    {
        match &self.seats[seat as usize] {
            Some(sitting) => sitting.id == id,
            None => false,
        }
    }

    /// Whether a session goes on at this seat before which none of its lane goes on.
    pub fn is_next(&self, seat: u8) -> bool
        requires { seat ≤ 15 }
        ensures { FindsNext self.now seat result }
    {
        let Some(own) = self.seats[seat as usize] else {
            return false;
        };
        for other in 0..SEATS {
            if comes_before(&self.seats[other as usize], &own) {
                return false;
            }
        }
        true
    }

    /// A worker took this step, the event at this place of the history.
    pub fn note(&mut self, seat: u8, step: &What, place: usize)
        requires { seat ≤ 15 }
        ensures { (K : List AnyEvent) → length K ≡ place → StandsFor K self.old → StandsFor (ev (Worker seat) step.now ∷ K) self.new }
    {
        match change_by(step, place) {
            Change::Takes(sitting) => self.seats[seat as usize] = Some(sitting),
            Change::Leaves => self.seats[seat as usize] = None,
            Change::Stays => {}
        }
    }
}

//! What a pass knows, and what each step on the lock's table tells it. No value of these types is made.

ghost use Rattle.std.specs.Prelude.{ℕ, Bool, List};
ghost use Rattle.hist_model.specs.declared.event.Event.{Event};
ghost use Rattle.hist_model.specs.declared.history.Setup.{Setup};
ghost use Rattle.turn_lock.specs.Stages.{Stage};

use atomic_table::{Join, Play, Seat, Split, Table, TableRule};
use hist_model::history::Journalled;
use std::alloc::Global;
use std::marker::{Model, PhantomData};
use std::snapshot::Snapshot;

/// What a pass knows. It has no bytes, and no value of it is made.
pub struct View {
    /// 1, or 0 once the pass was joined to another.
    pub ghost living: { ℕ },
    /// Whether it is the first pass.
    pub ghost first: { Bool },
    /// Of the first pass: how many others are out.
    pub ghost out: { ℕ },
    /// What the lock's state was set up with.
    pub ghost setup: { Setup },
    /// The history that it has seen, the newest first.
    pub ghost seen: { List Event },
    /// The shorter history of its last join.
    pub ghost joined: { List Event },
    /// The places of the events that its own turns appended.
    pub ghost places: { List ℕ },
    /// Where it is in its turn.
    pub ghost stage: { Stage },
}

impl Model for View {
    ghost use Rattle.std.specs.Borrow.{ftrue};

    ghost also_owns = { λ _. ftrue };
}

/// The rule of a lock's table, by the state that the lock was made with.
pub struct InTurns<S> {
    marker: PhantomData<S>,
}

impl<S: Journalled> TableRule<Option<S>, View, Snapshot<S>> for InTurns<S> {
    ghost use Rattle.turn_lock.specs.Rule.{LockRule, first_view};

    ghost holds = { λ key. LockRule S.setup S.history key.value };

    ghost first = { λ key. first_view S.setup S.history key.value };
}

pub type LockTable<S> = Table<Option<S>, View, Snapshot<S>, InTurns<S>, Global>;

pub type LockSeat<S> = Seat<Option<S>, View>;

/// Takes a ticket.
pub struct TakeTicket;

impl<S> Play<Option<S>, View> for TakeTicket {
    ghost use Rattle.turn_lock.specs.Turns.{Claimed};

    ghost then = { Claimed };
}

/// Reads which ticket is served, and takes the slot where it is the own one.
pub struct ReadServing;

impl<S: Journalled> Play<Option<S>, View> for ReadServing {
    ghost use Rattle.turn_lock.specs.Turns.{Looked};

    ghost then = { Looked S.setup S.history };
}

/// Publishes the new length of the history.
pub struct Publish;

impl<S: Journalled> Play<Option<S>, View> for Publish {
    ghost use Rattle.turn_lock.specs.Turns.{Published};

    ghost then = { Published S.setup S.history };
}

/// Gives the slot and the ticket back, and has the next one served.
pub struct Release;

impl<S> Play<Option<S>, View> for Release {
    ghost use Rattle.turn_lock.specs.Turns.{Released};

    ghost then = { Released };
}

/// Reads the length, and learns what the rule says of the own view.
pub struct ReadLength;

impl<S> Play<Option<S>, View> for ReadLength {
    ghost use Rattle.turn_lock.specs.Turns.{Checked};

    ghost then = { Checked };
}

/// A pass is split from the first one.
pub struct SplitPass;

impl Split<View> for SplitPass {
    ghost use Rattle.turn_lock.specs.Rule.{left_of, right_of};

    ghost left = { left_of };

    ghost right = { right_of };
}

/// A pass is joined to the first one.
pub struct JoinPass;

impl Join<View> for JoinPass {
    ghost use Rattle.turn_lock.specs.Rule.{both_of, spent};

    ghost both = { both_of };

    ghost spent = { spent };
}

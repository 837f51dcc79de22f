//! What a seat has read, checked, done and sent for the notification that it has in hand.

ghost use Rattle.std.specs.Prelude.{◌≡◌, ◌≤◌, ◌∷◌, ◌++◌, [], length, map, take, true, None, IfOk};
ghost use Rattle.std.specs.List.{All};
ghost use Rattle.broker_judge.specs.Reads.{worth_of};
ghost use Rattle.broker_verdict.specs.Seats.{confirmed, validated};
ghost use Rattle.judge_pass.specs.Tables.{Begins, IsIdle, KeepsHandles};

use broker_judge::reads::{SeatRead, Worth};
use hist_model::request::NodeRef;
use std::alloc::Global;
use sys_abi::memory::NoMemory;

/// A worker's number is its seat.
#[derive(Debug, Drop)]
pub(crate) struct Seat {
    /// The call that it has in hand.
    pub(crate) call: Option<usize>,
    /// The place of its newest receive.
    pub(crate) received_at: usize,
    /// Its reads since its receive, the oldest first.
    pub(crate) reads: Vec<SeatRead>,
    /// Where each of these stands, and the group whose memory it read.
    pub(crate) read_at: Vec<(usize, u32)>,
    /// How many of these a good check follows.
    pub(crate) followed: usize,
    /// A check of the call's id was good since its receive, and since it opened the memory that it has.
    pub(crate) is_checked: bool,
    /// Its newest effect since then.
    pub(crate) effect: Option<usize>,
    /// It has sent an answer since then.
    pub(crate) has_sent: bool,
    /// It was answered that the call's descriptor leads to no directory, and it didn't.
    pub(crate) is_base_refused: bool,
    /// The group whose memory it has open.
    pub(crate) memory: Option<u32>,
    /// The directory that it has open.
    pub(crate) base: Option<NodeRef>,
    /// How far that can be relied on as the one of its call.
    pub(crate) base_worth: Worth,
}

impl Seat {
    pub(crate) fn new(alloc: Global) -> Seat
        ensures { IsIdle result }
    {
        Seat {
            call: None,
            received_at: 0,
            reads: Vec::new(alloc),
            read_at: Vec::new(alloc),
            followed: 0,
            is_checked: false,
            effect: None,
            has_sent: false,
            is_base_refused: false,
            memory: None,
            base: None,
            base_worth: Worth::Foreign,
        }
    }

    /// It has received the notification of this call, or has let go.
    pub(crate) fn begin(&mut self, place: usize, call: Option<usize>)
        ensures begun { Begins place call self.new }
        ensures handles { KeepsHandles self.old self.new }
    {
        self.call = call;
        self.received_at = place;
        self.reads.clear();
        self.read_at.clear();
        self.followed = 0;
        self.is_checked = false;
        self.effect = None;
        self.has_sent = false;
        self.is_base_refused = false;
        self.base_worth = Worth::Foreign;
    }

    /// It has let go of what it has open.
    pub(crate) fn let_go(&mut self, place: usize)
        ensures begun { Begins place None self.new }
        ensures memory { self.new.memory ≡ None }
        ensures base { self.new.base ≡ None }
    {
        self.begin(place, None);
        self.memory = None;
        self.base = None;
    }

    /// A check of the call's id was good.
    pub(crate) fn check(&mut self)
        requires some { self.old.followed ≤ length self.old.reads.items }
        requires followed { All (λ r. confirmed r ≡ r) (take self.old.followed self.old.reads.items) }
        ensures reads { self.new.reads.items ≡ map (λ r. confirmed r) self.old.reads.items }
        ensures followed { self.new.followed ≡ length self.new.reads.items }
        ensures checked { self.new.is_checked ≡ true }
        ensures worth { worth_of self.new.base_worth ≡ validated (worth_of self.old.base_worth) }
        ensures rest { self.new ≡ record self.old { reads = self.new.reads; followed = self.new.followed; is_checked = self.new.is_checked; base_worth = self.new.base_worth } }
    {
        for place in self.followed..self.reads.len() {
            self.reads[place].confirm();
        }
        self.followed = self.reads.len();
        self.is_checked = true;
        self.base_worth = self.base_worth.validated();
    }

    /// It has read, at this place and in the memory of a group.
    pub(crate) fn read(&mut self, place: usize, group: u32, read: SeatRead) -> Result<(), NoMemory>
        ensures reads { IfOk result (λ u. self.new.reads.items ≡ self.old.reads.items ++ read ∷ []) }
        ensures read_at { IfOk result (λ u. self.new.read_at.items ≡ self.old.read_at.items ++ (place, group) ∷ []) }
        ensures rest { self.new ≡ record self.old { reads = self.new.reads; read_at = self.new.read_at } }
    {
        self.reads.push(read)?;
        self.read_at.push((place, group))?;
        Ok(())
    }
}

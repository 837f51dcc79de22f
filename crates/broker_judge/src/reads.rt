//! The reads of a seat, and what they tell of an address.

ghost use Rattle.std.specs.Prelude.{◌≡◌, ◌^◌, ◌<◌, ◌≤◌, ℕ, nat_le, Ok};
ghost use Rattle.broker_verdict.specs.SeatCopies.{told, Unread};
ghost use Rattle.broker_verdict.specs.Seats.{confirmed, rank, validated};
ghost use Rattle.hist_model.specs.Copies.{further};
ghost use Rattle.broker_judge.specs.Reads.{reach_of, seen_of, worth_of};

use hist_model::text::Text;
use std::marker::Model;
use sys_abi::errno::Errno;

/// How far a read can be relied on, the least first.
#[derive(Clone, Copy, PartialEq, Eq, Debug)]
pub enum Worth {
    /// It is of another task's memory.
    Foreign,
    /// It is of the caller's, when the call was no longer listed.
    Stale,
    /// The call was listed.
    Fresh,
    /// A good check of the call's id has followed, too.
    Valid,
}

impl Worth {
    /// The worths, the greatest first.
    pub const FALLING: [Worth; 4] = [Worth::Valid, Worth::Fresh, Worth::Stale, Worth::Foreign];

    /// Its place among them, counted from 1.
    pub fn rank(self) -> u8
        ensures { result ≡ rank (worth_of self) }
    {
        match self {
            Worth::Foreign => 1,
            Worth::Stale => 2,
            Worth::Fresh => 3,
            Worth::Valid => 4,
        }
    }

    /// The same behind a good check.
    pub fn validated(self) -> Worth
        ensures { worth_of result ≡ validated (worth_of self) }
    {
        match self {
            Worth::Fresh => Worth::Valid,
            worth => worth,
        }
    }
}

/// What is known of a byte.
#[derive(Clone, Copy, PartialEq, Eq, Debug)]
pub enum Seen {
    Byte(u8),
    /// Nothing is mapped there.
    Unmapped,
    Unread,
}

/// A read of a seat. Contracts see it as the definition has it.
#[derive(Debug, Drop)]
pub struct SeatRead {
    addr: u64,
    len: u16,
    answer: Result<Text, Errno>,
    worth: Worth,
}

impl Model for SeatRead {
    ghost use Rattle.broker_verdict.specs.Seats.{SeatRead as Seen};
    ghost use Rattle.broker_judge.specs.Reads.{worth_of};

    ghost Value = { Seen };

    ghost view = { λ r. record { addr = r.addr; len = r.len; answer = r.answer; worth = worth_of r.worth } };
}

impl SeatRead {
    /// A read of so many bytes from an address on, with its answer.
    pub fn new(addr: u64, len: u16, answer: Result<Text, Errno>, worth: Worth) -> SeatRead
        ensures { result ≡ record { addr = addr; len = len; answer = answer; worth = worth_of worth } }
    {
        SeatRead {
            addr,
            len,
            answer,
            worth,
        }
    }

    /// A good check of the call's id follows.
    pub fn confirm(&mut self)
        ensures { self.new ≡ confirmed self.old }
    {
        self.worth = self.worth.validated();
    }

    /// The address of its first byte.
    pub fn addr(&self) -> u64
        ensures { result ≡ self.now.addr }
    {
        self.addr
    }

    /// How many bytes it asked for.
    pub fn len(&self) -> u16
        ensures { result ≡ self.now.len }
    {
        self.len
    }

    /// What it was answered.
    pub fn answer(&self) -> &Result<Text, Errno>
        ensures { result.now ≡ self.now.answer }
    {
        &self.answer
    }

    /// Whether it can be relied on so far at least.
    pub fn is_worth(&self, least: Worth) -> bool
        ensures { result ≡ nat_le (rank (worth_of least)) (rank self.now.worth) }
    {
        least.rank() <= self.worth.rank()
    }

    /// How far it can be relied on, from 1 to 4.
    pub fn rank(&self) -> u8
        ensures { result ≡ rank self.now.worth }
    {
        self.worth.rank()
    }

    /// What it tells of an address.
    pub fn told(&self, x: u64) -> Seen
        ensures { seen_of result ≡ told self.now.addr self.now.len self.now.answer x }
    {
        match &self.answer {
            Ok(bytes) => told_by_bytes(self.addr, self.len, bytes.items(), x),
            Err(errno) if *errno == Errno::EFAULT && x == self.addr => Seen::Unmapped,
            Err(_) => Seen::Unread,
        }
    }

    /// Of so many places from an address on, those of which it may tell something: from the first number on, and below the second.
    #[tactic(auto, using(crate::proofs::Quiet::quiet))]
    pub fn places(&self, addr: u64, size: usize) -> (usize, usize)
        requires { size ≤ 4096 }
        ensures within { (result.0 ≤ result.1) × (result.1 ≤ size) }
        ensures ahead { (i : ℕ) → i < result.0 → told self.now.addr self.now.len self.now.answer (further addr i) ≡ Unread }
        ensures behind { (i : ℕ) → result.1 ≤ i → i < size
            → told self.now.addr self.now.len self.now.answer (further addr i) ≡ Unread }
    {
        let reach = reach(&self.answer);
        let ahead = self.addr.wrapping_sub(addr);
        if ahead < size as u64 {
            let from = ahead as usize;
            return (from, size.min(from.saturating_add(reach)));
        }
        let behind = addr.wrapping_sub(self.addr);
        if behind < reach as u64 {
            return (0, size.min(reach - behind as usize));
        }
        (0, 0)
    }
}

/// Of how many addresses, from its own on, a read tells something.
fn reach(answer: &Result<Text, Errno>) -> usize
    ensures is { result ≡ reach_of answer.now }
    ensures few { result ≤ 2 ^ 63 }
{
    match answer {
        Ok(bytes) => bytes.items().len() + 1,
        Err(_) => 1,
    }
}

/// What a read tells of an address that has asked for so many bytes from another on, and was given these.
fn told_by_bytes(addr: u64, len: u16, bytes: &[u8], x: u64) -> Seen
    ensures { seen_of result ≡ told addr len (Ok bytes.now) x }
{
    if x < addr {
        return Seen::Unread;
    }
    let behind = x - addr;
    if behind < bytes.len() as u64 {
        return Seen::Byte(bytes[behind as usize]);
    }
    if bytes.len() < usize::from(len) && behind == bytes.len() as u64 {
        return Seen::Unmapped;
    }
    Seen::Unread
}

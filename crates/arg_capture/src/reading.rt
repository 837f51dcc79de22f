//! What a capture has read, and what is left.

ghost use Rattle.std.specs.Prelude.{◌≡◌, ◌<◌, ◌≤◌, ◌+◌, ◌%◌, ◌-◌, ◌++◌, ◌∷◌, [], ◌==◌, length, Ok, Some, None, List, Result, ℕ, IfOk, OnOk, OnErr, position};
ghost use Rattle.hist_model.specs.Copies as copies;
ghost use Rattle.hist_model.specs.declared.copy.Part.TheVariants as part;
ghost use Rattle.arg_capture.specs.Captures.{reached_progress, unless_faulty, wanted, Answers, HasRoom, HasRoomForAny, IsKept, Takes, with_answer, with_more, with_whole};
ghost use Rattle.arg_capture.specs.Plans.{IsReadable, IsSettled, IsSound, first_part, rest_parts};

use crate::buffers::{Buffers, MOST_BYTES};
use crate::plan::{MOST_PARTS, Plan};
use hist_model::copy::Part;
use hist_model::text::Text;
use std::alloc::Global;
use std::marker::Model;
use std::mem;
use sys_abi::errno::Errno;
use sys_abi::memory::NoMemory;

/// The texts that are whole, the bytes of the part in hand, and the parts that are left.
#[derive(Drop)]
pub struct Reading {
    plan: Plan,
    texts: Vec<Text>,
    buffers: Buffers,
}

impl Model for Reading {
    ghost use Rattle.std.specs.Prelude.{◌≤◌, ◌+◌, length, vec_capacity};
    ghost use Rattle.arg_capture.specs.Captures.{Reached};

    ghost Value = { Reached };

    ghost view = { λ r. record { texts = r.texts.items; taken = r.buffers.bytes; parts = r.plan; rooms = r.buffers.rooms; places = vec_capacity r.texts } };

    ghost invariant = { λ r. length r.texts.items + length r.plan ≤ vec_capacity r.texts };
}

/// The length of the piece at an address, of which so many bytes are left.
fn piece(addr: u64, left: u64) -> u16
    ensures { result ≡ copies.piece addr left }
{
    (256 - addr % 256).min(left) as u16
}

/// The address so many bytes on.
fn further(addr: u64, n: usize) -> u64
    ensures { result ≡ copies.further addr n }
{
    addr.wrapping_add(n as u64)
}

/// The place of the first zero byte.
fn first_zero(bytes: &[u8]) -> Option<usize>
    ensures { result ≡ position (λ b. b == 0) bytes.now }
{
    bytes.iter().position(|b| *b == 0)
}

impl Reading {
    /// Nothing is read yet.
    pub fn new(alloc: Global, plan: Plan) -> Result<Reading, NoMemory>
        ensures parts { IfOk result (λ r. r.parts ≡ plan) }
        ensures taken { IfOk result (λ r. r.taken ≡ []) }
        ensures texts { IfOk result (λ r. r.texts ≡ []) }
    {
        let texts = Vec::with_capacity(alloc, plan.len())?;
        Ok(Reading {
            plan,
            texts,
            buffers: Buffers::new(alloc),
        })
    }

    /// There is nothing to read. It takes no memory.
    pub fn nothing(alloc: Global) -> Reading
        ensures parts { result.parts ≡ [] }
        ensures taken { result.taken ≡ [] }
        ensures texts { result.texts ≡ [] }
    {
        Reading {
            plan: Plan::nothing(),
            texts: Vec::new(alloc),
            buffers: Buffers::new(alloc),
        }
    }

    /// Makes room for the texts of any plan, as many as a call can have.
    pub fn reserve_for_any(&mut self) -> Result<(), NoMemory>
        ensures kept { IsKept self.old self.new }
        ensures room { OnOk result (HasRoomForAny self.new) }
    {
        self.texts
            .reserve(MOST_PARTS.saturating_sub(self.texts.len()))?;
        self.buffers.reserve(MOST_PARTS)
    }

    /// Drops what was read, and begins with a plan.
    pub fn start(&mut self, plan: Plan)
        requires room { HasRoomForAny self.old }
        requires few { length plan ≤ 4 }
        ensures parts { self.new.parts ≡ plan }
        ensures taken { self.new.taken ≡ [] }
        ensures texts { self.new.texts ≡ [] }
        ensures room { HasRoom self.new }
    {
        self.texts.clear();
        self.buffers.clear();
        self.plan = plan;
    }

    /// Makes room for all that is left.
    pub fn reserve(&mut self) -> Result<(), NoMemory>
        ensures kept { IsKept self.old self.new }
        ensures room { OnOk result (HasRoom self.new) }
        ensures rooms { self.old.rooms ≤ self.new.rooms }
    {
        self.buffers.reserve(self.plan.len())
    }

    /// The next piece.
    #[tactic(auto, using(crate::proofs::Steps::wants_text, crate::proofs::Steps::wants_value, crate::proofs::Steps::wants_none))]
    pub fn next(&self) -> Option<(u64, u16)>
        requires { IsSettled (length self.now.taken) self.now.parts }
        ensures { result ≡ wanted (reached_progress self.now []) }
    {
        match self.plan.first() {
            Some(
                Part::Text {
                    addr,
                    limit,
                    fault: _,
                },
            ) => Some((addr, piece(addr, limit))),
            Some(Part::Value { addr, size }) => Some((addr, piece(addr, size))),
            None => None,
        }
    }

    /// The part in hand is whole.
    fn finish_part(&mut self)
        requires { 0 < length self.old.parts }
        ensures texts { self.new.texts ≡ self.old.texts ++ self.old.taken ∷ [] }
        ensures taken { self.new.taken ≡ [] }
        ensures parts { self.new.parts ≡ rest_parts self.old.parts }
        ensures rooms { self.old.rooms ≤ self.new.rooms + 1 }
    {
        let bytes = self.buffers.take();
        self.texts.push_reserved(Text::new(bytes));
        self.plan.drop_first();
    }

    /// Goes on to the first part that is read, or to the fault of a value that is too great.
    pub fn settle(&mut self) -> Option<Errno>
        requires { self.old.taken ≡ [] }
        ensures same { (later : List (Result (List ℕ) ℕ)) → unless_faulty result (reached_progress self.new later) ≡ reached_progress self.old later }
        ensures settled { result ≡ None → IsSettled 0 self.new.parts }
        ensures taken { self.new.taken ≡ [] }
        ensures room { HasRoom self.old → HasRoom self.new }
    {
        match self.plan.first() {
            Some(Part::Value { addr: _, size: 0 }) => {
                self.finish_part();
                self.settle()
            }
            Some(Part::Value { addr: _, size }) if size > MOST_BYTES as u64 => Some(Errno::E2BIG),
            _ => None,
        }
    }

    /// The part in hand is whole with these bytes.
    fn end_part(&mut self, bytes: &[u8]) -> Result<Option<Errno>, NoMemory>
        requires some { 0 < length self.old.parts }
        requires few { length self.old.taken + length bytes.now ≤ 4096 }
        ensures { Takes self.old (with_whole self.old bytes.now) result self.new }
    {
        self.buffers.push(bytes)?;
        self.finish_part();
        Ok(self.settle())
    }

    /// The part in hand goes on: of it this is left.
    fn extend_part(&mut self, bytes: &[u8], left: Part) -> Result<Option<Errno>, NoMemory>
        requires some { 0 < length self.old.parts }
        requires sound { IsSound left }
        requires settled { IsReadable (length self.old.taken + length bytes.now) left }
        ensures { Takes self.old (with_more self.old bytes.now left) result self.new }
    {
        self.buffers.push(bytes)?;
        self.plan.replace_first(left);
        Ok(None)
    }

    /// Takes a piece of the text in hand.
    fn take_text(
        &mut self,
        bytes: &[u8],
        addr: u64,
        limit: u64,
        fault: Errno,
    ) -> Result<Option<Errno>, NoMemory>
        requires in_hand { first_part self.old.parts ≡ Some (part.Text addr limit fault) }
        requires settled { length self.old.taken + limit ≤ 4096 }
        requires within { length bytes.now ≤ limit }
        ensures { Takes self.old (with_answer self.old (Ok bytes.now)) result self.new }
    {
        if let Some(end) = first_zero(bytes) {
            return self.end_part(&bytes[..end]);
        }
        if bytes.len() as u64 >= limit {
            return Ok(Some(fault));
        }
        let left = Part::Text {
            addr: further(addr, bytes.len()),
            limit: limit - bytes.len() as u64,
            fault,
        };
        self.extend_part(bytes, left)
    }

    /// Takes a piece of the value in hand.
    fn take_value(&mut self, bytes: &[u8], addr: u64, size: u64) -> Result<Option<Errno>, NoMemory>
        requires in_hand { first_part self.old.parts ≡ Some (part.Value addr size) }
        requires settled { length self.old.taken + size ≤ 4096 }
        requires some { 0 < size }
        requires within { length bytes.now ≤ size }
        ensures { Takes self.old (with_answer self.old (Ok bytes.now)) result self.new }
    {
        if bytes.len() as u64 >= size {
            return self.end_part(bytes);
        }
        let left = Part::Value {
            addr: further(addr, bytes.len()),
            size: size - bytes.len() as u64,
        };
        self.extend_part(bytes, left)
    }

    #[tactic(auto, using(crate::proofs::Steps::fits_text, crate::proofs::Steps::fits_value))]
    fn take_part(&mut self, given: Part, bytes: &[u8]) -> Result<Option<Errno>, NoMemory>
        requires in_hand { first_part self.old.parts ≡ Some given }
        requires settled { IsSettled (length self.old.taken) self.old.parts }
        requires answers { Answers (wanted (reached_progress self.old [])) (Ok bytes.now) }
        ensures { Takes self.old (with_answer self.old (Ok bytes.now)) result self.new }
    {
        match given {
            Part::Text { addr, limit, fault } => self.take_text(bytes, addr, limit, fault),
            Part::Value { addr, size } => self.take_value(bytes, addr, size),
        }
    }

    /// Takes a piece of the part in hand; some fault ends the reading.
    #[tactic(auto, using(crate::proofs::Steps::nothing_answers))]
    pub fn take(&mut self, bytes: &[u8]) -> Result<Option<Errno>, NoMemory>
        requires settled { IsSettled (length self.old.taken) self.old.parts }
        requires answers { Answers (wanted (reached_progress self.old [])) (Ok bytes.now) }
        ensures { Takes self.old (with_answer self.old (Ok bytes.now)) result self.new }
    {
        match self.plan.first() {
            Some(given) => self.take_part(given, bytes),
            None => unreachable!(),
        }
    }

    /// The texts, all of which are whole. Nothing is left to be read then.
    pub fn take_texts(&mut self) -> Vec<Text>
        ensures texts { result.items ≡ self.old.texts }
        ensures parts { self.new.parts ≡ [] }
    {
        self.plan = Plan::nothing();
        let none = Vec::new(*self.texts.allocator());
        mem::replace(&mut self.texts, none)
    }
}

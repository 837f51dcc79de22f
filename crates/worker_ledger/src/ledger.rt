//! The ledger of a worker: what it was told, kept outside of it.

ghost use Rattle.std.specs.Prelude.{◌≡◌, ◌<◌, ◌^◌, ◌↔◌, ◌∷◌, [], OnOk, OnErr, IfOk, IsTrue};
ghost use Rattle.serde_json.specs.View.{items_view, view};
ghost use Rattle.broker_core.specs.Answers.{told};
ghost use Rattle.worker_ledger.specs.Data.{answers_data, ledger_data};
ghost use Rattle.worker_ledger.specs.Heard.{all_heard, heard as kept};
ghost use Rattle.worker_ledger.specs.Ledgers.{AreAnswers, ledger_text};
ghost use Rattle.worker_ledger.specs.Notes.{IsReadAs, IsUnchanged, Notes, next_count, noted, told_more};

use crate::heard::{Heard, heard_of};
use crate::reading::read_ledger;
use broker_core::deed::Got;
use serde_json::{Map, Value, put};
use std::alloc::Global;
use sys_abi::memory::NoMemory;

/// The ledger of a worker: its number, how many answers it has taken, and what it was told in its session.
#[derive(Drop)]
pub struct Ledger {
    pub(crate) no: u8,
    pub(crate) count: u64,
    pub(crate) own: Vec<Heard>,
}

/// Answers as values of JSON.
fn values_of(alloc: Global, own: &[Heard]) -> Result<Vec<Value>, NoMemory>
    ensures values { IfOk result (λ v. items_view v.items ≡ answers_data (all_heard own.now)) }
    ensures answers { OnOk result (AreAnswers (all_heard own.now)) }
{
    let mut values = Vec::with_capacity(alloc, own.len())?;
    let mut left = own;
    while let Some((heard, rest)) = left.split_first() {
        values.push(heard.value(alloc)?)?;
        left = rest;
    }
    Ok(values)
}

/// Whether these are the same bytes.
fn are_same(text: &[u8], other: &[u8]) -> bool
    ensures { IsTrue result ↔ (text.now ≡ other.now) }
{
    text == other
}

/// The count after one more answer.
fn next_count(count: u64) -> u64
    ensures { result ≡ next_count count }
{
    if count < u64::MAX { count + 1 } else { count }
}

impl Ledger {
    /// The ledger of a worker that has taken no answer.
    pub fn new(alloc: Global, no: u8) -> Ledger
        ensures no { result.no ≡ no }
        ensures count { result.count ≡ 0 }
        ensures own { result.own.items ≡ [] }
    {
        Ledger {
            no,
            count: 0,
            own: Vec::new(alloc),
        }
    }

    /// A ledger with these parts.
    fn of(no: u8, count: u64, own: Vec<Heard>) -> Ledger
        ensures parts { result ≡ record { no = no; count = count; own = own } }
        ensures small { count < 2 ^ 64 }
    {
        Ledger { no, count, own }
    }

    /// The worker's number.
    pub fn no(&self) -> u8
        ensures { result ≡ self.now.no }
    {
        self.no
    }

    /// How many answers the worker has taken. A count of 2^64 - 1 stays there.
    pub fn count(&self) -> u64
        ensures { result ≡ self.now.count }
    {
        self.count
    }

    /// What the worker was told in its session, the oldest answer first.
    pub fn answers(&self) -> &[Heard]
        ensures { result.now ≡ self.now.own.items }
    {
        self.own.as_slice()
    }

    /// Begins a session with its first answer.
    fn begin(&mut self, alloc: Global, heard: Heard) -> Result<(), NoMemory>
        ensures told { OnOk result (all_heard self.new.own.items ≡ kept heard ∷ []) }
        ensures same { OnErr result (self.new ≡ self.old) }
        ensures no { self.new.no ≡ self.old.no }
        ensures count { self.new.count ≡ self.old.count }
    {
        let mut own = Vec::new(alloc);
        own.push(heard)?;
        self.own = own;
        Ok(())
    }

    /// Adds an answer to those of a session; without a session it is left out.
    #[tactic(auto, using(crate::proofs::Parts::heard_more, crate::proofs::Noting::joined_some, crate::proofs::Noting::joined_none))]
    fn join(&mut self, heard: Heard) -> Result<(), NoMemory>
        ensures told { OnOk result (all_heard self.new.own.items ≡ told_more (kept heard) (all_heard self.old.own.items)) }
        ensures same { OnErr result (all_heard self.new.own.items ≡ all_heard self.old.own.items) }
        ensures no { self.new.no ≡ self.old.no }
        ensures count { self.new.count ≡ self.old.count }
    {
        if !self.own.is_empty() {
            self.own.push(heard)?;
        }
        Ok(())
    }

    /// Notes an answer among those of the session.
    fn note_told(&mut self, alloc: Global, lets_go: bool, heard: Heard) -> Result<(), NoMemory>
        ensures told { OnOk result (all_heard self.new.own.items ≡ noted lets_go (kept heard) (all_heard self.old.own.items)) }
        ensures same { OnErr result (all_heard self.new.own.items ≡ all_heard self.old.own.items) }
        ensures no { self.new.no ≡ self.old.no }
        ensures count { self.new.count ≡ self.old.count }
    {
        if heard.is_notif() {
            self.begin(alloc, heard)
        } else if lets_go {
            self.own.clear();
            Ok(())
        } else {
            self.join(heard)
        }
    }

    /// Notes an answer that the worker took, which let go by it or not; nothing where there is no answer yet. After want of
    /// memory the ledger says what it said.
    pub fn note(&mut self, alloc: Global, lets_go: bool, got: &Got<'_>) -> Result<(), NoMemory>
        ensures noted { OnOk result (Notes lets_go (told got.now) self.old self.new) }
        ensures same { OnErr result (IsUnchanged self.old self.new) }
        ensures no { self.new.no ≡ self.old.no }
    {
        if let Some(heard) = heard_of(alloc, got)? {
            self.note_told(alloc, lets_go, heard)?;
            self.count = next_count(self.count);
        }
        Ok(())
    }

    /// The ledger's value of JSON.
    fn value(&self, alloc: Global) -> Result<Value, NoMemory>
        ensures value { IfOk result (λ v. view v ≡ ledger_data self.now.no self.now.count (all_heard self.now.own.items)) }
        ensures answers { OnOk result (AreAnswers (all_heard self.now.own.items)) }
    {
        let own = values_of(alloc, self.own.as_slice())?;
        let mut members = Map::new(alloc);
        put(&mut members, alloc, "count", Value::from(self.count))?;
        put(&mut members, alloc, "own", Value::Array(own))?;
        put(&mut members, alloc, "worker", Value::from(self.no))?;
        Ok(Value::Object(members))
    }

    /// The ledger's text: one line of JSON, without the byte that ends a line.
    pub fn text(&self, alloc: Global) -> Result<Vec<u8>, NoMemory>
        ensures text { IfOk result (λ text. text.items ≡ ledger_text self.now.no self.now.count (all_heard self.now.own.items)) }
        ensures answers { OnOk result (AreAnswers (all_heard self.now.own.items)) }
    {
        let value = self.value(alloc)?;
        Ok(value.to_vec(alloc)?)
    }

    /// The ledger of a worker, where these bytes are its text.
    pub fn read(alloc: Global, bytes: &[u8], no: u8) -> Result<Option<Ledger>, NoMemory>
        ensures { IfOk result (λ o. IsReadAs bytes.now no o) }
    {
        let Some((count, own)) = read_ledger(alloc, bytes)? else {
            return Ok(None);
        };
        let ledger = Ledger::of(no, count, own);
        let text = ledger.text(alloc)?;
        if !are_same(text.as_slice(), bytes) {
            return Ok(None);
        }
        Ok(Some(ledger))
    }
}

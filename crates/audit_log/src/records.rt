//! The outcome of each call.

ghost use Rattle.std.specs.Prelude.{◌≡◌, ◌++◌, ◌∷◌, [], OnOk, get_or, if◌then◌else◌};
ghost use Rattle.audit_log.specs.Places.{Rise, row_in};
ghost use Rattle.audit_log.specs.Records.{advanced, first_record, moves, placed, record_after, record_in, record_of_row, recorded, row_at};

use crate::count::enters;
use crate::outcome::{is_pending, outcome_at_entry, outcome_next};
use crate::places::row_near;
use crate::step::number_given;
use crate::tasks::TaskFacts;
use hist_model::event::What;
use hist_model::report::Outcome;
use std::alloc::Global;
use sys_abi::memory::NoMemory;

/// What is kept of a call.
#[derive(Clone, Copy, PartialEq, Eq, Debug)]
pub(crate) struct CallRecord {
    /// The PID that its task was given first, before it.
    pub(crate) pid: Option<u32>,
    /// The outcome of the call.
    pub(crate) outcome: Outcome,
    /// The number of the descriptor that was installed for it.
    pub(crate) number: Option<u32>,
}

/// The calls that were entered.
#[derive(Drop)]
pub(crate) struct CallRecords {
    /// Of the events that enter them, from the oldest on.
    pub(crate) places: Vec<usize>,
    /// Of the call of each.
    pub(crate) records: Vec<CallRecord>,
}

impl CallRecord {
    /// The record where there is no call.
    pub(crate) const NONE: CallRecord = CallRecord {
        pid: None,
        outcome: Outcome::Open,
        number: None,
    };

    /// The record after one more step of its task.
    fn after(self, what: &What) -> CallRecord
        ensures { result ≡ record_after what.now self }
    {
        CallRecord {
            pid: self.pid,
            outcome: outcome_next(self.outcome, what),
            number: number_given(is_pending(self.outcome), what, self.number),
        }
    }
}

/// Whether a step of a task may change what came of its call.
fn moves(what: &What) -> bool
    ensures { result ≡ moves what.now }
{
    matches!(
        what,
        What::Native { .. } | What::Resume { .. } | What::Deliver { .. } | What::Install { .. }
    )
}

/// One more step of the task whose newest call is in a row, if it has one.
fn advance(records: &mut Vec<CallRecord>, row: Option<usize>, what: &What)
    ensures { records.new.items ≡ advanced row what.now records.old.items }
{
    let Some(row) = row else {
        return;
    };
    if row < records.len() {
        let before = records[row];
        records[row] = before.after(what);
    }
}

impl CallRecords {
    /// Of no call.
    pub(crate) fn new(alloc: Global) -> CallRecords
        ensures places { result.places.items ≡ [] }
        ensures records { result.records.items ≡ [] }
    {
        CallRecords {
            places: Vec::new(alloc),
            records: Vec::new(alloc),
        }
    }

    /// The row of the call at a place. It is mostly the last one.
    fn row_at(&self, place: usize) -> Option<usize>
        ensures { Rise self.now.places.items → result ≡ row_in self.now.places.items place }
    {
        let last = self.places.len().saturating_sub(1);
        row_near(self.places.as_slice(), place, last)
    }

    /// The record in a row, if there is one.
    pub(crate) fn record_of(&self, row: Option<usize>) -> CallRecord
        ensures { result ≡ record_of_row self.now.records.items row }
    {
        let Some(row) = row else {
            return CallRecord::NONE;
        };
        match self.records.get(row) {
            Some(record) => *record,
            None => CallRecord::NONE,
        }
    }

    /// The record of the call at a place.
    pub(crate) fn record_at(&self, place: usize) -> CallRecord
        ensures { Rise self.now.places.items → result ≡ record_in self.now place }
    {
        self.record_of(self.row_at(place))
    }

    /// The record of the call at a place, whose row is expected here.
    pub(crate) fn record_near(&self, place: usize, expected: usize) -> CallRecord
        ensures { Rise self.now.places.items → result ≡ record_in self.now place }
    {
        self.record_of(row_near(self.places.as_slice(), place, expected))
    }

    /// A call is entered at a place, by a task of which this is kept.
    fn enter(&mut self, place: usize, facts: TaskFacts, what: &What) -> Result<(), NoMemory>
        ensures places { OnOk result (self.new.places.items ≡ self.old.places.items ++ place ∷ []) }
        ensures records { OnOk result (self.new.records.items ≡ self.old.records.items ++ first_record what.now facts ∷ []) }
    {
        let outcome: Outcome = outcome_at_entry(what);
        self.places.push(place)?;
        self.records.push(CallRecord {
            pid: facts.pid,
            outcome,
            number: None,
        })?;
        Ok(())
    }

    /// One more step of the task whose newest call is at a place, if it has one.
    fn advance(&mut self, call: Option<usize>, what: &What)
        ensures places { self.new.places.items ≡ self.old.places.items }
        ensures records { Rise self.old.places.items → self.new.records.items ≡ (if moves what.now then advanced (row_at self.old.places.items call) what.now self.old.records.items else self.old.records.items) }
    {
        let Some(place) = call else {
            return;
        };
        if moves(what) {
            let row = self.row_at(place);
            advance(&mut self.records, row, what);
        }
    }

    /// One more step, which has this place, by what is kept of its actor.
    pub(crate) fn note(
        &mut self,
        place: usize,
        facts: TaskFacts,
        what: &What,
    ) -> Result<(), NoMemory>
        ensures places { OnOk result (self.new.places.items ≡ placed what.now place self.old.places.items) }
        ensures records { Rise self.old.places.items → OnOk result (self.new.records.items ≡ recorded what.now facts (row_at self.old.places.items facts.newest) self.old.records.items) }
    {
        if enters(what) {
            return self.enter(place, facts, what);
        }
        self.advance(facts.newest, what);
        Ok(())
    }
}

//! What is kept of the calls of a history.

ghost use Rattle.std.specs.Prelude.{◌≡◌};
ghost use Rattle.audit_log.specs.Places.{Rise, call_in};
ghost use Rattle.audit_log.specs.Records.{number_at, record_in};

use crate::places::CallPlaces;
use crate::records::CallRecords;
use hist_model::report::Outcome;

/// What is kept of the calls that events enter, receive or answer. It has rows for these events alone, in the order of their places.
#[derive(Drop)]
pub struct CallTable {
    /// The calls that events enter, with what came of each.
    pub(crate) entered: CallRecords,
    /// Of the events that receive a notification, its call: the newest with its id.
    pub(crate) received: CallPlaces,
    /// Of the events that answer by an installation, the call that they answer: one that gave the number of a request with SEND.
    pub(crate) answered: CallPlaces,
    ghost entered_rise: { Rise entered.places.items },
    ghost received_rise: { Rise received.places.items },
    ghost answered_rise: { Rise answered.places.items },
}

impl CallTable {
    /// The call of the notification that the event at a place receives.
    pub fn received(&self, place: usize) -> Option<usize>
        ensures { result ≡ call_in self.now.received place }
    {
        self.received.call_at(place)
    }

    /// The same, whose row is expected here.
    pub(crate) fn received_near(&self, place: usize, expected: usize) -> Option<usize>
        ensures { result ≡ call_in self.now.received place }
    {
        self.received.call_near(place, expected)
    }

    /// The call that the event at a place answers by an installation.
    pub fn answered(&self, place: usize) -> Option<usize>
        ensures { result ≡ call_in self.now.answered place }
    {
        self.answered.call_at(place)
    }

    /// What came of the call that the event at a place enters.
    pub fn outcome(&self, place: usize) -> Outcome
        ensures { result ≡ (record_in self.now.entered place).outcome }
    {
        self.entered.record_at(place).outcome
    }

    /// The number that was installed for the call that the event at a place enters.
    pub fn number(&self, place: usize) -> Option<u32>
        ensures { result ≡ (record_in self.now.entered place).number }
    {
        self.entered.record_at(place).number
    }

    /// The number that was installed for the call of the notification that the event at a place received. Both rows are expected here.
    pub(crate) fn number_received(&self, place: usize, expected: usize) -> Option<u32>
        ensures { result ≡ number_at (record_in self.now.entered) (call_in self.now.received place) }
    {
        let call = self.received_near(place, expected)?;
        self.entered.record_near(call, expected).number
    }
}

//! Rows that stand for places of a history, in the order of the places.

ghost use Rattle.std.specs.Prelude.{◌≡◌, [], OnOk};
ghost use Rattle.audit_log.specs.Places.{Rise, call_in, grown, row_in, with_call};

use std::alloc::Global;
use sys_abi::memory::NoMemory;

/// The row of a place, where the places rise.
fn row_of(places: &[usize], place: usize) -> Option<usize>
    ensures { Rise places.now → result ≡ row_in places.now place }
{
    match places.binary_search(&place) {
        Ok(row) => Some(row),
        Err(_) => None,
    }
}

/// The row of a place, where the places rise. It is looked for first where it is expected.
pub(crate) fn row_near(places: &[usize], place: usize, expected: usize) -> Option<usize>
    ensures { Rise places.now → result ≡ row_in places.now place }
{
    if expected < places.len() && places[expected] == place {
        return Some(expected);
    }
    row_of(places, place)
}

/// The calls of some events, by the places of the events.
#[derive(Drop)]
pub(crate) struct CallPlaces {
    /// Of these events, from the oldest on.
    pub(crate) places: Vec<usize>,
    /// Of the call of each.
    pub(crate) calls: Vec<usize>,
}

impl CallPlaces {
    /// Of no event.
    pub(crate) fn new(alloc: Global) -> CallPlaces
        ensures places { result.places.items ≡ [] }
        ensures calls { result.calls.items ≡ [] }
    {
        CallPlaces {
            places: Vec::new(alloc),
            calls: Vec::new(alloc),
        }
    }

    /// With one more event, which has this place, if there is a call for it. Where there is none, as for most events, no call is made.
    #[inline(always)]
    pub(crate) fn note(&mut self, place: usize, call: Option<usize>) -> Result<(), NoMemory>
        ensures places { OnOk result (self.new.places.items ≡ grown call place self.old.places.items) }
        ensures calls { OnOk result (self.new.calls.items ≡ with_call call self.old.calls.items) }
    {
        if let Some(call) = call {
            self.places.push(place)?;
            self.calls.push(call)?;
        }
        Ok(())
    }

    /// The call of the event at a place.
    pub(crate) fn call_at(&self, place: usize) -> Option<usize>
        ensures { Rise self.now.places.items → result ≡ call_in self.now place }
    {
        let row = row_of(self.places.as_slice(), place)?;
        self.calls.get(row).copied()
    }

    /// The call of the event at a place, whose row is expected here.
    pub(crate) fn call_near(&self, place: usize, expected: usize) -> Option<usize>
        ensures { Rise self.now.places.items → result ≡ call_in self.now place }
    {
        let row = row_near(self.places.as_slice(), place, expected)?;
        self.calls.get(row).copied()
    }
}
